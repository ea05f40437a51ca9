//! The words of a program, read.

ghost use Rattle.std.specs.Prelude.{◌≡◌, [], length, nat_lt, true, false, None, IsNone, IsTrue, IfOk, IfErr};
ghost use Rattle.tool_words.specs.Words.{ChecksAlone, IsTaskOf, IsRequestOf, IsRefusedRequest, WritesNoFile};

use crate::ending::ProgramFailure;
use crate::options::{Choice, Page, Switch, Valued, option_named, option_with_letter};
use crate::program::Program;
use crate::task::{Asked, ChargeBy, Charging, MapPaths, Request, SectionChoice, Task};
use crate::usage_error::UsageError;
use std::alloc::Global;

/// Gives an option its value.
fn set_value<'w>(
    option: &mut Option<&'w str>,
    value: &'w str,
    name: &'static str,
) -> Result<(), ProgramFailure<'w>>
    ensures { IfErr result IsRefusedRequest }
{
    if option.is_some() {
        return Err(ProgramFailure::UsageError(UsageError::GivenTwice(name)));
    }
    *option = Some(value);
    Ok(())
}

/// Adds to a list.
fn add<'w, T: Drop>(list: &mut Vec<T>, item: T) -> Result<(), ProgramFailure<'w>>
    ensures { IfErr result IsRefusedRequest }
{
    match list.push(item) {
        Ok(()) => Ok(()),
        Err(_) => Err(ProgramFailure::Memory),
    }
}

/// The name of an option, and the value that is given with it.
fn split_option(word: &str) -> (&str, Option<&str>) {
    match word.split_once('=') {
        Some((name, value)) => (name, Some(value)),
        None => (word, None),
    }
}

/// The options that are given, but for those that may be repeated.
#[derive(Clone, Copy)]
struct Options<'w> {
    is_verbose: bool,
    is_quiet: bool,
    is_forced: bool,
    /// Whether a module that isn't valid is refused.
    validates: bool,
    /// Whether a module that is above a limit of engines is refused, too.
    has_limits: bool,
    /// Whether no module is written, since its bodies are only checked or listed.
    reads_alone: bool,
    /// Whether they are listed then.
    lists: bool,
    /// Whether what nothing reaches is left out.
    collects: bool,
    output: Option<&'w str>,
    map: Option<&'w str>,
    source_map: Option<&'w str>,
    output_source_map: Option<&'w str>,
    source_map_url: Option<&'w str>,
    export: Option<&'w str>,
    costs: Option<&'w str>,
    /// The module and the name of the import by which code is charged.
    import: Option<&'w str>,
    import_name: Option<&'w str>,
    global: Option<&'w str>,
    /// The option whose value is the next word.
    awaits: Option<Valued>,
}

impl<'w> Options<'w> {
    fn none() -> Options<'w> {
        Options {
            is_verbose: false,
            is_quiet: false,
            is_forced: false,
            validates: false,
            has_limits: false,
            reads_alone: false,
            lists: false,
            collects: false,
            output: None,
            map: None,
            source_map: None,
            output_source_map: None,
            source_map_url: None,
            export: None,
            costs: None,
            import: None,
            import_name: None,
            global: None,
            awaits: None,
        }
    }

    /// The option with which no module is written.
    fn for_reading(&self) -> &'static str {
        match self.lists {
            true => "--list",
            false => "--check",
        }
    }

    /// The option that is for a module that is written, if one is given.
    fn for_writing(&self) -> Option<&'static str>
        ensures { IsNone result → ChecksAlone self.now }
    {
        match () {
            _ if self.output.is_some() => Some("--output"),
            _ if self.map.is_some() => Some("--map"),
            _ if self.source_map.is_some() => Some("--source-map"),
            _ if self.output_source_map.is_some() => Some("--output-source-map"),
            _ if self.source_map_url.is_some() => Some("--source-map-url"),
            _ if self.export.is_some() => Some("--export"),
            _ if self.is_forced => Some("--force"),
            _ if self.collects => Some("--gc"),
            _ => None,
        }
    }

    /// What is wrong with the options of source maps, if something is.
    fn source_map_fault(&self) -> Option<UsageError<'w>> {
        let (input, output) = ("--source-map", "--output-source-map");
        match (self.source_map, self.output_source_map) {
            (Some(_), None) => Some(UsageError::Requires(input, output)),
            (None, Some(_)) => Some(UsageError::Requires(output, input)),
            _ => None,
        }
    }

    /// What is wrong with the options of what code is charged by, if something is.
    fn charging_fault(&self) -> Option<UsageError<'w>> {
        match (self.import, self.global) {
            (Some(_), Some(_)) => Some(UsageError::NotBoth("--import", "--global")),
            _ => None,
        }
    }

    /// What code costs and is charged by, where the program charges it.
    fn charging(&self, program: &Program) -> Option<Charging<'w>> {
        if !program.takes_costs {
            return None;
        }
        let by = match (self.global, self.import, self.import_name) {
            (Some(name), _, _) => ChargeBy::Global(name),
            (None, Some(module), Some(name)) => ChargeBy::Import(module, name),
            _ => ChargeBy::Import("wmeter", "charge"),
        };
        let costs = self.costs;
        Some(Charging { costs, by })
    }

    /// The files of source maps, if both are given.
    fn map_paths(&self) -> Option<MapPaths<'w>>
        ensures { self.now.source_map ≡ None → result ≡ None }
    {
        match (self.source_map, self.output_source_map) {
            (Some(input), Some(output)) => Some(MapPaths { input, output }),
            _ => None,
        }
    }
}

/// The words, taken apart.
#[derive(Drop)]
struct Words<'w> {
    options: Options<'w>,
    /// Whether `--` came, after which no word is an option.
    has_ended: bool,
    /// The words that are no options, nor their values.
    operands: Vec<&'w str>,
    functions: Vec<Asked<'w>>,
    /// The functions that are kept where others are left out.
    kept: Vec<Asked<'w>>,
    sections: Vec<SectionChoice<'w>>,
}

impl<'w> Words<'w> {
    fn new(alloc: Global) -> Words<'w> {
        Words {
            options: Options::none(),
            has_ended: false,
            operands: Vec::new(alloc),
            functions: Vec::new(alloc),
            kept: Vec::new(alloc),
            sections: Vec::new(alloc),
        }
    }

    /// Takes an option that has no value. It may be given more than once.
    fn take_switch(&mut self, switch: Switch) -> Result<(), ProgramFailure<'w>>
        ensures { IfErr result IsRefusedRequest }
    {
        match switch {
            Switch::Check => self.options.reads_alone = true,
            Switch::List => {
                self.options.reads_alone = true;
                self.options.lists = true;
            }
            Switch::Validate => self.options.validates = true,
            Switch::EngineLimits => {
                self.options.validates = true;
                self.options.has_limits = true;
            }
            Switch::Force => self.options.is_forced = true,
            Switch::Quiet => self.options.is_quiet = true,
            Switch::Verbose => self.options.is_verbose = true,
            Switch::Collect => self.options.collects = true,
            Switch::RustPanickingCode => {
                return add(&mut self.functions, Asked::RustPanickingCode);
            }
            Switch::RustFmtCode => return add(&mut self.functions, Asked::RustFmtCode),
            Switch::Strip => return add(&mut self.sections, SectionChoice::LeaveOutAll),
            Switch::StripDebug => return add(&mut self.sections, SectionChoice::LeaveOutDebug),
            Switch::KeepDebug => return add(&mut self.sections, SectionChoice::KeepDebug),
            Switch::StripNames => {
                return add(&mut self.sections, SectionChoice::LeaveOut("name"));
            }
            Switch::StripProducers => {
                return add(&mut self.sections, SectionChoice::LeaveOut("producers"));
            }
        }
        Ok(())
    }

    /// Gives an option its value.
    fn set(&mut self, valued: Valued, value: &'w str) -> Result<(), ProgramFailure<'w>>
        ensures { IfErr result IsRefusedRequest }
    {
        let name = valued.name();
        match valued {
            Valued::Output => set_value(&mut self.options.output, value, name),
            Valued::Export => set_value(&mut self.options.export, value, name),
            Valued::Costs => set_value(&mut self.options.costs, value, name),
            Valued::Import => {
                // Its name is the next word.
                self.options.awaits = Some(Valued::ImportName);
                set_value(&mut self.options.import, value, name)
            }
            Valued::ImportName => set_value(&mut self.options.import_name, value, name),
            Valued::Global => set_value(&mut self.options.global, value, name),
            Valued::Map => set_value(&mut self.options.map, value, name),
            Valued::SourceMap => set_value(&mut self.options.source_map, value, name),
            Valued::OutputSourceMap => {
                set_value(&mut self.options.output_source_map, value, name)
            }
            Valued::SourceMapUrl => set_value(&mut self.options.source_map_url, value, name),
            Valued::Pattern => add(&mut self.functions, Asked::Pattern(value)),
            Valued::NamesFrom => add(&mut self.functions, Asked::NamesFrom(value)),
            Valued::Keep => add(&mut self.kept, Asked::Function(value)),
            Valued::KeepPattern => add(&mut self.kept, Asked::Pattern(value)),
            Valued::KeepNamesFrom => add(&mut self.kept, Asked::NamesFrom(value)),
            Valued::KeepSection => add(&mut self.sections, SectionChoice::Keep(value)),
            Valued::RemoveSection => add(&mut self.sections, SectionChoice::LeaveOut(value)),
        }
    }

    /// Gives an option its value, if that is known; else it is the next word.
    fn take_value(
        &mut self,
        valued: Valued,
        value: Option<&'w str>,
    ) -> Result<(), ProgramFailure<'w>>
        ensures { IfErr result IsRefusedRequest }
    {
        let Some(value) = value else {
            self.options.awaits = Some(valued);
            return Ok(());
        };
        self.options.awaits = None;
        if value.is_empty() && valued.is_path() {
            return Err(ProgramFailure::UsageError(UsageError::NoValue(valued.name())));
        }
        self.set(valued, value)
    }

    /// Takes an option that is named in full, and returns the page that it requests.
    fn take_long(
        &mut self,
        program: &Program,
        word: &'w str,
    ) -> Result<Option<Page>, ProgramFailure<'w>>
        ensures { IfErr result IsRefusedRequest }
    {
        let (name, value) = split_option(word);
        let taken = match option_named(program, name) {
            None => return Err(ProgramFailure::UsageError(UsageError::UnknownOption(name))),
            Some(Choice::Valued(valued)) => self.take_value(valued, value),
            Some(_) if value.is_some() => {
                return Err(ProgramFailure::UsageError(UsageError::UnwantedValue(name)));
            }
            Some(Choice::Switch(switch)) => self.take_switch(switch),
            Some(Choice::Page(page)) => return Ok(Some(page)),
        };
        match taken {
            Ok(()) => Ok(None),
            Err(failure) => Err(failure),
        }
    }

    /// Takes options of one letter each, after a hyphen, and returns the page that one of them
    /// requests. What follows the letter of an option with a value is its value.
    fn take_letters(
        &mut self,
        program: &Program,
        word: &'w str,
    ) -> Result<Option<Page>, ProgramFailure<'w>>
        ensures { IfErr result IsRefusedRequest }
    {
        let mut letters = word.chars();
        letters.next();
        for _ in 1..word.len() {
            let Some(letter) = letters.next() else {
                break;
            };
            let taken = match option_with_letter(program, letter) {
                None => return Err(ProgramFailure::UsageError(UsageError::UnknownOption(word))),
                Some(Choice::Page(page)) => return Ok(Some(page)),
                Some(Choice::Switch(switch)) => self.take_switch(switch),
                Some(Choice::Valued(valued)) => {
                    let rest = letters.as_str();
                    let value = if rest.is_empty() { None } else { Some(rest) };
                    letters = "".chars();
                    self.take_value(valued, value)
                }
            };
            match taken {
                Ok(()) => {}
                Err(failure) => return Err(failure),
            }
        }
        Ok(None)
    }

    /// Takes a word that is no value of an option. One that asks for a page ends the reading.
    fn take_next(
        &mut self,
        program: &Program,
        word: &'w str,
    ) -> Result<Option<Page>, ProgramFailure<'w>>
        ensures { IfErr result IsRefusedRequest }
    {
        if self.has_ended || word == "-" || !word.starts_with('-') {
            match add(&mut self.operands, word) {
                Ok(()) => Ok(None),
                Err(failure) => Err(failure),
            }
        } else if word == "--" {
            self.has_ended = true;
            Ok(None)
        } else if word.starts_with("--") {
            self.take_long(program, word)
        } else {
            self.take_letters(program, word)
        }
    }

    /// Takes a word. One that asks for a page ends the reading.
    fn take(&mut self, program: &Program, word: &'w str) -> Result<Option<Page>, ProgramFailure<'w>>
        ensures { IfErr result IsRefusedRequest }
    {
        let Some(valued) = self.options.awaits else {
            return self.take_next(program, word);
        };
        match self.take_value(valued, Some(word)) {
            Ok(()) => Ok(None),
            Err(failure) => Err(failure),
        }
    }

    /// How many of the words that are no options are files.
    fn file_count(&self) -> usize {
        match self.options.reads_alone || self.options.output.is_some() {
            true => 1,
            false => 2,
        }
    }

    /// Takes the words after the files as functions.
    fn take_functions(&mut self) -> Result<(), ProgramFailure<'w>>
        ensures { IfErr result IsRefusedRequest }
    {
        let files = self.file_count();
        for word in self.operands.iter().skip(files) {
            match add(&mut self.functions, Asked::Function(*word)) {
                Ok(()) => {}
                Err(failure) => return Err(failure),
            }
        }
        Ok(())
    }

    /// Where the module is written; none where none is.
    fn output(&self) -> Option<&'w str>
        ensures none { IsNone result → self.now.options.reads_alone ≡ true }
        ensures alone { self.now.options.reads_alone ≡ true → result ≡ None }
    {
        if self.options.reads_alone {
            return None;
        }
        match (self.options.output, self.operands.get(1)) {
            (Some(output), _) => Some(output),
            (None, Some(output)) => Some(*output),
            (None, None) => Some("-"),
        }
    }

    /// Whether what nothing reaches is left out.
    fn collects(&self, program: &Program) -> bool
        ensures { program.now.collects ≡ true → result ≡ true }
    {
        program.collects || self.options.collects
    }

    /// Whether the functions are listed, and no module is written.
    fn lists(&self) -> bool
        ensures { IsTrue result → self.now.options.reads_alone ≡ true }
    {
        self.options.reads_alone && self.options.lists
    }

    /// The option that is for a module that is written, if one is given.
    fn for_writing(&self) -> Option<&'static str>
        ensures options { IsNone result → ChecksAlone self.now.options }
        ensures sections { IsNone result → self.now.sections.items ≡ [] }
    {
        match self.sections.first() {
            None => self.options.for_writing(),
            Some(section) => Some(section.name()),
        }
    }

    /// What is wrong with the options, if something is.
    fn options_fault(&self) -> Option<UsageError<'w>>
        ensures options { IsNone result → self.now.options.reads_alone ≡ true
            → ChecksAlone self.now.options }
        ensures sections { IsNone result → self.now.options.reads_alone ≡ true
            → self.now.sections.items ≡ [] }
    {
        if let Some(valued) = self.options.awaits {
            return Some(UsageError::NoValue(valued.name()));
        }
        if let Some(fault) = self.options.charging_fault() {
            return Some(fault);
        }
        if !self.options.reads_alone {
            return self.options.source_map_fault();
        }
        match self.for_writing() {
            Some(option) => Some(UsageError::NotWith(option, self.options.for_reading())),
            None => None,
        }
    }

    /// What is wrong with the functions that are kept, if something is, where what nothing reaches is left out or isn't.
    fn kept_fault(&self, collects: bool) -> Option<UsageError<'w>>
        ensures { IsNone result → collects ≡ false → self.now.kept.items ≡ [] }
    {
        match (self.kept.first(), collects) {
            (Some(_), false) => Some(UsageError::Requires("--keep", "--gc")),
            (None, _) | (Some(_), true) => None,
        }
    }

    /// What is wrong with the files, if something is.
    fn files_fault(&self) -> Option<UsageError<'w>> {
        let mut files = self.operands.iter().take(self.file_count());
        match files.any(|file| file.is_empty()) {
            true => Some(UsageError::EmptyPath),
            false => None,
        }
    }

    /// What is wrong with the functions, if something is, where they are listed or aren't.
    fn functions_fault(&self, program: &Program, lists: bool) -> Option<UsageError<'w>>
        ensures asked { IsNone result → lists ≡ false
            → nat_lt 0 (length self.now.functions.items) ≡ program.now.takes_functions }
        ensures listed { IsNone result → lists ≡ true → self.now.functions.items ≡ [] }
    {
        match (self.functions.first(), lists, program.takes_functions) {
            (Some(asked), true, _) | (Some(asked), false, false) => Some(self.unwanted(*asked)),
            (None, false, true) => Some(UsageError::NoFunctions),
            (None, true, _) | (Some(_), false, true) | (None, false, false) => None,
        }
    }

    /// The wrong use that functions are asked for where none are taken.
    fn unwanted(&self, asked: Asked<'w>) -> UsageError<'w> {
        match asked {
            Asked::Function(word) => UsageError::Unexpected(word),
            option => UsageError::NotWith(option.name(), self.options.for_reading()),
        }
    }

    /// What is wrong with all words together, if something is, where functions are listed or aren't, and where what nothing reaches is
    /// left out or isn't.
    fn fault(&self, program: &Program, lists: bool, collects: bool) -> Option<UsageError<'w>>
        ensures kept { IsNone result → collects ≡ false → self.now.kept.items ≡ [] }
        ensures asked { IsNone result → lists ≡ false
            → nat_lt 0 (length self.now.functions.items) ≡ program.now.takes_functions }
        ensures listed { IsNone result → lists ≡ true → self.now.functions.items ≡ [] }
        ensures options { IsNone result → self.now.options.reads_alone ≡ true
            → ChecksAlone self.now.options }
        ensures sections { IsNone result → self.now.options.reads_alone ≡ true
            → self.now.sections.items ≡ [] }
    {
        if let Some(fault) = self.options_fault() {
            return Some(fault);
        }
        if let Some(fault) = self.files_fault() {
            return Some(fault);
        }
        if let Some(fault) = self.kept_fault(collects) {
            return Some(fault);
        }
        self.functions_fault(program, lists)
    }

    /// What the words ask for of this module, after it is known that they are right.
    fn into_task(
        self,
        input: &'w str,
        lists: bool,
        collects: bool,
        charging: Option<Charging<'w>>,
    ) -> Task<'w>
        ensures functions { result.functions ≡ self.entry.functions }
        ensures kept { result.kept ≡ self.entry.kept }
        ensures collects { result.collects ≡ collects }
        ensures sections { result.sections ≡ self.entry.sections }
        ensures lists { result.lists ≡ lists }
        ensures none { IsNone result.output → self.entry.options.reads_alone ≡ true }
        ensures alone { self.entry.options.reads_alone ≡ true → result.output ≡ None }
        ensures files { ChecksAlone self.entry.options → WritesNoFile result }
    {
        let Options {
            map,
            source_map_url,
            export,
            validates,
            has_limits,
            is_forced,
            is_quiet,
            is_verbose,
            ..
        } = self.options;
        let output = self.output();
        let names_output = self.options.output.is_some() || self.operands.len() > 1;
        let source_map = self.options.map_paths();
        Task {
            input,
            output,
            names_output,
            map,
            source_map,
            source_map_url,
            functions: self.functions,
            collects,
            kept: self.kept,
            export,
            charging,
            sections: self.sections,
            validates,
            has_limits,
            lists,
            is_forced,
            is_quiet,
            is_verbose,
        }
    }

    /// What the words ask for.
    fn task(mut self, program: &Program) -> Result<Task<'w>, ProgramFailure<'w>>
        ensures task { IfOk result (IsTaskOf program.now) }
        ensures refused { IfErr result IsRefusedRequest }
    {
        let Some(input) = self.operands.first().copied() else {
            return Err(ProgramFailure::UsageError(UsageError::NoInput));
        };
        match self.take_functions() {
            Ok(()) => {}
            Err(failure) => return Err(failure),
        }
        let lists = self.lists();
        let collects = self.collects(program);
        let charging = self.options.charging(program);
        match self.fault(program, lists, collects) {
            Some(fault) => Err(ProgramFailure::UsageError(fault)),
            None => Ok(self.into_task(input, lists, collects, charging)),
        }
    }
}

/// What these words ask for, without the program's own name.
///
/// # Errors
///
/// The first that is wrong with them; or that memory ran out.
pub fn read_arguments<'w>(
    alloc: Global,
    program: &Program,
    words: &'w [String],
) -> Result<Request<'w>, ProgramFailure<'w>>
    ensures request { IfOk result (IsRequestOf program.now) }
    ensures refused { IfErr result IsRefusedRequest }
{
    let mut taken = Words::new(alloc);
    for word in words {
        match taken.take(program, word.as_str()) {
            Ok(None) => {}
            Ok(Some(Page::Help)) => return Ok(Request::Help),
            Ok(Some(Page::Version)) => return Ok(Request::Version),
            Err(failure) => return Err(failure),
        }
    }
    match taken.task(program) {
        Ok(task) => Ok(Request::Task(task)),
        Err(failure) => Err(failure),
    }
}
