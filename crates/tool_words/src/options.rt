//! The options of the programs, in one table: their names, which programs take them, and what the
//! page of help says of them.

use crate::program::Program;
use std::fmt;

/// A page that is printed instead of doing a task.
#[derive(Clone, Copy)]
pub(crate) enum Page {
    Help,
    Version,
}

/// An option that takes no value.
#[derive(Clone, Copy)]
pub(crate) enum Switch {
    Check,
    Validate,
    EngineLimits,
    List,
    RustPanickingCode,
    RustFmtCode,
    Strip,
    StripDebug,
    KeepDebug,
    StripNames,
    StripProducers,
    Force,
    Quiet,
    Verbose,
    Collect,
}

/// An option that takes a value.
#[derive(Clone, Copy)]
pub(crate) enum Valued {
    Output,
    Pattern,
    NamesFrom,
    Keep,
    KeepPattern,
    KeepNamesFrom,
    Export,
    Costs,
    /// The module of an import, before its name.
    Import,
    ImportName,
    Global,
    Map,
    SourceMap,
    OutputSourceMap,
    SourceMapUrl,
    KeepSection,
    RemoveSection,
}

/// What an option asks for.
#[derive(Clone, Copy)]
pub(crate) enum Choice {
    Page(Page),
    Switch(Switch),
    Valued(Valued),
}

/// The programs that take an option.
#[derive(Clone, Copy)]
enum Takers {
    All,
    /// Those that can check a module.
    Checking,
    /// Those that are given functions.
    Choosing,
    /// Those that always leave out what nothing reaches.
    Collecting,
    /// Those that export something.
    Exporting,
    /// Those that charge code.
    Charging,
}

impl Takers {
    fn include(self, program: &Program) -> bool {
        match self {
            Takers::All => true,
            Takers::Checking => program.takes_check,
            Takers::Choosing => program.takes_functions,
            Takers::Collecting => program.collects,
            Takers::Exporting => program.takes_export,
            Takers::Charging => program.takes_costs,
        }
    }
}

/// An option.
#[derive(Clone, Copy)]
struct Row {
    /// Its name of one letter, if it has one.
    letter: Option<char>,
    name: &'static str,
    choice: Choice,
    takers: Takers,
    help: &'static str,
}

/// How many options there are.
const COUNT: usize = 35;

/// The options, in the order of the page of help.
const ROWS: [Row; COUNT] = [
    Row {
        letter: None,
        name: "--check",
        choice: Choice::Switch(Switch::Check),
        takers: Takers::Checking,
        help: "
      --check          write nothing, and print a line for each function that is
                       refused; types are checked with --validate alone",
    },
    Row {
        letter: None,
        name: "--validate",
        choice: Choice::Switch(Switch::Validate),
        takers: Takers::All,
        help: "
      --validate       refuse a module that is not valid, before anything else
                       is done with it",
    },
    Row {
        letter: None,
        name: "--engine-limits",
        choice: Choice::Switch(Switch::EngineLimits),
        takers: Takers::All,
        help: "
      --engine-limits  as --validate; and refuse a module that is above a limit
                       of engines, such as 1,000 parameters of a function",
    },
    Row {
        letter: None,
        name: "--pattern",
        choice: Choice::Valued(Valued::Pattern),
        takers: Takers::Choosing,
        help: "
      --pattern REGEX  each function whose name contains a match, also where the
                       name is that of Rust, demangled; may be repeated",
    },
    Row {
        letter: None,
        name: "--names-from",
        choice: Choice::Valued(Valued::NamesFrom),
        takers: Takers::Choosing,
        help: "
      --names-from FILE
                       the functions that FILE names, one in each line",
    },
    Row {
        letter: None,
        name: "--rust-panicking-code",
        choice: Choice::Switch(Switch::RustPanickingCode),
        takers: Takers::Choosing,
        help: "
      --rust-panicking-code
                       the functions of Rust that panic",
    },
    Row {
        letter: None,
        name: "--rust-fmt-code",
        choice: Choice::Switch(Switch::RustFmtCode),
        takers: Takers::Choosing,
        help: "
      --rust-fmt-code  the functions of Rust that format text",
    },
    Row {
        letter: None,
        name: "--list",
        choice: Choice::Switch(Switch::List),
        takers: Takers::Choosing,
        help: "
      --list           write no module, and print the index, the size and the
                       name of each function",
    },
    Row {
        letter: None,
        name: "--gc",
        choice: Choice::Switch(Switch::Collect),
        takers: Takers::Choosing,
        help: "
      --gc             leave out what nothing reaches any more, as `wgc` does",
    },
    Row {
        letter: None,
        name: "--keep",
        choice: Choice::Valued(Valued::Keep),
        takers: Takers::Choosing,
        help: "
      --keep FUNCTION  with --gc, keep a function, by its index or name, and all
                       that it reaches; may be repeated",
    },
    Row {
        letter: None,
        name: "--keep",
        choice: Choice::Valued(Valued::Keep),
        takers: Takers::Collecting,
        help: "
      --keep FUNCTION  keep a function, by its index or name, and all that it
                       reaches; may be repeated",
    },
    Row {
        letter: None,
        name: "--pattern",
        choice: Choice::Valued(Valued::KeepPattern),
        takers: Takers::Collecting,
        help: "
      --pattern REGEX  keep each function whose name contains a match, also where
                       the name is that of Rust, demangled; may be repeated",
    },
    Row {
        letter: None,
        name: "--names-from",
        choice: Choice::Valued(Valued::KeepNamesFrom),
        takers: Takers::Collecting,
        help: "
      --names-from FILE
                       keep the functions that FILE names, one in each line",
    },
    Row {
        letter: None,
        name: "--list",
        choice: Choice::Switch(Switch::List),
        takers: Takers::Collecting,
        help: "
      --list           write no module, and print the index, the size and the
                       name of each function that would be left out",
    },
    Row {
        letter: None,
        name: "--export",
        choice: Choice::Valued(Valued::Export),
        takers: Takers::Exporting,
        help: "
      --export NAME    export the number of calls as NAME",
    },
    Row {
        letter: None,
        name: "--costs",
        choice: Choice::Valued(Valued::Costs),
        takers: Takers::Charging,
        help: "
      --costs FILE     read what operators cost: a JSON object such as
                       {\"call\": 5, \"i32.div_s\": 2}, of integers from 0 to
                       2147483647; all others cost 1",
    },
    Row {
        letter: None,
        name: "--import",
        choice: Choice::Valued(Valued::Import),
        takers: Takers::Charging,
        help: "
      --import MODULE NAME
                       charge by a call of the imported function MODULE.NAME,
                       which takes an i64; without this or --global of
                       wmeter.charge",
    },
    Row {
        letter: None,
        name: "--global",
        choice: Choice::Valued(Valued::Global),
        takers: Takers::Charging,
        help: "
      --global NAME    add up what is charged in a global, exported as NAME",
    },
    Row {
        letter: Some('o'),
        name: "--output",
        choice: Choice::Valued(Valued::Output),
        takers: Takers::All,
        help: "
  -o, --output FILE    write the module to FILE, instead of OUT.wasm",
    },
    Row {
        letter: None,
        name: "--force",
        choice: Choice::Switch(Switch::Force),
        takers: Takers::All,
        help: "
      --force          replace a file that is write-protected",
    },
    Row {
        letter: None,
        name: "--map",
        choice: Choice::Valued(Valued::Map),
        takers: Takers::All,
        help: "
      --map FILE       write a line for each operator to FILE: its old and its
                       new offset from the start of the module, in hexadecimal",
    },
    Row {
        letter: None,
        name: "--source-map",
        choice: Choice::Valued(Valued::SourceMap),
        takers: Takers::All,
        help: "
      --source-map FILE
                       read the source map of IN.wasm (version 3)",
    },
    Row {
        letter: None,
        name: "--output-source-map",
        choice: Choice::Valued(Valued::OutputSourceMap),
        takers: Takers::All,
        help: "
      --output-source-map FILE
                       write that of OUT.wasm, whose mappings follow the
                       operators",
    },
    Row {
        letter: None,
        name: "--source-map-url",
        choice: Choice::Valued(Valued::SourceMapUrl),
        takers: Takers::All,
        help: "
      --source-map-url URL
                       write URL in OUT.wasm, as the place of its source map",
    },
    Row {
        letter: None,
        name: "--strip",
        choice: Choice::Switch(Switch::Strip),
        takers: Takers::All,
        help: "
      --strip          leave out all custom sections",
    },
    Row {
        letter: None,
        name: "--strip-debug",
        choice: Choice::Switch(Switch::StripDebug),
        takers: Takers::All,
        help: "
      --strip-debug    leave out debug information and source maps",
    },
    Row {
        letter: None,
        name: "--keep-debug",
        choice: Choice::Switch(Switch::KeepDebug),
        takers: Takers::All,
        help: "
      --keep-debug     write debug information as it is, though the code changes",
    },
    Row {
        letter: None,
        name: "--strip-names",
        choice: Choice::Switch(Switch::StripNames),
        takers: Takers::All,
        help: "
      --strip-names    leave out the section `name`",
    },
    Row {
        letter: None,
        name: "--strip-producers",
        choice: Choice::Switch(Switch::StripProducers),
        takers: Takers::All,
        help: "
      --strip-producers
                       leave out the section `producers`",
    },
    Row {
        letter: None,
        name: "--remove-section",
        choice: Choice::Valued(Valued::RemoveSection),
        takers: Takers::All,
        help: "
      --remove-section NAME
                       leave out the custom sections NAME; may be repeated",
    },
    Row {
        letter: None,
        name: "--keep-section",
        choice: Choice::Valued(Valued::KeepSection),
        takers: Takers::All,
        help: "
      --keep-section NAME
                       keep the custom sections NAME, whatever else leaves them
                       out; may be repeated",
    },
    Row {
        letter: Some('q'),
        name: "--quiet",
        choice: Choice::Switch(Switch::Quiet),
        takers: Takers::All,
        help: "
  -q, --quiet          print no warnings",
    },
    Row {
        letter: Some('v'),
        name: "--verbose",
        choice: Choice::Switch(Switch::Verbose),
        takers: Takers::All,
        help: "
  -v, --verbose        print how many functions and bytes were read, how many
                       bytes were written, and the time",
    },
    Row {
        letter: Some('h'),
        name: "--help",
        choice: Choice::Page(Page::Help),
        takers: Takers::All,
        help: "
  -h, --help           print this",
    },
    Row {
        letter: Some('V'),
        name: "--version",
        choice: Choice::Page(Page::Version),
        takers: Takers::All,
        help: "
  -V, --version        print the version",
    },
];

/// What the page of help says of the word that ends the options.
const END_OF_OPTIONS: &str = "
      --               what follows is no option";

/// The option of a program with this name.
pub(crate) fn option_named(program: &Program, name: &str) -> Option<Choice> {
    for row in &ROWS {
        if row.name == name && row.takers.include(program) {
            return Some(row.choice);
        }
    }
    None
}

/// The option of a program with this letter.
pub(crate) fn option_with_letter(program: &Program, letter: char) -> Option<Choice> {
    for row in &ROWS {
        if row.letter == Some(letter) && row.takers.include(program) {
            return Some(row.choice);
        }
    }
    None
}

impl Valued {
    /// Its name.
    pub fn name(self) -> &'static str {
        match self {
            Valued::Output => "--output",
            Valued::Pattern | Valued::KeepPattern => "--pattern",
            Valued::NamesFrom | Valued::KeepNamesFrom => "--names-from",
            Valued::Keep => "--keep",
            Valued::Export => "--export",
            Valued::Costs => "--costs",
            Valued::Import | Valued::ImportName => "--import",
            Valued::Global => "--global",
            Valued::Map => "--map",
            Valued::SourceMap => "--source-map",
            Valued::OutputSourceMap => "--output-source-map",
            Valued::SourceMapUrl => "--source-map-url",
            Valued::KeepSection => "--keep-section",
            Valued::RemoveSection => "--remove-section",
        }
    }

    /// Whether its value is a path.
    pub fn is_path(self) -> bool {
        matches!(
            self,
            Valued::Output
                | Valued::NamesFrom
                | Valued::KeepNamesFrom
                | Valued::Costs
                | Valued::Map
                | Valued::SourceMap
                | Valued::OutputSourceMap
        )
    }
}

/// The page of help of a program.
#[derive(Clone, Copy)]
pub(crate) struct HelpPage<'p>(pub &'p Program);

impl fmt::Display for HelpPage<'_> {
    fn fmt<W: fmt::Write>(&self, f: &mut fmt::Formatter<W>) -> fmt::Result {
        f.write_str(self.0.about)?;
        f.write_str("\n")?;
        for row in &ROWS {
            if row.takers.include(self.0) {
                f.write_str(row.help)?;
            }
        }
        f.write_str(END_OF_OPTIONS)?;
        f.write_str("\n\n")?;
        f.write_str(self.0.ending)
    }
}
