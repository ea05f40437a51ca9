//! What a program's words ask for.

/// The files of source maps.
#[derive(Clone, Copy)]
pub struct MapPaths<'w> {
    /// The source map of the module that is read.
    pub input: &'w str,
    /// Where the source map of the module that is written goes.
    pub output: &'w str,
}

/// What code is charged by.
#[derive(Clone, Copy)]
pub enum ChargeBy<'w> {
    /// A function that takes an i64, imported from this module under this name.
    Import(&'w str, &'w str),
    /// A mutable i64 that is 0 at first, exported under this name.
    Global(&'w str),
}

/// What charged code costs, and what it is charged by.
#[derive(Clone, Copy)]
pub struct Charging<'w> {
    /// The table of costs, if one is given.
    pub costs: Option<&'w str>,
    pub by: ChargeBy<'w>,
}

/// Functions that are asked for.
#[derive(Clone, Copy)]
pub enum Asked<'w> {
    /// The one with this index or name.
    Function(&'w str),
    /// Those whose names contain a match of this regular expression.
    Pattern(&'w str),
    /// Those that are named in this file.
    NamesFrom(&'w str),
    /// Those of Rust that panic.
    RustPanickingCode,
    /// Those of Rust that format text.
    RustFmtCode,
}

/// Custom sections that are left out, or kept all the same.
#[derive(Clone, Copy)]
pub enum SectionChoice<'w> {
    /// All are left out.
    LeaveOutAll,
    /// Those with debug information are left out.
    LeaveOutDebug,
    /// Those with this name are left out.
    LeaveOut(&'w str),
    /// Those with this name are kept.
    Keep(&'w str),
    /// Those with debug information are kept as they are, though the code changes.
    KeepDebug,
}

impl Asked<'_> {
    /// The option by which they are asked for; of one that no option asks for nothing.
    pub(crate) fn name(self) -> &'static str {
        match self {
            Asked::Function(_) => "",
            Asked::Pattern(_) => "--pattern",
            Asked::NamesFrom(_) => "--names-from",
            Asked::RustPanickingCode => "--rust-panicking-code",
            Asked::RustFmtCode => "--rust-fmt-code",
        }
    }
}

impl SectionChoice<'_> {
    /// The option by which they are chosen.
    pub(crate) fn name(self) -> &'static str {
        match self {
            SectionChoice::LeaveOutAll => "--strip",
            SectionChoice::LeaveOutDebug => "--strip-debug",
            SectionChoice::LeaveOut("name") => "--strip-names",
            SectionChoice::LeaveOut("producers") => "--strip-producers",
            SectionChoice::LeaveOut(_) => "--remove-section",
            SectionChoice::Keep(_) => "--keep-section",
            SectionChoice::KeepDebug => "--keep-debug",
        }
    }
}

/// What a program is to do. A path is `-` for standard input or output.
#[derive(Drop)]
pub struct Task<'w> {
    /// The module that is read.
    pub input: &'w str,
    /// Where the module is written; none where its bodies are only checked or listed.
    pub output: Option<&'w str>,
    /// Whether the words say where the module is written. Else it goes to standard output.
    pub names_output: bool,
    /// Where the location map is written.
    pub map: Option<&'w str>,
    /// The source map that follows the module, if one is asked for.
    pub source_map: Option<MapPaths<'w>>,
    /// Where that is found, as the module will say; none where the module says what it said before.
    pub source_map_url: Option<&'w str>,
    /// The functions that are asked for.
    pub functions: Vec<Asked<'w>>,
    /// Whether what nothing reaches is left out.
    pub collects: bool,
    /// The functions that are kept then, with all that they reach.
    pub kept: Vec<Asked<'w>>,
    /// The name of what is exported; none where the program chooses it.
    pub export: Option<&'w str>,
    /// What code costs and is charged by; none of a program that charges none.
    pub charging: Option<Charging<'w>>,
    /// The custom sections that are left out.
    pub sections: Vec<SectionChoice<'w>>,
    /// Whether a module that isn't valid is refused.
    pub validates: bool,
    /// Whether a module that is above a limit of engines is refused, too.
    pub has_limits: bool,
    /// Whether the functions are listed, and no module is written.
    pub lists: bool,
    /// Whether a file that is write-protected is replaced.
    pub is_forced: bool,
    /// Whether no warnings are printed.
    pub is_quiet: bool,
    /// Whether counts and the time are printed.
    pub is_verbose: bool,
}

impl Task<'_> {
    /// Whether the custom section with this name is left out, which contains debug information or
    /// doesn't.
    pub fn leaves_out(&self, name: &str, is_debug: bool) -> bool {
        let mut is_left_out = false;
        for section in &self.sections {
            match *section {
                SectionChoice::Keep(kept) if kept == name => return false,
                SectionChoice::Keep(_) | SectionChoice::KeepDebug => {}
                SectionChoice::LeaveOutAll => is_left_out = true,
                SectionChoice::LeaveOutDebug => is_left_out |= is_debug,
                SectionChoice::LeaveOut(other) => is_left_out |= other == name,
            }
        }
        is_left_out
    }

    /// Whether debug information is kept as it is, though the code changes.
    pub fn keeps_debug(&self) -> bool {
        self.sections
            .iter()
            .any(|section| matches!(section, SectionChoice::KeepDebug))
    }
}

/// What the arguments of a program request.
#[derive(Drop)]
pub enum Request<'w> {
    /// Print the page of help.
    Help,
    /// Print the version.
    Version,
    /// Rewrite a module, or check or list its bodies.
    Task(Task<'w>),
}
