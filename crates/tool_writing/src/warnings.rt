//! Warnings of sections that aren't true any more.

use crate::code_changes::CodeChange;
use module_debug::{DebugFailure, DebugSection};
use std::fmt;
use tool_words::{Escaped, Task};
use wasm_module::{Note, NoteKind, RewrittenModule};

/// Whether a section isn't wrong, since the task leaves it out, or since the source map is written anew.
fn fixes(task: &Task<'_>, note: &Note<'_>) -> bool {
    let is_debug = matches!(note.kind, NoteKind::SourceMap | NoteKind::DebugInfo);
    let is_mapped = matches!(note.kind, NoteKind::SourceMap) && task.source_map.is_some();
    is_mapped || task.leaves_out(note.name, is_debug)
}

/// What is wrong now with a section, and what helps. It isn't one with debug information, of which
/// all are in one line.
#[derive(Clone, Copy)]
struct Warning<'n>(Note<'n>);

impl fmt::Display for Warning<'_> {
    fn fmt<W: fmt::Write>(&self, f: &mut fmt::Formatter<W>) -> fmt::Result {
        let name = Escaped(self.0.name);
        match self.0.kind {
            NoteKind::SourceMap => {
                f.write_str("source map is out of date: use --source-map or --strip-debug")
            }
            _ => write!(
                f,
                "section \"{name}\" is carried over as it is, though the code has changed"
            ),
        }
    }
}

/// What became of the debug information that was to follow the code.
#[derive(Clone, Copy)]
pub struct DebugOutcome<'d, 'a> {
    /// The sections.
    pub sections: &'d [DebugSection<'a>],
    /// Why they were carried over as they were, if they were.
    pub failure: Option<DebugFailure>,
}

impl DebugOutcome<'_, '_> {
    /// Whether the section of this name follows the code.
    fn follows(&self, name: &str) -> bool {
        self.failure.is_none() && self.sections.iter().any(|section| section.name == name)
    }
}

/// Why debug information isn't moved, after the names of its sections.
#[derive(Clone, Copy)]
struct Reason(Option<DebugFailure>);

impl fmt::Display for Reason {
    fn fmt<W: fmt::Write>(&self, f: &mut fmt::Formatter<W>) -> fmt::Result {
        match self.0 {
            Some(failure) => write!(f, ", since it can't follow the code ({failure})"),
            None => Ok(()),
        }
    }
}

/// The names of the sections with debug information that is wrong now, as a list.
#[derive(Clone, Copy)]
struct StaleDebug<'n, 'a, 't, 'w, 'd> {
    notes: &'n [Note<'a>],
    task: &'t Task<'w>,
    outcome: DebugOutcome<'d, 'a>,
}

impl StaleDebug<'_, '_, '_, '_, '_> {
    /// Whether a section is one of them.
    fn includes(&self, note: &Note<'_>) -> bool {
        matches!(note.kind, NoteKind::DebugInfo)
            && !fixes(self.task, note)
            && !self.outcome.follows(note.name)
    }

    /// Whether there is one.
    fn is_some(&self) -> bool {
        self.notes.iter().any(|note| self.includes(note))
    }
}

impl fmt::Display for StaleDebug<'_, '_, '_, '_, '_> {
    fn fmt<W: fmt::Write>(&self, f: &mut fmt::Formatter<W>) -> fmt::Result {
        let mut separator = "";
        for note in self.notes {
            if self.includes(note) {
                let name = Escaped(note.name);
                write!(f, "{separator}{name}")?;
                separator = ", ";
            }
        }
        Ok(())
    }
}

/// What is wrong in a module that was written, if its code changed or moved.
#[derive(Clone, Copy)]
pub struct Notes<'n, 'a> {
    /// The custom sections that may be wrong.
    pub notes: &'n [Note<'a>],
    /// How the code changed.
    pub code: CodeChange,
}

/// Prints to standard error what is wrong now in a module that was written, and what helps: nothing
/// of debug information, names and metadata where its code is what it was, nor of a source map where
/// the code is where it was too.
pub fn warn_of<'a>(
    rt: &impl Eprint,
    program: &str,
    all: Notes<'_, 'a>,
    task: &Task<'_>,
    outcome: DebugOutcome<'_, 'a>,
) {
    if task.is_quiet {
        return;
    }
    let Notes { notes, code } = all;
    let stale = StaleDebug {
        notes,
        task,
        outcome,
    };
    let reason = Reason(outcome.failure);
    if code.changes && stale.is_some() {
        // The module is written all the same where standard error can't be.
        let _ = eprintln!(rt;
            "{program}: warning: debug information is out of date ({stale}){reason}: use --strip-debug"
        );
    }
    for note in notes {
        let is_wrong = match note.kind {
            NoteKind::SourceMap => code.moves,
            NoteKind::DebugInfo => false,
            NoteKind::NotFollowed => code.changes,
        };
        if is_wrong && !fixes(task, note) {
            let warning = Warning(*note);
            let _ = eprintln!(rt; "{program}: warning: {warning}");
        }
    }
}

/// Prints to standard error what is wrong now in a module whose functions were written anew, and what helps.
pub fn warn<'a, B>(
    rt: &impl Eprint,
    program: &str,
    module: &RewrittenModule<'a, B>,
    task: &Task<'_>,
    outcome: DebugOutcome<'_, 'a>,
) {
    let code = CodeChange {
        changes: module.changes_code(),
        moves: module.moves_code(),
    };
    let notes = module.notes.as_slice();
    warn_of(rt, program, Notes { notes, code }, task, outcome);
}
