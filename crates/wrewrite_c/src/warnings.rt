//! What may no longer be true in a module that is made.

use crate::options::Options;
use wasm_module::{NoteKind, RewrittenModule};

/// The URL of the source map, whose places are those of the source.
const STALE_SOURCE_MAP: u32 = 1;
/// Debug information, with places of the source.
const STALE_DEBUG_INFO: u32 = 2;
/// Names or metadata of code that couldn't be changed along with it.
const STALE_NAMES: u32 = 4;

/// The number of a warning.
fn number_of(kind: NoteKind) -> u32 {
    match kind {
        NoteKind::SourceMap => STALE_SOURCE_MAP,
        NoteKind::DebugInfo => STALE_DEBUG_INFO,
        NoteKind::NotFollowed => STALE_NAMES,
    }
}

/// Whether the section is left out.
fn is_left_out(kind: NoteKind, wanted: Options) -> bool {
    match kind {
        NoteKind::SourceMap | NoteKind::DebugInfo => wanted.strips_debug || wanted.strips_all,
        NoteKind::NotFollowed => wanted.strips_all,
    }
}

/// Whether it is still true, since no code has moved.
fn is_true<B>(kind: NoteKind, rewritten: &RewrittenModule<'_, B>) -> bool {
    match kind {
        NoteKind::SourceMap => !rewritten.moves_code(),
        NoteKind::DebugInfo | NoteKind::NotFollowed => !rewritten.changes_code(),
    }
}

/// The warnings of a module: none of sections that are left out, and none where no code has moved.
pub(crate) fn warnings_of<B>(rewritten: &RewrittenModule<'_, B>, wanted: Options) -> u32 {
    let mut warnings = 0;
    for note in &rewritten.notes {
        if !is_left_out(note.kind, wanted) && !is_true(note.kind, rewritten) {
            warnings |= number_of(note.kind);
        }
    }
    warnings
}
