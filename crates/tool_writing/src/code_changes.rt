//! How the code of a module that was made differs from that of its source.

use wasm_module::{ModuleError, SectionKind, Sections};

/// How the code of a module that was made differs from that of its source.
#[derive(Clone, Copy)]
pub struct CodeChange {
    /// Whether its contents are others.
    pub changes: bool,
    /// Whether operators may be at other places of the file.
    pub moves: bool,
}

/// The contents of the code section, and their place; none of a module without one.
fn code_of(bytes: &[u8]) -> Result<(&[u8], usize), ModuleError> {
    for section in Sections::new(bytes)? {
        let section = section?;
        if section.kind == SectionKind::Code {
            return Ok((section.contents(), section.contents_at()));
        }
    }
    Ok((&[], 0))
}

impl CodeChange {
    /// None.
    pub const NONE: CodeChange = CodeChange {
        changes: false,
        moves: false,
    };

    /// Both changes, one after the other.
    pub fn after(self, first: CodeChange) -> CodeChange {
        CodeChange {
            changes: first.changes || self.changes,
            moves: first.moves || self.moves,
        }
    }

    /// That of the module that was made of the source.
    ///
    /// # Errors
    ///
    /// None, since the sections of both were read, or made, before.
    pub fn between(source: &[u8], made: &[u8]) -> Result<CodeChange, ModuleError> {
        let (old, old_place) = code_of(source)?;
        let (new, new_place) = code_of(made)?;
        let changes = old != new;
        Ok(CodeChange {
            changes,
            moves: changes || old_place != new_place,
        })
    }
}
