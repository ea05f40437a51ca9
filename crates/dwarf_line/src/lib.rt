//! The line tables of a WebAssembly module whose function bodies are written anew: `.debug_line` (DWARF 2 to 5,
//! section 6.2), in which the addresses of code follow the code.
#![tactic(auto)]

mod header;
mod moved;
mod opcodes;
mod operation;
mod place;
mod program;
mod reading;
mod section;
mod sequence;
mod sequences;
mod table;
mod tables;
mod writing;

pub use moved::Moved;
pub use section::{MovedLines, move_lines};
