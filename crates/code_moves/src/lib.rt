//! Where the addresses of a module's code go when its bodies are written anew: for each address of the source, the
//! address of the same code in what is written. An address is an offset from the first byte of the contents of the code
//! section (DWARF for WebAssembly, "Code addresses").
#![tactic(auto)]

mod body;
mod fault;
mod laws;
mod moves;
mod run;
mod runs;

pub use body::{Body, LocalMove};
pub use fault::MoveError;
pub use laws::{law_calls, law_operators, law_places, law_ranges, law_rows, law_sorted};
pub use moves::Moves;
pub use run::Run;
pub use runs::Runs;
