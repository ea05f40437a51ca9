//! Facts of a function's tree: the number of its instructions, and the data segments, functions and
//! locals that they name; and walks over it without a visitor of one's own: something done with each
//! instruction, and a change of each instruction.
#![tactic(auto)]

mod each;
mod facts;
mod listener;
mod mapping;
mod marking;
mod scanning;
mod segments;
mod sizes;

pub use each::{VisitInstr, for_each_instr};
pub use facts::{EmitFacts, FactsVisitor, law_facts};
pub use listener::{Listener, Listening};
pub use mapping::map_instrs;
pub use marking::{emit_facts, is_marked, mark, mark_below, unmark};
pub use segments::{DataSegmentsVisitor, used_data_segments};
pub use sizes::{SizeVisitor, size};
