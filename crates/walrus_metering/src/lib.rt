//! Functions that charge what they execute: before each straight piece of code comes a charge of what
//! its operators cost.
#![tactic(auto)]

mod charge;
mod costs;
mod laws;
mod metering;
mod names;
mod opcodes;
mod table;

pub use charge::Charge;
pub use costs::Costs;
pub use laws::{law_charged_runs, law_metered_texts, law_metered_trees};
pub use metering::meter;
pub use table::{CostsError, MAX_COST};
