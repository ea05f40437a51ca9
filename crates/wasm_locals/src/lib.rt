//! The locals of a function while its body is validated: the type of each, and which are set.
#![tactic(auto)]

mod declared;
mod run;
mod set;
mod types;

pub use declared::DeclaredLocals;
pub use run::LocalRun;
pub use set::SetLocals;
pub use types::LocalTypes;
