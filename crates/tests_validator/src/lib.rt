//! Tests of validation: bodies with the places of their faults, and whole modules: one that is valid, with a section of
//! each kind, and one for each fault.
#![tactic(auto)]

#[cfg(test)]
mod bodies;
#[cfg(test)]
mod modules;
