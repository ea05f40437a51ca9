//! Tests of whole modules: what is in them, and what is written of them after a caller's changes; of
//! packed location pairs; and of the mappings of source maps. What `wrewrite` writes, and which modules it refuses, is tested by
//! `tests/programs/run`. A function here owns one large value and lends it to the next: one that
//! owns several over calls that may fail takes minutes to prove.
#![tactic(auto)]

#[cfg(test)]
mod additions;
#[cfg(test)]
mod cases;
#[cfg(test)]
mod defining;
#[cfg(test)]
mod importing;
#[cfg(test)]
mod items;
#[cfg(test)]
mod making;
#[cfg(test)]
mod mappings;
#[cfg(test)]
mod new_locals;
#[cfg(test)]
mod numbering;
#[cfg(test)]
mod omissions;
#[cfg(test)]
mod packing;
#[cfg(test)]
mod texts;
#[cfg(test)]
mod views;
#[cfg(test)]
mod whole_modules;
