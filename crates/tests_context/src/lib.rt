//! Tests of the contexts of modules: of what modules by hand declare, and of those that are refused.
#![tactic(auto)]

#[cfg(test)]
mod contexts;
#[cfg(test)]
mod texts;
