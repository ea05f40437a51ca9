//! Tests of debug information: where code goes, numbers and patches, line tables, expressions, lists of ranges and of
//! locations, names, address ranges and macros.
#![tactic(auto)]

#[cfg(test)]
mod bytes;
#[cfg(test)]
mod expressions;
#[cfg(test)]
mod lines;
#[cfg(test)]
mod lists;
#[cfg(test)]
mod moves;
#[cfg(test)]
mod new_lists;
#[cfg(test)]
mod sections;
