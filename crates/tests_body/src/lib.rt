//! Tests of reading, parsing, walking, writing, rewriting and running bodies, for claims that no
//! contract makes: worked rows and cases from outside, printed texts, and the calls of the laws. A
//! test is a table of texts or of functions made by hand, each with the expected text (`cases`). A
//! function here owns one large value and lends it to the next: one that owns several over calls
//! that may fail takes minutes to prove. Index maps, locals, facts, operators and bodies that are
//! written, and that each call that allocates succeeds if there is memory, are shown by the rows of
//! `growths`; the output of the program `wbody` by those of `wbody_rows`; deep nesting and long runs
//! by `tests/programs/run`.
#![tactic(auto)]

#[cfg(test)]
mod by_hand;
#[cfg(test)]
mod cases;
#[cfg(test)]
mod context;
#[cfg(test)]
mod emit;
#[cfg(test)]
mod emitting;
#[cfg(test)]
mod exceptions;
#[cfg(test)]
mod facts;
#[cfg(test)]
mod function_text;
#[cfg(test)]
mod lent;
#[cfg(test)]
mod locating;
#[cfg(test)]
mod modules;
#[cfg(test)]
mod named;
#[cfg(test)]
mod parse_refusals;
#[cfg(test)]
mod parsing;
#[cfg(test)]
mod program;
#[cfg(test)]
mod read_back;
#[cfg(test)]
mod reading;
mod recorder;
#[cfg(test)]
mod small_module;
#[cfg(test)]
mod unchanged;
#[cfg(test)]
mod validators;
#[cfg(test)]
mod walk;
#[cfg(test)]
mod walks;
