//! Parsing a body: its operators become the sequences of a function.
#![tactic(auto)]

mod at_once;
mod body;
mod body_parser;
mod body_source;
mod legacy_try;
mod parse;
mod try_tables;

pub use body::{FunctionBody, law_bytes};
pub use body_parser::makes_unreachable;
pub use body_source::BodySource;
pub use legacy_try::{handler_kind, has_clauses};
pub use parse::{ParsedOperators, parse_function};
pub use walrus_validators::{AcceptAll, CheckError, OpCheck, check_common, checked, failure};
