//! Open labels, and how a construct responds to an exception.
ghost use Rattle.std.specs.Prelude.{◌+◌, ◌^◌, ◌<◌};

use crate::machine::control::Construct;
use std::collections::BTreeSet;
use walrus_ir::TagId;

/// An open label.
#[derive(Clone, Copy)]
pub struct Label<'a> {
    /// The position of its opener.
    pub opener: usize,
    /// The construct that its opener opened.
    pub construct: Construct<'a>,
    /// The tags that it caught, if it is a handler.
    pub caught: Option<&'a BTreeSet<TagId>>,
    ghost fits: { opener + 1 < 2 ^ 64 },
}

/// The response of a construct to an exception that leaves it.
#[derive(Clone, Copy)]
pub enum Response {
    /// It passes the exception outwards.
    Passes,
    /// It passes the exception to the construct of this label, a depth that is counted from outside
    /// (`delegate`).
    Hands(u32),
    /// A clause catches it and branches to a label, a depth that is counted from outside
    /// (`try_table`).
    Jumps {
        /// The clause's number.
        clause: usize,
        /// The clause's tag; none if it catches all.
        tag: Option<TagId>,
        /// The label.
        label: u32,
    },
    /// A clause catches it, and its handler is entered (legacy `try`).
    Enters {
        /// The clause's number.
        clause: usize,
        /// The clause's tag; none if it catches all.
        tag: Option<TagId>,
        /// The place where the handler begins.
        place: usize,
    },
}
