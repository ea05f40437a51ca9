//! How calls end.

ghost use Rattle.std.specs.Prelude.{◌≡◌, MatchOption};
ghost use Rattle.wrewrite_c.specs.Outcomes.{no_index, HasSizes, IsStatusOf, IsPlaceOf, IsOfNamed, IsStopped, IsOfRefused};

use module_validator::FaultText;
use std::fmt;
use std::io::Write;
use wasm_module::{ModuleError, ModuleFault};

/// How many bytes there are for a text; the last is always 0.
pub const TEXT_SIZE: usize = 120;

/// All is done.
pub(crate) const DONE: u32 = 0;
/// The module, or a function of it, is refused.
const REFUSED: u32 = 1;
/// A function that is named has no body.
const NO_FUNCTION: u32 = 2;
/// What is made doesn't fit where it is to go. Nothing is put there.
pub(crate) const TOO_SMALL: u32 = 3;
/// Memory ran out.
const NO_MEMORY: u32 = 4;
/// The options aren't ones that this library understands.
const BAD_OPTIONS: u32 = 5;

const BAD_OPTIONS_TEXT: &str =
    "the options have no size, or one is set that this library doesn't know (BadOptions)";

const NO_INDEXED_TEXT: &str = "no function with a body has this index (NoFunction)";

const NO_NAMED_TEXT: &str = "no function with a body has this name (NoFunction)";

const SEVERAL_NAMED_TEXT: &str = "several functions have this name (SeveralFunctions)";

/// The place, where none is known.
const NOWHERE: usize = usize::MAX;
/// The index of a function, where there is none.
const NO_INDEX: usize = usize::MAX;

/// How a call ended.
#[repr(C)]
#[derive(Drop)]
pub struct Outcome {
    /// One of the numbers above.
    pub status: u32,
    /// What may no longer be true in the module that is made: the sum of numbers of `warnings`.
    pub warnings: u32,
    /// The place of a fault, a byte offset from the start of the module.
    pub place: usize,
    /// The index of the function that a fault is in, or of the one that is found.
    pub function: usize,
    /// How many bytes the module takes that is made.
    pub module_size: usize,
    /// How many bytes its location map takes.
    pub map_size: usize,
    /// What is wrong, in UTF-8, and zero bytes after it.
    pub text: [u8; TEXT_SIZE],
}

/// A fault, and the index of the function that it is in, if it is in one.
#[derive(Clone, Copy)]
pub(crate) struct RefusedModule {
    pub error: ModuleError,
    pub function: Option<usize>,
}

/// The function that has a name.
#[derive(Clone, Copy)]
pub(crate) enum Named {
    /// The one with this index, which has a body.
    One(usize),
    /// None with a body.
    None,
    /// More than one.
    Several,
}

/// Why nothing is made of a module.
#[derive(Clone, Copy)]
pub(crate) enum Stop {
    /// It is refused, or memory ran out.
    Refused(RefusedModule),
    /// No function with a body has this index.
    NoFunction(usize),
}

impl Stop {
    /// Memory ran out.
    pub const MEMORY: Stop = Stop::Refused(RefusedModule {
        error: ModuleError {
            fault: ModuleFault::Memory,
            at: 0,
        },
        function: None,
    });
}

/// The bytes of a text. What doesn't fit is left out.
pub(crate) fn text_of<D: fmt::Display + Drop>(text: D) -> [u8; TEXT_SIZE] {
    let mut bytes = [0; TEXT_SIZE];
    let mut room = &mut bytes[..TEXT_SIZE - 1];
    let _ = write!(room, "{text}");
    bytes
}

/// The index of a function, if there is one.
fn index_of(function: Option<usize>) -> usize
    ensures { MatchOption function (result ≡ no_index) (λ index. result ≡ index) }
{
    match function {
        Some(index) => index,
        None => NO_INDEX,
    }
}

impl RefusedModule {
    /// The status of its outcome.
    fn status(&self) -> u32
        ensures { IsStatusOf self.now.error.fault result }
    {
        match self.error.fault {
            ModuleFault::Memory => NO_MEMORY,
            _ => REFUSED,
        }
    }

    /// The place of the fault. Of a count that is too great, and where memory ran out, none is known.
    fn place(&self) -> usize
        ensures { IsPlaceOf self.now.error result }
    {
        match self.error.fault {
            ModuleFault::Memory | ModuleFault::TooGreat => NOWHERE,
            _ => self.error.at,
        }
    }

    /// The index of the function, if one is known.
    fn index(&self) -> usize
        ensures { MatchOption self.now.function (result ≡ no_index) (λ index. result ≡ index) }
    {
        index_of(self.function)
    }

    /// The text of the fault.
    pub(crate) fn text(&self) -> [u8; TEXT_SIZE] {
        text_of(FaultText(self.error.fault))
    }
}

impl Outcome {
    /// Of a call that made something, or had nothing to make.
    pub(crate) fn of_sizes(status: u32, module_size: usize, map_size: usize) -> Outcome
        ensures status { result.status ≡ status }
        ensures sizes { HasSizes module_size map_size result }
    {
        Outcome {
            status,
            warnings: 0,
            place: NOWHERE,
            function: NO_INDEX,
            module_size,
            map_size,
            text: [0; TEXT_SIZE],
        }
    }

    /// Of a call that made nothing, with this status and a text that says why.
    fn of_text<D: fmt::Display + Drop>(status: u32, text: D) -> Outcome
        ensures status { result.status ≡ status }
        ensures function { result.function ≡ no_index }
        ensures sizes { HasSizes 0 0 result }
    {
        let text = text_of(text);
        Outcome {
            status,
            warnings: 0,
            place: NOWHERE,
            function: NO_INDEX,
            module_size: 0,
            map_size: 0,
            text,
        }
    }

    /// Of a call whose options aren't understood.
    pub(crate) fn of_bad_options() -> Outcome
        ensures status { result.status ≡ 5 }
        ensures sizes { HasSizes 0 0 result }
    {
        Outcome::of_text(BAD_OPTIONS, BAD_OPTIONS_TEXT)
    }

    /// Of a search by name.
    pub(crate) fn of_named(named: Named) -> Outcome
        ensures named { IsOfNamed named result }
        ensures sizes { HasSizes 0 0 result }
    {
        match named {
            Named::One(index) => Outcome {
                function: index,
                ..Outcome::of_sizes(DONE, 0, 0)
            },
            Named::None => Outcome::of_text(NO_FUNCTION, NO_NAMED_TEXT),
            Named::Several => Outcome::of_text(NO_FUNCTION, SEVERAL_NAMED_TEXT),
        }
    }

    /// Of a call that met a fault, with this text.
    pub(crate) fn of_refused(refused: RefusedModule, text: [u8; TEXT_SIZE]) -> Outcome
        ensures refused { IsOfRefused refused result }
        ensures sizes { HasSizes 0 0 result }
    {
        let status = refused.status();
        let place = refused.place();
        let function = refused.index();
        Outcome {
            status,
            warnings: 0,
            place,
            function,
            module_size: 0,
            map_size: 0,
            text,
        }
    }

    /// Of a call that was asked for a function without a body.
    pub(crate) fn of_missing(function: usize) -> Outcome
        ensures status { result.status ≡ 2 }
        ensures function { result.function ≡ function }
        ensures sizes { HasSizes 0 0 result }
    {
        Outcome {
            function,
            ..Outcome::of_text(NO_FUNCTION, NO_INDEXED_TEXT)
        }
    }

    /// Of a call that made nothing.
    pub(crate) fn of_stop(stop: Stop) -> Outcome
        ensures stopped { IsStopped stop result }
        ensures sizes { HasSizes 0 0 result }
    {
        match stop {
            Stop::Refused(refused) => Outcome::of_refused(refused, refused.text()),
            Stop::NoFunction(index) => Outcome::of_missing(index),
        }
    }
}
