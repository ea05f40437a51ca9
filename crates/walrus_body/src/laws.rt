//! A law of parsing and emitting, stated as the contract of a function that does nothing.
ghost use Rattle.walrus_body.specs.EmittedInstructions.{EmittedFaults};

use walrus_ir::InstrLocId;

/// The tree of a function that `LocalFunction::parse` made is written by
/// `LocalFunction::emit_instructions`, unless memory runs out or an id or a local has no number: of
/// all the errors of `emit_instructions` only `Memory`, `Index` of an id without a number, and
/// `UnnumberedLocal` are returned. `S` is the type of a validator's state.
pub fn law_emitted_faults<S, F: Fn(&usize) -> InstrLocId>()
    ensures { EmittedFaults S F F.Fn }
{}
