//! Operators on references whose heap types they don't name.
ghost use Rattle.std.specs.Prelude.{◌≡◌, option_map};
ghost use Rattle.wasm_body.specs.Validity.{required, Known as KnownAs};
ghost use Rattle.wasm_typing.specs.Operands.{as_reference, may_be_null, not_null};
ghost use Rattle.wasm_validator.specs.States.{known_of};
ghost use Rattle.wasm_validator.specs.Popped.{known_reference};
ghost use Rattle.wasm_validator.specs.Steps.{ResultsIn};

use crate::fault::Fault;
use crate::operand::{Operand, Reference};
use crate::references::reference;
use crate::state::Validator;
use wasm_context::RawRefType;
use wasm_types::{AbstractHeapType, HeapType};

/// An operand as a reference, if it may be one.
fn as_reference(operand: Operand) -> Option<Reference>
    ensures { as_reference (known_of operand) ≡ required (option_map known_reference result) }
{
    match operand {
        Operand::Unknown => Some(Reference::Untyped(false)),
        Operand::Ref(ty) => Some(Reference::Typed(ty)),
        Operand::Reference(nullable) => Some(Reference::Untyped(nullable)),
        _ => None,
    }
}

/// A reference as an operand.
pub(crate) fn operand_of_reference(reference: Reference) -> Operand
    ensures { known_of result ≡ KnownAs (known_reference reference) }
{
    match reference {
        Reference::Typed(ty) => Operand::Ref(ty),
        Reference::Untyped(nullable) => Operand::Reference(nullable),
    }
}

/// The same reference where it isn't null.
pub(crate) fn not_null(reference: Reference) -> Reference
    ensures { known_reference result ≡ not_null (known_reference reference) }
{
    match reference {
        Reference::Typed(ty) => Reference::Typed(RawRefType {
            nullable: false,
            heap_type: ty.heap_type,
        }),
        Reference::Untyped(_) => Reference::Untyped(false),
    }
}

/// Whether a reference may be null.
fn may_be_null(reference: Reference) -> bool
    ensures { result ≡ may_be_null (known_reference reference) }
{
    match reference {
        Reference::Typed(ty) => ty.nullable,
        Reference::Untyped(nullable) => nullable,
    }
}

impl Validator<'_> {
    ghost use Rattle.wasm_validator.specs.Steps.{setting_of, operand_stack, inner_of, open_state, ReachesHeight};
    ghost use Rattle.wasm_validator.specs.Popped.{PopsReference, reference_in, tests_null_in, non_null_in, converts_in};

    /// "pop_ref()"
    pub(crate) fn pop_reference(&mut self) -> Result<Reference, Fault>
        ensures pops { PopsReference (reference_in (inner_of self.old) (operand_stack self.old)) result
            (operand_stack self.new) }
        ensures same { self.new ≡ record self.old { operands = self.new.operands } }
        ensures reach { ReachesHeight self.old → ReachesHeight self.new }
    {
        match self.pop_any() {
            Ok(operand) => match as_reference(operand) {
                Some(reference) => Ok(reference),
                None => Err(Fault::Refused),
            },
            Err(fault) => Err(fault),
        }
    }

    /// `ref.is_null`
    pub(crate) fn is_null(&mut self) -> Result<(), Fault>
        ensures plain { ResultsIn (tests_null_in self.old) result (open_state self.new) }
        ensures open { self.new.ended ≡ self.old.ended }
        ensures setting { setting_of self.new ≡ setting_of self.old }
    {
        match self.pop_reference() {
            Ok(_) => self.push(Operand::I32),
            Err(fault) => Err(fault),
        }
    }

    /// `ref.as_non_null`
    pub(crate) fn as_non_null(&mut self) -> Result<(), Fault>
        ensures plain { ResultsIn (non_null_in self.old) result (open_state self.new) }
        ensures open { self.new.ended ≡ self.old.ended }
        ensures setting { setting_of self.new ≡ setting_of self.old }
    {
        match self.pop_reference() {
            Ok(reference) => self.push(operand_of_reference(not_null(reference))),
            Err(fault) => Err(fault),
        }
    }

    /// `any.convert_extern` and `extern.convert_any`
    pub(crate) fn convert(
        &mut self,
        from: AbstractHeapType,
        to: AbstractHeapType,
    ) -> Result<(), Fault>
        ensures plain { ResultsIn (converts_in self.old from to) result (open_state self.new) }
        ensures open { self.new.ended ≡ self.old.ended }
        ensures setting { setting_of self.new ≡ setting_of self.old }
    {
        let found = match self.pop_reference() {
            Ok(found) => found,
            Err(fault) => return Err(fault),
        };
        match self.fits(
            operand_of_reference(found),
            reference(true, HeapType::Abstract(from)),
        ) {
            Ok(()) => self.push(Operand::Ref(RawRefType {
                nullable: may_be_null(found),
                heap_type: HeapType::Abstract(to),
            })),
            Err(fault) => Err(fault),
        }
    }
}
