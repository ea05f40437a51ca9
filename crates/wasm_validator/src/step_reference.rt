//! The step of the algorithm at operators on references, structs and arrays.
ghost use Rattle.std.specs.Prelude.{◌≡◌};
ghost use Rattle.wasm_operators.specs.ReferenceOperations.{reference_operation};
ghost use Rattle.wasm_context.specs.Validation.{raw_step};
ghost use Rattle.wasm_validator.specs.Steps.{ResultsIn};

use crate::fault::Fault;
use crate::state::Validator;
use wasm_operators::ReferenceOp;
use wasm_types::AbstractHeapType::{Any, Extern};

impl Validator<'_> {
    ghost use Rattle.wasm_validator.specs.Steps.{setting_of, open_state, ReachesHeight};

    /// Takes an operator on references, structs or arrays.
    pub(crate) fn step_reference(&mut self, op: ReferenceOp) -> Result<(), Fault>
        requires { ReachesHeight self.old }
        ensures goes_on { ResultsIn (raw_step (setting_of self.old) (reference_operation op)
            (open_state self.old)) result (open_state self.new) }
        ensures open { self.new.ended ≡ self.old.ended }
        ensures setting { setting_of self.new ≡ setting_of self.old }
    {
        match op {
            ReferenceOp::RefNull { heap_type } => self.null_reference(heap_type),
            ReferenceOp::RefIsNull => self.is_null(),
            ReferenceOp::RefFunc { func } => self.function_reference(func),
            ReferenceOp::RefEq => self.reference_equality(),
            ReferenceOp::RefAsNonNull => self.as_non_null(),
            ReferenceOp::BrOnNull { label } => self.branch_on_null(label),
            ReferenceOp::BrOnNonNull { label } => self.branch_on_non_null(label),
            ReferenceOp::StructNew { ty } => self.struct_new(ty),
            ReferenceOp::StructNewDefault { ty } => self.struct_new_default(ty),
            ReferenceOp::StructGet { ty, field } => self.struct_get(false, ty, field),
            ReferenceOp::StructGetS { ty, field } => self.struct_get(true, ty, field),
            ReferenceOp::StructGetU { ty, field } => self.struct_get(true, ty, field),
            ReferenceOp::StructSet { ty, field } => self.struct_set(ty, field),
            ReferenceOp::ArrayNew { ty } => self.array_new(ty),
            ReferenceOp::ArrayNewDefault { ty } => self.array_new_default(ty),
            ReferenceOp::ArrayNewFixed { ty, len } => self.array_new_fixed(ty, len),
            ReferenceOp::ArrayNewData { ty, data } => self.array_new_data(ty, data),
            ReferenceOp::ArrayNewElem { ty, element } => self.array_new_elem(ty, element),
            ReferenceOp::ArrayGet { ty } => self.array_get(false, ty),
            ReferenceOp::ArrayGetS { ty } => self.array_get(true, ty),
            ReferenceOp::ArrayGetU { ty } => self.array_get(true, ty),
            ReferenceOp::ArraySet { ty } => self.array_set(ty),
            ReferenceOp::ArrayLen => self.array_length(),
            ReferenceOp::ArrayFill { ty } => self.array_fill(ty),
            ReferenceOp::ArrayCopy { target, source } => self.array_copy(target, source),
            ReferenceOp::ArrayInitData { ty, data } => self.array_init_data(ty, data),
            ReferenceOp::ArrayInitElem { ty, element } => self.array_init_elem(ty, element),
            ReferenceOp::RefTest {
                nullable: _,
                heap_type,
            } => self.reference_test(heap_type),
            ReferenceOp::RefCast {
                nullable,
                heap_type,
            } => self.reference_cast(nullable, heap_type),
            ReferenceOp::BrOnCast { cast } => self.branch_on_cast(cast),
            ReferenceOp::BrOnCastFail { cast } => self.branch_on_cast_fail(cast),
            ReferenceOp::AnyConvertExtern => self.convert(Extern, Any),
            ReferenceOp::ExternConvertAny => self.convert(Any, Extern),
            ReferenceOp::RefI31 => self.i31_new(),
            ReferenceOp::I31GetS => self.i31_get(),
            ReferenceOp::I31GetU => self.i31_get(),
        }
    }
}
