//! Plain operators of one type, whatever their immediates.
ghost use Rattle.std.specs.Prelude.{◌≡◌, ◌∷◌, [], Ok};
ghost use Rattle.wasm_types.specs.declared.val_type.AbstractHeapType.TheVariants as abstract;
ghost use Rattle.wasm_types.specs.declared.val_type.HeapType.TheVariants.{Abstract as AbstractHeap};
ghost use Rattle.wasm_types.specs.declared.val_type.ValType.TheVariants as value;
ghost use Rattle.wasm_typing.specs.Operands.{◌⟶◌};
ghost use Rattle.wasm_typing.specs.Rules.{ref, ref_null};
ghost use Rattle.wasm_validator.specs.Steps.{ResultsIn};

use crate::fault::Fault;
use crate::references::reference;
use crate::state::Validator;
use wasm_operators::RawValType;
use wasm_types::{AbstractHeapType, HeapType, ValType};

impl Validator<'_> {
    ghost use Rattle.wasm_validator.specs.Steps.{setting_of, open_state};
    ghost use Rattle.wasm_validator.specs.Plain.{plain_in};

    /// A constant of a type.
    pub(crate) fn constant(&mut self, ty: RawValType) -> Result<(), Fault>
        ensures plain { ResultsIn (plain_in self.old (Ok ([] ⟶ ty ∷ []))) result (open_state self.new) }
        ensures open { self.new.ended ≡ self.old.ended }
        ensures setting { setting_of self.new ≡ setting_of self.old }
    {
        self.typed(&[], &[ty])
    }

    /// `i64.add128` and `i64.sub128`
    pub(crate) fn wide_binary(&mut self) -> Result<(), Fault>
        ensures plain { ResultsIn (plain_in self.old
            (Ok (value.I64 ∷ value.I64 ∷ value.I64 ∷ value.I64 ∷ [] ⟶ value.I64 ∷ value.I64 ∷ []))) result
            (open_state self.new) }
        ensures open { self.new.ended ≡ self.old.ended }
        ensures setting { setting_of self.new ≡ setting_of self.old }
    {
        self.typed(
            &[ValType::I64, ValType::I64, ValType::I64, ValType::I64],
            &[ValType::I64, ValType::I64],
        )
    }

    /// `i64.mul_wide_s` and `i64.mul_wide_u`
    pub(crate) fn widening(&mut self) -> Result<(), Fault>
        ensures plain { ResultsIn (plain_in self.old
            (Ok (value.I64 ∷ value.I64 ∷ [] ⟶ value.I64 ∷ value.I64 ∷ []))) result (open_state self.new) }
        ensures open { self.new.ended ≡ self.old.ended }
        ensures setting { setting_of self.new ≡ setting_of self.old }
    {
        self.typed(&[ValType::I64, ValType::I64], &[ValType::I64, ValType::I64])
    }

    /// `i8x16.swizzle`
    pub(crate) fn swizzle(&mut self) -> Result<(), Fault>
        ensures plain { ResultsIn (plain_in self.old
            (Ok (value.V128 ∷ value.V128 ∷ [] ⟶ value.V128 ∷ []))) result (open_state self.new) }
        ensures open { self.new.ended ≡ self.old.ended }
        ensures setting { setting_of self.new ≡ setting_of self.old }
    {
        self.typed(&[ValType::V128, ValType::V128], &[ValType::V128])
    }

    /// `v128.bitselect`
    pub(crate) fn bitselect(&mut self) -> Result<(), Fault>
        ensures plain { ResultsIn (plain_in self.old
            (Ok (value.V128 ∷ value.V128 ∷ value.V128 ∷ [] ⟶ value.V128 ∷ []))) result (open_state self.new) }
        ensures open { self.new.ended ≡ self.old.ended }
        ensures setting { setting_of self.new ≡ setting_of self.old }
    {
        self.typed(
            &[ValType::V128, ValType::V128, ValType::V128],
            &[ValType::V128],
        )
    }

    /// `ref.eq`
    pub(crate) fn reference_equality(&mut self) -> Result<(), Fault>
        ensures plain { ResultsIn (plain_in self.old
            (Ok (ref_null (AbstractHeap abstract.Eq) ∷ ref_null (AbstractHeap abstract.Eq) ∷ [] ⟶ value.I32 ∷ [])))
            result (open_state self.new) }
        ensures open { self.new.ended ≡ self.old.ended }
        ensures setting { setting_of self.new ≡ setting_of self.old }
    {
        let either = reference(true, HeapType::Abstract(AbstractHeapType::Eq));
        self.typed(&[either, either], &[ValType::I32])
    }

    /// `array.len`
    pub(crate) fn array_length(&mut self) -> Result<(), Fault>
        ensures plain { ResultsIn (plain_in self.old
            (Ok (ref_null (AbstractHeap abstract.Array) ∷ [] ⟶ value.I32 ∷ []))) result (open_state self.new) }
        ensures open { self.new.ended ≡ self.old.ended }
        ensures setting { setting_of self.new ≡ setting_of self.old }
    {
        let array = reference(true, HeapType::Abstract(AbstractHeapType::Array));
        self.typed(&[array], &[ValType::I32])
    }

    /// `ref.i31`
    pub(crate) fn i31_new(&mut self) -> Result<(), Fault>
        ensures plain { ResultsIn (plain_in self.old
            (Ok (value.I32 ∷ [] ⟶ ref (AbstractHeap abstract.I31) ∷ []))) result (open_state self.new) }
        ensures open { self.new.ended ≡ self.old.ended }
        ensures setting { setting_of self.new ≡ setting_of self.old }
    {
        let small = reference(false, HeapType::Abstract(AbstractHeapType::I31));
        self.typed(&[ValType::I32], &[small])
    }

    /// `i31.get_s` and `i31.get_u`
    pub(crate) fn i31_get(&mut self) -> Result<(), Fault>
        ensures plain { ResultsIn (plain_in self.old
            (Ok (ref_null (AbstractHeap abstract.I31) ∷ [] ⟶ value.I32 ∷ []))) result (open_state self.new) }
        ensures open { self.new.ended ≡ self.old.ended }
        ensures setting { setting_of self.new ≡ setting_of self.old }
    {
        let small = reference(true, HeapType::Abstract(AbstractHeapType::I31));
        self.typed(&[small], &[ValType::I32])
    }

    /// `atomic.fence`
    pub(crate) fn fence(&mut self) -> Result<(), Fault>
        ensures plain { ResultsIn (plain_in self.old (Ok ([] ⟶ []))) result (open_state self.new) }
        ensures open { self.new.ended ≡ self.old.ended }
        ensures setting { setting_of self.new ≡ setting_of self.old }
    {
        self.typed(&[], &[])
    }
}
