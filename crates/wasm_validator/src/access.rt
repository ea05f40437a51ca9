//! Accesses to memory, and other operators for memories and data segments.
ghost use Rattle.std.specs.Prelude.{◌≡◌, ◌^◌, nat_lt, Ok};
ghost use Rattle.wasm_operators.specs.AccessOperations.{access_of, load_operation, store_operation};
ghost use Rattle.wasm_operators.specs.AtomicOpcodes.{atomic_operation};
ghost use Rattle.wasm_operators.specs.VectorAccessOpcodes.{vector_access_operation};
ghost use Rattle.wasm_typing.specs.Contexts.{address_bits};
ghost use Rattle.wasm_typing.specs.Operands.{◌⟶◌};
ghost use Rattle.wasm_typing.specs.Rules.{is_aligned, memory_size, memory_grow, memory_fill, memory_copy, memory_init, data_drop};
ghost use Rattle.wasm_typing.specs.RuleLaws.{type_of_operator};
ghost use Rattle.wasm_context.specs.Contexts.{address_of};
ghost use Rattle.wasm_operator_types.specs.AccessTypes.{type_of_access, given_by};
ghost use Rattle.wasm_validator.specs.Steps.{ResultsIn};

use crate::fault::Fault;
use crate::state::Validator;
use wasm_context::AddressType;
use wasm_operator_types::{
    AccessType, Operands, atomic_type, load_type, store_type, vector_access_type,
};
use wasm_operators::{AtomicKind, RawMemArg, RawValType};
use wasm_types::{LoadKind, LoadSimdKind, StoreKind, ValType};

/// Whether an alignment, by its exponent of two, fits an access to so many bytes.
fn is_aligned(exact: bool, natural: u32, exponent: u32) -> bool
    ensures { is_aligned exact natural exponent ≡ result }
{
    if exact {
        exponent == natural
    } else {
        exponent <= natural
    }
}

/// Whether an address of this type can be so great.
fn is_offset(address: AddressType, offset: u64) -> bool
    ensures { nat_lt offset (2 ^ address_bits (address_of address)) ≡ result }
{
    match address {
        AddressType::Address32 => offset < 1 << 32,
        AddressType::Address64 => true,
    }
}

impl Validator<'_> {
    ghost use Rattle.wasm_validator.specs.Steps.{setting_of, open_state};
    ghost use Rattle.wasm_validator.specs.Plain.{plain_in};

    /// An access to memory.
    #[inline(always)]
    fn access(&mut self, ty: AccessType, memarg: RawMemArg) -> Result<(), Fault>
        ensures plain { ResultsIn (plain_in self.old
            (type_of_access ty (setting_of self.old).operands (access_of memarg))) result (open_state self.new) }
        ensures open { self.new.ended ≡ self.old.ended }
        ensures setting { setting_of self.new ≡ setting_of self.old }
    {
        let Some(memory) = self.context.memory(memarg.memory) else {
            return Err(Fault::Refused);
        };
        if !is_aligned(ty.exact, ty.exponent, memarg.exponent)
            || !is_offset(memory, memarg.offset)
            || !ty.has_lane
        {
            return Err(Fault::Refused);
        }
        let at = memory.value();
        match ty.takes {
            Operands::Nothing => self.gives(&[at], ty.gives),
            Operands::One(first) => self.gives(&[at, first], ty.gives),
            Operands::Two(first, second) => self.gives(&[at, first, second], ty.gives),
        }
    }

    /// Pops operands of these types, and pushes one of another, if there is one.
    #[inline(always)]
    fn gives(&mut self, takes: &[RawValType], gives: Option<RawValType>) -> Result<(), Fault>
        ensures plain { ResultsIn (plain_in self.old (Ok (takes.now ⟶ given_by gives))) result
            (open_state self.new) }
        ensures open { self.new.ended ≡ self.old.ended }
        ensures setting { setting_of self.new ≡ setting_of self.old }
    {
        match gives {
            Some(ty) => self.typed(takes, &[ty]),
            None => self.typed(takes, &[]),
        }
    }

    /// A load.
    pub(crate) fn load(&mut self, kind: LoadKind, memarg: RawMemArg) -> Result<(), Fault>
        ensures plain { ResultsIn (plain_in self.old
            (type_of_operator (setting_of self.old).operands (load_operation kind (access_of memarg))))
            result (open_state self.new) }
        ensures open { self.new.ended ≡ self.old.ended }
        ensures setting { setting_of self.new ≡ setting_of self.old }
    {
        self.access(load_type(kind), memarg)
    }

    /// A store.
    pub(crate) fn store(&mut self, kind: StoreKind, memarg: RawMemArg) -> Result<(), Fault>
        ensures plain { ResultsIn (plain_in self.old
            (type_of_operator (setting_of self.old).operands (store_operation kind (access_of memarg))))
            result (open_state self.new) }
        ensures open { self.new.ended ≡ self.old.ended }
        ensures setting { setting_of self.new ≡ setting_of self.old }
    {
        self.access(store_type(kind), memarg)
    }

    /// A vector access other than a plain load or store.
    pub(crate) fn vector_access(
        &mut self,
        kind: LoadSimdKind,
        memarg: RawMemArg,
    ) -> Result<(), Fault>
        ensures plain { ResultsIn (plain_in self.old
            (type_of_operator (setting_of self.old).operands
            (vector_access_operation kind (access_of memarg)))) result (open_state self.new) }
        ensures open { self.new.ended ≡ self.old.ended }
        ensures setting { setting_of self.new ≡ setting_of self.old }
    {
        self.access(vector_access_type(kind), memarg)
    }

    /// An atomic access other than a load or a store.
    pub(crate) fn atomic(&mut self, kind: AtomicKind, memarg: RawMemArg) -> Result<(), Fault>
        ensures plain { ResultsIn (plain_in self.old
            (type_of_operator (setting_of self.old).operands (atomic_operation kind (access_of memarg))))
            result (open_state self.new) }
        ensures open { self.new.ended ≡ self.old.ended }
        ensures setting { setting_of self.new ≡ setting_of self.old }
    {
        self.access(atomic_type(kind), memarg)
    }

    /// `memory.size`
    pub(crate) fn memory_size(&mut self, memory: u32) -> Result<(), Fault>
        ensures plain { ResultsIn (plain_in self.old (memory_size (setting_of self.old).operands memory))
            result (open_state self.new) }
        ensures open { self.new.ended ≡ self.old.ended }
        ensures setting { setting_of self.new ≡ setting_of self.old }
    {
        match self.context.memory(memory) {
            Some(at) => self.typed(&[], &[at.value()]),
            None => Err(Fault::Refused),
        }
    }

    /// `memory.grow`
    pub(crate) fn memory_grow(&mut self, memory: u32) -> Result<(), Fault>
        ensures plain { ResultsIn (plain_in self.old (memory_grow (setting_of self.old).operands memory))
            result (open_state self.new) }
        ensures open { self.new.ended ≡ self.old.ended }
        ensures setting { setting_of self.new ≡ setting_of self.old }
    {
        match self.context.memory(memory) {
            Some(at) => self.typed(&[at.value()], &[at.value()]),
            None => Err(Fault::Refused),
        }
    }

    /// `memory.fill`
    pub(crate) fn memory_fill(&mut self, memory: u32) -> Result<(), Fault>
        ensures plain { ResultsIn (plain_in self.old (memory_fill (setting_of self.old).operands memory))
            result (open_state self.new) }
        ensures open { self.new.ended ≡ self.old.ended }
        ensures setting { setting_of self.new ≡ setting_of self.old }
    {
        match self.context.memory(memory) {
            Some(at) => self.typed(&[at.value(), ValType::I32, at.value()], &[]),
            None => Err(Fault::Refused),
        }
    }

    /// `memory.copy`
    pub(crate) fn memory_copy(&mut self, target: u32, source: u32) -> Result<(), Fault>
        ensures plain { ResultsIn (plain_in self.old
            (memory_copy (setting_of self.old).operands target source)) result (open_state self.new) }
        ensures open { self.new.ended ≡ self.old.ended }
        ensures setting { setting_of self.new ≡ setting_of self.old }
    {
        let Some(to) = self.context.memory(target) else {
            return Err(Fault::Refused);
        };
        match self.context.memory(source) {
            Some(from) => self.typed(&[to.value(), from.value(), to.narrower(from).value()], &[]),
            None => Err(Fault::Refused),
        }
    }

    /// `memory.init`
    pub(crate) fn memory_init(&mut self, segment: u32, memory: u32) -> Result<(), Fault>
        ensures plain { ResultsIn (plain_in self.old
            (memory_init (setting_of self.old).operands segment memory)) result (open_state self.new) }
        ensures open { self.new.ended ≡ self.old.ended }
        ensures setting { setting_of self.new ≡ setting_of self.old }
    {
        let Some(at) = self.context.memory(memory) else {
            return Err(Fault::Refused);
        };
        if !self.context.has_data(segment) {
            return Err(Fault::Refused);
        }
        self.typed(&[at.value(), ValType::I32, ValType::I32], &[])
    }

    /// `data.drop`
    pub(crate) fn data_drop(&mut self, segment: u32) -> Result<(), Fault>
        ensures plain { ResultsIn (plain_in self.old (data_drop (setting_of self.old).operands segment)) result
            (open_state self.new) }
        ensures open { self.new.ended ≡ self.old.ended }
        ensures setting { setting_of self.new ≡ setting_of self.old }
    {
        if self.context.has_data(segment) {
            self.typed(&[], &[])
        } else {
            Err(Fault::Refused)
        }
    }
}
