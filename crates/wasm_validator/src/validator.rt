//! The validation algorithm (WebAssembly core specification 3.0, appendix, validation algorithm, whose
//! names are in quotes): operands and frames.
ghost use Rattle.std.specs.Prelude.{◌≡◌, ◌∷◌, ◌<◌, vec_len, vec_capacity, IfErr, OnOk, MatchOption, Ok, Err, true, false};
ghost use Rattle.wasm_validator.specs.declared.fault.Fault.TheVariants.{Memory as MemoryFault};
ghost use Rattle.wasm_body.specs.Validity.{demand, refused, up_to};
ghost use Rattle.wasm_context.specs.TypeLists.{types_in};
ghost use Rattle.wasm_validator.specs.States.{known_of, opened_of, IsTypeList};
ghost use Rattle.wasm_validator.specs.WellFormed.{is_function_frame};
ghost use Rattle.wasm_validator.specs.Steps.{ResultsIn};

use crate::fault::Fault;
use crate::frame::{Frame, Opened};
use crate::operand::{Operand, operand_of};
use crate::state::Validator;
use wasm_context::TypeList;
use wasm_operators::RawValType;
use wasm_types::ValType;

/// "label_types"
fn label_types(frame: &Frame) -> TypeList
    ensures { IsTypeList frame.now result }
{
    match frame.opened {
        Opened::Loop => frame.starts,
        _ => frame.ends,
    }
}

/// "error_if" of the contrary.
#[inline(always)]
pub(crate) fn demand(test: bool) -> Result<(), Fault>
    ensures { ResultsIn (demand test) result tt }
{
    if test { Ok(()) } else { Err(Fault::Refused) }
}

/// Makes room for an operand more.
#[inline(never)]
fn make_room(operands: &mut Vec<Operand>) -> bool
    ensures same { operands.new.items ≡ operands.old.items }
    ensures room { result ≡ true → vec_len operands.new < vec_capacity operands.new }
{
    operands.reserve(1).is_ok()
}

impl Validator<'_> {
    ghost use Rattle.wasm_validator.specs.Steps.{fits_in, setting_of, operand_stack, stacks_of, inner_of, outer_of, pop_in, pop_all_in, push_each_in, typed_in, pop_control_in, EntersFrame, OpensFrame, Leaves, labelled, framed, IsLabel, open_state, ReachesHeight};

    /// "push_val"
    #[inline(always)]
    #[tactic(auto, using(crate::proofs::Lists::onto_last))]
    pub(crate) fn push(&mut self, operand: Operand) -> Result<(), Fault>
        ensures ok { OnOk result (operand_stack self.new ≡ known_of operand ∷ operand_stack self.old) }
        ensures err { IfErr result (λ e. e ≡ MemoryFault) }
        ensures same { self.new ≡ record self.old { operands = self.new.operands } }
        ensures reach { ReachesHeight self.old → ReachesHeight self.new }
    {
        if self.operands.len() >= self.operands.capacity() && !make_room(&mut self.operands) {
            return Err(Fault::Memory);
        }
        self.operands.push_reserved(operand);
        Ok(())
    }

    /// Whether an operand matches a type.
    #[inline(always)]
    pub(crate) fn fits(&self, operand: Operand, expected: RawValType) -> Result<(), Fault>
        ensures { ResultsIn (fits_in (setting_of self.now) (known_of operand) expected) result tt }
    {
        match operand {
            Operand::Unknown => Ok(()),
            Operand::I32 => demand(matches!(expected, ValType::I32)),
            Operand::I64 => demand(matches!(expected, ValType::I64)),
            Operand::F32 => demand(matches!(expected, ValType::F32)),
            Operand::F64 => demand(matches!(expected, ValType::F64)),
            Operand::V128 => demand(matches!(expected, ValType::V128)),
            Operand::Ref(reference) => match expected {
                ValType::Ref(expected) => demand(
                    self.context.matches_reference(reference, expected),
                ),
                _ => Err(Fault::Refused),
            },
            Operand::Reference(nullable) => match expected {
                ValType::Ref(expected) => demand(!nullable || expected.nullable),
                _ => Err(Fault::Refused),
            },
        }
    }

    /// "pop_val(expect)"
    #[inline(always)]
    pub(crate) fn pop(&mut self, expected: RawValType) -> Result<(), Fault>
        ensures pops { ResultsIn (pop_in (setting_of self.old) (inner_of self.old) expected
            (operand_stack self.old)) result (operand_stack self.new) }
        ensures same { self.new ≡ record self.old { operands = self.new.operands } }
        ensures reach { ReachesHeight self.old → ReachesHeight self.new }
    {
        if self.operands.len() == self.inner.height {
            return demand(self.inner.unreachable);
        }
        match self.operands.pop() {
            Some(operand) => self.fits(operand, expected),
            None => Err(Fault::Refused),
        }
    }

    /// "pop_vals". Once nothing is left above the height of an unreachable frame, it ends.
    #[inline(always)]
    pub(crate) fn pop_all(&mut self, types: &[RawValType]) -> Result<(), Fault>
        ensures pops { ResultsIn (pop_all_in (setting_of self.old) (inner_of self.old) types.now
            (operand_stack self.old)) result (operand_stack self.new) }
        ensures same { self.new ≡ record self.old { operands = self.new.operands } }
        ensures reach { ReachesHeight self.old → ReachesHeight self.new }
    {
        let mut left = types.len();
        while left > 0 {
            if self.inner.unreachable && self.operands.len() == self.inner.height {
                return Ok(());
            }
            left -= 1;
            match self.pop(types[left]) {
                Ok(()) => {}
                Err(fault) => return Err(fault),
            }
        }
        Ok(())
    }

    /// "push_vals"
    #[inline(always)]
    pub(crate) fn push_all(&mut self, types: &[RawValType]) -> Result<(), Fault>
        ensures ok { OnOk result (operand_stack self.new
            ≡ push_each_in (setting_of self.old) types.now (operand_stack self.old)) }
        ensures err { IfErr result (λ e. e ≡ MemoryFault) }
        ensures same { self.new ≡ record self.old { operands = self.new.operands } }
        ensures reach { ReachesHeight self.old → ReachesHeight self.new }
    {
        for ty in types {
            match self.push(operand_of(*ty)) {
                Ok(()) => {}
                Err(fault) => return Err(fault),
            }
        }
        Ok(())
    }

    /// Pops operands of these types, and pushes some of those.
    #[inline(always)]
    pub(crate) fn apply(&mut self, takes: &[RawValType], gives: &[RawValType]) -> Result<(), Fault>
        ensures typed { ResultsIn (typed_in (setting_of self.old) (inner_of self.old) takes.now gives.now
            (operand_stack self.old)) result (operand_stack self.new) }
        ensures same { self.new ≡ record self.old { operands = self.new.operands } }
        ensures reach { ReachesHeight self.old → ReachesHeight self.new }
    {
        match self.pop_all(takes) {
            Ok(()) => self.push_all(gives),
            Err(fault) => Err(fault),
        }
    }

    /// "pop_vals" of a list of the context.
    pub(crate) fn pop_list(&mut self, list: TypeList) -> Result<(), Fault>
        ensures pops { ResultsIn (pop_all_in (setting_of self.old) (inner_of self.old)
            (types_in self.old.context.now list) (operand_stack self.old)) result (operand_stack self.new) }
        ensures same { self.new ≡ record self.old { operands = self.new.operands } }
        ensures reach { ReachesHeight self.old → ReachesHeight self.new }
    {
        let context = self.context;
        match list {
            TypeList::Empty => Ok(()),
            TypeList::One(ty) => self.pop(ty),
            TypeList::Params(index) => self.pop_all(context.params_at(index)),
            TypeList::Results(index) => self.pop_all(context.results_at(index)),
        }
    }

    /// "push_vals" of a list of the context.
    pub(crate) fn push_list(&mut self, list: TypeList) -> Result<(), Fault>
        ensures ok { OnOk result (operand_stack self.new
            ≡ push_each_in (setting_of self.old) (types_in self.old.context.now list)
            (operand_stack self.old)) }
        ensures err { IfErr result (λ e. e ≡ MemoryFault) }
        ensures same { self.new ≡ record self.old { operands = self.new.operands } }
        ensures reach { ReachesHeight self.old → ReachesHeight self.new }
    {
        let context = self.context;
        match list {
            TypeList::Empty => Ok(()),
            TypeList::One(ty) => self.push(operand_of(ty)),
            TypeList::Params(index) => self.push_all(context.params_at(index)),
            TypeList::Results(index) => self.push_all(context.results_at(index)),
        }
    }

    /// "pop_ctrl", but for the frame itself, which isn't the function's.
    pub(crate) fn pop_control(&mut self) -> Result<(), Fault>
        requires { is_function_frame (opened_of self.old.inner.opened) ≡ false }
        ensures pops { ResultsIn (pop_control_in (setting_of self.old) (inner_of self.old)
            (stacks_of self.old)) result (stacks_of self.new) }
        ensures same { self.new ≡ record self.old { operands = self.new.operands; set = self.new.set } }
    {
        match self.pop_list(self.inner.ends) {
            Ok(()) => {}
            Err(fault) => return Err(fault),
        }
        if self.operands.len() != self.inner.height {
            return Err(Fault::Refused);
        }
        self.set.truncate(self.inner.locals_height);
        Ok(())
    }

    /// "push_ctrl", where the new frame takes the place of the innermost, which is kept, or was closed.
    pub(crate) fn enter(
        &mut self,
        opened: Opened,
        starts: TypeList,
        ends: TypeList,
    ) -> Result<(), Fault>
        requires { is_function_frame (opened_of opened) ≡ false }
        ensures ok { OnOk result (EntersFrame self.old self.new opened starts ends) }
        ensures err { IfErr result (λ e. e ≡ MemoryFault) }
        ensures same { self.new
            ≡ record self.old { operands = self.new.operands; inner = self.new.inner } }
    {
        self.inner = Frame {
            opened,
            starts,
            ends,
            height: self.operands.len(),
            locals_height: self.set.len(),
            unreachable: false,
        };
        self.push_list(starts)
    }

    /// "push_ctrl"
    pub(crate) fn open(
        &mut self,
        opened: Opened,
        starts: TypeList,
        ends: TypeList,
    ) -> Result<(), Fault>
        requires { is_function_frame (opened_of opened) ≡ false }
        ensures ok { OnOk result (OpensFrame self.old self.new opened starts ends) }
        ensures err { IfErr result (λ e. e ≡ MemoryFault) }
        ensures open { self.new.ended ≡ self.old.ended }
        ensures setting { setting_of self.new ≡ setting_of self.old }
    {
        match self.outer.push(self.inner) {
            Ok(()) => self.enter(opened, starts, ends),
            Err(_) => Err(Fault::Memory),
        }
    }

    /// Leaves the innermost frame, if there is one around it.
    pub(crate) fn leave(&mut self) -> bool
        ensures leaves { Leaves self.old self.new result }
        ensures setting { setting_of self.new ≡ setting_of self.old }
    {
        match self.outer.pop() {
            Some(frame) => {
                self.inner = frame;
                true
            }
            None => false,
        }
    }

    /// "unreachable()"
    pub(crate) fn set_unreachable(&mut self)
        ensures operands { operand_stack self.new ≡ up_to self.old.inner.height (operand_stack self.old) }
        ensures frame { inner_of self.new ≡ record (inner_of self.old) { unreachable = true } }
        ensures same { self.new
            ≡ record self.old { operands = self.new.operands; inner = self.new.inner } }
        ensures reach { ReachesHeight self.old → ReachesHeight self.new }
    {
        self.operands.truncate(self.inner.height);
        self.inner.unreachable = true;
    }

    /// The frame of a label, if it is there.
    pub(crate) fn frame(&self, label: u32) -> Option<&Frame>
        ensures { MatchOption result (labelled self.now label ≡ Err refused)
            (λ frame. labelled self.now label ≡ Ok (framed self.now frame.now)) }
    {
        let label = label as usize;
        if label == 0 {
            return Some(&self.inner);
        }
        if label > self.outer.len() {
            return None;
        }
        Some(&self.outer[self.outer.len() - label])
    }

    /// The types of a label, if it is there.
    pub(crate) fn label(&self, label: u32) -> Option<TypeList>
        ensures { MatchOption result (labelled self.now label ≡ Err refused)
            (λ list. IsLabel self.now label list) }
    {
        match self.frame(label) {
            Some(frame) => Some(label_types(frame)),
            None => None,
        }
    }
}
