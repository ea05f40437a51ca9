//! Operators that open, part and close constructs.
ghost use Rattle.std.specs.Prelude.{◌≡◌, ◌<◌, [], length, IsTrue, OnOk, IfErr, MatchOption, Ok, Err, true, false};
ghost use Rattle.wasm_validator.specs.declared.fault.Fault.TheVariants.{Memory as MemoryFault};
ghost use Rattle.walrus_ir.specs.Types.{signature};
ghost use Rattle.wasm_body.specs.Validity.{refused, demand, is_if, is_try, may_catch};
ghost use Rattle.wasm_typing.specs.Matching.{matches_values};
ghost use Rattle.wasm_validator.specs.WellFormed.{IsWellFormed, is_function_frame};
ghost use Rattle.wasm_context.specs.TypeLists.{types_in, signature_of_block};
ghost use Rattle.wasm_validator.specs.States.{opened_of};
ghost use Rattle.wasm_validator.specs.Steps.{ResultsIn};

use crate::fault::Fault;
use crate::frame::Opened;
use crate::state::Validator;
use crate::types::{last_type, types_of};
use wasm_context::{BlockTypes, TypeList};
use wasm_operators::{BlockType, CatchList, RawCatch, RawValType};
use wasm_types::{AbstractHeapType, HeapType, RefType, ValType};

/// "(ref exn)", the type of a caught exception.
const CAUGHT: RawValType = ValType::Ref(RefType {
    nullable: false,
    heap_type: HeapType::Abstract(AbstractHeapType::Exn),
});

impl Validator<'_> {
    ghost use Rattle.wasm_validator.specs.Steps.{setting_of, outer_of, open_state, ended_of, whole_state_of};
    ghost use Rattle.wasm_validator.specs.Core.{open_frames, begin_in, begins_in, begins_if, begins_try_table, tag_there, HandsOn, with_caught, clause_step, clauses_step, next_in, given_in, ends_in, elses_in, catches_in, catches_all_in, delegates_in};

    /// Opens a sequence of these types.
    fn begin_with(&mut self, opened: Opened, types: BlockTypes) -> Result<(), Fault>
        requires { is_function_frame (opened_of opened) ≡ false }
        ensures begins { ResultsIn (begin_in self.old opened (signature_of_block self.old.context.now types))
            result (open_state self.new) }
        ensures open { self.new.ended ≡ self.old.ended }
        ensures setting { setting_of self.new ≡ setting_of self.old }
    {
        match self.pop_list(types.params) {
            Ok(()) => self.open(opened, types.params, types.results),
            Err(fault) => Err(fault),
        }
    }

    /// `block`, `loop` and `try`
    pub(crate) fn begin(&mut self, opened: Opened, ty: BlockType) -> Result<(), Fault>
        requires { is_function_frame (opened_of opened) ≡ false }
        ensures begins { ResultsIn (begins_in self.old opened ty) result (open_state self.new) }
        ensures open { self.new.ended ≡ self.old.ended }
        ensures setting { setting_of self.new ≡ setting_of self.old }
    {
        match self.context.block_types(ty) {
            Some(types) => self.begin_with(opened, types),
            None => Err(Fault::Refused),
        }
    }

    /// `if`
    pub(crate) fn begin_if(&mut self, ty: BlockType) -> Result<(), Fault>
        ensures begins { ResultsIn (begins_if self.old ty) result (open_state self.new) }
        ensures open { self.new.ended ≡ self.old.ended }
        ensures setting { setting_of self.new ≡ setting_of self.old }
    {
        let Some(types) = self.context.block_types(ty) else {
            return Err(Fault::Refused);
        };
        match self.pop(ValType::I32) {
            Ok(()) => self.begin_with(Opened::If, types),
            Err(fault) => Err(fault),
        }
    }

    /// The types that a clause of `try_table` with this tag hands on, if the tag is there.
    fn handed(&self, tag: Option<u32>) -> Option<&[RawValType]>
        ensures { MatchOption result (tag_there (setting_of self.now) tag ≡ Err refused)
            (λ types. HandsOn (setting_of self.now) tag types.now) }
    {
        match tag {
            None => Some(&[]),
            Some(tag) => match self.context.tag_type(tag) {
                Some(ty) => Some(self.context.params_at(ty)),
                None => None,
            },
        }
    }

    /// Whether these types match those of a label, where a clause may hand on the exception, too.
    fn goes_to(&self, handed: &[RawValType], by_reference: bool, types: &[RawValType]) -> bool
        ensures { matches_values (setting_of self.now).operands (with_caught by_reference handed.now)
            types.now ≡ result }
    {
        if !by_reference {
            return self.context.matches_values(handed, types);
        }
        match last_type(types) {
            Some(parts) => self.context.matches_values(handed, parts.1)
                && self.context.matches_value(CAUGHT, parts.0),
            None => false,
        }
    }

    /// Whether the tag of a clause of `try_table` is there, and the clause hands to its label what the
    /// label takes.
    fn hands(&self, clause: RawCatch) -> bool
        ensures { clause_step (setting_of self.now) (open_frames self.now) clause ≡ demand result }
    {
        let Some(handed) = self.handed(clause.tag) else {
            return false;
        };
        let Some(list) = self.label(clause.label) else {
            return false;
        };
        self.goes_to(handed, clause.by_reference, types_of(self.context, &list))
    }

    /// Whether the clauses of a `try_table` are valid.
    fn all_hand(&self, catches: &CatchList<'_>) -> bool
        ensures { clauses_step (setting_of self.now) (open_frames self.now) catches.now ≡ demand result }
    {
        let mut left = catches.iter();
        while let Some(clause) = left.next() {
            if !self.hands(clause) {
                return false;
            }
        }
        true
    }

    /// `try_table`
    pub(crate) fn begin_try_table(
        &mut self,
        ty: BlockType,
        catches: &CatchList<'_>,
    ) -> Result<(), Fault>
        ensures begins { ResultsIn (begins_try_table self.old ty catches.now) result (open_state self.new) }
        ensures open { self.new.ended ≡ self.old.ended }
        ensures setting { setting_of self.new ≡ setting_of self.old }
    {
        let Some(types) = self.context.block_types(ty) else {
            return Err(Fault::Refused);
        };
        if !self.all_hand(catches) {
            return Err(Fault::Refused);
        }
        self.begin_with(Opened::TryTable, types)
    }

    /// The next sequence of the construct, if it may follow.
    fn reopen(&mut self, allowed: bool, opened: Opened, starts: TypeList) -> Result<(), Fault>
        requires inner { IsTrue allowed → is_function_frame (opened_of self.old.inner.opened) ≡ false }
        requires opened { is_function_frame (opened_of opened) ≡ false }
        ensures goes_on { ResultsIn (next_in self.old allowed opened (types_in self.old.context.now starts))
            result (open_state self.new) }
        ensures same { self.new ≡ record self.old { operands = self.new.operands; set = self.new.set; inner = self.new.inner } }
    {
        if !allowed {
            return Err(Fault::Refused);
        }
        match self.pop_control() {
            Ok(()) => self.enter(opened, starts, self.inner.ends),
            Err(fault) => Err(fault),
        }
    }

    /// Whether `else` may follow.
    fn is_if(&self) -> bool
        ensures { result ≡ is_if (opened_of self.now.inner.opened) }
    {
        matches!(self.inner.opened, Opened::If)
    }

    /// `else`
    pub(crate) fn else_sequence(&mut self) -> Result<(), Fault>
        ensures goes_on { ResultsIn (elses_in self.old) result (open_state self.new) }
        ensures same { self.new ≡ record self.old { operands = self.new.operands; set = self.new.set; inner = self.new.inner } }
    {
        self.reopen(self.is_if(), Opened::Else, self.inner.starts)
    }

    /// Whether a handler may follow.
    fn may_catch(&self) -> bool
        ensures { result ≡ may_catch (opened_of self.now.inner.opened) }
    {
        matches!(self.inner.opened, Opened::Try | Opened::Catch)
    }

    /// `catch`
    pub(crate) fn catch(&mut self, tag: u32) -> Result<(), Fault>
        ensures goes_on { ResultsIn (catches_in self.old tag) result (open_state self.new) }
        ensures open { self.new.ended ≡ self.old.ended }
        ensures setting { setting_of self.new ≡ setting_of self.old }
    {
        match self.context.tag_type(tag) {
            Some(ty) => self.reopen(self.may_catch(), Opened::Catch, TypeList::Params(ty)),
            None => Err(Fault::Refused),
        }
    }

    /// `catch_all`
    pub(crate) fn catch_all(&mut self) -> Result<(), Fault>
        ensures goes_on { ResultsIn (catches_all_in self.old) result (open_state self.new) }
        ensures open { self.new.ended ≡ self.old.ended }
        ensures setting { setting_of self.new ≡ setting_of self.old }
    {
        self.reopen(self.may_catch(), Opened::CatchAll, TypeList::Empty)
    }

    /// Leaves the innermost frame, which was closed, and pushes what it gives.
    fn give(&mut self) -> Result<(), Fault>
        requires { 0 < length self.old.outer.items }
        ensures ok { OnOk result (given_in self.old ≡ open_state self.new) }
        ensures err { IfErr result (λ e. e ≡ MemoryFault) }
        ensures open { self.new.ended ≡ self.old.ended }
        ensures setting { setting_of self.new ≡ setting_of self.old }
    {
        let ends = self.inner.ends;
        self.leave();
        self.push_list(ends)
    }

    /// Whether `delegate` may follow.
    fn is_try(&self) -> bool
        ensures { result ≡ is_try (opened_of self.now.inner.opened) }
    {
        matches!(self.inner.opened, Opened::Try)
    }

    /// `delegate`
    pub(crate) fn delegate(&mut self, depth: u32) -> Result<(), Fault>
        ensures goes_on { ResultsIn (delegates_in self.old depth) result (open_state self.new) }
        ensures open { self.new.ended ≡ self.old.ended }
        ensures setting { setting_of self.new ≡ setting_of self.old }
    {
        if !self.is_try() {
            return Err(Fault::Refused);
        }
        if depth as usize >= self.outer.len() {
            return Err(Fault::Refused);
        }
        match self.pop_control() {
            Ok(()) => self.give(),
            Err(fault) => Err(fault),
        }
    }

    /// `end`, of a construct that isn't an `if` without `else`.
    fn end_construct(&mut self) -> Result<(), Fault>
        requires around { 0 < length self.old.outer.items }
        requires inner { is_function_frame (opened_of self.old.inner.opened) ≡ false }
        requires parted { is_if (opened_of self.old.inner.opened) ≡ false }
        ensures goes_on { ResultsIn (ends_in self.old) result (open_state self.new) }
        ensures open { self.new.ended ≡ self.old.ended }
        ensures setting { setting_of self.new ≡ setting_of self.old }
    {
        match self.pop_control() {
            Ok(()) => self.give(),
            Err(fault) => Err(fault),
        }
    }

    /// `end`, of the function.
    fn end_function(&mut self) -> Result<(), Fault>
        requires alone { outer_of self.old ≡ [] }
        requires inner { is_function_frame (opened_of self.old.inner.opened) ≡ true }
        ensures goes_on { ResultsIn (ends_in self.old) result (ended_of self.new) }
        ensures ended { OnOk result (self.new.ended ≡ true) }
        ensures setting { setting_of self.new ≡ setting_of self.old }
    {
        match self.pop_list(self.inner.ends) {
            Ok(()) => {}
            Err(fault) => return Err(fault),
        }
        if self.operands.len() != self.inner.height {
            return Err(Fault::Refused);
        }
        self.ended = true;
        Ok(())
    }

    /// `end`, of an `if` without `else`, which is read as `else end`.
    fn end_if(&mut self) -> Result<(), Fault>
        requires well_formed { IsWellFormed (open_state self.old) }
        requires inner { is_if (opened_of self.old.inner.opened) ≡ true }
        ensures goes_on { ResultsIn (ends_in self.old) result (open_state self.new) }
        ensures open { self.new.ended ≡ self.old.ended }
        ensures setting { setting_of self.new ≡ setting_of self.old }
    {
        match self.else_sequence() {
            Ok(()) => self.end_construct(),
            Err(fault) => Err(fault),
        }
    }

    /// `end`
    pub(crate) fn end(&mut self) -> Result<(), Fault>
        requires well_formed { IsWellFormed (open_state self.old) }
        requires open { self.old.ended ≡ false }
        ensures goes_on { ResultsIn (ends_in self.old) result (whole_state_of self.new) }
        ensures setting { setting_of self.new ≡ setting_of self.old }
    {
        match self.inner.opened {
            Opened::Function => self.end_function(),
            Opened::If => self.end_if(),
            _ => self.end_construct(),
        }
    }
}
