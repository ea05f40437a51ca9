//! The open frames, with the instructions of all of them in one list.
ghost use Rattle.std.specs.Prelude.{reverse, ◌≡◌, ◌⊎◌, ◌≤◌, ◌<◌, ◌+◌, ◌^◌, ℕ, ◌∷◌, ◌++◌, [], List, length, take, drop, MatchOption, IfOk, IfErr, OnOk, OnErr, None, Some, Ok, Err, true, false};
ghost use Rattle.wasm_body.specs.declared.error.ParseError.{ParseError as Fault};
ghost use Rattle.walrus_context.specs.OpenFrames.{OpenFrame, AreShown, ShowsAt, frame_with, new_frame, marked_unreachable, with_instr, ChangesAt, HasNoFrame, HasNoFrameAt, InnerAreEmpty, with_clause_in, with_clause_around};
ghost use Rattle.walrus_context.specs.FrameStacks.{moved_from, StartFrom};

use crate::frame::{ControlFrame, ControlStack};
use std::alloc::AllocError;
use std::marker::Model;
use std::mem;
use walrus_ir::{BlockKind, Instr, InstrLocId, InstrSeqId, LegacyCatch, ValType};
use walrus_maps::{list_with_room, make_room};
use wasm_body::ParseError;

/// Pushes an item. The error is `Memory` if memory runs out; the list is unchanged.
#[inline(always)]
pub fn push_or_fail<T: Drop>(list: &mut Vec<T>, item: T) -> Result<(), ParseError>
    ensures ok { OnOk result (list.new.items ≡ list.old.items ++ item ∷ []) }
    ensures err { IfErr result (λ e. e ≡ Fault.Memory) }
    ensures same { OnErr result (list.new.items ≡ list.old.items) }
{
    if try_push(list, item) {
        Ok(())
    } else {
        Err(ParseError::Memory)
    }
}

/// Pushes an item, and returns whether it could. If memory runs out the list is unchanged.
#[inline(always)]
pub fn try_push<T: Drop>(list: &mut Vec<T>, item: T) -> bool
    ensures done { result ≡ true → list.new.items ≡ list.old.items ++ item ∷ [] }
    ensures same { result ≡ false → list.new.items ≡ list.old.items }
{
    if list.len() >= list.capacity() && !make_room(list, 1) {
        return false;
    }
    list.push_reserved(item);
    true
}

/// The index of the n-th frame from the innermost, if more than `n` frames are open.
#[inline(always)]
fn index_of(controls: &ControlStack, n: usize) -> Option<usize>
    ensures { MatchOption result (length controls.now.items ≤ n)
        (λ index. n + index + 1 ≡ length controls.now.items) }
{
    if n >= controls.len() {
        return None;
    }
    Some(controls.len() - n - 1)
}

/// Adds a clause to an instruction. The error is `NoTry` if it isn't a `try`.
fn add_clause_in(item: &mut (Instr, InstrLocId), catch: LegacyCatch) -> Result<(), ParseError>
    ensures ok { OnOk result (with_clause_in catch item.old ≡ Some item.new) }
    ensures err { IfErr result (λ e. (e ≡ Fault.Memory)
        ⊎ ((e ≡ Fault.NoTry) × (with_clause_in catch item.old ≡ None))) }
    ensures same { OnErr result (item.new ≡ item.old) }
{
    match &mut item.0 {
        Instr::Try(x) => push_or_fail(&mut x.catches, catch),
        _ => Err(ParseError::NoTry),
    }
}

/// Moves the start of every frame from this index on by one instruction.
fn move_starts(controls: &mut ControlStack, from: usize)
    requires within { from ≤ length controls.old.items }
    requires fit { (end : ℕ) × (end + 1 < 2 ^ 64) × StartFrom 0 controls.old.items end }
    ensures { controls.new.items ≡ moved_from from controls.old.items }
{
    let mut index = controls.len();
    while index > from {
        index -= 1;
        controls[index].start += 1;
    }
}

/// How many instructions a list has at least that is handed on instead of copied.
const MANY: usize = 64;

/// For how many instructions room is made at most in the list that takes its place.
const MOST_ROOM: usize = 4096;

/// The items from a position on, which are removed from the list. If they are all its items, and it
/// isn't short and has used most of its room, the list itself is handed on, and an empty one takes
/// its place. If memory runs out the list is unchanged.
fn take_tail(
    list: &mut Vec<(Instr, InstrLocId)>,
    start: usize,
) -> Result<Vec<(Instr, InstrLocId)>, AllocError>
    requires { start ≤ length list.old.items }
    ensures items { OnOk result (list.new.items ≡ take start list.old.items) }
    ensures tail { IfOk result (λ t. t.items ≡ drop start list.old.items) }
    ensures err { OnErr result (list.new.items ≡ list.old.items) }
{
    if start > 0 || list.len() < MANY || list.len() < list.capacity() / 2 {
        return list.split_off(start);
    }
    let empty = list_with_room(*list.allocator(), list.capacity().min(MOST_ROOM));
    let mut tail = mem::replace(list, empty);
    tail.shrink_to_fit();
    Ok(tail)
}

/// The open frames. In a contract, they are a list, innermost first.
#[derive(Drop)]
pub struct FrameStack {
    controls: ControlStack,
    instrs: Vec<(Instr, InstrLocId)>,
}

impl Model for FrameStack {
    ghost use Rattle.std.specs.Prelude.{List, [], length};
    ghost use Rattle.walrus_context.specs.OpenFrames.{OpenFrame};

    ghost Value = { List OpenFrame };

    ghost use Rattle.walrus_context.specs.FrameStacks.{frames_in, StartFrom};

    ghost view = { λ s. frames_in s.instrs.items [] s.controls.items };

    ghost invariant = { λ s. StartFrom 0 s.controls.items (length s.instrs.items) };
}

impl FrameStack {
    /// A stack without an open frame. It uses these two lists, which are empty.
    pub fn new(controls: ControlStack, lent: Vec<(Instr, InstrLocId)>) -> FrameStack
        requires none { controls.items ≡ [] }
        requires empty { lent.items ≡ [] }
        ensures { result ≡ [] }
    {
        FrameStack {
            controls,
            instrs: lent,
        }
    }

    /// The number of open frames.
    #[inline(always)]
    pub fn count(&self) -> usize
        ensures { result ≡ length self.now }
    {
        self.controls.len()
    }

    /// The n-th frame. Frames count from the innermost, which is 0.
    #[inline(always)]
    pub fn get(&self, n: usize) -> Option<&ControlFrame>
        ensures { MatchOption result (length self.now ≤ n) (λ f. ShowsAt self.now n f.now) }
    {
        match index_of(&self.controls, n) {
            Some(index) => Some(&self.controls[index]),
            None => None,
        }
    }

    /// Opens a frame without instructions, and returns whether it could. If memory runs out nothing
    /// is changed.
    pub fn push(
        &mut self,
        kind: BlockKind,
        start_types: Vec<ValType>,
        end_types: Vec<ValType>,
        block: InstrSeqId,
    ) -> bool
        ensures done { result ≡ true
            → self.new ≡ new_frame kind start_types.items end_types.items block ∷ self.old }
        ensures same { result ≡ false → self.new ≡ self.old }
    {
        let start = self.instrs.len();
        let frame = ControlFrame {
            start_types,
            end_types,
            unreachable: false,
            block,
            kind,
            start,
        };
        try_push(&mut self.controls, frame)
    }

    /// Closes the innermost frame.
    pub fn pop(&mut self) -> Result<(ControlFrame, Vec<(Instr, InstrLocId)>), ParseError>
        ensures ok { IfOk result (λ x. self.old ≡ frame_with x.0 x.1.items ∷ self.new) }
        ensures err { IfErr result (λ e. (e ≡ Fault.Memory) ⊎ HasNoFrame self.old e) }
        ensures same { OnErr result (self.new ≡ self.old) }
    {
        let Some(frame) = self.controls.pop() else {
            return Err(ParseError::NoFrame);
        };
        match take_tail(&mut self.instrs, frame.start) {
            Ok(tail) => Ok((frame, tail)),
            Err(_) => {
                self.controls.push(frame).unwrap();
                Err(ParseError::Memory)
            }
        }
    }

    /// Closes the innermost frame and drops its instructions.
    pub fn discard(&mut self)
        requires { 0 < length self.old }
        ensures { (frame : OpenFrame) × (self.old ≡ frame ∷ self.new) }
    {
        let frame = self.controls.pop().unwrap();
        self.instrs.truncate(frame.start);
    }

    /// Marks the innermost frame as unreachable: the instructions that follow in it are dropped.
    pub fn mark_unreachable(&mut self) -> Result<(), ParseError>
        ensures ok { OnOk result (ChangesAt 0 marked_unreachable self.old self.new) }
        ensures err { IfErr result (HasNoFrame self.old) }
        ensures same { OnErr result (self.new ≡ self.old) }
    {
        let open = self.count();
        if open == 0 {
            return Err(ParseError::NoFrame);
        }
        self.mark_innermost_unreachable();
        Ok(())
    }

    /// The same for a frame that is open.
    #[inline(always)]
    pub fn mark_innermost_unreachable(&mut self)
        requires { 0 < length self.old }
        ensures { ChangesAt 0 marked_unreachable self.old self.new }
    {
        let index = self.controls.len() - 1;
        self.controls[index].unreachable = true;
    }

    /// Appends an instruction to the n-th frame from the innermost, or drops it if that frame is
    /// unreachable. Requires that the frames inside the n-th have no instructions.
    #[inline(always)]
    pub fn append(&mut self, n: usize, instr: Instr, location: InstrLocId) -> Result<(), ParseError>
        requires { InnerAreEmpty n self.old }
        ensures ok { OnOk result
            (ChangesAt n (with_instr (instr, location)) self.old self.new) }
        ensures err { IfErr result (λ e. (e ≡ Fault.Memory) ⊎ HasNoFrameAt self.old n e) }
        ensures same { OnErr result (self.new ≡ self.old) }
    {
        let Some(index) = index_of(&self.controls, n) else {
            return Err(ParseError::NoSuchLabel);
        };
        if self.controls[index].unreachable {
            return Ok(());
        }
        match push_or_fail(&mut self.instrs, (instr, location)) {
            Ok(()) => {
                move_starts(&mut self.controls, index + 1);
                Ok(())
            }
            Err(error) => Err(error),
        }
    }

    /// Appends an instruction to the innermost frame, or drops it if that frame is unreachable, and returns
    /// whether it could. If no frame is open or memory runs out nothing is changed.
    #[inline(always)]
    pub fn append_innermost(&mut self, instr: Instr, location: InstrLocId) -> bool
        ensures done { result ≡ true
            → ChangesAt 0 (with_instr (instr, location)) self.old self.new }
        ensures same { result ≡ false → self.new ≡ self.old }
    {
        let Some(index) = index_of(&self.controls, 0) else {
            return false;
        };
        if self.controls[index].unreachable {
            return true;
        }
        try_push(&mut self.instrs, (instr, location))
    }

    /// Adds a clause to the `try` at the end of the frame around the innermost, or drops it if that
    /// frame is unreachable.
    pub fn add_clause(&mut self, catch: LegacyCatch) -> Result<(), ParseError>
        ensures ok { OnOk result (with_clause_around catch self.old ≡ Ok self.new) }
        ensures err { IfErr result (λ e. (e ≡ Fault.Memory)
            ⊎ (with_clause_around catch self.old ≡ Err e)) }
        ensures same { OnErr result (self.new ≡ self.old) }
    {
        let Some(index) = index_of(&self.controls, 1) else {
            return Err(ParseError::NoSuchLabel);
        };
        if self.controls[index].unreachable {
            return Ok(());
        }
        let start = self.controls[index].start;
        let end = self.controls[index + 1].start;
        if start >= end {
            return Err(ParseError::NoTry);
        }
        add_clause_in(&mut self.instrs[end - 1], catch)
    }

    /// The frames, the innermost last, and the list of instructions, which is emptied.
    pub fn into_parts(self) -> (ControlStack, Vec<(Instr, InstrLocId)>)
        ensures frames { AreShown (reverse result.0.items) self }
        ensures empty { result.1.items ≡ [] }
    {
        let FrameStack {
            controls,
            mut instrs,
        } = self;
        instrs.clear();
        (controls, instrs)
    }
}
