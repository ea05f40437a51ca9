//! A visitor that records events.
ghost use Rattle.std.specs.Prelude.{◌≡◌, [], OnOk, OnErr, IfErr};
ghost use Rattle.tests_body.specs.Recording.{AddsNote, IsUnable, HasSameNotes, word_of};

use std::alloc::{AllocError, Global};
use std::fmt;
use walrus_ir::{DataId, Instr, InstrLocId, InstrSeq, LocalId, RefFunc, Visitor, WalkError};

/// The kind of an event: a call, or the instruction that was visited.
#[derive(Clone, Copy)]
pub enum Word {
    /// A sequence starts.
    Start,
    /// A sequence ends.
    End,
    /// A constant is visited.
    Const,
    /// A `drop` is visited.
    Drop,
    /// A block is visited.
    Block,
    /// An `if` is visited.
    IfElse,
    /// A legacy `try` is visited.
    Try,
    /// Any other instruction is visited.
    Other,
    /// The function of a `ref.func`.
    Func,
    /// The local of an instruction.
    Local,
    /// The data segment of an instruction.
    Data,
}

/// The record of an event.
#[derive(Clone, Copy)]
pub struct Note {
    /// The kind of the event.
    pub word: Word,
    /// The number of the id, the length or the location, by the kind.
    pub number: usize,
}

impl fmt::Display for Note {
    fn fmt<W: fmt::Write>(&self, f: &mut fmt::Formatter<W>) -> fmt::Result {
        let word = match self.word {
            Word::Start => "start",
            Word::End => "end",
            Word::Const => "const",
            Word::Drop => "drop",
            Word::Block => "block",
            Word::IfElse => "if-else",
            Word::Try => "try",
            Word::Other => "other",
            Word::Func => "func",
            Word::Local => "local",
            Word::Data => "data",
        };
        write!(f, " {word}{}", self.number)
    }
}

/// Records the events that it visits, a note for each call, until no calls remain; then it refuses.
#[derive(Drop)]
pub struct Recorder {
    /// The notes so far, in order.
    pub noted: Vec<Note>,
    /// The number of calls that are accepted from now on.
    pub calls_left: u32,
}

impl Recorder {
    /// A recorder that accepts this many calls.
    pub fn new(alloc: Global, calls_left: u32) -> Recorder
        ensures noted { result.noted.items ≡ [] }
        ensures calls_left { result.calls_left ≡ calls_left }
    {
        Recorder {
            noted: Vec::new(alloc),
            calls_left,
        }
    }

    /// Appends the notes, one after the other.
    pub fn push_text(&self, text: &mut String) -> Result<(), AllocError> {
        for note in &self.noted {
            write!(text, "{note}")?;
        }
        Ok(())
    }

    fn note(&mut self, word: Word, number: usize) -> Result<(), WalkError>
        ensures ok { OnOk result
            (AddsNote self.old (record { word = word; number = number }) self.new) }
        ensures err { IfErr result (IsUnable self.old) }
        ensures unchanged { OnErr result (HasSameNotes self.old self.new) }
    {
        if self.calls_left == 0 {
            return Err(WalkError::TooLarge);
        }
        self.noted.push(Note { word, number })?;
        self.calls_left -= 1;
        Ok(())
    }
}

// The word for an instruction.
fn word_of(instr: &Instr) -> Word
    ensures { result ≡ word_of instr.now }
{
    match instr {
        Instr::Const(_) => Word::Const,
        Instr::Drop => Word::Drop,
        Instr::Block(_) => Word::Block,
        Instr::IfElse(_) => Word::IfElse,
        Instr::Try(_) => Word::Try,
        _ => Word::Other,
    }
}

impl Visitor for Recorder {
    type Fault = WalkError;

    ghost use Rattle.std.proofs.Common.{refl};
    ghost use Rattle.tests_body.specs.Recording.{Notes, DeclinesNote, HasSameNotes, same_notes_back};
    ghost use Rattle.tests_body.specs.Recording.{same_notes_through, note_alike, decline_alike};

    ghost steps = { Notes };

    ghost refuses = { DeclinesNote };

    ghost same = { HasSameNotes };

    ghost reflexive = { λ s. record { noted = refl; calls_left = refl } };

    ghost symmetric = { same_notes_back };

    ghost transitive = { same_notes_through };

    ghost steps_alike = { note_alike };

    ghost refuses_alike = { decline_alike };

    fn start_instr_seq(&mut self, seq: &InstrSeq) -> Result<(), WalkError> {
        self.note(Word::Start, seq.id().index())
    }

    fn end_instr_seq(&mut self, seq: &InstrSeq) -> Result<(), WalkError> {
        self.note(Word::End, seq.len())
    }

    fn visit_instr(&mut self, instr: &Instr, loc: &InstrLocId) -> Result<(), WalkError> {
        self.note(word_of(instr), loc.data() as usize)
    }

    fn visit_data_id(&mut self, data_id: &DataId) -> Result<(), WalkError> {
        self.note(Word::Data, data_id.index())
    }

    fn visit_local_id(&mut self, local: &LocalId) -> Result<(), WalkError> {
        self.note(Word::Local, local.index())
    }

    fn visit_ref_func(&mut self, instr: &RefFunc) -> Result<(), WalkError> {
        self.note(Word::Func, instr.func.index())
    }
}
