//! The open sequences of a body that is written, and what is written of the operators that follow.
ghost use Rattle.std.specs.Prelude.{◌≡◌, ◌<◌, ◌∷◌, vec_len, vec_capacity, OnOk, IfErr};
ghost use Rattle.std.specs.Bool.{OnTrue};
ghost use Rattle.wasm_body.specs.declared.error.EmitError.TheVariants.{Memory};
ghost use Rattle.wasm_body.specs.Flat.{innermost, around, needs_else};
ghost use Rattle.walrus_flat.specs.Written.{open_of, opens_of, flat_state_of, is_unreachable_next, waits, waiting_location, ends_dropped};
ghost use Rattle.walrus_flat.specs.declared.sequences.Next.TheVariants.{Live as LiveNext};

use walrus_ir::InstrLocId;
use wasm_body::EmitError;

/// What becomes of the operators that follow in the innermost sequence.
#[derive(Clone, Copy)]
pub(crate) enum Next {
    /// They are written.
    Live,
    /// The same, and the first one after an `else` with this location, which isn't written yet.
    Waits(InstrLocId),
    /// They aren't written.
    Unreachable,
}

/// An open sequence.
#[derive(Clone, Copy)]
pub(crate) enum Written {
    /// It is one of a construct in unreachable code.
    Dropped,
    /// It is written. `true`: its `if` needs an `else`, and has none so far.
    Kept(bool),
}

/// Whether an `if` needs an `else` after this sequence.
fn needs_else_after(sequence: Written) -> bool
    ensures { result ≡ needs_else (open_of sequence) }
{
    match sequence {
        Written::Kept(needs_else) => needs_else,
        Written::Dropped => false,
    }
}

/// The open sequences, the innermost last.
#[derive(Drop)]
pub(crate) struct OpenSequences {
    pub next: Next,
    pub sequences: Vec<Written>,
}

impl OpenSequences {
    /// Whether what follows isn't written.
    pub fn is_unreachable(&self) -> bool
        ensures { result ≡ is_unreachable_next self.now.next }
    {
        matches!(self.next, Next::Unreachable)
    }

    /// Whether what follows is written, and no `else` waits.
    #[inline(always)]
    pub fn is_live(&self) -> bool
        ensures { OnTrue result (self.now.next ≡ LiveNext) }
    {
        matches!(self.next, Next::Live)
    }

    /// Whether an `else` waits.
    pub fn waits(&self) -> bool
        ensures { result ≡ waits self.now.next }
    {
        matches!(self.next, Next::Waits(_))
    }

    /// The location of the `else` that waits, if one does.
    pub fn waiting(&self) -> Option<InstrLocId>
        ensures { result ≡ waiting_location self.now.next }
    {
        match self.next {
            Next::Waits(location) => Some(location),
            _ => None,
        }
    }

    /// No `else` waits any more.
    pub fn wake(&mut self)
        ensures { self.new ≡ record self.old { next = LiveNext } }
    {
        self.next = Next::Live;
    }

    /// The innermost sequence; `Dropped` if none is open.
    fn innermost(&self) -> Written
        ensures { open_of result ≡ innermost (opens_of self.now) }
    {
        match self.sequences.last().copied() {
            Some(sequence) => sequence,
            None => Written::Dropped,
        }
    }

    /// Whether the `if` of the innermost sequence needs an `else`, and has none so far.
    pub fn needs_else(&self) -> bool
        ensures { result ≡ needs_else (innermost (opens_of self.now)) }
    {
        needs_else_after(self.innermost())
    }

    /// Whether an operator that ends the innermost sequence is in unreachable code.
    pub fn ends_dropped(&self) -> bool
        ensures { result ≡ ends_dropped (flat_state_of self.now) }
    {
        if !self.is_unreachable() {
            return false;
        }
        matches!(self.innermost(), Written::Dropped)
    }

    /// Opens a sequence.
    pub fn enter(&mut self, sequence: Written) -> Result<(), EmitError>
        ensures ok { OnOk result (opens_of self.new ≡ open_of sequence ∷ opens_of self.old) }
        ensures next { self.new.next ≡ self.old.next }
        ensures err { IfErr result (λ e. e ≡ Memory) }
    {
        match self.sequences.push(sequence) {
            Ok(()) => Ok(()),
            Err(_) => Err(EmitError::Memory),
        }
    }

    /// Whether the list has room for another sequence.
    #[inline(always)]
    pub fn has_room(&self) -> bool
        ensures { OnTrue result
            (vec_len self.now.sequences < vec_capacity self.now.sequences) }
    {
        self.sequences.len() < self.sequences.capacity()
    }

    /// Opens a sequence. Requires room for it.
    #[inline(always)]
    pub fn enter_reserved(&mut self, sequence: Written)
        requires { vec_len self.old.sequences < vec_capacity self.old.sequences }
        ensures sequences { opens_of self.new ≡ open_of sequence ∷ opens_of self.old }
        ensures next { self.new.next ≡ self.old.next }
    {
        self.sequences.push_reserved(sequence);
    }

    /// Closes the innermost sequence, if one is open.
    pub fn leave(&mut self)
        ensures sequences { opens_of self.new ≡ around (opens_of self.old) }
        ensures next { self.new.next ≡ self.old.next }
    {
        self.sequences.pop();
    }
}
