//! The builder of a function, which contains its sequences.
ghost use Rattle.std.specs.Prelude.{◌≡◌, ◌<◌, ◌↔◌, length, IsTrue, IfOk, OnErr, slice_get, Some};
ghost use Rattle.std.specs.Borrow.{sem};
ghost use Rattle.walrus_ir.specs.Lending.{LendsSequence};
ghost use Rattle.walrus_ir.specs.Function.{empty_function, with_new_sequence};

use crate::location::InstrLocId;
use crate::seq::InstrSeq;
use crate::val_type::InstrSeqType;
use std::alloc::{AllocError, Global};
use std::marker::Model;
use wasm_types::{InstrSeqId, TypeId};

/// The sequences of a function. Instructions refer to them by their slots, which are numbered from
/// 0. In a contract, a builder is the function's type, the list of sequences, and the entry.
#[derive(Drop)]
pub struct FunctionBuilder {
    ty: TypeId,
    seqs: Vec<InstrSeq>,
    entry: Option<InstrSeqId>,
}

impl Model for FunctionBuilder {
    ghost use Rattle.walrus_ir.specs.Function.{Function};

    ghost Value = { Function };

    ghost view = { λ b. record { type = b.ty; sequences = b.seqs.items; entry = b.entry } };
}

impl FunctionBuilder {
    /// A function of this type, without sequences. This allocates nothing.
    pub fn without_entry(alloc: Global, ty: TypeId) -> FunctionBuilder
        ensures { result ≡ empty_function ty }
    {
        FunctionBuilder {
            ty,
            seqs: Vec::new(alloc),
            entry: None,
        }
    }

    /// Makes room for so many more sequences, unless there isn't so much memory.
    pub fn make_room(&mut self, more: usize)
        ensures { self.new ≡ self.old }
    {
        let _made = self.seqs.reserve_exact(more).is_ok();
    }

    /// Gives back the memory that no sequence takes.
    pub fn shrink_to_fit(&mut self)
        ensures { self.new ≡ self.old }
    {
        self.seqs.shrink_to_fit();
    }

    /// The type of the function.
    pub fn ty(&self) -> TypeId
        ensures { result ≡ self.now.type }
    {
        self.ty
    }

    /// Adds an empty sequence of this type after all others, and returns its slot. The location of
    /// its end is the default location.
    ///
    /// # Errors
    ///
    /// Out of memory; the builder is unchanged.
    #[inline(always)]
    pub fn alloc(&mut self, ty: InstrSeqType) -> Result<InstrSeqId, AllocError>
        ensures id { IfOk result (λ id. id ≡ length self.old.sequences) }
        ensures ok { IfOk result (λ _. self.new ≡ with_new_sequence self.old ty) }
        ensures err { OnErr result (self.new ≡ self.old) }
    {
        let id = InstrSeqId::new(self.seqs.len());
        let alloc = self.allocator();
        if self.seqs.len() == self.seqs.capacity() {
            self.seqs.reserve(1)?;
        }
        self.seqs.push_reserved(InstrSeq {
            id,
            ty,
            instrs: Vec::new(alloc),
            end: InstrLocId::default(),
        });
        Ok(id)
    }

    /// The slot of the sequence that the function begins with, if one was set. The builder need not
    /// contain that sequence.
    pub fn entry(&self) -> Option<InstrSeqId>
        ensures { result ≡ self.now.entry }
    {
        self.entry
    }

    /// Sets the sequence that the function begins with.
    pub fn set_entry(&mut self, id: InstrSeqId)
        ensures { self.new ≡ record self.old { entry = Some id } }
    {
        self.entry = Some(id);
    }

    /// Whether there is a sequence at this slot.
    pub fn has(&self, id: InstrSeqId) -> bool
        ensures { IsTrue result ↔ (id < length self.now.sequences) }
    {
        id.index() < self.seqs.len()
    }

    /// The sequence at this slot.
    pub fn seq(&self, id: InstrSeqId) -> &InstrSeq
        requires { id < length self.now.sequences }
        ensures { slice_get self.now.sequences id ≡ Some result.now }
    {
        let index = id.index();
        &self.seqs[index]
    }

    /// The sequence at this slot, to be changed. The other sequences stay unchanged.
    #[inline(always)]
    pub fn seq_mut(&mut self, id: InstrSeqId) -> &mut InstrSeq
        requires { id < length self.old.sequences }
        ensures* writes_back { sem 𝓛 (LendsSequence self.entry id result) }
        ensures value { slice_get self.old.sequences id ≡ Some result.now }
    {
        let index = id.index();
        &mut self.seqs[index]
    }

    /// The number of sequences.
    #[inline(always)]
    pub fn count(&self) -> usize
        ensures { result ≡ length self.now.sequences }
    {
        self.seqs.len()
    }

    /// The allocator of the sequences.
    #[inline(always)]
    pub fn allocator(&self) -> Global {
        *self.seqs.allocator()
    }
}
