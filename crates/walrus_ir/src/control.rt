//! Instructions of structured control, and branches. In a contract, clauses and targets are lists.

use std::marker::Model;
use wasm_types::{HeapType, InstrSeqId, TagId};

/// The role of a sequence of instructions in the construct that contains it.
#[derive(Clone, Copy, Debug, PartialEq, Eq)]
pub enum BlockKind {
    /// The body of a `block`.
    Block,
    /// The body of a `loop`.
    Loop,
    /// The sequence of an `if` that runs if the operand isn't zero.
    If,
    /// The sequence of an `if` that runs if the operand is zero.
    Else,
    /// The body of the function.
    FunctionEntry,
    /// The body of a `try_table`.
    TryTable,
    /// The body of a legacy `try`.
    Try,
    /// The handler of a legacy `catch`.
    Catch,
    /// The handler of a legacy `catch_all`.
    CatchAll,
}

/// `block`: a sequence; a branch to it leaves it.
#[derive(Clone, Copy)]
pub struct Block {
    /// The body.
    pub seq: InstrSeqId,
}

/// `loop`: a sequence; a branch to it starts it again.
#[derive(Clone, Copy)]
pub struct Loop {
    /// The body.
    pub seq: InstrSeqId,
}

/// `if` with its `else`: a choice of two sequences.
#[derive(Clone, Copy)]
pub struct IfElse {
    /// The sequence that runs if the operand isn't zero.
    pub consequent: InstrSeqId,
    /// The sequence that runs if the operand is zero. It is empty if the source has no `else`.
    pub alternative: InstrSeqId,
}

/// A catch clause of a `try_table` (WebAssembly core specification 3.0, control instructions): the
/// exceptions that it catches, and the sequence that it branches to. A clause with `Ref` also
/// passes a reference to the exception.
#[derive(Clone, Copy)]
pub enum TryTableCatch {
    /// `catch`: exceptions with this tag.
    Catch { tag: TagId, label: InstrSeqId },
    /// `catch_ref`: exceptions with this tag, with a reference.
    CatchRef { tag: TagId, label: InstrSeqId },
    /// `catch_all`: all exceptions.
    CatchAll { label: InstrSeqId },
    /// `catch_all_ref`: all exceptions, with a reference.
    CatchAllRef { label: InstrSeqId },
}

/// `try_table`: a sequence with clauses that catch exceptions thrown in it.
#[derive(Drop)]
pub struct TryTable {
    /// The body.
    pub seq: InstrSeqId,
    /// The clauses, in order; the first that matches catches the exception.
    pub catches: Vec<TryTableCatch>,
}

impl Model for TryTable {
    ghost use Rattle.walrus_ir.specs.declared.control.TryTableCatch.{TryTableCatch};
    ghost use Rattle.walrus_ir.specs.Clauses.{Guarded};

    ghost Value = { Guarded TryTableCatch };

    ghost view = { λ x. record { seq = x.seq; catches = x.catches.items } };
}

/// A clause of a legacy `try`: the exceptions that it catches, and the sequence that handles them.
/// `Delegate` contains the number of constructs between the `try` and the one that the exception is
/// delegated to.
#[derive(Clone, Copy)]
pub enum LegacyCatch {
    /// `catch`: exceptions with this tag.
    Catch { tag: TagId, handler: InstrSeqId },
    /// `catch_all`: all exceptions.
    CatchAll { handler: InstrSeqId },
    /// `delegate`: all exceptions go to a construct further out.
    Delegate { relative_depth: u32 },
}

/// `try` of the legacy exception handling proposal: a sequence with its clauses.
#[derive(Drop)]
pub struct Try {
    /// The body.
    pub seq: InstrSeqId,
    /// The clauses, in order.
    pub catches: Vec<LegacyCatch>,
}

impl Model for Try {
    ghost use Rattle.walrus_ir.specs.declared.control.LegacyCatch.{LegacyCatch};
    ghost use Rattle.walrus_ir.specs.Clauses.{Guarded};

    ghost Value = { Guarded LegacyCatch };

    ghost view = { λ x. record { seq = x.seq; catches = x.catches.items } };
}

/// `br`: branches to a sequence around it.
#[derive(Clone, Copy)]
pub struct Br {
    /// The sequence that is the target.
    pub block: InstrSeqId,
}

/// `br_if`: branches to a sequence around it, if its operand isn't zero.
#[derive(Clone, Copy)]
pub struct BrIf {
    /// The sequence that is the target.
    pub block: InstrSeqId,
}

/// `br_table`: branches to one of the sequences, by the index that is its operand, or to the
/// default.
#[derive(Drop)]
pub struct BrTable {
    /// The targets for the indices from 0 on.
    pub blocks: Vec<InstrSeqId>,
    /// The target for all other indices.
    pub default: InstrSeqId,
}

impl Model for BrTable {
    ghost use Rattle.walrus_ir.specs.Clauses.{Targets};

    ghost Value = { Targets };

    ghost view = { λ x. record { blocks = x.blocks.items; default = x.default } };
}

/// `br_on_null`: branches to a sequence around it, if its operand is null.
#[derive(Clone, Copy)]
pub struct BrOnNull {
    /// The sequence that is the target.
    pub block: InstrSeqId,
}

/// `br_on_non_null`: branches to a sequence around it, if its operand isn't null.
#[derive(Clone, Copy)]
pub struct BrOnNonNull {
    /// The sequence that is the target.
    pub block: InstrSeqId,
}

/// `br_on_cast`: branches to a sequence around it, if its operand, which has the first type, has
/// the second type too.
#[derive(Clone, Copy)]
pub struct BrOnCast {
    /// The sequence that is the target.
    pub block: InstrSeqId,
    /// Whether the operand's type allows null.
    pub from_nullable: bool,
    /// The heap type of the operand's type.
    pub from_heap_type: HeapType,
    /// Whether the type that is tested for allows null.
    pub to_nullable: bool,
    /// The heap type that is tested for.
    pub to_heap_type: HeapType,
}

/// `br_on_cast_fail`: branches to a sequence around it, if its operand, which has the first type,
/// doesn't have the second type.
#[derive(Clone, Copy)]
pub struct BrOnCastFail {
    /// The sequence that is the target.
    pub block: InstrSeqId,
    /// Whether the operand's type allows null.
    pub from_nullable: bool,
    /// The heap type of the operand's type.
    pub from_heap_type: HeapType,
    /// Whether the type that is tested for allows null.
    pub to_nullable: bool,
    /// The heap type that is tested for.
    pub to_heap_type: HeapType,
}

/// `throw`: throws an exception.
#[derive(Clone, Copy)]
pub struct Throw {
    /// The tag of the exception.
    pub tag: TagId,
}

/// `rethrow` of the legacy exception handling proposal: throws the exception again that a handler
/// around it caught.
#[derive(Clone, Copy)]
pub struct Rethrow {
    /// The number of constructs between this instruction and the handler.
    pub relative_depth: u32,
}
