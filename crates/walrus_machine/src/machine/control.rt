//! The effect of an operator on the control flow.

use crate::named_op::NamedCatch;
use walrus_ir::TagId;

/// The effect of an operator that neither opens, divides nor closes a construct. Labels are depths,
/// counted from the innermost construct.
#[derive(Clone, Copy)]
pub enum Action<'a> {
    /// Does nothing.
    Nop,
    /// Any other operator, calls included: goes on, traps or throws an exception.
    Plain,
    /// Branches to a label (`br`).
    Branch(u32),
    /// Branches to a label, or goes on (`br_if`, and branches on references and casts).
    ConditionalBranch(u32),
    /// Branches to one of these labels (`br_table`).
    TableBranch {
        /// The labels of the table's entries.
        targets: &'a [u32],
        /// The label for every operand that is not below the number of `targets`.
        default: u32,
    },
    /// Returns from the function.
    Return,
    /// Traps.
    Unreachable,
    /// Throws an exception of a tag.
    Throw(TagId),
    /// Throws the exception that is its operand.
    ThrowRef,
    /// Throws the exception again that the handler of this label caught.
    Rethrow(u32),
    /// Leaves the function with a tail call.
    TailCall,
}

/// The construct that an opener opens.
#[derive(Clone, Copy)]
pub enum Construct<'a> {
    /// A `block`.
    Block,
    /// A `loop`.
    Loop,
    /// An `if`.
    If,
    /// A legacy `try`.
    Try,
    /// A `try_table`, with its clauses.
    TryTable(&'a [NamedCatch]),
}

/// The effect of an operator on the control flow (WebAssembly core specification 3.0, execution,
/// instructions).
#[derive(Clone, Copy)]
pub enum Control<'a> {
    /// An operator that neither opens, divides nor closes a construct.
    Does(Action<'a>),
    /// An operator that opens a construct.
    Opens(Construct<'a>),
    /// An `else`.
    Else,
    /// A `catch` of a tag.
    Catch(TagId),
    /// A `catch_all`.
    CatchAll,
    /// An `end`.
    End,
    /// A `delegate` with its label, a depth that is counted from outside the construct.
    Delegate(u32),
}

impl Control<'_> {
    ghost use Rattle.std.specs.Prelude.{◌≡◌};
    ghost use Rattle.walrus_machine.specs.Controls.{control_meaning};
    ghost use Rattle.walrus_machine.specs.Tables.{is_part};

    /// Whether it divides a construct: `else`, `catch` or `catch_all`.
    pub fn is_part(&self) -> bool
        ensures { result ≡ is_part (control_meaning self.now) }
    {
        matches!(self, Control::Else | Control::Catch(_) | Control::CatchAll)
    }
}
