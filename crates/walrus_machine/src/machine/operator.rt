//! The effect of a named operator on the control flow.
ghost use Rattle.std.specs.Prelude.{◌≡◌, ◌∷◌, List, unwrap_or, map, IfOk};
ghost use Rattle.wasm_operators.specs.Types.{row_at};
ghost use Rattle.wasm_body.specs.Control as C;
ghost use Rattle.walrus_machine.specs.Controls.{role_meaning, clause_meaning, action_meaning};
ghost use Rattle.walrus_machine.specs.Controls.{control_meaning};
ghost use Rattle.walrus_machine.specs.NamedOperators.{NamedImmediate, named_index};
ghost use Rattle.walrus_machine.specs.NamedOperators.{named_immediates, named_operation};

use crate::machine::control::{Action, Construct, Control};
use crate::named_op::{NamedCatch, NamedImmediates, NamedIndex, NamedOp};
use std::alloc::{AllocError, Global};
use walrus_ir::TagId;
use wasm_operators::Opcode;

/// The kind of an operator with respect to the control flow, by its opcode.
#[derive(Clone, Copy)]
pub enum Role {
    /// `unreachable`.
    Unreachable,
    /// `nop`.
    Nop,
    /// `block`.
    Block,
    /// `loop`.
    Loop,
    /// `if`.
    If,
    /// `else`.
    Else,
    /// A legacy `try`.
    Try,
    /// A legacy `catch`.
    Catch,
    /// `throw`.
    Throw,
    /// A legacy `rethrow`.
    Rethrow,
    /// `throw_ref`.
    ThrowRef,
    /// `end`.
    End,
    /// `br`.
    Branch,
    /// A branch that is taken or not: `br_if`, or one on a reference or a cast.
    ConditionalBranch,
    /// `br_table`.
    TableBranch,
    /// `return`.
    Return,
    /// A tail call: `return_call`, `return_call_indirect` or `return_call_ref`.
    TailCall,
    /// A legacy `delegate`.
    Delegate,
    /// A legacy `catch_all`.
    CatchAll,
    /// `try_table`.
    TryTable,
    /// Any other operator.
    Plain,
}

/// The role of an opcode of one byte.
fn byte_role(byte: u8) -> Role
    ensures { role_meaning result ≡ unwrap_or (row_at C.byte_roles byte) C.a_plain }
{
    match byte {
        0x00 => Role::Unreachable,
        0x01 => Role::Nop,
        0x02 => Role::Block,
        0x03 => Role::Loop,
        0x04 => Role::If,
        0x05 => Role::Else,
        0x06 => Role::Try,
        0x07 => Role::Catch,
        0x08 => Role::Throw,
        0x09 => Role::Rethrow,
        0x0a => Role::ThrowRef,
        0x0b => Role::End,
        0x0c => Role::Branch,
        0x0d => Role::ConditionalBranch,
        0x0e => Role::TableBranch,
        0x0f => Role::Return,
        0x12 => Role::TailCall,
        0x13 => Role::TailCall,
        0x15 => Role::TailCall,
        0x18 => Role::Delegate,
        0x19 => Role::CatchAll,
        0x1f => Role::TryTable,
        0xd5 => Role::ConditionalBranch,
        0xd6 => Role::ConditionalBranch,
        _ => Role::Plain,
    }
}

/// The role of an opcode with the prefix 0xfb.
fn aggregate_role(number: u32) -> Role
    ensures { role_meaning result ≡ unwrap_or (row_at C.aggregate_roles number) C.a_plain }
{
    match number {
        24 => Role::ConditionalBranch,
        25 => Role::ConditionalBranch,
        _ => Role::Plain,
    }
}

/// The role of an opcode.
fn opcode_role(opcode: Opcode) -> Role
    ensures { role_meaning result ≡ C.role_of opcode }
{
    match opcode {
        Opcode::Byte(byte) => byte_role(byte),
        Opcode::Prefixed(prefix, number) => {
            if prefix == 0xfb {
                aggregate_role(number)
            } else {
                Role::Plain
            }
        }
    }
}

impl NamedIndex {
    /// The number of the id.
    fn number(&self) -> usize
        ensures { (is : List NamedImmediate)
            → result ≡ C.first_index (named_index self.now ∷ is) }
    {
        match self {
            NamedIndex::Table(id) => id.index(),
            NamedIndex::Type(id) => id.index(),
            NamedIndex::Func(id) => id.index(),
            NamedIndex::Global(id) => id.index(),
            NamedIndex::Memory(id) => id.index(),
            NamedIndex::Element(id) => id.index(),
            NamedIndex::Data(id) => id.index(),
            NamedIndex::Tag(id) => id.index(),
        }
    }
}

impl NamedImmediates {
    /// The label, or 0 if there is none.
    fn label(&self) -> u32
        ensures { result ≡ C.first_label (named_immediates self.now) }
    {
        match self {
            NamedImmediates::Label(depth) => *depth,
            NamedImmediates::Cast(cast) => cast.label,
            _ => 0,
        }
    }

    /// The depth of a `rethrow` or a `delegate`, or 0 if there is none.
    fn depth(&self) -> u32
        ensures { result ≡ C.first_depth (named_immediates self.now) }
    {
        match self {
            NamedImmediates::Handler(depth) => *depth,
            NamedImmediates::Outer(depth) => *depth,
            _ => 0,
        }
    }

    /// The tag, or the tag 0 if there is none.
    fn tag(&self) -> TagId
        ensures { result ≡ C.first_index (named_immediates self.now) }
    {
        match self {
            NamedImmediates::Index(index) => TagId::new(index.number()),
            NamedImmediates::Pair(index, _) => TagId::new(index.number()),
            NamedImmediates::IndexNumber(index, _) => TagId::new(index.number()),
            _ => TagId::new(0),
        }
    }

    /// The branch of a table, or one to the label 0 if there is none.
    fn branches(&self) -> Action<'_>
        ensures { action_meaning result ≡ C.branches (named_immediates self.now) }
    {
        match self {
            NamedImmediates::Table(targets, default) => Action::TableBranch {
                targets,
                default: *default,
            },
            _ => Action::TableBranch {
                targets: &[],
                default: 0,
            },
        }
    }

    /// The clauses of a `try_table`, or none if it is another operator.
    fn clauses(&self) -> &[NamedCatch]
        ensures { map clause_meaning result.now ≡ C.catch_list (named_immediates self.now) }
    {
        match self {
            NamedImmediates::Clauses(_, clauses) => clauses,
            _ => &[],
        }
    }
}

/// The effect of a named operator on the control flow. Lists are borrowed from the operator.
pub fn control(op: &NamedOp) -> Control<'_>
    ensures { control_meaning result ≡ C.control_of (named_operation op.now) }
{
    let immediates = &op.immediates;
    match opcode_role(op.opcode) {
        Role::Unreachable => Control::Does(Action::Unreachable),
        Role::Nop => Control::Does(Action::Nop),
        Role::Block => Control::Opens(Construct::Block),
        Role::Loop => Control::Opens(Construct::Loop),
        Role::If => Control::Opens(Construct::If),
        Role::Else => Control::Else,
        Role::Try => Control::Opens(Construct::Try),
        Role::Catch => Control::Catch(immediates.tag()),
        Role::Throw => Control::Does(Action::Throw(immediates.tag())),
        Role::Rethrow => Control::Does(Action::Rethrow(immediates.depth())),
        Role::ThrowRef => Control::Does(Action::ThrowRef),
        Role::End => Control::End,
        Role::Branch => Control::Does(Action::Branch(immediates.label())),
        Role::ConditionalBranch => Control::Does(Action::ConditionalBranch(immediates.label())),
        Role::TableBranch => Control::Does(immediates.branches()),
        Role::Return => Control::Does(Action::Return),
        Role::TailCall => Control::Does(Action::TailCall),
        Role::Delegate => Control::Delegate(immediates.depth()),
        Role::CatchAll => Control::CatchAll,
        Role::TryTable => Control::Opens(Construct::TryTable(immediates.clauses())),
        Role::Plain => Control::Does(Action::Plain),
    }
}

/// The effect of each of these operators on the control flow.
///
/// # Errors
///
/// `AllocError` if memory runs out.
pub fn controls(alloc: Global, ops: &[NamedOp]) -> Result<Vec<Control<'_>>, AllocError>
    ensures { IfOk result (λ cs. map control_meaning cs.items
        ≡ map C.control_of (map named_operation ops.now)) }
{
    let mut controls = Vec::with_capacity(alloc, ops.len())?;
    'operators: for op in ops {
        let control = control(op);
        match controls.push(control) {
            Ok(()) => {}
            Err(_) => return Err(AllocError),
        }
    }
    Ok(controls)
}
