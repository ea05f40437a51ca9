//! The control operators that most constructs consist of.
ghost use Rattle.std.specs.Prelude.{◌≡◌, IfSome, Ok};
ghost use Rattle.wasm_operators.specs.Spelling.{read_operation};
ghost use Rattle.wasm_operators.specs.Meaning.{meaning};
ghost use Rattle.walrus_flat.specs.Controls.{control_listed};

/// An opener with the empty block type, `end`, or `nop`.
#[derive(Clone, Copy)]
pub(crate) enum Control {
    Block,
    Loop,
    If,
    End,
    Nop,
}

/// Such an operator at the front, if there is one, and the bytes that follow it.
#[inline(always)]
#[tactic(auto, unfolding(wasm_operators::specs::Spelling::read_operation, wasm_operators::specs::Opcodes::opcode, wasm_operators::specs::Opcodes::kinds_of_byte))]
pub(crate) fn control_at_front(bytes: &[u8]) -> Option<(Control, &[u8])>
    ensures { IfSome result (λ x.
        read_operation bytes.now ≡ Ok (meaning (control_listed x.0), x.1.now)) }
{
    match bytes {
        [0x0b, rest @ ..] => Some((Control::End, rest)),
        [0x01, rest @ ..] => Some((Control::Nop, rest)),
        [0x02, 0x40, rest @ ..] => Some((Control::Block, rest)),
        [0x03, 0x40, rest @ ..] => Some((Control::Loop, rest)),
        [0x04, 0x40, rest @ ..] => Some((Control::If, rest)),
        _ => None,
    }
}
