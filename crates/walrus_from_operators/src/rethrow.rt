//! `rethrow`, of legacy exception handling.
ghost use Rattle.std.specs.Prelude.{◌≡◌, [], ◌∷◌, IfOk};
ghost use Rattle.walrus_ir.specs.declared.instr.Instr.TheVariants as instr;
ghost use Rattle.wasm_operators.specs.declared.types.Opcode.TheVariants.{Byte};
ghost use Rattle.wasm_operators.specs.Operations.{operation, handler};
ghost use Rattle.wasm_body.specs.InstructionTable.{operation_of};
ghost use Rattle.walrus_from_operators.specs.Placed.{placed_by, GivesOrMemory};

use walrus_context::ValidationContext;
use walrus_ir::{BlockKind, Instr, Rethrow};
use wasm_body::ParseError;

/// The instruction of a `rethrow`, which names an enclosing handler.
pub(crate) fn rethrow(
    context: &ValidationContext<'_>,
    relative_depth: u32,
) -> Result<Instr, ParseError>
    ensures placed { GivesOrMemory operation_of result
        (placed_by context.now (operation (Byte 0x09) (handler relative_depth ∷ []))) }
    ensures plain { IfOk result (λ i. i ≡ instr.Rethrow (record {
      relative_depth = relative_depth;
    })) }
{
    match context.kind_at(relative_depth as usize) {
        Ok(BlockKind::Catch | BlockKind::CatchAll) => {
            Ok(Instr::Rethrow(Rethrow { relative_depth }))
        }
        Ok(_) => Err(ParseError::RethrowOutsideHandler),
        Err(error) => Err(error),
    }
}
