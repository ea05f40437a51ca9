//! The labels of a `br_table`, as they are written.
ghost use Rattle.std.specs.Prelude.{◌≡◌, ◌⊎◌, OnOk, IfOk, IfErr, Ok, Err};
ghost use Rattle.wasm_numbers.specs.Results.{each};
ghost use Rattle.wasm_body.specs.declared.error.EmitError.TheVariants.{Memory};
ghost use Rattle.walrus_emit_state.specs.TreeWriting.Closers.{places_of};
ghost use Rattle.walrus_emit_state.specs.TreeWriting.ScopeTables.{depth_in};
ghost use Rattle.walrus_emit_state.specs.TreeWriting.Labels.{numbered_table};

use crate::open_scopes::{Scopes, in_32_bits};
use walrus_ir::{BrTable, InstrSeqId};
use wasm_body::EmitError;
use wasm_encode::OutTable;

/// Replaces the contents of the list with the depths of the open sequences in these slots.
///
/// # Errors
///
/// That of the first slot that has no depth, or `Memory`.
fn list_depths(
    places: &[InstrSeqId],
    scopes: &Scopes,
    depths: &mut Vec<u32>,
) -> Result<(), EmitError>
    ensures ok { OnOk result
        (each (depth_in (places_of scopes.now.open_scopes)) places.now ≡ Ok depths.new.items) }
    ensures err { IfErr result (λ e. (e ≡ Memory)
        ⊎ (each (depth_in (places_of scopes.now.open_scopes)) places.now ≡ Err e)) }
{
    depths.clear();
    let mut left = places;
    'places: while let Some((place, following)) = left.split_first() {
        let depth = match scopes.depth(*place) {
            Ok(depth) => depth,
            Err(fault) => return Err(fault),
        };
        if depths.push(depth).is_err() {
            return Err(EmitError::Memory);
        }
        left = following;
    }
    Ok(())
}

/// The labels of a `br_table`. They replace the contents of the list.
///
/// # Errors
///
/// `TooLarge` if their number doesn't fit 32 bits, that of the first slot that has no depth, or
/// `Memory`.
#[inline(never)]
pub fn branch_table<'t>(
    table: &BrTable,
    scopes: &Scopes,
    labels: &'t mut Vec<u32>,
) -> Result<OutTable<'t>, EmitError>
    ensures ok { IfOk result (λ labels.
        numbered_table (places_of scopes.now.open_scopes) table.now ≡ Ok labels) }
    ensures err { IfErr result (λ e. (e ≡ Memory)
        ⊎ (numbered_table (places_of scopes.now.open_scopes) table.now ≡ Err e)) }
{
    match in_32_bits(table.blocks.len()) {
        Ok(_) => {}
        Err(fault) => return Err(fault),
    }
    match list_depths(table.blocks.as_slice(), scopes, labels) {
        Ok(()) => {}
        Err(fault) => return Err(fault),
    }
    match scopes.depth(table.default) {
        Ok(default) => Ok(OutTable {
            targets: labels.as_slice(),
            default,
        }),
        Err(fault) => Err(fault),
    }
}
