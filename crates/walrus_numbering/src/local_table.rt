//! The numbers of a function's locals in a table by id, for small ids.
ghost use Rattle.std.specs.Prelude.{◌≡◌, ◌⊎◌, ℕ, Some, IfOk, slice_get};
ghost use Rattle.std.specs.Option.{option_flatten};
ghost use Rattle.walrus_numbering.specs.NumberTables.{HasNumbers};

use std::alloc::{AllocError, Global};
use walrus_ir::{IdHashMap, LocalId};

/// How many ids a table has. It has the id of each local, unless some ids are far greater than the
/// number of locals.
fn table_len(numbers: &IdHashMap<LocalId, u32>) -> usize {
    let mut count = 0;
    for id in numbers.keys() {
        count = id.index().saturating_add(1).max(count);
    }
    numbers
        .len()
        .saturating_mul(4)
        .saturating_add(64)
        .min(count)
}

/// Puts the number of a local into a table, if the table has its id.
fn set_number(table: &mut Vec<Option<u32>>, local: LocalId, number: u32)
    ensures { (id n : ℕ) → option_flatten (slice_get table.new.items id) ≡ Some n
        → ((id ≡ local) × (n ≡ number))
        ⊎ (option_flatten (slice_get table.old.items id) ≡ Some n) }
{
    if local.index() < table.len() {
        table[local.index()] = Some(number);
    }
}

/// The numbers of the locals with the first ids, by id.
pub fn number_table(
    alloc: Global,
    numbers: &IdHashMap<LocalId, u32>,
) -> Result<Vec<Option<u32>>, AllocError>
    ensures { IfOk result (λ table. HasNumbers numbers.now.entries table.items) }
{
    let mut table = Vec::new(alloc);
    table.resize(table_len(numbers), None)?;
    for (id, number) in numbers.iter() {
        set_number(&mut table, *id, *number);
    }
    Ok(table)
}

/// The number of a local in a table, if it has one there.
#[inline(always)]
pub fn number_at(table: &[Option<u32>], local: LocalId) -> Option<u32>
    ensures { result ≡ option_flatten (slice_get table.now local) }
{
    table.get(local.index()).copied().flatten()
}
