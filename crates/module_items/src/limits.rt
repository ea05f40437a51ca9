//! Limits, as they are written (WebAssembly core specification 3.0, binary format, limits).
ghost use Rattle.std.specs.Prelude.{◌≡◌, IfOk};
ghost use Rattle.module_items.specs.Renaming.{bit, limits_flag, maximum_written, limits_written};

use std::alloc::Global;
use wasm_encode::write_number;
use wasm_sections::{Limits, ModuleError, ModuleFault};

/// 1 if it holds, and else 0.
fn bit(holds: bool) -> u8
    ensures { result ≡ bit holds }
{
    match holds {
        true => 1,
        false => 0,
    }
}

/// The flag with which limits begin.
fn flag_of(limits: &Limits) -> u8
    ensures { result ≡ limits_flag limits.now }
{
    bit(limits.max.is_some()) + (2 * bit(limits.is_shared) + 4 * bit(limits.is_64))
}

/// Limits as they are written.
pub(crate) fn limits_bytes(alloc: Global, limits: &Limits) -> Result<Vec<u8>, ModuleError>
    ensures { IfOk result (λ made. made.items ≡ limits_written limits.now) }
{
    let mut out = Vec::new(alloc);
    out.push(flag_of(limits))?;
    write_number(&mut out, limits.min)?;
    if let Some(max) = limits.max {
        write_number(&mut out, max)?;
    }
    Ok(out)
}

/// Whether sizes have at most the bits of the addresses.
fn fit(limits: &Limits) -> bool {
    let fits = |size: u64| limits.is_64 || size <= u32::MAX as u64;
    fits(limits.min) && fits(limits.max.unwrap_or(0))
}

/// `BadLimits` unless there can be such limits: shared ones have a maximum, where they can be shared, and sizes have at most the bits of
/// the addresses.
pub(crate) fn check_limits(limits: &Limits, can_be_shared: bool) -> Result<(), ModuleError> {
    let is_shared = can_be_shared && limits.max.is_some();
    if fit(limits) && (is_shared || !limits.is_shared) {
        return Ok(());
    }
    Err(ModuleError {
        fault: ModuleFault::BadLimits,
        at: 0,
    })
}
