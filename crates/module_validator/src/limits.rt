//! Limits of memories and tables (WebAssembly core specification 3.0, validation, limits).
ghost use Rattle.std.specs.Prelude.{◌≡◌};
ghost use Rattle.module_validator.specs.ModuleRules.{is_maximum_within, are_within, most_pages, most_elements, memory_rule};

use crate::faults::only_if;
use module_context::faults::INVALID_LIMITS;
use wasm_sections::{Limits, ModuleFault};

/// Whether a maximum, if there is one, is at least the minimum, and at most so great.
fn is_maximum_within(most: u64, min: u64, max: Option<u64>) -> bool
    ensures { result ≡ is_maximum_within most min max }
{
    match max {
        Some(max) => min <= max && max <= most,
        None => true,
    }
}

/// Whether the limits are at most so great, and the minimum isn't greater than the maximum.
pub(crate) fn are_within(most: u64, limits: Limits) -> bool
    ensures { result ≡ are_within most limits }
{
    limits.min <= most && is_maximum_within(most, limits.min, limits.max)
}

/// How many pages the addresses of a memory reach.
fn most_pages(is_64: bool) -> u64
    ensures { result ≡ most_pages is_64 }
{
    if is_64 { 1 << 48 } else { 1 << 16 }
}

/// How many elements the addresses of a table reach.
pub(crate) fn most_elements(is_64: bool) -> u64
    ensures { result ≡ most_elements is_64 }
{
    if is_64 { u64::MAX } else { 0xffff_ffff }
}

/// `INVALID_LIMITS` if a memory can't have these limits.
pub(crate) fn check_memory(limits: Limits) -> Result<(), ModuleFault>
    ensures { result ≡ memory_rule limits }
{
    only_if(are_within(most_pages(limits.is_64), limits), INVALID_LIMITS)
}
