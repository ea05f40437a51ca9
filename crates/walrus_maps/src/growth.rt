//! The growth of an index map.
ghost use Rattle.std.specs.Prelude.{◌≡◌};
ghost use Rattle.walrus_maps.specs.Growth.{index_after};

use wasm_body::IndexError;

/// The index of the next id after this many.
pub(crate) fn index_after(count: usize) -> Result<u32, IndexError>
    ensures { result ≡ index_after count }
{
    u32::try_from(count).map_err(|_| IndexError::TooMany)
}
