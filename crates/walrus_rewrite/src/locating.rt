//! Looking up locations by places.
ghost use Rattle.std.specs.Prelude.{◌≡◌};
ghost use Rattle.wasm_body.specs.Pairs.{location_in};
ghost use Rattle.walrus_rewrite.specs.RewrittenBodies.{PlacesRise};

use walrus_ir::InstrLocId;

/// The location of the written operator whose first byte is at this place, by a list of location
/// pairs; `None` if no operator begins there. Places count as those of the pairs do. This takes
/// logarithmic time and allocates nothing.
///
/// The places of the pairs have to increase strictly, as those do that one call of `rewrite_body`
/// or `append_raw_body_with_map` appends.
///
/// # Example
///
/// The body `00 01 41 81 00 1a 0b` at the place 100, without a location function, is written as
/// `00 41 01 1a 0b`. With its pairs, `locate(&pairs, 1)` is the location 102, that of the constant,
/// `locate(&pairs, 3)` is 105, `locate(&pairs, 4)` is 106, and `locate(&pairs, 2)` is `None`
/// (`tests_body/src/locating.rt`).
pub fn locate(map: &[(InstrLocId, usize)], place: usize) -> Option<InstrLocId>
    requires { PlacesRise map.now }
    ensures { result ≡ location_in map.now place }
{
    match map.binary_search_by_key(&place, |&(_, at)| at) {
        Ok(index) => Some(map[index].0),
        Err(_) => None,
    }
}
