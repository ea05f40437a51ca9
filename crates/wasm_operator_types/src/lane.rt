//! Lanes of vectors.
ghost use Rattle.std.specs.Prelude.{◌≡◌, nat_lt, cond, Some, None};

/// The types, if the vector has so many lanes that this is one of them.
pub(crate) fn laned<T: Copy>(idx: u8, lanes: u8, types: T) -> Option<T>
    ensures { result ≡ cond (nat_lt idx lanes) (Some types) None }
{
    if idx < lanes { Some(types) } else { None }
}
