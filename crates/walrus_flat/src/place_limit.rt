//! The greatest place that an operator may have.
ghost use Rattle.std.specs.Prelude.{◌≡◌};
ghost use Rattle.walrus_flat.specs.CheckedBody.{fits_limit, place_limit};

/// Whether places have a limit, and the last place that is small enough.
#[derive(Clone, Copy)]
pub(crate) struct PlaceLimit {
    pub has_limit: bool,
    last: usize,
    ghost is_last: { last ≡ place_limit has_limit },
}

impl PlaceLimit {
    /// The limit of places, if they have one: a location has 32 bits, of which one value says that
    /// there is none.
    pub fn new(has_limit: bool) -> PlaceLimit
        ensures { result.has_limit ≡ has_limit }
    {
        if has_limit {
            PlaceLimit {
                has_limit: true,
                last: 0xffff_fffe,
            }
        } else {
            PlaceLimit {
                has_limit: false,
                last: usize::MAX,
            }
        }
    }

    /// Whether a place is small enough.
    #[inline(always)]
    pub fn fits(self, at: usize) -> bool
        ensures { result ≡ fits_limit self.has_limit at }
    {
        at <= self.last
    }
}
