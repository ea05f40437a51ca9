//! Locations of operators.
ghost use Rattle.std.specs.Prelude.{◌+◌, MatchOption, Some};
ghost use Rattle.walrus_validators.specs.Locating.{MayCall, Locates, HasNoLocation};

use walrus_ir::InstrLocId;

/// The location that the function returns for this place. It isn't inlined, so that where there is no
/// function no call is on the way of each operator.
#[cold]
#[inline(never)]
fn asked<F: Fn(&usize) -> InstrLocId>(locate: &F, place: usize) -> InstrLocId
    requires { MayCall F.pre (Some locate) place (place + 1) }
    ensures { Locates F.Fn (Some locate.entry) place result }
{
    locate(&place)
}

/// The location of the operator at this place: the one that the function returns. Without a
/// function it is the place itself, if that is small enough.
#[inline(always)]
pub fn location_at<F: Fn(&usize) -> InstrLocId>(
    on_instr_pos: Option<&F>,
    place: usize,
) -> Option<InstrLocId>
    requires { MayCall F.pre on_instr_pos place (place + 1) }
    ensures { MatchOption result (HasNoLocation on_instr_pos.entry place)
        (λ location. Locates F.Fn on_instr_pos.entry place location) }
{
    match on_instr_pos {
        Some(locate) => Some(asked(locate, place)),
        None if place < u32::MAX as usize => Some(InstrLocId::new(place as u32)),
        None => None,
    }
}
