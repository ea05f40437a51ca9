//! Lists of ranges and of locations (DWARF 4, sections 2.17.3 and 2.6.2).

ghost use Rattle.std.specs.Prelude.{◌≡◌, ◌⊎◌, IfOk, IfErr};
ghost use Rattle.dwarf_bytes.specs.declared.fault.DebugError.TheVariants.{Memory, Fault};
ghost use Rattle.dwarf_bytes.specs.declared.fault.DebugFault.{DebugFault as AFault};
ghost use Rattle.dwarf_bytes.specs.Patches.{changes};
ghost use Rattle.dwarf_lists.specs.Lists.{IsMovedListOfList, IsRefusedList};
ghost use Rattle.dwarf_lists.specs.declared.entry.Kind.TheVariants.{Ranges, Locations};

use crate::entry::{Kind, read_entry};
use crate::moving::{Context, Scratch, move_entry};
use code_moves::Moves;
use dwarf_bytes::{DebugError, DebugFault, Patches};
use dwarf_expressions::Encoding;

/// A list that an entry of a unit has.
#[derive(Clone, Copy, Debug, PartialEq, Eq)]
pub struct List {
    /// Its offset into its section.
    pub offset: usize,
    /// The address that it is counted from: where the code of the unit begins, or 0.
    pub base: u64,
    /// How the numbers of the unit are written.
    pub encoding: Encoding,
}

// Moves a list. Returns its end.
fn move_list(
    kind: Kind,
    section: &[u8],
    list: &List,
    moves: &Moves,
    patches: &mut Patches,
) -> Result<usize, DebugError>
    ensures moved { IfOk result (λ end. IsMovedListOfList kind list.now.encoding moves.now.bodies.items
        section.now list.now.offset list.now.base end (changes patches.old) (changes patches.new)) }
    ensures refused { IfErr result (λ e. (e ≡ Memory) ⊎ ((fault : AFault) × (e ≡ Fault fault)
        × IsRefusedList kind list.now.encoding moves.now.bodies.items section.now list.now.offset
        list.now.base (changes patches.old) fault)) }
{
    let Some(mut rest) = section.get(list.offset..) else {
        return Err(DebugError::Fault(DebugFault::BadOffset));
    };
    let context = Context {
        kind,
        encoding: list.encoding,
        moves,
    };
    let mut scratch = Scratch::new(patches.allocator());
    let mut base = list.base;
    'entries: loop {
        let (entry, after) = read_entry(kind, list.encoding.address_size, rest)?;
        if entry.is_end() {
            return Ok(section.len() - after.len());
        }
        if move_entry(&context, base, entry, &mut scratch)? {
            let at = section.len() - rest.len();
            patches.push(at, rest.len() - after.len(), &scratch.entry)?;
        }
        base = entry.from_after(base);
        rest = after;
    }
}

/// Moves a list of ranges of `.debug_ranges`. Returns where it ends. A base goes where its address goes. A range that begins in
/// a body is between its new addresses then, counted from the new base; any other one stays as it is. Lists are given by
/// ascending offsets.
///
/// # Errors
///
/// `BadOffset` if the offset isn't in the section; `Truncated` if the section ends in the list; `Overlap` if patches reach into
/// the list; `DoesNotFit` if a new address is less than that of the base, or isn't of the size of addresses. Out of memory. Some
/// of the entries may be patched then.
pub fn move_ranges(
    section: &[u8],
    list: &List,
    moves: &Moves,
    patches: &mut Patches,
) -> Result<usize, DebugError>
    ensures moved { IfOk result (λ end. IsMovedListOfList Ranges list.now.encoding moves.now.bodies.items
        section.now list.now.offset list.now.base end (changes patches.old) (changes patches.new)) }
    ensures refused { IfErr result (λ e. (e ≡ Memory) ⊎ ((fault : AFault) × (e ≡ Fault fault)
        × IsRefusedList Ranges list.now.encoding moves.now.bodies.items section.now list.now.offset
        list.now.base (changes patches.old) fault)) }
{
    move_list(Kind::Ranges, section, list, moves, patches)
}

/// Moves a list of locations of `.debug_loc`, as `move_ranges` does; and the expression of a location that begins in a body has the
/// new indices of its locals.
///
/// # Errors
///
/// Those of `move_ranges` and of `moved_expression`; `DoesNotFit` if an expression has more than 65535 bytes then.
pub fn move_locations(
    section: &[u8],
    list: &List,
    moves: &Moves,
    patches: &mut Patches,
) -> Result<usize, DebugError>
    ensures moved { IfOk result (λ end. IsMovedListOfList Locations list.now.encoding moves.now.bodies.items
        section.now list.now.offset list.now.base end (changes patches.old) (changes patches.new)) }
    ensures refused { IfErr result (λ e. (e ≡ Memory) ⊎ ((fault : AFault) × (e ≡ Fault fault)
        × IsRefusedList Locations list.now.encoding moves.now.bodies.items section.now list.now.offset
        list.now.base (changes patches.old) fault)) }
{
    move_list(Kind::Locations, section, list, moves, patches)
}
