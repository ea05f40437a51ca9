//! One more item after those of a section (WebAssembly core specification 3.0, binary format,
//! modules).
ghost use Rattle.std.specs.Prelude.{◌≡◌, ◌<◌, ◌≤◌, ◌+◌, ◌-◌, ◌^◌, ◌++◌, ℕ, List, length, drop, Ok, Err, OnOk, OnErr, IfOk, IfErr};
ghost use Rattle.std.specs.Vec.{vec_len, vec_capacity};
ghost use Rattle.wasm_numbers.specs.Numbers.{u32};
ghost use Rattle.wasm_operators.specs.Shortest.{short_number};
ghost use Rattle.wasm_sections.specs.Additions.{HasOneMore, IsTooMuch, IsNotAdded};
ghost use Rattle.wasm_sections.specs.Parts.{number as number_part};

use crate::fault::{ModuleError, ModuleFault};
use crate::input::Input;
use crate::output::write_number;
use std::alloc::Global;

/// The contents of a section with one more item, after the others, in a list with room for so many
/// bytes.
pub(crate) fn with_item(
    alloc: Global,
    contents: &[u8],
    item: &[u8],
    room: usize,
) -> Result<Vec<u8>, ModuleError>
    ensures made { IfOk result (λ made. HasOneMore contents.now item.now made.items) }
    ensures refused { IfErr result (IsNotAdded contents.now) }
{
    let mut items = Input::new(contents);
    let count = items.number()?;
    let mut made = Vec::new(alloc);
    made.reserve(room)?;
    write_items(&mut made, count as usize + 1, items.rest(), item)?;
    Ok(made)
}

/// `TooGreat` if a section can't have so many bytes.
pub(crate) fn check_len(len: usize) -> Result<(), ModuleError>
    ensures fits { OnOk result (len < 2 ^ 32) }
    ensures refused { IfErr result IsTooMuch }
{
    if len > u32::MAX as usize {
        return Err(ModuleError {
            fault: ModuleFault::TooGreat,
            at: 0,
        });
    }
    Ok(())
}

/// The number of items with which the contents of a section begin, and how many bytes it takes.
fn counted(contents: &[u8]) -> Result<(u32, usize), ModuleError>
    ensures count { IfOk result (λ x. (items : List ℕ) × (u32 contents.now ≡ Ok (x.0, items))
        × (x.1 ≡ length contents.now - length items)) }
    ensures refused { IfErr result
        (λ error. number_part (length contents.now) contents.now ≡ Err error) }
{
    let mut items = Input::new(contents);
    match items.number() {
        Ok(count) => Ok((count, contents.len().saturating_sub(items.rest().len()))),
        Err(error) => Err(error),
    }
}

/// A number in its shortest encoding.
fn encoded(alloc: Global, number: usize) -> Result<Vec<u8>, ModuleError>
    ensures written { IfOk result (λ made. made.items ≡ short_number number) }
    ensures refused { IfErr result IsTooMuch }
{
    let mut made = Vec::new(alloc);
    match write_number(&mut made, number) {
        Ok(()) => Ok(made),
        Err(error) => Err(error),
    }
}

/// Puts a number over the first bytes.
fn overwrite(bytes: &mut [u8], number: &[u8])
    requires { length number.now ≤ length bytes.old }
    ensures { bytes.new ≡ number.now ++ drop (length number.now) bytes.old }
{
    let (front, _) = bytes.split_at_mut(number.len());
    front.copy_from_slice(number);
}

/// Appends an item, for which there is room, and puts the new number of items over the old one, which
/// takes as many bytes.
fn append_in_place(contents: &mut Vec<u8>, number: &[u8], item: &[u8])
    requires fits { length number.now ≤ length contents.old.items }
    requires room { vec_len contents.old + length item.now ≤ vec_capacity contents.old }
    ensures { contents.new.items
        ≡ number.now ++ (drop (length number.now) contents.old.items ++ item.now) }
{
    // It can't fail, since there is room.
    let _ = contents.extend_from_slice(item);
    overwrite(contents, number);
}

/// Adds one more item to the contents of a section, after the others. If there is room it takes the
/// time of the item; else the contents are copied to a list with room for half as many bytes more.
pub(crate) fn append_item(contents: &mut Vec<u8>, item: &[u8]) -> Result<(), ModuleError>
    ensures ok { OnOk result (HasOneMore contents.old.items item.now contents.new.items) }
    ensures err { OnErr result (contents.new ≡ contents.old) }
    ensures refused { IfErr result (IsNotAdded contents.old.items) }
{
    let alloc = *contents.allocator();
    let (count, len) = counted(contents)?;
    let number = encoded(alloc, count as usize + 1)?;
    let others = contents.len().saturating_sub(len);
    let size = number
        .len()
        .saturating_add(others)
        .saturating_add(item.len());
    check_len(size)?;
    if number.len() == len && item.len() <= contents.capacity().saturating_sub(contents.len()) {
        append_in_place(contents, &number, item);
        return Ok(());
    }
    *contents = with_item(alloc, contents, item, size.saturating_add(size / 2))?;
    Ok(())
}

/// Appends a number, and then items and one more.
#[tactic(auto, using(wasm_encode::proofs::Appending::appending))]
fn write_items(
    out: &mut Vec<u8>,
    count: usize,
    items: &[u8],
    item: &[u8],
) -> Result<(), ModuleError>
    ensures written { OnOk result (out.new.items
        ≡ out.old.items ++ (short_number count ++ (items.now ++ item.now))) }
    ensures refused { IfErr result IsTooMuch }
{
    match write_number(out, count) {
        Ok(()) => {}
        Err(error) => return Err(error),
    }
    out.extend_from_slice(items)?;
    out.extend_from_slice(item)?;
    Ok(())
}
