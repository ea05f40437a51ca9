//! Names of labels. The index of a construct's label is the number of constructs that are opened
//! before it in the body.

use crate::custom::RewrittenBody;
use std::alloc::Global;
use walrus_ir::InstrLocId;
use wasm_ops::{BlockType, Operator, Reader};
use wasm_sections::{Input, Item, ModuleError};

/// The type of the construct that an operator opens, and which has a label; `None` if it opens
/// none.
pub(crate) fn opened(operator: &Operator<'_>) -> Option<BlockType> {
    match operator {
        Operator::Block { ty }
        | Operator::Loop { ty }
        | Operator::If { ty }
        | Operator::Try { ty }
        | Operator::TryTable { ty, .. } => Some(*ty),
        _ => None,
    }
}

/// The places of the operators of a body that open constructs, in order.
fn openers(alloc: Global, body: Input<'_>) -> Result<Vec<usize>, ModuleError> {
    let mut found = Vec::new(alloc);
    let mut input = body;
    input.pass_declarations()?;
    let mut reader = Reader::new(input.rest(), input.at());
    // An operator has at least one byte.
    for _ in 0..input.rest().len() {
        let at = reader.original_position();
        match reader.read() {
            Ok(operator) if opened(&operator).is_some() => found.push(at)?,
            Ok(_) => {}
            Err(_) => break,
        }
    }
    Ok(found)
}

/// The old and the new index of each label that remains, in ascending order.
fn label_numbers(
    alloc: Global,
    old: &[usize],
    new: &[usize],
    pairs: &[(InstrLocId, usize)],
) -> Result<Vec<(usize, usize)>, ModuleError> {
    let mut numbers = Vec::new(alloc);
    let mut left = new;
    for (location, place) in pairs {
        let new_index = new.len().saturating_sub(left.len());
        match left.split_first() {
            Some((opener, following)) if opener == place => left = following,
            _ => continue,
        }
        if let Ok(old_index) = old.binary_search(&(location.data() as usize)) {
            numbers.push((old_index, new_index))?;
        }
    }
    Ok(numbers)
}

/// The names of labels that remain, with their new indices.
pub(crate) fn follow_labels<'a>(
    alloc: Global,
    items: &[Item<'a>],
    body: RewrittenBody<'_, 'a>,
) -> Result<Vec<Item<'a>>, ModuleError> {
    let old = openers(alloc, body.source.input)?;
    let new = openers(alloc, Input::new(body.raw))?;
    let numbers = label_numbers(alloc, &old, &new, body.pairs)?;
    let mut kept = Vec::new(alloc);
    for (label, bytes) in items {
        let found = numbers.binary_search_by_key(&(*label as usize), |(old, _)| *old);
        if let Ok(found) = found
            && let Some((_, new)) = numbers.get(found)
            && let Ok(new) = u32::try_from(*new)
        {
            kept.push((new, *bytes))?;
        }
    }
    Ok(kept)
}
