//! Turns and outcomes in the program's arguments.

use std::alloc::{AllocError, Global};
use std::collections::BTreeSet;
use walrus_ir::TagId;
use walrus_machine::Outcome;

/// A number in decimal digits, without a sign; leading zeros are allowed.
fn digits(text: &str) -> Option<u64> {
    for byte in text.as_bytes() {
        if !byte.is_ascii_digit() {
            return None;
        }
    }
    text.parse().ok()
}

/// The number of turns in an argument; none if it isn't a number.
pub(crate) fn turns(word: &str) -> Option<u64> {
    digits(word)
}

/// The tags that follow an `r`, with a `+` between them; none if the text isn't tags.
fn tags(alloc: Global, text: &str) -> Result<Option<BTreeSet<TagId>>, AllocError> {
    let mut tags = BTreeSet::new(alloc);
    if text.is_empty() {
        return Ok(Some(tags));
    }
    for tag in text.split('+') {
        let tag = match tag {
            "0" => TagId::new(0),
            "1" => TagId::new(1),
            _ => return Ok(None),
        };
        tags.insert(tag)?;
    }
    Ok(Some(tags))
}

/// The outcome in an item; none if it isn't an outcome.
fn outcome(alloc: Global, item: &str) -> Result<Option<Outcome>, AllocError> {
    let outcome = match item {
        "g" => Some(Outcome::Go),
        "t" => Some(Outcome::Trap),
        "1" => Some(Outcome::Way(true)),
        "0" => Some(Outcome::Way(false)),
        _ => {
            if let Some(text) = item.strip_prefix('r') {
                tags(alloc, text)?.map(Outcome::Raise)
            } else if let Some(text) = item.strip_prefix('e') {
                digits(text)
                    .and_then(|k| u32::try_from(k).ok())
                    .map(Outcome::Entry)
            } else {
                None
            }
        }
    };
    Ok(outcome)
}

/// The outcomes in an argument: `-` for no outcomes, otherwise items with a comma between
/// them. None if the argument isn't of this form.
pub(crate) fn outcomes(alloc: Global, word: &str) -> Result<Option<Vec<Outcome>>, AllocError> {
    let mut outcomes = Vec::new(alloc);
    if word == "-" {
        return Ok(Some(outcomes));
    }
    for item in word.split(',') {
        match outcome(alloc, item)? {
            Some(outcome) => outcomes.push(outcome)?,
            None => return Ok(None),
        }
    }
    Ok(Some(outcomes))
}
