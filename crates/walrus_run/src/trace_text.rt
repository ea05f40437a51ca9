//! The text of a run.

use crate::named_body::NamedBody;
use std::alloc::{AllocError, Global};
use std::collections::BTreeSet;
use walrus_ir::TagId;
use walrus_machine::{Ending, Event, Run};

/// The bytes of the operator with this number, in a body that begins at place 0.
fn operator_bytes<'a>(body: &NamedBody, bytes: &'a [u8], i: usize) -> &'a [u8] {
    let from = body.place(i).unwrap_or(0);
    let to = body.place(i.saturating_add(1)).unwrap_or(bytes.len());
    bytes.get(from..to).unwrap_or(&[])
}

/// The line of an event: the operator's place and its bytes, or the place of a construct's opener
/// and which of its clauses caught an exception.
fn push_event(
    alloc: Global,
    text: &mut String,
    body: &NamedBody,
    bytes: &[u8],
    event: &Event,
) -> Result<(), AllocError> {
    let line = match event {
        Event::Op(i) => {
            let place = body.place(*i).unwrap_or(0);
            let operator = hex::encode(alloc, operator_bytes(body, bytes, *i))?;
            format!(in alloc; "{place} {operator}\n")?
        }
        Event::Taken { i, clause, .. } => {
            let place = body.place(*i).unwrap_or(0);
            format!(in alloc; "{place} taken {clause}\n")?
        }
    };
    text.push_str(line.as_str())
}

/// Tags in ascending order, with a `+` between them; `-` for none.
fn push_tags(alloc: Global, text: &mut String, tags: &BTreeSet<TagId>) -> Result<(), AllocError> {
    if tags.is_empty() {
        return text.push_str("-");
    }
    for (number, tag) in tags.iter().enumerate() {
        if number > 0 {
            text.push_str("+")?;
        }
        let tag = tag.index();
        text.push_str(format!(in alloc; "{tag}")?.as_str())?;
    }
    Ok(())
}

/// The lines of a run of a body with these bytes as its operators: one for each event, and then its
/// ending, without the last line end.
pub(crate) fn run_text(
    alloc: Global,
    body: &NamedBody,
    bytes: &[u8],
    run: &Run,
) -> Result<String, AllocError> {
    let mut text = String::new(alloc);
    for event in &run.events {
        push_event(alloc, &mut text, body, bytes, event)?;
    }
    match &run.ending {
        Ending::Returned => text.push_str("returned")?,
        Ending::TailCalled => text.push_str("tail-called")?,
        Ending::Trapped => text.push_str("trapped")?,
        Ending::Escaped(tags) => {
            text.push_str("escaped ")?;
            push_tags(alloc, &mut text, tags)?;
        }
        Ending::OutcomesOut => text.push_str("outcomes-out")?,
        Ending::TurnsOut => text.push_str("turns-out")?,
        Ending::Mismatch => text.push_str("mismatch")?,
    }
    Ok(text)
}
