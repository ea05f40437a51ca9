//! A body rewritten by its tree and without it, and checked without it.

use crate::demo::{Body, Demo, arguments, function, function_type};
use crate::fault::Fault;
use std::alloc::{AllocError, Global};
use walrus_body::AcceptAll;
use walrus_ir::InstrLocId;
use walrus_run::{FlatScratch, RewriteError, check_flat, rewrite_body, rewrite_flat};

/// What is appended for a body: its bytes and its location pairs; and why nothing is.
#[derive(Drop)]
struct Appended {
    bytes: Vec<u8>,
    pairs: Vec<(InstrLocId, usize)>,
    error: Option<RewriteError>,
}

impl Appended {
    fn nothing(alloc: Global) -> Appended {
        Appended {
            bytes: Vec::new(alloc),
            pairs: Vec::new(alloc),
            error: None,
        }
    }

    /// Whether memory ran out before all was appended.
    fn lacks_memory(&self) -> bool {
        match self.error {
            Some(error) => Fault::from(error) == Fault::Memory,
            None => false,
        }
    }

    /// This fault, if both differ; but where memory ran out in one of them nothing is known of both.
    fn compare(&self, other: &Appended, fault: Fault) -> Result<(), Fault> {
        if self.lacks_memory() || other.lacks_memory() {
            return Err(Fault::Memory);
        }
        let alike = self.bytes == other.bytes && self.pairs == other.pairs;
        if alike && self.error == other.error {
            Ok(())
        } else {
            Err(fault)
        }
    }
}

/// What `rewrite_body` appends.
fn by_tree(alloc: Global, demo: &Demo, body: Body<'_>) -> Result<Appended, AllocError> {
    let mut instrs = Vec::new(alloc);
    let args = arguments(alloc)?;
    let mut appended = Appended::nothing(alloc);
    let rewritten = rewrite_body(
        &demo.module,
        body.indices,
        function(),
        function_type(),
        args,
        body.at_zero(),
        None::<&fn(&usize) -> InstrLocId>,
        AcceptAll,
        &mut instrs,
        &demo.numbers,
        &mut appended.bytes,
        Some(&mut appended.pairs),
    );
    appended.error = rewritten.err();
    Ok(appended)
}

/// What `rewrite_flat` appends.
fn without_tree(
    alloc: Global,
    demo: &Demo,
    body: Body<'_>,
    scratch: &mut FlatScratch,
) -> Result<Appended, AllocError> {
    let args = arguments(alloc)?;
    let mut appended = Appended::nothing(alloc);
    let rewritten = rewrite_flat(
        &demo.module,
        body.indices,
        function(),
        function_type(),
        &args,
        body.at_zero(),
        None::<&fn(&usize) -> InstrLocId>,
        AcceptAll,
        &demo.numbers,
        scratch,
        &mut appended.bytes,
        Some(&mut appended.pairs),
    );
    appended.error = rewritten.err();
    Ok(appended)
}

/// Whether a check of a body finds the fault for which the parse refuses it, and none where it doesn't.
fn is_checked_alike(
    demo: &Demo,
    body: Body<'_>,
    scratch: &mut FlatScratch,
    error: &Option<RewriteError>,
) -> bool {
    let checked = check_flat(
        &demo.module,
        body.indices,
        function(),
        function_type(),
        body.at_zero(),
        AcceptAll,
        scratch,
    );
    match (checked, error) {
        (Err(failure), Some(RewriteError::Parse(other))) => failure == *other,
        (Err(_), _) | (Ok(()), Some(RewriteError::Parse(_))) => false,
        (Ok(()), _) => true,
    }
}

/// Checks that a body is rewritten alike by its tree and without it: the same bytes, location pairs
/// and fault; and that a check alone finds its fault.
pub(crate) fn rewritten_alike(
    alloc: Global,
    demo: &Demo,
    body: Body<'_>,
    scratch: &mut FlatScratch,
) -> Result<(), Fault> {
    let flat = without_tree(alloc, demo, body, scratch)?;
    if flat.lacks_memory() {
        return Err(Fault::Memory);
    }
    if !is_checked_alike(demo, body, scratch, &flat.error) {
        return Err(Fault::FlatDiffers);
    }
    match by_tree(alloc, demo, body) {
        Ok(tree) => flat.compare(&tree, Fault::FlatDiffers),
        Err(AllocError) => Err(Fault::Memory),
    }
}
