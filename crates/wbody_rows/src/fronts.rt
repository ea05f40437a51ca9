//! Truncated bodies.

use crate::demo::Demo;
use crate::fault::Fault;
use std::alloc::Global;

/// Checks that these bytes aren't accepted as the operators of a body.
fn is_refused(alloc: Global, demo: &Demo, front: &[u8]) -> Result<(), Fault> {
    match demo.parse(alloc, demo.source(front)) {
        Ok(_) => Err(Fault::FrontAccepted),
        Err(Fault::Memory) => Err(Fault::Memory),
        Err(_) => Ok(()),
    }
}

/// Checks that no proper prefix of a body's operators is accepted.
pub(crate) fn are_refused(alloc: Global, demo: &Demo, bytes: &[u8]) -> Result<(), Fault> {
    for length in 0..bytes.len() {
        is_refused(alloc, demo, &bytes[..length])?;
    }
    Ok(())
}
