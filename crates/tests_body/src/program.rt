//! The program `wbody` when a write fails.

use std::alloc::{AllocError, Global};
use std::io;
use std::io::Write;
use std::test::Fail;
use walrus_run::run_arguments;

/// A writer that refuses every write.
#[derive(Drop)]
struct Broken;

impl Write for Broken {
    fn write(&mut self, _bytes: &[u8]) -> io::Result<usize> {
        Err(io::Error::from(io::ErrorKind::BrokenPipe))
    }

    fn flush(&mut self) -> io::Result<()> {
        Ok(())
    }
}

fn words(alloc: Global) -> Result<Vec<String>, AllocError> {
    let mut words = Vec::new(alloc);
    for word in ["rewrite", "0b"] {
        words.push(word.to_string(alloc)?)?;
    }
    Ok(words)
}

// The status when every write to standard output fails, and the length of standard error.
fn with_broken_output(alloc: Global) -> Result<(u8, usize), AllocError> {
    let words = words(alloc)?;
    let mut err = Vec::new(alloc);
    let status = run_arguments(alloc, &words, &mut Broken, &mut err);
    Ok((status, err.len()))
}

// The status when every write to standard error fails, and the length of standard output.
fn with_broken_errors(alloc: Global) -> (u8, usize) {
    let mut out = Vec::new(alloc);
    let status = run_arguments(alloc, &[], &mut out, &mut Broken);
    (status, out.len())
}

/// Nothing more is written after a write that fails, and the status is 1.
#[test]
fn writes_nothing_more_where_a_write_fails(rt: HostRuntime) -> Result<(), Fail> {
    assert_eq!(rt; with_broken_output(rt.alloc())?, (1, 0));
    assert_eq!(rt; with_broken_errors(rt.alloc()), (1, 0));
    Ok(())
}
