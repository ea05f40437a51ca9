//! The program `wbody`: rewrites and runs bodies of functions that are given in hexadecimal.
#![tactic(auto)]

use std::process::ExitCode;
use std::{env, io};
use walrus_run::run_arguments;

/// The program's words, without its own name; none if one isn't UTF-8, which is an error
/// in the arguments.
fn words(rt: &HostRuntime) -> io::Result<Vec<String>> {
    let mut words = Vec::new(rt.alloc());
    match env::args(rt) {
        Ok(args) => {
            for word in args.skip(1) {
                words.push(word)?;
            }
        }
        Err(error) if error.kind() == io::ErrorKind::InvalidData => {}
        Err(error) => return Err(error),
    }
    Ok(words)
}

// Reports that memory ran out before the words were read, in the way of `run_arguments`.
fn refuse(rt: &HostRuntime) -> io::Result<ExitCode> {
    eprintln!(rt; "refused: Memory")?;
    Ok(ExitCode::FAILURE)
}

fn main(rt: HostRuntime) -> io::Result<ExitCode> {
    match words(&rt) {
        Ok(words) => {
            let status = run_arguments(rt.alloc(), &words, &mut rt.stdout(), &mut rt.stderr());
            Ok(ExitCode::from(status))
        }
        Err(error) if error.kind() == io::ErrorKind::OutOfMemory => refuse(&rt),
        Err(error) => Err(error),
    }
}
