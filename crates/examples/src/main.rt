//! `examples`: five tools to learn from. They are one program, since each program that is built
//! links the libraries anew.
//!
//! It is run as `examples TOOL IN.wasm >OUT.wasm`, where TOOL is `wgrow`, `wloops` or `wtrace`, as
//! `examples wone HEX`, or as `examples wvalid IN.wasm`.
#![tactic(auto)]

mod wgrow;
mod wloops;
mod wone;
mod wtrace;
mod wvalid;

use module_tools::{exit_code, filter, words};
use std::process::ExitCode;
use wgrow::Telling;
use wloops::Counting;
use wtrace::Tracing;

/// Says how the program is used.
fn wrong_use(rt: &impl Eprint) -> ExitCode {
    // Where standard error can't be written, the status is all that is left.
    let _ = eprintln!(rt;
        "usage: examples wgrow|wloops|wtrace IN.wasm >OUT.wasm, examples wone HEX, or examples wvalid IN.wasm"
    );
    ExitCode::from(2)
}

/// Prints the error of a tool, if it has one, and returns the status.
fn status(rt: &impl Eprint, ended: anyhow::Result<()>) -> ExitCode {
    match ended {
        Ok(()) => ExitCode::SUCCESS,
        Err(error) => {
            let _ = eprintln!(rt; "Error: {error:?}");
            ExitCode::FAILURE
        }
    }
}

/// Runs the tool that the first word names on the words after it.
fn run_named(rt: &HostRuntime, words: &[String]) -> ExitCode {
    let Some(name) = words.first() else {
        return wrong_use(rt);
    };
    match name.as_str() {
        "wgrow" => filter(rt, &Telling, "wgrow", 2),
        "wloops" => filter(rt, &Counting, "wloops", 2),
        "wone" => status(rt, wone::change(rt)),
        "wtrace" => filter(rt, &Tracing, "wtrace", 2),
        "wvalid" => status(rt, wvalid::check(rt)),
        _ => wrong_use(rt),
    }
}

fn main(rt: HostRuntime) -> ExitCode {
    match words(&rt, 1) {
        Ok(words) => run_named(&rt, &words),
        Err(failure) => exit_code(&rt, "examples", failure),
    }
}
