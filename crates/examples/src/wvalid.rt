//! `wvalid`: says whether a module is valid, and if it isn't, where and why.
//!
//! It is run as `examples wvalid IN.wasm`. It prints nothing of a valid module.

use anyhow::{Context, Result, bail};
use module_tools::{refusal_text, validate_module};
use std::alloc::Global;
use std::{env, fs};
use wasm_module::ParsedModule;

/// Refuses a module that isn't valid.
fn validate(alloc: Global, parsed: &ParsedModule<'_>) -> Result<()> {
    if let Err(error) = validate_module(alloc, parsed) {
        let (at, text) = (error.at, refusal_text(alloc, parsed.bytes(), &error)?);
        bail!("0x{at:x}: {text}");
    }
    Ok(())
}

/// Validates the module whose path is the word after the tool's name. In a program of its own it is `main`.
pub(crate) fn check(rt: &HostRuntime) -> Result<()> {
    let path = env::args(rt)?.nth(2).context("usage: wvalid IN.wasm")?;
    let bytes = fs::read(rt, path.as_str())?;
    let parsed = ParsedModule::read_in_box(rt.alloc(), &bytes)?;
    validate(rt.alloc(), &parsed)
}
