//! Modules that are made of others: rewritten, or snipped.

ghost use Rattle.std.specs.Prelude.{◌≡◌, ◌++◌, ℕ, List, [], false, OnOk, IfOk, IfErr};
ghost use Rattle.std.specs.HashSet.{IsEmpty};
ghost use Rattle.module_tools.specs.FunctionChanges.{Snips};
ghost use Rattle.wasm_sections.specs.Omissions.{OmitsNothing};
ghost use Rattle.wasm_module.specs.RewrittenCode.{IsRewrittenWith, IsChangedWith, keeps_locals};
ghost use Rattle.wasm_module.specs.ToldModules.{module_told};
ghost use Rattle.wasm_module.specs.WrittenModules.{new_contents_in, IsWrittenModule};
ghost use Rattle.wrewrite_c.specs.Made.{lines_if, IsMadeAfter, IsMadeFrom, IsMadeOf, IsSnippedFrom, IsSnippedOf, HasFunctions, AddsIndex};
ghost use Rattle.wrewrite_c.specs.Outcomes.{IsOfModule, IsMissing, IsMissingIn, LacksFunctionIn, LacksFunction};

use crate::made::Made;
use crate::options::Options;
use crate::outcome::{RefusedModule, Stop};
use crate::reading::read;
use crate::stripping::strip;
use crate::warnings::warnings_of;
use module_tools::function_at;
use std::alloc::Global;
use walrus_ir::{FunctionId, IdHashSet};
use wasm_module::{
    BodyWriter, ModuleError, ModuleFault, ParsedModule, Rewriting, RewrittenModule, WriteError,
};

/// The error of a module that isn't written into memory.
fn module_error(error: WriteError) -> ModuleError {
    match error {
        WriteError::Module(error) => error,
        // Bytes in memory can always be written, unless it runs out.
        WriteError::Io(_) => ModuleError {
            fault: ModuleFault::Memory,
            at: 0,
        },
    }
}

/// A fault of a module that was read.
fn stop_of(parsed: &ParsedModule<'_>, error: ModuleError) -> Stop
    ensures { IsOfModule result }
{
    let function = match error.fault {
        // Its place is that of a section, which may begin where the last body ends.
        ModuleFault::ObjectFile => None,
        _ => function_at(parsed, error.at),
    };
    Stop::Refused(RefusedModule { error, function })
}

/// Writes a module, and its location map where that is wanted.
fn write_made<B: BodyWriter>(
    parsed: &mut ParsedModule<'_>,
    rewritten: &RewrittenModule<'_, B>,
    has_map: bool,
    made: &mut Made,
) -> Result<(), WriteError>
    ensures written { OnOk result ((new : List ℕ)
        × (w : IsWrittenModule (B.writes rewritten.now.bodies) parsed.old rewritten.now.changes
        rewritten.now.omitted new)
        × (made.new.bytes.items ≡ made.old.bytes.items ++ new)
        × (made.new.lines.items ≡ made.old.lines.items
        ++ lines_if has_map (module_told (B.writes rewritten.now.bodies) parsed.old
        rewritten.now.changes rewritten.now.omitted new w))) }
    ensures no_map { has_map ≡ false → made.new.lines.items ≡ made.old.lines.items }
{
    match has_map {
        true => parsed.write_module_with_map(rewritten, &mut made.bytes, &mut made.lines),
        false => parsed.write_module(rewritten, &mut made.bytes),
    }
}

/// Writes what was made of a module that was read.
fn finish<B: BodyWriter>(
    parsed: &mut ParsedModule<'_>,
    rewritten: &mut RewrittenModule<'_, B>,
    wanted: Options,
    made: &mut Made,
) -> Result<(), ModuleError>
    requires none_given { new_contents_in rewritten.old ≡ [] }
    requires none_omitted { OmitsNothing rewritten.old.omitted }
    requires empty { made.old.bytes.items ≡ [] }
    ensures written { OnOk result (IsMadeAfter
        (IsMadeFrom (B.writes rewritten.old.bodies) parsed.old wanted)
        made.new.bytes.items made.old.lines.items made.new.lines.items) }
    ensures no_map { wanted.has_map ≡ false → made.new.lines.items ≡ made.old.lines.items }
{
    strip(rewritten, wanted);
    made.warnings = warnings_of(rewritten, wanted);
    match write_made(parsed, rewritten, wanted.has_map, made) {
        Ok(()) => Ok(()),
        Err(error) => Err(module_error(error)),
    }
}

/// Rewrites a module that was read, of which no location map is wanted: bodies are written as they were
/// kept.
fn rewrite_without_map(
    parsed: &mut ParsedModule<'_>,
    wanted: Options,
    made: &mut Made,
) -> Result<(), ModuleError>
    requires empty { made.old.bytes.items ≡ [] }
    requires has_none { wanted.has_map ≡ false }
    ensures written { OnOk result (IsMadeAfter (IsMadeFrom IsRewrittenWith parsed.old wanted)
        made.new.bytes.items made.old.lines.items made.new.lines.items) }
    ensures no_map { wanted.has_map ≡ false → made.new.lines.items ≡ made.old.lines.items }
{
    match parsed.rewrite_all() {
        Ok(mut rewritten) => finish(parsed, &mut rewritten, wanted, made),
        Err(error) => Err(error),
    }
}

/// Rewrites a module that was read, and all bodies once more when they are written, for their location
/// pairs.
fn rewrite_twice(
    parsed: &mut ParsedModule<'_>,
    wanted: Options,
    made: &mut Made,
) -> Result<(), ModuleError>
    requires { made.old.bytes.items ≡ [] }
    ensures written { OnOk result (IsMadeAfter (IsMadeFrom IsRewrittenWith parsed.old wanted)
        made.new.bytes.items made.old.lines.items made.new.lines.items) }
    ensures no_map { wanted.has_map ≡ false → made.new.lines.items ≡ made.old.lines.items }
{
    match parsed.rewrite_all() {
        Ok(rewritten) => {
            let (_kept, rest) = rewritten.take_bodies();
            let mut rewritten = rest.with_bodies(Rewriting);
            finish(parsed, &mut rewritten, wanted, made)
        }
        Err(error) => Err(error),
    }
}

/// Rewrites a module that was read.
fn rewrite_parsed(
    parsed: &mut ParsedModule<'_>,
    wanted: Options,
    made: &mut Made,
) -> Result<(), ModuleError>
    requires { made.old.bytes.items ≡ [] }
    ensures written { OnOk result (IsMadeAfter (IsMadeFrom IsRewrittenWith parsed.old wanted)
        made.new.bytes.items made.old.lines.items made.new.lines.items) }
    ensures no_map { wanted.has_map ≡ false → made.new.lines.items ≡ made.old.lines.items }
{
    match wanted.has_map {
        true => rewrite_twice(parsed, wanted, made),
        false => rewrite_without_map(parsed, wanted, made),
    }
}

/// Rewrites a module.
pub(crate) fn rewrite(
    alloc: Global,
    source: &[u8],
    wanted: Options,
    made: &mut Made,
) -> Result<(), Stop>
    requires { made.old.bytes.items ≡ [] }
    ensures written { OnOk result (IsMadeAfter (IsMadeOf IsRewrittenWith source.now wanted)
        made.new.bytes.items made.old.lines.items made.new.lines.items) }
    ensures no_map { wanted.has_map ≡ false → made.new.lines.items ≡ made.old.lines.items }
    ensures stops { IfErr result IsOfModule }
{
    let mut parsed = match read(alloc, source) {
        Ok(parsed) => parsed,
        Err(stop) => return Err(stop),
    };
    match rewrite_parsed(&mut parsed, wanted, made) {
        Ok(()) => Ok(()),
        Err(error) => Err(stop_of(&parsed, error)),
    }
}

/// Adds a function to those that are to be snipped.
fn add_function(
    parsed: &ParsedModule<'_>,
    index: usize,
    functions: &mut IdHashSet<FunctionId>,
) -> Result<(), Stop>
    ensures added { OnOk result (AddsIndex index functions.old functions.new) }
    ensures stops { IfErr result (IsMissing parsed.now index) }
{
    if !parsed.has_body(index) {
        return Err(Stop::NoFunction(index));
    }
    match functions.insert(FunctionId::new(index)) {
        Ok(_) => Ok(()),
        Err(_) => Err(Stop::MEMORY),
    }
}

/// Adds the functions with these indices.
fn add_functions(
    parsed: &ParsedModule<'_>,
    indices: &[usize],
    functions: &mut IdHashSet<FunctionId>,
) -> Result<(), Stop>
    requires { IsEmpty functions.old }
    ensures added { OnOk result (HasFunctions indices.now functions.new) }
    ensures stops { IfErr result (IsMissingIn parsed.now indices.now) }
{
    for index in indices {
        match add_function(parsed, *index, functions) {
            Ok(()) => {}
            Err(stop) => return Err(stop),
        }
    }
    Ok(())
}

/// The functions with these indices.
fn functions_of(
    alloc: Global,
    parsed: &ParsedModule<'_>,
    indices: &[usize],
) -> Result<IdHashSet<FunctionId>, Stop>
    ensures made { IfOk result (λ functions. HasFunctions indices.now functions) }
    ensures stops { IfErr result (IsMissingIn parsed.now indices.now) }
{
    let mut functions = IdHashSet::new(alloc);
    match add_functions(parsed, indices, &mut functions) {
        Ok(()) => Ok(functions),
        Err(stop) => Err(stop),
    }
}

/// Takes away the bodies of functions of a module that was read.
fn snip_functions(
    alloc: Global,
    parsed: &mut ParsedModule<'_>,
    functions: IdHashSet<FunctionId>,
    wanted: Options,
    made: &mut Made,
) -> Result<(), ModuleError>
    requires { made.old.bytes.items ≡ [] }
    ensures written { OnOk result (IsMadeAfter
        (IsMadeFrom (IsChangedWith (keeps_locals (Snips functions))) parsed.old wanted)
        made.new.bytes.items made.old.lines.items made.new.lines.items) }
    ensures no_map { wanted.has_map ≡ false → made.new.lines.items ≡ made.old.lines.items }
{
    match module_tools::snip(alloc, parsed, functions) {
        Ok(mut rewritten) => finish(parsed, &mut rewritten, wanted, made),
        Err(error) => Err(error),
    }
}

/// Takes away the bodies of functions of a module that was read.
fn snip_parsed(
    alloc: Global,
    parsed: &mut ParsedModule<'_>,
    indices: &[usize],
    wanted: Options,
    made: &mut Made,
) -> Result<(), Stop>
    requires { made.old.bytes.items ≡ [] }
    ensures written { OnOk result (IsMadeAfter (IsSnippedFrom indices.now parsed.old wanted)
        made.new.bytes.items made.old.lines.items made.new.lines.items) }
    ensures no_map { wanted.has_map ≡ false → made.new.lines.items ≡ made.old.lines.items }
    ensures stops { IfErr result (LacksFunctionIn parsed.old indices.now) }
{
    let functions = match functions_of(alloc, parsed, indices) {
        Ok(functions) => functions,
        Err(stop) => return Err(stop),
    };
    match snip_functions(alloc, parsed, functions, wanted, made) {
        Ok(()) => Ok(()),
        Err(error) => Err(stop_of(parsed, error)),
    }
}

/// Takes away the bodies of the functions with these indices.
pub(crate) fn snip(
    alloc: Global,
    source: &[u8],
    indices: &[usize],
    wanted: Options,
    made: &mut Made,
) -> Result<(), Stop>
    requires { made.old.bytes.items ≡ [] }
    ensures written { OnOk result (IsMadeAfter (IsSnippedOf indices.now source.now wanted)
        made.new.bytes.items made.old.lines.items made.new.lines.items) }
    ensures no_map { wanted.has_map ≡ false → made.new.lines.items ≡ made.old.lines.items }
    ensures stops { IfErr result (LacksFunction indices.now source.now) }
{
    let mut parsed = match read(alloc, source) {
        Ok(parsed) => parsed,
        Err(stop) => return Err(stop),
    };
    snip_parsed(alloc, &mut parsed, indices, wanted, made)
}
