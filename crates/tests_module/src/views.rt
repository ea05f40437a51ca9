//! Views of a module: what is in its sections.
use crate::cases::{Query, check};
use crate::texts::{EVERY_SECTION, FOLLOWED};
use std::test::Fail;
use walrus_body::LocalFunction;
use wasm_module::{
    Limits, ModuleError, ModuleFault, NamedFunctions, ParsedModule, Section, SectionKind,
};

// Appends the exports, each with its place.
fn push_exports(text: &mut String, parsed: &ParsedModule<'_>) -> Result<(), ModuleError> {
    for export in parsed.exports()? {
        match export {
            Ok(export) => write!(
                text,
                "{} {} {} at {}; ",
                export.name, export.space, export.index, export.at
            )?,
            Err(error) => return Err(error),
        }
    }
    Ok(())
}

// Appends the imports, each with its place.
fn push_imports(text: &mut String, parsed: &ParsedModule<'_>) -> Result<(), ModuleError> {
    for import in parsed.imports()? {
        match import {
            Ok(import) => write!(
                text,
                "{}.{} {:?} at {}; ",
                import.from, import.name, import.imported, import.at
            )?,
            Err(error) => return Err(error),
        }
    }
    Ok(())
}

// Appends the functions, each with its type and the place of its body.
fn push_functions(text: &mut String, parsed: &ParsedModule<'_>) -> Result<(), ModuleError> {
    let functions = match parsed.functions() {
        Ok(functions) => functions,
        Err(error) => return Err(error),
    };
    for function in functions {
        let params = parsed.params(function.ty).len();
        let results = parsed.results(function.ty).len();
        write!(text, "{}: {params} to {results}", function.index)?;
        if let Some(body) = function.body {
            write!(text, " at {}", body.start())?;
        }
        write!(text, "; ")?;
    }
    Ok(())
}

// Appends the numbers of items of three sections.
fn push_counts(text: &mut String, parsed: &ParsedModule<'_>) -> Result<(), ModuleError> {
    for kind in [SectionKind::Type, SectionKind::Code, SectionKind::Global] {
        match parsed.item_count(kind) {
            Ok(count) => write!(text, "{count} ")?,
            Err(error) => return Err(error),
        }
    }
    Ok(())
}

// Appends the names of functions, each with its place.
fn push_named(text: &mut String, functions: NamedFunctions<'_>) -> Result<(), ModuleError> {
    for named in functions {
        match named {
            Ok(named) => write!(text, "{} {} at {}, ", named.index, named.name, named.at)?,
            Err(error) => return Err(error),
        }
    }
    Ok(())
}

// Appends the name of a custom section, and the names of functions in it.
fn push_section(text: &mut String, section: &Section<'_>) -> Result<(), ModuleError> {
    let name = match section.name() {
        Ok(name) => name,
        Err(error) => return Err(error),
    };
    write!(text, "{name} ")?;
    if name != "name" {
        return Ok(());
    }
    match section.named_functions() {
        Ok(functions) => push_named(text, functions),
        Err(error) => Err(error),
    }
}

// Appends the names of custom sections.
fn push_custom(text: &mut String, parsed: &ParsedModule<'_>) -> Result<(), ModuleError> {
    for section in parsed.sections()? {
        match section {
            Ok(section) if section.kind == SectionKind::Custom => {
                push_section(text, &section)?;
            }
            Ok(_) => {}
            Err(error) => return Err(error),
        }
    }
    Ok(())
}

/// Appends the exports, imports, functions, numbers of items and custom sections.
pub(crate) fn push_viewed(text: &mut String, parsed: &ParsedModule<'_>) -> Result<(), ModuleError> {
    match push_exports(text, parsed) {
        Ok(()) => {}
        Err(error) => return Err(error),
    }
    match push_imports(text, parsed) {
        Ok(()) => {}
        Err(error) => return Err(error),
    }
    match push_functions(text, parsed) {
        Ok(()) => {}
        Err(error) => return Err(error),
    }
    match push_counts(text, parsed) {
        Ok(()) => {}
        Err(error) => return Err(error),
    }
    push_custom(text, parsed)
}

/// Appends the start function, and the places of the bodies of the first functions.
pub(crate) fn push_bodies(text: &mut String, parsed: &ParsedModule<'_>) -> Result<(), ModuleError> {
    match parsed.start() {
        Ok(Some(start)) => write!(text, "starts with {}; ", start.index())?,
        Ok(None) => {}
        Err(error) => return Err(error),
    }
    for index in 0..4 {
        if let Some(body) = parsed.body_of(index) {
            write!(text, "{index} at {}; ", body.start())?;
        }
    }
    Ok(())
}

/// Appends whether each of the first functions has a body.
pub(crate) fn push_has_bodies(
    text: &mut String,
    parsed: &ParsedModule<'_>,
) -> Result<(), ModuleError> {
    for index in 0..4 {
        write!(text, "{} ", parsed.has_body(index))?;
    }
    Ok(())
}

// Appends limits.
fn push_limits(text: &mut String, limits: Limits) -> Result<(), ModuleError> {
    write!(text, "{}", limits.min)?;
    if let Some(max) = limits.max {
        write!(text, " to {max}")?;
    }
    if limits.is_shared {
        write!(text, " shared")?;
    }
    if limits.is_64 {
        write!(text, " 64")?;
    }
    Ok(())
}

// Appends the tables, each with its limits and its place.
fn push_tables(text: &mut String, parsed: &ParsedModule<'_>) -> Result<(), ModuleError> {
    for table in parsed.tables()? {
        match table {
            Ok(table) => {
                write!(text, "table of {:?}: ", table.ty.element)?;
                push_limits(text, table.ty.limits)?;
                let init = table.init.unwrap_or(&[]).len();
                write!(text, " by {init} at {}; ", table.at)?;
            }
            Err(error) => return Err(error),
        }
    }
    Ok(())
}

// Appends the memories, each with its limits and its place.
fn push_memories(text: &mut String, parsed: &ParsedModule<'_>) -> Result<(), ModuleError> {
    for memory in parsed.memories()? {
        let memory = memory?;
        write!(text, "memory: ")?;
        push_limits(text, memory.limits)?;
        write!(text, " at {}; ", memory.at)?;
    }
    Ok(())
}

// Appends the tags, each with its place.
fn push_tags(text: &mut String, parsed: &ParsedModule<'_>) -> Result<(), ModuleError> {
    for tag in parsed.tags()? {
        let tag = tag?;
        write!(text, "tag {} at {}; ", tag.ty, tag.at)?;
    }
    Ok(())
}

// Appends the globals, each with the bytes of its initial value and its place.
fn push_globals(text: &mut String, parsed: &ParsedModule<'_>) -> Result<(), ModuleError> {
    for global in parsed.globals()? {
        match global {
            Ok(global) => {
                write!(text, "global of {:?}: ", global.ty.value)?;
                for byte in global.init {
                    write!(text, "{byte} ")?;
                }
                write!(text, "{} at {}; ", global.ty.is_mutable, global.at)?;
            }
            Err(error) => return Err(error),
        }
    }
    Ok(())
}

/// Appends the tables, memories, tags and globals.
pub(crate) fn push_storage(
    text: &mut String,
    parsed: &ParsedModule<'_>,
) -> Result<(), ModuleError> {
    match push_tables(text, parsed) {
        Ok(()) => {}
        Err(error) => return Err(error),
    }
    match push_memories(text, parsed) {
        Ok(()) => {}
        Err(error) => return Err(error),
    }
    match push_tags(text, parsed) {
        Ok(()) => {}
        Err(error) => return Err(error),
    }
    push_globals(text, parsed)
}

/// Appends the functions that a module names outside of bodies.
pub(crate) fn push_references(
    text: &mut String,
    parsed: &ParsedModule<'_>,
) -> Result<(), ModuleError> {
    for function in parsed.referenced_functions()? {
        write!(text, "{} ", function.index())?;
    }
    Ok(())
}

/// Appends the functions that are visited, each with the number of its sequences, up to the one with
/// this index, which is refused; and the first error.
pub(crate) fn push_visited(
    text: &mut String,
    parsed: &mut ParsedModule<'_>,
    last: usize,
) -> Result<(), ModuleError> {
    let visited = parsed.for_each_function(|index: usize, function: &LocalFunction| {
        write!(text, "{index} has {}; ", function.builder().count())?;
        if index == last {
            let fault = ModuleFault::TooGreat;
            return Err(ModuleError { fault, at: 7 });
        }
        Ok(())
    });
    if let Err(error) = visited {
        write!(text, "{error}")?;
    }
    Ok(())
}

/// An imported function, one without instructions, one with a block, and one with `br 1` at 43, where
/// only the label 0 is open.
const VISITED: &str = "0061736d01000000 010401600000 020701016d01660000 030403000000 \
        0a0f0302000b05000240 0b0b04000c010b";

/// What is viewed of which module, and the expected text.
const VIEWS: [(Query<'static>, &str, &str); 10] = [
    // A module of an import, two functions with bodies, an export and three custom sections. The code
    // section begins at 80.
    (
        Query::Viewed,
        FOLLOWED,
        "g funcs 1 at 36; m.f Func(1) at 22; 0: 0 to 0; 1: 1 to 1 at 84; 2: 0 to 0 at 123; \
        2 2 0 metadata.code.branch_hint name 0 f at 147, 1 g at 150, 2 h at 153, sourceMappingURL ",
    ),
    // Imported functions have no body.
    (Query::HasBodies, FOLLOWED, "false true true false "),
    // Two functions with bodies after an imported one, without a start function.
    (Query::Bodies, FOLLOWED, "1 at 84; 2 at 123; "),
    // An imported function, one with a body at 34, and a start section that names this one.
    (
        Query::Bodies,
        "0061736d01000000 010401600000 020701016d01660000 03020100 080101 0a040102000b",
        "starts with 1; 1 at 34; ",
    ),
    (Query::Bodies, "0061736d01000000", ""),
    // Three tables, three memories, a tag and three globals that a module defines, besides one of
    // each that it imports. The table section begins at 105, that of memories at 123, that of tags at
    // 134, and that of globals at 143. The second table has the initial value `ref.func 0`.
    (
        Query::Storage,
        EVERY_SECTION,
        "table of Ref(RefType { nullable: true, heap_type: Abstract(Func) }): 1 by 0 at 108; \
        table of Ref(RefType { nullable: true, heap_type: Abstract(Func) }): 1 by 3 at 111; \
        table of Ref(RefType { nullable: true, heap_type: Abstract(Extern) }): 1 to 2 64 by 0 at 119; \
        memory: 1 to 2 at 126; memory: 1 64 at 129; memory: 1 to 1 shared at 131; \
        tag 0 at 137; \
        global of I32: 65 42 11 false at 146; \
        global of Ref(RefType { nullable: true, heap_type: Concrete(2) }): 208 2 11 true at 151; \
        global of I64: 66 0 11 true at 157; ",
    ),
    // Seven functions: `ref.func 1` in a table, `ref.func 2` in a global, 3 exported, as is a global,
    // 4 called at the start, and 5 twice, `ref.null`, `ref.func 6` and 0 in three element segments.
    (
        Query::References,
        "0061736d01000000 010401600000 03080700000000000000 \
        0409014000700001d2010b 0606017000d2020b 0709020166000301670300 080104 \
        0919030041000b020505077002d0700bd2060b020041000b000100 \
        0a160702000b02000b02000b02000b02000b02000b02000b",
        "1 2 3 4 5 5 6 0 ",
    ),
    (Query::References, "0061736d01000000", ""),
    (
        Query::Visited(9),
        VISITED,
        "1 has 1; 2 has 2; 0x2b: a label is not open (NoSuchLabel)",
    ),
    (
        Query::Visited(1),
        VISITED,
        "1 has 1; 0x7: a count is too great (TooGreat)",
    ),
];

/// What is in the sections of a module.
#[test]
fn views_modules(rt: HostRuntime) -> Result<(), Fail> {
    for (query, module, expected) in VIEWS {
        check(&rt, rt.alloc(), query, &[(module, expected)])?;
    }
    Ok(())
}
