//! Custom sections that are left out, whether code has changed or moved, and object files.
use crate::cases::{Query, check};
use crate::texts::push_written;
use std::test::Fail;
use wasm_module::{BodyWriter, ModuleError, ParsedModule, RewrittenModule};

/// What is left out.
#[derive(Clone, Copy)]
pub(crate) enum Omission {
    /// All custom sections.
    All,
    /// Debug information.
    Debug,
    /// The URL of the source map.
    SourceMapUrl,
    /// The custom sections with this name.
    Named(&'static str),
    /// Not the custom sections with this name.
    Kept(&'static str),
}

fn omit<B>(
    rewritten: &mut RewrittenModule<'_, B>,
    omissions: &[Omission],
) -> Result<(), ModuleError> {
    for omission in omissions {
        match *omission {
            Omission::All => rewritten.omit_custom_sections(),
            Omission::Debug => rewritten.omit_debug(),
            Omission::SourceMapUrl => rewritten.omit_source_map_url(),
            Omission::Named(name) => rewritten.omit_custom_section(name)?,
            Omission::Kept(name) => rewritten.keep_custom_section(name)?,
        }
    }
    Ok(())
}

// Appends whether code has changed, and whether it has moved.
fn push_places<B>(
    text: &mut String,
    rewritten: &RewrittenModule<'_, B>,
) -> Result<(), ModuleError> {
    let code = if rewritten.changes_code() {
        "changed"
    } else {
        "same"
    };
    let places = if rewritten.moves_code() {
        "moved"
    } else {
        "same"
    };
    Ok(write!(text, ":{code}:{places}")?)
}

fn push_rest<B: BodyWriter>(
    text: &mut String,
    parsed: &mut ParsedModule<'_>,
    rewritten: &mut RewrittenModule<'_, B>,
    omissions: &[Omission],
) -> Result<(), ModuleError> {
    omit(rewritten, omissions)?;
    push_written(text, parsed, rewritten)?;
    push_places(text, rewritten)
}

/// Appends the module that is written without these sections, and whether its code has changed and
/// moved.
pub(crate) fn push_omitted(
    text: &mut String,
    parsed: &mut ParsedModule<'_>,
    omissions: &[Omission],
) -> Result<(), ModuleError> {
    match parsed.rewrite_all() {
        Ok(mut rewritten) => push_rest(text, parsed, &mut rewritten, omissions),
        Err(error) => Err(error),
    }
}

/// The custom sections a, name, sourceMappingURL, .debug_x, external_debug_info and a, without
/// contents but for the URL u.
const CUSTOM: &str = "0061736d01000000 00020161 0005046e616d65 \
    001310736f757263654d617070696e6755524c0175 0009082e64656275675f78 \
    00141365787465726e616c5f64656275675f696e666f 00020161";

/// What is left out of which module, and what is written.
const OMITTED: [(&[Omission], &str, &str); 13] = [
    (
        &[],
        CUSTOM,
        "0061736d01000000 00020161 0005046e616d65 001310736f757263654d617070696e6755524c0175 \
        0009082e64656275675f78 00141365787465726e616c5f64656275675f696e666f 00020161 :same:same",
    ),
    (&[Omission::All], CUSTOM, "0061736d01000000 :same:moved"),
    (
        &[Omission::Kept("a"), Omission::All, Omission::Named("a")],
        CUSTOM,
        "0061736d01000000 00020161 00020161 :same:moved",
    ),
    (
        &[Omission::Debug],
        CUSTOM,
        "0061736d01000000 00020161 0005046e616d65 00020161 :same:moved",
    ),
    (
        &[Omission::SourceMapUrl, Omission::Named("b")],
        CUSTOM,
        "0061736d01000000 00020161 0005046e616d65 0009082e64656275675f78 \
        00141365787465726e616c5f64656275675f696e666f 00020161 :same:moved",
    ),
    (
        &[
            Omission::Named("a"),
            Omission::Debug,
            Omission::Kept(".debug_x"),
        ],
        CUSTOM,
        "0061736d01000000 0005046e616d65 0009082e64656275675f78 :same:moved",
    ),
    // Nothing is left out by what is kept.
    (
        &[Omission::Kept("a")],
        "0061736d01000000 00020161",
        "0061736d01000000 00020161 :same:same",
    ),
    // Code that stays as it is.
    (
        &[],
        "0061736d01000000 010401600000 03020100 0a040102000b",
        "0061736d01000000 010401600000 03020100 0a040102000b :same:same",
    ),
    // A `nop` that goes.
    (
        &[],
        "0061736d01000000 010401600000 03020100 0a05010300010b",
        "0061736d01000000 010401600000 03020100 0a040102000b :changed:moved",
    ),
    // A size of the section in two bytes, and one of a body.
    (
        &[],
        "0061736d01000000 010401600000 03020100 0a84000102000b",
        "0061736d01000000 010401600000 03020100 0a040102000b :same:moved",
    ),
    (
        &[],
        "0061736d01000000 010401600000 03020100 0a05018200000b",
        "0061736d01000000 010401600000 03020100 0a040102000b :changed:moved",
    ),
    // Symbols and relocations of an object file.
    (
        &[Omission::All],
        "0061736d01000000 0008076c696e6b696e67",
        "ObjectFile at 8",
    ),
    (
        &[],
        "0061736d01000000 00020161 00080772656c6f632e78 010401600000",
        "ObjectFile at 12",
    ),
];

#[test]
fn leaves_sections_out(rt: HostRuntime) -> Result<(), Fail> {
    for (omissions, module, expected) in OMITTED {
        check(
            &rt,
            rt.alloc(),
            Query::Omitted(omissions),
            &[(module, expected)],
        )?;
    }
    Ok(())
}
