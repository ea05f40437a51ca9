//! Modules as text: their bytes in hexadecimal, and their location maps; a module whose custom sections
//! change along with its code, and one with a section of each kind.
use hex::FromHexError;
use std::alloc::Global;
use std::test::Fail;
use wasm_module::{
    BodyWriter, ModuleError, ModuleFault, ParsedModule, RewrittenModule, WriteError,
};

/// Two functions after an imported one, with names and branch hints. The functions have the names
/// f, g and h. The locals have the names imp in f; p, a, unused and b in g; y in h. The labels of g
/// have the names outer, cond, dead and last. The hints are at 12, 17 and 28, counted from the
/// first byte of g's body. It declares an i64, an f32 and an i32, and is: nop, block [ local.get 0,
/// br_if 0, nop, local.get 0, if [ unreachable, block [ nop ] ] ], local.get 0, if [ i64.const 1,
/// local.set 1 ], local.get 3.
pub(crate) const FOLLOWED: &str =
    "0061736d01000000 01090260017f017f600000 020701016d01660001 0303020001 07050101670001 \
    0026196d657461646174612e636f64652e6272616e63685f68696e740101030c01011101001c0101 \
    0a31022603017e017d017f01024020000d000120000440000240010b0b0b20000440420121010b20030b080101\
    7f0120001a0b \
    005d046e616d650004036d6f64010a0300016601016702016802200300010003696d7001040001700101610206\
    756e757365640301620201000179031c01010400056f757465720104636f6e6402046465616403046c61737404\
    0401010176 001710736f757263654d617070696e6755524c05782e6d6170";

/// A section of each kind, in order, with custom sections between them, and bodies that are written
/// unchanged. The types are: from nothing to nothing; from an i32 to an i32; a group of two
/// structs, of which the second is a subtype of the first; an array of i16; from an i32 to nothing.
/// A function, a table, a memory, a global and a tag are imported. There are tables with a maximum,
/// with an expression, and with numbers of 64 bits, and element segments of all eight kinds.
pub(crate) const EVERY_SECTION: &str = "0061736d01000000 0007056669727374ff \
    01260560000060017f017f4e0250005f027f0178004f01025f037f0178006402005e770160017f00 00020161 \
    022505016d01660000016d01740170010105016d016e020001016d0167037f00016d0178040005 0303020100 \
    0410037000014000700001d2000b6f050102 0509030101020401030101 0d03010000 00020161 \
    0611037f00412a0b630201d0020b7e0142000b 0717050372756e000101740101016e02000167030101780401 \
    080100 \
    092e080041000b010001000101020141000b0001000300000441000b01d2000b057001d0700b060241000b6f00\
    077000 0c0103 0a1902040020000b1200410041004100fc080000fc0900fc0d030b 0003016200 \
    0b13030041000b0268690103010203020142000b00 0007046c6173740102";

/// Appends the bytes of a module, or of a part of it, that is written in hexadecimal, with spaces
/// between its sections.
pub(crate) fn push_bytes(bytes: &mut Vec<u8>, module: &str) -> Result<(), FromHexError> {
    let alloc = *bytes.allocator();
    for part in module.split(' ') {
        bytes.extend_from_slice(&hex::decode(alloc, part)?)?;
    }
    Ok(())
}

/// The bytes of a module that is written as its preamble and its sections in hexadecimal, with spaces
/// between them.
pub(crate) fn bytes_of(alloc: Global, module: &str) -> Result<Vec<u8>, Fail> {
    let mut bytes = Vec::new(alloc);
    match push_bytes(&mut bytes, module) {
        Ok(()) => Ok(bytes),
        Err(error) => Err(Fail::from(error)),
    }
}

/// A fault's name, and its place.
pub(crate) fn fault_text(alloc: Global, error: ModuleError) -> Result<String, Fail> {
    let name = error.fault.name();
    Ok(format!(in alloc; "{name} at {}", error.at)?)
}

// Appends bytes in hexadecimal.
fn push_hex(text: &mut String, bytes: &[u8]) -> Result<(), ModuleError> {
    for byte in bytes {
        write!(text, "{byte:02x}")?;
    }
    Ok(())
}

/// Appends the module that is written, in hexadecimal. The error is that of a change that isn't the
/// same both times.
pub(crate) fn push_written<B: BodyWriter>(
    text: &mut String,
    parsed: &mut ParsedModule<'_>,
    rewritten: &RewrittenModule<'_, B>,
) -> Result<(), ModuleError> {
    let mut out = Vec::new(*text.allocator());
    match parsed.write_module(rewritten, &mut out) {
        Ok(()) => push_hex(text, &out),
        Err(WriteError::Module(error)) => Err(error),
        Err(WriteError::Io(_)) => Err(ModuleError {
            fault: ModuleFault::Memory,
            at: 0,
        }),
    }
}

// Appends the lines of the location map of a module that is written.
fn push_lines<B: BodyWriter>(
    lines: &mut Vec<u8>,
    parsed: &mut ParsedModule<'_>,
    rewritten: &RewrittenModule<'_, B>,
) -> Result<(), ModuleError> {
    let mut module = Vec::new(*lines.allocator());
    match parsed.write_module_with_map(rewritten, &mut module, lines) {
        Ok(()) => Ok(()),
        Err(WriteError::Module(error)) => Err(error),
        Err(WriteError::Io(_)) => Err(ModuleError {
            fault: ModuleFault::Memory,
            at: 0,
        }),
    }
}

/// Appends the location map of a module that is written.
pub(crate) fn push_map<B: BodyWriter>(
    text: &mut String,
    parsed: &mut ParsedModule<'_>,
    rewritten: &RewrittenModule<'_, B>,
) -> Result<(), ModuleError> {
    let mut lines = Vec::new(*text.allocator());
    match push_lines(&mut lines, parsed, rewritten) {
        Ok(()) => Ok(text.push_str(std::str::from_utf8(&lines).unwrap_or("not UTF-8"))?),
        Err(error) => Err(error),
    }
}
