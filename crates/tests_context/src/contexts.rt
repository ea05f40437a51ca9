//! Contexts of modules by hand, and modules whose types are refused.
use crate::texts::{bytes_of, push_context};
use module_context::ModuleContext;
use module_context::faults::INVALID_TYPE;
use std::alloc::Global;
use std::test::Fail;
use wasm_sections::ModuleError;

/// A section of each kind. The types are a group of an open struct, which names the second type, and of a final
/// subtype of it with one more field; functions from an i32 to an i64, and twice from nothing to nothing; and an
/// array. A function, a table, a memory of 64 bits, a variable global and a tag are imported. The first table's
/// elements are external, and the second table's are function 1. Function 0 is the value of a global, function 1
/// is exported, function 2 is the start function, and function 3 is an element of the first segment; the second
/// segment has external elements.
const EVERY_SECTION: &str = "0061736d01000000 \
    0122054e0250005f016301014f01005f02630101780060017f017e6000006000005e7701 \
    022405016d01660002016d017401700001016d016d020401016d0167037f01016d0178040003 030403030303 \
    040d026f0100054000700001d2010b 0503010001 0d03010003 0606017000d2000b 07050101650001 080102 \
    090d020041000b0103056f01d06f0b 0c0102 0a0a0302000b02000b02000b 0b050201000100";

const EVERY_SPACE: &str = "\
struct var Ref(RefType { nullable: true, heap_type: Concrete(1) }); supertype None; first 0
struct var Ref(RefType { nullable: true, heap_type: Concrete(1) }) const i8; supertype Some(0); first 1
func [I32] [I64]; supertype None; first 2
func [] []; supertype None; first 3
func [] []; supertype None; first 3
array var i16; supertype None; first 5
functions [2, 3, 3, 3]
referenced [true, true, false, true]
table i32 RefType { nullable: true, heap_type: Abstract(Func) }
table i32 RefType { nullable: true, heap_type: Abstract(Extern) }
table i32 RefType { nullable: true, heap_type: Abstract(Func) }
memory i64
memory i32
global var I32
global const Ref(RefType { nullable: true, heap_type: Abstract(Func) })
elements [RefType { nullable: false, heap_type: Abstract(Func) }, RefType { nullable: true, heap_type: Abstract(Extern) }]
data segments 2
tags [3, 3]
";

/// The context of a module with a section of each kind.
#[test]
fn reads_every_section(rt: HostRuntime) -> Result<(), Fail> {
    let bytes = bytes_of(rt.alloc(), EVERY_SECTION)?;
    let mut text = String::new(rt.alloc());
    match ModuleContext::read(rt.alloc(), &bytes) {
        Ok(read) => {
            push_context(&mut text, &read.context)?;
            assert_eq!(rt; text.as_str(), EVERY_SPACE);
            assert_eq!(rt; read.imported_globals, 1);
        }
        Err(error) => return Err(Fail::from(error)),
    }
    Ok(())
}

/// Modules whose types aren't valid, each with the place of the fault: a type that names one of a later group, and
/// one whose supertype is final.
const REFUSED: [(&str, usize); 2] = [
    ("0061736d01000000 0109025f01630100600000", 11),
    ("0061736d01000000 010a02600000500100600000", 10),
];

/// Why the context of a module isn't read, if it isn't.
fn fault_of(alloc: Global, module: &str) -> Result<Option<ModuleError>, Fail> {
    let bytes = bytes_of(alloc, module)?;
    match ModuleContext::read(alloc, &bytes) {
        Ok(_) => Ok(None),
        Err(error) => Ok(Some(error)),
    }
}

/// Types that aren't valid are refused.
#[test]
fn refuses_invalid_types(rt: HostRuntime) -> Result<(), Fail> {
    for (module, at) in REFUSED {
        let error = fault_of(rt.alloc(), module)?;
        let fault = INVALID_TYPE;
        assert_eq!(rt; error, Some(ModuleError { fault, at }));
    }
    Ok(())
}
