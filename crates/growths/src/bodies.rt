//! The demo module with locals of more types, its function 0, bodies of that function, and the scenarios over them.
ghost use Rattle.std.specs.Prelude.{◌≡◌, ◌≤◌, ◌<◌, ◌+◌, ◌^◌, length};

use crate::maps::push_new;
use crate::scenario::Selection;
use crate::{body_calls, contexts, function_calls, insertions, no_memory, read_back, runs};
use std::alloc::{AllocError, Global};
use std::io;
use walrus_body::{
    AcceptAll, FunctionBody, IdsToIndices, IndexError, IndicesToIds, LocalFunction, OpCheck,
    ParseFailure, Space,
};
use walrus_ir::{
    AbstractHeapType, DataId, FunctionId, HeapType, InstrLocId, LocalId, Module, ModuleLocals,
    RefType, TypeId, ValType,
};
use walrus_run::demo;

/// The rows with a body that is accepted: its bytes, in hexadecimal. It has no declarations.
pub(crate) const ACCEPTED: [(&str, &str); 11] = [
    ("nop", "00010b"),
    ("const", "0041011a0b"),
    ("block", "0002400c000b0b"),
    ("if", "00410104400b0b"),
    ("delegate", "00064018000b"),
    ("catch", "0006400700190b0b"),
    ("try_table", "0002401f400102000b0b0b"),
    ("table", "00024041000e020001000b0b"),
    ("locals", "0020011a20031a0b"),
    ("names", "00fc0900d2001a20001a0b"),
    ("nested", "00024002400240024002400b0b0b0b0b0b"),
];

/// Those with a body that is refused.
pub(crate) const REFUSED: [(&str, &str); 3] = [
    ("label", "000f0c050b"),
    ("unread", "0041011a4180808080700b"),
    ("unended", "00024041011a0b"),
];

/// The arguments of the function.
pub(crate) fn arguments(alloc: Global) -> Result<Vec<LocalId>, AllocError> {
    Ok(vec![in alloc; LocalId::new(0)]?)
}

/// The bytes of these hexadecimal digits.
pub(crate) fn bytes_of(alloc: Global, digits: &str) -> io::Result<Vec<u8>> {
    match hex::decode(alloc, digits) {
        Ok(bytes) => Ok(bytes),
        Err(_) => Err(io::Error::from(io::ErrorKind::InvalidData)),
    }
}

/// The body with these bytes, which begin at place 100; of a late one the second begins at the
/// greatest place that can be a location, and the third after it. Its operators follow a byte that
/// counts the declarations.
pub(crate) fn body(bytes: &[u8], is_late: bool) -> FunctionBody<'_>
    ensures start { 90 ≤ result.start }
    ensures ops { result.ops ≤ length result.bytes.now }
    ensures fits { result.start + length result.bytes.now < 2 ^ 64 }
{
    let ops = 1.min(bytes.len());
    let start = if is_late { 4_294_967_293 } else { 100 };
    FunctionBody { bytes, start, ops }
}

/// What bodies are parsed and written with.
#[derive(Clone, Copy)]
pub(crate) struct Demo<'a> {
    /// The module, whose code begins at place 90.
    pub module: &'a Module,
    /// The ids of its old indices.
    pub indices: &'a IndicesToIds,
    /// The new indices of its ids.
    pub numbers: &'a IdsToIndices,
    /// The function that has the bodies.
    pub function: FunctionId,
    /// The type of this function.
    pub ty: TypeId,
    ghost begins: { «module».now.code_section_offset ≡ 90 },
}

impl<'a> Demo<'a> {
    /// The function 0 of this module, with these old indices and new ones.
    pub(crate) fn new(
        module: &'a Module,
        indices: &'a IndicesToIds,
        numbers: &'a IdsToIndices,
    ) -> Demo<'a>
        requires { «module».now.code_section_offset ≡ 90 }
    {
        Demo {
            module,
            indices,
            numbers,
            function: FunctionId::new(0),
            ty: TypeId::new(1),
        }
    }

    /// The function with these arguments that has the body with these bytes.
    pub(crate) fn parse<V: OpCheck>(
        &self,
        args: Vec<LocalId>,
        bytes: &[u8],
        validator: V,
    ) -> Result<LocalFunction, ParseFailure> {
        let mut instrs = Vec::new(*args.allocator());
        LocalFunction::parse(
            self.module,
            self.indices,
            self.function,
            self.ty,
            args,
            body(bytes, false),
            None::<&fn(&usize) -> InstrLocId>,
            validator,
            &mut instrs,
        )
    }

    /// The function that has the body with these bytes, in hexadecimal, which is accepted.
    pub(crate) fn accepted(&self, alloc: Global, digits: &str) -> io::Result<LocalFunction> {
        let bytes = bytes_of(alloc, digits)?;
        match self.parse(arguments(alloc)?, &bytes, AcceptAll) {
            Ok(function) => Ok(function),
            Err(_) => Err(io::Error::from(io::ErrorKind::InvalidData)),
        }
    }
}

/// How many locals the module has.
pub(crate) const LOCALS: usize = 16;

fn reference(nullable: bool, heap_type: HeapType) -> ValType {
    ValType::Ref(RefType {
        nullable,
        heap_type,
    })
}

/// The type of a local after the first four. The type 4 has no new index.
fn local_type(local: usize) -> ValType {
    let function = HeapType::Abstract(AbstractHeapType::Func);
    match local {
        4 => ValType::F64,
        5 | 14 => reference(true, function),
        6 => reference(false, function),
        7 => ValType::I32,
        8 => reference(true, HeapType::Abstract(AbstractHeapType::Extern)),
        9 => reference(true, HeapType::Concrete(TypeId::new(2))),
        10 => reference(true, HeapType::Concrete(TypeId::new(1))),
        11 => reference(false, HeapType::Concrete(TypeId::new(4))),
        12 => ValType::F32,
        13 => ValType::V128,
        _ => reference(false, HeapType::Concrete(TypeId::new(1))),
    }
}

/// Adds the locals after the demo module's four.
fn add_locals(locals: &mut ModuleLocals) -> Result<(), AllocError> {
    for local in 4..LOCALS {
        locals.add(local_type(local))?;
    }
    Ok(())
}

/// Gives old indices to a function and a data segment without new indices, and gives the function 0
/// its locals, of which the last isn't in the module.
fn push_others(indices: &mut IndicesToIds) -> Result<(), IndexError> {
    indices.push_func(FunctionId::new(12))?;
    indices.push_data(DataId::new(6))?;
    for local in 0..LOCALS {
        indices.push_local(FunctionId::new(0), LocalId::new(local))?;
    }
    indices.push_local(FunctionId::new(0), LocalId::new(99))?;
    Ok(())
}

/// The items that have new indices, in the order of these.
const NUMBERED: [(Space, usize); 13] = [
    (Space::Types, 0),
    (Space::Types, 2),
    (Space::Types, 1),
    (Space::Types, 3),
    (Space::Funcs, 1),
    (Space::Funcs, 0),
    (Space::Tables, 0),
    (Space::Globals, 0),
    (Space::Memories, 0),
    (Space::Elements, 0),
    (Space::Data, 0),
    (Space::Tags, 0),
    (Space::Tags, 1),
];

/// Gives the module's items their new indices.
pub(crate) fn number_items(numbers: &mut IdsToIndices) -> Result<(), IndexError> {
    for (space, id) in &NUMBERED {
        push_new(numbers, *space, *id)?;
    }
    Ok(())
}

/// Runs the scenarios over the demo module that are selected.
fn run_over(selection: Selection<'_>, demo: &Demo<'_>) -> io::Result<()> {
    contexts::run(selection, demo)?;
    body_calls::run(selection, demo)?;
    function_calls::run(selection, demo)?;
    runs::run(selection, demo)?;
    read_back::run(selection, demo)?;
    no_memory::run(selection, demo)?;
    insertions::run(selection, demo)
}

/// Makes the new indices of the module.
fn run_with_indices(
    selection: Selection<'_>,
    module: &Module,
    indices: &IndicesToIds,
) -> io::Result<()>
    requires { «module».now.code_section_offset ≡ 90 }
{
    let alloc = selection.alloc();
    let mut numbers = Box::new(alloc, IdsToIndices::new(alloc))?;
    match number_items(&mut numbers) {
        Ok(()) => run_over(selection, &Demo::new(module, indices, &numbers)),
        Err(_) => Err(io::Error::from(AllocError)),
    }
}

/// Adds to the old indices of the module's first items.
fn run_with_items(
    selection: Selection<'_>,
    module: &Module,
    indices: &mut IndicesToIds,
) -> io::Result<()>
    requires { «module».now.code_section_offset ≡ 90 }
{
    match push_others(indices) {
        Ok(()) => run_with_indices(selection, module, indices),
        Err(_) => Err(io::Error::from(AllocError)),
    }
}

/// Makes the ids of the module's old indices.
fn run_with_module(selection: Selection<'_>, module: &Module) -> io::Result<()>
    requires { «module».now.code_section_offset ≡ 90 }
{
    match demo::indices_of_items(selection.alloc()) {
        Ok(mut indices) => run_with_items(selection, module, &mut indices),
        Err(_) => Err(io::Error::from(AllocError)),
    }
}

/// Adds the other locals to the module, and says where its code begins.
fn run_with_locals(selection: Selection<'_>, module: &mut Module) -> io::Result<()> {
    add_locals(&mut module.locals)?;
    module.code_section_offset = 90;
    run_with_module(selection, module)
}

/// Runs the scenarios over the demo module that are selected.
pub(crate) fn run(selection: Selection<'_>) -> io::Result<()> {
    let mut module = demo::module(selection.alloc())?;
    run_with_locals(selection, &mut module)
}
