//! What is done to a module before it is written: items are added, imported and exported.
use crate::items::{Edit, make_edit};
use std::alloc::{AllocError, Global};
use walrus_body::LocalFunction;
use walrus_ir::{
    AbstractHeapType, Call, FunctionBuilder, FunctionId, GlobalId, HeapType, Instr, InstrLocId,
    InstrSeqType, LocalGet, LocalId, LocalSet, MemoryId, RefType, TableId, TagId, TypeId, ValType,
    Value,
};
use wasm_module::{Changes, ModuleError, ParsedModule};

/// An item of a module: a function by its id, or the first table, memory, global or tag.
#[derive(Clone, Copy)]
pub(crate) enum Item {
    Function(usize),
    Table,
    Memory,
    Global,
    Tag,
}

/// A type, or none.
#[derive(Clone, Copy)]
pub(crate) enum OneType {
    Nothing,
    I32,
    I64,
    /// References to functions, or null.
    Functions,
    /// References to the type with this index.
    References(usize),
}

/// What is done to a module.
#[derive(Clone, Copy)]
pub(crate) enum Step<'i> {
    /// A global with this value is added; and whether it can be changed.
    Global(Value, bool),
    /// This item is exported under this name.
    Export(Item, &'i str),
    /// A data segment at this address is added.
    Data(i32, &'i [u8]),
    /// A passive data segment is added.
    Passive(&'i [u8]),
    /// A function type with this parameter and this result, if it has them, is added.
    Type(OneType, OneType),
    /// A function `t.r` is imported, whose type has this id.
    Import(usize),
    /// A function of this type with so many arguments is added, whose locals have the types i32, i64
    /// and i32: call this function, local.get 0, local.set 2, local.get 2.
    Copies(usize, usize, usize),
    /// A function of this type with an argument is added: local.get 0.
    Passes(usize),
    /// A function of the type 1 with an argument is added: local.get 0, call this function.
    Calls(usize),
    /// A function of the type 1 with an argument is added, without sequences.
    Empty,
    /// The module is rewritten, which adds nothing, and may need types that it lacks.
    Rewritten,
    /// An item of a section is changed.
    Edit(Edit<'i>),
}

fn export(
    parsed: &ParsedModule<'_>,
    changes: &mut Changes,
    item: Item,
    name: &str,
) -> Result<(), ModuleError> {
    match item {
        Item::Function(id) => parsed.export_function(changes, name, FunctionId::new(id)),
        Item::Table => parsed.export_table(changes, name, TableId::new(0)),
        Item::Memory => parsed.export_memory(changes, name, MemoryId::new(0)),
        Item::Global => parsed.export_global(changes, name, GlobalId::new(0)),
        Item::Tag => parsed.export_tag(changes, name, TagId::new(0)),
    }
}

/// Lets a function begin with an instruction, if it has sequences.
pub(crate) fn put_first(function: &mut LocalFunction, instr: Instr) -> Result<(), AllocError> {
    if function.has_entry() {
        let entry = function.entry_block();
        let instrs = &mut function.block_mut(entry).instrs;
        instrs.insert(0, (instr, InstrLocId::default()))?;
    }
    Ok(())
}

fn put_call(function: &mut LocalFunction, callee: usize) -> Result<(), AllocError> {
    let func = FunctionId::new(callee);
    put_first(function, Instr::Call(Call { func }))
}

fn put_get(function: &mut LocalFunction, index: usize) -> Result<(), AllocError> {
    let local = LocalId::new(index);
    put_first(function, Instr::LocalGet(LocalGet { local }))
}

// Gives a function an empty sequence.
fn put_entry(function: &mut LocalFunction) -> Result<(), AllocError> {
    let builder = function.builder_mut();
    let entry = builder.alloc(InstrSeqType::Simple(None))?;
    builder.set_entry(entry);
    Ok(())
}

// Gives a function without sequences the instructions of a step, the last one first.
fn fill(function: &mut LocalFunction, step: Step<'_>) -> Result<(), AllocError> {
    match step {
        Step::Copies(_, _, callee) => {
            let local = LocalId::new(2);
            put_entry(function)?;
            put_get(function, 2)?;
            put_first(function, Instr::LocalSet(LocalSet { local }))?;
            put_get(function, 0)?;
            put_call(function, callee)
        }
        Step::Passes(_) => {
            put_entry(function)?;
            put_get(function, 0)
        }
        Step::Calls(callee) => {
            put_entry(function)?;
            put_call(function, callee)?;
            put_get(function, 0)
        }
        _ => Ok(()),
    }
}

// A function of this type with so many arguments, without sequences.
fn without_sequences(alloc: Global, ty: usize, args: usize) -> Result<LocalFunction, AllocError> {
    let mut ids = Vec::new(alloc);
    for index in 0..args {
        ids.push(LocalId::new(index))?;
    }
    let builder = FunctionBuilder::without_entry(alloc, TypeId::new(ty));
    Ok(LocalFunction::new(ids, builder))
}

// Fills a function without sequences, and adds it.
fn add_filled(
    parsed: &mut ParsedModule<'_>,
    changes: &mut Changes,
    function: &mut LocalFunction,
    step: Step<'_>,
) -> Result<FunctionId, ModuleError> {
    fill(function, step)?;
    let locals = [ValType::I32, ValType::I64, ValType::I32];
    parsed.add_function(changes, function, &locals)
}

// Adds the function of a step.
fn add_function(
    alloc: Global,
    parsed: &mut ParsedModule<'_>,
    changes: &mut Changes,
    step: Step<'_>,
) -> Result<FunctionId, ModuleError> {
    let (ty, args) = match step {
        Step::Copies(ty, args, _) => (ty, args),
        Step::Passes(ty) => (ty, 1),
        _ => (1, 1),
    };
    let mut function = without_sequences(alloc, ty, args)?;
    add_filled(parsed, changes, &mut function, step)
}

fn type_of(ty: OneType) -> Option<ValType> {
    let (nullable, heap_type) = match ty {
        OneType::Nothing => return None,
        OneType::I32 => return Some(ValType::I32),
        OneType::I64 => return Some(ValType::I64),
        OneType::Functions => (true, HeapType::Abstract(AbstractHeapType::Func)),
        OneType::References(index) => (false, HeapType::Concrete(TypeId::new(index))),
    };
    Some(ValType::Ref(RefType {
        nullable,
        heap_type,
    }))
}

// The result of a step that doesn't add a function.
fn done<T: Drop>(made: Result<T, ModuleError>) -> Result<FunctionId, ModuleError> {
    match made {
        Ok(_made) => Ok(FunctionId::new(0)),
        Err(error) => Err(error),
    }
}

// Does one step. The id is that of a function that was added or imported.
fn make(
    alloc: Global,
    parsed: &mut ParsedModule<'_>,
    changes: &mut Changes,
    step: &Step<'_>,
) -> Result<FunctionId, ModuleError> {
    match step {
        Step::Global(value, is_mutable) => {
            done(parsed.add_value_global(changes, *value, *is_mutable))
        }
        Step::Export(item, name) => done(export(parsed, changes, *item, name)),
        Step::Data(address, bytes) => done(parsed.add_data(changes, *address, bytes)),
        Step::Passive(bytes) => done(parsed.add_passive_data(changes, bytes)),
        Step::Type(param, returned) => {
            let (param, returned) = (type_of(*param), type_of(*returned));
            done(parsed.function_type(changes, param.as_slice(), returned.as_slice()))
        }
        Step::Edit(change) => done(make_edit(parsed, changes, *change)),
        Step::Import(ty) => parsed.import_function(changes, "t", "r", TypeId::new(*ty)),
        Step::Rewritten => match parsed.rewrite_all() {
            Ok(_rewritten) => Ok(FunctionId::new(0)),
            Err(error) => Err(error),
        },
        _ => add_function(alloc, parsed, changes, *step),
    }
}

/// Does all steps. The id is that of the function that was added or imported in the last one.
pub(crate) fn make_all(
    alloc: Global,
    parsed: &mut ParsedModule<'_>,
    changes: &mut Changes,
    steps: &[Step<'_>],
) -> Result<FunctionId, ModuleError> {
    let mut last = FunctionId::new(0);
    for step in steps {
        match make(alloc, parsed, changes, step) {
            Ok(id) => last = id,
            Err(error) => return Err(error),
        }
    }
    Ok(last)
}
