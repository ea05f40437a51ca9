//! A module whose ids aren't its old indices, and parsing the bodies of its functions.
ghost use Rattle.std.specs.Prelude.{◌≡◌, IfOk};

use crate::function_text::{Fault, push_parsed_function, push_sequence};
use crate::validators::RecordingCheck;
use std::alloc::{AllocError, Global};
use std::test::Fail;
use walrus_body::{
    AcceptAll, FunctionBody, IndexError, IndicesToIds, LocalFunction, OpCheck, ParseError,
    ParseFailure,
};
use walrus_ir::{
    DataId, ElementId, FunctionId, GlobalId, Instr, InstrLocId, MemoryId, Module, ModuleLocals,
    ModuleTags, ModuleTypes, TableId, TagId, TypeId, ValType,
};

/// A module and the ids of its old indices, in boxes: so a function that owns them is proved
/// faster.
#[derive(Drop)]
pub(crate) struct Example {
    /// The module.
    pub module: Box<Module>,
    /// The ids of its old indices.
    pub indices: Box<IndicesToIds>,
}

/// 0 has no parameters and results, 1 and 2 have an `i32` parameter and an `i32` result, 3 is not a
/// function type, 4 is the entry type without results, 5 has an `i64` parameter and an `f32`
/// result, and 6 is the entry type with two `i32` results.
pub(crate) fn types(alloc: Global) -> Result<ModuleTypes, AllocError> {
    let mut types = ModuleTypes::new(alloc);
    for id in 0..7 {
        add_type(&mut types, id)?;
    }
    Ok(types)
}

fn add_type(types: &mut ModuleTypes, id: usize) -> Result<TypeId, AllocError> {
    match id {
        0 => types.add_func(&[], &[]),
        1 | 2 => types.add_func(&[ValType::I32], &[ValType::I32]),
        3 => types.add_other(),
        4 => types.add_entry(&[]),
        5 => types.add_func(&[ValType::I64], &[ValType::F32]),
        _ => types.add_entry(&[ValType::I32, ValType::I32]),
    }
}

// Three tags, with the types 0, 3 and 1.
fn tags(alloc: Global) -> Result<ModuleTags, AllocError> {
    let mut tags = ModuleTags::new(alloc);
    for ty in [0, 3, 1] {
        tags.add(TypeId::new(ty))?;
    }
    Ok(tags)
}

// The old types 0 to 3 have the ids 0, 2, 3 and 6. Each other space has one or two ids, but there
// are four tags, the last of which isn't in the module.
fn push_ids(indices: &mut IndicesToIds) -> Result<(), IndexError> {
    for ty in [0, 2, 3, 6] {
        indices.push_type(TypeId::new(ty))?;
    }
    for number in [2, 1] {
        indices.push_func(FunctionId::new(number + 10))?;
        indices.push_table(TableId::new(number + 20))?;
        indices.push_data(DataId::new(number + 60))?;
    }
    indices.push_global(GlobalId::new(31))?;
    indices.push_memory(MemoryId::new(41))?;
    indices.push_element(ElementId::new(51))?;
    for tag in [0, 1, 2, 71] {
        indices.push_tag(TagId::new(tag))?;
    }
    Ok(())
}

// A module with these types.
fn with_types(
    alloc: Global,
    types: ModuleTypes,
    code_section_offset: usize,
) -> Result<Module, AllocError>
    ensures { IfOk result (λ m. m.code_section_offset ≡ code_section_offset) }
{
    match tags(alloc) {
        Ok(tags) => Ok(Module {
            types,
            tags,
            locals: ModuleLocals::new(alloc),
            code_section_offset,
        }),
        Err(error) => Err(error),
    }
}

fn module(alloc: Global, code_section_offset: usize) -> Result<Box<Module>, AllocError>
    ensures { IfOk result (λ m. m.value.code_section_offset ≡ code_section_offset) }
{
    let types = types(alloc)?;
    Ok(Box::new(alloc, with_types(alloc, types, code_section_offset)?)?)
}

impl Example {
    /// The module, whose code begins at this place.
    pub(crate) fn new(alloc: Global, code_section_offset: usize) -> Result<Example, IndexError>
        ensures { IfOk result (λ example.
            example.module.value.code_section_offset ≡ code_section_offset) }
    {
        let mut indices = Box::new(alloc, IndicesToIds::new(alloc))?;
        push_ids(&mut indices)?;
        match module(alloc, code_section_offset) {
            Ok(module) => Ok(Example { module, indices }),
            Err(_) => Err(IndexError::Memory),
        }
    }
}

/// Where a body is, and how it is parsed.
#[derive(Clone, Copy)]
pub(crate) struct Setting {
    /// The id of the function's type.
    pub ty: usize,
    /// The place where the module's code begins.
    pub offset: u32,
    /// The number of bytes between that place and the body.
    pub before: u32,
    /// The position of the first operator in the body.
    pub ops: usize,
    /// Whether there is a location function. It returns twice the place.
    pub located: bool,
}

impl Setting {
    /// Operators at the place 0, of a function without parameters and results.
    pub(crate) const PLAIN: Setting = Setting {
        ty: 0,
        offset: 0,
        before: 0,
        ops: 0,
        located: false,
    };
}

// Twice the place modulo 10^9, so that it fits.
fn doubled(place: usize) -> InstrLocId {
    InstrLocId::new((place % 1_000_000_000) as u32 * 2)
}

// Memory ran out, at no place.
const OUT_OF_MEMORY: ParseFailure = ParseFailure {
    error: ParseError::Memory,
    at: 0,
};

// Parses a function without arguments and with the caller's list. The body is hexadecimal text.
fn parse_in<V: OpCheck>(
    example: &Example,
    setting: Setting,
    body: &str,
    validator: V,
    instrs: &mut Vec<(Instr, InstrLocId)>,
) -> Result<LocalFunction, ParseFailure>
    requires { example.now.module.value.code_section_offset ≡ setting.offset }
{
    let alloc = *instrs.allocator();
    let Ok(bytes) = hex::decode(alloc, body) else {
        return Err(OUT_OF_MEMORY);
    };
    let body = FunctionBody {
        bytes: &bytes,
        start: setting.offset as usize + setting.before as usize,
        ops: setting.ops.min(bytes.len()),
    };
    let locate = |place: &usize| doubled(*place);
    LocalFunction::parse(
        &example.module,
        &example.indices,
        FunctionId::new(12),
        TypeId::new(setting.ty),
        Vec::new(alloc),
        body,
        if setting.located { Some(&locate) } else { None },
        validator,
        instrs,
    )
}

/// The same with the module of these tests.
pub(crate) fn parse_lent<V: OpCheck>(
    alloc: Global,
    setting: Setting,
    body: &str,
    validator: V,
    instrs: &mut Vec<(Instr, InstrLocId)>,
) -> Result<LocalFunction, ParseFailure> {
    match Example::new(alloc, setting.offset as usize) {
        Ok(example) => parse_in(&example, setting, body, validator, instrs),
        Err(_) => Err(OUT_OF_MEMORY),
    }
}

// Parses a function with a list of its own.
fn parse_by<V: OpCheck>(
    alloc: Global,
    setting: Setting,
    body: &str,
    validator: V,
) -> Result<LocalFunction, ParseFailure> {
    let mut instrs = Vec::new(alloc);
    parse_lent(alloc, setting, body, validator, &mut instrs)
}

/// Appends the result of a parse: the function, or the fault and its place.
pub(crate) fn push_parsed<V: OpCheck>(
    text: &mut String,
    setting: Setting,
    body: &str,
    validator: V,
) -> Result<(), Fail> {
    let pushed = match parse_by(*text.allocator(), setting, body, validator) {
        Ok(function) => push_parsed_function(text, &function),
        Err(failure) => write!(text, "{} at {}", Fault(failure.error), failure.at),
    };
    Ok(pushed?)
}

/// Appends the places at which a validator is called.
pub(crate) fn push_noted(text: &mut String, body: &str) -> Result<(), Fail> {
    let mut noted = Vec::new(*text.allocator());
    let recording = RecordingCheck { noted: &mut noted };
    let _ = parse_by(*text.allocator(), Setting::PLAIN, body, recording).is_ok();
    write!(text, "{noted:?}")?;
    Ok(())
}

// Appends the first sequence of a function.
fn push_first(text: &mut String, function: &LocalFunction) -> Result<(), Fail> {
    if function.has_entry() {
        push_sequence(text, function.block(function.entry_block()))?;
    }
    Ok(())
}

/// Appends the first sequence of the function with these operators.
pub(crate) fn push_entry(text: &mut String, body: &str) -> Result<(), Fail> {
    let function = parse_by(*text.allocator(), Setting::PLAIN, body, AcceptAll)?;
    push_first(text, &function)
}
