//! The demo module, in which the program parses and writes bodies, and its index maps.
ghost use Rattle.std.specs.Prelude.{◌≡◌, [], ◌∷◌, None, IfOk, IfErr, OnOk};
ghost use Rattle.std.specs.FinMap as map;
ghost use Rattle.wasm_body.specs.declared.error.IndexError.TheVariants.{Memory};
ghost use Rattle.wasm_operators.specs.declared.types.Space.{Space};
ghost use Rattle.wasm_operators.specs.declared.types.Space.TheVariants.{Tables, Types, Funcs, Globals, Memories, Elements, Data, Tags};
ghost use Rattle.walrus_maps.specs.IndexMaps.{no_ids, ids_in, with_ids_in, with_locals, numbers_in, with_numbers};
ghost use Rattle.walrus_maps.specs.Numbering.{pushed};
ghost use Rattle.walrus_numbering.specs.NumberMaps.{numbers_by};
ghost use Rattle.walrus_run.specs.Demo.{demo_module, demo_types, demo_tags, demo_locals, demo_items, demo_indices, demo_numbers};

use std::alloc::{AllocError, Global};
use walrus_body::{IdsToIndices, IndexError, IndicesToIds};
use walrus_ir::{
    DataId, ElementId, FunctionId, GlobalId, LocalId, MemoryId, Module, ModuleLocals, ModuleTags,
    ModuleTypes, TableId, TagId, TypeId, ValType,
};

/// Adds the types of the demo module to none: four function types and an entry type.
fn add_types(types: &mut ModuleTypes) -> Result<(), AllocError>
    requires { types.old ≡ [] }
    ensures { OnOk result (types.new ≡ demo_types) }
{
    types.add_func(&[], &[])?;
    types.add_func(&[ValType::I32], &[])?;
    types.add_func(&[ValType::I32, ValType::I32], &[ValType::I32])?;
    types.add_func(&[ValType::I32], &[])?;
    types.add_entry(&[])?;
    Ok(())
}

/// Adds its two tags to none.
fn add_tags(tags: &mut ModuleTags) -> Result<(), AllocError>
    requires { tags.old ≡ [] }
    ensures { OnOk result (tags.new ≡ demo_tags) }
{
    tags.add(TypeId::new(0))?;
    tags.add(TypeId::new(1))?;
    Ok(())
}

/// Adds the four locals of its function 0 to none.
fn add_locals(locals: &mut ModuleLocals) -> Result<(), AllocError>
    requires { locals.old ≡ [] }
    ensures { OnOk result (locals.new ≡ demo_locals) }
{
    locals.add(ValType::I32)?;
    locals.add(ValType::I64)?;
    locals.add(ValType::I64)?;
    locals.add(ValType::I64)?;
    Ok(())
}

/// Adds these to a module that has none of them.
fn add_items(demo: &mut Module) -> Result<(), AllocError>
    requires types { demo.old.types ≡ [] }
    requires tags { demo.old.tags ≡ [] }
    requires locals { demo.old.locals ≡ [] }
    requires place { demo.old.code_section_offset ≡ 0 }
    ensures { OnOk result (demo.new ≡ demo_module) }
{
    add_types(&mut demo.types)?;
    add_tags(&mut demo.tags)?;
    add_locals(&mut demo.locals)
}

/// The demo module: four function types and an entry type, two tags, and the four locals of its
/// function 0. Its code begins at place 0. (The module and its maps are in boxes, each of which is
/// dropped in one step: a function that owns one of them itself takes long to prove.)
///
/// # Errors
///
/// `AllocError` if memory runs out.
pub fn module(alloc: Global) -> Result<Box<Module>, AllocError>
    ensures { IfOk result (λ m. m.value ≡ demo_module) }
{
    let mut demo = Box::new(
        alloc,
        Module {
            types: ModuleTypes::new(alloc),
            tags: ModuleTags::new(alloc),
            locals: ModuleLocals::new(alloc),
            code_section_offset: 0,
        },
    )?;
    add_items(&mut demo)?;
    Ok(demo)
}

/// Gives old indices to the types of an index map without any.
fn push_types(indices: &mut IndicesToIds) -> Result<(), IndexError>
    requires { ids_in indices.old Types ≡ [] }
    ensures ok { OnOk result (indices.new ≡ with_ids_in Types (0 ∷ 1 ∷ 2 ∷ 3 ∷ []) indices.old) }
    ensures err { IfErr result (λ e. e ≡ Memory) }
{
    indices.push_type(TypeId::new(0))?;
    indices.push_type(TypeId::new(1))?;
    indices.push_type(TypeId::new(2))?;
    indices.push_type(TypeId::new(3))?;
    Ok(())
}

/// Gives old indices to the functions and tags of an index map without any.
fn push_funcs_and_tags(indices: &mut IndicesToIds) -> Result<(), IndexError>
    requires funcs { ids_in indices.old Funcs ≡ [] }
    requires tags { ids_in indices.old Tags ≡ [] }
    ensures ok { OnOk result (indices.new ≡ with_ids_in Tags (0 ∷ 1 ∷ [])
        (with_ids_in Funcs (0 ∷ 1 ∷ []) indices.old)) }
    ensures err { IfErr result (λ e. e ≡ Memory) }
{
    indices.push_func(FunctionId::new(0))?;
    indices.push_func(FunctionId::new(1))?;
    indices.push_tag(TagId::new(0))?;
    indices.push_tag(TagId::new(1))?;
    Ok(())
}

/// Gives the index 0 to a table, a memory, a global, a data segment and an element segment.
fn push_storage(indices: &mut IndicesToIds) -> Result<(), IndexError>
    requires tables { ids_in indices.old Tables ≡ [] }
    requires memories { ids_in indices.old Memories ≡ [] }
    requires globals { ids_in indices.old Globals ≡ [] }
    requires data_segments { ids_in indices.old Data ≡ [] }
    requires elements { ids_in indices.old Elements ≡ [] }
    ensures ok { OnOk result (indices.new ≡ with_ids_in Elements (0 ∷ [])
        (with_ids_in Data (0 ∷ []) (with_ids_in Globals (0 ∷ [])
        (with_ids_in Memories (0 ∷ []) (with_ids_in Tables (0 ∷ []) indices.old))))) }
    ensures err { IfErr result (λ e. e ≡ Memory) }
{
    indices.push_table(TableId::new(0))?;
    indices.push_memory(MemoryId::new(0))?;
    indices.push_global(GlobalId::new(0))?;
    indices.push_data(DataId::new(0))?;
    indices.push_element(ElementId::new(0))?;
    Ok(())
}

/// Gives old indices to the locals of function 0, which has none.
#[tactic(auto, using(crate::proofs::DemoMaps::local_maps))]
fn push_locals(indices: &mut IndicesToIds) -> Result<(), IndexError>
    requires { map.get indices.old.locals 0 ≡ None }
    ensures ok { OnOk result (indices.new ≡ with_locals 0 (0 ∷ 1 ∷ 2 ∷ 3 ∷ []) indices.old) }
    ensures err { IfErr result (λ e. e ≡ Memory) }
{
    let function = FunctionId::new(0);
    indices.push_local(function, LocalId::new(0))?;
    indices.push_local(function, LocalId::new(1))?;
    indices.push_local(function, LocalId::new(2))?;
    indices.push_local(function, LocalId::new(3))?;
    Ok(())
}

/// Gives old indices to the module's items in an index map without any.
fn push_items(indices: &mut IndicesToIds) -> Result<(), IndexError>
    requires { indices.old ≡ no_ids }
    ensures ok { OnOk result (indices.new ≡ demo_items) }
    ensures err { IfErr result (λ e. e ≡ Memory) }
{
    push_types(indices)?;
    push_funcs_and_tags(indices)?;
    push_storage(indices)
}

/// The ids of the old indices of the module's items: each id is its own old index. Locals have
/// none.
///
/// # Errors
///
/// `Memory` if memory runs out.
pub fn indices_of_items(alloc: Global) -> Result<Box<IndicesToIds>, IndexError>
    ensures ok { IfOk result (λ m. m.value ≡ demo_items) }
    ensures err { IfErr result (λ e. e ≡ Memory) }
{
    let mut indices = Box::new(alloc, IndicesToIds::new(alloc))?;
    push_items(&mut indices)?;
    Ok(indices)
}

/// The same, and the old indices of the module's locals, which are those of its function 0.
///
/// # Errors
///
/// `Memory` if memory runs out.
#[tactic(auto, using(crate::proofs::DemoMaps::local_maps))]
pub fn indices(alloc: Global) -> Result<Box<IndicesToIds>, IndexError>
    ensures ok { IfOk result (λ m. m.value ≡ demo_indices) }
    ensures err { IfErr result (λ e. e ≡ Memory) }
{
    let mut indices = indices_of_items(alloc)?;
    push_locals(&mut indices)?;
    Ok(indices)
}

/// Gives new indices to the types of a map without any.
#[tactic(auto, using(crate::proofs::DemoMaps::numbering))]
fn number_types(numbers: &mut IdsToIndices) -> Result<(), IndexError>
    requires { numbers_in numbers.old Types ≡ map.empty }
    ensures ok { OnOk result (numbers.new ≡ pushed Types (0 ∷ 1 ∷ 2 ∷ 3 ∷ []) numbers.old) }
    ensures err { IfErr result (λ e. e ≡ Memory) }
{
    numbers.push_type(TypeId::new(0))?;
    numbers.push_type(TypeId::new(1))?;
    numbers.push_type(TypeId::new(2))?;
    numbers.push_type(TypeId::new(3))?;
    Ok(())
}

/// Gives new indices to the functions and tags of a map without any.
#[tactic(auto, using(crate::proofs::DemoMaps::numbering))]
fn number_funcs_and_tags(numbers: &mut IdsToIndices) -> Result<(), IndexError>
    requires funcs { numbers_in numbers.old Funcs ≡ map.empty }
    requires tags { numbers_in numbers.old Tags ≡ map.empty }
    ensures ok { OnOk result (numbers.new
        ≡ pushed Tags (0 ∷ 1 ∷ []) (pushed Funcs (0 ∷ 1 ∷ []) numbers.old)) }
    ensures err { IfErr result (λ e. e ≡ Memory) }
{
    numbers.push_func(FunctionId::new(0))?;
    numbers.push_func(FunctionId::new(1))?;
    numbers.push_tag(TagId::new(0))?;
    numbers.push_tag(TagId::new(1))?;
    Ok(())
}

/// Gives the new index 0 to a table, a memory, a global, a data segment and an element segment.
#[tactic(auto, using(crate::proofs::DemoMaps::numbering))]
fn number_storage(numbers: &mut IdsToIndices) -> Result<(), IndexError>
    requires tables { numbers_in numbers.old Tables ≡ map.empty }
    requires memories { numbers_in numbers.old Memories ≡ map.empty }
    requires globals { numbers_in numbers.old Globals ≡ map.empty }
    requires elements { numbers_in numbers.old Elements ≡ map.empty }
    ensures ok { OnOk result (numbers.new
        ≡ with_numbers Data (map.insert (numbers_in numbers.old Data) 0 0)
        (pushed Elements (0 ∷ []) (pushed Globals (0 ∷ [])
        (pushed Memories (0 ∷ []) (pushed Tables (0 ∷ []) numbers.old))))) }
    ensures err { IfErr result (λ e. e ≡ Memory) }
{
    numbers.push_table(TableId::new(0))?;
    numbers.push_memory(MemoryId::new(0))?;
    numbers.push_global(GlobalId::new(0))?;
    numbers.push_element(ElementId::new(0))?;
    numbers.set_data_index(DataId::new(0), 0)?;
    Ok(())
}

/// Gives new indices to the module's items in a map without any.
fn number_items(numbers: &mut IdsToIndices) -> Result<(), IndexError>
    requires { (space : Space) → numbers_in numbers.old space ≡ map.empty }
    ensures ok { OnOk result (numbers_by demo_types numbers.new [] ≡ demo_numbers) }
    ensures err { IfErr result (λ e. e ≡ Memory) }
{
    number_types(numbers)?;
    number_funcs_and_tags(numbers)?;
    number_storage(numbers)?;
    Ok(())
}

/// The new indices of the module's items, which are the old ones.
///
/// # Errors
///
/// `Memory` if memory runs out.
pub fn numbers(alloc: Global) -> Result<Box<IdsToIndices>, IndexError>
    ensures ok { IfOk result (λ m. numbers_by demo_types m.value [] ≡ demo_numbers) }
    ensures err { IfErr result (λ e. e ≡ Memory) }
{
    let mut numbers = Box::new(alloc, IdsToIndices::new(alloc))?;
    number_items(&mut numbers)?;
    Ok(numbers)
}
