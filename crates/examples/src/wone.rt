//! `wone`: one body, with a module and index maps of one's own.
//!
//! It is run as `examples wone HEX`, where HEX is the operators of a body in hexadecimal, with the last `end`:
//! of a function that takes an i32 and returns one, and may call a helper of the same type. It lets
//! the body first call a hook, which is imported, so that it comes before the others. It prints the
//! new body with its declarations of locals, and then each operator's new place and its old one.
ghost use Rattle.std.specs.Prelude.{◌≡◌};
ghost use Rattle.walrus_body.specs.LocalFunctions.{HasEntry};
ghost use Rattle.walrus_rewrite.specs.RewrittenBodies.{PlacesRise};

use anyhow::{Context, Result};
use std::alloc::Global;
use std::env;
use walrus_body::{AcceptAll, FunctionBody, IdsToIndices, IndexError, IndicesToIds, LocalFunction};
use walrus_ir::{
    Call, FunctionId, IdHashSet, Instr, InstrLocId, LocalId, Module, ModuleLocals, ModuleTags,
    ModuleTypes, TypeId, ValType,
};
use walrus_rewrite::{begin_body, locate};

/// The ids of the functions. The first two have the same old indices, and the hook has none.
const HELPER: usize = 0;

const BODY: usize = 1;

const HOOK: usize = 2;

/// Pushes ids in the order of their new indices. Those of locals are found when a body is written.
fn push_new(indices: &mut IdsToIndices) -> Result<(), IndexError> {
    for function in [HOOK, HELPER, BODY] {
        let id = FunctionId::new(function);
        if indices.get_func_index(id).is_err() {
            indices.push_func(id)?;
        }
    }
    Ok(())
}

/// Parses the body. The location of an operator is its place, since no function says otherwise.
fn parse(alloc: Global, module: &Module, bytes: &[u8]) -> Result<LocalFunction>
    requires { «module».now.code_section_offset ≡ 0 }
{
    let (id, ty, arg) = (FunctionId::new(BODY), TypeId::new(0), LocalId::new(0));
    let mut ids = Box::new(alloc, IndicesToIds::new(alloc))?;
    ids.push_func(FunctionId::new(HELPER))?;
    ids.push_func(id)?;
    ids.push_local(id, arg)?;
    let (args, instrs) = (Vec::from_slice(alloc, &[arg])?, &mut Vec::new(alloc));
    let (start, ops, place) = (0, 0, None::<&fn(&usize) -> InstrLocId>);
    let body = FunctionBody { bytes, start, ops };
    let made = LocalFunction::parse(module, &ids, id, ty, args, body, place, AcceptAll, instrs)?;
    Ok(made)
}

/// Prints a body and the old place of each of its operators.
fn print(rt: &(impl Print + AllocGlobal), raw: &[u8], pairs: &[(InstrLocId, usize)]) -> Result<()>
    requires { PlacesRise pairs.now }
{
    println!(rt; "{}", hex::encode(rt.alloc(), raw)?)?;
    for place in 0..raw.len() {
        match locate(pairs, place) {
            Some(old) if old.is_default() => println!(rt; "{place} added")?,
            Some(old) => println!(rt; "{place} from {}", old.data())?,
            None => {}
        }
    }
    Ok(())
}

/// Writes a function by the new indices, and prints it. Besides the parameter it has no locals.
#[tactic(auto, using(crate::proofs::Places::places_rise))]
fn write(rt: &(impl Print + AllocGlobal), module: &Module, function: &LocalFunction) -> Result<()>
    requires { HasEntry function.now.builder }
{
    let mut indices = Box::new(rt.alloc(), IdsToIndices::new(rt.alloc()))?;
    push_new(&mut indices)?;
    let (declared, mut pairs) = (IdHashSet::new(rt.alloc()), Vec::new(rt.alloc()));
    let (mut encoder, numbers) = begin_body(rt.alloc(), function, &declared, module, &indices)?;
    let map = Some(&mut pairs);
    function.emit_instructions(&module.types, &indices, &numbers, &mut encoder, map)?;
    print(rt, encoder.bytes(), &pairs)
}

/// Describes the module of a body, changes the body, and prints it.
fn change_body(rt: &(impl Print + AllocGlobal), module: &mut Module, bytes: &[u8]) -> Result<()>
    requires { «module».old.code_section_offset ≡ 0 }
{
    // The type of the function, its entry type, and its parameter.
    module.types.add_func(&[ValType::I32], &[ValType::I32])?;
    module.types.add_entry(&[ValType::I32])?;
    module.locals.add(ValType::I32)?;
    let mut function = parse(rt.alloc(), module, bytes)?;
    if function.has_entry() {
        let entry = function.entry_block();
        let func = FunctionId::new(HOOK);
        // No operator of the source is the call, so it has the default location.
        let call = (Instr::Call(Call { func }), InstrLocId::default());
        function.block_mut(entry).instrs.insert(0, call)?;
    }
    if function.has_entry() {
        write(rt, module, &function)?;
    }
    Ok(())
}

/// Changes the body that the word after the tool's name contains. In a program of its own it is `main`.
pub(crate) fn change(rt: &HostRuntime) -> Result<()> {
    let alloc = rt.alloc();
    let word = env::args(rt)?.nth(2).context("usage: wone HEX")?;
    let bytes = hex::decode(alloc, word.as_str())?;
    let mut module = Module {
        types: ModuleTypes::new(alloc),
        tags: ModuleTags::new(alloc),
        locals: ModuleLocals::new(alloc),
        code_section_offset: 0,
    };
    change_body(rt, &mut module, &bytes)
}
