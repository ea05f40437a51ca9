//! `wloops`: lets a module count the turns of each of its loops.
//!
//! It is run as `examples wloops IN.wasm >OUT.wasm`. The loops are numbered over the whole module, from 0 on,
//! in the order of the bodies and then of the `loop` operators. Each gets a global of type i64, which
//! is exported as `loop_0`, `loop_1` and so on, and to which it adds 1 before all else that it does.
ghost use Rattle.wasm_module.specs.RewrittenCode.{keeps_locals};
ghost use Rattle.inserted_code.specs.InsertedCode.{Inserts};

use module_items::{NewExport, export_all};
use module_tools::Tool;
use std::alloc::{AllocError, Global};
use walrus_body::LocalFunction;
use walrus_facts::{Listener, Listening};
use walrus_insertion::{Place, Probe, insert};
use walrus_ir::{
    BlockKind, FunctionId, GlobalId, IdHashSet, Instr, InstrLocId, InstrSeqId, ModuleLocals, Value,
    dfs_in_order,
};
use wasm_body::Space;
use wasm_module::{ChangeFunction, Changes, ModuleError, ModuleFault, ParsedModule};

/// The sequences inside of loops, in the order of the `loop` operators.
#[derive(Drop)]
struct LoopBodies(Vec<InstrSeqId>);

impl Listener for LoopBodies {
    type Fault = ModuleError;

    fn visit_instr(&mut self, instr: &Instr, _loc: &InstrLocId) -> Result<(), ModuleError> {
        if let Instr::Loop(found) = instr {
            self.0.push(found.seq)?;
        }
        Ok(())
    }
}

/// Those of a function.
fn loop_bodies(function: &LocalFunction) -> Result<Vec<InstrSeqId>, ModuleError> {
    let builder = function.builder();
    let mut loops = Listening(LoopBodies(Vec::new(builder.allocator())));
    if let Some(entry) = builder.entry() {
        dfs_in_order(&mut loops, builder, entry)?;
    }
    Ok(loops.0.0)
}

/// Adds 1 to a global of type i64.
fn push_count(probe: &mut Probe, counter: GlobalId) -> Result<(), AllocError> {
    probe.global_get(counter)?;
    probe.i64_const(1)?;
    probe.i64_add()?;
    probe.global_set(counter)
}

/// Lets each loop count its turns. Functions are changed in order, each once, so that the next loop
/// has the next counter, whose id this is.
#[derive(Drop)]
pub(crate) struct CountTurns(usize);

impl ChangeFunction for CountTurns {
    ghost State = { Unit {0} };

    ghost state = { λ _. tt };

    // Instructions are inserted, so what is written is that of `law_inserted_code`.
    ghost changes = { λ _ _. keeps_locals (λ _ old new. Inserts old new) };

    fn change(
        &mut self,
        _index: usize,
        function: &mut LocalFunction,
        _locals: &mut ModuleLocals,
    ) -> Result<(), ModuleError> {
        let mut next = self.0;
        insert(
            function.builder_mut(),
            |place: &Place<'_>, probe: &mut Probe| {
                if !place.is_start() || !matches!(place.kind, BlockKind::Loop) {
                    return Ok(());
                }
                let counter = GlobalId::new(next);
                next = next.saturating_add(1);
                push_count(probe, counter)
            },
        )?;
        self.0 = next;
        Ok(())
    }
}

/// The exports of globals with indices from the first one on, under these names.
fn counter_exports(
    alloc: Global,
    names: &[String],
    first: usize,
) -> Result<Vec<NewExport<'_>>, ModuleError> {
    let mut exports = Vec::new(alloc);
    for (number, name) in names.iter().enumerate() {
        let Ok(index) = u32::try_from(first.saturating_add(number)) else {
            return Err(ModuleError {
                fault: ModuleFault::TooGreat,
                at: 0,
            });
        };
        exports.push(NewExport {
            name: name.as_str(),
            space: Space::Globals,
            index,
        })?;
    }
    Ok(exports)
}

/// Why these exports can't be added, with the place of the export of the source that has a name of theirs, which `export` returns.
fn placed_error(
    parsed: &ParsedModule<'_>,
    changes: &mut Changes,
    exports: &[NewExport<'_>],
    error: ModuleError,
) -> ModuleError {
    for export in exports {
        match parsed.export(changes, export.name, export.space, export.index as usize) {
            Ok(()) => {}
            Err(placed) => return placed,
        }
    }
    error
}

/// Counts the turns of loops.
#[derive(Clone, Copy)]
pub(crate) struct Counting;

impl Tool for Counting {
    type Change = CountTurns;

    fn changes(
        &self,
        alloc: Global,
        parsed: &mut ParsedModule<'_>,
        _functions: IdHashSet<FunctionId>,
    ) -> Result<(Option<CountTurns>, Changes), ModuleError> {
        let mut count: usize = 0;
        parsed.for_each_function(|_index: usize, function: &LocalFunction| {
            count = count.saturating_add(loop_bodies(function)?.len());
            Ok(())
        })?;
        let (mut changes, mut first) = (Changes::new(alloc), 0);
        let mut names: Vec<String> = Vec::new(alloc);
        for number in 0..count {
            let global = parsed.add_value_global(&mut changes, Value::I64(0), true)?;
            // They have the next indices, one after the other.
            first = global.index().saturating_sub(number);
            names.push(format!(in alloc; "loop_{number}")?)?;
        }
        let exports = counter_exports(alloc, &names, first)?;
        match export_all(parsed, &mut changes, &exports) {
            Ok(()) => {}
            Err(error) => return Err(placed_error(parsed, &mut changes, &exports, error)),
        }
        Ok((Some(CountTurns(first)), changes))
    }
}
