//! Functions that are written as entries of the code section.

use crate::bodies::number_items;
use crate::scenario::{Scenario, Selection};
use crate::text::{Text, push_bytes, push_error, push_numbers, push_pairs};
use std::alloc::AllocError;
use std::io;
use walrus_body::{Emit, EmitContext, EmitError, IdsToIndices, LocalFunction};
use walrus_ir::{IdHashMap, InstrLocId, Module};
use walrus_run::CodeEntry;

/// A function, and the context that it is written into.
#[derive(Drop)]
struct Entry<'a> {
    context: EmitContext<'a>,
    function: &'a LocalFunction,
}

impl Scenario for Entry<'_> {
    fn call(&mut self, returned: &mut Text) -> Result<(), AllocError> {
        let func = self.function;
        match (CodeEntry { func }).emit(&mut self.context) {
            Ok(()) => Ok(()),
            Err(error) => push_error(returned, &error, &EmitError::Memory),
        }
    }

    fn show(&self, text: &mut Text) {
        push_numbers(text, &[self.context.func_facts.len()]);
        push_bytes(text, &self.context.bytes);
        push_pairs(text, &self.context.code_transform);
    }
}

/// Writes a function after two bytes and a pair of something else.
fn run_with<'a>(
    selection: Selection<'_>,
    module: &'a Module,
    function: &'a LocalFunction,
    indices: &'a mut IdsToIndices,
    call: &str,
    row: &str,
) -> io::Result<()> {
    let alloc = selection.alloc();
    let bytes = vec![in alloc; 0xaa, 0xbb]?;
    let code_transform = vec![in alloc; (InstrLocId::new(9), 9)]?;
    let context = EmitContext {
        module,
        indices,
        bytes,
        func_facts: IdHashMap::new(alloc),
        code_transform,
    };
    let mut entry = Entry { context, function };
    selection.run(call, row, &mut entry)
}

/// Runs the scenario of this name on a function, if it is selected.
pub(crate) fn run(
    selection: Selection<'_>,
    module: &Module,
    function: &LocalFunction,
    call: &str,
    row: &str,
) -> io::Result<()> {
    let alloc = selection.alloc();
    let mut indices = Box::new(alloc, IdsToIndices::new(alloc))?;
    match number_items(&mut indices) {
        Ok(()) => run_with(selection, module, function, &mut indices, call, row),
        Err(_) => Err(io::Error::from(AllocError)),
    }
}
