//! Whether active segments are within their tables and memories when a module is instantiated.

ghost use Rattle.std.specs.Prelude.{◌≡◌, ℕ, List, true, option_map, Some, Ok, IfOk};
ghost use Rattle.module_removal.specs.CopiedParts.{item_at};
ghost use Rattle.module_removal.specs.Gathered.{target_of, element_target, data_target, defined_target, item_of_active};

use crate::parts::done;
use std::alloc::Global;
use wasm_ops::{Operator, Reader, Space};
use wasm_sections::{Input, ModuleError};

/// How many bytes a page of a memory has (WebAssembly core specification 3.0, execution, memory instances).
const PAGE: u64 = 0x1_0000;

/// The least sizes of tables and memories: how many elements or bytes they have at the start. An imported one has None,
/// since what is written to it is seen outside of the module.
#[derive(Drop)]
pub(crate) struct LeastSizes {
    tables: Vec<Option<u64>>,
    memories: Vec<Option<u64>>,
}

/// An active segment: its table or memory, where it begins there, if that is a constant, and how much it has.
#[derive(Clone, Copy)]
pub(crate) struct Active {
    pub space: Space,
    pub index: u32,
    pub offset: Option<u64>,
    pub len: u64,
}

/// The value of a constant expression that is a single constant, which isn't negative.
fn constant_value(expression: &[u8]) -> Option<u64> {
    let mut reader = Reader::new(expression, 0);
    let value = match reader.read() {
        Ok(Operator::I32Const { value }) => i64::from(value),
        Ok(Operator::I64Const { value }) => value,
        _ => return None,
    };
    // The `end` is left.
    match reader.bytes_remaining() {
        1 => u64::try_from(value).ok(),
        _ => None,
    }
}

/// The offset of an active segment.
fn offset(input: &mut Input<'_>) -> Result<Option<u64>, ModuleError> {
    match input.constant() {
        Ok(expression) => Ok(constant_value(expression)),
        Err(error) => Err(error),
    }
}

/// The index of the table or memory of an active segment: the next number, or 0 if it has none.
fn target(has_index: bool, space: Space, input: &mut Input<'_>) -> Result<u32, ModuleError>
    ensures same_end { input.new.end ≡ input.old.end }
    ensures is { IfOk result (λ index. target_of space true has_index input.old.end input.old.rest.now
        ≡ Ok (Some (item_at space index), input.new.rest.now)) }
{
    if has_index { input.number() } else { Ok(0) }
}

/// The active element segment at the front; None if it isn't active.
fn active_elements(mut input: Input<'_>) -> Result<Option<Active>, ModuleError>
    ensures { IfOk result (λ active. (following : List ℕ)
        × (element_target input.entry.end input.entry.rest.now ≡ Ok (option_map item_of_active active, following))) }
{
    let flags = done!(input.number());
    if flags % 2 != 0 {
        return Ok(None);
    }
    let index = done!(target(flags % 4 == 2, Space::Tables, &mut input));
    let offset = done!(offset(&mut input));
    done!(input.element_type(flags));
    let len = u64::from(done!(input.number()));
    Ok(Some(Active {
        space: Space::Tables,
        index,
        offset,
        len,
    }))
}

/// The active data segment at the front; None if it isn't active.
fn active_data(mut input: Input<'_>) -> Result<Option<Active>, ModuleError>
    ensures { IfOk result (λ active. (following : List ℕ)
        × (data_target input.entry.end input.entry.rest.now ≡ Ok (option_map item_of_active active, following))) }
{
    let flags = done!(input.number());
    if flags == 1 {
        return Ok(None);
    }
    let index = done!(target(flags == 2, Space::Memories, &mut input));
    let offset = done!(offset(&mut input));
    let len = u64::from(done!(input.number()));
    Ok(Some(Active {
        space: Space::Memories,
        index,
        offset,
        len,
    }))
}

/// The active segment at the front, which is an item of this space; None if it isn't one.
pub(crate) fn active_of(space: Space, input: Input<'_>) -> Result<Option<Active>, ModuleError>
    ensures { IfOk result (λ active. (following : List ℕ)
        × (defined_target space input.entry.end input.entry.rest.now ≡ Ok (option_map item_of_active active, following))) }
{
    match space {
        Space::Elements => active_elements(input),
        Space::Data => active_data(input),
        _ => Ok(None),
    }
}

impl LeastSizes {
    /// None yet. This allocates nothing.
    pub fn new(alloc: Global) -> LeastSizes {
        LeastSizes {
            tables: Vec::new(alloc),
            memories: Vec::new(alloc),
        }
    }

    /// Adds an imported table or memory; nothing for what is in another space.
    pub fn add_imported(&mut self, space: Space) -> Result<(), ModuleError> {
        match space {
            Space::Tables => self.tables.push(None)?,
            Space::Memories => self.memories.push(None)?,
            _ => {}
        }
        Ok(())
    }

    /// Adds the item of this space at the front; nothing for what is in another space than tables and memories.
    pub fn add_defined(&mut self, space: Space, input: Input<'_>) -> Result<(), ModuleError> {
        match space {
            Space::Tables => self.add_table(input),
            Space::Memories => self.add_memory(input),
            _ => Ok(()),
        }
    }

    /// Adds the table at the front.
    fn add_table(&mut self, mut input: Input<'_>) -> Result<(), ModuleError> {
        let table = done!(input.table());
        self.tables.push(Some(table.ty.limits.min))?;
        Ok(())
    }

    /// Adds the memory at the front.
    fn add_memory(&mut self, mut input: Input<'_>) -> Result<(), ModuleError> {
        let limits = done!(input.limits());
        self.memories.push(Some(limits.min.saturating_mul(PAGE)))?;
        Ok(())
    }

    /// Whether the segment is surely written within a table or memory of the module's own, so that it matters only to
    /// what reads that.
    pub fn has(&self, active: &Active) -> bool {
        let sizes = match active.space {
            Space::Tables => &self.tables,
            _ => &self.memories,
        };
        let size = sizes.get(active.index as usize).copied();
        match (size, active.offset) {
            (Some(Some(size)), Some(offset)) => offset.saturating_add(active.len) <= size,
            _ => false,
        }
    }
}
