//! Index maps, to which ids are added.
ghost use Rattle.std.specs.Prelude.{◌≡◌};
ghost use Rattle.walrus_maps.specs.IndexMaps.{number_of};

use crate::scenario::{Scenario, Selection};
use crate::text::{Text, push_error};
use std::alloc::{AllocError, Global};
use std::io;
use walrus_body::{IdsToIndices, IndexError, IndicesToIds, Space};
use walrus_ir::{
    DataId, ElementId, FunctionId, GlobalId, LocalId, MemoryId, TableId, TagId, TypeId,
};

/// Which call is made.
#[derive(Clone, Copy)]
pub(crate) enum Kind {
    /// An id gets the next old index.
    Old(Space),
    OldLocal,
    /// An id gets a new index.
    New(Space),
}

/// Both maps, and the number of the id that is added next.
#[derive(Drop)]
pub(crate) struct Maps {
    indices: IndicesToIds,
    numbers: IdsToIndices,
    next: usize,
    kind: Kind,
}

/// Gives an id the next old index.
pub(crate) fn push_old(
    indices: &mut IndicesToIds,
    space: Space,
    id: usize,
) -> Result<u32, IndexError> {
    match space {
        Space::Tables => indices.push_table(TableId::new(id)),
        Space::Types => indices.push_type(TypeId::new(id)),
        Space::Funcs => indices.push_func(FunctionId::new(id)),
        Space::Globals => indices.push_global(GlobalId::new(id)),
        Space::Memories => indices.push_memory(MemoryId::new(id)),
        Space::Elements => indices.push_element(ElementId::new(id)),
        Space::Data => indices.push_data(DataId::new(id)),
        Space::Tags => indices.push_tag(TagId::new(id)),
    }
}

/// The number of the id with this old index.
pub(crate) fn id_of(indices: &IndicesToIds, space: Space, index: u32) -> Result<usize, IndexError> {
    let id = match space {
        Space::Tables => indices.get_table(index)?.index(),
        Space::Types => indices.get_type(index)?.index(),
        Space::Funcs => indices.get_func(index)?.index(),
        Space::Globals => indices.get_global(index)?.index(),
        Space::Memories => indices.get_memory(index)?.index(),
        Space::Elements => indices.get_element(index)?.index(),
        Space::Data => indices.get_data(index)?.index(),
        Space::Tags => indices.get_tag(index)?.index(),
    };
    Ok(id)
}

/// The new index of an id.
pub(crate) fn new_index(numbers: &IdsToIndices, space: Space, id: usize) -> Result<u32, IndexError>
    ensures { result ≡ number_of numbers.now space id }
{
    match space {
        Space::Tables => numbers.get_table_index(TableId::new(id)),
        Space::Types => numbers.get_type_index(TypeId::new(id)),
        Space::Funcs => numbers.get_func_index(FunctionId::new(id)),
        Space::Globals => numbers.get_global_index(GlobalId::new(id)),
        Space::Memories => numbers.get_memory_index(MemoryId::new(id)),
        Space::Elements => numbers.get_element_index(ElementId::new(id)),
        Space::Data => numbers.get_data_index(DataId::new(id)),
        Space::Tags => numbers.get_tag_index(TagId::new(id)),
    }
}

/// Gives an id the next new index, and a data segment 7. It does nothing where the id has one.
pub(crate) fn push_new(
    numbers: &mut IdsToIndices,
    space: Space,
    id: usize,
) -> Result<(), IndexError> {
    if new_index(numbers, space, id).is_ok() {
        return Ok(());
    }
    match space {
        Space::Tables => numbers.push_table(TableId::new(id)),
        Space::Types => numbers.push_type(TypeId::new(id)),
        Space::Funcs => numbers.push_func(FunctionId::new(id)),
        Space::Globals => numbers.push_global(GlobalId::new(id)),
        Space::Memories => numbers.push_memory(MemoryId::new(id)),
        Space::Elements => numbers.push_element(ElementId::new(id)),
        Space::Data => numbers.set_data_index(DataId::new(id), 7),
        Space::Tags => numbers.push_tag(TagId::new(id)),
    }
}

impl Maps {
    /// Both without an id, to which ids are added from this one on.
    pub(crate) fn new(alloc: Global, kind: Kind, first: usize) -> Maps {
        Maps {
            indices: IndicesToIds::new(alloc),
            numbers: IdsToIndices::new(alloc),
            next: first,
            kind,
        }
    }

    /// Adds an id, and returns the old index that it got.
    fn add(&mut self) -> Result<Option<u32>, IndexError> {
        let id = self.next;
        let function = FunctionId::new(0);
        match self.kind {
            Kind::Old(space) => Ok(Some(push_old(&mut self.indices, space, id)?)),
            Kind::OldLocal => Ok(Some(self.indices.push_local(function, LocalId::new(id))?)),
            Kind::New(space) => {
                push_new(&mut self.numbers, space, id)?;
                Ok(None)
            }
        }
    }
}

/// The index spaces.
const SPACES: [Space; 8] = [
    Space::Tables,
    Space::Types,
    Space::Funcs,
    Space::Globals,
    Space::Memories,
    Space::Elements,
    Space::Data,
    Space::Tags,
];

/// How many indices are looked up in each space.
const SHOWN: u32 = 12;

/// Appends the ids of old indices, and those of the locals of two functions.
pub(crate) fn push_ids(text: &mut Text, indices: &IndicesToIds) {
    for space in &SPACES {
        for index in 0..SHOWN {
            if let Ok(id) = id_of(indices, *space, index) {
                write!(text, " {space}{index}={id}");
            }
        }
    }
    for index in 0..SHOWN {
        for (name, function) in &[("local", 0), ("other", 3)] {
            if let Ok(id) = indices.get_local(FunctionId::new(*function), index) {
                write!(text, " {name}{index}={}", id.index());
            }
        }
    }
}

/// Appends new indices.
pub(crate) fn push_new_indices(text: &mut Text, numbers: &IdsToIndices) {
    for space in &SPACES {
        for id in 0..SHOWN as usize {
            if let Ok(index) = new_index(numbers, *space, id) {
                write!(text, " {space}{id}:{index}");
            }
        }
    }
}

/// Appends the texts of faults: of an index without an id in each space and among the locals of a
/// function, and of a function without locals.
pub(crate) fn push_index_faults(text: &mut Text, indices: &IndicesToIds) {
    for space in &SPACES {
        if let Err(error) = id_of(indices, *space, 5) {
            write!(text, "; {error}");
        }
    }
    for (function, index) in &[(3, 5), (2, 0)] {
        if let Err(error) = indices.get_local(FunctionId::new(*function), *index) {
            write!(text, "; {error}");
        }
    }
}

/// Appends the text of the fault of an id without a new index in each space.
pub(crate) fn push_id_faults(text: &mut Text, numbers: &IdsToIndices) {
    for space in &SPACES {
        if let Err(error) = new_index(numbers, *space, 99) {
            write!(text, "; {error}");
        }
    }
}

/// An id in each space.
const IDS: [(Space, usize); 8] = [
    (Space::Tables, 3),
    (Space::Types, 4),
    (Space::Funcs, 5),
    (Space::Globals, 6),
    (Space::Memories, 7),
    (Space::Elements, 8),
    (Space::Data, 9),
    (Space::Tags, 10),
];

/// Gives two types, an id in each space, and two locals of the function 3 the next old indices.
pub(crate) fn push_each(indices: &mut IndicesToIds) -> Result<(), IndexError> {
    for (space, id) in &[(Space::Types, 2), (Space::Types, 0)] {
        push_old(indices, *space, *id)?;
    }
    for (space, id) in &IDS {
        push_old(indices, *space, *id)?;
    }
    for local in &[7, 4] {
        indices.push_local(FunctionId::new(3), LocalId::new(*local))?;
    }
    Ok(())
}

/// Gives new indices to an id in each space, to two more functions, and to a data segment whose new
/// index is replaced.
pub(crate) fn number_each(numbers: &mut IdsToIndices) -> Result<(), IndexError> {
    for (space, id) in &IDS {
        push_new(numbers, *space, *id)?;
    }
    for id in &[2, 1] {
        push_new(numbers, Space::Funcs, *id)?;
    }
    for index in &[9, 4] {
        numbers.set_data_index(DataId::new(1), *index)?;
    }
    Ok(())
}

impl Scenario for Maps {
    fn call(&mut self, returned: &mut Text) -> Result<(), AllocError> {
        match self.add() {
            Ok(index) => {
                self.next = self.next.saturating_add(1);
                write!(returned, " {index:?}");
            }
            Err(error) => return push_error(returned, &error, &IndexError::Memory),
        }
        Ok(())
    }

    fn show(&self, text: &mut Text) {
        push_ids(text, &self.indices);
        push_new_indices(text, &self.numbers);
    }
}

/// The calls, and how many ids a full map has: a list of ids has room for four first, and a table of
/// numbers for eight in the end.
const CALLS: [(&str, Kind, usize); 17] = [
    ("IndicesToIds::push_table", Kind::Old(Space::Tables), 4),
    ("IndicesToIds::push_type", Kind::Old(Space::Types), 4),
    ("IndicesToIds::push_func", Kind::Old(Space::Funcs), 4),
    ("IndicesToIds::push_global", Kind::Old(Space::Globals), 4),
    ("IndicesToIds::push_memory", Kind::Old(Space::Memories), 4),
    ("IndicesToIds::push_element", Kind::Old(Space::Elements), 4),
    ("IndicesToIds::push_data", Kind::Old(Space::Data), 4),
    ("IndicesToIds::push_tag", Kind::Old(Space::Tags), 4),
    ("IndicesToIds::push_local", Kind::OldLocal, 4),
    ("IdsToIndices::push_table", Kind::New(Space::Tables), 8),
    ("IdsToIndices::push_type", Kind::New(Space::Types), 8),
    ("IdsToIndices::push_func", Kind::New(Space::Funcs), 8),
    ("IdsToIndices::push_global", Kind::New(Space::Globals), 8),
    ("IdsToIndices::push_memory", Kind::New(Space::Memories), 8),
    ("IdsToIndices::push_element", Kind::New(Space::Elements), 8),
    ("IdsToIndices::set_data_index", Kind::New(Space::Data), 8),
    ("IdsToIndices::push_tag", Kind::New(Space::Tags), 8),
];

/// How many ids a full hashed map has. Numbers are hashed where the first of them isn't that of id 0.
const HASHED: usize = 9;

/// Adds an id to maps with so many, from this one on.
fn run_one(
    selection: Selection<'_>,
    call: &str,
    kind: Kind,
    row: &str,
    first: usize,
    count: usize,
) -> io::Result<()> {
    let alloc = selection.alloc();
    let mut maps = Box::new(alloc, Maps::new(alloc, kind, first))?;
    selection.run_after(count, call, row, &mut *maps)
}

/// Runs the scenarios of these calls that are selected.
pub(crate) fn run(selection: Selection<'_>) -> io::Result<()> {
    for (call, kind, full) in &CALLS {
        run_one(selection, call, *kind, "empty", 0, 0)?;
        run_one(selection, call, *kind, "full", 0, *full)?;
        if let Kind::New(_) = kind {
            run_one(selection, call, *kind, "hashed", 1, HASHED)?;
        }
    }
    Ok(())
}
