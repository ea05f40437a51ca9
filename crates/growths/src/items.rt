//! Parts of a module and of a function, to which items are added.

use crate::scenario::{Scenario, Selection};
use crate::text::{Text, push_numbers};
use std::alloc::{AllocError, Global};
use std::io;
use walrus_ir::{
    FunctionBuilder, InstrSeqType, LocalId, ModuleLocals, ModuleTags, ModuleTypes, TagId, TypeId,
    ValType,
};

/// What is added.
#[derive(Clone, Copy)]
pub(crate) enum Item {
    Func,
    Entry,
    Other,
    Tag,
    Local,
    Locals,
    Sequence,
}

#[derive(Drop)]
pub(crate) struct Items {
    types: ModuleTypes,
    tags: ModuleTags,
    locals: ModuleLocals,
    builder: FunctionBuilder,
    item: Item,
}

/// How many items are shown.
const SHOWN: usize = 12;

impl Items {
    /// No items.
    pub(crate) fn new(alloc: Global, item: Item) -> Items {
        Items {
            types: ModuleTypes::new(alloc),
            tags: ModuleTags::new(alloc),
            locals: ModuleLocals::new(alloc),
            builder: FunctionBuilder::without_entry(alloc, TypeId::new(0)),
            item,
        }
    }

    /// Adds an item, and returns its number. `Locals` are two, of which the first is meant.
    fn add(&mut self) -> Result<usize, AllocError> {
        let number = match self.item {
            Item::Func => self
                .types
                .add_func(&[ValType::I64], &[ValType::F32])?
                .index(),
            Item::Entry => self.types.add_entry(&[ValType::F64])?.index(),
            Item::Other => self.types.add_other()?.index(),
            Item::Tag => self.tags.add(TypeId::new(7))?.index(),
            Item::Local => self.locals.add(ValType::V128)?.index(),
            Item::Locals => self.locals.add_run(ValType::F32, 2)?.index(),
            Item::Sequence => self.builder.alloc(InstrSeqType::Simple(None))?.index(),
        };
        Ok(number)
    }
}

fn push_types(text: &mut Text, types: &ModuleTypes) {
    for id in 0..SHOWN {
        let id = TypeId::new(id);
        if types.is_func(id) {
            let (params, results) = types.params_results(id);
            write!(text, " {params:?}{results:?}");
        }
    }
}

impl Scenario for Items {
    fn call(&mut self, returned: &mut Text) -> Result<(), AllocError> {
        push_numbers(returned, &[self.add()?]);
        Ok(())
    }

    fn show(&self, text: &mut Text) {
        push_types(text, &self.types);
        for id in 0..SHOWN {
            if let Some(ty) = self.tags.get(TagId::new(id)) {
                write!(text, " tag{}", ty.index());
            }
            if let Some(ty) = self.locals.get(LocalId::new(id)) {
                write!(text, " {ty:?}");
            }
        }
        push_numbers(text, &[self.builder.count()]);
    }
}

const CALLS: [(&str, Item); 7] = [
    ("ModuleTypes::add_func", Item::Func),
    ("ModuleTypes::add_entry", Item::Entry),
    ("ModuleTypes::add_other", Item::Other),
    ("ModuleTags::add", Item::Tag),
    ("ModuleLocals::add", Item::Local),
    ("ModuleLocals::add_run", Item::Locals),
    ("FunctionBuilder::alloc", Item::Sequence),
];

/// Adds an item to so many.
fn run_one(
    selection: Selection<'_>,
    call: &str,
    item: Item,
    row: &str,
    count: usize,
) -> io::Result<()> {
    let alloc = selection.alloc();
    let mut items = Box::new(alloc, Items::new(alloc, item))?;
    selection.run_after(count, call, row, &mut *items)
}

/// Runs the scenarios of these calls that are selected. A list has room for four items first.
pub(crate) fn run(selection: Selection<'_>) -> io::Result<()> {
    for (call, item) in &CALLS {
        run_one(selection, call, *item, "empty", 0)?;
        run_one(selection, call, *item, "full", 4)?;
    }
    Ok(())
}
