//! Instructions on tables.

use wasm_types::{ElementId, TableId};

/// `table.get`.
#[derive(Clone, Copy)]
pub struct TableGet {
    /// The table that is read.
    pub table: TableId,
}

/// `table.set`.
#[derive(Clone, Copy)]
pub struct TableSet {
    /// The table that is written.
    pub table: TableId,
}

/// `table.grow`.
#[derive(Clone, Copy)]
pub struct TableGrow {
    /// The table that grows.
    pub table: TableId,
}

/// `table.size`.
#[derive(Clone, Copy)]
pub struct TableSize {
    /// The table whose size is the result.
    pub table: TableId,
}

/// `table.fill`.
#[derive(Clone, Copy)]
pub struct TableFill {
    /// The table that is filled.
    pub table: TableId,
}

/// `table.init`: copies from an element segment.
#[derive(Clone, Copy)]
pub struct TableInit {
    /// The table that is copied to.
    pub table: TableId,
    /// The element segment that is copied from.
    pub elem: ElementId,
}

/// `elem.drop`.
#[derive(Clone, Copy)]
pub struct ElemDrop {
    /// The element segment that is dropped.
    pub elem: ElementId,
}

/// `table.copy`.
#[derive(Clone, Copy)]
pub struct TableCopy {
    /// The table that is copied from.
    pub src: TableId,
    /// The table that is copied to.
    pub dst: TableId,
}
