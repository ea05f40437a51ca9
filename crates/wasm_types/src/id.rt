//! Ids. In a contract, each is its number.
ghost use Rattle.std.specs.Prelude.{◌≡◌, ℕ};

use std::collections::{HashMap, HashSet};
use std::marker::{Model, PhantomData};

/// The number of an item of the kind `K` in its arena. The type doesn't distinguish the ids of
/// different arenas.
#[derive_where(Clone, Copy, Debug, PartialEq, Eq, PartialOrd, Ord, Hash)]
pub struct Id<K> {
    index: usize,
    kind: PhantomData<K>,
}

impl<K> Model for Id<K> {
    ghost Value = { ℕ };

    ghost view = { λ id. id.index };

    ghost inverse = { λ n. record { index = n; kind = record {} } };
}

impl<K> Id<K> {
    /// The id with this number.
    pub fn new(index: usize) -> Self
        ensures { result ≡ index }
    {
        Id {
            index,
            kind: PhantomData,
        }
    }

    /// The number, counted from 0.
    pub fn index(self) -> usize
        ensures { result ≡ self }
    {
        self.index
    }
}

/// The kinds of items that ids name. These types have no values; they keep ids of one kind from
/// being used as ids of another.
pub mod kind {
    /// Types of the module.
    pub enum Type {}

    /// Functions.
    pub enum Function {}

    /// Tables.
    pub enum Table {}

    /// Globals.
    pub enum Global {}

    /// Memories.
    pub enum Memory {}

    /// Element segments.
    pub enum Element {}

    /// Data segments.
    pub enum Data {}

    /// Tags.
    pub enum Tag {}

    /// Locals.
    pub enum Local {}

    /// Sequences of instructions of a function's builder.
    pub enum InstrSeq {}
}

/// The id of a type of the module.
pub type TypeId = Id<kind::Type>;
/// The id of a function of the module.
pub type FunctionId = Id<kind::Function>;
/// The id of a table of the module.
pub type TableId = Id<kind::Table>;
/// The id of a global of the module.
pub type GlobalId = Id<kind::Global>;
/// The id of a memory of the module.
pub type MemoryId = Id<kind::Memory>;
/// The id of an element segment of the module.
pub type ElementId = Id<kind::Element>;
/// The id of a data segment of the module.
pub type DataId = Id<kind::Data>;
/// The id of a tag of the module.
pub type TagId = Id<kind::Tag>;
/// The id of a local of the module; each function has its own locals.
pub type LocalId = Id<kind::Local>;
/// The id of a sequence of instructions: its slot in its builder.
pub type InstrSeqId = Id<kind::InstrSeq>;

/// A hash map from ids.
pub type IdHashMap<K, V> = HashMap<K, V>;
/// A hash set of ids.
pub type IdHashSet<K> = HashSet<K>;
