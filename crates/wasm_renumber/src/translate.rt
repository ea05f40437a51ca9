//! What each part of an operator becomes.

use wasm_operators::{BlockType, Space};

/// What each part of an operator becomes: `changes` is its meaning.
pub trait Translate {
    /// Why a part becomes nothing.
    type Fault;

    ghost use Rattle.std.specs.Prelude.{◌≡◌};
    ghost use Rattle.wasm_renumber.specs.Changes.{Changes};

    ghost changes: { Self → Changes Self.Fault };

    ghost memory: { Self.Fault };

    /// The number for an index.
    fn index(&self, space: Space, index: u32) -> Result<u32, Self::Fault>
        ensures { result ≡ (changes self.now).index space index };

    /// The number for the index of a local.
    fn local(&self, index: u32) -> Result<u32, Self::Fault>
        ensures { result ≡ (changes self.now).local index };

    /// The depth for a label.
    fn label(&self, depth: u32) -> Result<u32, Self::Fault>
        ensures { result ≡ (changes self.now).label depth };

    /// The depth for that of a `rethrow`.
    fn handler(&self, depth: u32) -> Result<u32, Self::Fault>
        ensures { result ≡ (changes self.now).handler depth };

    /// The depth for that of a `delegate`.
    fn outer(&self, depth: u32) -> Result<u32, Self::Fault>
        ensures { result ≡ (changes self.now).outer depth };

    /// The block type for one.
    fn block(&self, ty: BlockType) -> Result<BlockType, Self::Fault>
        ensures { result ≡ (changes self.now).block ty };

    /// Memory ran out.
    fn out_of_memory(&self) -> Self::Fault
        ensures { result ≡ memory };
}
