//! The labels of a `br_table`, borrowed from the input.

use std::fmt;
use std::marker::Model;
use wasm_numbers::{ReadFault, read_u32};

/// The labels of a `br_table`, borrowed from the input. In a contract, it is the list of labels and
/// the default.
#[derive(Clone, Drop)]
pub struct BrTable<'a> {
    len: u32,
    labels: &'a [u8],
    default: u32,
}

impl<'a> Model for BrTable<'a> {
    ghost use Rattle.wasm_operators.specs.Immediates.{Table};
    ghost use Rattle.wasm_operators.specs.Lists.{labels_of, AreLabels};

    ghost Value = { Table };

    ghost view = { λ t. (labels_of t.len t.labels.now, t.default) };

    ghost invariant = { λ t. AreLabels t.len t.labels.now };
}

/// An iterator over the labels of a table. In a contract, it is the list of the remaining ones.
#[derive(Drop)]
pub struct Targets<'a> {
    left: u32,
    labels: &'a [u8],
}

impl<'a> Model for Targets<'a> {
    ghost use Rattle.std.specs.Prelude.{ℕ, List};
    ghost use Rattle.wasm_operators.specs.Lists.{labels_of, AreLabels};

    ghost Value = { List ℕ };

    ghost view = { λ t. labels_of t.left t.labels.now };

    ghost invariant = { λ t. AreLabels t.left t.labels.now };
}

impl<'a> Iterator for Targets<'a> {
    ghost use Rattle.std.specs.Iterator.{YieldsFirst, item_count};

    type Item = u32;

    ghost next_gives = { YieldsFirst (λ s. s) };

    ghost remaining = { item_count (λ s. s) };

    fn next(&mut self) -> Option<u32> {
        if self.left == 0 {
            return None;
        }
        let Ok((label, rest)) = read_u32(self.labels) else {
            return None;
        };
        self.left -= 1;
        self.labels = rest;
        Some(label)
    }
}

impl<'a> BrTable<'a> {
    ghost use Rattle.std.specs.Prelude.{◌≡◌, length};

    /// A copy: the same labels.
    pub(crate) fn again(&self) -> BrTable<'a>
        ensures { result ≡ self.now }
    {
        BrTable {
            len: self.len,
            labels: self.labels,
            default: self.default,
        }
    }

    /// The number of labels, without the default.
    pub fn len(&self) -> u32
        ensures { result ≡ length self.now.0 }
    {
        self.len
    }

    /// The default label, as a depth: the target for every operand that is not below `len`.
    pub fn default(&self) -> u32
        ensures { result ≡ self.now.1 }
    {
        self.default
    }

    /// The labels, as depths, in order and without the default.
    pub fn targets(&self) -> Targets<'a>
        ensures { result ≡ self.now.0 }
    {
        Targets {
            left: self.len,
            labels: self.labels,
        }
    }
}

impl<'a> fmt::Debug for BrTable<'a> {
    fn fmt<W: fmt::Write>(&self, f: &mut fmt::Formatter<W>) -> fmt::Result {
        f.debug_struct("BrTable")
            .field("targets", &self.targets())
            .field("default", &self.default)
            .finish()
    }
}

/// Shows the remaining labels.
impl<'a> fmt::Debug for Targets<'a> {
    fn fmt<W: fmt::Write>(&self, f: &mut fmt::Formatter<W>) -> fmt::Result {
        let left = Targets {
            left: self.left,
            labels: self.labels,
        };
        f.debug_list().entries(left).finish()
    }
}

/// Equality of labels, not of their encodings.
impl<'a> PartialEq for BrTable<'a> {
    ghost use Rattle.std.specs.Prelude.{nat_eq, ◌&&◌};
    ghost use Rattle.std.specs.Ordering.{on};
    ghost use Rattle.std.specs.Cmp.Lexicographic.{pointwise};
    ghost use Rattle.std.specs.Cmp.Rules.{comparing};
    ghost use Rattle.std.proofs.Common.{rules};

    ghost eq = { λ a b. on (λ t. t.0) (pointwise nat_eq) a b && on (λ t. t.1) nat_eq a b };

    ghost laws = { Prim.search (comparing, rules) };

    fn eq(&self, other: &Self) -> bool {
        are_same(self.targets(), other.targets()) && self.default == other.default
    }
}

impl<'a> Eq for BrTable<'a> {
    ghost use Rattle.std.specs.Cmp.Rules.{comparing};
    ghost use Rattle.std.proofs.Common.{rules};

    ghost laws = { Prim.search (comparing, rules) };
}

ghost use Rattle.std.specs.Prelude.{◌≡◌, nat_eq};
ghost use Rattle.std.specs.Cmp.Lexicographic.{pointwise};
ghost use Rattle.wasm_numbers.specs.Reading.{many};
ghost use Rattle.wasm_numbers.specs.Numbers.{u32 as a_u32};
ghost use Rattle.wasm_operators.specs.Immediates.{label_table};
ghost use Rattle.wasm_operators.specs.Lists.{labels_of};
ghost use Rattle.wasm_numbers.specs.Results.{Gives};

/// Whether two lists of labels are the same.
fn are_same(mut a: Targets<'_>, mut b: Targets<'_>) -> bool
    ensures { result ≡ pointwise nat_eq a.entry b.entry }
{
    while let Some(x) = a.next() {
        let Some(y) = b.next() else {
            return false;
        };
        if x != y {
            return false;
        }
    }
    b.next().is_none()
}

/// Reads `count` labels, and returns the bytes that follow.
fn skip_labels(count: u32, bytes: &[u8]) -> Result<&[u8], ReadFault>
    ensures { Gives (λ rest. (labels_of count bytes.now, rest.now)) result
        (many a_u32 count bytes.now) }
{
    let mut rest = bytes;
    for _ in 0..count {
        let (_, after) = read_u32(rest)?;
        rest = after;
    }
    Ok(rest)
}

/// Reads the labels of a `br_table` at the front (WebAssembly core specification 3.0, binary
/// format, control instructions). Returns them and the bytes that follow. Allocates nothing.
///
/// # Errors
///
/// `BadNumber` or `Truncated`: the fault of the first number, from left to right, that can't be
/// read.
#[tactic(auto, unfolding(crate::specs::Immediates::label_table))]
pub fn read_table(bytes: &[u8]) -> Result<(BrTable<'_>, &[u8]), ReadFault>
    ensures { Gives (λ x. (x.0, x.1.now)) result (label_table bytes.now) }
{
    let (len, labels) = read_u32(bytes)?;
    let rest = skip_labels(len, labels)?;
    let (default, rest) = read_u32(rest)?;
    let table = BrTable {
        len,
        labels,
        default,
    };
    Ok((table, rest))
}
