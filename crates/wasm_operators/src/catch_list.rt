//! The clauses of a `try_table`, borrowed from the input.

use crate::types::RawCatch;
use std::fmt;
use std::marker::Model;
use wasm_numbers::{ReadFault, read_byte, read_u32};

/// The clauses of a `try_table`, borrowed from the input. In a contract, they are a list.
#[derive(Clone, Drop)]
pub struct CatchList<'a> {
    len: u32,
    clauses: &'a [u8],
}

impl<'a> Model for CatchList<'a> {
    ghost use Rattle.std.specs.Prelude.{ℕ, List};
    ghost use Rattle.wasm_operators.specs.Operations.{CatchClause};
    ghost use Rattle.wasm_operators.specs.Lists.{clauses_of, HoldClauses};

    ghost Value = { List (CatchClause ℕ) };

    ghost view = { λ t. clauses_of t.len t.clauses.now };

    ghost invariant = { λ t. HoldClauses t.len t.clauses.now };
}

/// An iterator over clauses. In a contract, it is the list of the remaining ones.
#[derive(Drop)]
pub struct Catches<'a> {
    left: u32,
    clauses: &'a [u8],
}

impl<'a> Model for Catches<'a> {
    ghost use Rattle.std.specs.Prelude.{ℕ, List};
    ghost use Rattle.wasm_operators.specs.Operations.{CatchClause};
    ghost use Rattle.wasm_operators.specs.Lists.{clauses_of, HoldClauses};

    ghost Value = { List (CatchClause ℕ) };

    ghost view = { λ t. clauses_of t.left t.clauses.now };

    ghost invariant = { λ t. HoldClauses t.left t.clauses.now };
}

ghost use Rattle.std.specs.Prelude.{◌≡◌};
ghost use Rattle.std.specs.Cmp.Lexicographic.{pointwise};
ghost use Rattle.wasm_numbers.specs.Reading.{many};
ghost use Rattle.wasm_operators.specs.Immediates.{clause, catch_clauses};
ghost use Rattle.wasm_operators.specs.Lists.{clauses_of, clause_of, clause_eq};
ghost use Rattle.wasm_numbers.specs.Results.{Gives};

/// Reads a clause at the front: whether it passes a reference to the exception, its tag and its
/// label. Returns them and the bytes that follow.
fn read_clause(bytes: &[u8]) -> Result<((bool, Option<u32>, u32), &[u8]), ReadFault>
    ensures { Gives (λ x. (clause_of x.0, x.1.now)) result (clause bytes.now) }
{
    let (kind, rest) = read_byte(bytes)?;
    if kind > 3 {
        return Err(ReadFault::BadCatchKind);
    }
    let by_reference = kind == 1 || kind == 3;
    if kind < 2 {
        let (tag, rest) = read_u32(rest)?;
        let (label, rest) = read_u32(rest)?;
        Ok(((by_reference, Some(tag), label), rest))
    } else {
        let (label, rest) = read_u32(rest)?;
        Ok(((by_reference, None, label), rest))
    }
}

impl<'a> Iterator for Catches<'a> {
    ghost use Rattle.std.specs.Iterator.{YieldsFirst, item_count};

    type Item = RawCatch;

    ghost next_gives = { YieldsFirst (λ s. s) };

    ghost remaining = { item_count (λ s. s) };

    fn next(&mut self) -> Option<RawCatch> {
        if self.left == 0 {
            return None;
        }
        let Ok(((by_reference, tag, label), rest)) = read_clause(self.clauses) else {
            return None;
        };
        self.left -= 1;
        self.clauses = rest;
        Some(RawCatch {
            by_reference,
            tag,
            label,
        })
    }
}

impl<'a> CatchList<'a> {
    ghost use Rattle.std.specs.Prelude.{◌≡◌, length};

    /// A copy: the same clauses.
    pub(crate) fn again(&self) -> CatchList<'a>
        ensures { result ≡ self.now }
    {
        CatchList {
            len: self.len,
            clauses: self.clauses,
        }
    }

    /// The number of clauses.
    pub fn len(&self) -> u32
        ensures { result ≡ length self.now }
    {
        self.len
    }

    /// The clauses in order.
    pub fn iter(&self) -> Catches<'a>
        ensures { result ≡ self.now }
    {
        Catches {
            left: self.len,
            clauses: self.clauses,
        }
    }
}

impl<'a> fmt::Debug for CatchList<'a> {
    fn fmt<W: fmt::Write>(&self, f: &mut fmt::Formatter<W>) -> fmt::Result {
        f.debug_list().entries(self.iter()).finish()
    }
}

/// Equality of clauses, not of their encodings.
impl<'a> PartialEq for CatchList<'a> {
    ghost use Rattle.std.specs.Cmp.Lexicographic.{pointwise};
    ghost use Rattle.wasm_operators.specs.Lists.{clause_eq, clauses_per};

    ghost eq = { pointwise clause_eq };

    ghost laws = { clauses_per };

    fn eq(&self, other: &Self) -> bool {
        are_same(self.iter(), other.iter())
    }
}

impl<'a> Eq for CatchList<'a> {
    ghost use Rattle.wasm_operators.specs.Lists.{clauses_equiv};

    ghost laws = { clauses_equiv };
}

/// Whether two lists of clauses are the same.
fn are_same(mut a: Catches<'_>, mut b: Catches<'_>) -> bool
    ensures { result ≡ pointwise clause_eq a.entry b.entry }
{
    while let Some(x) = a.next() {
        let Some(y) = b.next() else {
            return false;
        };
        if x != y {
            return false;
        }
    }
    b.next().is_none()
}

/// Reads `count` clauses, and returns the bytes that follow.
fn skip_clauses(count: u32, bytes: &[u8]) -> Result<&[u8], ReadFault>
    ensures { Gives (λ rest. (clauses_of count bytes.now, rest.now)) result
        (many clause count bytes.now) }
{
    let mut rest = bytes;
    for _ in 0..count {
        let (_, after) = read_clause(rest)?;
        rest = after;
    }
    Ok(rest)
}

/// Reads the clauses of a `try_table` at the front (WebAssembly core specification 3.0, binary
/// format, control instructions). Returns them and the bytes that follow. Allocates nothing.
///
/// # Errors
///
/// The fault of the first part, from left to right, that can't be read: `BadNumber`, `BadCatchKind`
/// or `Truncated`.
#[tactic(auto, unfolding(crate::specs::Immediates::catch_clauses))]
pub fn read_clauses(bytes: &[u8]) -> Result<(CatchList<'_>, &[u8]), ReadFault>
    ensures { Gives (λ x. (x.0, x.1.now)) result (catch_clauses bytes.now) }
{
    let (len, clauses) = read_u32(bytes)?;
    let rest = skip_clauses(len, clauses)?;
    Ok((CatchList { len, clauses }, rest))
}
