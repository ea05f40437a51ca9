//! The locals that live operators name.
ghost use Rattle.std.specs.Prelude.{◌≡◌, ◌==◌, ◌&&◌, ℕ, true, not, IfOk};
ghost use Rattle.std.specs.HashSet.{contains};
ghost use Rattle.walrus_ir.specs.Unfolding.{among};
ghost use Rattle.walrus_facts.specs.Marking.{is_marked};
ghost use Rattle.walrus_flat.specs.UsedMarks.{is_apart, AreIdsBelow};

use std::alloc::{AllocError, Global};
use walrus_facts::{is_marked, mark_below, unmark};
use walrus_ir::{IdHashSet, LocalId};

/// How many ids can be marked: as many as a function of a module has locals.
const MARKS: usize = 50_000;

/// How many locals a set may have to be lent to the next body.
const MOST_LENT: usize = 64;

/// The set of the last body, or another one where it may have much room: clearing a set takes time by
/// its room, so that one great body would make each small one after it slow.
fn lent_on(alloc: Global, last: IdHashSet<LocalId>) -> IdHashSet<LocalId> {
    if last.len() <= MOST_LENT {
        last
    } else {
        IdHashSet::new(alloc)
    }
}

/// The same locals in a set of its own.
fn set_of(alloc: Global, locals: &IdHashSet<LocalId>) -> Result<IdHashSet<LocalId>, AllocError>
    ensures { IfOk result (λ all. (x : ℕ)
        → contains (λ x y. x == y) all x ≡ contains (λ x y. x == y) locals.now x) }
{
    let mut all = IdHashSet::new(alloc);
    for id in locals {
        all.insert(*id)?;
    }
    Ok(all)
}

/// Takes away the marks of these ids.
fn clear_marks(marks: &mut Vec<bool>, ids: &[LocalId])
    ensures { (x : ℕ) → is_marked marks.new.items x
        ≡ (is_marked marks.old.items x && not (among x ids.now)) }
{
    let mut left = ids;
    'left: while let Some((id, following)) = left.split_first() {
        unmark(marks, id.index());
        left = following;
    }
}

/// Locals. Those with small ids have marks and are listed, so that they are found without hashing.
#[derive(Drop)]
pub(crate) struct UsedLocals {
    /// Those that have a mark, each once.
    pub listed: Vec<LocalId>,
    /// Whether a local is listed, by id.
    pub marks: Vec<bool>,
    /// The ids that are listed are below it.
    pub reach: usize,
    /// All others.
    pub others: IdHashSet<LocalId>,
    ghost are_listed: { (id : ℕ) → is_marked marks.items id ≡ among id listed.items },
    ghost apart: { is_apart listed.items ≡ true },
    ghost below: { AreIdsBelow reach listed.items },
}

impl UsedLocals {
    ghost use Rattle.std.specs.Prelude.{◌||◌, false};
    ghost use Rattle.walrus_flat.specs.UsedLocals.{has_local, is_used};

    /// No locals. This allocates nothing.
    pub fn new(alloc: Global) -> UsedLocals
        ensures { (x : ℕ) → is_used result x ≡ false }
    {
        UsedLocals {
            listed: Vec::new(alloc),
            marks: Vec::new(alloc),
            reach: 0,
            others: IdHashSet::new(alloc),
        }
    }

    /// No locals. They take the memory of these.
    pub fn cleared(self, alloc: Global) -> UsedLocals
        ensures { (x : ℕ) → is_used result x ≡ false }
    {
        let UsedLocals {
            mut listed,
            mut marks,
            others,
            ..
        } = self;
        clear_marks(&mut marks, &listed);
        listed.clear();
        let mut others = lent_on(alloc, others);
        others.clear();
        UsedLocals {
            listed,
            marks,
            reach: 0,
            others,
        }
    }

    /// Adds a local, and returns whether it did. If not, memory ran out, and it has the same locals.
    #[inline(always)]
    pub fn add(&mut self, local: LocalId) -> bool
        ensures done { result ≡ true → (x : ℕ)
            → is_used self.new x ≡ ((x == local) || is_used self.old x) }
        ensures unchanged { result ≡ false → (x : ℕ) → is_used self.new x ≡ is_used self.old x }
    {
        if is_marked(&self.marks, local.index()) {
            return true;
        }
        self.add_unmarked(local)
    }

    /// Adds a local that isn't listed, as `add`.
    #[inline(never)]
    fn add_unmarked(&mut self, local: LocalId) -> bool
        requires { is_marked self.old.marks.items local ≡ false }
        ensures done { result ≡ true → (x : ℕ)
            → is_used self.new x ≡ ((x == local) || is_used self.old x) }
        ensures unchanged { result ≡ false → (x : ℕ) → is_used self.new x ≡ is_used self.old x }
    {
        if self.listed.push(local).is_err() {
            return false;
        }
        if mark_below(&mut self.marks, local.index(), MARKS) {
            self.reach = self.reach.max(local.index() + 1);
            return true;
        }
        self.listed.pop();
        match self.others.insert(local) {
            Ok(_) => true,
            Err(_) => false,
        }
    }

    /// All of them in a set.
    pub fn all(&self, alloc: Global) -> Result<IdHashSet<LocalId>, AllocError>
        ensures { IfOk result (λ all. (x : ℕ) → has_local all x ≡ is_used self.now x) }
    {
        let mut all = set_of(alloc, &self.others)?;
        let mut left = self.listed.as_slice();
        'left: while let Some((id, following)) = left.split_first() {
            all.insert(*id)?;
            left = following;
        }
        Ok(all)
    }
}
