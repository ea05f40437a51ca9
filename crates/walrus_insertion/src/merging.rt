//! The instructions of a sequence, with what is inserted between them.
ghost use Rattle.std.specs.Prelude.{◌≡◌, ◌+◌, ◌≤◌, ◌++◌, length, OnOk, OnErr, IsTrue, ◌↔◌, vec_len, vec_capacity};
ghost use Rattle.std.specs.Vec.Iter.{into_iter_items};
ghost use Rattle.walrus_insertion.specs.Edits.{appended_by, left_by, edited};

use crate::probe::Edit;
use std::alloc::{AllocError, Global};
use std::mem;
use std::vec::IntoIter;
use walrus_ir::{Instr, InstrLocId, InstrSeq};

/// Takes a step.
fn take_step(
    edit: Edit,
    old: &mut IntoIter<(Instr, InstrLocId)>,
    made: &mut Vec<(Instr, InstrLocId)>,
)
    requires { vec_len made.old + length (appended_by edit (into_iter_items old.old))
        ≤ vec_capacity made.old }
    ensures items { made.new.items ≡ made.old.items ++ appended_by edit (into_iter_items old.old) }
    ensures left { into_iter_items old.new ≡ left_by edit (into_iter_items old.old) }
    ensures len { vec_len made.new
        ≡ vec_len made.old + length (appended_by edit (into_iter_items old.old)) }
    ensures room { vec_capacity made.old ≤ vec_capacity made.new }
{
    let next = match edit {
        Edit::Keep => old.next(),
        Edit::Insert(plain) => Some((plain.instr(), InstrLocId::default())),
    };
    if let Some(located) = next {
        made.push_reserved(located);
    }
}

/// Appends the instructions that these steps make of the old ones, for which there is room.
fn append(old: Vec<(Instr, InstrLocId)>, edits: &[Edit], made: &mut Vec<(Instr, InstrLocId)>)
    requires { vec_len made.old + length (edited edits.now old.items) ≤ vec_capacity made.old }
    ensures { made.new.items ≡ made.old.items ++ edited edits.now old.items }
{
    let mut rest = old.into_iter();
    let mut left = edits;
    'edits: while let Some((edit, following)) = left.split_first() {
        take_step(*edit, &mut rest, made);
        left = following;
    }
    'rest: while let Some(located) = rest.next() {
        made.push_reserved(located);
    }
}

/// Changes a sequence by these steps. There is room for the steps by which instructions stay, too,
/// until the list is made.
///
/// # Errors
///
/// Out of memory; the sequence is unchanged.
#[tactic(auto, using(crate::proofs::Editing::edited_fits))]
pub fn merge(alloc: Global, seq: &mut InstrSeq, edits: &[Edit]) -> Result<(), AllocError>
    ensures ok { OnOk result
        (seq.new ≡ record seq.old { instrs = edited edits.now seq.old.instrs }) }
    ensures err { OnErr result (seq.new ≡ seq.old) }
{
    let mut made = Vec::with_capacity(alloc, seq.instrs.len() + edits.len())?;
    let old = mem::replace(&mut seq.instrs, Vec::new(alloc));
    append(old, edits, &mut made);
    made.shrink_to_fit();
    seq.instrs = made;
    Ok(())
}
