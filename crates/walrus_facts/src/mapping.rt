//! A change of each instruction of a function, in its place.
ghost use Rattle.walrus_facts.specs.Mapping.{IsCalled, IsMapped, IsMappedSequence, IsMappedItem, EachChanges};

use walrus_ir::{FunctionBuilder, Instr, InstrLocId, InstrSeq, InstrSeqId};

/// Changes an instruction, which stays at its location.
fn map_at<F: FnMut(&mut Instr, InstrLocId)>(change: &mut F, located: &mut (Instr, InstrLocId))
    requires { F.IsAlwaysCallable change.old }
    ensures mapped { IsMappedItem (IsCalled F.step) change.old located.old located.new change.new }
    ensures callable { F.IsAlwaysCallable change.new }
{
    let location = located.1;
    change(&mut located.0, location);
}

/// Changes each of these instructions, in order.
fn map_list<F: FnMut(&mut Instr, InstrLocId)>(items: &mut [(Instr, InstrLocId)], change: &mut F)
    requires { F.IsAlwaysCallable change.old }
    ensures mapped { EachChanges (IsMappedItem (IsCalled F.step)) change.old items.old items.new
        change.new }
    ensures callable { F.IsAlwaysCallable change.new }
{
    for index in 0..items.len() {
        map_at(change, &mut items[index]);
    }
}

/// Changes each instruction of a sequence, in order.
fn map_sequence<F: FnMut(&mut Instr, InstrLocId)>(seq: &mut InstrSeq, change: &mut F)
    requires { F.IsAlwaysCallable change.old }
    ensures mapped { IsMappedSequence (IsCalled F.step) change.old seq.old seq.new change.new }
    ensures callable { F.IsAlwaysCallable change.new }
{
    map_list(&mut seq.instrs, change);
}

/// Changes each instruction of each sequence of a function, in its place: the sequences by their
/// slots, and the instructions of a sequence in their order. The closure is called once for each
/// instruction, also for those of sequences that can't be reached, and what it leaves is the new
/// instruction. Everything else stays: the sequences, with their ids, types and ends, the number of
/// instructions of each, and all locations. No memory is taken.
///
/// A change that names other sequences than before, as one of `br` or of `block`, may leave
/// sequences that are not a tree; then the function isn't written.
///
/// # Example
///
/// Another memory for each store:
///
/// ```text
/// map_instrs(function.builder_mut(), |instr: &mut Instr, _location: InstrLocId| {
///     if let Instr::Store(store) = instr {
///         store.memory = memory;
///     }
/// });
/// ```
pub fn map_instrs<F: FnMut(&mut Instr, InstrLocId)>(builder: &mut FunctionBuilder, mut change: F)
    requires { F.IsAlwaysCallable change }
    ensures { (last : F) × IsMapped (IsCalled F.step) change builder.old builder.new last }
{
    for slot in 0..builder.count() {
        map_sequence(builder.seq_mut(InstrSeqId::new(slot)), &mut change);
    }
}
