//! Walks without a visitor of one's own: something done with each instruction, a change of each
//! instruction, and a listener.
use crate::by_hand::example;
use std::process::Abort;
use std::test::Fail;
use walrus_facts::{Listener, Listening, VisitInstr, for_each_instr, map_instrs};
use walrus_ir::{
    FunctionBuilder, Instr, InstrLocId, InstrSeq, InstrSeqId, Value, WalkError, dfs_in_order,
};

/// The locations of constants, each below 16, as the hexadecimal digits of a number, and their sum.
#[derive(Drop)]
struct Constants {
    locations: u64,
    sum: i32,
}

impl VisitInstr for Constants {
    fn visit(&mut self, instr: &Instr, location: InstrLocId) {
        if let Instr::Const(constant) = instr
            && let Value::I32(value) = constant.value
        {
            self.locations = self.locations.wrapping_mul(16) | u64::from(location.data());
            self.sum = self.sum.wrapping_add(value);
        }
    }
}

fn visited(builder: &FunctionBuilder, start: usize) -> Result<(u64, i32), WalkError> {
    let none = Constants {
        locations: 0,
        sum: 0,
    };
    match for_each_instr(builder, InstrSeqId::new(start), none) {
        Ok(visited) => Ok((visited.locations, visited.sum)),
        Err(error) => Err(error),
    }
}

/// Constants are visited in the order of the walk, from a sequence on; and none if there is no such
/// sequence. The sequence 7 isn't reached from the first.
#[test]
fn visits_each_instruction(rt: HostRuntime) -> Result<(), Fail> {
    let builder = example(rt.alloc())?;
    for (start, returned) in [
        (0, Ok((0x12_3456_789a, 55))),
        (1, Ok((0x2345, 14))),
        (7, Ok((0xb, 11))),
        (9, Err(WalkError::UnknownSequence)),
    ] {
        assert_eq!(rt; visited(&builder, start), returned);
    }
    Ok(())
}

/// Each constant becomes 7, also in the sequence 7, which isn't reached from the first. Locations
/// stay.
#[test]
fn changes_each_instruction(rt: HostRuntime) -> Result<(), Fail> {
    let mut builder = example(rt.alloc())?;
    map_instrs(&mut builder, |instr: &mut Instr, _location: InstrLocId| {
        if let Instr::Const(constant) = instr {
            constant.value = Value::I32(7);
        }
    });
    for (start, returned) in [(0, (0x12_3456_789a, 70)), (1, (0x2345, 28)), (7, (0xb, 7))] {
        assert_eq!(rt; visited(&builder, start), Ok(returned));
    }
    Ok(())
}

/// Counts sequences, up to a limit.
#[derive(Drop)]
struct Starts {
    count: u32,
    limit: u32,
}

impl Listener for Starts {
    type Fault = WalkError;

    fn start_instr_seq(&mut self, _seq: &InstrSeq) -> Result<(), WalkError> {
        if self.count >= self.limit {
            return Err(WalkError::TooLarge);
        }
        self.count += 1;
        Ok(())
    }
}

/// A listener hears of each sequence that is reached, and its fault ends the walk.
#[test]
fn listens_to_a_walk(rt: HostRuntime) -> Result<(), Fail> {
    let builder = example(rt.alloc())?;
    for (limit, returned) in [(7, Ok(())), (6, Err(WalkError::TooLarge))] {
        let mut listening = Listening(Starts { count: 0, limit });
        let found = dfs_in_order(&mut listening, &builder, InstrSeqId::new(0));
        assert_eq!(rt; found, returned);
        assert_eq!(rt; listening.0.count, limit);
    }
    Ok(())
}
