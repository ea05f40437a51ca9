//! Reading sequences.

ghost use Rattle.std.specs.Prelude.{IfOk, IfErr};
ghost use Rattle.dwarf_line.specs.Views.{parameters};
ghost use Rattle.dwarf_line.specs.Written.{BeginsSequence, IsSequenceFault};

use crate::header::Header;
use crate::operation::Operation;
use crate::reading::read_operation;
use crate::sequence::Sequence;
use dwarf_bytes::DebugFault;

/// Reads a sequence at the front: the operations up to the one that ends it.
///
/// # Errors
///
/// Those of `read_operation`; `Truncated` if the bytes end inside the sequence.
pub(crate) fn read_sequence<'a>(
    header: &Header<'_>,
    bytes: &'a [u8],
) -> Result<Sequence<'a>, DebugFault>
    ensures sequence { IfOk result (BeginsSequence (parameters header.now) bytes.now) }
    ensures fault { IfErr result (IsSequenceFault (parameters header.now) bytes.now) }
{
    let mut address: u64 = 0;
    let mut first = None;
    let mut rest = bytes;
    'operations: loop {
        let (operation, following) = read_operation(header, rest)?;
        match operation {
            Operation::Advance(distance) => address = address.wrapping_add(distance),
            Operation::SetAddress(_, new) => address = new,
            Operation::Special(opcode) => {
                address = address.wrapping_add(header.address_advance(opcode));
                first = first.or(Some(address));
            }
            Operation::AppendRow => first = first.or(Some(address)),
            Operation::EndSequence => {
                let (front, _) = bytes.split_at(bytes.len() - following.len());
                return Ok(Sequence {
                    first: first.unwrap_or(address),
                    bytes: front,
                    rest: following,
                });
            }
            Operation::Changes(_) => {}
        }
        rest = following;
    }
}
