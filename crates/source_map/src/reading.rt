//! Reading mappings.

ghost use Rattle.std.specs.Prelude.{◌≡◌, ◌==◌, ◌∷◌, ◌<◌, List, length, IfOk, IfSome, Ok, option_map};
ghost use Rattle.std.specs.List.{slice_split};
ghost use Rattle.source_map.specs.Spelling.{SpellsMappings};
ghost use Rattle.wasm_numbers.specs.Results.{Gives};
ghost use Rattle.source_map.specs.Reading.{ReadsOrMemory, original_name_at, original_at, original_or_none_at, segment_at, comma_parts, mappings_at};
ghost use Rattle.source_map.specs.declared.mapping.Mapping.{Mapping as AMapping};

use crate::fault::{MappingsError, MappingsFault};
use crate::fields::Fields;
use crate::mapping::{Mapping, Original};
use crate::number::{read_column, read_field};
use crate::unread_segments::UnreadSegments;
use std::alloc::Global;

/// The name at the end of a segment, if it has one.
#[tactic(auto, unfolding(crate::specs::Reading::original_name_at))]
fn read_name(before: u32, text: &[u8]) -> Result<Option<u32>, MappingsFault>
    ensures { Gives (λ x. x) result (original_name_at before text.now) }
{
    match text {
        [] => Ok(None),
        _ => {
            let (name, rest) = read_field(before, text)?;
            match rest {
                [] => Ok(Some(name)),
                _ => Err(MappingsFault::FieldCount),
            }
        }
    }
}

/// The position of the fields of a segment after the first.
#[tactic(auto, unfolding(crate::specs::Reading::original_at))]
fn read_original(fields: Fields, text: &[u8]) -> Result<Original, MappingsFault>
    ensures { Gives (λ x. x) result (original_at fields text.now) }
{
    let (source, rest) = read_field(fields.source, text)?;
    let (line, rest) = read_field(fields.line, rest)?;
    let (column, rest) = read_field(fields.column, rest)?;
    let name = read_name(fields.name, rest)?;
    Ok(Original {
        source,
        line,
        column,
        name,
    })
}

/// The same, or none if there are no such fields.
#[tactic(auto, unfolding(crate::specs::Reading::original_or_none_at))]
fn read_original_or_none(fields: Fields, text: &[u8]) -> Result<Option<Original>, MappingsFault>
    ensures { Gives (λ x. x) result (original_or_none_at fields text.now) }
{
    match text {
        [] => Ok(None),
        _ => {
            let original = read_original(fields, text)?;
            Ok(Some(original))
        }
    }
}

/// The mapping of a segment.
#[tactic(auto, unfolding(crate::specs::Reading::segment_at))]
pub(crate) fn read_segment(fields: Fields, text: &[u8]) -> Result<Mapping, MappingsFault>
    ensures { Gives (λ x. x) result (segment_at fields text.now) }
{
    let (generated, rest) = read_column(fields.generated, text)?;
    let original = read_original_or_none(fields, rest)?;
    Ok(Mapping {
        generated,
        original,
    })
}

/// The mappings of all segments.
fn read_all(alloc: Global, text: &[u8]) -> Result<Vec<Mapping>, MappingsError>
    ensures { ReadsOrMemory (λ v. v.items) result (mappings_at text.now) }
{
    let mut mappings = Vec::new(alloc);
    let mut segments = UnreadSegments::of(text);
    loop {
        match segments.read() {
            Ok(Some(mapping)) => mappings.push(mapping)?,
            Ok(None) => return Ok(mappings),
            Err(fault) => return Err(MappingsError::Fault(fault)),
        }
    }
}

/// Reads the text of `mappings`, of a generated program of one line.
///
/// # Errors
///
/// The first fault, from left to right; or `Memory`.
pub fn decode(alloc: Global, text: &[u8]) -> Result<Vec<Mapping>, MappingsError>
    ensures read { IfOk result (λ v. SpellsMappings v.items text.now) }
    ensures each { (ms : List AMapping) → SpellsMappings ms text.now
        → ReadsOrMemory (λ v. v.items) result (Ok ms) }
    ensures exact { ReadsOrMemory (λ v. v.items) result (mappings_at text.now) }
{
    read_all(alloc, text)
}
