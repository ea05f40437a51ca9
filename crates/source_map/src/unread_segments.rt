//! The segments of a text of mappings, one after the other.

ghost use Rattle.std.specs.Prelude.{◌≡◌, ◌==◌, ◌∷◌, ◌<◌, List, length, OnOk, IfOk, IfErr, IfSome, Ok, Err, option_map};
ghost use Rattle.std.specs.List.{slice_split};
ghost use Rattle.source_map.specs.Reading.{comma_parts, mappings_at, mappings_left, before_others, length_left};

use crate::fault::MappingsFault;
use crate::fields::Fields;
use crate::mapping::Mapping;
use crate::reading::read_segment;

/// The segments of a text of mappings that aren't read yet.
#[derive(Clone, Copy)]
pub(crate) struct UnreadSegments<'a> {
    /// The fields of the mappings before them.
    pub fields: Fields,
    /// Their text, if there are any.
    pub left: Option<&'a [u8]>,
}

/// The text up to the first comma, and the text after the comma.
fn first_segment(text: &[u8]) -> (&[u8], Option<&[u8]>)
    ensures parts { slice_split (λ b. b == 44) text.now
        ≡ result.0.now ∷ comma_parts (option_map (λ x. x.now) result.1) }
    ensures shorter { IfSome result.1 (λ following. length following.now < length text.now) }
{
    for (at, byte) in text.iter().enumerate() {
        if *byte == b',' {
            return (&text[..at], Some(&text[at + 1..]));
        }
    }
    (text, None)
}

impl<'a> UnreadSegments<'a> {
    /// All segments of a text.
    #[tactic(auto, unfolding(crate::specs::Reading::mappings_at))]
    pub fn of(text: &'a [u8]) -> UnreadSegments<'a>
        ensures { mappings_left result ≡ mappings_at text.now }
    {
        let left = if text.is_empty() { None } else { Some(text) };
        UnreadSegments {
            fields: Fields::start(),
            left,
        }
    }

    /// Reads the mapping of the next segment, if there is one.
    ///
    /// # Errors
    ///
    /// What is wrong with the segment. The segments are then as before.
    pub fn read(&mut self) -> Result<Option<Mapping>, MappingsFault>
        ensures read { IfOk result (λ found. mappings_left self.old
            ≡ before_others found (mappings_left self.new)) }
        ensures refused { IfErr result (λ fault. mappings_left self.old ≡ Err fault) }
        ensures fewer { IfOk result (λ found. IfSome found
            (λ _. length_left self.new < length_left self.old)) }
    {
        let Some(text) = self.left else {
            return Ok(None);
        };
        let (segment, left) = first_segment(text);
        match read_segment(self.fields, segment) {
            Ok(mapping) => {
                self.fields = self.fields.after(mapping);
                self.left = left;
                Ok(Some(mapping))
            }
            Err(fault) => Err(fault),
        }
    }
}

/// Reads all segments of a text, and keeps none.
///
/// # Errors
///
/// The first fault, from left to right.
pub(crate) fn check(text: &[u8]) -> Result<(), MappingsFault>
    ensures read { OnOk result ((all : List Mapping) × (mappings_at text.now ≡ Ok all)) }
    ensures refused { IfErr result (λ fault. mappings_at text.now ≡ Err fault) }
{
    let mut segments = UnreadSegments::of(text);
    loop {
        match segments.read() {
            Ok(Some(_mapping)) => {}
            Ok(None) => return Ok(()),
            Err(fault) => return Err(fault),
        }
    }
}
