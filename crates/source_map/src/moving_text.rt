//! Source maps of a program whose operators move, written while the operators are named one after the
//! other.

ghost use Rattle.std.specs.Prelude.{◌≡◌, ◌≤◌, ◌<◌, ◌++◌, ◌∷◌, [], ℕ, List, IfOk, IfErr, OnOk, Some};
ghost use Rattle.json.specs.Json.{Members};
ghost use Rattle.source_map.specs.declared.fault.MappingsError.TheVariants.{Memory};
ghost use Rattle.source_map.specs.declared.mapping.Mapping.{Mapping as AMapping};
ghost use Rattle.source_map.specs.declared.moving.Move.{Move as AMove};
ghost use Rattle.source_map.specs.Moving.{in_body, with_place, moved_all};
ghost use Rattle.source_map.specs.MovingText.{written_after, all_written_after, fields_written, length_to_come, MovedSoFar, HasMoved};
ghost use Rattle.source_map.specs.Shortest.{spelling};
ghost use Rattle.source_map.specs.Spelling.{SpellsMappings};
ghost use Rattle.source_map.specs.WrittenSourceMaps.{IsReadFrom, IsTextWith};

use crate::fault::MappingsError;
use crate::fields::Fields;
use crate::json_text::SourceMap;
use crate::mapping::Mapping;
use crate::moving::Move;
use crate::unread_segments::UnreadSegments;
use crate::writing::write_segment;
use std::alloc::{AllocError, Global};

/// The text of a source map whose mappings move along with the operators of the program, as far as
/// these are named. It takes the memory of the text alone: no list of mappings or of operators is made.
#[derive(Drop)]
pub struct MovingSourceMap<'a> {
    map: &'a SourceMap,
    /// The segments of mappings that aren't read yet.
    segments: UnreadSegments<'a>,
    /// The mapping before them, if there is one. It isn't written yet.
    next: Option<Mapping>,
    /// The fields of the last mapping that was written, if there is one.
    last: Option<Fields>,
    /// The text that is written, as far as it goes.
    text: Vec<u8>,
}

impl<'a> MovingSourceMap<'a> {
    /// None of the source map's mappings is written yet.
    ///
    /// # Errors
    ///
    /// `Memory`. No other error comes of a source map that was read.
    pub fn new(alloc: Global, map: &'a SourceMap) -> Result<MovingSourceMap<'a>, MappingsError>
        ensures none { IfOk result (λ moving. (all : List AMapping)
            → SpellsMappings all map.now.mappings.items → HasMoved all [] moving) }
        ensures map { IfOk result (λ moving. moving.map.now ≡ map.now) }
        ensures memory { (all : List AMapping) → SpellsMappings all map.now.mappings.items
            → IfErr result (λ e. e ≡ Memory) }
    {
        let mut segments = UnreadSegments::of(&map.mappings);
        let next = segments.read()?;
        let text = Vec::from_slice(alloc, &map.front)?;
        Ok(MovingSourceMap {
            map,
            segments,
            next,
            last: None,
            text,
        })
    }

    /// Writes a mapping after those that were written.
    fn write(&mut self, mapping: Mapping) -> Result<(), AllocError>
        ensures text { OnOk result (self.new.text.items
            ≡ self.old.text.items ++ written_after self.old.last mapping) }
        ensures last { OnOk result (self.new.last ≡ Some (fields_written self.old.last mapping)) }
        ensures segments { self.new.segments ≡ self.old.segments }
        ensures map { self.new.map ≡ self.old.map }
    {
        let fields = match self.last {
            None => Fields::start(),
            Some(fields) => {
                self.text.push(b',')?;
                fields
            }
        };
        write_segment(&mut self.text, fields, mapping)?;
        self.last = Some(fields.after(mapping));
        Ok(())
    }

    /// Writes a mapping at this operator's new place, if it is of the operator's body.
    fn write_moved(&mut self, mapping: Mapping, step: Move) -> Result<(), AllocError>
        ensures text { (more : List AMapping) → OnOk result
            (self.new.text.items ++ all_written_after self.new.last more
            ≡ self.old.text.items ++ all_written_after self.old.last
            (with_place mapping (in_body mapping.generated (Some step)) more)) }
        ensures segments { self.new.segments ≡ self.old.segments }
        ensures map { self.new.map ≡ self.old.map }
    {
        if step.body <= mapping.generated {
            let generated = step.new;
            let original = mapping.original;
            self.write(Mapping {
                generated,
                original,
            })
        } else {
            Ok(())
        }
    }

    /// Writes the next mapping at this operator's new place, if it is of the operator's body, and reads
    /// the one after it.
    fn pass(&mut self, mapping: Mapping, step: Move) -> Result<(), MappingsError>
        requires next { self.old.next ≡ Some mapping }
        requires reached { mapping.generated ≤ step.old }
        ensures passes { (all : List AMapping) (moves : List AMove)
            → MovedSoFar (step ∷ []) all moves self.old
            → OnOk result (MovedSoFar (step ∷ []) all moves self.new) }
        ensures map { self.new.map ≡ self.old.map }
        ensures memory { (all : List AMapping) (moves : List AMove)
            → MovedSoFar (step ∷ []) all moves self.old → IfErr result (λ e. e ≡ Memory) }
        ensures fewer { OnOk result (length_to_come self.new < length_to_come self.old) }
    {
        self.write_moved(mapping, step)?;
        match self.segments.read() {
            Ok(next) => {
                self.next = next;
                Ok(())
            }
            Err(fault) => Err(MappingsError::Fault(fault)),
        }
    }

    /// Names the next operator that is kept. Each mapping up to its old place, and after that of the
    /// operators before it, is written at its new place, if it is of its function's body; else it is
    /// dropped. The result is as described if the old places ascend.
    ///
    /// # Errors
    ///
    /// `Memory`. No other error comes of a source map that was read.
    pub fn add(&mut self, step: Move) -> Result<(), MappingsError>
        ensures adds { (all : List AMapping) (moves : List AMove) → HasMoved all moves self.old
            → OnOk result (HasMoved all (moves ++ step ∷ []) self.new) }
        ensures map { self.new.map ≡ self.old.map }
        ensures memory { (all : List AMapping) (moves : List AMove) → HasMoved all moves self.old
            → IfErr result (λ e. e ≡ Memory) }
    {
        while let Some(mapping) = self.next {
            if step.old < mapping.generated {
                break;
            }
            match self.pass(mapping, step) {
                Ok(()) => {}
                Err(error) => return Err(error),
            }
        }
        Ok(())
    }

    /// The whole text: no operator follows those that were named, and mappings after them are dropped.
    ///
    /// # Errors
    ///
    /// Out of memory.
    pub fn finish(self) -> Result<Vec<u8>, AllocError>
        ensures { IfOk result (λ text. (all : List AMapping) (moves : List AMove)
            → HasMoved all moves self.entry → (source : List ℕ) (members : Members)
            → IsReadFrom source members self.entry.map.now
            → IsTextWith members (spelling (moved_all moves all)) text.items) }
    {
        let MovingSourceMap { map, text, .. } = self;
        let mut text = text;
        text.extend_from_slice(&map.back)?;
        Ok(text)
    }
}
