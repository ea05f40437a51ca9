//! Writing a module (WebAssembly core specification 3.0, binary format, modules): section by
//! section, each unchanged, except those that are given new contents, and the code.

ghost use Rattle.std.specs.Prelude.{◌≡◌, ◌+◌, ◌<◌, ◌^◌, ℕ, List, [], ◌∷◌, length, Ok, IfOk, OnOk};
ghost use Rattle.std.specs.Io.KnownBytes.{Appends};
ghost use Rattle.wasm_operators.specs.Shortest.{short_number};
ghost use Rattle.wasm_module.specs.declared.parsed.ParsedModule.{ParsedModule as Parsed};
ghost use Rattle.wasm_sections.specs.CodeSections.{body_at};
ghost use Rattle.wasm_module.specs.RewrittenCode.{Extends};
ghost use Rattle.wasm_sections.specs.Sections.{section_id, section as whole_section, section_at, SectionAt, IsModule};
ghost use Rattle.wasm_sections.specs.GivenContents.{added_bodies};
ghost use Rattle.wasm_module.specs.SameModules.{IsSameModule};
ghost use Rattle.wasm_sections.specs.Components.{Components, module_of};
ghost use Rattle.wasm_module.specs.MapText.{map_lines};
ghost use Rattle.wasm_module.specs.ToldBodies.{IsTold};
ghost use Rattle.wasm_module.specs.ToldModules.{module_told, PutsPieces, PutsBody, PutsCode, PutsSection, PutsWithNew, PutsModule};
ghost use Rattle.wasm_module.specs.WrittenModules.{Puts, FitsSize, new_contents_in, between, FitBetween, new_after, NewFitAfter, IsWrittenModule};

use crate::bodies::Scratch;
use crate::body_writer::{BodyWriter, Needed};
use crate::large_bodies::BodyOutput;
use crate::map_sink::{MapLines, MapSink, NoMap, WrittenBody};
use crate::parsed::ParsedModule;
use crate::rewriting::RewrittenModule;
use std::alloc::{AllocError, AllocFailed, Global};
use std::io;
use std::io::Write;
use wasm_sections::{
    Bodies, Body, Changes, ModuleError, ModuleFault, PREAMBLE, Section, SectionKind, Sections,
    write_number,
};

/// Why a module isn't written, or only a part of it.
#[derive(Debug, Drop)]
pub enum WriteError {
    /// A fault of the module or of a change of its functions, with its place in the source.
    Module(ModuleError),
    /// The error of a writer.
    Io(io::Error),
}

impl From<ModuleError> for WriteError {
    fn from(error: ModuleError) -> WriteError {
        WriteError::Module(error)
    }
}

impl<T: Drop> From<AllocFailed<T>> for WriteError {
    fn from(_failed: AllocFailed<T>) -> WriteError {
        WriteError::Module(ModuleError::from(AllocError))
    }
}

impl From<io::Error> for WriteError {
    fn from(error: io::Error) -> WriteError {
        WriteError::Io(error)
    }
}

/// The place `len` bytes after `at`.
fn place_after(at: usize, len: usize) -> Result<usize, WriteError>
    ensures { IfOk result (λ place. place ≡ at + len) }
{
    match at.checked_add(len) {
        Some(place) => Ok(place),
        None => Err(WriteError::from(ModuleError {
            fault: ModuleFault::TooGreat,
            at,
        })),
    }
}

/// Writes bytes at the place `at`, and returns the place after them.
fn put<W: Write>(bytes: &[u8], at: usize, out: &mut W) -> Result<usize, WriteError>
    ensures { IfOk result
        (λ end. Puts (W.contents out.old) (W.contents out.new) at end bytes.now) }
{
    out.write_all(bytes)?;
    place_after(at, bytes.len())
}

/// Writes a number in LEB128, with as few bytes as possible. Returns the place after it.
fn put_number<W: Write>(
    alloc: Global,
    number: usize,
    at: usize,
    out: &mut W,
) -> Result<usize, WriteError>
    ensures written { IfOk result
        (λ end. Puts (W.contents out.old) (W.contents out.new) at end (short_number number)) }
    ensures fits { OnOk result (number < 2 ^ 32) }
{
    let mut bytes = Vec::new(alloc);
    write_number(&mut bytes, number)?;
    put(&bytes, at, out)
}

/// Writes the id of a section, and the size of its contents in bytes.
fn put_header<W: Write>(
    alloc: Global,
    kind: SectionKind,
    len: usize,
    at: usize,
    out: &mut W,
) -> Result<usize, WriteError>
    ensures written { IfOk result (λ end. Puts (W.contents out.old) (W.contents out.new) at end
        (section_id kind ∷ short_number len)) }
    ensures fits { OnOk result (len < 2 ^ 32) }
{
    let at = put(&[kind.id()], at, out)?;
    put_number(alloc, len, at, out)
}

/// Writes a section with these contents.
pub(crate) fn put_section<W: Write>(
    alloc: Global,
    kind: SectionKind,
    contents: &[u8],
    at: usize,
    out: &mut W,
) -> Result<usize, WriteError>
    ensures written { IfOk result (λ end. Puts (W.contents out.old) (W.contents out.new) at end
        (whole_section (section_id kind) contents.now)) }
    ensures fits { OnOk result (FitsSize contents.now) }
{
    let at = put_header(alloc, kind, contents.len(), at, out)?;
    put(contents, at, out)
}

/// Writes the new sections whose ranks are between these two.
fn put_between<W: Write>(
    alloc: Global,
    changes: &Changes,
    ranks: (u8, u8),
    at: usize,
    out: &mut W,
) -> Result<usize, WriteError>
    ensures written { IfOk result (λ end. Puts (W.contents out.old) (W.contents out.new) at end
        (between ranks.0 ranks.1 changes.now.given.items)) }
    ensures fits { OnOk result (FitBetween ranks.0 ranks.1 changes.now.given.items) }
{
    let mut end = at;
    'given: for given in &changes.given {
        let rank = given.kind.rank();
        if ranks.0 < rank && rank < ranks.1 {
            end = put_section(alloc, given.kind, &given.contents, end, out)?;
        }
    }
    Ok(end)
}

/// A body of the source, and how it is written.
#[derive(Clone, Copy)]
struct BodyToWrite<'m, 'a, B> {
    from: Body<'a>,
    writer: &'m B,
    /// Whether the listener needs its pairs.
    needs_pairs: bool,
}

impl<'a> ParsedModule<'a> {
    /// Writes a large body in pieces, from this place on. Returns how many bytes were written.
    fn put_in_pieces<B: BodyWriter, T: MapSink, W: Write>(
        &mut self,
        body: &BodyToWrite<'_, 'a, B>,
        scratch: &mut Scratch,
        sink: &mut T,
        start: usize,
        out: &mut W,
    ) -> Result<usize, WriteError>
        ensures extends { OnOk result (Extends self.old self.new) }
        ensures written { (source : Parsed) → Extends source self.old
            → IfOk result (λ len. PutsPieces (B.writes body.now.writer.now) source T.records
            body.now.from.func (body_at body.now.from) body.now.needs_pairs start len
            (W.contents out.old) (W.contents out.new) sink.old sink.new) }
    {
        let BodyToWrite {
            from,
            writer,
            needs_pairs,
        } = *body;
        let mut output = BodyOutput {
            listener: sink,
            out,
            places: (from.start(), start),
            needs_pairs,
            len: 0,
            error: None,
        };
        let written = writer.write_large_body(self, from, needs_pairs, scratch, &mut output);
        let BodyOutput { len, error, .. } = output;
        if let Some(error) = error {
            return Err(WriteError::Io(error));
        }
        match written {
            Ok(()) => Ok(len),
            Err(error) => Err(WriteError::from(error)),
        }
    }

    /// Writes the size of a large body, which is counted first, and the body in pieces.
    fn put_large_body<B: BodyWriter, T: MapSink, W: Write>(
        &mut self,
        body: &BodyToWrite<'_, 'a, B>,
        scratch: &mut Scratch,
        sink: &mut T,
        at: usize,
        out: &mut W,
    ) -> Result<usize, WriteError>
        ensures extends { OnOk result (Extends self.old self.new) }
        ensures written { (source : Parsed) → Extends source self.old
            → IfOk result (λ end. PutsBody (B.writes body.now.writer.now) source T.records
            body.now.from.func (body_at body.now.from) body.now.needs_pairs
            (W.contents out.old) (W.contents out.new) at end sink.old sink.new) }
    {
        let measured = body.writer.measure_large_body(self, body.from, scratch)?;
        let start = put_number(self.alloc, measured.len, at, out)?;
        let old_start = body.from.start();
        sink.record_body(WrittenBody {
            old_start,
            start,
            pairs: &[],
        })?;
        let len = self.put_in_pieces(body, scratch, sink, start, out)?;
        if len != measured.len {
            return Err(WriteError::from(ModuleError {
                fault: ModuleFault::InconsistentChange,
                at: old_start,
            }));
        }
        place_after(start, len)
    }

    /// Writes the size of a body, and the body.
    fn put_body<B: BodyWriter, T: MapSink, W: Write>(
        &mut self,
        body: &BodyToWrite<'_, 'a, B>,
        scratch: &mut Scratch,
        sink: &mut T,
        at: usize,
        out: &mut W,
    ) -> Result<usize, WriteError>
        ensures extends { OnOk result (Extends self.old self.new) }
        ensures written { (source : Parsed) → Extends source self.old
            → IfOk result (λ end. PutsBody (B.writes body.now.writer.now) source T.records
            body.now.from.func (body_at body.now.from) body.now.needs_pairs
            (W.contents out.old) (W.contents out.new) at end sink.old sink.new) }
    {
        if body.from.is_large() {
            return self.put_large_body(body, scratch, sink, at, out);
        }
        let needed = Needed::if_pairs(body.needs_pairs);
        body.writer.write_body(self, body.from, needed, scratch)?;
        let raw = scratch.raw.as_slice();
        let start = put_number(self.alloc, raw.len(), at, out)?;
        let old_start = body.from.start();
        let pairs = scratch.pairs_if(body.needs_pairs);
        sink.record_body(WrittenBody {
            old_start,
            start,
            pairs,
        })?;
        put(raw, start, out)
    }

    /// Writes the contents of the code section: the number of bodies, then each after its size, and
    /// then those that are added.
    fn put_code<B: BodyWriter, T: MapSink, W: Write>(
        &mut self,
        rewritten: &RewrittenModule<'_, B>,
        section: &Section<'a>,
        sink: &mut T,
        at: usize,
        out: &mut W,
    ) -> Result<usize, WriteError>
        ensures extends { OnOk result (Extends self.old self.new) }
        ensures written { (source : Parsed) → Extends source self.old
            → IfOk result (λ end. PutsCode (B.writes rewritten.now.bodies) source T.records T.needs
            (section_at section.now) (added_bodies rewritten.now.changes)
            (W.contents out.old) (W.contents out.new) at end sink.old sink.new) }
    {
        let mut scratch = Box::new(self.alloc, Scratch::new(self.alloc))?;
        let (count, mut source) = Bodies::of_section(section.contents, self.imported())?;
        if count as usize != self.body_count() {
            return Err(WriteError::from(section.contents.fault(ModuleFault::BodyCount)));
        }
        let (more, added) = rewritten.changes.added_bodies()?;
        let mut end = put_number(self.alloc, count as usize + more as usize, at, out)?;
        'bodies: for _ in 0..count {
            let Some(from) = source.next() else {
                return Err(WriteError::from(section.contents.fault(ModuleFault::BodyCount)));
            };
            let writer = &rewritten.bodies;
            let needs_pairs = sink.needs_pairs();
            let body = BodyToWrite {
                from,
                writer,
                needs_pairs,
            };
            end = self.put_body(&body, &mut scratch, sink, end, out)?;
        }
        source.finish()?;
        put(added, end, out)
    }

    /// Writes the code section.
    fn put_code_section<B: BodyWriter, T: MapSink, W: Write>(
        &mut self,
        rewritten: &RewrittenModule<'_, B>,
        section: &Section<'a>,
        sink: &mut T,
        at: usize,
        out: &mut W,
    ) -> Result<usize, WriteError>
        ensures extends { OnOk result (Extends self.old self.new) }
        ensures written { (source : Parsed) → Extends source self.old
            → section_id section.now.kind ≡ 10
            → IfOk result (λ end. PutsSection (B.writes rewritten.now.bodies) source T.records T.needs
            rewritten.now.changes rewritten.now.omitted (section_at section.now)
            (W.contents out.old) (W.contents out.new) at end sink.old sink.new) }
    {
        let at = put_header(self.alloc, SectionKind::Code, rewritten.code.len, at, out)?;
        let end = self.put_code(rewritten, section, sink, at, out)?;
        match end == place_after(at, rewritten.code.len)? {
            true => Ok(end),
            false => Err(WriteError::from(section.contents.fault(ModuleFault::InconsistentChange))),
        }
    }

    /// Writes a section unchanged, or with new contents, or nothing if it is left out.
    fn put_in_place<B: BodyWriter, T: MapSink, W: Write>(
        &mut self,
        rewritten: &RewrittenModule<'_, B>,
        section: &Section<'a>,
        sink: &mut T,
        at: usize,
        out: &mut W,
    ) -> Result<usize, WriteError>
        ensures extends { OnOk result (Extends self.old self.new) }
        ensures written { (source : Parsed) → Extends source self.old
            → IfOk result (λ end. PutsSection (B.writes rewritten.now.bodies) source T.records T.needs
            rewritten.now.changes rewritten.now.omitted (section_at section.now)
            (W.contents out.old) (W.contents out.new) at end sink.old sink.new) }
    {
        if section.kind == SectionKind::Code {
            return self.put_code_section(rewritten, section, sink, at, out);
        }
        if rewritten.omits(section)? {
            return Ok(at);
        }
        match rewritten.contents_for(section) {
            Some(contents) => put_section(self.alloc, section.kind, contents, at, out),
            None => put(section.whole, at, out),
        }
    }

    /// Writes the new sections that follow the section of this rank, or, for rank 0, the preamble:
    /// those that the source doesn't have, with a lower rank than its next section.
    fn put_new_after<B: BodyWriter, W: Write>(
        &self,
        rewritten: &RewrittenModule<'_, B>,
        rank: u8,
        at: usize,
        out: &mut W,
    ) -> Result<usize, WriteError>
        ensures written { (all : List SectionAt) → IsModule self.now.bytes.now all
            → IfOk result (λ end. Puts (W.contents out.old) (W.contents out.new) at end
            (new_after (new_contents_in rewritten.now) all rank)) }
        ensures fits { (all : List SectionAt) → IsModule self.now.bytes.now all
            → OnOk result (NewFitAfter (new_contents_in rewritten.now) all rank) }
    {
        let next = self.next_rank(rank)?;
        put_between(self.alloc, &rewritten.changes, (rank, next), at, out)
    }

    /// Writes a section, as `put_in_place` does, and the new sections after it.
    fn put_with_new<B: BodyWriter, T: MapSink, W: Write>(
        &mut self,
        rewritten: &RewrittenModule<'_, B>,
        section: &Section<'a>,
        sink: &mut T,
        at: usize,
        out: &mut W,
    ) -> Result<usize, WriteError>
        ensures extends { OnOk result (Extends self.old self.new) }
        ensures written { (source : Parsed) (all : List SectionAt) → Extends source self.old
            → IsModule self.old.bytes.now all → IfOk result (λ end. PutsWithNew
            (B.writes rewritten.now.bodies) source T.records T.needs
            rewritten.now.changes rewritten.now.omitted all (section_at section.now)
            (W.contents out.old) (W.contents out.new) at end sink.old sink.new) }
    {
        let end = self.put_in_place(rewritten, section, sink, at, out)?;
        let rank = section.kind.rank();
        if rank == 0 {
            // A custom section.
            return Ok(end);
        }
        self.put_new_after(rewritten, rank, end, out)
    }

    /// Writes the module, and tells the listener of each body.
    fn write_with_sink<B: BodyWriter, T: MapSink, W: Write>(
        &mut self,
        rewritten: &RewrittenModule<'_, B>,
        sink: &mut T,
        out: &mut W,
    ) -> Result<(), WriteError>
        ensures extends { OnOk result (Extends self.old self.new) }
        ensures written { OnOk result (PutsModule (B.writes rewritten.now.bodies) self.old
            T.records T.needs rewritten.now.changes rewritten.now.omitted
            (W.contents out.old) (W.contents out.new) sink.old sink.new) }
    {
        self.check_functions(&rewritten.changes)?;
        let begin = put(&PREAMBLE, 0, out)?;
        let mut end = self.put_new_after(rewritten, 0, begin, out)?;
        'sections: for section in Sections::new(self.bytes())? {
            let section = section?;
            end = self.put_with_new(rewritten, &section, sink, end, out)?;
        }
        Ok(())
    }

    /// Writes the module: its sections in order, unchanged ones byte for byte, new ones in their
    /// places; and each body after its size, as it is rewritten, or as it is kept after a change.
    /// Custom sections are left out if `omit_debug` or another such call chose them. Where no section
    /// is given contents, the bytes that are written are read as a module of the same types, functions
    /// and other items.
    ///
    /// # Errors
    ///
    /// Those of the writer; `BodyCount` if the functions of another module were changed;
    /// `InconsistentChange` if a caller's own `BodyWriter` writes other bodies than the first time,
    /// so that the code has another size, or if functions were imported or added with other changes;
    /// or `Memory`. A part of the module may have been written.
    pub fn write_module<B: BodyWriter, W: Write>(
        &mut self,
        rewritten: &RewrittenModule<'_, B>,
        out: &mut W,
    ) -> Result<(), WriteError>
        ensures extends { OnOk result (Extends self.old self.new) }
        ensures written { OnOk result ((new : List ℕ)
            × IsWrittenModule (B.writes rewritten.now.bodies) self.old rewritten.now.changes
            rewritten.now.omitted new
            × Appends (W.contents out.old) (W.contents out.new) new) }
        ensures same { (m : Components) → module_of self.old.bytes.now ≡ Ok m
            → new_contents_in rewritten.now ≡ [] → OnOk result ((new : List ℕ)
            × IsSameModule (B.writes rewritten.now.bodies) self.old m new
            × Appends (W.contents out.old) (W.contents out.new) new) }
    {
        self.write_with_sink(rewritten, &mut NoMap, out)
    }

    /// The same, with the location map: a line for each written operator that comes from the
    /// source, with its old and its new offset from the start of the file, in hexadecimal, sorted
    /// by the new offset.
    ///
    /// # Errors
    ///
    /// Those of `write_module`, and those of the map's writer.
    pub fn write_module_with_map<B: BodyWriter, W: Write, M: Write>(
        &mut self,
        rewritten: &RewrittenModule<'_, B>,
        out: &mut W,
        map: &mut M,
    ) -> Result<(), WriteError>
        ensures extends { OnOk result (Extends self.old self.new) }
        ensures written { OnOk result ((new : List ℕ)
            × (w : IsWrittenModule (B.writes rewritten.now.bodies) self.old rewritten.now.changes
            rewritten.now.omitted new)
            × Appends (W.contents out.old) (W.contents out.new) new
            × Appends (M.contents map.old) (M.contents map.new)
            (map_lines (module_told (B.writes rewritten.now.bodies) self.old
            rewritten.now.changes rewritten.now.omitted new w))) }
    {
        self.write_with_sink(rewritten, &mut MapLines(map), out)
    }

    /// The same, with a listener, which is told of each body before it is written.
    ///
    /// # Errors
    ///
    /// Those of `write_module`, and those of the listener.
    pub fn write_module_with_sink<B: BodyWriter, T: MapSink, W: Write>(
        &mut self,
        rewritten: &RewrittenModule<'_, B>,
        sink: &mut T,
        out: &mut W,
    ) -> Result<(), WriteError>
        ensures extends { OnOk result (Extends self.old self.new) }
        ensures written { OnOk result ((new : List ℕ)
            × (w : IsWrittenModule (B.writes rewritten.now.bodies) self.old rewritten.now.changes
            rewritten.now.omitted new)
            × Appends (W.contents out.old) (W.contents out.new) new
            × IsTold T.records T.needs sink.old (module_told (B.writes rewritten.now.bodies)
            self.old rewritten.now.changes rewritten.now.omitted new w) sink.new) }
    {
        self.write_with_sink(rewritten, sink, out)
    }
}
