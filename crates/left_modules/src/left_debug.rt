//! The debug information of a module without what nothing reaches: it follows the bodies that are left, and addresses of functions
//! that aren't become ones of no code.

ghost use Rattle.std.specs.Prelude.{IfOk};
ghost use Rattle.module_debug.specs.Sections.{AreDebugSections as AreSections};

use crate::left_bodies::written_bodies;
use code_moves::{Body as MovedBody, LocalMove, MoveError, Moves, Runs};
use dwarf::{DebugSections, MovedSections, SectionName, move_sections};
use dwarf_bytes::{DebugError, DebugFault};
use module_debug::{DebugFailure, DebugSection, write_debug};
use module_removal::Remainder;
use std::alloc::{AllocError, AllocFailed, Global};
use walrus_ir::InstrLocId;
use wasm_module::{
    Body, ModuleError, ModuleFault, ParsedModule, Scratch, SectionKind, Sections, WriteError,
};
use wasm_ops::Reader;
use wasm_sections::Input;

/// The first address of no code. A code section of more bytes can't be followed.
const NO_CODE: u32 = 0xf000_0000;

/// Why the addresses of a module's code aren't known.
fn unknown() -> DebugError {
    DebugError::Fault(DebugFault::Unsupported)
}

/// The error of moves.
fn of_moves(error: MoveError) -> DebugError {
    match error {
        MoveError::Memory => DebugError::Memory,
        MoveError::Disordered => unknown(),
    }
}

/// The error of a module that was read, or made, before.
fn of_module(error: ModuleError) -> DebugError {
    match error.fault {
        ModuleFault::Memory => DebugError::Memory,
        _ => unknown(),
    }
}

/// The failure of an error that is of no section alone.
fn failure(error: DebugError) -> DebugFailure {
    DebugFailure {
        section: SectionName::Info,
        error,
    }
}

/// A module, and the place of the contents of its code section, from which addresses are counted.
#[derive(Clone, Copy)]
struct CodeBytes<'a> {
    bytes: &'a [u8],
    base: usize,
}

impl<'a> CodeBytes<'a> {
    /// Those of a module.
    fn of(bytes: &'a [u8]) -> Result<CodeBytes<'a>, ModuleError> {
        let mut base = 0;
        for section in Sections::new(bytes)? {
            let section = section?;
            if section.kind == SectionKind::Code {
                base = section.contents.at();
            }
        }
        Ok(CodeBytes { bytes, base })
    }

    /// The address of this place.
    fn address(&self, place: usize) -> Result<u32, DebugError> {
        match u32::try_from(place.saturating_sub(self.base)) {
            Ok(address) if address < NO_CODE && self.base <= place => Ok(address),
            _ => Err(unknown()),
        }
    }

    /// The place after the operator at this place.
    fn end_of(&self, place: usize) -> Result<usize, DebugError> {
        let mut reader = Reader::new(self.bytes.get(place..).ok_or(unknown())?, 0);
        match reader.read() {
            Ok(_) => Ok(place.saturating_add(reader.original_position())),
            Err(_) => Err(unknown()),
        }
    }

    /// The local that the operator at this place names, if it is `local.get`, `local.set` or `local.tee`.
    fn local_of(&self, place: usize) -> Option<u32> {
        match self.bytes.get(place..)? {
            [0x20..=0x22, rest @ ..] => match Input::new(rest).number() {
                Ok(local) => Some(local),
                Err(_) => None,
            },
            _ => None,
        }
    }
}

/// The module that was read, and the one that was made of it.
#[derive(Clone, Copy)]
struct Both<'a> {
    alloc: Global,
    source: CodeBytes<'a>,
    made: CodeBytes<'a>,
}

impl Both<'_> {
    /// Adds an operator to the runs of its body, and its local to those that are kept.
    fn push_operator(
        &self,
        old: InstrLocId,
        new: usize,
        parameters: u32,
        runs: &mut Runs,
        locals: &mut Vec<LocalMove>,
    ) -> Result<(), DebugError> {
        let own = self.made.address(new)?;
        if old.is_default() {
            return runs.push_added(own).map_err(of_moves);
        }
        let place = old.data() as usize;
        let begin = self.source.address(place)?;
        let end = self.source.address(self.source.end_of(place)?)?;
        runs.push(begin, end, own).map_err(of_moves)?;
        match (self.source.local_of(place), self.made.local_of(new)) {
            (Some(old), Some(new)) if old >= parameters => locals.push(LocalMove { old, new })?,
            _ => {}
        }
        Ok(())
    }

    /// Where the addresses of a body go, which has these location pairs.
    fn moved(
        &self,
        old: &Body<'_>,
        new: &Body<'_>,
        pairs: &[(InstrLocId, usize)],
        parameters: u32,
    ) -> Result<MovedBody, DebugError> {
        let (start, new_start) = (old.start(), new.start());
        let begin = self.source.address(start)?;
        let mut runs = Runs::new(self.alloc, begin, self.made.address(new_start)?);
        let mut locals = Vec::new(self.alloc);
        for (location, place) in pairs {
            let place = new_start.saturating_add(*place);
            self.push_operator(*location, place, parameters, &mut runs, &mut locals)?;
        }
        locals.sort_by_key(|local: &LocalMove| local.old)?;
        locals.dedup_by_key(|local| local.old);
        let end = start.saturating_add(old.bytes().len());
        let end = self.source.address(end)?;
        let new_end = new_start.saturating_add(new.bytes().len());
        let new_end = self.made.address(new_end)?;
        runs.into_body(end, new_end, parameters, locals)
            .map_err(of_moves)
    }

    /// Adds where the addresses of the bodies go that are left.
    fn add_left(
        &self,
        parsed: &mut ParsedModule<'_>,
        remainder: &Remainder,
        parameters: &[u32],
        moves: &mut Moves,
    ) -> Result<(), DebugError> {
        let mut written = match written_bodies(self.made.bytes) {
            Ok(written) => written,
            Err(error) => return Err(of_module(error)),
        };
        let mut scratch = Scratch::new(self.alloc);
        for old in parsed.bodies() {
            if !remainder.left.has_function(old.func) {
                continue;
            }
            let Some(new) = written.next() else {
                return Err(unknown());
            };
            match parsed.rewrite_flat_with_pairs(old, &mut scratch) {
                Ok(()) => {}
                Err(error) => return Err(of_module(error)),
            }
            let parameters = parameters.get(old.func).copied().unwrap_or(0);
            let moved = self.moved(&old, &new, &scratch.pairs, parameters)?;
            moves.push(moved).map_err(of_moves)?;
        }
        Ok(())
    }

    /// Adds where the addresses of the bodies go that aren't left: to ones of no code, two for each body. Returns whether there is one.
    fn add_removed(
        &self,
        parsed: &ParsedModule<'_>,
        remainder: &Remainder,
        parameters: &[u32],
        moves: &mut Moves,
    ) -> Result<bool, DebugError> {
        let mut new = NO_CODE;
        for body in parsed.bodies() {
            if remainder.left.has_function(body.func) {
                continue;
            }
            let begin = self.source.address(body.start())?;
            let end = body.start().saturating_add(body.bytes().len());
            let end = self.source.address(end)?;
            let next = new.checked_add(2).ok_or(unknown())?;
            let parameters = parameters.get(body.func).copied().unwrap_or(0);
            let runs = Runs::new(self.alloc, begin, new);
            let none = Vec::new(self.alloc);
            let moved = runs.into_body(end, new.saturating_add(1), parameters, none);
            moves.push(moved.map_err(of_moves)?).map_err(of_moves)?;
            new = next;
        }
        Ok(new != NO_CODE)
    }
}

/// How many parameters each function has, by its index.
fn parameters_of(alloc: Global, parsed: &ParsedModule<'_>) -> Result<Vec<u32>, ModuleError> {
    let mut counts = Vec::new(alloc);
    for function in parsed.functions()? {
        let count = parsed.params(function.ty).len();
        counts.push(u32::try_from(count).unwrap_or(u32::MAX))?;
    }
    Ok(counts)
}

/// How the addresses of a module's code move, of which this is left in the module that was made: first those of the functions that aren't
/// left, if there are any, then the others.
#[derive(Drop)]
struct DebugMoves {
    /// Whether there is a function that isn't left.
    removes: bool,
    removed: Moves,
    left: Moves,
}

impl DebugMoves {
    /// None yet.
    fn new(alloc: Global) -> DebugMoves {
        DebugMoves {
            removes: false,
            removed: Moves::new(alloc),
            left: Moves::new(alloc),
        }
    }

    /// Adds those of a module, whose functions have so many parameters.
    fn add(
        &mut self,
        alloc: Global,
        parsed: &mut ParsedModule<'_>,
        remainder: &Remainder,
        made: &[u8],
        parameters: &[u32],
    ) -> Result<(), DebugError> {
        let source = match CodeBytes::of(parsed.bytes()) {
            Ok(source) => source,
            Err(error) => return Err(of_module(error)),
        };
        let made = match CodeBytes::of(made) {
            Ok(made) => made,
            Err(error) => return Err(of_module(error)),
        };
        let both = Both {
            alloc,
            source,
            made,
        };
        self.removes = both.add_removed(parsed, remainder, parameters, &mut self.removed)?;
        both.add_left(parsed, remainder, parameters, &mut self.left)
    }
}

/// Those of a module, of which this is left in the module that was made.
fn debug_moves(
    alloc: Global,
    parsed: &mut ParsedModule<'_>,
    remainder: &Remainder,
    made: &[u8],
) -> Result<DebugMoves, DebugError> {
    let parameters = match parameters_of(alloc, parsed) {
        Ok(parameters) => parameters,
        Err(error) => return Err(of_module(error)),
    };
    let mut moves = DebugMoves::new(alloc);
    match moves.add(alloc, parsed, remainder, made, &parameters) {
        Ok(()) => Ok(moves),
        Err(error) => Err(error),
    }
}

/// What becomes of the sections if code moves so.
fn moved_by(
    alloc: Global,
    sections: &[DebugSection<'_>],
    moves: &Moves,
) -> Result<MovedSections, DebugFailure> {
    let mut contents = DebugSections::new(alloc);
    for section in sections {
        contents.add(section.kind, section.contents)?;
    }
    move_sections(alloc, &contents, moves)
}

/// Why sections with debug information aren't written as they move.
#[derive(Drop)]
enum NotMoved {
    /// They can't be moved.
    Failure(DebugFailure),
    /// They can't be written.
    Write(WriteError),
}

impl<T: Drop> From<AllocFailed<T>> for NotMoved {
    fn from(_failed: AllocFailed<T>) -> NotMoved {
        NotMoved::Failure(failure(DebugError::Memory))
    }
}

/// The sections, with their new contents where they are moved, else with their own.
///
/// # Errors
///
/// `TooGreat` if the size of a section doesn't fit 32 bits; or `Memory`.
pub(crate) fn debug_bytes(
    alloc: Global,
    sections: &[DebugSection<'_>],
    moved: Option<&MovedSections>,
) -> Result<Vec<u8>, WriteError>
    ensures { IfOk result (λ bytes. AreSections sections.now bytes.items) }
{
    let mut bytes = Vec::new(alloc);
    match write_debug(alloc, sections, moved, &mut bytes) {
        Ok(()) => Ok(bytes),
        Err(error) => Err(error),
    }
}

/// The sections as they move.
fn followed_bytes(
    alloc: Global,
    sections: &[DebugSection<'_>],
    moves: &Moves,
) -> Result<Vec<u8>, NotMoved>
    ensures { IfOk result (λ bytes. AreSections sections.now bytes.items) }
{
    let moved = match moved_by(alloc, sections, moves) {
        Ok(moved) => moved,
        Err(failure) => return Err(NotMoved::Failure(failure)),
    };
    match debug_bytes(alloc, sections, Some(&moved)) {
        Ok(bytes) => Ok(bytes),
        Err(error) => Err(NotMoved::Write(error)),
    }
}

/// The sections as they move, of which some have new contents before that.
fn again_moved_bytes(
    alloc: Global,
    sections: &[DebugSection<'_>],
    moved: &MovedSections,
    moves: &Moves,
) -> Result<Vec<u8>, NotMoved>
    ensures { IfOk result (λ bytes. AreSections sections.now bytes.items) }
{
    let mut all = Vec::new(alloc);
    'sections: for section in sections {
        let contents = match moved.contents_of(section.kind) {
            Some(contents) => contents,
            None => section.contents,
        };
        all.push(DebugSection {
            kind: section.kind,
            name: section.name,
            contents,
        })?;
    }
    match followed_bytes(alloc, &all, moves) {
        Ok(bytes) => Ok(bytes),
        Err(error) => Err(error),
    }
}

/// The sections as they move with all code of the module.
fn moved_bytes(
    alloc: Global,
    sections: &[DebugSection<'_>],
    moves: &DebugMoves,
) -> Result<Vec<u8>, NotMoved>
    ensures { IfOk result (λ bytes. AreSections sections.now bytes.items) }
{
    if !moves.removes {
        return followed_bytes(alloc, sections, &moves.left);
    }
    let moved = match moved_by(alloc, sections, &moves.removed) {
        Ok(moved) => moved,
        Err(failure) => return Err(NotMoved::Failure(failure)),
    };
    match again_moved_bytes(alloc, sections, &moved, &moves.left) {
        Ok(bytes) => Ok(bytes),
        Err(error) => Err(error),
    }
}

/// The sections as they are, since they can't be moved for this reason.
fn unmoved(
    alloc: Global,
    sections: &[DebugSection<'_>],
    failure: DebugFailure,
) -> Result<(Vec<u8>, Option<DebugFailure>), WriteError>
    ensures { IfOk result (λ made. AreSections sections.now made.0.items) }
{
    if failure.error == DebugError::Memory {
        return Err(WriteError::Module(ModuleError::from(AllocError)));
    }
    match debug_bytes(alloc, sections, None) {
        Ok(bytes) => Ok((bytes, Some(failure))),
        Err(error) => Err(error),
    }
}

/// These sections with debug information, to be written after the module that was made, of which this is left: as they move with the code,
/// or as they are, and then why, if they can't be moved.
///
/// # Errors
///
/// `TooGreat` if the size of a section doesn't fit 32 bits; or `Memory`.
pub(crate) fn left_debug(
    alloc: Global,
    parsed: &mut ParsedModule<'_>,
    remainder: &Remainder,
    made: &[u8],
    sections: &[DebugSection<'_>],
) -> Result<(Vec<u8>, Option<DebugFailure>), WriteError>
    ensures { IfOk result (λ made. AreSections sections.now made.0.items) }
{
    let moves = match debug_moves(alloc, parsed, remainder, made) {
        Ok(moves) => moves,
        Err(error) => return unmoved(alloc, sections, failure(error)),
    };
    match moved_bytes(alloc, sections, &moves) {
        Ok(bytes) => Ok((bytes, None)),
        Err(NotMoved::Write(error)) => Err(error),
        Err(NotMoved::Failure(failure)) => unmoved(alloc, sections, failure),
    }
}
