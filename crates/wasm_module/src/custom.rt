//! Custom sections about code: names of locals and of labels, and metadata of code (branch hints;
//! WebAssembly core specification 3.0, name section; tool conventions). They are changed along with
//! the code.

ghost use Rattle.std.specs.Prelude.{◌≡◌, List, IsTrue, IfSome, OnOk};
ghost use Rattle.wasm_sections.specs.Sections.{SectionAt, IsModule, Each, section_at};
ghost use Rattle.wasm_module.specs.WrittenModules.{HasFollowedName, HasSameName, IsLinked};

pub(crate) mod labels;

use crate::bodies::Scratch;
use crate::body_errors::body_error;
use crate::body_writer::Needed;
use crate::custom::labels::follow_labels;
use crate::parsed::ParsedModule;
use std::alloc::Global;
use walrus_body::LocalFunction;
use walrus_ir::{IdHashMap, InstrLocId, LocalId};
use walrus_rewrite::RewriteError;
use wasm_sections::{
    Body, FunctionItems, FunctionNumbers, Input, Item, ModuleError, ModuleFault, Section,
    SectionKind, Sections, names_object,
};

/// The greatest number of custom sections that are changed along with the code. Further ones are
/// copied unchanged.
const MAX_FOLLOWED: usize = 16;

/// The kind of the items in a part of a section.
#[derive(Clone, Copy, PartialEq, Eq)]
enum Follows {
    /// Names of functions, which have been given their new indices.
    Functions,
    /// Metadata of an operator, by its offset in the body.
    Offsets,
    /// Names of locals.
    Locals,
    /// Names of labels.
    Labels,
}

/// A part of a custom section with a list of items for each of some functions.
#[derive(Drop)]
struct Part<'a> {
    follows: Follows,
    items: FunctionItems<'a>,
    /// The bytes of the section between the part before it, or the start, and this part.
    before: &'a [u8],
    /// Whether the part begins with its size in bytes.
    is_sized: bool,
}

/// A custom section that follows the code.
#[derive(Drop)]
struct Follower<'a> {
    at: usize,
    parts: Vec<Part<'a>>,
    /// The bytes after the last part.
    following: &'a [u8],
}

/// What the items of a subsection of a name section follow, by its id; nothing if it is copied.
fn followed_names(id: u8, numbers: FunctionNumbers) -> Option<Follows> {
    match id {
        1 if !numbers.are_same() => Some(Follows::Functions),
        2 => Some(Follows::Locals),
        3 => Some(Follows::Labels),
        _ => None,
    }
}

/// The greatest number of parts of a name section that are changed.
fn most_parts(numbers: FunctionNumbers) -> usize {
    match numbers.are_same() {
        true => 2,
        false => 3,
    }
}

/// The items of a part of a name section.
fn read_items<'a>(
    alloc: Global,
    follows: Follows,
    part: Input<'a>,
    numbers: FunctionNumbers,
) -> Result<FunctionItems<'a>, ModuleError> {
    match follows {
        Follows::Functions => FunctionItems::read_names(alloc, part, numbers),
        _ => FunctionItems::read(alloc, part, numbers),
    }
}

/// The parts of a name section that are changed along with the code.
fn read_names<'a>(
    alloc: Global,
    section: &Section<'a>,
    numbers: FunctionNumbers,
) -> Result<Follower<'a>, ModuleError> {
    let (_, mut input) = section.named_input()?;
    let mut parts = Vec::new(alloc);
    let mut from = section.contents;
    // A subsection takes two bytes at least.
    for _ in 0..input.rest().len() {
        if input.is_empty() {
            break;
        }
        let id = input.byte()?;
        let before = from.until(&input);
        let len = input.number()?;
        let part = input.part(len as usize)?;
        let Some(follows) = followed_names(id, numbers) else {
            continue;
        };
        if parts.len() >= most_parts(numbers) {
            return Err(part.fault(ModuleFault::SectionOutOfOrder));
        }
        parts.push(Part {
            follows,
            items: read_items(alloc, follows, part, numbers)?,
            before,
            is_sized: true,
        })?;
        from = input;
    }
    Ok(Follower {
        at: section.at,
        parts,
        following: from.rest(),
    })
}

/// A section with metadata of code, which is one part.
fn read_metadata<'a>(
    alloc: Global,
    section: &Section<'a>,
    numbers: FunctionNumbers,
) -> Result<Follower<'a>, ModuleError> {
    let (_, input) = section.named_input()?;
    let mut parts = Vec::new(alloc);
    parts.push(Part {
        follows: Follows::Offsets,
        items: FunctionItems::read(alloc, input, numbers)?,
        before: section.contents.until(&input),
        is_sized: false,
    })?;
    Ok(Follower {
        at: section.at,
        parts,
        following: &[],
    })
}

/// The new index of each local of a function that is written.
pub(crate) fn local_numbers(
    parsed: &ParsedModule<'_>,
    function: &LocalFunction,
    start: usize,
) -> Result<IdHashMap<LocalId, u32>, ModuleError> {
    if !function.has_entry() {
        return Ok(IdHashMap::new(parsed.alloc));
    }
    let facts = match function.emit_facts() {
        Ok(facts) => facts,
        Err(error) => return Err(body_error(RewriteError::Walk(error), start)),
    };
    match function.emit_locals(&parsed.module, &parsed.spaces.numbers, &facts.used_locals) {
        Ok((_, numbers)) => Ok(numbers),
        Err(error) => Err(body_error(RewriteError::Emit(error), start)),
    }
}

/// The items of operators that are written, with their new offsets. The offset 0, where no operator
/// begins, belongs to the whole function and stays. Both lists are in ascending order of offsets.
fn follow_offsets<'a>(
    alloc: Global,
    items: &[Item<'a>],
    pairs: &[(InstrLocId, usize)],
    start: usize,
) -> Result<Vec<Item<'a>>, ModuleError> {
    let mut kept = Vec::new(alloc);
    let mut left = pairs;
    for (offset, bytes) in items {
        if *offset == 0 {
            kept.push((0, *bytes))?;
            continue;
        }
        let place = start.saturating_add(*offset as usize);
        'left: while let Some(((location, new), following)) = left.split_first() {
            let old = location.data() as usize;
            if old > place && !location.is_default() {
                break 'left;
            }
            left = following;
            if old == place {
                if let Ok(new) = u32::try_from(*new) {
                    kept.push((new, *bytes))?;
                }
                break 'left;
            }
        }
    }
    Ok(kept)
}

/// The names of locals that are written, with their new indices.
fn follow_locals<'a>(
    alloc: Global,
    items: &[Item<'a>],
    numbers: &IdHashMap<LocalId, u32>,
) -> Result<Vec<Item<'a>>, ModuleError> {
    let mut kept = Vec::new(alloc);
    for (local, bytes) in items {
        if let Some(number) = numbers.get(&LocalId::new(*local as usize)) {
            kept.push((*number, *bytes))?;
        }
    }
    Ok(kept)
}

/// A body that was rewritten.
#[derive(Clone, Copy)]
pub(crate) struct RewrittenBody<'b, 'a> {
    /// The body in the source.
    pub source: Body<'a>,
    /// Its function, as it is written.
    pub function: &'b LocalFunction,
    /// The location pairs; empty if they weren't requested.
    pub pairs: &'b [(InstrLocId, usize)],
    /// The raw body that is written.
    pub raw: &'b [u8],
}

impl<'a> Part<'a> {
    /// The items that remain of a function's items, with their new numbers.
    fn follow(
        &self,
        parsed: &ParsedModule<'a>,
        body: RewrittenBody<'_, 'a>,
        items: &[Item<'a>],
    ) -> Result<Vec<Item<'a>>, ModuleError> {
        let start = body.source.start();
        match self.follows {
            // No function has any of them.
            Follows::Functions => Ok(Vec::new(parsed.alloc)),
            Follows::Offsets => follow_offsets(parsed.alloc, items, body.pairs, start),
            Follows::Locals => {
                let numbers = local_numbers(parsed, body.function, start)?;
                follow_locals(parsed.alloc, items, &numbers)
            }
            Follows::Labels => follow_labels(parsed.alloc, items, body),
        }
    }

    /// Takes the items of a function whose body was rewritten, and writes those that remain.
    fn pass(
        &mut self,
        parsed: &ParsedModule<'a>,
        body: RewrittenBody<'_, 'a>,
    ) -> Result<(), ModuleError> {
        let func = body.source.func;
        if !self.items.has(func) {
            return Ok(());
        }
        let items = self.items.take()?;
        let mut kept = self.follow(parsed, body, &items)?;
        self.items.put(func, &mut kept)
    }

    /// Appends the bytes before the part, and the part.
    fn finish(&mut self, out: &mut Vec<u8>) -> Result<(), ModuleError> {
        out.extend_from_slice(self.before)?;
        self.items.finish(self.is_sized, out)
    }
}

/// Why a custom section that is copied unchanged may no longer be true.
#[derive(Clone, Copy, Debug, PartialEq, Eq)]
pub enum NoteKind {
    /// It contains the URL of a source map, which has offsets of the source.
    SourceMap,
    /// It contains debug information, with addresses in the code of the source, or the place of
    /// such information.
    DebugInfo,
    /// It contains names or metadata of code, but it can't be read, or there are too many such
    /// sections.
    NotFollowed,
}

/// A custom section that is copied unchanged, though the code has changed.
#[derive(Clone, Copy, Debug)]
pub struct Note<'a> {
    /// The name of the section.
    pub name: &'a str,
    /// Why it may no longer be true.
    pub kind: NoteKind,
}

/// Whether a custom section contains names, or metadata of code, by its name. Such a section is
/// changed along with the code.
pub(crate) fn follows_code(section: &Section<'_>) -> bool
    ensures { IsTrue result → HasFollowedName section.now.contents.rest.now }
{
    match section.named_input() {
        Ok((name, _)) => name == "name" || name.starts_with("metadata.code."),
        Err(_) => false,
    }
}

/// `ObjectFile` if a custom section contains symbols or relocations, by its name.
fn refuse_object(section: &Section<'_>) -> Result<(), ModuleError>
    ensures { OnOk result (IsLinked (section_at section.now)) }
{
    if section.kind != SectionKind::Custom {
        return Ok(());
    }
    match section.name() {
        Ok(name) if names_object(name) => Err(ModuleError {
            fault: ModuleFault::ObjectFile,
            at: section.at,
        }),
        Ok(_) => Ok(()),
        Err(error) => Err(error),
    }
}

/// Why a custom section with this name, copied unchanged, may no longer be true; `None` if it
/// contains no offsets into the code. Some sections of debug information have none, as
/// `.debug_str`.
fn note_on(name: &str) -> Option<NoteKind> {
    match name {
        "sourceMappingURL" => Some(NoteKind::SourceMap),
        "external_debug_info"
        | ".debug_addr"
        | ".debug_aranges"
        | ".debug_frame"
        | ".debug_info"
        | ".debug_line"
        | ".debug_loc"
        | ".debug_loclists"
        | ".debug_ranges"
        | ".debug_rnglists" => Some(NoteKind::DebugInfo),
        _ => None,
    }
}

/// The custom sections that are changed along with the code, and notes on others.
#[derive(Drop)]
pub(crate) struct Followers<'a> {
    sections: Vec<Follower<'a>>,
    /// The notes on sections that are copied unchanged.
    pub notes: Vec<Note<'a>>,
}

impl<'a> Followers<'a> {
    /// Reads the custom sections of a module.
    ///
    /// # Errors
    ///
    /// The first fault of its sections or of the name of a custom section; `ObjectFile`, with its
    /// place, at the first section that only an object file has; or `Memory`. Names and metadata of
    /// code that can't be read become a note.
    pub fn read(parsed: &ParsedModule<'a>) -> Result<Followers<'a>, ModuleError>
        ensures { (all : List SectionAt) → IsModule parsed.now.bytes.now all
            → OnOk result (Each IsLinked all) }
    {
        let mut followers = Followers {
            sections: Vec::new(parsed.alloc),
            notes: Vec::new(parsed.alloc),
        };
        let numbers = parsed.function_numbers()?;
        'sections: for section in Sections::new(parsed.bytes())? {
            let section = section?;
            refuse_object(&section)?;
            followers.add(parsed.alloc, &section, numbers)?;
        }
        Ok(followers)
    }

    /// Adds a section, if it is a custom one that is changed along with the code, or a note on it.
    fn add(
        &mut self,
        alloc: Global,
        section: &Section<'a>,
        numbers: FunctionNumbers,
    ) -> Result<(), ModuleError> {
        if section.kind != SectionKind::Custom {
            return Ok(());
        }
        let name = section.name()?;
        let read = if name == "name" {
            read_names(alloc, section, numbers)
        } else if name.starts_with("metadata.code.") {
            read_metadata(alloc, section, numbers)
        } else {
            return match note_on(name) {
                Some(kind) => self.note(name, kind),
                None => Ok(()),
            };
        };
        match read {
            Ok(followed) if self.sections.len() < MAX_FOLLOWED => {
                self.sections.push(followed)?;
                Ok(())
            }
            Err(error) if error.fault == ModuleFault::Memory => Err(error),
            _ => self.note(name, NoteKind::NotFollowed),
        }
    }

    fn note(&mut self, name: &'a str, kind: NoteKind) -> Result<(), ModuleError> {
        self.notes.push(Note { name, kind })?;
        Ok(())
    }

    /// What is needed of this function's body: its function, if a section has items of it. Copies the
    /// items of functions before it. The functions have to come in ascending order.
    pub fn reach(&mut self, func: usize) -> Result<Needed, ModuleError> {
        let mut needed = Needed::Nothing;
        for section in self.sections.iter_mut() {
            for part in section.parts.iter_mut() {
                match part.items.carry_before(func) {
                    Ok(()) => {}
                    Err(error) => return Err(error),
                }
                if part.items.has(func) {
                    needed = Needed::Function;
                }
            }
        }
        Ok(needed)
    }

    /// Changes the items of a function whose body was rewritten.
    pub fn pass(
        &mut self,
        parsed: &ParsedModule<'a>,
        source: Body<'a>,
        function: &LocalFunction,
        scratch: &Scratch,
    ) -> Result<(), ModuleError> {
        let body = RewrittenBody {
            source,
            function,
            pairs: &scratch.pairs,
            raw: &scratch.raw,
        };
        for section in self.sections.iter_mut() {
            for part in section.parts.iter_mut() {
                match part.pass(parsed, body) {
                    Ok(()) => {}
                    Err(error) => return Err(error),
                }
            }
        }
        Ok(())
    }

    /// The new contents of the sections, and the notes on others.
    pub fn finish(self, alloc: Global) -> Result<(Vec<Followed>, Vec<Note<'a>>), ModuleError> {
        let Followers {
            mut sections,
            notes,
        } = self;
        let mut followed = Vec::new(alloc);
        for section in sections.iter_mut() {
            let mut contents = Vec::new(alloc);
            for part in section.parts.iter_mut() {
                part.finish(&mut contents)?;
            }
            contents.extend_from_slice(section.following)?;
            followed.push(Followed {
                at: section.at,
                contents,
            })?;
        }
        Ok((followed, notes))
    }
}

/// New contents of a custom section that is changed along with the code.
#[derive(Drop)]
pub(crate) struct Followed {
    /// The place of the section in the source.
    at: usize,
    contents: Vec<u8>,
}

/// The new contents of the section at this place of the source, if it has some.
fn contents_at(followed: &[Followed], at: usize) -> Option<&[u8]> {
    followed
        .iter()
        .find(|followed| followed.at == at)
        .map(|followed| followed.contents.as_slice())
}

/// Whether these contents begin with the name of a custom section.
fn has_name_of(contents: &[u8], section: &Section<'_>) -> bool
    ensures { IsTrue result → HasSameName section.now.contents.rest.now contents.now }
{
    match section.named_input() {
        Ok((_, following)) => contents.starts_with(section.contents.until(&following)),
        Err(_) => false,
    }
}

/// The new contents of a custom section that is changed along with the code, if it has some. They
/// begin with the same name; those of a section with another name, at the same place of another
/// module, aren't taken.
pub(crate) fn contents_for<'f>(followed: &'f [Followed], section: &Section<'_>) -> Option<&'f [u8]>
    ensures { IfSome result (λ contents. HasSameName section.now.contents.rest.now contents.now) }
{
    match contents_at(followed, section.at) {
        Some(contents) if has_name_of(contents, section) => Some(contents),
        _ => None,
    }
}
