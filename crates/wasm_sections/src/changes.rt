//! New contents of the sections of a module.

ghost use Rattle.std.specs.Prelude.{◌≡◌, ◌<◌, ◌≤◌, [], length, take, Some, None, IfSome, IfNone, IfOk, IfErr, OnOk, OnErr};
ghost use Rattle.wasm_sections.specs.Additions.{AddsAfter, AreUnchanged, IsGivenAt, SetsContents, given_or, IsTooMuch, IsNotAdded};
ghost use Rattle.wasm_sections.specs.Sections.{section_id};
ghost use Rattle.wasm_sections.specs.GivenContents.{contents_in};

use crate::appending::{append_item, check_len, with_item};
use crate::fault::{ModuleError, ModuleFault};
use crate::sections::SectionKind;
use std::alloc::Global;

/// New contents for the section of a kind. If the module has no such section, a new one is written.
#[derive(Drop)]
pub struct NewContents {
    /// The kind of the section, not `Custom`. For `Code` the contents are the bodies that are added.
    pub kind: SectionKind,
    /// The new contents, without the section's id and size.
    pub contents: Vec<u8>,
}

/// New contents of sections, at most one for each kind, in the order of the sections in a module.
/// There are none for custom sections, and for the code section only bodies that are added to it.
#[derive(Drop)]
pub struct Changes {
    /// The new contents.
    pub given: Vec<NewContents>,
    /// The number of functions that they import.
    pub imports: usize,
}

impl Changes {
    /// No changes. This allocates nothing.
    pub fn new(alloc: Global) -> Changes
        ensures none_given { result.given.items ≡ [] }
        ensures no_imports { result.imports ≡ 0 }
    {
        Changes {
            given: Vec::new(alloc),
            imports: 0,
        }
    }

    /// The position of the section of this kind in the list, if contents are given for it.
    fn given_at(&self, kind: SectionKind) -> Option<usize>
        ensures within { IfSome result (λ at. at < length self.now.given.items) }
        ensures found { IfSome result (IsGivenAt self.now.given.items (section_id kind)) }
        ensures none { IfNone result (contents_in self.now.given.items (section_id kind) ≡ None) }
    {
        'given: for (at, given) in self.given.iter().enumerate() {
            if given.kind.id() == kind.id() {
                return Some(at);
            }
        }
        None
    }

    /// The position of the section of this kind in the list; or the one where it has to be put.
    fn place_of(&self, kind: SectionKind) -> Result<usize, usize>
        ensures within { IfOk result (λ at. at < length self.now.given.items) }
        ensures found { IfOk result (IsGivenAt self.now.given.items (section_id kind)) }
        ensures bound { IfErr result (λ at. at ≤ length self.now.given.items) }
        ensures before { IfErr result
            (λ at. contents_in (take at self.now.given.items) (section_id kind) ≡ None) }
    {
        let (id, rank) = (kind.id(), kind.rank());
        'given: for (at, given) in self.given.iter().enumerate() {
            if given.kind.id() == id {
                return Ok(at);
            }
            if given.kind.rank() > rank {
                return Err(at);
            }
        }
        Err(self.given.len())
    }

    /// Puts contents in place of those that are given for their section, or before those of the
    /// sections after it.
    pub(crate) fn put(&mut self, given: NewContents) -> Result<(), ModuleError>
        ensures sets { OnOk result (SetsContents self.old self.new (section_id given.kind)
            given.contents.items) }
        ensures refused { OnErr result (AreUnchanged self.old self.new) }
        ensures memory { IfErr result IsTooMuch }
    {
        match self.place_of(given.kind) {
            Ok(at) => {
                self.given[at] = given;
                Ok(())
            }
            Err(at) => match self.given.insert(at, given) {
                Ok(()) => Ok(()),
                Err(failed) => Err(ModuleError::from(failed)),
            },
        }
    }

    /// Adds an item after those that are given for the section of this kind, or else after these.
    ///
    /// # Errors
    ///
    /// `TooGreat` if the number of bytes or of items doesn't fit 32 bits; the fault of the number with which
    /// contents begin that were given before; or `Memory`.
    pub fn add_after(
        &mut self,
        kind: SectionKind,
        others: &[u8],
        item: &[u8],
    ) -> Result<(), ModuleError>
        ensures ok { OnOk result (AddsAfter self.old self.new (section_id kind) others.now item.now) }
        ensures err { OnErr result (AreUnchanged self.old self.new) }
        ensures refused { IfErr result
            (IsNotAdded (given_or (contents_in self.old.given.items (section_id kind)) others.now)) }
    {
        match self.given_at(kind) {
            Some(at) => append_item(&mut self.given[at].contents, item),
            None => {
                let contents = with_item(*self.given.allocator(), others, item, 0)?;
                check_len(contents.len())?;
                self.put(NewContents { kind, contents })
            }
        }
    }

    /// Sets the contents of the section of this kind, without its id and size. They replace those
    /// of the module, and those of an earlier call. If the module has no such section, a new one is
    /// written.
    ///
    /// # Errors
    ///
    /// `SectionOutOfOrder` if the kind is `Custom` or `Code`; `TooGreat` if the number of bytes
    /// doesn't fit 32 bits; or `Memory`. The changes are as before then.
    pub fn set_contents(&mut self, kind: SectionKind, contents: Vec<u8>) -> Result<(), ModuleError>
        ensures sets { OnOk result (SetsContents self.old self.new (section_id kind) contents.items) }
        ensures refused { OnErr result (AreUnchanged self.old self.new) }
    {
        let fault = match kind {
            SectionKind::Custom | SectionKind::Code => Some(ModuleFault::SectionOutOfOrder),
            _ if contents.len() > u32::MAX as usize => Some(ModuleFault::TooGreat),
            _ => None,
        };
        match fault {
            Some(fault) => Err(ModuleError { fault, at: 0 }),
            None => self.put(NewContents { kind, contents }),
        }
    }

    /// The new contents of the section of this kind, without its id and size; `None` if no call has
    /// set them. For the code section they are the bodies that were added to it, and their number.
    pub fn contents_of(&self, kind: SectionKind) -> Option<&[u8]>
        ensures some { IfSome result (λ contents. contents_in self.now.given.items (section_id kind)
            ≡ Some contents.now) }
        ensures none { IfNone result (contents_in self.now.given.items (section_id kind) ≡ None) }
    {
        'given: for given in &self.given {
            if given.kind.id() == kind.id() {
                return Some(given.contents.as_slice());
            }
        }
        None
    }
}
