//! Tags of exceptions (WebAssembly core specification 3.0, binary format, modules).

ghost use Rattle.std.specs.Prelude.{◌≡◌, ◌-◌, length, IfOk};
ghost use Rattle.wasm_numbers.specs.Results.{Gives};
ghost use Rattle.wasm_sections.specs.Format.{tag_part};

use crate::fault::{ModuleError, ModuleFault};
use crate::input::Input;
use crate::items::Items;

/// A tag that is defined in a module, and not imported.
#[derive(Clone, Copy)]
pub struct DefinedTag {
    /// The index of its type, a function type. The parameters are the values that its exceptions
    /// have.
    pub ty: u32,
    /// Its place: a byte offset from the start of the file.
    pub at: usize,
}

impl Input<'_> {
    /// The type index of a tag, which follows its attribute.
    pub fn tag(&mut self) -> Result<u32, ModuleError>
        ensures same_end { self.new.end ≡ self.old.end }
        ensures is { Gives (λ ty. (ty, self.new.rest.now)) result (tag_part self.old.end
            self.old.rest.now) }
    {
        let begin = *self;
        match self.byte()? {
            0 => self.number(),
            _ => Err(begin.fault(ModuleFault::BadTagAttribute)),
        }
    }

    /// A tag with its place.
    fn read_tag(&mut self) -> Result<DefinedTag, ModuleError>
        ensures place { IfOk result (λ x. x.at ≡ self.old.end - length self.old.rest.now) }
        ensures same_end { self.new.end ≡ self.old.end }
        ensures is { Gives (λ x. (x.ty, self.new.rest.now)) result (tag_part self.old.end
            self.old.rest.now) }
    {
        let at = self.at();
        match self.tag() {
            Ok(ty) => Ok(DefinedTag { ty, at }),
            Err(error) => Err(error),
        }
    }
}

/// The tags that a module defines, in order. Imported tags come before them. A fault is the last
/// item; a module that was read has none.
#[derive(Clone, Copy)]
pub struct Tags<'a> {
    /// The tags that are left.
    pub items: Items<'a>,
}

impl<'a> Iterator for Tags<'a> {
    ghost use Rattle.std.specs.Iterator.{at_most};
    ghost use Rattle.wasm_sections.specs.Views.{TakesTag};

    type Item = Result<DefinedTag, ModuleError>;

    ghost next_gives = { TakesTag };

    ghost remaining = { λ s. at_most s.items.count };

    fn next(&mut self) -> Option<Result<DefinedTag, ModuleError>> {
        let count = self.items.count.checked_sub(1)?;
        let mut left = self.items.left;
        match left.read_tag() {
            Ok(tag) => {
                self.items = Items { left, count };
                Some(Ok(tag))
            }
            Err(error) => {
                self.items.count = 0;
                Some(Err(error))
            }
        }
    }
}
