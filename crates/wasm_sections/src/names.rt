//! The names of functions in the custom section `name` (WebAssembly core specification 3.0, name
//! section).

ghost use Rattle.std.specs.Prelude.{◌≡◌, ◌-◌, length, IfOk, IfSome};
ghost use Rattle.wasm_sections.specs.Views.{BeginsNamed, HasSubsection, HasNames};

use crate::fault::ModuleError;
use crate::input::Input;
use crate::items::Items;
use crate::sections::Section;

/// The id of the subsection with the names of functions.
const FUNCTION_NAMES: u8 = 1;

/// A function that has a name.
#[derive(Clone, Copy, Debug)]
pub struct NamedFunction<'a> {
    /// The index of the function, which need not exist.
    pub index: u32,
    /// Its name.
    pub name: &'a str,
    /// The place of the index: a byte offset from the start of the file.
    pub at: usize,
}

impl<'a> Input<'a> {
    /// The contents of the first subsection with this id, if there is one.
    fn subsection(&mut self, id: u8) -> Result<Option<Input<'a>>, ModuleError>
        ensures { IfOk result (λ found. IfSome found (λ contents.
            HasSubsection id self.old.rest.now contents.rest.now)) }
    {
        'subsections: while !self.is_empty() {
            let next = self.byte()?;
            let len = self.number()?;
            let contents = self.part(len as usize)?;
            if next == id {
                return Ok(Some(contents));
            }
        }
        Ok(None)
    }

    /// The index and the name of a function.
    fn read_named(&mut self) -> Result<NamedFunction<'a>, ModuleError>
        ensures begins { IfOk result (λ x. BeginsNamed self.old.rest.now x.index x.name.now
            self.new.rest.now) }
        ensures place { IfOk result (λ x. x.at ≡ self.old.end - length self.old.rest.now) }
        ensures same_end { IfOk result (λ _. self.new.end ≡ self.old.end) }
    {
        let at = self.at();
        let index = self.number()?;
        let name = self.name()?;
        Ok(NamedFunction { index, name, at })
    }
}

impl<'a> Section<'a> {
    /// The functions that have names in this section, which is the custom section `name`; none if it
    /// has no names of functions.
    ///
    /// # Errors
    ///
    /// `Truncated`, `Read` or `BadName`. What is in a custom section isn't checked when the module
    /// is read.
    pub fn named_functions(&self) -> Result<NamedFunctions<'a>, ModuleError>
        ensures { IfOk result (λ names. HasNames self.now.contents.rest.now names.items) }
    {
        let (_, mut following) = self.named_input()?;
        match following.subsection(FUNCTION_NAMES) {
            Ok(Some(names)) => match Items::of_contents(names) {
                Ok(items) => Ok(NamedFunctions { items }),
                Err(error) => Err(error),
            },
            Ok(None) => Ok(NamedFunctions {
                items: Items::none(),
            }),
            Err(error) => Err(error),
        }
    }
}

/// The functions that have names in the custom section `name`, in its order. A fault is the last
/// item: `Truncated`, `Read` or `BadName`.
#[derive(Clone, Copy)]
pub struct NamedFunctions<'a> {
    pub(crate) items: Items<'a>,
}

impl<'a> Iterator for NamedFunctions<'a> {
    ghost use Rattle.std.specs.Iterator.{at_most};
    ghost use Rattle.wasm_sections.specs.Views.{TakesNamed};

    type Item = Result<NamedFunction<'a>, ModuleError>;

    ghost next_gives = { TakesNamed };

    ghost remaining = { λ s. at_most s.items.count };

    fn next(&mut self) -> Option<Result<NamedFunction<'a>, ModuleError>> {
        let count = self.items.count.checked_sub(1)?;
        let mut left = self.items.left;
        match left.read_named() {
            Ok(named) => {
                self.items = Items { left, count };
                Some(Ok(named))
            }
            Err(error) => {
                self.items.count = 0;
                Some(Err(error))
            }
        }
    }
}
