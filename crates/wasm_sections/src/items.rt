//! The items of a section or a subsection, one after the other.

ghost use Rattle.std.specs.Prelude.{◌≡◌, Ok, IfOk};
ghost use Rattle.wasm_numbers.specs.Numbers.{u32};
ghost use Rattle.wasm_numbers.specs.Results.{Gives};
ghost use Rattle.wasm_sections.specs.Parts.{number};

use crate::fault::ModuleError;
use crate::input::Input;

/// The items of a section that are left, and their number.
#[derive(Clone, Copy)]
pub struct Items<'a> {
    /// The bytes of the items that are left.
    pub left: Input<'a>,
    /// How many items are left.
    pub count: u32,
}

impl<'a> Items<'a> {
    /// The items of a section or a subsection with these contents, which begin with their number.
    pub fn of_contents(contents: Input<'a>) -> Result<Items<'a>, ModuleError>
        ensures count { IfOk result (λ items. u32 contents.entry.rest.now
            ≡ Ok (items.count, items.left.rest.now)) }
        ensures end { IfOk result (λ items. items.left.end ≡ contents.entry.end) }
        ensures is { Gives (λ items. (items.count, items.left.rest.now)) result
            (number contents.entry.end contents.entry.rest.now) }
    {
        let mut left = contents;
        match left.number() {
            Ok(count) => Ok(Items { left, count }),
            Err(error) => Err(error),
        }
    }

    /// No items.
    pub fn none() -> Items<'static>
        ensures { result.count ≡ 0 }
    {
        Items {
            left: Input::new(&[]),
            count: 0,
        }
    }
}
