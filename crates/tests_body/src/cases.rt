//! Tables of cases: for each text or function, the expected result as text.
use crate::by_hand::{Item, function};
use crate::emitting::written_text;
use crate::reading::push_read;
use crate::small_module::{Setting, push_entry, push_noted, push_parsed};
use crate::validators::{Counting, Keeping};
use std::alloc::Global;
use std::process::Abort;
use std::test::Fail;
use walrus_body::{AcceptAll, LocalFunction};

/// What is checked about a text.
#[derive(Clone, Copy)]
pub(crate) enum About {
    /// The function that is parsed from a body, or the body's first fault.
    Function(Setting),
    /// The first sequence of that function.
    Entry,
    /// The function, with a validator that refuses the third operator with 7.
    Counted,
    /// The function, with a validator that records places and refuses the fourth operator with 9.
    Kept,
    /// The places at which a validator is called.
    Noted,
    /// The operators that are read, starting at a place.
    Read(u32),
}

// Appends the result for a text.
fn push_result(found: &mut String, about: About, text: &str) -> Result<(), Fail> {
    match about {
        About::Function(setting) => push_parsed(found, setting, text, AcceptAll),
        About::Entry => push_entry(found, text),
        About::Counted => push_parsed(found, Setting::PLAIN, text, Counting { left: 2 }),
        About::Kept => {
            let places = Vec::new(*found.allocator());
            push_parsed(found, Setting::PLAIN, text, Keeping { places })
        }
        About::Noted => push_noted(found, text),
        About::Read(start) => push_read(found, text, start),
    }
}

/// Checks texts, each of which comes before its expected result.
pub(crate) fn check(
    rt: &impl Abort,
    alloc: Global,
    about: About,
    cases: &[(&str, &str)],
) -> Result<(), Fail> {
    for (text, expected) in cases {
        let mut found = String::new(alloc);
        push_result(&mut found, about, text)?;
        assert_eq!(rt; found.as_str(), *expected, "of {text}");
    }
    Ok(())
}

fn made_result(alloc: Global, instrs: &[Item]) -> Result<String, Fail> {
    let builder = function(alloc, 3, instrs)?;
    written_text(alloc, &LocalFunction::new(Vec::new(alloc), builder))
}

/// Checks bytes and pairs of functions of three sequences made by hand.
pub(crate) fn check_written(
    rt: &impl Abort,
    alloc: Global,
    cases: &[(&[Item], &str)],
) -> Result<(), Fail> {
    for (instrs, expected) in cases {
        let found = made_result(alloc, instrs)?;
        assert_eq!(rt; found.as_str(), *expected);
    }
    Ok(())
}
