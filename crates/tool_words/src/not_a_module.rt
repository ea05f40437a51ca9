//! What a file is that isn't a module, where it may be taken for one.

ghost use Rattle.std.specs.Prelude.{◌≡◌, ◌≢◌, [], Some, true};
ghost use Rattle.std.specs.List.{starts_with};
ghost use Rattle.tool_words.specs.NotAModules.{component_front, same_byte};
ghost use Rattle.tool_words.specs.declared.not_a_module.NotAModule.TheVariants as kind;

use std::fmt;

/// With these bytes a component begins, which holds modules.
const COMPONENT: &[u8] = b"\0asm\x0d\0\x01\0";

/// What isn't a module, though it is given as one.
#[derive(Clone, Copy)]
pub(crate) enum NotAModule {
    /// No bytes.
    Empty,
    /// A component.
    Component,
    /// A module in the text format.
    Text,
}

/// Whether a text begins as a module in the text format does: with a parenthesis, or a comment,
/// after white space.
fn is_text(bytes: &[u8]) -> bool {
    let bytes = bytes.trim_ascii_start();
    bytes.starts_with(b"(") || bytes.starts_with(b";;")
}

impl NotAModule {
    /// What these bytes are that aren't a module, where that is known.
    pub fn of(bytes: &[u8]) -> Option<NotAModule>
        ensures empty { bytes.now ≡ [] → result ≡ Some kind.Empty }
        ensures component { starts_with same_byte bytes.now component_front ≡ true → result ≡ Some kind.Component }
    {
        if bytes.is_empty() {
            return Some(NotAModule::Empty);
        }
        if bytes.starts_with(COMPONENT) {
            return Some(NotAModule::Component);
        }
        match is_text(bytes) {
            true => Some(NotAModule::Text),
            false => None,
        }
    }
}

/// What it is, and what helps.
impl fmt::Display for NotAModule {
    fn fmt<W: fmt::Write>(&self, f: &mut fmt::Formatter<W>) -> fmt::Result {
        f.write_str(match self {
            NotAModule::Empty => "the file is empty",
            NotAModule::Component => "this is a component: unbundle it first",
            NotAModule::Text => "this is the text format: use wat2wasm first",
        })
    }
}
