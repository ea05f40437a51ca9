//! Texts, which keep whether memory ran out, and what is appended to them.

use std::alloc::{AllocError, Global};
use std::fmt;
use walrus_ir::InstrLocId;

/// A text. What is appended after memory ran out is left out, so that this is looked at once, at
/// the end.
#[derive(Drop)]
pub(crate) struct Text {
    string: String,
    is_whole: bool,
}

impl Text {
    /// No text, without room.
    pub(crate) fn new(alloc: Global) -> Text {
        Text {
            string: String::new(alloc),
            is_whole: true,
        }
    }

    /// No text, with room for so many bytes.
    pub(crate) fn with_room(alloc: Global, room: usize) -> Result<Text, AllocError> {
        Ok(Text {
            string: String::with_capacity(alloc, room)?,
            is_whole: true,
        })
    }

    /// Appends a value. `write!` calls this.
    pub(crate) fn write_fmt<D: fmt::Display + Drop>(&mut self, value: D) {
        if self.is_whole {
            self.is_whole = self.string.write(value).is_ok();
        }
    }

    pub(crate) fn push_str(&mut self, text: &str) {
        if self.is_whole {
            self.is_whole = self.string.push_str(text).is_ok();
        }
    }

    pub(crate) fn push(&mut self, character: char) {
        if self.is_whole {
            self.is_whole = self.string.push(character).is_ok();
        }
    }

    /// Makes it no text again, with the room that it has.
    pub(crate) fn clear(&mut self) {
        self.string.clear();
        self.is_whole = true;
    }

    /// The text, unless memory ran out.
    pub(crate) fn whole(&self) -> Result<&str, AllocError> {
        if self.is_whole {
            Ok(self.string.as_str())
        } else {
            Err(AllocError)
        }
    }
}

/// Appends the error of a call, unless it is this one, that memory ran out.
pub(crate) fn push_error<E: fmt::Debug + PartialEq>(
    text: &mut Text,
    error: &E,
    memory: &E,
) -> Result<(), AllocError> {
    if *error == *memory {
        return Err(AllocError);
    }
    write!(text, " {error:?}");
    Ok(())
}

/// Appends numbers.
pub(crate) fn push_numbers(text: &mut Text, numbers: &[usize]) {
    for number in numbers {
        write!(text, " {number}");
    }
}

/// Appends whether things are so.
pub(crate) fn push_flags(text: &mut Text, flags: &[bool]) {
    for flag in flags {
        write!(text, " {flag}");
    }
}

/// Appends bytes, in hexadecimal.
pub(crate) fn push_bytes(text: &mut Text, bytes: &[u8]) {
    text.push(' ');
    for byte in bytes {
        write!(text, "{byte:02x}");
    }
}

/// Appends a location; `-` for the default location.
pub(crate) fn push_location(text: &mut Text, location: InstrLocId) {
    if location.is_default() {
        text.push('-');
    } else {
        write!(text, "{}", location.data());
    }
}

/// Appends locations, each with its place.
pub(crate) fn push_pairs(text: &mut Text, pairs: &[(InstrLocId, usize)]) {
    for (location, place) in pairs {
        text.push(' ');
        push_location(text, *location);
        write!(text, "@{place}");
    }
}
