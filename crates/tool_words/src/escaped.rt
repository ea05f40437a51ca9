//! Text from a module, a word or a path, as it is printed.

use std::fmt;
use std::fmt::Write;

/// Text whose control characters are printed as escapes, so that a terminal doesn't obey it.
#[derive(Clone, Copy)]
pub struct Escaped<'a>(pub &'a str);

impl fmt::Display for Escaped<'_> {
    fn fmt<W: fmt::Write>(&self, f: &mut fmt::Formatter<W>) -> fmt::Result {
        for c in self.0.chars() {
            if c.is_control() {
                let escape = c.escape_default();
                write!(f, "{escape}")?;
            } else {
                f.write_char(c)?;
            }
        }
        Ok(())
    }
}
