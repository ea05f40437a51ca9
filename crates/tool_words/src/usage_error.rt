//! Wrong use of a program.

use crate::escaped::Escaped;
use std::fmt;

/// What is wrong with the words of a program.
#[derive(Clone, Copy)]
pub enum UsageError<'w> {
    /// Of several programs in one none is named.
    NoProgram,
    /// Of several programs in one none has this name.
    UnknownProgram(&'w str),
    /// The program takes no option with this name.
    UnknownOption(&'w str),
    /// An option is given twice.
    GivenTwice(&'w str),
    /// An option is given without its value.
    NoValue(&'w str),
    /// A value is given with an option that takes none.
    UnwantedValue(&'w str),
    /// An option is given without another that it requires.
    Requires(&'w str, &'w str),
    /// An option is given with another one that writes no module.
    NotWith(&'w str, &'w str),
    /// Two options are given that exclude each other.
    NotBoth(&'w str, &'w str),
    /// The path of the module that is read is missing.
    NoInput,
    /// The path of the module that is written is missing, and standard output is a terminal.
    NoOutput,
    /// A path is empty.
    EmptyPath,
    /// The functions are missing.
    NoFunctions,
    /// A word is too many.
    Unexpected(&'w str),
    /// Two of the files that are read and written are one.
    SameFile(&'w str, &'w str),
    /// A module would be written to a terminal.
    Terminal,
    /// The word with this number isn't UTF-8.
    NotUtf8(usize),
    /// A name in a file of names isn't UTF-8.
    NameNotUtf8,
    /// The module has no function with this name or index.
    NoFunction(&'w str),
    /// The function with this name or index is imported.
    Imported(&'w str),
    /// No function with a body has a name that contains a match of this regular expression.
    NoMatch(&'w str),
    /// This is no regular expression.
    BadPattern(&'w str, regex::Error),
    /// More than one function has this name; these are the first two.
    Ambiguous(&'w str, usize, usize),
}

/// The line for a wrong use: texts, with a word after the first and one after the second.
#[derive(Clone, Copy)]
struct Line<'w> {
    first: &'static str,
    word: &'w str,
    second: &'static str,
    other: &'w str,
    third: &'static str,
}

impl<'w> Line<'w> {
    /// A line with no word.
    fn text(text: &'static str) -> Line<'w> {
        Line::with(text, "", "")
    }

    /// A line with one word, between two texts.
    fn with(before: &'static str, word: &'w str, after: &'static str) -> Line<'w> {
        Line {
            first: before,
            word,
            second: after,
            other: "",
            third: "",
        }
    }

    /// The line for a wrong use, without the number at its front or the fault at its end.
    fn of(wrong: UsageError<'w>) -> Line<'w> {
        match wrong {
            UsageError::NoProgram => Line::text("no program is named"),
            UsageError::UnknownProgram(name) => Line::with("unknown program '", name, "'"),
            UsageError::UnknownOption(name) => Line::with("unknown option '", name, "'"),
            UsageError::GivenTwice(name) => Line::with("option '", name, "' is given twice"),
            UsageError::NoValue(name) => Line::with("option '", name, "' requires a value"),
            UsageError::UnwantedValue(name) => Line::with("option '", name, "' takes no value"),
            UsageError::Requires(name, other) => Line {
                first: "option '",
                word: name,
                second: "' requires '",
                other,
                third: "'",
            },
            UsageError::NotWith(name, other) => Line {
                first: "option '",
                word: name,
                second: "' can't be used with '",
                other,
                third: "', which writes no module",
            },
            UsageError::NotBoth(name, other) => Line {
                first: "option '",
                word: name,
                second: "' can't be used with '",
                other,
                third: "'",
            },
            UsageError::NoInput => Line::text("no file to read is given"),
            UsageError::NoOutput => Line::text("no file to write is given"),
            UsageError::EmptyPath => Line::text("a path is empty"),
            UsageError::NoFunctions => Line::text("no function is given"),
            UsageError::Unexpected(word) => Line::with("unexpected word '", word, "'"),
            UsageError::SameFile(word, other) => Line {
                first: "'",
                word,
                second: "' and '",
                other,
                third: "' are the same file",
            },
            UsageError::Terminal => {
                Line::text("standard output is a terminal, and a module isn't text")
            }
            UsageError::NotUtf8(_) => Line::text(" isn't UTF-8, which a path has to be"),
            UsageError::NameNotUtf8 => Line::text("the name isn't UTF-8"),
            UsageError::NoFunction(word) => Line::with("the module has no function '", word, "'"),
            UsageError::Imported(word) => {
                Line::with("function '", word, "' is imported, so that it has no body")
            }
            UsageError::NoMatch(text) => Line::with("no function matches '", text, "'"),
            UsageError::BadPattern(text, _) => Line::with(
                "'",
                text,
                "' is no regular expression: ",
            ),
            UsageError::Ambiguous(word, _, _) => Line::with("'", word, "': give an index"),
        }
    }
}

impl fmt::Display for Line<'_> {
    fn fmt<W: fmt::Write>(&self, f: &mut fmt::Formatter<W>) -> fmt::Result {
        let (word, other) = (Escaped(self.word), Escaped(self.other));
        let (first, second, third) = (self.first, self.second, self.third);
        write!(f, "{first}{word}{second}{other}{third}")
    }
}

/// What the line for a wrong use begins with.
#[derive(Clone, Copy)]
struct Front<'w>(UsageError<'w>);

impl fmt::Display for Front<'_> {
    fn fmt<W: fmt::Write>(&self, f: &mut fmt::Formatter<W>) -> fmt::Result {
        match self.0 {
            UsageError::Ambiguous(_, first, second) => {
                write!(f, "functions {first} and {second} are both named ")
            }
            UsageError::NotUtf8(number) => write!(f, "word {number}"),
            _ => Ok(()),
        }
    }
}

/// What the line for a wrong use ends with.
#[derive(Clone, Copy)]
struct End<'w>(UsageError<'w>);

impl fmt::Display for End<'_> {
    fn fmt<W: fmt::Write>(&self, f: &mut fmt::Formatter<W>) -> fmt::Result {
        match self.0 {
            UsageError::BadPattern(_, error) => write!(f, "{error}"),
            _ => Ok(()),
        }
    }
}

impl fmt::Display for UsageError<'_> {
    fn fmt<W: fmt::Write>(&self, f: &mut fmt::Formatter<W>) -> fmt::Result {
        let (front, line, end) = (Front(*self), Line::of(*self), End(*self));
        write!(f, "{front}{line}{end}")
    }
}
