//! The names of a module's functions: those of its `name` section, and those under which they are
//! exported. What isn't as it should be is passed over.

use std::alloc::{AllocError, Global};
use wasm_module::{ParsedModule, Section, SectionKind};
use wasm_ops::read_u32;

/// The kind of exported functions.
const EXPORTED_FUNCTION: u8 = 0;

/// The id of the subsection with the names of functions.
const FUNCTION_NAMES: u8 = 1;

/// Bytes that are read from the front.
#[derive(Clone, Copy)]
pub(crate) struct Bytes<'a>(pub &'a [u8]);

impl<'a> Bytes<'a> {
    fn byte(&mut self) -> Option<u8> {
        let (first, others) = self.0.split_first()?;
        self.0 = others;
        Some(*first)
    }

    fn number(&mut self) -> Option<u32> {
        match read_u32(self.0) {
            Ok((number, others)) => {
                self.0 = others;
                Some(number)
            }
            Err(_) => None,
        }
    }

    /// As many bytes as the number before them says.
    fn bytes(&mut self) -> Option<&'a [u8]> {
        let len = self.number()? as usize;
        if len > self.0.len() {
            return None;
        }
        let (bytes, others) = self.0.split_at(len);
        self.0 = others;
        Some(bytes)
    }

    /// A name.
    pub fn text(&mut self) -> Option<&'a str> {
        match str::from_utf8(self.bytes()?) {
            Ok(text) => Some(text),
            Err(_) => None,
        }
    }

    /// An index and the name that it has.
    fn named(&mut self) -> Option<(u32, &'a str)> {
        let index = self.number()?;
        let name = self.text()?;
        Some((index, name))
    }

    /// The name of an export, its kind, and its index.
    fn export(&mut self) -> Option<(&'a str, u8, u32)> {
        let name = self.text()?;
        let kind = self.byte()?;
        let index = self.number()?;
        Some((name, kind, index))
    }
}

/// Which function has a name.
#[derive(Clone, Copy, Debug)]
pub enum Found {
    /// No function.
    None,
    /// The function with this index.
    One(usize),
    /// More than one; these are the first two.
    Several(usize, usize),
}

impl Found {
    /// What is found where this function has the name too.
    fn and(self, index: usize) -> Found {
        match self {
            Found::None => Found::One(index),
            Found::One(first) if first != index => Found::Several(first, index),
            found => found,
        }
    }
}

/// The function with this name in a list.
fn find_in(named: &[(u32, &str)], name: &str) -> Found {
    let mut found = Found::None;
    for (index, other) in named {
        if *other == name {
            found = found.and(*index as usize);
        }
    }
    found
}

/// The name of a function in a list that is sorted.
fn name_in<'a>(named: &[(u32, &'a str)], index: usize) -> Option<&'a str> {
    let Ok(index) = u32::try_from(index) else {
        return None;
    };
    match named.binary_search_by_key(&index, |(other, _)| *other) {
        Ok(at) => named.get(at).map(|(_, name)| *name),
        Err(_) => None,
    }
}

/// The names of a module's functions.
#[derive(Drop)]
pub struct FunctionNames<'a> {
    /// Those of the `name` section, sorted.
    named: Vec<(u32, &'a str)>,
    /// Those of exports, sorted.
    exported: Vec<(u32, &'a str)>,
}

impl<'a> FunctionNames<'a> {
    /// Those of a module.
    ///
    /// # Errors
    ///
    /// Where memory runs out.
    pub fn read(alloc: Global, parsed: &ParsedModule<'a>) -> Result<FunctionNames<'a>, AllocError> {
        let mut names = FunctionNames {
            named: Vec::new(alloc),
            exported: Vec::new(alloc),
        };
        if let Ok(sections) = parsed.sections() {
            for section in sections {
                if let Ok(section) = section {
                    names.add(&section)?;
                }
            }
        }
        names.named.sort_unstable();
        names.exported.sort_unstable();
        Ok(names)
    }

    /// Adds the names that are in a section.
    fn add(&mut self, section: &Section<'a>) -> Result<(), AllocError> {
        let mut bytes = Bytes(section.contents());
        match section.kind {
            SectionKind::Export => self.add_exports(bytes),
            SectionKind::Custom if bytes.text() == Some("name") => self.add_names(bytes),
            _ => Ok(()),
        }
    }

    fn add_exports(&mut self, mut exports: Bytes<'a>) -> Result<(), AllocError> {
        for _ in 0..exports.number().unwrap_or(0) {
            match exports.export() {
                Some((name, EXPORTED_FUNCTION, index)) => self.exported.push((index, name))?,
                Some(_) => {}
                None => break,
            }
        }
        Ok(())
    }

    fn add_names(&mut self, mut subsections: Bytes<'a>) -> Result<(), AllocError> {
        // A subsection takes two bytes at least.
        for _ in 0..subsections.0.len() {
            let (Some(id), Some(contents)) = (subsections.byte(), subsections.bytes()) else {
                break;
            };
            if id == FUNCTION_NAMES {
                self.add_function_names(Bytes(contents))?;
            }
        }
        Ok(())
    }

    fn add_function_names(&mut self, mut names: Bytes<'a>) -> Result<(), AllocError> {
        for _ in 0..names.number().unwrap_or(0) {
            match names.named() {
                Some(named) => self.named.push(named)?,
                None => break,
            }
        }
        Ok(())
    }

    /// The name of the function with this index: that of the `name` section, else that of an export.
    pub fn name_of(&self, index: usize) -> Option<&'a str> {
        match name_in(&self.named, index) {
            Some(name) => Some(name),
            None => name_in(&self.exported, index),
        }
    }

    /// The function with this name: in the `name` section, else of an export.
    pub fn find(&self, name: &str) -> Found {
        match find_in(&self.named, name) {
            Found::None => find_in(&self.exported, name),
            found => found,
        }
    }
}

/// The function whose body holds this place of the file.
pub fn function_at(parsed: &ParsedModule<'_>, place: usize) -> Option<usize> {
    let mut found = None;
    for body in parsed.bodies() {
        let start = body.start();
        if start <= place && place - start <= body.bytes().len() {
            found = Some(body.func);
        }
    }
    found
}
