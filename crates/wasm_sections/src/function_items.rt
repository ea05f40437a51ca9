//! Items of functions in custom sections: a vector with, for each of some functions, its index and
//! a vector of items, each a number and a vector of bytes. Names of locals and of labels are such
//! items (WebAssembly core specification 3.0, custom sections, name section), and so is the
//! metadata of code, such as branch hints.

use crate::fault::{ModuleError, ModuleFault};
use crate::input::Input;
use crate::moved_functions::FunctionNumbers;
use crate::output::{number_len, write_bytes, write_number};
use std::alloc::Global;

/// An item: its number, and its bytes.
pub type Item<'a> = (u32, &'a [u8]);

/// Items of functions, in ascending order of functions: those of the source that are left, and
/// those that were written.
#[derive(Drop)]
pub struct FunctionItems<'a> {
    left: Input<'a>,
    written: Vec<u8>,
    functions: u32,
    /// The new indices of functions.
    numbers: FunctionNumbers,
}

/// Reads past the items of one function.
fn pass_items(input: &mut Input<'_>) -> Result<(), ModuleError> {
    for _ in 0..input.number()? {
        input.number()?;
        input.bytes()?;
    }
    Ok(())
}

/// Reads the index of a function and its name, and appends the new index and the name.
fn move_name(
    input: &mut Input<'_>,
    numbers: FunctionNumbers,
    out: &mut Vec<u8>,
) -> Result<(), ModuleError> {
    let func = input.number()?;
    let name = input.bytes()?;
    match write_number(out, numbers.moved(func)) {
        Ok(()) => write_bytes(out, name),
        Err(error) => Err(error),
    }
}

/// The items of one function.
fn read_items<'a>(alloc: Global, input: &mut Input<'a>) -> Result<Vec<Item<'a>>, ModuleError> {
    let mut items = Vec::new(alloc);
    for _ in 0..input.number()? {
        let number = input.number()?;
        let bytes = input.bytes()?;
        items.push((number, bytes))?;
    }
    Ok(items)
}

impl<'a> FunctionItems<'a> {
    /// The items of this part of a section.
    ///
    /// # Errors
    ///
    /// `Truncated`, `BadNumber` or `Trailing`; `SectionOutOfOrder` if functions aren't in ascending
    /// order.
    pub fn read(
        alloc: Global,
        part: Input<'a>,
        numbers: FunctionNumbers,
    ) -> Result<FunctionItems<'a>, ModuleError> {
        let mut input = part;
        let count = input.number()?;
        let left = input;
        let mut next = 0;
        for _ in 0..count {
            let begin = input;
            let func = input.number()?;
            if (func as usize) < next {
                return Err(begin.fault(ModuleFault::SectionOutOfOrder));
            }
            next = func as usize + 1;
            pass_items(&mut input)?;
        }
        input.finish()?;
        let mut written = Vec::new(alloc);
        written.reserve(left.rest().len())?;
        Ok(FunctionItems {
            left,
            written,
            functions: 0,
            numbers,
        })
    }

    /// The names of functions of this part of a name section, with their new indices. None of them
    /// is an item of a function, so none is left.
    ///
    /// # Errors
    ///
    /// `Truncated`, `BadNumber` or `Trailing`; `TooGreat` if a new index doesn't fit 32 bits.
    pub fn read_names(
        alloc: Global,
        part: Input<'a>,
        numbers: FunctionNumbers,
    ) -> Result<FunctionItems<'a>, ModuleError> {
        let mut left = part;
        let functions = left.number()?;
        let mut written = Vec::new(alloc);
        for _ in 0..functions {
            move_name(&mut left, numbers, &mut written)?;
        }
        left.finish()?;
        Ok(FunctionItems {
            left,
            written,
            functions,
            numbers,
        })
    }

    /// The index of the function whose items are next.
    fn next_func(&self) -> Option<usize> {
        let mut input = self.left;
        match input.number() {
            Ok(func) => Some(func as usize),
            Err(_) => None,
        }
    }

    /// Copies the items of the next function unchanged, after its new index.
    fn carry(&mut self) -> Result<(), ModuleError> {
        let mut input = self.left;
        let func = match input.number() {
            Ok(func) => func,
            Err(error) => return Err(error),
        };
        let begin = match self.numbers.are_same() {
            true => self.left,
            false => input,
        };
        match pass_items(&mut input) {
            Ok(()) => {}
            Err(error) => return Err(error),
        }
        if !self.numbers.are_same() {
            write_number(&mut self.written, self.numbers.moved(func))?;
        }
        self.written.extend_from_slice(begin.until(&input))?;
        self.functions = self.functions.saturating_add(1);
        self.left = input;
        Ok(())
    }

    /// Copies the items of functions before this one.
    pub fn carry_before(&mut self, func: usize) -> Result<(), ModuleError> {
        // The items of a function have at least two bytes.
        for _ in 0..self.left.rest().len() {
            match self.next_func() {
                Some(next) if next < func => {}
                _ => return Ok(()),
            }
            match self.carry() {
                Ok(()) => {}
                Err(error) => return Err(error),
            }
        }
        Ok(())
    }

    /// Whether the items of this function are next.
    pub fn has(&self, func: usize) -> bool {
        self.next_func() == Some(func)
    }

    /// Takes the items of the next function.
    pub fn take(&mut self) -> Result<Vec<Item<'a>>, ModuleError> {
        let mut input = self.left;
        input.number()?;
        let items = read_items(*self.written.allocator(), &mut input)?;
        self.left = input;
        Ok(items)
    }

    /// Writes the new index of a function, and the number of items that follow.
    fn put_front(&mut self, func: usize, count: usize) -> Result<(), ModuleError> {
        let Ok(index) = u32::try_from(func) else {
            return Err(self.left.fault(ModuleFault::TooGreat));
        };
        match write_number(&mut self.written, self.numbers.moved(index)) {
            Ok(()) => write_number(&mut self.written, count),
            Err(error) => Err(error),
        }
    }

    /// Writes an item.
    fn put_item(&mut self, item: &Item<'a>) -> Result<(), ModuleError> {
        match write_number(&mut self.written, item.0 as usize) {
            Ok(()) => write_bytes(&mut self.written, item.1),
            Err(error) => Err(error),
        }
    }

    /// Writes items of a function, in ascending order; nothing if there are none.
    pub fn put(&mut self, func: usize, items: &mut Vec<Item<'a>>) -> Result<(), ModuleError> {
        if items.is_empty() {
            return Ok(());
        }
        items.sort_unstable_by_key(|(number, _)| *number);
        match self.put_front(func, items.len()) {
            Ok(()) => {}
            Err(error) => return Err(error),
        }
        for item in items.iter() {
            match self.put_item(item) {
                Ok(()) => {}
                Err(error) => return Err(error),
            }
        }
        self.functions = self.functions.saturating_add(1);
        Ok(())
    }

    /// Appends the number of functions, and their items.
    fn append(&self, out: &mut Vec<u8>) -> Result<(), ModuleError> {
        match write_number(out, self.functions as usize) {
            Ok(()) => {}
            Err(error) => return Err(error),
        }
        out.extend_from_slice(&self.written)?;
        Ok(())
    }

    /// Appends the size of all, and all.
    fn append_sized(&self, out: &mut Vec<u8>) -> Result<(), ModuleError> {
        let len = number_len(self.functions as usize);
        match write_number(out, self.written.len().saturating_add(len)) {
            Ok(()) => self.append(out),
            Err(error) => Err(error),
        }
    }

    /// Copies the items that are left, and appends all: the number of functions, and their items,
    /// after the size of all if one is written.
    pub fn finish(&mut self, is_sized: bool, out: &mut Vec<u8>) -> Result<(), ModuleError> {
        match self.carry_before(usize::MAX) {
            Ok(()) => {}
            Err(error) => return Err(error),
        }
        match is_sized {
            true => self.append_sized(out),
            false => self.append(out),
        }
    }
}
