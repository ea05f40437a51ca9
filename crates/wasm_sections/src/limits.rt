//! Limits of tables and memories (WebAssembly core specification 3.0, binary format, types).

ghost use Rattle.std.specs.Prelude.{◌≡◌, option_map};
ghost use Rattle.wasm_numbers.specs.Results.{Gives, some_or};
ghost use Rattle.wasm_sections.specs.declared.fault.ModuleFault.TheVariants.{BadLimits};
ghost use Rattle.wasm_sections.specs.Format.{limit_flags, size_part, maximum_part, limits_part, flags_said};
ghost use Rattle.wasm_sections.specs.Parts.{checked, one_byte};

use crate::fault::{ModuleError, ModuleFault};
use crate::input::Input;

/// The limits of the size of a table, in elements, or of a memory, in pages.
#[derive(Clone, Copy, Debug)]
pub struct Limits {
    /// The size at the start.
    pub min: u64,
    /// The greatest size, if there is one.
    pub max: Option<u64>,
    /// Whether it is a shared memory, of the proposal for threads; these have a greatest size.
    pub is_shared: bool,
    /// Whether its addresses and its sizes have 64 bits, and not 32.
    pub is_64: bool,
}

/// What the flags of limits say.
#[derive(Clone, Copy)]
struct Flags {
    has_max: bool,
    is_shared: bool,
    is_64: bool,
}

/// The flags with this number, if there are such.
fn flags_of(number: u8) -> Option<Flags>
    ensures { limit_flags number ≡ some_or (option_map flags_said result) BadLimits }
{
    let (has_max, is_shared, is_64) = match number {
        0 => (false, false, false),
        1 => (true, false, false),
        3 => (true, true, false),
        4 => (false, false, true),
        5 => (true, false, true),
        7 => (true, true, true),
        _ => return None,
    };
    Some(Flags {
        has_max,
        is_shared,
        is_64,
    })
}

impl Input<'_> {
    /// The flags of limits; `BadLimits` if there are no such flags.
    fn flags(&mut self) -> Result<Flags, ModuleError>
        ensures same_end { self.new.end ≡ self.old.end }
        ensures is { Gives (λ f. (flags_said f, self.new.rest.now)) result
            (checked one_byte limit_flags self.old.end self.old.rest.now) }
    {
        let begin = *self;
        match flags_of(self.byte()?) {
            Some(flags) => Ok(flags),
            None => Err(begin.fault(ModuleFault::BadLimits)),
        }
    }

    /// A size, in 64 bits or in 32.
    fn size(&mut self, is_64: bool) -> Result<u64, ModuleError>
        ensures same_end { self.new.end ≡ self.old.end }
        ensures is { Gives (λ n. (n, self.new.rest.now)) result (size_part is_64 self.old.end
            self.old.rest.now) }
    {
        if is_64 {
            match self.long_number() {
                Ok(size) => Ok(size),
                Err(error) => Err(error),
            }
        } else {
            match self.number() {
                Ok(size) => Ok(size as u64),
                Err(error) => Err(error),
            }
        }
    }

    /// The greatest size, if there is one.
    fn maximum(&mut self, has_max: bool, is_64: bool) -> Result<Option<u64>, ModuleError>
        ensures same_end { self.new.end ≡ self.old.end }
        ensures is { Gives (λ max. (max, self.new.rest.now)) result (maximum_part has_max is_64
            self.old.end self.old.rest.now) }
    {
        if has_max {
            match self.size(is_64) {
                Ok(max) => Ok(Some(max)),
                Err(error) => Err(error),
            }
        } else {
            Ok(None)
        }
    }

    /// Limits. Their flags say whether there is a maximum, whether a memory is shared, which
    /// requires a maximum (the proposal for threads), and whether the numbers have 64 bits.
    pub fn limits(&mut self) -> Result<Limits, ModuleError>
        ensures same_end { self.new.end ≡ self.old.end }
        ensures is { Gives (λ l. (l, self.new.rest.now)) result (limits_part self.old.end
            self.old.rest.now) }
    {
        let flags = match self.flags() {
            Ok(flags) => flags,
            Err(error) => return Err(error),
        };
        let min = match self.size(flags.is_64) {
            Ok(min) => min,
            Err(error) => return Err(error),
        };
        match self.maximum(flags.has_max, flags.is_64) {
            Ok(max) => Ok(Limits {
                min,
                max,
                is_shared: flags.is_shared,
                is_64: flags.is_64,
            }),
            Err(error) => Err(error),
        }
    }
}
