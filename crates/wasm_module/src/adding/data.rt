//! Data segments that are added (WebAssembly core specification 3.0, binary format, data section and
//! data count section).
ghost use Rattle.std.specs.Prelude.{◌≡◌, ◌+◌, ◌++◌, true, List, OnOk, IfOk};
ghost use Rattle.wasm_operators.specs.declared.types.Space.TheVariants.{Data};
ghost use Rattle.wasm_operators.specs.Shortest.{short_number};
ghost use Rattle.wasm_sections.specs.Additions.{SetsContents};
ghost use Rattle.wasm_sections.specs.DefinedItems.{NumbersData};
ghost use Rattle.wasm_module.specs.AddedItems.{active_data, passive_data, has_data_count, HasSegments, AddsData, ChangesNumbersAlone};
ghost use Rattle.wasm_sections.specs.Sections.{SectionAt, IsModule};

use crate::parsed::ParsedModule;
use walrus_ir::{DataId, Value};
use wasm_sections::{
    Changes, Input, ModuleError, SectionKind, write_bytes, write_constant, write_number,
};

/// Appends an active data segment: it is put into memory 0, from this address on.
#[tactic(auto, using(wasm_encode::proofs::Appending::appending))]
fn write_active(out: &mut Vec<u8>, address: i32, bytes: &[u8]) -> Result<(), ModuleError>
    ensures { OnOk result (out.new.items ≡ out.old.items ++ active_data address bytes.now) }
{
    out.push(0)?;
    match write_constant(out, Value::I32(address)) {
        Ok(()) => write_bytes(out, bytes),
        Err(error) => Err(error),
    }
}

/// Appends a passive data segment.
#[tactic(auto, using(wasm_encode::proofs::Appending::appending))]
fn write_passive(out: &mut Vec<u8>, bytes: &[u8]) -> Result<(), ModuleError>
    ensures { OnOk result (out.new.items ≡ out.old.items ++ passive_data bytes.now) }
{
    out.push(1)?;
    write_bytes(out, bytes)
}

impl<'a> ParsedModule<'a> {
    /// Adds a data segment after all others, which is put into memory 0 from this address on, when
    /// the module is instantiated. An address of 2^31 or more is the negative `i32` with its bits.
    ///
    /// # Errors
    ///
    /// `TooGreat` if the number of bytes or of segments doesn't fit 32 bits; or `Memory`.
    pub fn add_data(
        &mut self,
        changes: &mut Changes,
        address: i32,
        bytes: &[u8],
    ) -> Result<(), ModuleError>
        ensures ok { (all : List SectionAt) → IsModule self.old.bytes.now all → OnOk result
            (AddsData all changes.old changes.new (has_data_count all changes.old)
            (active_data address bytes.now)) }
        ensures kept { ChangesNumbersAlone Data self.old self.new }
    {
        let mut segment = Vec::new(self.alloc);
        match write_active(&mut segment, address, bytes) {
            Ok(()) => {}
            Err(error) => return Err(error),
        }
        match self.add_segment(changes, &segment) {
            Ok(()) => Ok(()),
            Err(error) => Err(error),
        }
    }

    /// Adds a passive data segment after all others, which changes of functions may then name. If
    /// the module has no data count section, one is added.
    ///
    /// # Errors
    ///
    /// `TooGreat` if the number of bytes or of segments doesn't fit 32 bits; or `Memory`.
    pub fn add_passive_data(
        &mut self,
        changes: &mut Changes,
        bytes: &[u8],
    ) -> Result<DataId, ModuleError>
        ensures ok { (all : List SectionAt) → IsModule self.old.bytes.now all → OnOk result
            (AddsData all changes.old changes.new true (passive_data bytes.now)) }
        ensures id { (all : List SectionAt) → IsModule self.old.bytes.now all → IfOk result
            (HasSegments all changes.old) }
        ensures numbered { IfOk result (λ id. NumbersData (id + 1) self.old.spaces self.new.spaces) }
        ensures kept { ChangesNumbersAlone Data self.old self.new }
    {
        let mut segment = Vec::new(self.alloc);
        write_passive(&mut segment, bytes)?;
        match self.add_counted(changes, &segment) {
            Ok(count) => Ok(DataId::new(count)),
            Err(error) => Err(error),
        }
    }

    /// Whether the module that is written has a data count section.
    fn has_data_count(&self, changes: &Changes) -> Result<bool, ModuleError>
        ensures { (all : List SectionAt) → IsModule self.now.bytes.now all
            → IfOk result (λ has. has ≡ has_data_count all changes.now) }
    {
        if changes.contents_of(SectionKind::DataCount).is_some() {
            return Ok(true);
        }
        match self.section(SectionKind::DataCount) {
            Ok(section) => Ok(section.is_some()),
            Err(error) => Err(error),
        }
    }

    /// The number of data segments, with these changes.
    fn segment_count(&self, changes: &Changes) -> Result<u32, ModuleError>
        ensures { (all : List SectionAt) → IsModule self.now.bytes.now all → IfOk result
            (HasSegments all changes.now) }
    {
        match self.contents_with(changes, SectionKind::Data) {
            Ok(contents) => {
                let mut items = Input::new(contents);
                items.number()
            }
            Err(error) => Err(error),
        }
    }

    /// Adds a data segment after all others. If there is a data count, it is set to their number.
    fn add_segment(&mut self, changes: &mut Changes, segment: &[u8]) -> Result<(), ModuleError>
        ensures ok { (all : List SectionAt) → IsModule self.old.bytes.now all → OnOk result
            (AddsData all changes.old changes.new (has_data_count all changes.old) segment.now) }
        ensures kept { ChangesNumbersAlone Data self.old self.new }
    {
        if self.has_data_count(changes)? {
            match self.add_counted(changes, segment) {
                Ok(_) => Ok(()),
                Err(error) => Err(error),
            }
        } else {
            self.add_item(changes, SectionKind::Data, segment)
        }
    }

    /// Adds a data segment after all others, and sets the data count to their number. Returns the
    /// number of the others.
    fn add_counted(&mut self, changes: &mut Changes, segment: &[u8]) -> Result<usize, ModuleError>
        ensures ok { (all : List SectionAt) → IsModule self.old.bytes.now all
            → OnOk result (AddsData all changes.old changes.new true segment.now) }
        ensures id { (all : List SectionAt) → IsModule self.old.bytes.now all → IfOk result
            (HasSegments all changes.old) }
        ensures numbered { IfOk result
            (λ count. NumbersData (count + 1) self.old.spaces self.new.spaces) }
        ensures kept { ChangesNumbersAlone Data self.old self.new }
    {
        let count = match self.segment_count(changes) {
            Ok(count) => count,
            Err(error) => return Err(error),
        };
        match self.add_item(changes, SectionKind::Data, segment) {
            Ok(()) => {}
            Err(error) => return Err(error),
        }
        match self.set_count(changes, count as usize + 1) {
            Ok(()) => {}
            Err(error) => return Err(error),
        }
        match self.number_data(count as usize + 1) {
            Ok(()) => Ok(count as usize),
            Err(error) => Err(error),
        }
    }

    /// Sets the data count.
    fn set_count(&self, changes: &mut Changes, count: usize) -> Result<(), ModuleError>
        ensures { OnOk result (SetsContents changes.old changes.new 12 (short_number count)) }
    {
        let mut contents = Vec::new(self.alloc);
        match write_number(&mut contents, count) {
            Ok(()) => {}
            Err(error) => return Err(error),
        }
        match changes.set_contents(SectionKind::DataCount, contents) {
            Ok(()) => Ok(()),
            Err(error) => Err(error),
        }
    }

    /// Gives each of the first `count` data segments an id.
    fn number_data(&mut self, count: usize) -> Result<(), ModuleError>
        ensures numbered { OnOk result (NumbersData count self.old.spaces self.new.spaces) }
        ensures kept { ChangesNumbersAlone Data self.old self.new }
    {
        'segments: for _ in self.spaces.data_segments()..count {
            match self.spaces.define_data() {
                Ok(_) => {}
                Err(error) => return Err(ModuleError::of_index(error, 0)),
            }
        }
        Ok(())
    }
}
