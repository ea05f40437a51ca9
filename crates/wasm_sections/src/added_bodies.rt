//! Bodies that are added to the code section (WebAssembly core specification 3.0, binary format, code
//! section).
ghost use Rattle.std.specs.Prelude.{◌≡◌, Ok, OnOk, IfOk};
ghost use Rattle.wasm_numbers.specs.Numbers.{u32};
ghost use Rattle.wasm_sections.specs.Additions.{AddsBody};
ghost use Rattle.wasm_sections.specs.GivenContents.{added_bodies};

use crate::changes::Changes;
use crate::fault::ModuleError;
use crate::input::Input;
use crate::output::write_bytes;
use crate::sections::SectionKind;
use std::alloc::Global;

impl Changes {
    /// The bodies that are added to the code section, as the contents of one.
    fn added_code(&self) -> &[u8]
        ensures { result.now ≡ added_bodies self.now }
    {
        match self.contents_of(SectionKind::Code) {
            Some(contents) => contents,
            None => &[0],
        }
    }

    /// The number of bodies that are added to the code section, and these bodies, each after its
    /// size.
    pub fn added_bodies(&self) -> Result<(u32, &[u8]), ModuleError>
        ensures { IfOk result (λ x. u32 (added_bodies self.now) ≡ Ok (x.0, x.1.now)) }
    {
        let mut bodies = Input::new(self.added_code());
        match bodies.number() {
            Ok(count) => Ok((count, bodies.rest())),
            Err(error) => Err(error),
        }
    }

    /// Adds this raw body to the code section, after those that were added before.
    ///
    /// # Errors
    ///
    /// `TooGreat` if the number of bytes or of bodies doesn't fit 32 bits; or `Memory`.
    pub fn add_body(&mut self, alloc: Global, raw: &[u8]) -> Result<(), ModuleError>
        ensures { OnOk result (AddsBody self.old self.new raw.now) }
    {
        let mut item = Vec::new(alloc);
        match write_bytes(&mut item, raw) {
            Ok(()) => {}
            Err(error) => return Err(error),
        }
        match self.add_after(SectionKind::Code, &[0], &item) {
            Ok(()) => Ok(()),
            Err(error) => Err(error),
        }
    }
}
