//! New indices of functions, when some are imported besides those of the source. Imported functions
//! have the first indices (WebAssembly core specification 3.0, structure, modules, indices).

ghost use Rattle.std.specs.Prelude.{◌≡◌, ◌≤◌, ◌+◌, OnOk, IfOk, IfErr, OnErr};
ghost use Rattle.std.specs.FinMap as map;
ghost use Rattle.wasm_operators.specs.declared.types.Space.TheVariants.{Funcs};
ghost use Rattle.walrus_maps.specs.IndexMaps.{numbers_in, with_numbers};
ghost use Rattle.wasm_sections.specs.MovedFunctions.{ArePushed, AreUnnumbered, NoNumbersFor, AreRenumbered, NoImportMore};

use crate::spaces::Spaces;
use std::alloc::Global;
use walrus_ir::FunctionId;
use walrus_maps::IdsToIndices;
use wasm_body::IndexError;

/// Gives functions with these ids, which have no numbers, the next ones in order.
fn push_funcs(to: &mut IdsToIndices, first: usize, end: usize) -> Result<(), IndexError>
    ensures pushed { first ≤ end → OnOk result
        (ArePushed first end (numbers_in to.old Funcs) (numbers_in to.new Funcs)) }
    ensures refused { AreUnnumbered first end (numbers_in to.old Funcs) → IfErr result
        (NoNumbersFor first end (numbers_in to.old Funcs)) }
{
    'funcs: for index in first..end {
        let id = FunctionId::new(index);
        match to.get_func_index(id) {
            Ok(_) => return Err(IndexError::TooMany),
            Err(_) => to.push_func(id)?,
        }
    }
    Ok(())
}

/// Gives functions, which have no numbers, the first ones: of the `total` ones of a source the
/// `imported` first, then so many with ids after all others, and then those that are left.
fn push_all_funcs(
    to: &mut IdsToIndices,
    total: usize,
    imported: usize,
    added: usize,
) -> Result<(), IndexError>
    ensures numbered { numbers_in to.old Funcs ≡ map.empty → OnOk result
        (AreRenumbered total imported added to.new) }
    ensures refused { numbers_in to.old Funcs ≡ map.empty → IfErr result
        (NoImportMore total imported added) }
{
    if imported > total {
        return Err(IndexError::TooMany);
    }
    let Some(end) = total.checked_add(added) else {
        return Err(IndexError::TooMany);
    };
    match push_funcs(to, 0, imported) {
        Ok(()) => {}
        Err(error) => return Err(error),
    }
    match push_funcs(to, total, end) {
        Ok(()) => {}
        Err(error) => return Err(error),
    }
    push_funcs(to, imported, total)
}

impl Spaces {
    ghost use Rattle.wasm_sections.specs.MovedFunctions.{AreRenumbered, ImportsOneMore, NoImportMore};
    ghost use Rattle.wasm_sections.specs.DefinedItems.{KeepsSourceIndices};

    /// Gives all functions their indices if so many are imported besides those of the source.
    fn renumber(
        &mut self,
        alloc: Global,
        total: usize,
        imported: usize,
        added: usize,
    ) -> Result<(), IndexError>
        ensures numbers { OnOk result (AreRenumbered total imported added self.new.numbers) }
        ensures others { OnOk result (self.new.numbers
            ≡ with_numbers Funcs (numbers_in self.new.numbers Funcs) self.old.numbers) }
        ensures kept { KeepsSourceIndices self.old self.new }
        ensures counts { self.new.counts ≡ self.old.counts }
        ensures err { OnErr result (self.new ≡ self.old) }
        ensures refused { IfErr result (NoImportMore total imported added) }
    {
        let mut numbers = IdsToIndices::new(alloc);
        match push_all_funcs(&mut numbers, total, imported, added) {
            Ok(()) => {}
            Err(error) => return Err(error),
        }
        self.numbers.swap_funcs(&mut numbers);
        Ok(())
    }

    /// Adds an imported function after all imported ones, to a module whose source has `total`
    /// functions, of which the first `imported` are imported. Its id comes after all others.
    ///
    /// # Errors
    ///
    /// `TooMany` if there are 2^32 functions; or `Memory`. Nothing is changed then.
    pub fn import_func(
        &mut self,
        alloc: Global,
        total: usize,
        imported: usize,
    ) -> Result<FunctionId, IndexError>
        ensures imports { OnOk result (ImportsOneMore total imported self.old self.new) }
        ensures id { IfOk result (λ id. id ≡ total + self.old.more_imports) }
        ensures err { OnErr result (self.new ≡ self.old) }
        ensures refused { IfErr result
            (NoImportMore total imported (self.old.more_imports + 1)) }
    {
        let before = self.more_imports;
        let (Some(more), Some(id)) = (before.checked_add(1), total.checked_add(before)) else {
            return Err(IndexError::TooMany);
        };
        match self.renumber(alloc, total, imported, more) {
            Ok(()) => {}
            Err(error) => return Err(error),
        }
        self.more_imports = more;
        Ok(FunctionId::new(id))
    }
}
