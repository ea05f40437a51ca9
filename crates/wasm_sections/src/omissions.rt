//! Which custom sections are left out of a module that is written, by their names.

ghost use Rattle.std.specs.Prelude.{◌≡◌, ℕ, List, eqb, true, false, OnOk, OnErr};
ghost use Rattle.std.specs.List.{starts_with};
ghost use Rattle.wasm_sections.specs.Omissions.{texts_of, has_name, is_chosen, omits_name, OmitsNothing, OmitsAlso, KeepsAlso, OmitsSame, names_debug, names_object, names_source_map};

use std::alloc::{AllocError, Global};

/// Which custom sections are left out of a module that is written.
#[derive(Drop)]
pub struct OmittedSections<'a> {
    /// Whether all of them are left out.
    pub is_all: bool,
    /// Whether those with debug information are left out, or with its place: `sourceMappingURL`,
    /// `external_debug_info`, and those whose names begin with `.debug_`.
    pub is_debug: bool,
    /// Whether `sourceMappingURL`, which contains the place of a source map, is left out.
    pub is_source_map_url: bool,
    /// The names of others that are left out.
    pub named: Vec<&'a str>,
    /// The names of those that are kept, whatever else is asked for.
    pub kept: Vec<&'a str>,
}

/// Whether a text begins with another.
fn begins_with(text: &str, front: &str) -> bool
    ensures { result ≡ starts_with eqb text.now front.now }
{
    text.starts_with(front)
}

/// Whether a custom section with this name contains the place of a source map.
pub fn names_source_map(name: &str) -> bool
    ensures { result ≡ names_source_map name.now }
{
    name == "sourceMappingURL"
}

/// Whether a custom section with this name contains debug information, or its place (WebAssembly tool
/// conventions).
pub fn names_debug(name: &str) -> bool
    ensures { result ≡ names_debug name.now }
{
    if names_source_map(name) || name == "external_debug_info" {
        return true;
    }
    begins_with(name, ".debug_")
}

/// Whether only an object file has a custom section with this name, which contains symbols or
/// relocations (WebAssembly tool conventions, linking).
pub fn names_object(name: &str) -> bool
    ensures { result ≡ names_object name.now }
{
    if name == "linking" {
        return true;
    }
    begins_with(name, "reloc.")
}

/// Whether a name is one of these.
fn has_name(names: &[&str], name: &str) -> bool
    ensures { result ≡ has_name (texts_of names.now) name.now }
{
    'names: for one in names {
        if *one == name {
            return true;
        }
    }
    false
}

impl<'a> OmittedSections<'a> {
    /// None is left out. This allocates nothing.
    pub fn none(alloc: Global) -> OmittedSections<'a>
        ensures { OmitsNothing result }
    {
        OmittedSections {
            is_all: false,
            is_debug: false,
            is_source_map_url: false,
            named: Vec::new(alloc),
            kept: Vec::new(alloc),
        }
    }

    /// Whether a custom section with this name is left out.
    pub fn omits_name(&self, name: &str) -> bool
        ensures { result ≡ omits_name self.now name.now }
    {
        if has_name(&self.kept, name) {
            return false;
        }
        if self.is_all || has_name(&self.named, name) {
            return true;
        }
        if self.is_debug && names_debug(name) {
            return true;
        }
        self.is_source_map_url && names_source_map(name)
    }

    /// Whether sections with some name are chosen, so that they are left out if they aren't kept; none is
    /// left out otherwise.
    pub fn may_omit(&self) -> bool
        ensures none { result ≡ false → OmitsNothing self.now }
        ensures some { result ≡ true → (name : List ℕ) × (is_chosen self.now name ≡ true) }
    {
        self.is_all || self.is_debug || self.is_source_map_url || !self.named.is_empty()
    }

    /// Leaves out the custom sections with this name as well.
    ///
    /// # Errors
    ///
    /// Out of memory: then nothing has changed.
    pub fn omit(&mut self, name: &'a str) -> Result<(), AllocError>
        ensures ok { OnOk result (OmitsAlso self.old self.new name.entry.now) }
        ensures err { OnErr result (OmitsSame self.old self.new) }
    {
        match self.named.push(name) {
            Ok(()) => Ok(()),
            Err(_) => Err(AllocError),
        }
    }

    /// Keeps the custom sections with this name, whatever else is left out.
    ///
    /// # Errors
    ///
    /// Out of memory: then nothing has changed.
    pub fn keep(&mut self, name: &'a str) -> Result<(), AllocError>
        ensures ok { OnOk result (KeepsAlso self.old self.new name.entry.now) }
        ensures err { OnErr result (OmitsSame self.old self.new) }
    {
        match self.kept.push(name) {
            Ok(()) => Ok(()),
            Err(_) => Err(AllocError),
        }
    }
}
