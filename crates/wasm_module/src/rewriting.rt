//! Rewriting a module, the first pass: each body is rewritten, to find its faults, its size and the
//! new contents of custom sections, before anything is written; and it is kept for the second pass.
//! (`changing` is that of a module whose functions are changed.)

ghost use Rattle.std.specs.Prelude.{◌≡◌, List, [], not, true, false, OnOk, OnErr, IfOk, IfSome, IfNone};
ghost use Rattle.wasm_sections.specs.Omissions.{OmitsNothing, OmitsAlso, KeepsAlso, OmitsSame};
ghost use Rattle.wasm_sections.specs.Sections.{SectionAt, IsModule, Each, section_at};
ghost use Rattle.wasm_module.specs.declared.parsed.ParsedModule.{ParsedModule as Parsed};
ghost use Rattle.wasm_module.specs.KeptCode.{AreKeptAs, AreKeptWithAs, AreKeptBodies, StayKept};
ghost use Rattle.wasm_module.specs.RewrittenCode.{Extends, IsRewrittenWith};
ghost use Rattle.wasm_sections.specs.CodeSections.{body_at};
ghost use Rattle.wasm_body.specs.Pairs.{Pair};
ghost use Rattle.wasm_module.specs.WantedPairs.{wants_pairs};
ghost use Rattle.wasm_module.specs.WrittenModules.{new_contents_in, IsReplacedBy, IsCarriedOver, IsOmitted, IsNotOmitted, IsLinked, with_some_pairs};

use crate::bodies::Scratch;
use crate::body_writer::{BodyWriter, Measured, Needed, Rewriting};
use crate::changing::kept_bodies::KeptBodies;
use crate::custom::{Followed, Followers, Note, contents_for, follows_code};
use crate::keeping::{Keeper, Keeping, Kept};
use crate::keeping_pairs::KeptWithPairs;
use crate::parsed::ParsedModule;
use wasm_sections::{
    Body, Changes, ModuleError, OmittedSections, Section, SectionKind, number_len,
};

/// The code section of a module that can be written.
#[derive(Clone, Copy)]
pub(crate) struct MeasuredCode {
    /// The size of its contents, in bytes.
    pub len: usize,
    /// Whether its contents are the source's.
    pub is_same: bool,
    /// Whether its size takes as many bytes as in the source.
    pub is_in_place: bool,
}

/// A module that can be written: how its bodies are written, new contents of sections, custom
/// sections that are left out, and the size of its code section. `ParsedModule::write_module` writes
/// it.
#[derive(Drop)]
pub struct RewrittenModule<'a, B> {
    pub(crate) bodies: B,
    pub(crate) changes: Changes,
    pub(crate) omitted: OmittedSections<'a>,
    pub(crate) followed: Vec<Followed>,
    pub(crate) code: MeasuredCode,
    /// The custom sections that are copied unchanged and may no longer be true.
    pub notes: Vec<Note<'a>>,
}

impl<B> RewrittenModule<'_, B> {
    /// The new contents of a section other than the code section; `None` if it is copied unchanged.
    pub(crate) fn contents_for(&self, section: &Section<'_>) -> Option<&[u8]>
        ensures some { IfSome result (λ contents. IsReplacedBy self.now.changes
            (section_at section.now) contents.now) }
        ensures none { IfNone result (IsCarriedOver self.now.changes
            (section_at section.now)) }
    {
        match section.kind {
            SectionKind::Custom if follows_code(section) => contents_for(&self.followed, section),
            SectionKind::Custom => None,
            kind => self.changes.contents_of(kind),
        }
    }
}

impl<'a, B> RewrittenModule<'a, B> {
    /// How its bodies are written, and the rest of it, so that the caller can put something around
    /// the bodies.
    pub fn take_bodies(self) -> (B, RewrittenModule<'a, ()>)
        ensures bodies { result.0 ≡ self.entry.bodies }
        ensures changes { result.1.changes ≡ self.entry.changes }
        ensures omitted { result.1.omitted ≡ self.entry.omitted }
    {
        let RewrittenModule {
            bodies,
            changes,
            omitted,
            followed,
            code,
            notes,
        } = self;
        let rest = RewrittenModule {
            bodies: (),
            changes,
            omitted,
            followed,
            code,
            notes,
        };
        (bodies, rest)
    }
}

impl<'a> RewrittenModule<'a, ()> {
    /// The module with these bodies. They have to be those that were taken from it, perhaps with
    /// something around them: where the code then has another size, `write_module` returns
    /// `InconsistentChange`.
    pub fn with_bodies<B>(self, bodies: B) -> RewrittenModule<'a, B>
        ensures bodies { result.bodies ≡ bodies }
        ensures changes { result.changes ≡ self.entry.changes }
        ensures omitted { result.omitted ≡ self.entry.omitted }
    {
        let RewrittenModule {
            bodies: (),
            changes,
            omitted,
            followed,
            code,
            notes,
        } = self;
        RewrittenModule {
            bodies,
            changes,
            omitted,
            followed,
            code,
            notes,
        }
    }
}

impl<'a, B: Drop> RewrittenModule<'a, Kept<'a, B>> {
    /// The same module, whose bodies that are kept with their location pairs are written as they are
    /// kept, also where a listener needs the pairs.
    pub fn with_pairs(self) -> RewrittenModule<'a, KeptWithPairs<'a, B>>
        ensures kept { result.bodies.kept ≡ self.entry.bodies.kept }
        ensures bodies { result.bodies.bodies ≡ self.entry.bodies.bodies }
        ensures changes { result.changes ≡ self.entry.changes }
        ensures omitted { result.omitted ≡ self.entry.omitted }
    {
        let (bodies, rest) = self.take_bodies();
        rest.with_bodies(bodies.with_pairs())
    }
}

impl<'a, B> RewrittenModule<'a, B> {
    /// Leaves out all custom sections when the module is written, except those that are kept by
    /// `keep_custom_section`.
    pub fn omit_custom_sections(&mut self)
        ensures omitted { self.new.omitted ≡ record self.old.omitted { is_all = true } }
        ensures changes { self.new.changes ≡ self.old.changes }
        ensures bodies { self.new.bodies ≡ self.old.bodies }
    {
        self.omitted.is_all = true;
    }

    /// Leaves out the custom sections with debug information when the module is written:
    /// `sourceMappingURL`, `external_debug_info`, and those whose names begin with `.debug_`.
    pub fn omit_debug(&mut self)
        ensures omitted { self.new.omitted ≡ record self.old.omitted { is_debug = true } }
        ensures changes { self.new.changes ≡ self.old.changes }
        ensures bodies { self.new.bodies ≡ self.old.bodies }
    {
        self.omitted.is_debug = true;
    }

    /// Leaves out the custom section `sourceMappingURL`, which says where the source map is, when
    /// the module is written.
    pub fn omit_source_map_url(&mut self)
        ensures omitted { self.new.omitted
            ≡ record self.old.omitted { is_source_map_url = true } }
        ensures changes { self.new.changes ≡ self.old.changes }
        ensures bodies { self.new.bodies ≡ self.old.bodies }
    {
        self.omitted.is_source_map_url = true;
    }

    /// Leaves out the custom sections with this name when the module is written.
    ///
    /// # Errors
    ///
    /// `Memory`. The same sections are left out then as before.
    pub fn omit_custom_section(&mut self, name: &'a str) -> Result<(), ModuleError>
        ensures ok { OnOk result (OmitsAlso self.old.omitted self.new.omitted name.entry.now) }
        ensures err { OnErr result (OmitsSame self.old.omitted self.new.omitted) }
        ensures changes { self.new.changes ≡ self.old.changes }
        ensures bodies { self.new.bodies ≡ self.old.bodies }
    {
        match self.omitted.omit(name) {
            Ok(()) => Ok(()),
            Err(error) => Err(ModuleError::from(error)),
        }
    }

    /// Keeps the custom sections with this name when the module is written, whatever else is left
    /// out.
    ///
    /// # Errors
    ///
    /// `Memory`. The same sections are left out then as before.
    pub fn keep_custom_section(&mut self, name: &'a str) -> Result<(), ModuleError>
        ensures ok { OnOk result (KeepsAlso self.old.omitted self.new.omitted name.entry.now) }
        ensures err { OnErr result (OmitsSame self.old.omitted self.new.omitted) }
        ensures changes { self.new.changes ≡ self.old.changes }
        ensures bodies { self.new.bodies ≡ self.old.bodies }
    {
        match self.omitted.keep(name) {
            Ok(()) => Ok(()),
            Err(error) => Err(ModuleError::from(error)),
        }
    }

    /// Whether the contents of the code section that is written are others than the source's, so that
    /// what says where code is among them (as debug information does) is out of date.
    pub fn changes_code(&self) -> bool
        ensures { result ≡ not self.now.code.is_same }
    {
        !self.code.is_same
    }

    /// Whether operators may be at other places of the file than in the source, so that what says
    /// where they are (as a source map does) is out of date. It is true also where another section is
    /// given new contents or is left out.
    pub fn moves_code(&self) -> bool
        ensures same { result ≡ false → self.now.code.is_same ≡ true }
        ensures in_place { result ≡ false → self.now.code.is_in_place ≡ true }
        ensures none_given { result ≡ false → self.now.changes.given.items ≡ [] }
        ensures none_omitted { result ≡ false → OmitsNothing self.now.omitted }
    {
        self.changes_code()
            || !self.code.is_in_place
            || !self.changes.given.is_empty()
            || self.omitted.may_omit()
    }

    /// Whether a section is left out.
    pub(crate) fn omits(&self, section: &Section<'_>) -> Result<bool, ModuleError>
        ensures yes { IfOk result (λ is. is ≡ true
            → IsOmitted self.now.omitted (section_at section.now)) }
        ensures no { IfOk result (λ is. is ≡ false
            → IsNotOmitted self.now.omitted (section_at section.now)) }
    {
        if section.kind != SectionKind::Custom {
            return Ok(false);
        }
        match section.name() {
            Ok(name) => Ok(self.omitted.omits_name(name)),
            Err(error) => Err(error),
        }
    }
}

/// What a body takes in the code section, its size included.
pub(crate) fn with_size(body: Measured) -> Measured {
    Measured {
        len: number_len(body.len).saturating_add(body.len),
        is_same: body.is_same,
    }
}

/// What the number of bodies takes at the beginning of the code section's contents.
pub(crate) fn no_bodies(count: usize) -> Measured {
    Measured {
        len: number_len(count),
        is_same: true,
    }
}

/// What two parts of the code section take, one after the other.
pub(crate) fn joined(first: Measured, second: Measured) -> Measured {
    Measured {
        len: first.len.saturating_add(second.len),
        is_same: first.is_same && second.is_same,
    }
}

impl<'a> ParsedModule<'a> {
    /// Whether a large body is to be kept. The types are added then that its handlers need, since it
    /// isn't measured before it is written.
    fn is_to_be_kept(&mut self, body: Body<'a>, keeper: &Keeper<'a>) -> bool
        ensures { Extends self.old self.new }
    {
        keeper.takes(body) && self.add_possible_types(body).is_ok()
    }

    /// Writes a large body, of which nothing else is needed, and keeps it if it can be kept. Returns
    /// what it takes.
    fn write_large<B: BodyWriter>(
        &mut self,
        bodies: &B,
        body: Body<'a>,
        keeper: &mut Keeper<'a>,
        scratch: &mut Scratch,
    ) -> Result<Measured, ModuleError>
        ensures extends { OnOk result (Extends self.old self.new) }
        ensures kept { (source : Parsed) → Extends source self.old → OnOk result
            (StayKept (B.writes bodies.now) source keeper.old.kept keeper.new.kept) }
    {
        let mut sink = keeper.large(body);
        let has_pairs = sink.has_pairs();
        match bodies.write_large_body(self, body, has_pairs, scratch, &mut sink) {
            Ok(()) => Ok(keeper.keep_large(body, sink)),
            Err(error) => Err(error),
        }
    }

    /// The same, or, if it can't be kept, counts it.
    fn measure_large<B: BodyWriter>(
        &mut self,
        bodies: &B,
        body: Body<'a>,
        keeper: &mut Keeper<'a>,
        scratch: &mut Scratch,
    ) -> Result<Measured, ModuleError>
        ensures extends { OnOk result (Extends self.old self.new) }
        ensures kept { (source : Parsed) → Extends source self.old → OnOk result
            (StayKept (B.writes bodies.now) source keeper.old.kept keeper.new.kept) }
    {
        match self.is_to_be_kept(body, keeper) {
            true => self.write_large(bodies, body, keeper, scratch),
            false => bodies.measure_large_body(self, body, scratch),
        }
    }

    /// Writes a body, and changes the custom sections along with it.
    fn write_followed<B: BodyWriter>(
        &mut self,
        bodies: &B,
        body: Body<'a>,
        needed: Needed,
        followers: &mut Followers<'a>,
        scratch: &mut Scratch,
    ) -> Result<(), ModuleError>
        ensures extends { OnOk result (Extends self.old self.new) }
        ensures written { (source : Parsed) → Extends source self.old → OnOk result
            ((pairs : List Pair)
            × B.writes bodies.now source body.entry.func (body_at body.entry) scratch.new.raw.items pairs
            × (wants_pairs needed ≡ true → scratch.new.pairs.items ≡ pairs)) }
    {
        match bodies.write_body(self, body, needed, scratch) {
            Ok(None) => Ok(()),
            Ok(Some(function)) => followers.pass(self, body, &function, scratch),
            Err(error) => Err(error),
        }
    }

    /// Writes a body, changes the custom sections along with it, and keeps it if it can be kept.
    /// Returns what it takes, without its size.
    fn measure_body<B: BodyWriter>(
        &mut self,
        bodies: &B,
        body: Body<'a>,
        followers: &mut Followers<'a>,
        keeper: &mut Keeper<'a>,
        scratch: &mut Scratch,
    ) -> Result<Measured, ModuleError>
        ensures extends { OnOk result (Extends self.old self.new) }
        ensures kept { (source : Parsed) → Extends source self.old → OnOk result
            (StayKept (B.writes bodies.now) source keeper.old.kept keeper.new.kept) }
    {
        let needed = followers.reach(body.func)?;
        if needed == Needed::Nothing && body.is_large() {
            return self.measure_large(bodies, body, keeper, scratch);
        }
        let all = keeper.needed(needed);
        match self.write_followed(bodies, body, all, followers, scratch) {
            Ok(()) => {
                keeper.keep(body, scratch);
                Ok(scratch.measured(body))
            }
            Err(error) => Err(error),
        }
    }

    /// Keeps the bodies of this module as they are written, up to so much.
    fn keeper(&self, keeping: Keeping) -> Keeper<'a>
        ensures { result.kept.bodies.items ≡ [] }
    {
        let code_len = match self.section(SectionKind::Code) {
            Ok(Some(section)) => section.contents().len(),
            _ => 0,
        };
        Keeper::new(
            self.alloc,
            self.imported(),
            self.body_count(),
            code_len,
            keeping,
        )
    }

    /// What the contents of the code section take; and the bodies that are kept, up to so much.
    fn measure_code<B: BodyWriter>(
        &mut self,
        bodies: &B,
        followers: &mut Followers<'a>,
        keeping: Keeping,
    ) -> Result<(KeptBodies<'a>, Measured), ModuleError>
        ensures extends { OnOk result (Extends self.old self.new) }
        ensures kept { (source : Parsed) → Extends source self.old → IfOk result
            (λ x. AreKeptBodies (B.writes bodies.now) source x.0) }
    {
        let mut keeper = self.keeper(keeping);
        let mut scratch = Box::new(self.alloc, Scratch::new(self.alloc))?;
        let mut code = no_bodies(self.body_count());
        'bodies: for body in self.bodies() {
            let measured = self.measure_body(bodies, body, followers, &mut keeper, &mut scratch)?;
            code = joined(code, with_size(measured));
        }
        Ok((keeper.kept, code))
    }

    /// The code section with the bodies that these changes add, if it is so without them. Its bytes
    /// are the source's where its bodies are, and it takes as many: each size takes at least as many
    /// in the source.
    pub(crate) fn measured_code(
        &self,
        changes: &Changes,
        measured: Measured,
    ) -> Result<MeasuredCode, ModuleError> {
        let len = match self.code_len_with(changes, measured.len) {
            Ok(len) => len,
            Err(error) => return Err(error),
        };
        let (source_len, header_len) = match self.section(SectionKind::Code) {
            Ok(Some(section)) => {
                let source_len = section.contents().len();
                (source_len, section.whole.len().saturating_sub(source_len))
            }
            Ok(None) => (len, number_len(len).saturating_add(1)),
            Err(error) => return Err(error),
        };
        Ok(MeasuredCode {
            len,
            is_same: measured.is_same && len == source_len,
            is_in_place: number_len(len).saturating_add(1) == header_len,
        })
    }

    /// The module with these bodies and these changes of sections. Names of locals and of labels
    /// and metadata of code are changed along with the bodies. No section is left out. The bodies are
    /// kept as they are written, up to so much, and where memory runs out no longer, so that
    /// `write_module` needn't write them again.
    ///
    /// # Errors
    ///
    /// `ObjectFile` if a custom section contains relocations or symbols of an object file; the first
    /// fault of a body, with its place, or why it isn't written; `InconsistentChange` if functions
    /// were imported or added with other changes; or `Memory`.
    pub fn rewrite_keeping<B: BodyWriter + Drop>(
        &mut self,
        bodies: B,
        changes: Changes,
        keeping: Keeping,
    ) -> Result<RewrittenModule<'a, Kept<'a, B>>, ModuleError>
        ensures extends { OnOk result (Extends self.old self.new) }
        ensures bodies { IfOk result (λ made. made.bodies.bodies ≡ bodies) }
        ensures kept { (source : Parsed) → Extends source self.old → IfOk result
            (λ made. AreKeptAs (with_some_pairs (B.writes bodies)) source made.bodies.kept) }
        ensures pairs { (source : Parsed) → Extends source self.old → IfOk result
            (λ made. AreKeptWithAs (B.writes bodies) source made.bodies.kept) }
        ensures changes { IfOk result (λ made. made.changes ≡ changes) }
        ensures omitted { IfOk result (λ made. OmitsNothing made.omitted) }
        ensures linked { (all : List SectionAt) → IsModule self.old.bytes.now all
            → OnOk result (Each IsLinked all) }
    {
        self.check_functions(&changes)?;
        let mut followers = Followers::read(self)?;
        let (kept, measured) = self.measure_code(&bodies, &mut followers, keeping)?;
        let code = self.measured_code(&changes, measured)?;
        let (followed, notes) = followers.finish(self.alloc)?;
        Ok(RewrittenModule {
            bodies: Kept { kept, bodies },
            changes,
            omitted: OmittedSections::none(self.alloc),
            followed,
            code,
            notes,
        })
    }

    /// The same, with up to 64 MB of code kept, and no location pairs.
    ///
    /// # Errors
    ///
    /// Those of `rewrite_keeping`.
    pub fn rewrite_with<B: BodyWriter + Drop>(
        &mut self,
        bodies: B,
        changes: Changes,
    ) -> Result<RewrittenModule<'a, Kept<'a, B>>, ModuleError>
        ensures extends { OnOk result (Extends self.old self.new) }
        ensures bodies { IfOk result (λ made. made.bodies.bodies ≡ bodies) }
        ensures kept { (source : Parsed) → Extends source self.old → IfOk result
            (λ made. AreKeptAs (with_some_pairs (B.writes bodies)) source made.bodies.kept) }
        ensures changes { IfOk result (λ made. made.changes ≡ changes) }
        ensures omitted { IfOk result (λ made. OmitsNothing made.omitted) }
        ensures linked { (all : List SectionAt) → IsModule self.old.bytes.now all
            → OnOk result (Each IsLinked all) }
    {
        self.rewrite_keeping(bodies, changes, Keeping::CODE)
    }

    /// Rewrites the bodies of all functions. Names of locals and of labels and metadata of code are
    /// changed along with them. No section is left out. Up to 64 MB of rewritten code are kept for
    /// `write_module`: of a module with more, all bodies are rewritten again there, one at a time.
    ///
    /// # Errors
    ///
    /// `ObjectFile` if a custom section contains relocations or symbols of an object file; the first
    /// fault of a body, with its place; or `Memory`.
    pub fn rewrite_all(&mut self) -> Result<RewrittenModule<'a, Kept<'a, Rewriting>>, ModuleError>
        ensures extends { OnOk result (Extends self.old self.new) }
        ensures kept { (source : Parsed) → Extends source self.old → IfOk result
            (λ made. AreKeptAs (with_some_pairs IsRewrittenWith) source made.bodies.kept) }
        ensures none_given { IfOk result (λ made. new_contents_in made ≡ []) }
        ensures omitted { IfOk result (λ made. OmitsNothing made.omitted) }
        ensures linked { (all : List SectionAt) → IsModule self.old.bytes.now all
            → OnOk result (Each IsLinked all) }
    {
        let changes = Changes::new(self.alloc);
        self.rewrite_with(Rewriting, changes)
    }

    /// The same, with the location pairs of the bodies kept too, so that `write_module_with_map` needn't
    /// rewrite them again.
    ///
    /// # Errors
    ///
    /// Those of `rewrite_all`.
    pub fn rewrite_all_with_pairs(
        &mut self,
    ) -> Result<RewrittenModule<'a, KeptWithPairs<'a, Rewriting>>, ModuleError>
        ensures extends { OnOk result (Extends self.old self.new) }
        ensures kept { (source : Parsed) → Extends source self.old → IfOk result
            (λ made. AreKeptWithAs IsRewrittenWith source made.bodies.kept) }
        ensures none_given { IfOk result (λ made. new_contents_in made ≡ []) }
        ensures omitted { IfOk result (λ made. OmitsNothing made.omitted) }
        ensures linked { (all : List SectionAt) → IsModule self.old.bytes.now all
            → OnOk result (Each IsLinked all) }
    {
        let changes = Changes::new(self.alloc);
        match self.rewrite_keeping(Rewriting, changes, Keeping::CODE_WITH_PAIRS) {
            Ok(made) => Ok(made.with_pairs()),
            Err(error) => Err(error),
        }
    }
}
