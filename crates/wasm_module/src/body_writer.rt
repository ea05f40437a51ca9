//! How bodies are written, and how a caller changes their functions.

ghost use Rattle.std.specs.Prelude.{◌≡◌, ℕ, Bool, true, List, length, OnOk, IfOk, IfSome};
ghost use Rattle.wasm_types.specs.declared.val_type.ValType.{ValType as ValueType};
ghost use Rattle.walrus_emit_state.specs.Emission.{Output};
ghost use Rattle.walrus_body.specs.FunctionParts.{FunctionParts};
ghost use Rattle.wasm_module.specs.declared.parsed.ParsedModule.{ParsedModule as Parsed};
ghost use Rattle.wasm_sections.specs.CodeSections.{BodyAt, body_at};
ghost use Rattle.wasm_body.specs.Pairs.{Pair};
ghost use Rattle.wasm_module.specs.RewrittenCode.{Extends, IsRewrittenWith, IsParsedBody};
ghost use Rattle.wasm_module.specs.WantedPairs.{wants_pairs};

use crate::bodies::Scratch;
use crate::parsed::ParsedModule;
use walrus_body::LocalFunction;
use walrus_flat::ByteSink;
use walrus_ir::ModuleLocals;
use wasm_sections::{Body, ModuleError, ModuleFault};

/// What is needed of a body besides its bytes.
#[derive(Clone, Copy, Debug, PartialEq, Eq)]
pub enum Needed {
    /// Nothing.
    Nothing,
    /// Its location pairs.
    Pairs,
    /// Its location pairs, and its function as it is written.
    Function,
}

impl Needed {
    /// Its location pairs, if they are needed, and nothing else.
    pub(crate) fn if_pairs(needs_pairs: bool) -> Needed
        ensures { wants_pairs result ≡ needs_pairs }
    {
        match needs_pairs {
            true => Needed::Pairs,
            false => Needed::Nothing,
        }
    }
}

/// What a body takes when it is written.
#[derive(Clone, Copy, Debug, PartialEq, Eq)]
pub struct Measured {
    /// The number of its bytes.
    pub len: usize,
    /// Whether these are the bytes that it has in the source.
    pub is_same: bool,
}

/// How each body of a module is written. It is called for a body in the first pass, to find its faults,
/// its size and the new contents of custom sections; and in the second, to write it, unless what was
/// written in the first is kept. A large one of whose function nothing else is needed is written in
/// pieces: in the first pass, to be kept, after all types are added that its handlers need; where it
/// isn't kept, it is counted in both passes, and then written in the second.
pub trait BodyWriter {
    // For this body, of the function of the source with this index, these bytes are written, with these
    // location pairs.
    ghost writes: { Self → Parsed → ℕ → BodyAt → List ℕ → List Pair → Type 0 };

    // This is the function of this body, as it is written.
    ghost returns: { Self → Parsed → ℕ → BodyAt → FunctionParts → Type 0 };

    /// Makes the raw body that is written for one of the module that was read, and its location
    /// pairs if they are needed, and puts both into the scratch. Returns the function of the body
    /// if it is needed, or if it was made anyway.
    ///
    /// # Errors
    ///
    /// Why the module isn't written.
    fn write_body<'a>(
        &self,
        parsed: &mut ParsedModule<'a>,
        body: Body<'a>,
        needed: Needed,
        scratch: &mut Scratch,
    ) -> Result<Option<LocalFunction>, ModuleError>
        ensures extends { OnOk result (Extends parsed.old parsed.new) }
        ensures written { (source : Parsed) → Extends source parsed.old
            → OnOk result ((pairs : List Pair)
            × writes self.now source body.entry.func (body_at body.entry) scratch.new.raw.items pairs
            × (wants_pairs needed ≡ true → scratch.new.pairs.items ≡ pairs)) }
        ensures function { (source : Parsed) → Extends source parsed.old
            → IfOk result (λ made. IfSome made
            (returns self.now source body.entry.func (body_at body.entry))) };

    /// The number of bytes of the raw body that is written for one of which nothing else is needed, and
    /// whether it is the source's. It is called for a large body before `write_large_body`, except
    /// where that is called in the first pass, to keep it.
    ///
    /// # Errors
    ///
    /// Why the module isn't written.
    fn measure_large_body<'a>(
        &self,
        parsed: &mut ParsedModule<'a>,
        body: Body<'a>,
        scratch: &mut Scratch,
    ) -> Result<Measured, ModuleError>
        ensures extends { OnOk result (Extends parsed.old parsed.new) }
        ensures measured { (source : Parsed) → Extends source parsed.old
            → IfOk result (λ measured. (raw : List ℕ) × (pairs : List Pair)
            × writes self.now source body.entry.func (body_at body.entry) raw pairs
            × (measured.len ≡ length raw)) }
    {
        self.write_body(parsed, body, Needed::Nothing, scratch)?;
        Ok(scratch.measured(body))
    }

    /// Writes the raw body to a sink, and its location pairs if they are needed: at once, unless the
    /// implementation writes it in pieces.
    ///
    /// # Errors
    ///
    /// Why the module isn't written; `Memory` where the sink couldn't take bytes. It may then have taken a
    /// part of the body.
    fn write_large_body<'a, S: ByteSink>(
        &self,
        parsed: &mut ParsedModule<'a>,
        body: Body<'a>,
        needs_pairs: bool,
        scratch: &mut Scratch,
        sink: &mut S,
    ) -> Result<(), ModuleError>
        ensures extends { OnOk result (Extends parsed.old parsed.new) }
        ensures written { (source : Parsed) → Extends source parsed.old
            → OnOk result ((took : Output) × (pairs : List Pair)
            × writes self.now source body.entry.func (body_at body.entry) took.bytes pairs
            × (needs_pairs ≡ true → took.pairs ≡ pairs)
            × S.takes sink.old sink.new took) }
    {
        self.write_body(parsed, body, Needed::if_pairs(needs_pairs), scratch)?;
        if sink.take(&mut scratch.raw, &mut scratch.pairs) {
            Ok(())
        } else {
            Err(ModuleError {
                fault: ModuleFault::Memory,
                at: body.start(),
            })
        }
    }
}

/// Each body is rewritten as `walrus_rewrite::rewrite_body` does; without its tree, unless its
/// function is needed.
#[derive(Clone, Copy, Debug, Drop)]
pub struct Rewriting;

impl BodyWriter for Rewriting {
    ghost writes = { λ _. IsRewrittenWith };

    ghost returns = { λ _. IsParsedBody };

    fn write_body<'a>(
        &self,
        parsed: &mut ParsedModule<'a>,
        body: Body<'a>,
        needed: Needed,
        scratch: &mut Scratch,
    ) -> Result<Option<LocalFunction>, ModuleError> {
        match needed {
            Needed::Nothing => match parsed.rewrite_flat(body, scratch) {
                Ok(()) => Ok(None),
                Err(error) => Err(error),
            },
            Needed::Pairs => match parsed.rewrite_flat_with_pairs(body, scratch) {
                Ok(()) => Ok(None),
                Err(error) => Err(error),
            },
            Needed::Function => {
                let mut instrs = Vec::new(parsed.alloc);
                match parsed.rewrite_with_pairs(body, &mut instrs, scratch) {
                    Ok(function) => Ok(Some(function)),
                    Err(error) => Err(error),
                }
            }
        }
    }

    fn measure_large_body<'a>(
        &self,
        parsed: &mut ParsedModule<'a>,
        body: Body<'a>,
        scratch: &mut Scratch,
    ) -> Result<Measured, ModuleError> {
        parsed.measure_flat(body, scratch)
    }

    fn write_large_body<'a, S: ByteSink>(
        &self,
        parsed: &mut ParsedModule<'a>,
        body: Body<'a>,
        needs_pairs: bool,
        scratch: &mut Scratch,
        sink: &mut S,
    ) -> Result<(), ModuleError> {
        parsed.rewrite_flat_to(body, needs_pairs, scratch, sink)
    }
}

/// A change of the functions of a module, which is asked once for each function with a body, in
/// order.
///
/// A change says what it means: `state` is the state that it is in, and `changes` says what it makes
/// of a function and its locals in a state, and which state that leaves. A change whose state stays
/// the same treats each function alike.
pub trait ChangeFunction {
    ghost State: { Type 0 };

    ghost state: { Self → State };

    // In this state, and with the state afterwards: the function with this index, as it was parsed,
    // and as it is written; and the types of its locals, as it was parsed, and as it is written.
    ghost changes: { State → State → ℕ → FunctionParts → FunctionParts → List (ValueType ℕ)
        → List (ValueType ℕ) → Type 0 };

    /// Changes the function with this index; imported functions have the first indices. A location
    /// in the changed function is the place in the source of the operator that the instruction
    /// comes from. Of each function with a body this is asked once, in ascending order.
    ///
    /// The locals are those of the function, its parameters first; the id of each is its index in
    /// the source. Locals may be added, which are declared if the function uses them.
    ///
    /// # Errors
    ///
    /// Why the module isn't written.
    fn change(
        &mut self,
        index: usize,
        function: &mut LocalFunction,
        locals: &mut ModuleLocals,
    ) -> Result<(), ModuleError>
        ensures { OnOk result (changes (state self.old) (state self.new) index function.old
            function.new locals.old locals.new) };
}
