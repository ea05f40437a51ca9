//! Bodies with the names that their modules give them.
ghost use Rattle.std.specs.Prelude.{◌≡◌, ◌⊎◌, ◌≤◌, ◌<◌, ◌+◌, ◌∷◌, ◌^◌, ℕ, List, length, map, slice_get, IsSome, ◌↔◌, IfOk, IfErr, IsErr, OnOk};
ghost use Rattle.wasm_body.specs.declared.error.ParseError.{ParseError as ParseFault};
ghost use Rattle.wasm_body.specs.declared.error.ParseFailure.{ParseFailure as Failure};
ghost use Rattle.wasm_body.specs.SourceTree.{Body};
ghost use Rattle.wasm_body.specs.Naming.{Occurrence};
ghost use Rattle.wasm_body.specs.Parsing.Accepted.{Accepted, FirstFault};
ghost use Rattle.walrus_parser.specs.Bodies.{body_operators};
ghost use Rattle.walrus_parser.specs.Settings.{operators_of};
ghost use Rattle.walrus_machine.specs.NamedOperators.{named_operation};
ghost use Rattle.walrus_run.specs.NamedBodies.{names_of, reading};
ghost use Rattle.walrus_run.specs.Namers.{env_of_namer, AreLeft, with_next};

use crate::naming::Namer;
use std::alloc::Global;
use std::marker::Model;
use walrus_body::{AcceptAll, FunctionBody, IndicesToIds, LocalFunction, ParseError, ParseFailure};
use walrus_ir::{FunctionId, InstrLocId, Module, TypeId};
use walrus_machine::NamedOp;
use walrus_parser::law_bytes;
use wasm_ops::Reader;

/// The operators of an accepted body with the names that its module gives them, and the place of
/// each. A contract sees their meanings and their places.
#[derive(Debug, Drop)]
pub struct NamedBody {
    operators: Vec<NamedOp>,
    places: Vec<usize>,
}

impl Model for NamedBody {
    ghost use Rattle.std.specs.Prelude.{◌≡◌, length, map};
    ghost use Rattle.walrus_machine.specs.NamedOperators.{named_operation};
    ghost use Rattle.walrus_run.specs.NamedBodies.{BodyNames};

    ghost Value = { BodyNames };

    ghost view = { λ b. record {
      operators = map named_operation b.operators.items;
      places = b.places.items;
    } };

    ghost invariant = { λ b. length b.places.items ≡ length b.operators.items };
}

/// Checks that a function's body is accepted; else the error is its first fault. Places have no
/// limit, since there is a location function.
fn check(namer: &Namer<'_>, body: FunctionBody<'_>) -> Result<(), ParseFailure>
    requires offset { namer.now.«module».now.code_section_offset ≤ body.start }
    requires ops { body.ops ≤ length body.bytes.now }
    requires fits { body.start + length body.bytes.now < 2 ^ 64 }
    ensures ok { OnOk result ((locate : ℕ → ℕ) → (b : Body Occurrence)
        × Accepted (reading namer.now.«module».now namer.now.indices.now namer.now.function
        namer.now.ty body.entry locate) (body_operators body.entry) b) }
    ensures err { IfErr result (λ f. (f.error ≡ ParseFault.Memory) ⊎ ((locate : ℕ → ℕ)
        → FirstFault (reading namer.now.«module».now namer.now.indices.now namer.now.function
        namer.now.ty body.entry locate) (body_operators body.entry) f)) }
{
    law_bytes(body.operators());
    let nowhere = |_: &usize| InstrLocId::default();
    let mut instrs = Vec::new(namer.alloc);
    let parsed = LocalFunction::parse(
        namer.module,
        namer.indices,
        namer.function,
        namer.ty,
        Vec::new(namer.alloc),
        body,
        Some(&nowhere),
        AcceptAll,
        &mut instrs,
    );
    match parsed {
        Ok(_) => Ok(()),
        Err(failure) => Err(failure),
    }
}

impl NamedBody {
    /// Reads the operators of a function's body, with the names that its module gives them.
    ///
    /// # Errors
    ///
    /// The body's first fault and its place: the one that `LocalFunction::parse` returns for a
    /// validator that accepts every operator and for any location function. Or `Memory` if memory
    /// runs out.
    pub fn read(
        alloc: Global,
        module: &Module,
        indices: &IndicesToIds,
        id: FunctionId,
        ty: TypeId,
        body: FunctionBody<'_>,
    ) -> Result<NamedBody, ParseFailure>
        requires offset { «module».now.code_section_offset ≤ body.start }
        requires ops { body.ops ≤ length body.bytes.now }
        requires fits { body.start + length body.bytes.now < 2 ^ 64 }
        // The result has the names of the accepted body's operators, and a refusal is for the first
        // fault.
        ensures accepted { IfOk result (λ made. (locate : ℕ → ℕ) → (b : Body Occurrence)
            × Accepted (reading «module».now indices.now id ty body.entry locate)
            (body_operators body.entry) b × (made ≡ names_of (operators_of b))) }
        ensures refused { IfErr result (λ f. (f.error ≡ ParseFault.Memory)
            ⊎ ((locate : ℕ → ℕ) → FirstFault (reading «module».now indices.now id ty body.entry
            locate) (body_operators body.entry) f)) }
        // Unless memory runs out, each accepted body is returned and each first fault is reported.
        ensures each_body { (locate : ℕ → ℕ) (b : Body Occurrence)
            → Accepted (reading «module».now indices.now id ty body.entry locate)
            (body_operators body.entry) b → IfErr result (λ f. f.error ≡ ParseFault.Memory)
            × IfOk result (λ made. made ≡ names_of (operators_of b)) }
        ensures each_fault { (locate : ℕ → ℕ) (f : Failure)
            → FirstFault (reading «module».now indices.now id ty body.entry locate)
            (body_operators body.entry) f
            → IsErr result × IfErr result (λ e. (e.error ≡ ParseFault.Memory) ⊎ (e ≡ f)) }
    {
        let namer = Namer {
            alloc,
            module,
            indices,
            function: id,
            ty,
        };
        let ops = body.operators();
        let start = body.start + body.ops;
        match check(&namer, body) {
            Ok(()) => NamedBody::named(&namer, &mut Reader::new(ops, start)),
            Err(failure) => Err(failure),
        }
    }

    /// Names all operators that remain in a reader.
    fn named(namer: &Namer<'_>, reader: &mut Reader<'_>) -> Result<NamedBody, ParseFailure>
        ensures { (xs : List Occurrence) → AreLeft (env_of_namer namer.now) reader.old xs
            → IfErr result (λ f. f.error ≡ ParseFault.Memory)
            × IfOk result (λ made. made ≡ names_of xs) }
    {
        let mut body = NamedBody {
            operators: Vec::new(namer.alloc),
            places: Vec::new(namer.alloc),
        };
        'operators: while !reader.eof() {
            let at = reader.original_position();
            match body.take(namer, reader) {
                Ok(()) => {}
                Err(error) => return Err(ParseFailure { error, at }),
            }
        }
        Ok(body)
    }

    /// Takes the next operator of a reader.
    fn take(&mut self, namer: &Namer<'_>, reader: &mut Reader<'_>) -> Result<(), ParseError>
        ensures takes { (x : Occurrence) (xs : List Occurrence)
            → AreLeft (env_of_namer namer.now) reader.old (x ∷ xs)
            → IfErr result (λ e. e ≡ ParseFault.Memory)
            × OnOk result (AreLeft (env_of_namer namer.now) reader.new xs
            × (self.new ≡ with_next self.old x.named x.place)) }
        ensures moves { OnOk result (length reader.new.rest < length reader.old.rest) }
    {
        let at = reader.original_position();
        match reader.read() {
            Ok(operator) => match namer.name(&operator) {
                Ok(operator) => self.push(operator, at),
                Err(error) => Err(error),
            },
            Err(error) => Err(ParseError::Read(error)),
        }
    }

    /// Appends an operator and its place.
    fn push(&mut self, operator: NamedOp, place: usize) -> Result<(), ParseError>
        ensures ok { OnOk result (self.new ≡ with_next self.old (named_operation operator) place) }
        ensures err { IfErr result (λ e. e ≡ ParseFault.Memory) }
    {
        self.places.push(place)?;
        match self.operators.push(operator) {
            Ok(()) => Ok(()),
            Err(_) => {
                self.places.pop();
                Err(ParseError::Memory)
            }
        }
    }

    /// The allocator of its lists.
    pub(crate) fn allocator(&self) -> Global {
        *self.operators.allocator()
    }

    /// Its operators, in order. Allocates nothing.
    pub fn ops(&self) -> &[NamedOp]
        ensures { map named_operation result.now ≡ self.now.operators }
    {
        self.operators.as_slice()
    }

    /// The place of the operator with this number, the byte offset of its first byte; none if there
    /// is no such operator. Allocates nothing.
    pub fn place(&self, i: usize) -> Option<usize>
        ensures place { result ≡ slice_get self.now.places i }
        ensures there { IsSome result ↔ (i < length self.now.operators) }
    {
        self.places.get(i).copied()
    }
}
