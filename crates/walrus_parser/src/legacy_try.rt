//! Legacy exception handling: a `try` and its clauses.
ghost use Rattle.std.specs.Prelude.{◌≡◌, ℕ, [], ◌∷◌, OnOk};
ghost use Rattle.wasm_operators.specs.declared.types.Opcode.TheVariants.{Byte};
ghost use Rattle.wasm_operators.specs.Operations.{operation, block};
ghost use Rattle.wasm_body.specs.Control.{delegate_operation};
ghost use Rattle.walrus_parser.specs.BodyParsers.{IsSameBody, ParsesStep};
ghost use Rattle.walrus_parser.specs.Handlers.{clause_operation, caught_tag, handler_kind, handler_clause, has_clauses};
ghost use Rattle.walrus_context.specs.OpenTrees.{env_of};
ghost use Rattle.wasm_numbers.specs.Results.{Gives};

use crate::body_parser::BodyParser;
use walrus_ir::{BlockKind, Instr, InstrLocId, InstrSeqId, LegacyCatch, TagId, Try, ValType};
use wasm_body::ParseError;
use wasm_ops::BlockType;

/// What a clause catches: its tag (none if it is for all) and the parameters of the tag.
#[derive(Clone, Copy)]
struct Caught<'a> {
    tag: Option<TagId>,
    parameters: &'a [ValType],
}

/// The kind of the sequence that a clause opens: for this tag, or for all.
pub fn handler_kind<T: Copy>(tag: Option<T>) -> BlockKind
    ensures { result ≡ handler_kind tag }
{
    match tag {
        Some(_) => BlockKind::Catch,
        None => BlockKind::CatchAll,
    }
}

/// The clause whose handler is this sequence.
fn clause_of(tag: Option<TagId>, handler: InstrSeqId) -> LegacyCatch
    ensures { result ≡ handler_clause tag handler }
{
    match tag {
        Some(tag) => LegacyCatch::Catch { tag, handler },
        None => LegacyCatch::CatchAll { handler },
    }
}

/// Whether a clause is allowed after a sequence of this kind.
pub fn has_clauses(kind: BlockKind) -> bool
    ensures { result ≡ has_clauses kind }
{
    matches!(kind, BlockKind::Try | BlockKind::Catch)
}

impl<'a> BodyParser<'a> {
    /// What a clause catches: the tag with this old index, or all tags.
    fn caught(&self, tag: Option<u32>) -> Result<Caught<'a>, ParseError>
        ensures { Gives (λ h. (h.tag, h.parameters.now)) result
            (caught_tag (env_of self.now.context) tag) }
    {
        let Some(index) = tag else {
            return Ok(Caught {
                tag: None,
                parameters: &[],
            });
        };
        let module = self.context.module();
        let id = self.context.indices().get_tag(index)?;
        let Some(ty) = module.tags.get(id) else {
            return Err(ParseError::UnknownId);
        };
        if !module.types.is_func(ty) {
            return Err(ParseError::NotAFunctionType);
        }
        Ok(Caught {
            tag: Some(id),
            parameters: module.types.params(ty),
        })
    }
}

impl BodyParser<'_> {
    /// Takes a `try`, which has no clauses yet.
    pub fn open_try(&mut self, ty: BlockType, location: InstrLocId) -> Result<(), ParseError>
        ensures step { ParsesStep self.old self.new (operation (Byte 0x06) (block ty ∷ []))
            location result }
        ensures rest { OnOk result (IsSameBody self.old.context self.new.context) }
    {
        match self.context.push_block(BlockKind::Try, ty) {
            Ok(seq) => {
                let catches = Vec::new(*self.if_else.allocator());
                self.context
                    .alloc_instr_in_control(1, Instr::Try(Try { seq, catches }), location)
            }
            Err(error) => Err(error),
        }
    }

    /// Takes a clause of a legacy `try`: the `catch` of the tag with this old index, or
    /// `catch_all`.
    pub fn begin_clause(&mut self, tag: Option<u32>, location: InstrLocId) -> Result<(), ParseError>
        ensures step { ParsesStep self.old self.new (clause_operation tag) location result }
        ensures rest { OnOk result (IsSameBody self.old.context self.new.context) }
    {
        let (frame, ended) = match self.context.pop_control() {
            Ok(popped) => popped,
            Err(error) => return Err(error),
        };
        if !has_clauses(frame.kind) {
            return Err(ParseError::CatchOutsideTry);
        }
        let caught = match self.caught(tag) {
            Ok(caught) => caught,
            Err(error) => return Err(error),
        };
        self.context.end_sequence(ended, location);
        let kind = handler_kind(caught.tag);
        let pushed = self
            .context
            .push_control(kind, caught.parameters, &frame.end_types);
        match pushed {
            Ok(handler) => self
                .context
                .add_legacy_catch(clause_of(caught.tag, handler)),
            Err(error) => Err(error),
        }
    }

    /// Takes a `delegate`, which closes the body of a legacy `try` without clauses. Its depth
    /// counts from outside the `try`. The sequence gets no end location.
    pub fn close_delegate(&mut self, relative_depth: u32) -> Result<(), ParseError>
        ensures step { (location : ℕ)
            → ParsesStep self.old self.new (delegate_operation relative_depth) location result }
        ensures rest { OnOk result (IsSameBody self.old.context self.new.context) }
    {
        let kind = match self.context.kind_at(0) {
            Ok(kind) => kind,
            Err(error) => return Err(error),
        };
        let BlockKind::Try = kind else {
            return Err(ParseError::DelegateOutsideTry);
        };
        match self.context.kind_at(relative_depth as usize + 1) {
            Ok(_) => {}
            Err(error) => return Err(error),
        }
        match self
            .context
            .add_legacy_catch(LegacyCatch::Delegate { relative_depth })
        {
            Ok(()) => {}
            Err(error) => return Err(error),
        }
        match self.context.pop_control() {
            Ok((_frame, _block)) => Ok(()),
            Err(error) => Err(error),
        }
    }
}
