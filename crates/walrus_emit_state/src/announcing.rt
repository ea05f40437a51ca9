//! Announcing the sequences in an instruction, each with what closes it: they are to come next.
ghost use Rattle.std.specs.Prelude.{◌≡◌, ◌∷◌, [], length, map, true, OnOk, OnErr, IfErr};
ghost use Rattle.walrus_ir.specs.Types.{signature_of_type};
ghost use Rattle.walrus_ir.specs.Unfolding.{handler_of as clause_places, handlers};
ghost use Rattle.wasm_body.specs.InstructionTable.{legacy_clause, clauses_of_try};
ghost use Rattle.wasm_body.specs.NormalForm.{is_balanced_type};
ghost use Rattle.wasm_body.specs.FlatText.{are_lawful, try_closers};
ghost use Rattle.wasm_body.specs.FunctionTree.{last_location};
ghost use Rattle.walrus_emit_state.specs.Emission.{is_short, if_scopes, scopes_of_if, scopes_inside};
ghost use Rattle.walrus_emit_state.specs.TreeWriting.Closers.{closing, scopes_of};
ghost use Rattle.walrus_emit_state.specs.TreeWriting.Announcing.{AreAnnounced, AreNotAnnounced, Announces, IsNotAnnounced, HasMore};

use crate::clauses::{closer_before, handler_of};
use crate::closing::{Closer, SequenceScope};
use crate::open_scopes::Scopes;
use walrus_ir::{
    FunctionBuilder, IfElse, Instr, InstrLocId, InstrSeq, InstrSeqId, LegacyCatch, ModuleTypes, Try,
};
use walrus_numbering::is_balanced;
use wasm_body::EmitError;

/// Announces the sequence in a slot, which this closes at the location of its end.
fn announce_one(
    scopes: &mut Scopes,
    builder: &FunctionBuilder,
    place: InstrSeqId,
    closer: Closer,
) -> Result<(), EmitError>
    requires { scopes.old.count ≡ length builder.now.sequences }
    ensures ok { OnOk result (Announces builder.now.sequences (place ∷ []) (closing closer ∷ [])
        scopes.old scopes.new) }
    ensures err { IfErr result (IsNotAnnounced builder.now.sequences (place ∷ [])
        (closing closer ∷ [])) }
    ensures unchanged { OnErr result (scopes.new ≡ scopes.old) }
{
    if !builder.has(place) {
        return Err(EmitError::UnknownSequence);
    }
    let end = builder.seq(place).end;
    scopes.announce(place, closer, end)?;
    Ok(())
}

/// Announces the handler of a clause, if it has one, before the others.
fn announce_handler(
    scopes: &mut Scopes,
    builder: &FunctionBuilder,
    clause: &LegacyCatch,
    closer: Closer,
) -> Result<(), EmitError>
    requires { scopes.old.count ≡ length builder.now.sequences }
    ensures ok { OnOk result (Announces builder.now.sequences (clause_places clause.now)
        (closing closer ∷ []) scopes.old scopes.new) }
    ensures err { IfErr result (IsNotAnnounced builder.now.sequences (clause_places clause.now)
        (closing closer ∷ [])) }
    ensures unchanged { OnErr result (scopes.new ≡ scopes.old) }
{
    match handler_of(clause) {
        Some(handler) => announce_one(scopes, builder, handler, closer),
        None => Ok(()),
    }
}

/// Announces the sequences in a legacy `try`, before the others. If it fails, some of them may be
/// announced.
fn announce_try(
    scopes: &mut Scopes,
    builder: &FunctionBuilder,
    construct: &Try,
) -> Result<(), EmitError>
    requires known { scopes.old.count ≡ length builder.now.sequences }
    requires lawful { are_lawful (map legacy_clause construct.now.catches) ≡ true }
    ensures ok { OnOk result (Announces builder.now.sequences
        (construct.now.seq ∷ handlers construct.now.catches)
        (try_closers (map legacy_clause construct.now.catches)) scopes.old scopes.new) }
    ensures err { IfErr result (IsNotAnnounced builder.now.sequences
        (construct.now.seq ∷ handlers construct.now.catches)
        (try_closers (map legacy_clause construct.now.catches))) }
    ensures unchanged { OnErr result (HasMore scopes.old scopes.new) }
{
    let mut closer = Closer::End;
    let mut left = construct.catches.as_slice();
    'clauses: while let Some((clause, before)) = left.split_last() {
        if let Err(fault) = announce_handler(scopes, builder, clause, closer) {
            return Err(fault);
        }
        closer = closer_before(clause);
        left = before;
    }
    announce_one(scopes, builder, construct.seq, closer)
}

/// The second of two locations, or the first if the second is the default location.
fn last_location(first: InstrLocId, second: InstrLocId) -> InstrLocId
    ensures { result ≡ last_location first second }
{
    if second.is_default() { first } else { second }
}

/// The sequences in an `if`, each with what closes it. If the alternative says nothing, one `end`
/// closes the consequent, and nothing the alternative.
fn scopes_of_if(
    types: &ModuleTypes,
    construct: &IfElse,
    consequent: &InstrSeq,
    alternative: &InstrSeq,
) -> (SequenceScope, SequenceScope)
    ensures scopes { scopes_of (result.0 ∷ result.1 ∷ [])
        ≡ if_scopes (is_short (λ t. is_balanced_type (signature_of_type types.now t)) consequent.now
        alternative.now) construct.now.consequent consequent.now construct.now.alternative
        alternative.now }
    ensures consequent { result.0.place ≡ construct.now.consequent }
    ensures alternative { result.1.place ≡ construct.now.alternative }
{
    let is_short = is_balanced(types, consequent.ty) && alternative.is_empty();
    let (first, second) = if is_short {
        let end = last_location(consequent.end, alternative.end);
        (Some((Closer::End, end)), None)
    } else {
        (
            Some((Closer::Else, consequent.end)),
            Some((Closer::End, alternative.end)),
        )
    };
    (
        SequenceScope {
            place: construct.consequent,
            closer: first,
        },
        SequenceScope {
            place: construct.alternative,
            closer: second,
        },
    )
}

/// Announces the sequences in an `if`, before the others. If it fails, one of them may be
/// announced.
fn announce_if(
    scopes: &mut Scopes,
    builder: &FunctionBuilder,
    types: &ModuleTypes,
    construct: &IfElse,
) -> Result<(), EmitError>
    requires { scopes.old.count ≡ length builder.now.sequences }
    ensures ok { OnOk result (AreAnnounced (scopes_of_if
        (λ t. is_balanced_type (signature_of_type types.now t)) builder.now.sequences
        construct.now.consequent construct.now.alternative) scopes.old scopes.new) }
    ensures err { IfErr result (AreNotAnnounced (scopes_of_if
        (λ t. is_balanced_type (signature_of_type types.now t)) builder.now.sequences
        construct.now.consequent construct.now.alternative)) }
    ensures unchanged { OnErr result (HasMore scopes.old scopes.new) }
{
    if !builder.has(construct.consequent) || !builder.has(construct.alternative) {
        return Err(EmitError::UnknownSequence);
    }
    let (first, second) = scopes_of_if(
        types,
        construct,
        builder.seq(construct.consequent),
        builder.seq(construct.alternative),
    );
    scopes.announce_closed(second.place, second.closer)?;
    scopes.announce_closed(first.place, first.closer)?;
    Ok(())
}

/// Announces the sequences in an instruction, before the others. If it fails, some of them may be
/// announced.
pub fn announce(
    scopes: &mut Scopes,
    builder: &FunctionBuilder,
    types: &ModuleTypes,
    instr: &Instr,
) -> Result<(), EmitError>
    requires known { scopes.old.count ≡ length builder.now.sequences }
    requires lawful { are_lawful (clauses_of_try instr.now) ≡ true }
    ensures ok { OnOk result (AreAnnounced (scopes_inside
        (λ t. is_balanced_type (signature_of_type types.now t)) builder.now.sequences instr.now)
        scopes.old scopes.new) }
    ensures err { IfErr result (AreNotAnnounced (scopes_inside
        (λ t. is_balanced_type (signature_of_type types.now t)) builder.now.sequences instr.now)) }
    ensures unchanged { OnErr result (HasMore scopes.old scopes.new) }
{
    match instr {
        Instr::Block(x) => announce_one(scopes, builder, x.seq, Closer::End),
        Instr::Loop(x) => announce_one(scopes, builder, x.seq, Closer::End),
        Instr::TryTable(x) => announce_one(scopes, builder, x.seq, Closer::End),
        Instr::IfElse(x) => announce_if(scopes, builder, types, x),
        Instr::Try(x) => announce_try(scopes, builder, x),
        _ => Ok(()),
    }
}
