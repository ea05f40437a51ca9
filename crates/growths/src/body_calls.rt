//! Bodies that are parsed, rewritten, or read with names.
ghost use Rattle.std.specs.Prelude.{◌≤◌, ◌<◌, ◌+◌, ◌^◌, length};

use crate::bodies::{ACCEPTED, Demo, REFUSED, arguments, body, bytes_of};
use crate::contexts::push_sequences;
use crate::scenario::{Scenario, Selection};
use crate::text::{Text, push_bytes, push_error, push_location, push_numbers, push_pairs};
use std::alloc::{AllocError, Global};
use std::io;
use walrus_body::{
    AcceptAll, CheckError, EmitError, FunctionBody, LocalFunction, OpCheck, ParseError,
    ParseFailure,
};
use walrus_ir::{InstrLocId, LocalId, WalkError};
use walrus_run::{FlatScratch, NamedBody, RewriteError, check_flat, rewrite_body, rewrite_flat};
use wasm_ops::Operator;

/// A validator that accepts every operator and keeps its place, or has no memory for it.
#[derive(Drop)]
struct Keeping {
    places: Vec<usize>,
}

impl OpCheck for Keeping {
    ghost use Rattle.std.specs.Prelude.{Ok};

    ghost State = { Unit {0} };

    ghost state = { λ _. tt };

    ghost check = { λ s _. Ok s };

    fn op(&mut self, pos: usize, _op: &Operator<'_>) -> Result<(), CheckError> {
        match self.places.push(pos) {
            Ok(()) => Ok(()),
            Err(_) => Err(CheckError::Memory),
        }
    }
}

/// Which call is made.
#[derive(Clone, Copy)]
enum Kind {
    Parse,
    ParseKeeping,
    Rewrite,
    /// With a location function, which returns twice the place.
    RewriteLocated,
    /// Without a list of pairs.
    RewriteAlone,
    /// At a place such that that of the second operator is too great for a location.
    RewriteLate,
    /// There, with a location function.
    RewriteLateLocated,
    /// Without a tree.
    Flat,
    /// Without a tree, and without writing.
    Check,
    Read,
}

impl Kind {
    fn is_late(self) -> bool {
        matches!(self, Kind::RewriteLate | Kind::RewriteLateLocated)
    }

    /// Whether there is a location function.
    fn is_located(self) -> bool {
        matches!(self, Kind::RewriteLocated | Kind::RewriteLateLocated)
    }
}

/// A body, and the lists that it is rewritten into, after two bytes and a pair of something else.
#[derive(Drop)]
struct OfBody<'a> {
    demo: &'a Demo<'a>,
    source: &'a [u8],
    bytes: Vec<u8>,
    pairs: Vec<(InstrLocId, usize)>,
    flat: FlatScratch,
    kind: Kind,
}

/// Appends the range of a function, its places with their locations, how many arguments it has, and
/// its sequences.
pub(crate) fn push_function(text: &mut Text, function: &LocalFunction) {
    if let Some(range) = &function.original_range {
        write!(text, " {}..{}", range.start, range.end);
    }
    for (place, location) in &function.instruction_mapping {
        write!(text, " {place}:");
        push_location(text, *location);
    }
    push_numbers(text, &[function.args.len()]);
    push_sequences(text, function.builder());
}

/// Appends why a body is refused, unless memory ran out.
pub(crate) fn push_failure(text: &mut Text, failure: ParseFailure) -> Result<(), AllocError> {
    push_error(text, &failure.error, &ParseError::Memory)?;
    write!(text, " at {}", failure.at);
    Ok(())
}

/// Appends the operators of a body, each with its place.
fn push_named(text: &mut Text, named: &NamedBody) {
    for (position, op) in named.ops().iter().enumerate() {
        let place = named.place(position).unwrap_or(0);
        write!(text, " {place}:{:?}", op.opcode);
    }
}

/// Appends why a body isn't rewritten, unless memory ran out.
pub(crate) fn push_rewrite_error(text: &mut Text, error: RewriteError) -> Result<(), AllocError> {
    match error {
        RewriteError::Parse(failure) => push_failure(text, failure),
        RewriteError::Walk(error) => push_error(text, &error, &WalkError::Memory),
        RewriteError::Emit(error) => push_error(text, &error, &EmitError::Memory),
    }
}

/// Reads a body.
pub(crate) fn read(
    alloc: Global,
    demo: &Demo<'_>,
    source: &[u8],
) -> Result<NamedBody, ParseFailure> {
    NamedBody::read(
        alloc,
        demo.module,
        demo.indices,
        demo.function,
        demo.ty,
        body(source, false),
    )
}

/// Twice the place of an operator of these bodies.
fn doubled(place: usize) -> InstrLocId {
    InstrLocId::new((place % 1_000_000_000) as u32 * 2)
}

/// Rewrites a body, with a location function if it is located.
pub(crate) fn rewrite_into(
    demo: &Demo<'_>,
    args: Vec<LocalId>,
    body: FunctionBody<'_>,
    is_located: bool,
    bytes: &mut Vec<u8>,
    map: Option<&mut Vec<(InstrLocId, usize)>>,
) -> Result<LocalFunction, RewriteError>
    requires offset { 90 ≤ body.start }
    requires ops { body.ops ≤ length body.bytes.now }
    requires fits { body.start + length body.bytes.now < 2 ^ 64 }
{
    let mut instrs = Vec::new(*args.allocator());
    let locate = |place: &usize| doubled(*place);
    rewrite_body(
        demo.module,
        demo.indices,
        demo.function,
        demo.ty,
        args,
        body,
        if is_located { Some(&locate) } else { None },
        AcceptAll,
        &mut instrs,
        demo.numbers,
        bytes,
        map,
    )
}

impl OfBody<'_> {
    /// Rewrites the body into the lists, or into that of the bytes alone.
    fn rewrite(&mut self, args: Vec<LocalId>) -> Result<LocalFunction, RewriteError> {
        let source = body(self.source, self.kind.is_late());
        let is_located = self.kind.is_located();
        let (demo, bytes) = (self.demo, &mut self.bytes);
        match self.kind {
            Kind::RewriteAlone => rewrite_into(demo, args, source, is_located, bytes, None),
            _ => {
                let map = Some(&mut self.pairs);
                rewrite_into(demo, args, source, is_located, bytes, map)
            }
        }
    }

    /// Rewrites the body into the lists, without a tree.
    fn rewrite_flat(&mut self, args: &[LocalId], returned: &mut Text) -> Result<(), AllocError> {
        let demo = self.demo;
        match rewrite_flat(
            demo.module,
            demo.indices,
            demo.function,
            demo.ty,
            args,
            body(self.source, false),
            None::<&fn(&usize) -> InstrLocId>,
            AcceptAll,
            demo.numbers,
            &mut self.flat,
            &mut self.bytes,
            Some(&mut self.pairs),
        ) {
            Ok(()) => Ok(()),
            Err(error) => push_rewrite_error(returned, error),
        }
    }

    /// Checks the body, without a tree.
    fn check_flat(&mut self, returned: &mut Text) -> Result<(), AllocError> {
        let demo = self.demo;
        match check_flat(
            demo.module,
            demo.indices,
            demo.function,
            demo.ty,
            body(self.source, false),
            AcceptAll,
            &mut self.flat,
        ) {
            Ok(()) => Ok(()),
            Err(failure) => push_failure(returned, failure),
        }
    }

    fn push_rewritten(
        &mut self,
        args: Vec<LocalId>,
        returned: &mut Text,
    ) -> Result<(), AllocError> {
        match self.rewrite(args) {
            Ok(function) => push_function(returned, &function),
            Err(error) => return push_rewrite_error(returned, error),
        }
        Ok(())
    }

    fn read(&self, returned: &mut Text) -> Result<(), AllocError> {
        match read(*self.bytes.allocator(), self.demo, self.source) {
            Ok(named) => push_named(returned, &named),
            Err(failure) => return push_failure(returned, failure),
        }
        Ok(())
    }

    fn parse<V: OpCheck>(
        &self,
        args: Vec<LocalId>,
        validator: V,
        returned: &mut Text,
    ) -> Result<(), AllocError> {
        match self.demo.parse(args, self.source, validator) {
            Ok(function) => push_function(returned, &function),
            Err(failure) => return push_failure(returned, failure),
        }
        Ok(())
    }
}

impl Scenario for OfBody<'_> {
    fn call(&mut self, returned: &mut Text) -> Result<(), AllocError> {
        let alloc = *self.bytes.allocator();
        match self.kind {
            Kind::Parse => self.parse(arguments(alloc)?, AcceptAll, returned),
            Kind::ParseKeeping => {
                let args = arguments(alloc)?;
                let places = Vec::new(alloc);
                self.parse(args, Keeping { places }, returned)
            }
            Kind::Read => self.read(returned),
            Kind::Flat => self.rewrite_flat(&arguments(alloc)?, returned),
            Kind::Check => self.check_flat(returned),
            _ => self.push_rewritten(arguments(alloc)?, returned),
        }
    }

    fn show(&self, text: &mut Text) {
        push_bytes(text, &self.bytes);
        push_pairs(text, &self.pairs);
    }
}

const CALLS: [(&str, Kind); 6] = [
    ("LocalFunction::parse", Kind::Parse),
    ("LocalFunction::parse-keeping", Kind::ParseKeeping),
    ("rewrite_body", Kind::Rewrite),
    ("rewrite_flat", Kind::Flat),
    ("check_flat", Kind::Check),
    ("NamedBody::read", Kind::Read),
];

/// The other rows of `rewrite_body`: a body, and how it is rewritten.
const REWRITTEN: [(&str, &str, &str, Kind); 40] = [
    // An `else` that says nothing is left out.
    ("rewrite_body", "else", "0041010440050b0b", Kind::Rewrite),
    (
        "rewrite_body",
        "short-if",
        "004101044005010b0b",
        Kind::Rewrite,
    ),
    // An `else` is added to an `if` with a result.
    (
        "rewrite_body",
        "added-else",
        "004101047f41020b1a0b",
        Kind::Rewrite,
    ),
    // A constant of two bytes becomes one of one byte.
    ("rewrite_body", "long", "00014181001a0b", Kind::Rewrite),
    (
        "rewrite_body",
        "arms",
        "0041010440d2011a05d2011ad2001a0bfc090020011a20001a0b",
        Kind::Rewrite,
    ),
    // Locals of several types.
    (
        "rewrite_body",
        "types",
        "0020061a20011a20041a20051a20071a20031a200e1a0b",
        Kind::Rewrite,
    ),
    // Dropped code is neither declared nor written.
    ("rewrite_body", "dead", "0020031a0f20011a0b", Kind::Rewrite),
    (
        "rewrite_body-located",
        "if",
        "00410104400b0b",
        Kind::RewriteLocated,
    ),
    (
        "rewrite_body-alone",
        "locals",
        "0020011a20031a0b",
        Kind::RewriteAlone,
    ),
    (
        "rewrite_body-alone",
        "unnumbered",
        "0010020b",
        Kind::RewriteAlone,
    ),
    // The place of an operator is its location if there is no location function. The greatest is
    // 2^32 - 2.
    ("rewrite_body-late", "end", "000b", Kind::RewriteLate),
    ("rewrite_body-late", "after", "00010b", Kind::RewriteLate),
    (
        "rewrite_body-late-located",
        "after",
        "00010b",
        Kind::RewriteLateLocated,
    ),
    // A fault of the parse comes first, then those of declarations, of writing last.
    (
        "rewrite_body",
        "label-first",
        "001002200b1a0c050b",
        Kind::Rewrite,
    ),
    (
        "rewrite_body",
        "unknown-local",
        "001002200b1a20101a0b",
        Kind::Rewrite,
    ),
    (
        "rewrite_body",
        "untyped-local",
        "001002200b1a0b",
        Kind::Rewrite,
    ),
    (
        "rewrite_body",
        "unnumbered",
        "00411020011a10020b",
        Kind::Rewrite,
    ),
    // Bodies that can't be parsed.
    ("rewrite_body", "empty", "", Kind::Rewrite),
    ("rewrite_body", "ended", "00", Kind::Rewrite),
    ("rewrite_body", "trailing", "000b0b", Kind::Rewrite),
    ("rewrite_body", "cut", "0041", Kind::Rewrite),
    ("rewrite_body", "cut-later", "000f41", Kind::Rewrite),
    (
        "rewrite_body",
        "number",
        "004180808080701a0b",
        Kind::Rewrite,
    ),
    ("rewrite_body", "type-index", "0002040b0b", Kind::Rewrite),
    ("rewrite_body", "type", "0002500b0b", Kind::Rewrite),
    (
        "rewrite_body",
        "alignment",
        "0041002820001a0b",
        Kind::Rewrite,
    ),
    (
        "rewrite_body",
        "long-alignment",
        "00288001000b",
        Kind::Rewrite,
    ),
    ("rewrite_body", "memory", "00284101000b", Kind::Rewrite),
    ("rewrite_body", "select", "001c027f7f0b", Kind::Rewrite),
    ("rewrite_body", "operator", "00fc12000b", Kind::Rewrite),
    ("rewrite_body", "global", "0023010b", Kind::Rewrite),
    ("rewrite_body", "data", "00fc088200000b", Kind::Rewrite),
    ("rewrite_body", "labels", "000e0200", Kind::Rewrite),
    ("rewrite_body", "heap-type", "00d0640b", Kind::Rewrite),
    ("rewrite_body", "fence", "00fe03010b", Kind::Rewrite),
    ("rewrite_body", "cast", "00fb180400700b", Kind::Rewrite),
    ("rewrite_body", "local", "0020110b", Kind::Rewrite),
    ("rewrite_body", "clause", "001f400104000b0b", Kind::Rewrite),
    ("rewrite_body", "tag", "001f40010005090b0b", Kind::Rewrite),
    ("rewrite_body", "function", "0010030b", Kind::Rewrite),
];

/// Runs the scenario of a call on a body.
fn run_one(
    selection: Selection<'_>,
    demo: &Demo<'_>,
    call: &str,
    row: &str,
    source: &[u8],
    kind: Kind,
) -> io::Result<()> {
    let alloc = selection.alloc();
    let bytes = vec![in alloc; 0xaa, 0xbb]?;
    let pairs = vec![in alloc; (InstrLocId::new(9), 9)]?;
    let mut of = OfBody {
        demo,
        source,
        bytes,
        pairs,
        flat: FlatScratch::new(alloc),
        kind,
    };
    selection.run(call, row, &mut of)
}

fn run_calls(
    selection: Selection<'_>,
    demo: &Demo<'_>,
    row: &str,
    source: &[u8],
    calls: &[(&str, Kind)],
) -> io::Result<()> {
    for (call, kind) in calls {
        run_one(selection, demo, call, row, source, *kind)?;
    }
    Ok(())
}

/// Runs the scenarios of these calls on the body with these bytes.
fn run_row(
    selection: Selection<'_>,
    demo: &Demo<'_>,
    row: &str,
    digits: &str,
    calls: &[(&str, Kind)],
) -> io::Result<()> {
    let source = bytes_of(selection.alloc(), digits)?;
    run_calls(selection, demo, row, &source, calls)
}

/// Runs the scenarios of these calls that are selected.
pub(crate) fn run(selection: Selection<'_>, demo: &Demo<'_>) -> io::Result<()> {
    for rows in [ACCEPTED.as_slice(), REFUSED.as_slice()] {
        for (row, digits) in rows {
            run_row(selection, demo, row, digits, &CALLS)?;
        }
    }
    for (call, row, digits, kind) in &REWRITTEN {
        run_row(selection, demo, row, digits, &[(*call, *kind)])?;
    }
    Ok(())
}
