//! Functions with a body: what is found out about them, and what is written for them.
ghost use Rattle.walrus_body.specs.LocalFunctions.{HasEntry};

use crate::bodies::{ACCEPTED, Demo};
use crate::by_hand::{WRONG, Wrong, function};
use crate::scenario::{Scenario, Selection};
use crate::text::{Text, push_bytes, push_error, push_flags, push_numbers, push_pairs};
use crate::{entries, walks};
use std::alloc::{AllocError, Global};
use std::io;
use walrus_body::{EmitError, EmitFacts, IdsToIndices, LocalFunction};
use walrus_ir::{
    DataId, FunctionBuilder, IdHashMap, IdHashSet, InstrLocId, LocalId, Module, WalkError,
};
use wasm_encode::FunctionEncoder;

/// Which call is made.
#[derive(Clone, Copy)]
enum Kind {
    Size,
    Segments,
    Facts,
    Locals,
    Emit,
    EmitWithMap,
}

/// A function of the module, the module's new indices, the locals that the function uses, and their
/// numbers.
#[derive(Clone, Copy)]
struct Numbered<'a> {
    module: &'a Module,
    indices: &'a IdsToIndices,
    function: &'a LocalFunction,
    used: &'a IdHashSet<LocalId>,
    numbers: &'a IdHashMap<LocalId, u32>,
}

/// A function, and what it is written into, after a pair of something else.
#[derive(Drop)]
struct OfFunction<'a> {
    numbered: Numbered<'a>,
    encoder: FunctionEncoder,
    pairs: Vec<(InstrLocId, usize)>,
    kind: Kind,
}

/// How many locals, functions and data segments are shown.
const SHOWN: usize = 100;

fn push_facts(text: &mut Text, facts: &EmitFacts) {
    write!(text, " {}", facts.size);
    push_flags(text, &[facts.uses_data_segments]);
    for func in &facts.ref_funcs {
        write!(text, " func{}", func.index());
    }
    for local in 0..SHOWN {
        if facts.used_locals.contains(&LocalId::new(local)) {
            write!(text, " local{local}");
        }
    }
}

fn push_segments(text: &mut Text, segments: &IdHashSet<DataId>) {
    push_numbers(text, &[segments.len()]);
    for segment in 0..SHOWN {
        if segments.contains(&DataId::new(segment)) {
            write!(text, " data{segment}");
        }
    }
}

/// Appends the size of a function, and whether it is constant.
fn find_size(text: &mut Text, function: &LocalFunction) -> Result<(), WalkError>
    requires { HasEntry function.now.builder }
{
    match function.size() {
        Ok(size) => write!(text, " {size}"),
        Err(fault) => return Err(fault),
    }
    if function.is_const() {
        text.push_str(" const");
    }
    Ok(())
}

fn find_segments(text: &mut Text, function: &LocalFunction) -> Result<(), WalkError>
    requires { HasEntry function.now.builder }
{
    match function.used_data_segments() {
        Ok(segments) => push_segments(text, &segments),
        Err(fault) => return Err(fault),
    }
    Ok(())
}

fn find_facts(text: &mut Text, function: &LocalFunction) -> Result<(), WalkError>
    requires { HasEntry function.now.builder }
{
    match function.emit_facts() {
        Ok(facts) => push_facts(text, &facts),
        Err(fault) => return Err(fault),
    }
    Ok(())
}

/// Appends what is found out about a function.
fn push_found(text: &mut Text, function: &LocalFunction, kind: Kind) -> Result<(), AllocError>
    requires { HasEntry function.now.builder }
{
    let found = match kind {
        Kind::Size => find_size(text, function),
        Kind::Segments => find_segments(text, function),
        _ => find_facts(text, function),
    };
    match found {
        Ok(()) => Ok(()),
        Err(fault) => push_error(text, &fault, &WalkError::Memory),
    }
}

fn push_local_numbers(text: &mut Text, numbers: &IdHashMap<LocalId, u32>) {
    for local in 0..SHOWN {
        if let Some(number) = numbers.get(&LocalId::new(local)) {
            write!(text, " local{local}={number}");
        }
    }
}

/// Appends the declarations of a function's locals, and their numbers.
fn find_locals(text: &mut Text, of: &Numbered<'_>) -> Result<(), AllocError> {
    match of.function.emit_locals(of.module, of.indices, of.used) {
        Ok((declarations, numbers)) => {
            write!(text, " {declarations:?}");
            push_local_numbers(text, &numbers);
        }
        Err(error) => return push_error(text, &error, &EmitError::Memory),
    }
    Ok(())
}

/// Writes a function.
fn emit(
    of: &Numbered<'_>,
    text: &mut Text,
    encoder: &mut FunctionEncoder,
    map: Option<&mut Vec<(InstrLocId, usize)>>,
) -> Result<(), AllocError>
    requires { HasEntry of.now.function.now.builder }
{
    let types = &of.module.types;
    match of
        .function
        .emit_instructions(types, of.indices, of.numbers, encoder, map)
    {
        Ok(()) => Ok(()),
        Err(error) => push_error(text, &error, &EmitError::Memory),
    }
}

impl Scenario for OfFunction<'_> {
    fn call(&mut self, returned: &mut Text) -> Result<(), AllocError> {
        let of = &self.numbered;
        if let Kind::Locals = self.kind {
            return find_locals(returned, of);
        }
        if !of.function.has_entry() {
            return Ok(());
        }
        match self.kind {
            Kind::Emit => emit(of, returned, &mut self.encoder, None),
            Kind::EmitWithMap => emit(of, returned, &mut self.encoder, Some(&mut self.pairs)),
            _ => push_found(returned, of.function, self.kind),
        }
    }

    fn show(&self, text: &mut Text) {
        push_bytes(text, self.encoder.bytes());
        push_pairs(text, &self.pairs);
    }
}

/// The calls, of which the first three find facts.
const CALLS: [(&str, Kind); 6] = [
    ("LocalFunction::size", Kind::Size),
    ("LocalFunction::used_data_segments", Kind::Segments),
    ("LocalFunction::emit_facts", Kind::Facts),
    ("LocalFunction::emit_locals", Kind::Locals),
    ("LocalFunction::emit_instructions", Kind::Emit),
    (
        "LocalFunction::emit_instructions-with-map",
        Kind::EmitWithMap,
    ),
];

fn run_one(
    selection: Selection<'_>,
    call: &str,
    row: &str,
    numbered: Numbered<'_>,
    kind: Kind,
) -> io::Result<()> {
    let alloc = selection.alloc();
    let encoder = FunctionEncoder::new(alloc, &[])?;
    let pairs = vec![in alloc; (InstrLocId::new(9), 9)]?;
    let mut of = OfFunction {
        numbered,
        encoder,
        pairs,
        kind,
    };
    selection.run(call, row, &mut of)
}

/// The numbers of a function's locals, of which it uses these. They have none if the module doesn't
/// have them, or if the type of one has no new index.
fn numbers_of(
    alloc: Global,
    demo: &Demo<'_>,
    function: &LocalFunction,
    used: &IdHashSet<LocalId>,
) -> IdHashMap<LocalId, u32> {
    match function.emit_locals(demo.module, demo.numbers, used) {
        Ok((_, numbers)) => numbers,
        Err(_) => IdHashMap::new(alloc),
    }
}

/// Makes these calls on a function whose used locals these are.
fn run_used(
    selection: Selection<'_>,
    demo: &Demo<'_>,
    function: &LocalFunction,
    used: &IdHashSet<LocalId>,
    row: &str,
    calls: &[(&str, Kind)],
) -> io::Result<()> {
    let numbers = numbers_of(selection.alloc(), demo, function, used);
    let numbered = Numbered {
        module: demo.module,
        indices: demo.numbers,
        function,
        used,
        numbers: &numbers,
    };
    for (call, kind) in calls {
        run_one(selection, call, row, numbered, *kind)?;
    }
    Ok(())
}

/// The locals that a function uses; none where its sequences are no tree.
fn used_by(alloc: Global, function: &LocalFunction) -> IdHashSet<LocalId>
    requires { HasEntry function.now.builder }
{
    match function.emit_facts() {
        Ok(EmitFacts { used_locals, .. }) => used_locals,
        Err(_) => IdHashSet::new(alloc),
    }
}

/// Makes these calls on a function, if it has an entry.
fn run_calls(
    selection: Selection<'_>,
    demo: &Demo<'_>,
    function: &LocalFunction,
    row: &str,
    calls: &[(&str, Kind)],
) -> io::Result<()> {
    if !function.has_entry() {
        return Ok(());
    }
    let used = used_by(selection.alloc(), function);
    run_used(selection, demo, function, &used, row, calls)
}

/// Which scenarios are run on a function.
#[derive(Clone, Copy)]
enum Which {
    All,
    /// The calls that find facts.
    Finding,
    /// That it is written as an entry of the code section.
    Entry,
}

/// Runs scenarios on a function.
fn run_row(
    selection: Selection<'_>,
    demo: &Demo<'_>,
    function: &LocalFunction,
    row: &str,
    which: Which,
) -> io::Result<()> {
    if let Which::Finding = which {
        return run_calls(selection, demo, function, row, &CALLS[..3]);
    }
    entries::run(selection, demo.module, function, "CodeEntry::emit", row)?;
    if let Which::Entry = which {
        return Ok(());
    }
    walks::run(selection, function.builder(), row)?;
    run_calls(selection, demo, function, row, &CALLS)
}

/// Runs scenarios on the function that has a body with these bytes.
fn run_read(
    selection: Selection<'_>,
    demo: &Demo<'_>,
    row: &str,
    digits: &str,
    which: Which,
) -> io::Result<()> {
    let function = demo.accepted(selection.alloc(), digits)?;
    run_row(selection, demo, &function, row, which)
}

/// Runs scenarios on a function that is made by hand.
fn run_made(
    selection: Selection<'_>,
    demo: &Demo<'_>,
    row: &str,
    wrong: Wrong,
    which: Which,
) -> io::Result<()> {
    let function = function(selection.alloc(), wrong)?;
    run_row(selection, demo, &function, row, which)
}

/// Other rows with a body: of instructions that name ids, of each kind of sequence, and of functions
/// that can't be written.
const PARSED: [(&str, &str); 6] = [
    (
        "each-name",
        "002000210122021afc080000fc0900fb090000fb120000d20010010b",
    ),
    (
        "each-sequence",
        "0041011a024041021a044041031a0541041a0b41051a0b41061a064041071a070041081a1941091a0b410a1a0b",
    ),
    ("unknown-local", "001002200b1a20101a0b"),
    ("untyped-local", "001002200b1a0b"),
    ("untyped-alone", "00200b1a0b"),
    ("unnumbered", "00411020011a10020b"),
];

/// The other rows of the calls that find facts.
const FOUND: [(&str, &str); 10] = [
    ("constants", "00410142020b"),
    ("global", "0023000b"),
    ("inside", "00024041010b0b"),
    ("dead-block", "000c00024041011a0b0b"),
    ("dead-segment", "000240fc09010b0f0240fc09000b0b"),
    ("segments", "00fc0901fc0900fc09010b"),
    (
        "arms",
        "0041010440d2011a05d2011ad2001a0bfc090020011a20001a0b",
    ),
    ("array", "00fb0900001a0b"),
    ("set", "00410020032101220210010b"),
    ("dropped", "000f20011ad2001afc09000b"),
];

/// The other rows of `emit_locals`: the arguments of a function, and the locals that it uses.
const DECLARED: [(&str, &[usize], &[usize]); 12] = [
    ("unused", &[0], &[]),
    ("argument", &[0], &[0, 1]),
    ("gap", &[0], &[3, 1]),
    ("types", &[1, 0], &[14, 7, 6, 5, 4, 3, 2, 1, 0]),
    ("references", &[], &[5, 6, 8, 9, 10, 12, 13, 15]),
    // An argument that is listed twice has its last position as its number.
    ("twice", &[1, 1], &[2, 1]),
    ("again", &[0, 1, 0], &[2]),
    // An argument needs neither a type in the module nor a new index for its type.
    ("foreign", &[77, 11], &[2, 11, 77]),
    // A local that isn't in the module comes before a type without a new index.
    ("missing", &[0], &[99, 1]),
    ("both", &[], &[11, 99]),
    ("untyped", &[], &[11]),
    ("untyped-too", &[0], &[1, 11, 5]),
];

fn locals(alloc: Global, ids: &[usize]) -> Result<Vec<LocalId>, AllocError> {
    let mut locals = Vec::new(alloc);
    for id in ids {
        locals.push(LocalId::new(*id))?;
    }
    Ok(locals)
}

fn add_all(set: &mut IdHashSet<LocalId>, ids: &[usize]) -> Result<(), AllocError> {
    for id in ids {
        set.insert(LocalId::new(*id))?;
    }
    Ok(())
}

/// A function without sequences.
fn without_sequences(
    alloc: Global,
    demo: &Demo<'_>,
    args: &[usize],
) -> Result<LocalFunction, AllocError> {
    let args = locals(alloc, args)?;
    let builder = FunctionBuilder::without_entry(alloc, demo.ty);
    Ok(LocalFunction::new(args, builder))
}

fn run_using(
    selection: Selection<'_>,
    demo: &Demo<'_>,
    function: &LocalFunction,
    row: &str,
    used: &[usize],
) -> io::Result<()> {
    let mut set = IdHashSet::new(selection.alloc());
    match add_all(&mut set, used) {
        Ok(()) => run_used(selection, demo, function, &set, row, &CALLS[3..4]),
        Err(error) => Err(io::Error::from(error)),
    }
}

fn run_declared(
    selection: Selection<'_>,
    demo: &Demo<'_>,
    row: &str,
    args: &[usize],
    used: &[usize],
) -> io::Result<()> {
    let function = without_sequences(selection.alloc(), demo, args)?;
    run_using(selection, demo, &function, row, used)
}

/// Runs the scenarios of these calls that are selected.
pub(crate) fn run(selection: Selection<'_>, demo: &Demo<'_>) -> io::Result<()> {
    for (row, digits) in &ACCEPTED {
        run_read(selection, demo, row, digits, Which::All)?;
    }
    for (row, digits) in &PARSED {
        run_read(selection, demo, row, digits, Which::All)?;
    }
    for (row, wrong) in &WRONG {
        run_made(selection, demo, row, *wrong, Which::All)?;
    }
    run_made(
        selection,
        demo,
        "made-by-hand",
        Wrong::Nothing,
        Which::Entry,
    )?;
    for (row, digits) in &FOUND {
        run_read(selection, demo, row, digits, Which::Finding)?;
    }
    for (row, args, used) in &DECLARED {
        run_declared(selection, demo, row, args, used)?;
    }
    Ok(())
}
