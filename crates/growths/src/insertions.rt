//! Functions into which instructions are inserted: a call at each place, or charges.

use crate::bodies::{Demo, arguments, bytes_of, number_items};
use crate::scenario::{Scenario, Selection};
use crate::text::{Text, push_bytes, push_error};
use std::alloc::{AllocError, Global};
use std::io;
use walrus_body::{AcceptAll, Emit, EmitContext, EmitError, IdsToIndices, LocalFunction};
use walrus_insertion::{Place, Probe, insert};
use walrus_ir::{FunctionId, GlobalId, IdHashMap};
use walrus_metering::{Charge, Costs, meter};
use walrus_run::CodeEntry;

/// What is inserted.
#[derive(Clone, Copy)]
enum Kind {
    /// A call of function 1 at each place.
    Calls,
    /// Charges of what is executed, where each operator costs 1.
    Charges(Charge),
}

/// A body, and what is inserted into its function. Each call parses the body anew, since a call that is
/// refused memory may have changed some sequences of its function.
#[derive(Clone, Copy, Drop)]
struct Instrumented<'a> {
    alloc: Global,
    demo: &'a Demo<'a>,
    bytes: &'a [u8],
    kind: Kind,
}

fn insert_calls(function: &mut LocalFunction) -> Result<(), AllocError> {
    insert(
        function.builder_mut(),
        |_place: &Place<'_>, probe: &mut Probe| probe.call(FunctionId::new(1)),
    )
}

fn charge_each(
    alloc: Global,
    function: &mut LocalFunction,
    charge: Charge,
) -> Result<(), AllocError> {
    let costs = Costs::new(alloc)?;
    meter(function.builder_mut(), &costs, &charge)
}

/// Appends the bytes of a function.
fn push_written(
    alloc: Global,
    demo: &Demo<'_>,
    text: &mut Text,
    func: &LocalFunction,
) -> Result<(), AllocError> {
    let mut indices = Box::new(alloc, IdsToIndices::new(alloc))?;
    if number_items(&mut indices).is_err() {
        return Err(AllocError);
    }
    let mut context = EmitContext {
        module: demo.module,
        indices: &mut indices,
        bytes: Vec::new(alloc),
        func_facts: IdHashMap::new(alloc),
        code_transform: Vec::new(alloc),
    };
    match (CodeEntry { func }).emit(&mut context) {
        Ok(()) => push_bytes(text, &context.bytes),
        Err(error) => return push_error(text, &error, &EmitError::Memory),
    }
    Ok(())
}

impl Scenario for Instrumented<'_> {
    fn call(&mut self, returned: &mut Text) -> Result<(), AllocError> {
        let args = arguments(self.alloc)?;
        let Ok(mut function) = self.demo.parse(args, self.bytes, AcceptAll) else {
            return Err(AllocError);
        };
        match self.kind {
            Kind::Calls => insert_calls(&mut function)?,
            Kind::Charges(charge) => charge_each(self.alloc, &mut function, charge)?,
        }
        push_written(self.alloc, self.demo, returned, &function)
    }
}

/// The bodies, each of which is accepted.
const ROWS: [(&str, &str); 4] = [
    ("const", "0041011a0b"),
    ("block", "0002400c000b0b"),
    ("if", "00410104400b0b"),
    ("nested", "00024002400240024002400b0b0b0b0b0b"),
];

/// Runs the scenarios that are selected.
pub(crate) fn run(selection: Selection<'_>, demo: &Demo<'_>) -> io::Result<()> {
    let alloc = selection.alloc();
    let calls = [
        ("insert", Kind::Calls),
        (
            "meter-call",
            Kind::Charges(Charge::Call(FunctionId::new(1))),
        ),
        ("meter-global", Kind::Charges(Charge::Add(GlobalId::new(0)))),
    ];
    for (row, digits) in &ROWS {
        let bytes = bytes_of(alloc, digits)?;
        for (call, kind) in &calls {
            let mut instrumented = Instrumented {
                alloc,
                demo: &*demo,
                bytes: &bytes,
                kind: *kind,
            };
            selection.run(call, row, &mut instrumented)?;
        }
    }
    Ok(())
}
