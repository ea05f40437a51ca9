//! A call that breaks its object, which has to be reported.

use crate::scenario::{Scenario, Selection};
use crate::text::Text;
use std::alloc::AllocError;
use std::io;

/// Two lists, to which a call adds one after the other: where the second has no memory, the first
/// has an item more than before.
#[derive(Drop)]
struct Broken {
    first: Vec<usize>,
    second: Vec<usize>,
}

impl Scenario for Broken {
    fn call(&mut self, _returned: &mut Text) -> Result<(), AllocError> {
        self.first.push(1)?;
        self.second.push(2)?;
        Ok(())
    }

    fn show(&self, text: &mut Text) {
        write!(text, " {:?} {:?}", self.first, self.second);
    }
}

/// Runs the scenario if it is selected.
pub(crate) fn run(selection: Selection<'_>) -> io::Result<()> {
    let alloc = selection.alloc();
    let mut broken = Broken {
        first: Vec::new(alloc),
        second: Vec::new(alloc),
    };
    selection.run("broken", "control", &mut broken)
}
