//! How a call is made: between lines that say what it is made on, and what it returns.

use crate::text::Text;
use std::alloc::{AllocError, Global};
use std::io;

/// A call that takes memory, with all that it is made on.
pub(crate) trait Scenario {
    /// Makes the call, and appends what it returns to a text with room for it. The only error is
    /// that memory ran out.
    fn call(&mut self, returned: &mut Text) -> Result<(), AllocError>;

    /// Appends what the call is made on. Calls that take no memory show nothing.
    fn show(&self, _text: &mut Text) {}
}

/// The room in bytes for what a call returns.
const ROOM: usize = 8000;

fn shown<S: Scenario>(alloc: Global, scenario: &S) -> Text {
    let mut text = Text::new(alloc);
    scenario.show(&mut text);
    text
}

/// Makes a call. The only error is that memory ran out, for the call or for what it returns.
fn called<S: Scenario>(scenario: &mut S, returned: &mut Text) -> Result<(), AllocError> {
    scenario.call(returned)?;
    match returned.whole() {
        Ok(_) => Ok(()),
        Err(error) => Err(error),
    }
}

/// Prints whether what a call is made on is as it was before.
fn print_now(rt: &HostRuntime, before: &str, now: &Text) -> io::Result<()> {
    let now = now.whole()?;
    if now == before {
        println!(rt; "as before")
    } else {
        println!(rt; "differs:{now}")
    }
}

/// Prints whether all is as before, and makes a call again that was refused memory.
fn make_again<S: Scenario>(
    rt: &HostRuntime,
    scenario: &mut S,
    before: &str,
    returned: &mut Text,
) -> io::Result<()> {
    println!(rt; "Memory")?;
    print_now(rt, before, &shown(rt.alloc(), scenario))?;
    returned.clear();
    called(scenario, returned)?;
    Ok(())
}

/// Makes a call. From the line `try` to the next one nothing but the call takes memory.
fn make_once<S: Scenario>(
    rt: &HostRuntime,
    scenario: &mut S,
    before: &str,
    returned: &mut Text,
) -> io::Result<()> {
    println!(rt; "try")?;
    if called(scenario, returned).is_err() {
        make_again(rt, scenario, before, returned)?;
    }
    println!(rt; "returned:{}", returned.whole()?)
}

/// Makes a call, with room for what it returns.
fn make_with_room<S: Scenario>(rt: &HostRuntime, scenario: &mut S, before: &str) -> io::Result<()> {
    let mut returned = Text::with_room(rt.alloc(), ROOM)?;
    make_once(rt, scenario, before, &mut returned)
}

/// Which scenarios are run: all, or that of one call on one row.
#[derive(Clone, Copy)]
pub(crate) struct Selection<'a> {
    /// Where lines are printed.
    pub rt: &'a HostRuntime,
    name: Option<(&'a str, &'a str)>,
}

impl<'a> Selection<'a> {
    /// The scenario that these words name: a call and a row. Other words select all scenarios.
    pub(crate) fn new(rt: &'a HostRuntime, words: &'a [String]) -> Selection<'a> {
        let name = match words {
            [call, row] => Some((call.as_str(), row.as_str())),
            _ => None,
        };
        Selection { rt, name }
    }

    pub(crate) fn alloc(self) -> Global {
        self.rt.alloc()
    }

    /// Whether the scenario of this call on this row is run.
    pub(crate) fn has(self, call: &str, row: &str) -> bool {
        match self.name {
            Some((name, other)) => name == call && other == row,
            None => true,
        }
    }

    /// Makes a call, and prints what it is made on before and after it.
    fn make<S: Scenario>(
        self,
        call: &str,
        row: &str,
        scenario: &mut S,
        before: &str,
    ) -> io::Result<()> {
        let rt = self.rt;
        println!(rt; "call: {call} {row}\nbefore:{before}")?;
        make_with_room(rt, scenario, before)?;
        let after = shown(rt.alloc(), scenario);
        println!(rt; "after:{}", after.whole()?)
    }

    /// Runs a scenario if it is selected.
    pub(crate) fn run<S: Scenario>(
        self,
        call: &str,
        row: &str,
        scenario: &mut S,
    ) -> io::Result<()> {
        if !self.has(call, row) {
            return Ok(());
        }
        let before = shown(self.alloc(), scenario);
        match before.whole() {
            Ok(before) => self.make(call, row, scenario, before),
            Err(error) => Err(io::Error::from(error)),
        }
    }

    /// Runs a scenario after so many calls of it.
    pub(crate) fn run_after<S: Scenario>(
        self,
        calls: usize,
        call: &str,
        row: &str,
        scenario: &mut S,
    ) -> io::Result<()> {
        for _ in 0..calls {
            called(scenario, &mut Text::new(self.alloc()))?;
        }
        self.run(call, row, scenario)
    }
}
