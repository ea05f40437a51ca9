//! How far a long run is, as a line on a terminal.

ghost use Rattle.std.specs.Prelude.{◌≡◌};

use std::cell::Cell;
use std::rt::Clock;
use std::time::{Duration, Instant};
use walrus_body::LocalFunction;
use walrus_ir::ModuleLocals;
use wasm_module::{
    Body, BodyWriter, ByteSink, ChangeFunction, Measured, ModuleError, Needed, ParsedModule,
    Scratch,
};

/// For how many milliseconds a run shows nothing.
const FIRST: u64 = 2000;

/// For how many milliseconds the line stays before it is written anew.
const NEXT: u64 = 100;

/// How many functions of a run are done, which a line on standard error says. The line is written
/// anew in its place, and removed at the end.
#[derive(Drop)]
pub struct Progress<'r, R> {
    rt: &'r R,
    program: &'r str,
    /// How many functions there are.
    functions: Cell<usize>,
    /// How many were done. Each is done twice where a module is written: first it is read, and
    /// rewritten or changed, and nothing goes out.
    done: Cell<usize>,
    /// When the line is written next; never where standard error isn't a terminal.
    next: Cell<Option<Instant>>,
    /// Whether the line is there.
    is_shown: Cell<bool>,
}

impl<'r, R: Eprint + Clock> Progress<'r, R> {
    /// A run of this program that begins now.
    pub fn new(rt: &'r R, program: &'r str, is_terminal: bool) -> Self {
        Progress {
            rt,
            program,
            functions: Cell::new(0),
            done: Cell::new(0),
            next: Cell::new(first_time(rt, is_terminal)),
            is_shown: Cell::new(false),
        }
    }

    /// There are so many functions, of which none is done.
    pub fn begin(&self, functions: usize) {
        self.functions.set(functions);
        self.done.set(0);
    }

    /// One function more is done.
    pub fn step(&self) {
        let done = self.done.get().saturating_add(1);
        self.done.set(done);
        if let Some(next) = self.next.get() {
            self.show_after(next, done);
        }
    }

    /// Writes the line if this time has come.
    fn show_after(&self, next: Instant, done: usize) {
        match Instant::now(self.rt) {
            Ok(now) if next <= now => {
                self.next.set(now.checked_add(Duration::from_millis(NEXT)));
                self.show(done);
            }
            _ => {}
        }
    }

    /// Writes the line in the place of the last one.
    fn show(&self, done: usize) {
        let (program, functions) = (self.program, self.functions.get());
        let (done, what) = match done.checked_sub(functions) {
            None | Some(0) => (done, "read"),
            Some(written) => (written, "written"),
        };
        self.is_shown.set(true);
        // A line that can't be written is no reason to stop.
        let _ = eprint!(self.rt; "\r\x1b[K{program}: {done} of {functions} functions {what}");
    }

    /// Removes the line, before something else is printed.
    pub fn clear(&self) {
        if self.is_shown.get() {
            self.is_shown.set(false);
            let _ = eprint!(self.rt; "\r\x1b[K");
        }
    }
}

/// When a run that begins now is shown first, if at all.
fn first_time(clock: &impl Clock, is_terminal: bool) -> Option<Instant> {
    if !is_terminal {
        return None;
    }
    match Instant::now(clock) {
        Ok(now) => now.checked_add(Duration::from_millis(FIRST)),
        Err(_) => None,
    }
}

/// What is written of bodies, each of which is a step of a run.
#[derive(Drop)]
pub struct Watched<'p, R, B> {
    progress: &'p Progress<'p, R>,
    bodies: B,
    /// Whether a large body may be written without being measured before, as in the first pass.
    is_first: bool,
}

impl<'p, R, B> Watched<'p, R, B> {
    /// The same bodies, each of which is a step of `progress` when it is written.
    pub fn new(progress: &'p Progress<'p, R>, bodies: B) -> Self
        ensures { result.bodies ≡ bodies }
    {
        Watched {
            progress,
            bodies,
            is_first: false,
        }
    }

    /// The same bodies, each of which is a step of `progress` when it is written in the first pass
    /// over a module.
    pub fn first(progress: &'p Progress<'p, R>, bodies: B) -> Self
        ensures { result.bodies ≡ bodies }
    {
        Watched {
            progress,
            bodies,
            is_first: true,
        }
    }
}

impl<R: Eprint + Clock, B: BodyWriter> BodyWriter for Watched<'_, R, B> {
    ghost writes = { λ self. B.writes self.bodies };

    ghost returns = { λ self. B.returns self.bodies };

    fn write_body<'a>(
        &self,
        parsed: &mut ParsedModule<'a>,
        body: Body<'a>,
        needed: Needed,
        scratch: &mut Scratch,
    ) -> Result<Option<LocalFunction>, ModuleError> {
        self.progress.step();
        self.bodies.write_body(parsed, body, needed, scratch)
    }

    fn measure_large_body<'a>(
        &self,
        parsed: &mut ParsedModule<'a>,
        body: Body<'a>,
        scratch: &mut Scratch,
    ) -> Result<Measured, ModuleError> {
        self.progress.step();
        self.bodies.measure_large_body(parsed, body, scratch)
    }

    fn write_large_body<'a, S: ByteSink>(
        &self,
        parsed: &mut ParsedModule<'a>,
        body: Body<'a>,
        needs_pairs: bool,
        scratch: &mut Scratch,
        sink: &mut S,
    ) -> Result<(), ModuleError> {
        if self.is_first {
            self.progress.step();
        }
        self.bodies
            .write_large_body(parsed, body, needs_pairs, scratch, sink)
    }
}

/// A change of functions, each of which is a step of a run.
#[derive(Drop)]
pub struct WatchedChange<'p, R, C> {
    progress: &'p Progress<'p, R>,
    change: C,
}

impl<'p, R, C> WatchedChange<'p, R, C> {
    /// The same change, of which each function is a step of `progress` when it is changed.
    pub fn new(progress: &'p Progress<'p, R>, change: C) -> Self
        ensures { result.change ≡ change }
    {
        WatchedChange { progress, change }
    }
}

impl<R: Eprint + Clock, C: ChangeFunction> ChangeFunction for WatchedChange<'_, R, C> {
    ghost State = { C.State };

    ghost state = { λ self. C.state self.change };

    ghost changes = { C.changes };

    fn change(
        &mut self,
        index: usize,
        function: &mut LocalFunction,
        locals: &mut ModuleLocals,
    ) -> Result<(), ModuleError> {
        self.progress.step();
        self.change.change(index, function, locals)
    }
}
