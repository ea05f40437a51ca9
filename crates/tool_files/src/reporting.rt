//! What a run has done: the line that says so, and its status.

ghost use Rattle.std.specs.Prelude.{◌≡◌, nat_lt, if◌then◌else◌};
ghost use Rattle.std.specs.Process.{exit_status};

use std::cmp::Ordering;
use std::process::ExitCode;
use std::rt::Clock;
use std::time::Instant;
use std::{fmt, io};

/// What came of a module that was read.
#[derive(Clone, Copy)]
pub struct Outcome {
    /// How many bodies were refused.
    pub refused: usize,
    /// How many bytes the module has that was written, if one was.
    pub written: Option<u64>,
}

/// What was done.
#[derive(Clone, Copy)]
pub struct Done {
    pub functions: usize,
    /// How many bytes were read.
    pub read: u64,
    pub outcome: Outcome,
}

/// By how much what was written is longer or shorter than what was read, in percent.
#[derive(Clone, Copy)]
struct Growth {
    read: u64,
    written: u64,
}

impl fmt::Display for Growth {
    fn fmt<W: fmt::Write>(&self, f: &mut fmt::Formatter<W>) -> fmt::Result {
        let sign = match self.written.cmp(&self.read) {
            Ordering::Less => "-",
            Ordering::Equal => "",
            Ordering::Greater => "+",
        };
        let difference = u128::from(self.written.abs_diff(self.read));
        let tenths = difference
            .saturating_mul(1000)
            .checked_div(u128::from(self.read))
            .unwrap_or(0);
        let (whole, tenth) = (tenths / 10, tenths % 10);
        write!(f, "{sign}{whole}.{tenth}%")
    }
}

/// How many bytes were written, if a module was.
#[derive(Clone, Copy)]
struct Written(Done);

impl fmt::Display for Written {
    fn fmt<W: fmt::Write>(&self, f: &mut fmt::Formatter<W>) -> fmt::Result {
        let Some(written) = self.0.outcome.written else {
            return Ok(());
        };
        let growth = Growth {
            read: self.0.read,
            written,
        };
        write!(f, ", {written} written ({growth})")
    }
}

/// Prints how much was done, and in which time.
pub fn print_done(
    rt: &(impl Eprint + Clock),
    program: &str,
    done: Done,
    start: Instant,
) -> io::Result<()> {
    let Done {
        functions,
        read,
        ..
    } = done;
    let ending = if functions == 1 { "" } else { "s" };
    let time = start.elapsed(rt)?.as_millis();
    let written = Written(done);
    eprintln!(rt; "{program}: {functions} function{ending}, {read} bytes read{written}, {time} ms")
}

/// The status of a run that was done: 1 where a body is refused.
pub fn status_of_done(done: Done) -> ExitCode
    ensures { exit_status result ≡ (if nat_lt 0 done.outcome.refused then 1 else 0) }
{
    match done.outcome.refused {
        0 => ExitCode::SUCCESS,
        _ => ExitCode::FAILURE,
    }
}
