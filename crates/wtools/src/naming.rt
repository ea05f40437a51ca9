//! Which of the programs is asked for.

ghost use Rattle.std.specs.Prelude.{◌≡◌, IfSome, IsNone, Some};
ghost use Rattle.std.specs.Path.{path_file_name};
ghost use Rattle.wtools.specs.Names.{name_of, NamesNone};

use std::path::Path;
use std::rt::Env;
use std::str;

/// No path is longer on Linux.
const LONGEST_PATH: usize = 4096;

/// One of the programs.
#[derive(Clone, Copy)]
pub enum Chosen {
    /// `wrewrite`.
    Rewrite,
    /// `wsnip`.
    Snip,
    /// `wcount`.
    Count,
    /// `wmeter`.
    Meter,
    /// `wgc`.
    Collect,
    /// `wbench`.
    Measure,
}

impl Chosen {
    /// The program with this name.
    fn named(name: &str) -> Option<Chosen>
        ensures found { IfSome result (λ chosen. name.now ≡ name_of chosen) }
        ensures other { IsNone result → NamesNone name.now }
    {
        match name {
            "wrewrite" => Some(Chosen::Rewrite),
            "wsnip" => Some(Chosen::Snip),
            "wcount" => Some(Chosen::Count),
            "wmeter" => Some(Chosen::Meter),
            "wgc" => Some(Chosen::Collect),
            "wbench" => Some(Chosen::Measure),
            _ => None,
        }
    }

    /// The program whose name is the last one of this path.
    fn started_by(path: &str) -> Option<Chosen>
        ensures { IfSome result (λ chosen. path_file_name path.now ≡ Some (name_of chosen)) }
    {
        match Path::new(path).file_name() {
            Some(name) => Chosen::named(name),
            None => None,
        }
    }
}

/// An argument, where it is UTF-8 and no longer than a path can be.
fn argument<'b>(rt: &impl Env, place: usize, buffer: &'b mut [u8]) -> Option<&'b str> {
    match rt.arg(place, buffer) {
        Ok(size) => match str::from_utf8(&buffer[..size]) {
            Ok(text) => Some(text),
            Err(_) => None,
        },
        Err(_) => None,
    }
}

/// The program that is asked for, and the place of its first word among the arguments.
pub fn asked(rt: &impl Env) -> Option<(Chosen, usize)> {
    let mut buffer = [0u8; LONGEST_PATH];
    if let Some(path) = argument(rt, 0, &mut buffer)
        && let Some(chosen) = Chosen::started_by(path)
    {
        return Some((chosen, 1));
    }
    match Chosen::named(argument(rt, 1, &mut buffer)?) {
        Some(chosen) => Some((chosen, 2)),
        None => None,
    }
}
