//! The static library `wrewrite_c`: modules are rewritten, snipped, checked and validated, from C and from each
//! language that can call C. `include/wrewrite.h` declares the functions. A call works on bytes that
//! its caller lends, puts what it makes into bytes that its caller lends, and keeps nothing.
#![tactic(auto)]

ghost use Rattle.std.specs.Prelude.{◌≡◌};
ghost use Rattle.wasm_module.specs.RewrittenCode.{IsRewrittenWith};
ghost use Rattle.wrewrite_c.specs.Made.{IsMadeOf, IsSnippedOf};
ghost use Rattle.wrewrite_c.specs.Outcomes.{Asks, Ends, IsOfModule, LacksFunction, IsChecked, HasVerdict, IsFound};

mod checking;
mod finding;
mod made;
mod making;
mod options;
mod outcome;
mod reading;
mod stripping;
mod validating;
mod warnings;

use made::Made;
use options::Options;
pub use outcome::{Outcome, TEXT_SIZE};
use std::alloc::Global;

/// The version of the library: its three numbers, with two digits for each of the last two.
const VERSION: u32 = 200;

/// The version of the library.
#[unsafe(no_mangle)]
pub extern "C" fn wrewrite_version() -> u32
    ensures { result ≡ 200 }
{
    VERSION
}

/// Rewrites a module as is wanted.
fn rewrite(alloc: Global, source: &[u8], wanted: Options, out: &mut [u8], map: &mut [u8]) -> Outcome
    ensures { Ends (IsMadeOf IsRewrittenWith source.now wanted) IsOfModule
        out.old out.new map.old map.new result }
{
    let mut made = Made::new(alloc);
    match making::rewrite(alloc, source, wanted, &mut made) {
        Ok(()) => made.deliver(out, map),
        Err(stop) => Outcome::of_stop(stop),
    }
}

/// Snips functions of a module, as is wanted.
fn snip(
    alloc: Global,
    source: &[u8],
    functions: &[usize],
    wanted: Options,
    out: &mut [u8],
    map: &mut [u8],
) -> Outcome
    ensures { Ends (IsSnippedOf functions.now source.now wanted)
        (LacksFunction functions.now source.now) out.old out.new map.old map.new result }
{
    let mut made = Made::new(alloc);
    match making::snip(alloc, source, functions, wanted, &mut made) {
        Ok(()) => made.deliver(out, map),
        Err(stop) => Outcome::of_stop(stop),
    }
}

/// Rewrites a module, as the program `wrewrite` does. The module is put at the front of `out`, and its
/// location map at the front of `map`, where both fit; `map` is left as it is where no map is wanted.
/// The outcome has the sizes of both. The options are the words of a `struct wrewrite_options`.
#[unsafe(no_mangle)]
pub extern "C" fn wrewrite_raw_rewrite(
    alloc: Global,
    source: &[u8],
    options: &[u32],
    out: &mut [u8],
    map: &mut [u8],
) -> Outcome
    ensures { Asks options.now (λ wanted. Ends (IsMadeOf IsRewrittenWith source.now wanted)
        IsOfModule out.old out.new map.old map.new result)
        out.old out.new map.old map.new result }
{
    match Options::read(options) {
        Some(wanted) => rewrite(alloc, source, wanted, out, map),
        None => Outcome::of_bad_options(),
    }
}

/// The same, and leaves nothing but `unreachable` of the functions with these indices, as the program
/// `wsnip` does. Imported functions have the first indices, and none of them has a body.
#[unsafe(no_mangle)]
pub extern "C" fn wrewrite_raw_snip(
    alloc: Global,
    source: &[u8],
    functions: &[usize],
    options: &[u32],
    out: &mut [u8],
    map: &mut [u8],
) -> Outcome
    ensures { Asks options.now (λ wanted. Ends (IsSnippedOf functions.now source.now wanted)
        (LacksFunction functions.now source.now)
        out.old out.new map.old map.new result) out.old out.new map.old map.new result }
{
    match Options::read(options) {
        Some(wanted) => snip(alloc, source, functions, wanted, out, map),
        None => Outcome::of_bad_options(),
    }
}

/// Looks for the first function that is refused, as `wrewrite --check` does, among those with this
/// index and the following ones. Nothing is written.
#[unsafe(no_mangle)]
pub extern "C" fn wrewrite_raw_check(alloc: Global, source: &[u8], first: usize) -> Outcome
    ensures { IsChecked source.now first result }
{
    match checking::check(alloc, source, first) {
        Ok(()) => Outcome::of_sizes(outcome::DONE, 0, 0),
        Err(stop) => Outcome::of_stop(stop),
    }
}

/// Validates a module, as `wrewrite --validate` does. Nothing is written.
#[unsafe(no_mangle)]
pub extern "C" fn wrewrite_raw_validate(alloc: Global, source: &[u8]) -> Outcome
    ensures { HasVerdict source.now result }
{
    match validating::validate(alloc, source) {
        Ok(()) => Outcome::of_sizes(outcome::DONE, 0, 0),
        Err(stop) => validating::outcome_of(alloc, source, stop),
    }
}

/// Looks for the function with a name, as `wsnip` does: one that the `name` section names so, else one
/// that is exported so. Its index is put into the outcome if it has a body.
#[unsafe(no_mangle)]
pub extern "C" fn wrewrite_raw_find(alloc: Global, source: &[u8], name: &[u8]) -> Outcome
    ensures { IsFound source.now result }
{
    match finding::find(alloc, source, name) {
        Ok(named) => Outcome::of_named(named),
        Err(stop) => Outcome::of_stop(stop),
    }
}
