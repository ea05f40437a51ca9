//! Which version of the programs this is.

/// The version of the programs and of the library.
pub const VERSION: &str = "0.2.0";

/// Whether the program was proved before it was built. A build without proofs compiles this file with
/// `quick build` in the place of this word, so that a program can't pass for a proved one.
pub const BUILD: &str = "proved";
