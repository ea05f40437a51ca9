//! How a program is called, and what it takes.

use crate::options::HelpPage;
use std::io;

/// A program: how it is called, and what it takes.
#[derive(Clone, Copy)]
pub struct Program {
    /// Its name, with which its messages begin.
    pub name: &'static str,
    /// How it is called and what it does: what `--help` prints before the options.
    pub about: &'static str,
    /// What its status says, and an example: what `--help` prints after the options.
    pub ending: &'static str,
    /// Whether it takes `--check`, with which it writes no module.
    pub takes_check: bool,
    /// Whether it takes functions, after its files and by options; it then takes `--list` too.
    pub takes_functions: bool,
    /// Whether it leaves out what nothing reaches, without being asked to.
    pub collects: bool,
    /// Whether it takes the name of what it exports.
    pub takes_export: bool,
    /// Whether it charges code, and takes what that costs and what it is charged by.
    pub takes_costs: bool,
}

impl Program {
    /// Prints the page of help.
    ///
    /// # Errors
    ///
    /// Where it can't be printed.
    pub fn print_help(&self, rt: &impl Print) -> io::Result<()> {
        println!(rt; "{}", HelpPage(self))
    }
}
