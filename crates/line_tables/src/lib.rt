//! Tables of lines: a program reads them, and prints each with what it comes to. For trials alone.
#![tactic(auto)]

mod rows;
mod run;

pub use rows::{Teller, tell_rows};
pub use run::{TableEnd, read_text, run_table, write_told};

#[cfg(test)]
mod tests;
