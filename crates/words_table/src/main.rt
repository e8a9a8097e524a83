//! Reads command lines from the input, and prints what their words say. For trials alone.
//!
//! A line is `rdb`, and behind it each word behind a `|`: so a word may have blanks, or be empty.
//! It is printed again, and behind it, each behind two blanks, the command that the words say and
//! the places that they name, as `telling` writes them. The lines `help` and `version` come to
//! these texts, and any other to `not understood`. Lines that are empty or begin with `#` are
//! printed again alone.
#![tactic(auto)]

mod line_words;
mod telling;

use line_tables::{Teller, run_table};
use line_words::words_of;
use outside::{StdIn, StdOut};
use program_words::{help_text, version_text, words_say_one_command};
use standard_files::{DevNull, hold_standard};
use std::alloc::{AllocError, Global};
use std::process::ExitCode;
use telling::tell_words;

/// One byte more than a table may have.
const BOUND: usize = 1_048_577;

/// Says what the words of a command line say.
struct Words;

impl Teller for Words {
    fn tell(&self, alloc: Global, line: &str) -> Result<Vec<u8>, AllocError> {
        match line {
            "help" => Vec::from_slice(alloc, help_text().as_bytes()),
            "version" => Vec::from_slice(alloc, version_text().as_bytes()),
            _ => match words_of(alloc, line)? {
                Some(words) => tell_words(alloc, words.as_slice()),
                None => Vec::from_slice(alloc, b"  not understood\n"),
            },
        }
    }
}

fn main(rt: HostRuntime) -> ExitCode {
    words_say_one_command();
    let Ok(_held) = hold_standard(&mut DevNull::new(&rt)) else {
        return ExitCode::from(4);
    };
    let mut input = StdIn::new(rt.stdin());
    let mut output = StdOut::new(rt.stdout());
    match run_table(rt.alloc(), &mut input, &mut output, BOUND, &Words) {
        Ok(()) => ExitCode::from(0),
        Err(end) => ExitCode::from(end.status()),
    }
}
