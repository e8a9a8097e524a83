//! Reads a table of texts from the input, and prints what each comes to. For trials alone.
//!
//! A line is a kind and a subject, parted by one blank: `kinds` lists the kinds. The subject of
//! some kinds is several words, parted by one blank each, of which the last is the rest of the
//! line. Each line is printed again, and what it comes to behind it: values and what is told of
//! them, parted by ` | `, or a fault by its name, with its place or length. Lines that are empty or
//! begin with `#` are printed again alone.
//!
//! In a word `\xHH` is the byte of these digits, and `\{N,TEXT}` is the text N times. So are values
//! printed: what isn't printable ASCII, and the backslash, as `\xHH`, and what repeats one byte 32
//! times or more as `\{N,BYTE}`.
#![tactic(auto)]

mod kinds;
mod names;
mod notation;
mod parts;
mod times;
mod words;

use kinds::told;
use line_tables::{Teller, run_table};
use outside::{StdIn, StdOut};
use standard_files::{DevNull, hold_standard};
use std::alloc::{AllocError, Global};
use std::process::ExitCode;
use words::{Stop, stop_text};

/// One byte more than a table may have.
const BOUND: usize = 1_048_577;

/// Says what a line of a kind and a subject comes to.
struct Texts;

impl Teller for Texts {
    fn tell(&self, alloc: Global, line: &str) -> Result<Vec<u8>, AllocError> {
        let (kind, subject) = line.split_once(' ').unwrap_or((line, ""));
        let mut out = match told(alloc, kind, subject) {
            Ok(told) => told,
            Err(Stop::Memory) => return Err(AllocError),
            Err(stop) => stop_text(alloc, stop)?,
        };
        out.push(b'\n')?;
        Ok(out)
    }
}

fn main(rt: HostRuntime) -> ExitCode {
    let Ok(_held) = hold_standard(&mut DevNull::new(&rt)) else {
        return ExitCode::from(4);
    };
    let mut input = StdIn::new(rt.stdin());
    let mut output = StdOut::new(rt.stdout());
    match run_table(rt.alloc(), &mut input, &mut output, BOUND, &Texts) {
        Ok(()) => ExitCode::from(0),
        Err(end) => ExitCode::from(end.status()),
    }
}
