//! Reads lines of a word and a body, and prints each, and behind it what it comes to. For trials
//! alone.
//!
//! A line that is empty or begins with `#` is only printed. In another the first blank parts the
//! word from the body, in which `\r{98,a}` is 98 times `a`, `\x0a` the byte of this number, and
//! `\\` a backslash; any other backslash is itself (`notation`). A word is
//!
//! - one of a kind, of which `names`, `texts` and `kinds` have a list: what is written of the value
//!   that is read is told;
//! - one of fields, parts of a value, a batch of rows, or a reply: `fields`, `beside`, `parts`,
//!   `batches`, `replies`;
//! - else a method: what is written of the request that the body asks for is told.
//!
//! A body that isn't read comes to its fault, or to the text of its refusal. `same` stands for the
//! body as it is (`telling`).
#![tactic(auto)]

mod batches;
mod beside;
mod faults;
mod fields;
mod kinds;
mod names;
mod notation;
mod parts;
mod replies;
mod requests;
mod telling;
mod texts;

use faults::{Fault, fault_text};
use line_tables::{Teller, run_table};
use notation::body_of;
use outside::{StdIn, StdOut};
use standard_files::{DevNull, hold_standard};
use std::alloc::{AllocError, Global};
use std::process::ExitCode;
use telling::{put_line, put_told};

/// One byte more than a table may have.
const BOUND: usize = 4_194_305;

/// What a word makes of a body, where it isn't a method's.
fn told_of_form(alloc: Global, word: &str, body: &[u8]) -> Result<Option<Vec<u8>>, Fault> {
    if let Some(told) = names::told(alloc, word, body)? {
        return Ok(Some(told));
    }
    if let Some(told) = texts::told(alloc, word, body)? {
        return Ok(Some(told));
    }
    if let Some(told) = kinds::told(alloc, word, body)? {
        return Ok(Some(told));
    }
    if let Some(told) = fields::told(alloc, word, body)? {
        return Ok(Some(told));
    }
    if let Some(told) = beside::told(alloc, word, body)? {
        return Ok(Some(told));
    }
    if let Some(told) = parts::told(alloc, word, body)? {
        return Ok(Some(told));
    }
    if let Some(told) = batches::told(alloc, word, body)? {
        return Ok(Some(told));
    }
    replies::told(alloc, word, body)
}

/// What a word makes of a body, or why it comes to nothing.
fn told(alloc: Global, word: &str, body: &[u8]) -> Result<Vec<u8>, AllocError> {
    match told_of_form(alloc, word, body) {
        Ok(Some(told)) => Ok(told),
        Ok(None) => requests::told(alloc, word, body),
        Err(fault) => Ok(fault_text(alloc, fault)?.into_bytes()),
    }
}

/// Tells what a word and the text of a body come to.
fn tell_row(alloc: Global, line: &str, out: &mut Vec<u8>) -> Result<(), AllocError> {
    let (word, text) = line.split_once(' ').unwrap_or((line, ""));
    match body_of(alloc, text)? {
        Some(body) => {
            let comes_to = told(alloc, word, body.as_slice())?;
            put_told(body.as_slice(), comes_to.as_slice(), out)
        }
        None => put_line("the body is too long", out),
    }
}

/// Says what a line of a word and a body comes to.
struct Bodies;

impl Teller for Bodies {
    fn tell(&self, alloc: Global, line: &str) -> Result<Vec<u8>, AllocError> {
        let mut out = Vec::new(alloc);
        tell_row(alloc, line, &mut out)?;
        Ok(out)
    }
}

fn main(rt: HostRuntime) -> ExitCode {
    let Ok(_held) = hold_standard(&mut DevNull::new(&rt)) else {
        return ExitCode::from(4);
    };
    let mut input = StdIn::new(rt.stdin());
    let mut output = StdOut::new(rt.stdout());
    match run_table(rt.alloc(), &mut input, &mut output, BOUND, &Bodies) {
        Ok(()) => ExitCode::from(0),
        Err(end) => ExitCode::from(end.status()),
    }
}
