//! Reads a table of streams, calls and replies from the input, and prints what each line comes to.
//! For trials alone.
//!
//! A line that begins with `#`, and one that is empty, stands as it is. Any other line is a kind
//! and, behind a blank, its subject. It stands as it is, and behind it what it comes to, each line
//! behind two blanks. `notation` says how bytes are written, here and there; these are the kinds:
//!
//! - `route TARGET`: the call that a target names.
//! - `read PIECES`, `fronts STREAM`: the messages of a stream and what stands behind them
//!   (`reading`).
//! - `write WRITES`: whether each was written whole, and what the link took of it (`writing`).
//! - `serve PIECES`: how a connection ended, and what was written on it (`serving`).
//! - `closes COUNT FLAG`: what a reply says behind so many others.
//! - `fault NAME`: the number and the name of a fault of the wire, and its farewell.
//! - `refusal RULE SUBJECT`: the answer of a refusal.
//! - `standin NAME FLAG`: a stand-in's whole reply.
//!
//! A flag is `open` or `close`. `!` and numbers with commas between them behind the kinds `read`,
//! `write` and `serve`: these calls to the link fail, counted from 1, and a write whose number
//! stands there twice takes nothing. What is none of these is `not understood`.
#![tactic(auto)]

mod fault;
mod forms;
mod notation;
mod reading;
mod serving;
mod writing;

use fault::Fault;
use line_tables::{Teller, run_table};
use outside::{StdIn, StdOut};
use standard_files::{DevNull, hold_standard};
use std::alloc::{AllocError, Global};
use std::process::ExitCode;

/// One byte more than a table may have.
const BOUND: usize = 4_194_305;

/// Tells what a line of a kind comes to, where these calls to the link fail.
fn tell_kind(
    alloc: Global,
    kind: &str,
    fails: Vec<u64>,
    subject: &str,
    out: &mut Vec<u8>,
) -> Result<(), Fault> {
    match kind {
        "read" => return reading::tell_read(alloc, subject, fails, out),
        "write" => return writing::tell_writes(alloc, subject, fails, out),
        "serve" => return serving::tell_served(alloc, subject, fails, out),
        _ => {}
    }
    if !fails.is_empty() {
        return Err(Fault::Form);
    }
    match kind {
        "fronts" => reading::tell_fronts(alloc, subject, out),
        "route" => forms::tell_route(alloc, subject, out),
        "closes" => forms::tell_closes(subject, out),
        "fault" => writing::tell_fault(alloc, subject, out),
        "refusal" => forms::tell_refusal(alloc, subject, out),
        "standin" => forms::tell_standin(alloc, subject, out),
        _ => Err(Fault::Form),
    }
}

/// Tells what a line comes to.
fn tell_subject(alloc: Global, line: &str, out: &mut Vec<u8>) -> Result<(), Fault> {
    let (front, subject) = line.split_once(' ').unwrap_or((line, ""));
    let Some((kind, numbers)) = front.split_once('!') else {
        return tell_kind(alloc, front, Vec::new(alloc), subject, out);
    };
    let fails = notation::numbers_of(alloc, numbers)?;
    tell_kind(alloc, kind, fails, subject, out)
}

/// Says what a line comes to.
struct Streams;

impl Teller for Streams {
    fn tell(&self, alloc: Global, line: &str) -> Result<Vec<u8>, AllocError> {
        let mut out = Vec::new(alloc);
        match tell_subject(alloc, line, &mut out) {
            Ok(()) => {}
            Err(Fault::Form) => out.extend_from_slice(b"  not understood\n")?,
            Err(Fault::Memory) => return Err(AllocError),
        }
        Ok(out)
    }
}

fn main(rt: HostRuntime) -> ExitCode {
    let Ok(_held) = hold_standard(&mut DevNull::new(&rt)) else {
        return ExitCode::from(4);
    };
    let mut input = StdIn::new(rt.stdin());
    let mut output = StdOut::new(rt.stdout());
    match run_table(rt.alloc(), &mut input, &mut output, BOUND, &Streams) {
        Ok(()) => ExitCode::from(0),
        Err(end) => ExitCode::from(end.status()),
    }
}
