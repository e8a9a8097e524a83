//! Makes the calls of its input to graphs, to states and to rows, and prints what each answers. For
//! trials alone.
//!
//! A line is a kind, `graph`, `states` or `rows`, and behind a blank its calls, parted by `; `,
//! which are made one after the other on one value that is empty before. The line is printed again,
//! and behind it, behind two blanks, each call with its answer. `graphs`, `states` and `rows` say
//! which calls there are. Lines that are empty or begin with `#` are printed again alone.
//!
//! Several nodes are parted by commas, and none are `-`.
#![tactic(auto)]

mod graphs;
mod numbers;
mod rows;
mod states;

use finaliser::Finaliser;
use inclusion_graph::Graph;
use invocations::Table;
use line_tables::{Teller, run_table};
use numbers::tell_calls;
use outside::{StdIn, StdOut};
use standard_files::{DevNull, hold_standard};
use std::alloc::{AllocError, Global};
use std::process::ExitCode;

/// One byte more than a table may have.
const BOUND: usize = 1_048_577;

/// Says what calls answer.
struct Calls;

impl Teller for Calls {
    fn tell(&self, alloc: Global, line: &str) -> Result<Vec<u8>, AllocError> {
        match line.split_once(' ') {
            Some(("graph", calls)) => tell_calls(alloc, Graph::new(alloc)?, calls),
            Some(("states", calls)) => tell_calls(alloc, Finaliser::new(alloc)?, calls),
            Some(("rows", calls)) => tell_calls(alloc, Table::new(alloc)?, calls),
            _ => Vec::from_slice(alloc, b"  not understood\n"),
        }
    }
}

fn main(rt: HostRuntime) -> ExitCode {
    let Ok(_held) = hold_standard(&mut DevNull::new(&rt)) else {
        return ExitCode::from(4);
    };
    let mut input = StdIn::new(rt.stdin());
    let mut output = StdOut::new(rt.stdout());
    match run_table(rt.alloc(), &mut input, &mut output, BOUND, &Calls) {
        Ok(()) => ExitCode::from(0),
        Err(end) => ExitCode::from(end.status()),
    }
}
