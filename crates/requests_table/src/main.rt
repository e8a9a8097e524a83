//! Reads a script of requests from the input, and prints what each is told. For trials alone.
//!
//! A script is a configuration, a line `----`, and blocks of lines, parted by lines `----`. A block
//! is the life of one core, from the empty world on. Each line behind the configuration gives one
//! line: `script` says which lines there are, and `telling` how an answer is printed.
#![tactic(auto)]

mod script;
mod telling;

use call_forms::Told;
use line_tables::{TableEnd, read_text, write_told};
use outside::{Sink, Source, StdIn, StdOut};
use permissions::{Policy, PolicyFault};
use policy_reading::from_toml;
use request_demands::understand;
use script::{Line, Turn};
use service_core::Core;
use standard_files::{DevNull, hold_standard};
use std::alloc::{AllocError, Global};
use std::process::ExitCode;
use telling::{put_line, put_told};

/// One byte more than a script may have.
const BOUND: usize = 4_194_305;

/// The policy of a configuration. A faulty one ends a run as an input that is no text does.
fn policy_of(alloc: Global, config: &str) -> Result<Policy, TableEnd> {
    match from_toml(alloc, config.as_bytes()) {
        Ok(policy) => Ok(policy),
        Err(PolicyFault::Memory) => Err(TableEnd::Memory),
        Err(_) => Err(TableEnd::NoText),
    }
}

/// What a core is told for a line under a policy.
fn told(alloc: Global, policy: &Policy, core: &mut Core, turn: &Turn) -> Told {
    let understood = understand(alloc, policy, &turn.asked);
    core.serve(alloc, policy, turn.now, understood)
}

/// Tells a line.
fn tell_line(
    alloc: Global,
    policy: &Policy,
    core: &mut Core,
    line: &str,
    out: &mut Vec<u8>,
) -> Result<(), AllocError> {
    match Line::read(alloc, policy.secret(), line)? {
        Line::Comment => put_line("", line, out),
        Line::Request(turn) => put_told(alloc, &told(alloc, policy, core, &turn), out),
        Line::Odd => put_line("no request: ", line, out),
    }
}

/// Tells the lines of a block in turn.
fn tell_lines(
    alloc: Global,
    policy: &Policy,
    core: &mut Core,
    block: &str,
    out: &mut Vec<u8>,
) -> Result<(), AllocError> {
    for line in block.lines() {
        tell_line(alloc, policy, core, line, out)?;
    }
    Ok(())
}

/// Tells a block to a core of its own.
fn tell_block(
    alloc: Global,
    policy: &Policy,
    block: &str,
    out: &mut Vec<u8>,
) -> Result<(), AllocError> {
    let mut core = Core::new(alloc)?;
    tell_lines(alloc, policy, &mut core, block, out)
}

/// Tells all blocks, with a line `----` between two of them.
fn tell_blocks(
    alloc: Global,
    policy: &Policy,
    blocks: &str,
    out: &mut Vec<u8>,
) -> Result<(), AllocError> {
    for (i, block) in blocks.split("\n----\n").enumerate() {
        if i > 0 {
            put_line("----", "", out)?;
        }
        tell_block(alloc, policy, block, out)?;
    }
    Ok(())
}

/// What a script gives. One without a line `----` ends a run as an input that is no text does.
fn tell_script(alloc: Global, script: &str) -> Result<Vec<u8>, TableEnd> {
    let (config, blocks) = script.split_once("\n----\n").ok_or(TableEnd::NoText)?;
    let policy = policy_of(alloc, config)?;
    let mut out = Vec::new(alloc);
    tell_blocks(alloc, &policy, blocks, &mut out)?;
    Ok(out)
}

/// Reads a script from an input, and writes what it gives to an output.
fn run_script<I: Source, O: Sink>(
    alloc: Global,
    input: &mut I,
    output: &mut O,
) -> Result<(), TableEnd> {
    let script = read_text(alloc, input, BOUND)?;
    let told = tell_script(alloc, script.as_str())?;
    write_told(output, told.as_slice())
}

fn main(rt: HostRuntime) -> ExitCode {
    let Ok(_held) = hold_standard(&mut DevNull::new(&rt)) else {
        return ExitCode::from(4);
    };
    let mut input = StdIn::new(rt.stdin());
    let mut output = StdOut::new(rt.stdout());
    match run_script(rt.alloc(), &mut input, &mut output) {
        Ok(()) => ExitCode::from(0),
        Err(end) => ExitCode::from(end.status()),
    }
}
