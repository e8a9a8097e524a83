//! A program whose threads take turns with one number: to try a turnstile, and to measure it.
//!
//! `THREADS TURNS MILLIS`: so many callers take so many turns each, and each turn adds one. The
//! first caller stays so long in its first turn, and the others come meanwhile. Prints the number
//! in the end.
#![tactic(auto)]

mod callers;

use callers::{Tally, callers, take_all};
use standard_files::{DevNull, hold_standard};
use std::process::ExitCode;
use std::{env, io};
use turnstile::Turnstile;

fn number(word: Option<&String>) -> u64 {
    word.and_then(|text| text.as_str().parse::<u64>().ok())
        .unwrap_or(0)
}

fn main(rt: HostRuntime) -> io::Result<ExitCode> {
    let Ok(_held) = hold_standard(&mut DevNull::new(&rt)) else {
        return Ok(ExitCode::from(4));
    };
    let alloc = rt.alloc();
    let words: Vec<String> = env::args(&rt)?.collect(alloc)?;
    let threads = number(words.get(1)).min(1000);
    let Ok((gate, mut first)) = Turnstile::begin(alloc, Tally::new()) else {
        return Ok(ExitCode::from(7));
    };
    let mut all = callers(alloc, &gate, &mut first, threads)?;
    take_all(
        &rt,
        &gate,
        all.as_mut_slice(),
        number(words.get(2)),
        number(words.get(3)),
    );
    let tally = gate.close(&rt, first);
    println!(rt; "{}", tally.made())?;
    Ok(ExitCode::from(0))
}
