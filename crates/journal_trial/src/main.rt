//! A program that appends numbered records to a journal over files, and reads them back: for the
//! end-to-end checks of crashes, and for measuring.
//!
//! `append PATH COUNT SIZE` appends so many records of so many bytes, and prints the number of each
//! once it is acknowledged. `read PATH` checks the numbers of all records, and prints how many
//! there are.
#![tactic(auto)]

mod trial;

use disks::FileDisk;
use standard_files::{DevNull, hold_standard};
use std::process::ExitCode;
use std::{env, io};
use trial::{append_records, read_records};

fn number(word: Option<&String>) -> u64 {
    word.and_then(|text| text.as_str().parse::<u64>().ok())
        .unwrap_or(0)
}

fn main(rt: HostRuntime) -> io::Result<ExitCode> {
    let Ok(_held) = hold_standard(&mut DevNull::new(&rt)) else {
        return Ok(ExitCode::from(4));
    };
    let alloc = rt.alloc();
    let words: Vec<String> = env::args(&rt)?.collect(alloc)?;
    let (Some(command), Some(path)) = (words.get(1), words.get(2)) else {
        return Ok(ExitCode::from(1));
    };
    let disk = FileDisk::new(&rt, alloc, path.as_str())?;
    let is_done = match command.as_str() {
        "append" => {
            let (count, size) = (number(words.get(3)), number(words.get(4)));
            append_records(&rt, alloc, disk, count, size).is_some()
        }
        "read" => match read_records(alloc, disk) {
            Some(book) => rt.println(book.machine.count()).is_ok(),
            None => false,
        },
        _ => false,
    };
    Ok(ExitCode::from(if is_done { 0 } else { 1 }))
}
