//! A program whose threads ask one desk: to try it, and to measure it.
//!
//! `desk CALLERS CREATIONS READS`: so many callers, each in a thread of its own, create so many
//! invocations each, and then read the last one of their own back so many times. `book` does the
//! same in one thread, and without a desk. The journal is in memory, or over files where a further
//! word has their path. `rows` has some numbers of its own. Prints what was counted.
#![tactic(auto)]

mod books;
mod clerks;

use books::{Outcome, policy_of, try_book, try_desk};
use disks::{Disk, FileDisk, MemoryDisk};
use service_desk::Policy;
use standard_files::{DevNull, hold_standard};
use std::alloc::{AllocError, Global};
use std::process::ExitCode;
use std::sync::Wait;
use std::thread::Threads;
use std::{env, io};
use trial_callers::Work;

/// One user, who may create invocations in one realm, and read them.
const CONFIG: &str = "\
    secret = \"0b0b0b0b0b0b0b0b0b0b0b0b0b0b0b0b0b0b0b0b\"\n\
    [user.alice]\n\
    token = \"tok-a\"\n\
    [role.writer]\n\
    permissions = [\"resultdb.invocations.create\", \"resultdb.invocations.get\"]\n\
    [realm.\"proj:ci\"]\n\
    bindings = [{ role = \"writer\", principals = [\"user:alice\"] }]\n";

/// Callers, creations and reads of each, and callers that ask nothing.
const ROWS: &[(u32, u32, u32, u32)] = &[
    (1, 1, 1, 0),
    (2, 100, 1, 0),
    (2, 100, 1, 1),
    (8, 4, 20, 3),
    (64, 3, 1, 0),
    (0, 0, 0, 2),
];

fn number(word: Option<&String>) -> u32 {
    word.and_then(|text| text.as_str().parse::<u32>().ok())
        .unwrap_or(0)
}

fn empty_disk(alloc: Global) -> Result<MemoryDisk, AllocError> {
    let (first, second, fails) = (Vec::new(alloc), Vec::new(alloc), Vec::new(alloc));
    MemoryDisk::new(alloc, first, second, fails, None)
}

/// Prints what came of work. False for want of memory.
fn tell<R: Print>(rt: &R, work: Work, outcome: Option<Outcome>) -> io::Result<bool> {
    let Some(outcome) = outcome else {
        return Ok(false);
    };
    print!(rt; "callers {}, idle {}, ", work.callers, work.idle)?;
    if let Some(entries) = outcome.entries {
        print!(rt; "entries {entries}, ")?;
    }
    let heard = outcome.heard;
    println!(rt;
        "invocations {}, calls {}, turns {}, created {}, own {}",
        outcome.invocations, heard.calls, heard.turns, heard.created, heard.own
    )?;
    Ok(true)
}

/// Tries each row by a desk over a journal in memory, and prints what came of it.
fn tell_rows<R: Threads + Wait + Sync + Print>(
    rt: &R,
    alloc: Global,
    policy: &Policy,
) -> io::Result<bool> {
    for &(callers, creations, reads, idle) in ROWS {
        let work = Work::new(callers, creations, reads, idle);
        let outcome = try_desk(rt, alloc, policy, empty_disk(alloc)?, work);
        if !tell(rt, work, outcome)? {
            return Ok(false);
        }
    }
    Ok(true)
}

/// Does work over a disk, by a desk or by a book alone.
fn outcome<R: Threads + Wait + Sync + AllocGlobal, D: Disk + Drop + Send>(
    rt: &R,
    policy: &Policy,
    who: &str,
    work: Work,
    disk: D,
) -> Option<Outcome> {
    match who {
        "desk" => try_desk(rt, rt.alloc(), policy, disk, work),
        _ => try_book(rt.alloc(), policy, disk, work),
    }
}

/// The exit status of what was done, or wasn't for want of memory or of a journal that opens.
fn status(is_done: io::Result<bool>) -> io::Result<ExitCode> {
    Ok(ExitCode::from(if is_done? { 0 } else { 7 }))
}

fn main(rt: HostRuntime) -> io::Result<ExitCode> {
    let Ok(_held) = hold_standard(&mut DevNull::new(&rt)) else {
        return Ok(ExitCode::from(4));
    };
    let alloc = rt.alloc();
    let words: Vec<String> = env::args(&rt)?.collect(alloc)?;
    let Some(policy) = policy_of(alloc, CONFIG) else {
        return Ok(ExitCode::from(7));
    };
    let who = words.get(1).map_or("rows", |word| word.as_str());
    let work = Work::new(
        number(words.get(2)),
        number(words.get(3)),
        number(words.get(4)),
        0,
    );
    status(match (who, words.get(5)) {
        ("rows", _) => tell_rows(&rt, alloc, &policy),
        (who, Some(path)) => match FileDisk::new(&rt, alloc, path.as_str()) {
            Ok(disk) => tell(&rt, work, outcome(&rt, &policy, who, work, disk)),
            Err(AllocError) => Ok(false),
        },
        (who, None) => match empty_disk(alloc) {
            Ok(disk) => tell(&rt, work, outcome(&rt, &policy, who, work, disk)),
            Err(AllocError) => Ok(false),
        },
    })
}
