//! A program that does with each line of its input the least that a batch costs one thread. For
//! measuring alone.
//!
//! Each line is read as JSON, a digest is taken of its bytes, and its value is written as the text
//! of a reply. One line is printed: how many lines are bodies, how many bytes their replies have
//! together, how many lines are no JSON, and the sum of the first bytes of the digests, so that
//! none of the work can be left out.
#![tactic(auto)]

ghost use Rattle.std.specs.Prelude.{◌≡◌, List, [], ◌∷◌, ◌++◌, IfOk, option_map};
ghost use Rattle.batch_floor.specs.Lines.{AreLines, IsReply, Row, sums_of};

use memchr::memchr;
use outside::StdIn;
use serde_json::Value;
use sha2::{Digest, Sha256};
use standard_files::{DevNull, hold_standard};
use std::alloc::{AllocError, Global};
use std::process::ExitCode;
use whole_reads::read_front;

/// An input has fewer bytes than that.
const BOUND: usize = 268_435_457;

/// What lines come to, each number up to the greatest one.
#[derive(Clone, Copy)]
struct Sums {
    bodies: u64,
    bad: u64,
    /// Of the replies.
    bytes: u64,
    /// Of the first bytes of the digests.
    digests: u64,
}

/// The text of the reply that a body would have if it were shown again; none where it is no JSON.
fn reply_of(alloc: Global, body: &[u8]) -> Result<Option<Vec<u8>>, AllocError>
    ensures { IfOk result (λ reply. IsReply body.now (option_map (λ text. text.items) reply)) }
{
    let value = match Value::from_slice(alloc, body) {
        Ok(value) => value,
        Err(error) => return if error.is_memory() {
            Err(AllocError)
        } else {
            Ok(None)
        },
    };
    let json = value.to_vec(alloc)?;
    let mut reply = Vec::with_capacity(alloc, json.len().saturating_add(5))?;
    reply.extend_from_slice(b")]}'\n")?;
    reply.extend_from_slice(json.as_slice())?;
    Ok(Some(reply))
}

/// The sums with one line more.
fn with_line(alloc: Global, line: &[u8], sums: Sums) -> Result<Sums, AllocError>
    ensures { (rows : List Row) → sums ≡ sums_of rows → IfOk result (λ more. (row : Row)
        × (row.line ≡ line.now) × IsReply row.line row.reply
        × (more ≡ sums_of (rows ++ row ∷ []))) }
{
    let digest = Sha256::digest(line);
    let digests = sums.digests.saturating_add(u64::from(digest[0]));
    match reply_of(alloc, line)? {
        Some(reply) => Ok(Sums {
            bodies: sums.bodies.saturating_add(1),
            bad: sums.bad,
            bytes: sums.bytes.saturating_add(reply.len() as u64),
            digests,
        }),
        None => Ok(Sums {
            bodies: sums.bodies,
            bad: sums.bad.saturating_add(1),
            bytes: sums.bytes,
            digests,
        }),
    }
}

/// The sums of the lines of an input. What stands behind the last end of a line is not looked at.
fn sums_of_lines(alloc: Global, input: &[u8]) -> Result<Sums, AllocError>
    ensures { IfOk result (λ sums. (rows : List Row) × AreLines input.now rows
        × (sums ≡ sums_of rows)) }
{
    let mut sums = Sums {
        bodies: 0,
        bad: 0,
        bytes: 0,
        digests: 0,
    };
    let mut rest = input;
    while let Some(end) = memchr(b'\n', rest) {
        sums = with_line(alloc, &rest[..end], sums)?;
        rest = &rest[end + 1..];
    }
    Ok(sums)
}

fn main(rt: HostRuntime) -> ExitCode {
    let Ok(_held) = hold_standard(&mut DevNull::new(&rt)) else {
        return ExitCode::from(4);
    };
    let Ok(input) = read_front(rt.alloc(), &mut StdIn::new(rt.stdin()), BOUND) else {
        return ExitCode::from(2);
    };
    if input.len() >= BOUND {
        return ExitCode::from(3);
    }
    let Ok(sums) = sums_of_lines(rt.alloc(), input.as_slice()) else {
        return ExitCode::from(1);
    };
    let Sums {
        bodies,
        bad,
        bytes,
        digests,
    } = sums;
    match println!(rt; "bodies {bodies}, bytes {bytes}, bad {bad}, digests {digests}") {
        Ok(()) => ExitCode::from(0),
        Err(_) => ExitCode::from(1),
    }
}
