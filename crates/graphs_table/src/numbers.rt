//! Calls to a value and their answers: numbers of nodes and rows, read and written, and what a call
//! may come to beside them.
ghost use Rattle.std.specs.Prelude.{◌<◌, IsTrue, All};

use names_realms::{NameFault, PairFault};
use std::alloc::{AllocError, AllocFailed, Global};

/// Why a call has no answer.
#[derive(Drop)]
pub enum Stop {
    /// It isn't understood, or names what isn't there.
    Odd,
    /// There was no memory.
    Memory,
}

impl From<AllocError> for Stop {
    fn from(_: AllocError) -> Stop {
        Stop::Memory
    }
}

impl<T: Drop> From<AllocFailed<T>> for Stop {
    fn from(_: AllocFailed<T>) -> Stop {
        Stop::Memory
    }
}

impl From<NameFault> for Stop {
    fn from(fault: NameFault) -> Stop {
        match fault {
            NameFault::Memory => Stop::Memory,
            _ => Stop::Odd,
        }
    }
}

impl From<PairFault> for Stop {
    fn from(fault: PairFault) -> Stop {
        match fault {
            PairFault::Memory => Stop::Memory,
            _ => Stop::Odd,
        }
    }
}

/// What calls are made to.
pub(crate) trait Answers {
    /// What a call of this kind answers, of which these are the other words.
    fn answer(&mut self, alloc: Global, kind: &str, rest: &str) -> Result<Vec<u8>, Stop>;
}

/// Tells calls, each with its answer.
pub(crate) fn tell_calls<A: Answers + Drop>(
    alloc: Global,
    mut value: A,
    calls: &str,
) -> Result<Vec<u8>, AllocError> {
    let mut out = Vec::new(alloc);
    for call in calls.split("; ") {
        let (kind, rest) = call.split_once(' ').unwrap_or((call, ""));
        let answer = value.answer(alloc, kind, rest);
        put_answer(call, answer, &mut out)?;
    }
    Ok(out)
}

/// The number that a word is.
pub(crate) fn number(word: &str) -> Result<u32, Stop> {
    word.parse::<u32>().ok().ok_or(Stop::Odd)
}

/// Two words behind one another, parted by a blank.
pub(crate) fn two(words: &str) -> Result<(&str, &str), Stop> {
    words.split_once(' ').ok_or(Stop::Odd)
}

/// The numbers that a word lists.
pub(crate) fn numbers(alloc: Global, word: &str) -> Result<Vec<u32>, Stop> {
    let mut all = Vec::new(alloc);
    if word == "-" {
        return Ok(all);
    }
    for each in word.split(',') {
        all.push(number(each)?)?;
    }
    Ok(all)
}

/// Whether all numbers are below this.
pub(crate) fn are_below(below: u32, numbers: &[u32]) -> bool
    ensures { IsTrue result → All (λ number. number < below) numbers.now }
{
    for number in numbers {
        if *number >= below {
            return false;
        }
    }
    true
}

/// A word and nothing else.
pub(crate) fn word(alloc: Global, word: &str) -> Result<Vec<u8>, Stop> {
    Ok(Vec::from_slice(alloc, word.as_bytes())?)
}

/// A count, and what is counted.
pub(crate) fn count_text(alloc: Global, count: usize, what: &str) -> Result<Vec<u8>, Stop> {
    let text = format!(in alloc; "{count}{what}")?;
    Ok(text.into_bytes())
}

/// A list of numbers.
pub(crate) fn list_text(alloc: Global, numbers: &[u32]) -> Result<Vec<u8>, Stop> {
    let mut out = Vec::new(alloc);
    for (i, number) in numbers.iter().enumerate() {
        if i > 0 {
            out.push(b',')?;
        }
        let text = format!(in alloc; "{number}")?;
        out.extend_from_slice(text.as_bytes())?;
    }
    if numbers.is_empty() {
        out.push(b'-')?;
    }
    Ok(out)
}

/// Puts a call and its answer behind what is there.
fn put_answer(
    call: &str,
    answer: Result<Vec<u8>, Stop>,
    out: &mut Vec<u8>,
) -> Result<(), AllocError> {
    out.extend_from_slice(b"  ")?;
    out.extend_from_slice(call.as_bytes())?;
    out.extend_from_slice(b": ")?;
    match answer {
        Ok(text) => out.extend_from_slice(text.as_slice())?,
        Err(Stop::Odd) => out.extend_from_slice(b"not understood")?,
        Err(Stop::Memory) => return Err(AllocError),
    }
    out.extend_from_slice(b"\n")
}
