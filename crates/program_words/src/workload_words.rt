//! What the words of a workload say.
ghost use Rattle.std.specs.Prelude.{◌≡◌, ◌≢◌, ℕ, Some, Err, IfOk, codes, decimal};
ghost use Rattle.clap.specs.Words.{first_value, found_of};
ghost use Rattle.program_words.specs.Serves.{IsUpTo, IsWithin};
ghost use Rattle.program_words.specs.Workloads.{AreWorkloadValues, most_invocations, most_number};

use crate::command::WordFault;
use crate::values::{named_number, named_text};
use clap::ArgMatches;
use lists::Bytes;
use std::alloc::Global;

const MOST_INVOCATIONS: u64 = 2_000;

/// A workload, and the journal that it is run over.
#[derive(Debug, Drop)]
pub struct WorkloadWords {
    /// The path of the journal.
    pub journal: Bytes,
    /// What its requests are drawn by.
    pub number: u64,
    /// How many invocations it has: 1 to 2,000.
    pub count: u32,
}

/// What requests are drawn by.
fn drawn_by(found: &ArgMatches<'_>) -> Result<u64, WordFault>
    ensures ok { IfOk result (λ n.
        (first_value (found_of found.now) (codes "number") ≡ Some (decimal n))
        × IsWithin 0 most_number n) }
    ensures refused { result ≡ Err WordFault.Refused → (n : ℕ) → IsWithin 0 most_number n
        → first_value (found_of found.now) (codes "number") ≢ Some (decimal n) }
{
    match named_number(found, "number", 0, u64::MAX)? {
        Some(number) => Ok(number),
        None => Err(WordFault::Memory),
    }
}

/// How many invocations there are.
fn named_count(found: &ArgMatches<'_>) -> Result<u32, WordFault>
    ensures ok { IfOk result (λ n.
        (first_value (found_of found.now) (codes "count") ≡ Some (decimal n))
        × IsUpTo most_invocations n) }
    ensures refused { result ≡ Err WordFault.Refused → (n : ℕ) → IsUpTo most_invocations n
        → first_value (found_of found.now) (codes "count") ≢ Some (decimal n) }
{
    match named_number(found, "count", 1, MOST_INVOCATIONS)? {
        Some(number) => Ok(number as u32),
        None => Err(WordFault::Memory),
    }
}

/// The values of `workload`.
pub(crate) fn workload_of(alloc: Global, found: &ArgMatches<'_>) -> Result<WorkloadWords, WordFault>
    ensures ok { IfOk result (AreWorkloadValues (first_value (found_of found.now))) }
    ensures refused { result ≡ Err WordFault.Refused → (words : WorkloadWords)
        → ¬ AreWorkloadValues (first_value (found_of found.now)) words }
{
    let journal = named_text(alloc, found, "journal")?;
    let number = drawn_by(found)?;
    let count = named_count(found)?;
    Ok(WorkloadWords {
        journal,
        number,
        count,
    })
}
