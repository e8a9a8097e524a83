//! What the words of a service say.
ghost use Rattle.std.specs.Prelude.{◌≡◌, ◌≢◌, ℕ, Some, Err, IfOk, codes, decimal};
ghost use Rattle.clap.specs.Words.{first_value, found_of};
ghost use Rattle.program_words.specs.Serves.{AreServeValues, IsUpTo, most_workers};

use crate::command::WordFault;
use crate::values::{named_number, named_text};
use clap::ArgMatches;
use lists::Bytes;
use std::alloc::Global;

const MOST_WORKERS: u64 = 64;

const MOST_CONNECTIONS: u64 = 1_000_000;

/// Who is served where, by how many workers.
#[derive(Debug, Drop)]
pub struct ServeWords {
    /// The path of the configuration.
    pub config: Bytes,
    /// The path of the journal.
    pub journal: Bytes,
    /// The address to listen at.
    pub listen: Bytes,
    /// How many workers there are: 1 to 64.
    pub workers: u32,
    /// How many connections each worker serves, 1 to 1,000,000; ever more where none is given.
    pub connections: Option<u64>,
}

/// How many workers there are.
fn named_workers(found: &ArgMatches<'_>) -> Result<u32, WordFault>
    ensures ok { IfOk result (λ n.
        (first_value (found_of found.now) (codes "workers") ≡ Some (decimal n))
        × IsUpTo most_workers n) }
    ensures refused { result ≡ Err WordFault.Refused → (n : ℕ) → IsUpTo most_workers n
        → first_value (found_of found.now) (codes "workers") ≢ Some (decimal n) }
{
    match named_number(found, "workers", 1, MOST_WORKERS)? {
        Some(number) => Ok(number as u32),
        None => Err(WordFault::Memory),
    }
}

/// The values of `serve`.
pub(crate) fn serve_of(alloc: Global, found: &ArgMatches<'_>) -> Result<ServeWords, WordFault>
    ensures ok { IfOk result (AreServeValues (first_value (found_of found.now))) }
    ensures refused { result ≡ Err WordFault.Refused → (words : ServeWords)
        → ¬ AreServeValues (first_value (found_of found.now)) words }
{
    let config = named_text(alloc, found, "config")?;
    let journal = named_text(alloc, found, "journal")?;
    let listen = named_text(alloc, found, "listen")?;
    let workers = named_workers(found)?;
    let connections = named_number(found, "connections", 1, MOST_CONNECTIONS)?;
    Ok(ServeWords {
        config,
        journal,
        listen,
        workers,
        connections,
    })
}
