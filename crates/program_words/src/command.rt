//! What the words of the command line say.

use crate::serve_words::ServeWords;
use crate::sink_words::SinkWords;
use crate::workload_words::WorkloadWords;
use lists::Bytes;

/// What the program is to do.
#[derive(Debug, Drop)]
pub enum Command {
    /// Serves one connection, with the paths of its configuration and its journal.
    Answer { config: Bytes, journal: Bytes },
    /// Counts what a journal holds, with its path.
    Check { journal: Bytes },
    /// Serves every connection that comes in at an address.
    Serve(ServeWords),
    /// Uploads a report.
    Sink(SinkWords),
    /// Runs a workload.
    Workload(WorkloadWords),
    /// Tells the commands and their words.
    Help,
    /// Tells the version.
    Version,
}

/// Why words weren't read.
#[derive(Clone, Copy, Debug, PartialEq, Eq)]
pub enum WordFault {
    /// The words are outside the grammar.
    Refused,
    /// There was no memory to read them.
    Memory,
}

/// The values that the words have for whoever makes the program's ends: empty, 0 or `None` where
/// the words have none.
#[derive(Debug, Drop)]
pub struct Places {
    /// The path of the configuration.
    pub config: Bytes,
    /// The path of the journal.
    pub journal: Bytes,
    /// The address to listen at.
    pub listen: Bytes,
    /// The address of a server.
    pub server: Bytes,
    /// How many workers there are.
    pub workers: u32,
    /// How many connections each worker serves.
    pub connections: Option<u64>,
}
