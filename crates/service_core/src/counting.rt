//! How much a core holds.
ghost use Rattle.std.specs.Prelude.{◌≡◌, count_by};
ghost use Rattle.service_core.specs.Counting.{counts_of, is_finalized};
ghost use Rattle.service_core.specs.CoreState.{world_in};

use crate::serving::Core;
use invocations::Invocation;
use names_realms::State;

/// How many rows of each kind there are, and how many requests are kept by their number.
#[derive(Clone, Copy, Debug, PartialEq, Eq)]
pub struct Counts {
    pub invocations: u64,
    /// How many of the invocations are final.
    pub finalized: u64,
    pub results: u64,
    pub exonerations: u64,
    pub artifacts: u64,
    pub kept: u64,
}

fn is_finalized(row: &Invocation) -> bool
    ensures { result ≡ is_finalized row.now }
{
    match row.state {
        State::Active | State::Finalizing => false,
        State::Finalized => true,
    }
}

impl Core {
    /// How much the core holds.
    pub fn counts(&self) -> Counts
        ensures { result ≡ counts_of (world_in self.now) }
    {
        let rows = self.invocations();
        Counts {
            invocations: rows.len() as u64,
            finalized: rows.iter().filter(|row| is_finalized(row)).count() as u64,
            results: self.tables.results.rows().len() as u64,
            exonerations: self.tables.exonerations.rows().len() as u64,
            artifacts: self.tables.artifacts.rows().len() as u64,
            kept: self.kept.replies().len() as u64,
        }
    }
}
