//! What a worker counts.
ghost use Rattle.std.specs.Prelude.{◌≡◌, true};
ghost use Rattle.door_workers.specs.Tallies.{nothing_counted, one_link_more};

/// How many links a worker served and how many calls were made on them, each at most the greatest
/// u64, and whether a call for a link failed.
#[derive(Clone, Copy, Debug, PartialEq, Eq)]
pub struct Tally {
    pub connections: u64,
    pub calls: u64,
    pub failed: bool,
}

impl Tally {
    /// Nothing was served yet.
    pub fn new() -> Tally
        ensures { result ≡ nothing_counted }
    {
        Tally {
            connections: 0,
            calls: 0,
            failed: false,
        }
    }

    /// With one link more, on which so many calls were made.
    pub(crate) fn with_link(self, calls: u64) -> Tally
        ensures { result ≡ one_link_more self calls }
    {
        Tally {
            connections: self.connections.saturating_add(1),
            calls: self.calls.saturating_add(calls),
            failed: self.failed,
        }
    }

    /// With a call for a link that failed.
    pub(crate) fn with_failure(self) -> Tally
        ensures { result ≡ record self { failed = true } }
    {
        Tally {
            failed: true,
            ..self
        }
    }
}
