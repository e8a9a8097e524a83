//! Why a run stops before its end.
ghost use Rattle.std.specs.Prelude.{◌≡◌};
ghost use Rattle.workload_turns.specs.Stops.{stop_of};

use std::alloc::AllocError;
use workload_plans::Standin;

/// Why a run stops before its end.
#[derive(Clone, Copy, Debug, PartialEq, Eq)]
pub enum Stop {
    /// A request was told that the disk failed.
    Unavailable,
    /// There was no memory for a request or for its answer, or no more requests are answered.
    Memory,
}

impl Stop {
    /// Why a run stops at a stand-in.
    pub(crate) fn of(standin: Standin) -> Stop
        ensures { result ≡ stop_of standin }
    {
        match standin {
            Standin::Unavailable => Stop::Unavailable,
            Standin::Memory | Standin::Spent => Stop::Memory,
        }
    }
}

impl From<AllocError> for Stop {
    ghost use Rattle.std.specs.Prelude.{◌≡◌};
    ghost use Rattle.workload_turns.specs.declared.stops.Stop.TheVariants.{Memory};

    ghost from_gives = { λ _ stop. stop ≡ Memory };

    fn from(_error: AllocError) -> Stop {
        Stop::Memory
    }
}
