//! A door in memory.
ghost use Rattle.std.specs.Prelude.{◌≡◌};
ghost use Rattle.fault_counts.specs.Calls.{one_call_more, outcome_of, times_listed};
ghost use Rattle.dialers.specs.Dials.{Accepts, IsOneOut, with_returned};
ghost use Rattle.dialers.specs.Memory.{EndsAccept, dials_of};

use crate::Door;
use dialers::MemoryLinks;
use outside::{Failed, Link};

/// A door that has its links from the start, some of whose calls fail.
pub type MemoryDoor<L> = MemoryLinks<L>;

impl<L: Link + Drop> Door for MemoryLinks<L> {
    ghost use Rattle.dialers.specs.Memory.{dials_of};

    type L = L;

    ghost tells = { dials_of };

    /// Gives the next link, or tells that there is none. Fails where the call is listed.
    fn accept(&mut self) -> Result<Option<L>, Failed>
        ensures accepts { Accepts (dials_of self.old) result (dials_of self.new) }
        ensures ends { EndsAccept (outcome_of (times_listed self.old.calls)) self.old.coming
            result }
        ensures calls { self.new.calls ≡ one_call_more self.old.calls }
    {
        self.next()
    }

    /// Keeps the link behind those before it. Takes no memory.
    fn give_back(&mut self, link: L)
        requires { IsOneOut (dials_of self.old) }
        ensures tells { dials_of self.new ≡ with_returned (dials_of self.old) link }
        ensures calls { self.new.calls ≡ self.old.calls }
    {
        self.keep(link);
    }
}
