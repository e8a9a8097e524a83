//! Where the links come from that others open.
ghost use Rattle.std.specs.Prelude.{◌≡◌};
ghost use Rattle.dialers.specs.Dials.{Accepts, Dials, IsOneOut, with_returned};

use outside::{Failed, Link};

/// Gives links, one after the other, and takes each back.
///
/// `tells` is which links are to come and which were given back, in order, where that is told, and
/// how many calls failed.
pub trait Door {
    type L: Link;

    ghost tells: { Self → Dials Self.L };

    /// The first link that is to come, or None where there is none. After `Failed` none was given.
    fn accept(&mut self) -> Result<Option<Self::L>, Failed>
        ensures { Accepts (tells self.old) result (tells self.new) };

    /// Takes a link back that was given. It isn't used any more.
    fn give_back(&mut self, link: Self::L)
        requires { IsOneOut (tells self.old) }
        ensures { tells self.new ≡ with_returned (tells self.old) link };
}
