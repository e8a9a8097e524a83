//! Where the links of the program come from.
ghost use Rattle.std.specs.Prelude.{◌≡◌};
ghost use Rattle.dialers.specs.Dials.{Connects, Dials, IsOneOut, with_returned};

use outside::{Failed, Link};

/// Opens links, one after the other, and takes each back.
///
/// `dials` is which links are to come and which were given back, in order, where that is told, and
/// how many calls failed.
pub trait Dialer {
    type L: Link;

    ghost dials: { Self → Dials Self.L };

    /// The next link. After `Failed` none was opened.
    fn connect(&mut self) -> Result<Self::L, Failed>
        ensures { Connects (dials self.old) result (dials self.new) };

    /// Takes a link back that was opened. It isn't used any more.
    fn give_back(&mut self, link: Self::L)
        requires { IsOneOut (dials self.old) }
        ensures { dials self.new ≡ with_returned (dials self.old) link };
}
