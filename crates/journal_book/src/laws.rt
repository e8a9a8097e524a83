//! Laws of worlds that commands lead to.
ghost use Rattle.std.specs.Prelude.{◌≡◌, ℕ, ◌++◌, List, Some};
ghost use Rattle.disks.specs.Moments.{Told};
ghost use Rattle.journal_book.specs.Worlds.{IsFileOf, Leads};

use crate::machine::Machine;

/// A file is of one world at most. It does nothing.
pub fn one_world<M: Machine>()
    ensures { (first w v : M.World) (bytes : List ℕ) → IsFileOf M.plays first w bytes
        → IsFileOf M.plays first v bytes → w ≡ v }
{}
