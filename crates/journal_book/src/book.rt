//! A book: a machine and its journal.
ghost use Rattle.std.specs.Prelude.{◌≡◌, ℕ, ◌+◌, ◌++◌, ◌∷◌, List, [], true, length, IfOk, IfErr, OnOk, OnErr};
ghost use Rattle.disks.specs.Moments.{AtEachMoment};
ghost use Rattle.result_journal.specs.Journals.{Leaves, disk_of, end_of, is_settled, prepared};
ghost use Rattle.result_journal.specs.Steps.{OtherStays};
ghost use Rattle.journal_book.specs.Worlds.{HasSettled};
ghost use Rattle.journal_book.specs.Books.{CountsRecord, HasEither, LeavesToSettle, Stands, StandsForSome};

use crate::machine::Machine;
use crate::steps::{append, settle};
use disks::Disk;
use result_journal::{DiskFailed, Full as NoRoom, Journal};
use std::alloc::Global;

/// Why a change isn't recorded, and so isn't made.
#[derive(Clone, Copy, Debug, PartialEq, Eq, Drop)]
pub enum RecordFault {
    /// A call on the disk failed.
    DiskFailed,
    /// The record of this length has no room behind the records up to this place.
    Full { end: u64, length: u64 },
    /// There was no memory.
    Memory,
}

impl From<DiskFailed> for RecordFault {
    ghost use Rattle.std.specs.Prelude.{◌≡◌};
    ghost use Rattle.journal_book.specs.declared.book.RecordFault.{RecordFault};

    ghost from_gives = { λ _ fault. fault ≡ RecordFault.DiskFailed };

    fn from(_: DiskFailed) -> RecordFault {
        RecordFault::DiskFailed
    }
}

impl From<NoRoom> for RecordFault {
    ghost use Rattle.std.specs.Prelude.{◌≡◌};
    ghost use Rattle.journal_book.specs.Books.{told_of};

    ghost from_gives = { λ full fault. fault ≡ told_of full };

    fn from(full: NoRoom) -> RecordFault {
        match full {
            NoRoom::Record { end, length } => RecordFault::Full { end, length },
            NoRoom::Memory => RecordFault::Memory,
        }
    }
}

/// A machine, and the journal of the commands that made its world.
#[derive(Drop)]
pub struct Book<M: Machine, D: Disk> {
    pub machine: M,
    pub journal: Journal<D>,
}

impl<M: Machine, D: Disk> Book<M, D> {
    /// Whether nothing is to settle: no append failed behind its open gate.
    pub fn is_settled(&self) -> bool
        ensures value { result ≡ is_settled self.now.journal }
        ensures leaves { (first : M.World) (commands : List (List ℕ))
            → Stands D.told M.plays first (M.world self.now.machine)
            self.now.journal commands
            → Leaves (D.told (disk_of self.now.journal)) (HasSettled M.plays first
            (M.world self.now.machine) result (prepared self.now.journal)) }
    {
        self.journal.is_settled()
    }

    /// Records a change by its command, and then makes it. What an earlier append left is settled
    /// first.
    ///
    /// At each moment inside the call a crash leaves the world before it, or the one after it; or,
    /// where something was to settle, the one after the command whose append had failed. After `Ok`
    /// it leaves the new world alone. After an error the world is as before.
    pub fn record(&mut self, alloc: Global, plan: M::Plan) -> Result<M::Answer, RecordFault>
        requires stands { StandsForSome D.told M.plays (M.world self.old.machine)
            self.old.journal }
        requires fits { M.fits self.old.machine plan }

        ensures any_moment { (first : M.World) (commands : List (List ℕ))
            → Stands D.told M.plays first (M.world self.old.machine)
            self.old.journal commands
            → AtEachMoment (D.told (disk_of self.old.journal)) (D.told (disk_of self.new.journal))
            (HasEither M.plays first (M.world self.old.machine) self.old.journal (M.said plan)) }

        ensures ok { OnOk result ((first : M.World) (commands : List (List ℕ))
            → Stands D.told M.plays first (M.world self.old.machine)
            self.old.journal commands
            → Stands D.told M.plays first (M.world self.new.machine)
            self.new.journal (commands ++ M.said plan ∷ [])) }
        ensures world { OnOk result (M.plays (M.world self.old.machine) (M.said plan)
            (M.world self.new.machine)) }
        ensures answer { IfOk result (M.gives plan) }
        ensures settled { OnOk result (is_settled self.new.journal ≡ true) }

        ensures err { OnErr result ((first : M.World) (commands : List (List ℕ))
            → Stands D.told M.plays first (M.world self.old.machine)
            self.old.journal commands
            → Stands D.told M.plays first (M.world self.new.machine)
            self.new.journal commands) }
        ensures same { OnErr result (self.new.machine ≡ self.old.machine) }

        // What is to settle after an error is what was before, or this command.
        ensures left { IfErr result (λ fault. LeavesToSettle self.old.journal (M.said plan) fault
            self.new.journal) }

        ensures still { StandsForSome D.told M.plays (M.world self.new.machine)
            self.new.journal }
        ensures other { OtherStays (D.told (disk_of self.old.journal))
            (D.told (disk_of self.new.journal)) }
        ensures cause { CountsRecord (end_of self.old.journal) (5 + length (M.said plan))
            (D.faults (disk_of self.old.journal)) result (D.faults (disk_of self.new.journal)) }
    {
        settle(&self.machine, &mut self.journal)?;
        append(alloc, &self.machine, &mut self.journal, &plan)?;
        Ok(self.machine.commit(plan))
    }
}
