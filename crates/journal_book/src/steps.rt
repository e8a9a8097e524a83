//! The steps in which a command is recorded.
ghost use Rattle.std.specs.Prelude.{◌≡◌, ℕ, ◌+◌, ◌++◌, ◌∷◌, List, [], true, false, length, IfErr, OnErr, OnOk};
ghost use Rattle.fault_counts.specs.Causes.{HasCause};
ghost use Rattle.disks.specs.Moments.{AtEachMoment};
ghost use Rattle.result_journal.specs.Journals.{disk_of, end_of, is_settled, prepared};
ghost use Rattle.result_journal.specs.Steps.{OtherStays};
ghost use Rattle.journal_book.specs.Worlds.{HasSettled};
ghost use Rattle.journal_book.specs.Books.{CountsRecord, IsAppended, LeavesToSettle, Stands, StandsForSome};

use crate::book::RecordFault;
use crate::machine::Machine;
use disks::Disk;
use result_journal::{DiskFailed, Journal};
use std::alloc::Global;

/// Closes the gate again behind which an append failed.
pub(crate) fn settle<M: Machine, D: Disk>(
    machine: &M,
    journal: &mut Journal<D>,
) -> Result<(), DiskFailed>
    requires { StandsForSome D.told M.plays (M.world machine.now) journal.old }
    ensures any_moment { (first : M.World) (commands : List (List ℕ))
        → Stands D.told M.plays first (M.world machine.now) journal.old commands
        → AtEachMoment (D.told (disk_of journal.old)) (D.told (disk_of journal.new))
        (HasSettled M.plays first (M.world machine.now) (is_settled journal.old)
        (prepared journal.old)) }
    ensures stands { (first : M.World) (commands : List (List ℕ))
        → Stands D.told M.plays first (M.world machine.now) journal.old commands
        → Stands D.told M.plays first (M.world machine.now) journal.new commands }
    ensures settled { OnOk result (is_settled journal.new ≡ true) }
    ensures unsettled { OnErr result (is_settled journal.old ≡ false) }
    ensures same { prepared journal.new ≡ prepared journal.old }
    ensures end { end_of journal.new ≡ end_of journal.old }
    ensures other { OtherStays (D.told (disk_of journal.old)) (D.told (disk_of journal.new)) }
    ensures cause { HasCause (D.faults (disk_of journal.old)) (D.faults (disk_of journal.new))
        result }
{
    let _ = machine;
    journal.settle()
}

/// Appends the command of a plan.
pub(crate) fn append<M: Machine, D: Disk>(
    alloc: Global,
    machine: &M,
    journal: &mut Journal<D>,
    plan: &M::Plan,
) -> Result<(), RecordFault>
    requires stands { StandsForSome D.told M.plays (M.world machine.now) journal.old }
    requires fits { M.fits machine.now plan.now }
    requires settled { is_settled journal.old ≡ true }
    ensures any_moment { (first : M.World) (commands : List (List ℕ))
        → Stands D.told M.plays first (M.world machine.now) journal.old commands
        → AtEachMoment (D.told (disk_of journal.old)) (D.told (disk_of journal.new))
        (HasSettled M.plays first (M.world machine.now) false (M.said plan.now)) }
    ensures ok { OnOk result ((first : M.World) (commands : List (List ℕ))
        → Stands D.told M.plays first (M.world machine.now) journal.old commands
        → IsAppended D.told journal.new (commands ++ M.said plan.now ∷ [])) }
    ensures err { OnErr result ((first : M.World) (commands : List (List ℕ))
        → Stands D.told M.plays first (M.world machine.now) journal.old commands
        → Stands D.told M.plays first (M.world machine.now) journal.new commands) }
    ensures left { IfErr result (λ fault. LeavesToSettle journal.old (M.said plan.now) fault
        journal.new) }
    ensures other { OtherStays (D.told (disk_of journal.old)) (D.told (disk_of journal.new)) }
    ensures cause { CountsRecord (end_of journal.old) (5 + length (M.said plan.now))
        (D.faults (disk_of journal.old)) result (D.faults (disk_of journal.new)) }
{
    let _ = machine;
    journal.prepare_record(alloc, M::command(plan))?;
    journal.append()?;
    Ok(())
}
