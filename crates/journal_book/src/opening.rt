//! A journal is opened, and its commands are replayed.
ghost use Rattle.std.specs.Prelude.{◌≡◌, ℕ, ◌+◌, ◌++◌, ◌∷◌, List, [], true, IfOk, IfErr, OnOk};
ghost use Rattle.disks.specs.Moments.{AtEachMoment};
ghost use Rattle.result_journal.specs.Grammar.{IsBody};
ghost use Rattle.result_journal.specs.Journals.{begun_part, disk_of, is_settled};
ghost use Rattle.result_journal.specs.Openings.{AlikeOnceSynced, CountsOpening, FaultCause, HasGiven};
ghost use Rattle.result_journal.specs.Openings.{LeftBeforeOrAlike, LongPartStays, OpensAs, next_gate, opened_disk};
ghost use Rattle.result_journal.specs.Openings.{opened_part};
ghost use Rattle.result_journal.specs.Steps.{OtherStays};
ghost use Rattle.journal_book.specs.Books.{HasWorldOf, IsOpenFault, Stands};
ghost use Rattle.journal_book.specs.Reading.{GoesOnPlaying, HasPlayed, HasPlayedAll, IsPlayFault, IsReplayFault};

use crate::book::Book;
use crate::machine::{Machine, ReplayFault};
use disks::Disk;
use result_journal::{OpenFault, Opening};
use std::alloc::Global;

/// Replays a command, whose first byte stands at this place.
fn replay_at<M: Machine>(
    alloc: Global,
    machine: &mut M,
    place: u64,
    command: &[u8],
) -> Result<(), OpenFault>
    requires { IsBody command.now }
    ensures ok { OnOk result (M.plays (M.world machine.old) command.now (M.world machine.new)) }
    ensures err { IfErr result (IsReplayFault M.plays (M.world machine.old) command.now place) }
{
    match machine.replay(alloc, command) {
        Ok(()) => Ok(()),
        Err(ReplayFault::Memory) => Err(OpenFault::Memory),
        Err(ReplayFault::OutOfPlace) => Err(OpenFault::Damaged {
            at: place,
            byte: u16::from(command[0]),
        }),
    }
}

/// Replays the command that an opening gives next. False at the end of the journal.
fn replay_next<M: Machine, D: Disk>(
    alloc: Global,
    machine: &mut M,
    opening: &mut Opening<D>,
    command: &mut Vec<u8>,
) -> Result<bool, OpenFault>
    requires { (first : M.World) × (commands : List (List ℕ)) × HasPlayed D.told M.plays first
        opening.old (M.world machine.old) commands }
    ensures ok { (first : M.World) (commands : List (List ℕ))
        → HasPlayed D.told M.plays first opening.old (M.world machine.old) commands
        → IfOk result (GoesOnPlaying D.told M.plays first opening.new (M.world machine.new)) }
    ensures err { (first : M.World) (commands : List (List ℕ))
        → HasPlayed D.told M.plays first opening.old (M.world machine.old) commands
        → IfErr result (IsPlayFault M.plays first (D.told (opened_disk opening.old))) }
    ensures told { D.told (opened_disk opening.new) ≡ D.told (opened_disk opening.old) }
    ensures cause { CountsOpening (D.faults (opened_disk opening.old)) result
        (D.faults (opened_disk opening.new)) }
{
    match opening.next(alloc, command)? {
        None => Ok(false),
        Some(place) => {
            replay_at(alloc, machine, place, command)?;
            Ok(true)
        }
    }
}

/// Replays all commands of a journal, of which none was given yet.
fn replay_all<M: Machine, D: Disk>(
    alloc: Global,
    machine: &mut M,
    opening: &mut Opening<D>,
) -> Result<(), OpenFault>
    requires part { opened_part opening.old ≡ begun_part }
    requires given { HasGiven D.told opening.old [] }
    requires place { next_gate opening.old ≡ 8 }
    ensures ok { OnOk result (HasPlayedAll D.told M.plays (M.world machine.old) opening.new
        (M.world machine.new)) }
    ensures err { IfErr result (IsPlayFault M.plays (M.world machine.old)
        (D.told (opened_disk opening.old))) }
    ensures told { D.told (opened_disk opening.new) ≡ D.told (opened_disk opening.old) }
    ensures cause { CountsOpening (D.faults (opened_disk opening.old)) result
        (D.faults (opened_disk opening.new)) }
{
    let mut command = Vec::new(alloc);
    for _ in 0..u64::MAX {
        if !replay_next(alloc, machine, opening, &mut command)? {
            return Ok(());
        }
    }
    Err(OpenFault::Memory)
}

impl<M: Machine, D: Disk> Book<M, D> {
    /// Opens a journal, whose commands are replayed by a machine that has the first world.
    ///
    /// At each moment inside the call a crash leaves what one before it might have left, or what is
    /// read as the part was; from its first sync on, the latter alone.
    ///
    /// A command that leads nowhere from the world before it is `Damaged` at its first byte.
    pub fn open(alloc: Global, machine: M, disk: D) -> Result<Book<M, D>, (OpenFault, D)>
        ensures stands { IfOk result (λ book. (commands : List (List ℕ))
            × Stands D.told M.plays (M.world machine)
            (M.world book.machine) book.journal commands) }
        ensures world { IfOk result (λ book. HasWorldOf M.plays (M.world machine)
            (M.world book.machine) (D.told disk)) }
        ensures settled { IfOk result (λ book. is_settled book.journal ≡ true) }
        ensures begins { IfOk result (λ book. OpensAs (D.told disk)
            (D.told (disk_of book.journal))) }
        ensures shown { IfErr result (λ e. IsOpenFault M.plays (M.world machine) (D.told disk)
            (D.told e.1) e.0) }

        // A part that is refused stays, and so does the other part, whatever is answered.
        ensures kept { IfErr result (λ e. LongPartStays (D.told disk) (D.told e.1)) }
        ensures other { IfOk result (λ book. OtherStays (D.told disk)
            (D.told (disk_of book.journal))) }
        ensures other_err { IfErr result (λ e. OtherStays (D.told disk) (D.told e.1)) }

        ensures any_moment { IfOk result (λ book. AtEachMoment (D.told disk)
            (D.told (disk_of book.journal)) (LeftBeforeOrAlike (D.told disk))) }
        ensures any_moment_err { IfErr result (λ e. AtEachMoment (D.told disk) (D.told e.1)
            (LeftBeforeOrAlike (D.told disk))) }
        ensures synced { IfOk result (λ book. AlikeOnceSynced (D.told disk)
            (D.told (disk_of book.journal))) }
        ensures synced_err { IfErr result (λ e. AlikeOnceSynced (D.told disk) (D.told e.1)) }

        ensures no_cause { IfOk result (λ book. D.faults (disk_of book.journal) ≡ D.faults disk) }
        ensures cause { IfErr result (λ e. FaultCause (D.faults disk) e.0 (D.faults e.1)) }
    {
        let mut machine = machine;
        let mut opening = Opening::begin(alloc, disk)?;
        match replay_all(alloc, &mut machine, &mut opening) {
            Ok(()) => Ok(Book {
                machine,
                journal: opening.ready(),
            }),
            Err(fault) => Err((fault, opening.give_up())),
        }
    }
}
