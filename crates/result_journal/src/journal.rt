//! The journal, to which commands are appended.
ghost use Rattle.std.specs.Prelude.{◌≡◌, ◌⊎◌, ℕ, ◌+◌, ◌^◌, ◌<◌, ◌≤◌, ◌↔◌, List, [], ◌∷◌, ◌++◌, length, true, false};
ghost use Rattle.std.specs.Prelude.{IfOk, IfErr, OnOk, OnErr, MatchBool};
ghost use Rattle.result_journal.specs.Grammar.{framed};
ghost use Rattle.result_journal.specs.Full.{IsFullFor};
ghost use Rattle.result_journal.specs.Steps.{IsStaged, PartStays};
ghost use Rattle.fault_counts.specs.Causes.{HasCause};
ghost use Rattle.disks.specs.Parts.{other_part};
ghost use Rattle.disks.specs.Moments.{Told, AtEachMoment};
ghost use Rattle.result_journal.specs.Journals.{PartReadsAs, PartBeforeOrAfter, Leaves, StandsFor, StandsForSome};
ghost use Rattle.result_journal.specs.Journals.{SameButDisk, TakesMoments, disk_of, end_of, is_settled, is_settled_at};
ghost use Rattle.result_journal.specs.Journals.{prepared, IsPrepared, is_prepared, journal_part};

use crate::DiskFailed;
use crate::write_through::write_through;
use disks::Disk;
use fault_counts::Failed;
use std::alloc::{AllocError, Global};

/// The greatest place of a closed gate, and one more.
const GREATEST_LENGTH: u64 = 1 << 30;

/// The gate of a record that counts, and of one that doesn't.
const OPEN: u8 = 1;

const CLOSED: u8 = 0;

/// Why a record can't be prepared.
#[derive(Clone, Copy, Debug, PartialEq, Eq)]
pub enum Full {
    /// The record of this length doesn't fit behind the records up to this place.
    Record { end: u64, length: u64 },
    Memory,
}

impl From<AllocError> for Full {
    ghost use Rattle.result_journal.specs.declared.journal.Full.TheVariants.{Memory};

    ghost from_gives = { λ _ e. e ≡ Memory };

    fn from(_: AllocError) -> Self {
        Full::Memory
    }
}

// The frame of a command, and a closed gate behind it.
fn framed_record(alloc: Global, command: &[u8]) -> Result<Vec<u8>, AllocError>
    requires { length command.now ≤ 2 ^ 23 }
    ensures { IfOk result (λ r. r.items ≡ framed command.now ++ 0 ∷ []) }
{
    let mut record = Vec::with_capacity(alloc, command.len() + 5)?;
    record.extend_from_slice(&(command.len() as u32).to_le_bytes())?;
    record.extend_from_slice(command)?;
    record.push(CLOSED)?;
    Ok(record)
}

/// Whether a call is to be made good.
#[derive(Clone, Copy, Debug, PartialEq, Eq)]
pub enum Standing {
    /// Nothing is to settle.
    Settled,
    /// An append failed behind its gate, which may be open.
    GateMayBeOpen,
}

impl Standing {
    fn nothing_is_left(self) -> bool
        ensures { result ≡ is_settled_at self }
    {
        match self {
            Standing::Settled => true,
            Standing::GateMayBeOpen => false,
        }
    }
}

/// A journal of commands on one part of a disk.
#[derive(Drop)]
pub struct Journal<D: Disk> {
    pub(crate) disk: D,
    pub(crate) part: u8,
    pub(crate) end: u64,
    pub(crate) staged: Vec<u8>,
    pub(crate) is_prepared: bool,
    pub(crate) standing: Standing,
}

impl<D: Disk> Journal<D> {
    /// Whether nothing is to settle: no append failed behind its open gate.
    pub fn is_settled(&self) -> bool
        ensures value { result ≡ is_settled self.now }
        ensures leaves { (commands : List (List ℕ)) → StandsFor D.told self.now commands →
            MatchBool result
            (Leaves (D.told (disk_of self.now)) (PartReadsAs (journal_part self.now) commands))
            (Leaves (D.told (disk_of self.now))
            (PartBeforeOrAfter (journal_part self.now) commands (prepared self.now))) }
    {
        self.standing.nothing_is_left()
    }

    /// Makes all room that `append` and `settle` need for this command.
    ///
    /// `Full::Record` comes exactly where the record would end past 2^30. After each error the
    /// journal is as before.
    pub fn prepare_record(&mut self, alloc: Global, command: &[u8]) -> Result<(), Full>
        requires settled { is_settled self.old ≡ true }
        requires some { 1 ≤ length command.now }
        requires few { length command.now ≤ 2 ^ 23 }
        ensures ok { OnOk result (IsPrepared self.new) }
        ensures prepared { OnOk result (is_prepared self.new ≡ true) }
        ensures command { OnOk result (prepared self.new ≡ command.now) }
        ensures room { OnOk result (end_of self.old + (5 + length command.now) + 1 ≤ 2 ^ 30) }
        ensures full { IfErr result (IsFullFor (end_of self.old) (5 + length command.now)) }
        ensures err { OnErr result (self.new ≡ self.old) }
        ensures disk { disk_of self.new ≡ disk_of self.old }
        ensures part { journal_part self.new ≡ journal_part self.old }
        ensures end { end_of self.new ≡ end_of self.old }
        ensures still_settled { is_settled self.new ≡ true }
        ensures commands { (commands : List (List ℕ)) →
            StandsFor D.told self.old commands → StandsFor D.told self.new commands }
    {
        let length = command.len() as u64 + 5;
        if self.end >= GREATEST_LENGTH || length >= GREATEST_LENGTH - self.end {
            let end = self.end;
            return Err(Full::Record { end, length });
        }
        self.staged = framed_record(alloc, command)?;
        self.is_prepared = true;
        Ok(())
    }

    /// Appends the prepared command: at `Ok` it is acknowledged, and each crash from then on leaves
    /// it.
    ///
    /// It writes the record behind the closed gate, syncs, opens the gate by a write of its own,
    /// and syncs. At each moment inside the call a crash leaves the commands before it, or these
    /// and the new one.
    ///
    /// Where the write behind the gate or its sync failed, the gate stands closed, and nothing is
    /// to settle. Where a later call failed, the journal isn't settled until `settle` has
    /// succeeded.
    pub fn append(&mut self) -> Result<(), DiskFailed>
        requires stands { StandsForSome D.told self.old }
        requires prepared { is_prepared self.old ≡ true }
        requires settled { is_settled self.old ≡ true }

        ensures any_moment { (commands : List (List ℕ)) → StandsFor D.told self.old commands →
            AtEachMoment (D.told (disk_of self.old)) (D.told (disk_of self.new))
            (PartBeforeOrAfter (journal_part self.old) commands (prepared self.old)) }

        // At `Ok` a crash leaves the commands with the new one, and nothing else.
        ensures acknowledged { OnOk result ((commands : List (List ℕ)) →
            StandsFor D.told self.old commands →
            Leaves (D.told (disk_of self.new))
            (PartReadsAs (journal_part self.old) (commands ++ prepared self.old ∷ []))) }
        ensures ok { OnOk result ((commands : List (List ℕ)) → StandsFor D.told self.old commands →
            StandsFor D.told self.new (commands ++ prepared self.old ∷ [])) }
        ensures ok_settled { OnOk result (is_settled self.new ≡ true) }
        ensures end { OnOk result (end_of self.new ≡ end_of self.old +
            (5 + length (prepared self.old))) }
        ensures calls { OnOk result (TakesMoments 4 (D.told (disk_of self.old))
            (D.told (disk_of self.new))) }

        // After a failure the commands are as before, and the new one is still prepared.
        ensures err { OnErr result ((commands : List (List ℕ)) →
            StandsFor D.told self.old commands →
            StandsFor D.told self.new commands) }
        ensures err_same { OnErr result (SameButDisk self.old self.new) }
        ensures still { StandsForSome D.told self.new }
        ensures part { journal_part self.new ≡ journal_part self.old }
        ensures other { PartStays (other_part (journal_part self.old))
            (D.told (disk_of self.old)) (D.told (disk_of self.new)) }

        ensures cause { HasCause (D.faults (disk_of self.old))
            (D.faults (disk_of self.new)) result }
    {
        self.stage()?;
        self.open_gate()?;
        Ok(())
    }

    // Writes the prepared record behind the closed gate, and syncs.
    fn stage(&mut self) -> Result<(), Failed>
        requires stands { StandsForSome D.told self.old }
        requires prepared { is_prepared self.old ≡ true }
        requires settled { is_settled self.old ≡ true }
        ensures any_moment { (commands : List (List ℕ)) → StandsFor D.told self.old commands →
            AtEachMoment (D.told (disk_of self.old)) (D.told (disk_of self.new))
            (PartReadsAs (journal_part self.old) commands) }
        ensures stands { (commands : List (List ℕ)) → StandsFor D.told self.old commands →
            StandsFor D.told self.new commands }
        ensures staged { OnOk result ((commands : List (List ℕ)) →
            StandsFor D.told self.old commands →
            IsStaged D.told self.new commands) }
        ensures calls { OnOk result (TakesMoments 2 (D.told (disk_of self.old))
            (D.told (disk_of self.new))) }
        ensures same { self.new ≡ record self.old { disk = self.new.disk } }
        ensures other { PartStays (other_part (journal_part self.old))
            (D.told (disk_of self.old)) (D.told (disk_of self.new)) }
        ensures cause { HasCause (D.faults (disk_of self.old))
            (D.faults (disk_of self.new)) result }
    {
        write_through(&mut self.disk, self.part, self.end + 1, &self.staged)
    }

    // Opens the gate before the record that stands behind it, and syncs.
    fn open_gate(&mut self) -> Result<(), Failed>
        requires stands { (commands : List (List ℕ)) × StandsFor D.told self.old commands
            × IsStaged D.told self.old commands }
        requires prepared { is_prepared self.old ≡ true }
        requires settled { is_settled self.old ≡ true }
        ensures any_moment { (commands : List (List ℕ)) → StandsFor D.told self.old commands →
            IsStaged D.told self.old commands →
            AtEachMoment (D.told (disk_of self.old)) (D.told (disk_of self.new))
            (PartBeforeOrAfter (journal_part self.old) commands (prepared self.old)) }
        ensures ok { OnOk result ((commands : List (List ℕ)) → StandsFor D.told self.old commands →
            IsStaged D.told self.old commands →
            StandsFor D.told self.new (commands ++ prepared self.old ∷ [])) }
        ensures ok_settled { OnOk result (is_settled self.new ≡ true) }
        ensures end { OnOk result (end_of self.new ≡ end_of self.old +
            (5 + length (prepared self.old))) }
        ensures calls { OnOk result (TakesMoments 2 (D.told (disk_of self.old))
            (D.told (disk_of self.new))) }
        ensures err { OnErr result ((commands : List (List ℕ)) →
            StandsFor D.told self.old commands →
            IsStaged D.told self.old commands → StandsFor D.told self.new commands) }
        ensures part { journal_part self.new ≡ journal_part self.old }
        ensures err_same { OnErr result (self.new ≡
            record self.old { disk = self.new.disk; standing = Standing.GateMayBeOpen }) }
        ensures other { PartStays (other_part (journal_part self.old))
            (D.told (disk_of self.old)) (D.told (disk_of self.new)) }
        ensures cause { HasCause (D.faults (disk_of self.old))
            (D.faults (disk_of self.new)) result }
    {
        self.standing = Standing::GateMayBeOpen;
        write_through(&mut self.disk, self.part, self.end, &[OPEN])?;
        self.standing = Standing::Settled;
        self.is_prepared = false;
        self.end += self.staged.len() as u64;
        Ok(())
    }

    /// Closes the gate again behind which an `append` failed, and syncs. On a settled journal it
    /// does nothing.
    ///
    /// At each moment inside the call a crash leaves the commands without or with the one whose
    /// append failed.
    pub fn settle(&mut self) -> Result<(), DiskFailed>
        requires { StandsForSome D.told self.old }

        ensures any_moment { (commands : List (List ℕ)) → StandsFor D.told self.old commands →
            AtEachMoment (D.told (disk_of self.old)) (D.told (disk_of self.new))
            (PartBeforeOrAfter (journal_part self.old) commands (prepared self.old)) }

        // At `Ok` a crash leaves the commands without that one.
        ensures settled { OnOk result ((commands : List (List ℕ)) →
            StandsFor D.told self.old commands →
            Leaves (D.told (disk_of self.new)) (PartReadsAs (journal_part self.old) commands)) }
        ensures commands { (commands : List (List ℕ)) → StandsFor D.told self.old commands →
            StandsFor D.told self.new commands }
        ensures still { StandsForSome D.told self.new }
        ensures ok_settled { OnOk result (is_settled self.new ≡ true) }
        ensures err_unsettled { OnErr result ((is_settled self.old ≡ false) × (is_settled self.new
            ≡ false)) }
        ensures same { SameButDisk self.old self.new }
        ensures unmoved { is_settled self.old ≡ true → self.new ≡ self.old }
        ensures other { PartStays (other_part (journal_part self.old))
            (D.told (disk_of self.old)) (D.told (disk_of self.new)) }
        ensures cause { HasCause (D.faults (disk_of self.old))
            (D.faults (disk_of self.new)) result }
    {
        if !self.is_settled() {
            write_through(&mut self.disk, self.part, self.end, &[CLOSED])?;
            self.standing = Standing::Settled;
        }
        Ok(())
    }

    /// The place of the gate behind the last record.
    pub fn end(&self) -> u64
        ensures { result ≡ end_of self.now }
    {
        self.end
    }

    /// The disk, as it is.
    pub fn close(self) -> D
        ensures { result ≡ disk_of self }
    {
        let Journal {
            disk,
            part: _,
            end: _,
            staged: _,
            is_prepared: _,
            standing: _,
        } = self;
        disk
    }
}
