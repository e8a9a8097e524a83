//! The opening of a journal: its records in order, or its first fault.
ghost use Rattle.std.specs.Prelude.{◌≡◌, ℕ, ◌+◌, ◌^◌, ◌<◌, ◌≤◌, ◌↔◌, IsTrue, List, [], ◌∷◌, ◌++◌, length, true, false};
ghost use Rattle.std.specs.Prelude.{None, Some, take, drop, IfOk, IfErr, OnOk, OnErr, MatchOption, MatchResult, ⊤};
ghost use Rattle.std.specs.Int.{w32, to_le_bytes, from_le_bytes};
ghost use Rattle.disks.specs.Parts.{other_part};
ghost use Rattle.disks.specs.Moments.{Told, AtEachMoment};
ghost use Rattle.disks.specs.Calls.{WhereTold};
ghost use Rattle.disks.specs.Aheads.{IsAheadOf, HoldsNothing};
ghost use Rattle.result_journal.specs.Grammar.{Reads, Bodies, IsBody};
ghost use Rattle.result_journal.specs.Journals.{StandsFor, begun_part, disk_of, end_of, is_settled, is_prepared};
ghost use Rattle.result_journal.specs.Journals.{journal_part};
ghost use Rattle.result_journal.specs.Steps.{OtherStays, PartStays};
ghost use Rattle.result_journal.specs.Openings.{HasGiven, HasGivenSome, IsBehind, OpensAs, FaultCause, opened_disk};
ghost use Rattle.result_journal.specs.Openings.{next_gate, is_ended, LeftBeforeOrAlike, AlikeOnceSynced, LongPartStays};
ghost use Rattle.result_journal.specs.Openings.{ShownWhereTold, CountsOpening, FindsLength, IfFits, BrokenFault};
ghost use Rattle.result_journal.specs.Openings.{IsNoFaultOfBytes, opened_part, PartOpensAs, PartStaysWhereLong};
ghost use Rattle.result_journal.specs.Openings.{PartAlikeOnceSynced, PartLeftBeforeOrAlike};

use crate::begin::{EMPTY_SIZE, check_head, is_empty_journal, write_empty_journal};
use crate::journal::{Journal, Standing};
use disks::{Disk, ReadAhead};
use fault_counts::Failed;
use std::alloc::{AllocError, Global};

/// Why a journal can't be opened.
#[derive(Clone, Copy, Debug, PartialEq, Eq)]
pub enum OpenFault {
    /// The first byte of the head that isn't one of a journal of any version.
    NotAJournal { at: u64 },
    /// The place behind the open gate of a record that isn't whole, and the byte there, or 256 past
    /// the end.
    Damaged { at: u64, byte: u16 },
    /// A journal of a version above 1, by its digit.
    NewerVersion { found: u8 },
    /// A call on the disk failed.
    DiskFailed,
    /// Memory was wanting for reading ahead, or for the body of a record.
    Memory,
}

impl From<Failed> for OpenFault {
    ghost use Rattle.result_journal.specs.declared.opening.OpenFault.TheVariants.{DiskFailed};

    ghost from_gives = { λ _ e. e ≡ DiskFailed };

    fn from(_: Failed) -> Self {
        OpenFault::DiskFailed
    }
}

impl From<AllocError> for OpenFault {
    ghost use Rattle.result_journal.specs.declared.opening.OpenFault.TheVariants.{Memory};

    ghost from_gives = { λ _ e. e ≡ Memory };

    fn from(_: AllocError) -> Self {
        OpenFault::Memory
    }
}

/// A journal that is read, record by record.
#[derive(Drop)]
pub struct Opening<D: Disk> {
    pub(crate) disk: D,
    pub(crate) part: u8,
    pub(crate) size: u64,
    pub(crate) place: u64,
    pub(crate) is_ended: bool,
    pub(crate) ahead: ReadAhead,
    staged: Vec<u8>,
}

/// The part on which a journal is begun.
const BEGUN_PART: u8 = 0;

/// The place behind the head.
const FIRST_GATE: u64 = 8;

const OPEN: u8 = 1;

const GREATEST_BODY: u32 = 1 << 23;

impl<D: Disk> Opening<D> {
    /// Syncs part 0, and reads its head. At most nine bytes that aren't an empty journal are begun
    /// anew: the head and a closed gate are written, the part is cut to nine bytes, and it is
    /// synced.
    ///
    /// At each moment inside the call a crash leaves what one before it might have left, or what is
    /// read as the part was.
    pub fn begin(alloc: Global, disk: D) -> Result<Opening<D>, (OpenFault, D)>
        ensures opened { IfOk result (λ o. HasGiven D.told o []) }
        ensures begins { IfOk result (λ o. OpensAs (D.told disk) (D.told (opened_disk o))) }
        ensures going { IfOk result (λ o. is_ended o ≡ false) }
        ensures place { IfOk result (λ o. next_gate o ≡ 8) }
        ensures part { IfOk result (λ o. opened_part o ≡ begun_part) }
        ensures shown { IfErr result (λ e. ShownWhereTold begun_part (D.told disk) e.0) }

        // A part that is refused stays, and so does the other part, whatever is answered.
        ensures kept { IfErr result (λ e. LongPartStays (D.told disk) (D.told e.1)) }
        ensures other { IfOk result (λ o. OtherStays (D.told disk) (D.told (opened_disk o))) }
        ensures other_err { IfErr result (λ e. OtherStays (D.told disk) (D.told e.1)) }

        ensures any_moment { IfOk result (λ o. AtEachMoment (D.told disk) (D.told (opened_disk o))
            (LeftBeforeOrAlike (D.told disk))) }
        ensures any_moment_err { IfErr result (λ e. AtEachMoment (D.told disk) (D.told e.1)
            (LeftBeforeOrAlike (D.told disk))) }
        ensures synced { IfOk result (λ o. AlikeOnceSynced (D.told disk) (D.told (opened_disk o))) }
        ensures synced_err { IfErr result (λ e. AlikeOnceSynced (D.told disk) (D.told e.1)) }

        ensures no_cause { IfOk result (λ o. D.faults (opened_disk o) ≡ D.faults disk) }
        ensures cause { IfErr result (λ e. FaultCause (D.faults disk) e.0 (D.faults e.1)) }
    {
        let mut disk = disk;
        let Ok(mut ahead) = ReadAhead::new(alloc) else {
            return Err((OpenFault::Memory, disk));
        };
        match begin_part(&mut disk, BEGUN_PART, &mut ahead) {
            Ok(size) => Ok(Opening {
                disk,
                part: BEGUN_PART,
                size,
                place: FIRST_GATE,
                is_ended: false,
                ahead,
                staged: Vec::new(alloc),
            }),
            Err(fault) => Err((fault, disk)),
        }
    }

    /// The journal, whose records were all read.
    pub fn ready(self) -> Journal<D>
        requires given { HasGivenSome D.told self }
        requires ended { is_ended self ≡ true }
        ensures stands { (given : List (List ℕ)) → HasGiven D.told self given →
            StandsFor D.told result given }
        ensures settled { is_settled result ≡ true }
        ensures prepared { is_prepared result ≡ false }
        ensures end { end_of result ≡ next_gate self }
        ensures part { journal_part result ≡ opened_part self }
        ensures disk { disk_of result ≡ opened_disk self }
    {
        let Opening {
            disk,
            part,
            size: _,
            place,
            is_ended: _,
            ahead: _,
            staged,
        } = self;
        Journal {
            disk,
            part,
            end: place,
            staged,
            is_prepared: false,
            standing: Standing::Settled,
        }
    }

    /// The disk, as it is.
    pub fn give_up(self) -> D
        ensures { result ≡ opened_disk self }
    {
        let Opening {
            disk,
            part: _,
            size: _,
            place: _,
            is_ended: _,
            ahead: _,
            staged: _,
        } = self;
        disk
    }

    /// Goes back to the first gate, as it was after `begin`.
    pub fn restart(&mut self)
        requires { HasGivenSome D.told self.old }
        ensures given { HasGiven D.told self.new [] }
        ensures place { next_gate self.new ≡ 8 }
        ensures going { is_ended self.new ≡ false }
        ensures part { opened_part self.new ≡ opened_part self.old }
        ensures disk { opened_disk self.new ≡ opened_disk self.old }
    {
        self.place = FIRST_GATE;
        self.is_ended = false;
    }

    /// Puts the next record's body into `into`, and answers the place of its first byte, or `None`
    /// at the closed gate.
    ///
    /// `into` is left empty by `None` and by a fault.
    pub fn next(&mut self, alloc: Global, into: &mut Vec<u8>) -> Result<Option<u64>, OpenFault>
        requires { HasGivenSome D.told self.old }

        // A body, with its place,
        ensures gives { IfOk result (λ found. MatchOption found ⊤
            (λ place. (given : List (List ℕ)) →
            HasGiven D.told self.old given →
            HasGiven D.told self.new (given ++ into.new.items ∷ []))) }
        ensures place { IfOk result (λ found. MatchOption found ⊤ (λ place. place
            ≡ next_gate self.old + 5)) }
        ensures body { IfOk result (λ found. MatchOption found ⊤ (λ place. IsBody into.new.items)) }

        ensures gate { IfOk result (λ found. MatchOption found
            (next_gate self.new ≡ next_gate self.old)
            (λ place. next_gate self.new ≡ place + length into.new.items)) }

        // or the end, and then these were all,
        ensures ends { IfOk result (λ found. MatchOption found (is_ended self.new ≡ true)
            (λ _. ⊤)) }
        ensures keeps { IfOk result (λ found. MatchOption found ((given : List (List ℕ)) →
            HasGiven D.told self.old given → HasGiven D.told self.new given) (λ _. ⊤)) }
        ensures all { IfOk result (λ found. MatchOption found ((given : List (List ℕ)) →
            HasGiven D.told self.old given → WhereTold (D.told (opened_disk self.old))
            (opened_part self.old) (λ p. Reads p.bytes (Bodies given))) (λ _. ⊤)) }
        ensures none { IfOk result (λ found. MatchOption found (into.new.items ≡ []) (λ _. ⊤)) }

        // or a fault, which the bytes show.
        ensures shown { IfErr result (ShownWhereTold (opened_part self.old)
            (D.told (opened_disk self.old))) }
        ensures err { OnErr result (into.new.items ≡ []) }
        ensures err_keeps { OnErr result ((given : List (List ℕ)) →
            HasGiven D.told self.old given → HasGiven D.told self.new given) }

        ensures still { HasGivenSome D.told self.new }

        // The disk isn't changed.
        ensures part { opened_part self.new ≡ opened_part self.old }
        ensures told { D.told (opened_disk self.new) ≡ D.told (opened_disk self.old) }
        ensures cause { CountsOpening (D.faults (opened_disk self.old)) result
            (D.faults (opened_disk self.new)) }
    {
        *into = Vec::new(alloc);
        self.is_ended = false;
        let Some(count) = self.next_length()? else {
            self.is_ended = true;
            return Ok(None);
        };
        *into = self.body(alloc, count)?;
        let place = self.place + 5;
        self.place = place + count as u64;
        Ok(Some(place))
    }

    // The length of the next body, or `None` at a closed gate.
    fn next_length(&mut self) -> Result<Option<usize>, OpenFault>
        requires inside { next_gate self.old < self.old.size }
        requires part { opened_part self.old ≤ 1 }
        requires ahead { IsAheadOf (D.told (opened_disk self.old)) (opened_part self.old)
            self.old.ahead }
        ensures found { WhereTold (D.told (opened_disk self.old)) (opened_part self.old) (λ p.
            self.old.size ≡ length p.bytes →
            MatchResult result (FindsLength p.bytes (next_gate self.old))
            (BrokenFault p.bytes (next_gate self.old))) }
        ensures inside { IfOk result (IfFits (next_gate self.old) self.old.size) }
        ensures same { self.new ≡
            record self.old { disk = self.new.disk; ahead = self.new.ahead } }
        ensures ahead { IsAheadOf (D.told (opened_disk self.old)) (opened_part self.old)
            self.new.ahead }
        ensures told { D.told (opened_disk self.new) ≡ D.told (opened_disk self.old) }
        ensures cause { CountsOpening (D.faults (opened_disk self.old)) result
            (D.faults (opened_disk self.new)) }
    {
        let left = self.size - self.place;
        if left < 6 {
            return self.short_end(left);
        }
        let mut header = [0u8; 5];
        let whole = self
            .ahead
            .read_exact_at(&mut self.disk, self.part, self.place, &mut header)?;
        if !whole {
            return Err(self.damaged(256));
        }
        if header[0] != OPEN {
            return Ok(None);
        }
        let count = said_count(&header);
        if !has_room(count, left) {
            return Err(self.damaged(u16::from(header[1])));
        }
        Ok(Some(count as usize))
    }

    // A gate behind which no record has room.
    fn short_end(&mut self, left: u64) -> Result<Option<usize>, OpenFault>
        requires some { 0 < left }
        requires left { next_gate self.old + left ≡ self.old.size }
        requires few { left < 6 }
        requires part { opened_part self.old ≤ 1 }
        requires ahead { IsAheadOf (D.told (opened_disk self.old)) (opened_part self.old)
            self.old.ahead }
        ensures found { WhereTold (D.told (opened_disk self.old)) (opened_part self.old) (λ p.
            self.old.size ≡ length p.bytes →
            MatchResult result (FindsLength p.bytes (next_gate self.old))
            (BrokenFault p.bytes (next_gate self.old))) }
        ensures none { IfOk result (λ found. found ≡ None) }
        ensures same { self.new ≡
            record self.old { disk = self.new.disk; ahead = self.new.ahead } }
        ensures ahead { IsAheadOf (D.told (opened_disk self.old)) (opened_part self.old)
            self.new.ahead }
        ensures told { D.told (opened_disk self.new) ≡ D.told (opened_disk self.old) }
        ensures cause { CountsOpening (D.faults (opened_disk self.old)) result
            (D.faults (opened_disk self.new)) }
    {
        let mut gate = [0u8; 1];
        let whole = self
            .ahead
            .read_exact_at(&mut self.disk, self.part, self.place, &mut gate)?;
        if !whole {
            return Err(self.damaged(256));
        }
        if gate[0] != OPEN {
            return Ok(None);
        }
        if left == 1 {
            return Err(self.damaged(256));
        }
        let mut behind = [0u8; 1];
        let whole = self
            .ahead
            .read_exact_at(&mut self.disk, self.part, self.place + 1, &mut behind)?;
        if !whole {
            return Err(self.damaged(256));
        }
        Err(self.damaged(u16::from(behind[0])))
    }

    // The record behind the gate isn't whole.
    fn damaged(&self, byte: u16) -> OpenFault
        requires { next_gate self.now < self.now.size }
        ensures { result ≡ OpenFault.Damaged (next_gate self.now + 1) byte }
    {
        OpenFault::Damaged {
            at: self.place + 1,
            byte,
        }
    }

    // The body of so many bytes behind the gate.
    fn body(&mut self, alloc: Global, count: usize) -> Result<Vec<u8>, OpenFault>
        requires some { 0 < count }
        requires inside { next_gate self.old + 5 + count < self.old.size }
        requires part { opened_part self.old ≤ 1 }
        requires ahead { IsAheadOf (D.told (opened_disk self.old)) (opened_part self.old)
            self.old.ahead }
        ensures body { WhereTold (D.told (opened_disk self.old)) (opened_part self.old) (λ p.
            IfOk result (λ body. body.items ≡ take count (drop (next_gate self.old + 5) p.bytes))) }
        ensures length { IfOk result (λ body. length body.items ≡ count) }
        ensures fault { WhereTold (D.told (opened_disk self.old)) (opened_part self.old) (λ p.
            self.old.size ≡ length p.bytes →
            IfErr result IsNoFaultOfBytes) }
        ensures same { self.new ≡
            record self.old { disk = self.new.disk; ahead = self.new.ahead } }
        ensures ahead { IsAheadOf (D.told (opened_disk self.old)) (opened_part self.old)
            self.new.ahead }
        ensures told { D.told (opened_disk self.new) ≡ D.told (opened_disk self.old) }
        ensures cause { CountsOpening (D.faults (opened_disk self.old)) result
            (D.faults (opened_disk self.new)) }
    {
        let mut body = vec![in alloc; 0u8; count]?;
        let whole = self
            .ahead
            .read_exact_at(&mut self.disk, self.part, self.place + 5, &mut body)?;
        if !whole {
            return Err(self.damaged(256));
        }
        Ok(body)
    }
}

// Syncs a part and judges its head, or begins it anew. Answers its size.
fn begin_part<D: Disk>(disk: &mut D, part: u8, ahead: &mut ReadAhead) -> Result<u64, OpenFault>
    requires part { part ≤ 1 }
    requires ahead { HoldsNothing ahead.old }
    ensures ahead { OnOk result (IsAheadOf (D.told disk.new) part ahead.new) }
    ensures size { IfOk result (λ size. 9 ≤ size) }
    ensures begun { IfOk result (λ size. WhereTold (D.told disk.new) part
        (λ p. IsBehind p [] 8 size)) }
    ensures begins { OnOk result (PartOpensAs part (D.told disk.old) (D.told disk.new)) }
    ensures shown { IfErr result (ShownWhereTold part (D.told disk.old)) }
    ensures kept { OnErr result (PartStaysWhereLong part (D.told disk.old) (D.told disk.new)) }
    ensures other { PartStays (other_part part) (D.told disk.old) (D.told disk.new) }
    ensures synced { PartAlikeOnceSynced part (D.told disk.old) (D.told disk.new) }
    ensures any_moment { AtEachMoment (D.told disk.old) (D.told disk.new)
        (PartLeftBeforeOrAlike part (D.told disk.old)) }
    ensures cause { CountsOpening (D.faults disk.old) result (D.faults disk.new) }
{
    disk.sync(part)?;
    let size = disk.len(part)?;
    if size > EMPTY_SIZE {
        check_head(disk, part, ahead)?;
        return Ok(size);
    }
    if !is_empty_journal(disk, part, ahead, size)? {
        write_empty_journal(disk, part)?;
        ahead.forget();
    }
    Ok(EMPTY_SIZE)
}

// The length that the four bytes behind a gate say.
fn said_count(header: &[u8]) -> u32
    requires { length header.now ≡ 5 }
    ensures value { result ≡ from_le_bytes w32 (take 4 (drop 1 header.now)) }
    ensures word { to_le_bytes w32 result ≡ take 4 (drop 1 header.now) }
{
    u32::from_le_bytes([header[1], header[2], header[3], header[4]])
}

// Whether a body of so many bytes, and the next gate, have room in so many bytes from its own gate
// on.
fn has_room(count: u32, left: u64) -> bool
    ensures { IsTrue result ↔ ((1 ≤ count) × (count ≤ 2 ^ 23) × (5 + count < left)) }
{
    1 <= count && count <= GREATEST_BODY && u64::from(count) + 5 < left
}
