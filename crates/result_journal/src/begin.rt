//! How a journal is begun on a part.
ghost use Rattle.std.specs.Prelude.{◌≡◌, ℕ, ◌+◌, ◌<◌, ◌≤◌, ◌↔◌, IsTrue, List, [], ◌∷◌, ◌++◌, length, take, slice_index};
ghost use Rattle.std.specs.Prelude.{true, false, Some, IfOk, IfErr, OnOk, MatchBool, MatchResult};
ghost use Rattle.fault_counts.specs.Causes.{HasCause};
ghost use Rattle.disks.specs.Parts.{other_part};
ghost use Rattle.disks.specs.Moments.{Told, AtEachMoment};
ghost use Rattle.disks.specs.Calls.{WhereTold};
ghost use Rattle.disks.specs.Aheads.{IsAheadOf};
ghost use Rattle.result_journal.specs.Grammar.{first_version, head, IsOfHead};
ghost use Rattle.result_journal.specs.Begins.{IsEmptyJournal, IsShort, IsShortImage, HoldsSynced, IsHead, HeadFault};
ghost use Rattle.result_journal.specs.Openings.{CountsOpening};
ghost use Rattle.result_journal.specs.Steps.{PartStays};

use crate::opening::OpenFault;
use disks::{Disk, ReadAhead};
use fault_counts::Failed;

/// The name and version 1, and a closed gate.
const EMPTY_JOURNAL: [u8; 9] = [82, 68, 66, 74, 82, 78, 76, 49, 0];

pub const EMPTY_SIZE: u64 = 9;

// Writes an empty journal over at most nine bytes, cuts to it, and syncs.
pub fn write_empty_journal<D: Disk>(disk: &mut D, part: u8) -> Result<(), Failed>
    requires { part ≤ 1 }
    ensures moments { IsShort part (D.told disk.old) →
        AtEachMoment (D.told disk.old) (D.told disk.new) (IsShortImage part) }
    ensures ok { OnOk result (HoldsSynced part (D.told disk.new) (head ++ 0 ∷ [])) }
    ensures other { PartStays (other_part part) (D.told disk.old) (D.told disk.new) }
    ensures cause { HasCause (D.faults disk.old) (D.faults disk.new) result }
{
    disk.write_at(part, 0, &EMPTY_JOURNAL)?;
    disk.cut(part, EMPTY_SIZE)?;
    disk.sync(part)
}

// Whether a part of this size is an empty journal already.
pub fn is_empty_journal<D: Disk>(
    disk: &mut D,
    part: u8,
    ahead: &mut ReadAhead,
    size: u64,
) -> Result<bool, Failed>
    requires part { part ≤ 1 }
    requires ahead { IsAheadOf (D.told disk.old) part ahead.old }
    ensures ahead { IsAheadOf (D.told disk.old) part ahead.new }
    ensures told { D.told disk.new ≡ D.told disk.old }
    ensures empty { WhereTold (D.told disk.old) part (λ p. size ≡ length p.bytes →
        IfOk result (λ empty. IsTrue empty ↔ IsEmptyJournal p.bytes)) }
    ensures cause { HasCause (D.faults disk.old) (D.faults disk.new) result }
{
    if size != EMPTY_SIZE {
        return Ok(false);
    }
    let mut bytes = [0u8; 9];
    let whole = ahead.read_exact_at(disk, part, 0, &mut bytes)?;
    Ok(whole && bytes[..8] == EMPTY_JOURNAL[..8] && bytes[8] != 1)
}

// Judges the head of a part of more than nine bytes.
pub fn check_head<D: Disk>(disk: &mut D, part: u8, ahead: &mut ReadAhead) -> Result<(), OpenFault>
    requires part { part ≤ 1 }
    requires ahead { IsAheadOf (D.told disk.old) part ahead.old }
    ensures ahead { IsAheadOf (D.told disk.old) part ahead.new }
    ensures told { D.told disk.new ≡ D.told disk.old }
    ensures judged { WhereTold (D.told disk.old) part (λ p. 9 < length p.bytes →
        MatchResult result (λ _. IsHead first_version p.bytes) (HeadFault first_version p.bytes)) }
    ensures cause { CountsOpening (D.faults disk.old) result (D.faults disk.new) }
{
    let mut bytes = [0u8; 8];
    let whole = ahead.read_exact_at(disk, part, 0, &mut bytes)?;
    if !whole {
        return Err(OpenFault::Damaged { at: 8, byte: 256 });
    }
    judge_head(&bytes)
}

fn judge_head(bytes: &[u8]) -> Result<(), OpenFault>
    requires { length bytes.now ≡ 8 }
    ensures judged { MatchResult result (λ _. IsHead first_version bytes.now)
        (HeadFault first_version bytes.now) }
    ensures cause { (n : ℕ) → CountsOpening n result n }
{
    for (at, byte) in bytes.iter().enumerate() {
        if !is_of_head(at, *byte) {
            return Err(OpenFault::NotAJournal { at: at as u64 });
        }
    }
    let found = bytes[7];
    if found != b'1' {
        return Err(OpenFault::NewerVersion { found });
    }
    Ok(())
}

// Whether a byte may stand at this place of a head of some version.
fn is_of_head(at: usize, byte: u8) -> bool
    requires { at < 8 }
    ensures { IsTrue result ↔ IsOfHead at byte }
{
    if at < 7 {
        byte == EMPTY_JOURNAL[at]
    } else {
        b'1' <= byte && byte <= b'9'
    }
}
