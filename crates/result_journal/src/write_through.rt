//! A write that is on the device when it is done.
ghost use Rattle.std.specs.Prelude.{◌≤◌, length};
ghost use Rattle.fault_counts.specs.Causes.{HasCause};
ghost use Rattle.disks.specs.Parts.{other_part};
ghost use Rattle.disks.specs.Calls.{WhereTold};
ghost use Rattle.result_journal.specs.Steps.{PartStays, WritesThrough};

use disks::Disk;
use fault_counts::Failed;

/// Writes to a part, and syncs it.
pub fn write_through<D: Disk>(disk: &mut D, part: u8, at: u64, piece: &[u8]) -> Result<(), Failed>
    requires part { part ≤ 1 }
    requires at { WhereTold (D.told disk.old) part (λ p. at ≤ length p.bytes) }
    ensures cause { HasCause (D.faults disk.old) (D.faults disk.new) result }
    ensures other { PartStays (other_part part) (D.told disk.old) (D.told disk.new) }
    ensures writes { WritesThrough part at piece.now (D.told disk.old) result (D.told disk.new) }
{
    disk.write_at(part, at, piece)?;
    disk.sync(part)
}
