//! Bytes from a place on.
ghost use Rattle.std.specs.Prelude.{◌≤◌, length};
ghost use Rattle.disks.specs.Calls.{Gives};

// Gives bytes from a place on.
pub fn give(bytes: &[u8], at: u64, room: &mut [u8]) -> usize
    ensures bound { result ≤ length room.new }
    ensures gives { Gives bytes.now at room.new result }
{
    if at >= bytes.len() as u64 {
        return 0;
    }
    let left = &bytes[at as usize..];
    let count = left.len().min(room.len());
    room[..count].copy_from_slice(&left[..count]);
    count
}
