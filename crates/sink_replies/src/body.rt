//! A body that is passed over.
ghost use Rattle.std.specs.Prelude.{◌≡◌, length};
ghost use Rattle.outside.specs.Ends.{OnlyReads};
ghost use Rattle.sink_replies.specs.Reads.{Skips};

use crate::reads::{ReplyEnd, read_into};
use outside::Link;

/// Reads so many bytes, and no more, through the room.
pub fn skip<L: Link>(link: &mut L, room: &mut [u8], len: usize) -> Result<(), ReplyEnd>
    requires { length room.old ≡ 16384 }
    ensures skips { Skips (L.ends link.old).incoming len result (L.ends link.new).incoming }
    ensures only { OnlyReads (L.ends link.old) (L.ends link.new) }
    ensures holds { L.holds link.new ≡ L.holds link.old }
{
    let mut left = len;
    while left > 0 {
        let most = left.min(room.len());
        left -= read_into(link, &mut room[..most])?;
    }
    Ok(())
}
