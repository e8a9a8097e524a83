//! The head in front of what a link gives.
ghost use Rattle.std.specs.Prelude.{◌≡◌, ◌==◌, if◌then◌else◌, Ok, Err, None};
ghost use Rattle.outside.specs.Ends.{OnlyReads};
ghost use Rattle.http_wire.specs.Reads.{FindsHead};

use crate::buffer::{Buffer, HEAD_LIMIT};
use crate::head_scan::{HeadEnd, Search, begin, search_on};
use crate::message::WireFault;
use outside::Link;

/// Reads until the head in front has ended, and answers where; or `None` where nothing is left.
pub fn find_head<L: Link>(buffer: &mut Buffer, link: &mut L) -> Result<Option<HeadEnd>, WireFault>
    ensures finds { FindsHead buffer.old (L.ends link.old).incoming result buffer.new
        (L.ends link.new).incoming }
    ensures only { OnlyReads (L.ends link.old) (L.ends link.new) }
    ensures holds { L.holds link.new ≡ L.holds link.old }
{
    let mut progress = begin();
    'search: loop {
        match search_on(buffer.as_slice(), progress) {
            Search::Found(end) => return Ok(Some(end)),
            Search::Goes(next) => progress = next,
        }
        if progress.scanned == HEAD_LIMIT {
            return Err(WireFault::HeadTooLong);
        }
        let count = buffer.fill(link)?;
        if count == 0 {
            return at_end(progress.scanned);
        }
    }
}

fn at_end(have: usize) -> Result<Option<HeadEnd>, WireFault>
    ensures { result ≡ (if have == 0 then Ok None else Err (WireFault.CutShort have)) }
{
    if have == 0 {
        Ok(None)
    } else {
        Err(WireFault::CutShort { have })
    }
}
