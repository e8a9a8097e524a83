//! The bytes of a link that were read and aren't used yet.
ghost use Rattle.std.specs.Prelude.{ℕ, ◌≡◌, ◌-◌, ◌<◌, ◌≤◌, [], length, drop, slice_range, IfOk};
ghost use Rattle.outside.specs.Ends.{OnlyReads};
ghost use Rattle.http_wire.specs.Head.{head_limit};
ghost use Rattle.http_wire.specs.Reads.{Fills, ReadsAt};

use crate::message::WireFault;
use outside::Link;
use std::alloc::{AllocError, Global};
use std::marker::Model;

/// The most bytes that a head has, and so the most that are held.
pub const HEAD_LIMIT: usize = 16384;

/// Bytes that wait, in room that is made once.
#[derive(Drop)]
pub struct Buffer {
    room: Vec<u8>,
    from: usize,
    to: usize,
}

impl Model for Buffer {
    ghost use Rattle.std.specs.Prelude.{ℕ, ◌≡◌, ◌≤◌, List, length, slice_range};

    ghost Value = { List ℕ };

    ghost view = { λ b. slice_range b.room.items b.from b.to };

    ghost invariant = { λ b. (b.from ≤ b.to) × (b.to ≤ length b.room.items)
        × (length b.room.items ≡ 16384) };
}

impl Buffer {
    pub fn new(alloc: Global) -> Result<Buffer, AllocError>
        ensures { IfOk result (λ b. b ≡ []) }
    {
        let room = vec![in alloc; 0u8; HEAD_LIMIT]?;
        Ok(Buffer {
            room,
            from: 0,
            to: 0,
        })
    }

    pub fn as_slice(&self) -> &[u8]
        ensures value { result.now ≡ self.now }
        ensures short { length result.now ≤ head_limit }
    {
        &self.room.as_slice()[self.from..self.to]
    }

    /// Takes bytes from the front.
    pub fn advance(&mut self, count: usize)
        requires { count ≤ length self.old }
        ensures { self.new ≡ drop count self.old }
    {
        self.from += count;
    }

    /// Reads once, behind the bytes that wait, and answers how many bytes came.
    pub fn fill<L: Link>(&mut self, link: &mut L) -> Result<usize, WireFault>
        requires { length self.old < head_limit }
        ensures filled { Fills self.old (L.ends link.old).incoming result self.new
            (L.ends link.new).incoming }
        ensures short { length self.new ≤ head_limit }
        ensures only { OnlyReads (L.ends link.old) (L.ends link.new) }
        ensures holds { L.holds link.new ≡ L.holds link.old }
    {
        let (from, to) = with_room_behind(self.room.as_mut_slice(), self.from, self.to);
        self.from = from;
        self.to = to;
        let count = read_at(link, self.room.as_mut_slice(), to)?;
        self.to = to + count;
        Ok(count)
    }
}

/// Moves the bytes that wait to the front where no room is left behind them, and answers where they
/// are.
fn with_room_behind(room: &mut [u8], from: usize, to: usize) -> (usize, usize)
    requires ordered { from ≤ to }
    requires within { to ≤ length room.old }
    requires some { to - from < length room.old }
    ensures ordered { result.0 ≤ result.1 }
    ensures behind { result.1 < length room.new }
    ensures same { slice_range room.new result.0 result.1 ≡ slice_range room.old from to }
{
    if from == to {
        (0, 0)
    } else if to == room.len() {
        room.rotate_left(from);
        (0, to - from)
    } else {
        (from, to)
    }
}

/// Reads once into the room from a place on.
pub fn read_at<L: Link>(link: &mut L, room: &mut [u8], at: usize) -> Result<usize, WireFault>
    requires { at < length room.old }
    ensures read { ReadsAt (L.ends link.old).incoming at room.old result room.new
        (L.ends link.new).incoming }
    ensures only { OnlyReads (L.ends link.old) (L.ends link.new) }
    ensures holds { L.holds link.new ≡ L.holds link.old }
{
    match link.read(&mut room[at..]) {
        Ok(count) => Ok(count),
        Err(_) => Err(WireFault::ReadFault),
    }
}
