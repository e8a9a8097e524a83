//! What is free in a room, and who comes next.
ghost use Rattle.std.specs.Prelude.{◌≡◌, ◌+◌, ◌<◌, ◌^◌, IfSome, IfNone};

use std::marker::Model;
use std::sync::ledger::{Blank, Ledger, Share};

/// The bytes that are free, as parts of the room's ledger, and the line of those who wait.
/// Contracts see the bytes.
#[derive(Drop)]
pub(crate) struct Floor<L: Ledger> {
    free: u64,
    parts: Share<L>,
    drawn: u64,
    admitted: u64,
}

impl<L: Ledger> Model for Floor<L> {
    ghost use Rattle.std.specs.Prelude.{◌≡◌, ◌<◌, ◌^◌, ℕ};

    ghost Value = { ℕ };

    ghost view = { λ floor. floor.free };

    ghost invariant = { λ floor. (floor.parts.parts ≡ floor.free) × (floor.parts.amount ≡ 0)
        × (L.parts < 2 ^ 64) };
}

impl<L: Ledger> Floor<L> {
    /// All bytes are free, and nobody waits.
    pub(crate) fn new(capacity: u64, blank: Blank) -> Floor<L>
        requires name { blank.name ≡ L.name }
        requires parts { (blank.parts ≡ L.parts) × (L.parts ≡ capacity) }
        ensures { result ≡ capacity }
    {
        let (_, parts) = blank.open::<L>();
        Floor {
            free: capacity,
            parts,
            drawn: 0,
            admitted: 0,
        }
    }

    /// A place at the end of the line.
    pub(crate) fn draw(&mut self) -> u64
        ensures { self.new ≡ self.old }
    {
        let ticket = self.drawn;
        self.drawn = ticket.wrapping_add(1);
        ticket
    }

    /// So many bytes, where it is the turn of the ticket and they are free.
    pub(crate) fn admit(&mut self, ticket: u64, bytes: u64) -> Option<Share<L>>
        ensures some { IfSome result (λ parts. (parts.parts ≡ bytes) × (parts.amount ≡ 0)
            × (self.new + bytes ≡ self.old)) }
        ensures none { IfNone result (self.new ≡ self.old) }
    {
        if ticket != self.admitted || bytes > self.free {
            return None;
        }
        let Floor {
            free,
            parts,
            drawn: _,
            admitted,
        } = self;
        *admitted = ticket.wrapping_add(1);
        *free -= bytes;
        Some(parts.split_off(bytes, 0))
    }

    /// So many bytes are free again.
    pub(crate) fn take_back(&mut self, bytes: u64, given: Share<L>)
        requires { (given.parts ≡ bytes) × (given.amount ≡ 0) }
        ensures { self.new ≡ self.old + bytes }
    {
        let Floor {
            free,
            parts,
            drawn: _,
            admitted: _,
        } = self;
        parts.merge(given);
        *free += bytes;
    }
}
