//! The room, and who is inside.
ghost use Rattle.std.specs.Prelude.{◌≡◌, ◌+◌, min};

use crate::floor::Floor;
use std::marker::Model;
use std::sync::ledger::{Blank, Ledger, Share};
use std::sync::{Condvar, Mutex, Wait};

/// A room for bodies of a number of bytes. Contracts see how many may be inside at once.
#[derive(Drop)]
pub struct ReadingRoom<L: Ledger> {
    capacity: u64,
    floor: Mutex<Floor<L>>,
    changed: Condvar,
}

impl<L: Ledger> Model for ReadingRoom<L> {
    ghost use Rattle.std.specs.Prelude.{◌≡◌, ℕ};

    ghost Value = { ℕ };

    ghost view = { λ room. room.capacity };

    ghost invariant = { λ room. room.capacity ≡ L.parts };
}

/// What is inside of a room until it leaves. It isn't dropped. Contracts see how many bytes it
/// takes there.
pub struct Stay<'a, L: Ledger> {
    room: &'a ReadingRoom<L>,
    bytes: u64,
    parts: Share<L>,
}

impl<'a, L: Ledger> Model for Stay<'a, L> {
    ghost use Rattle.std.specs.Prelude.{◌≡◌, ◌<◌, ◌^◌, ℕ};

    ghost Value = { ℕ };

    ghost view = { λ stay. stay.bytes };

    ghost invariant = { λ stay. (stay.parts.parts ≡ stay.bytes) × (stay.parts.amount ≡ 0)
        × (L.parts < 2 ^ 64) };
}

impl<L: Ledger> ReadingRoom<L> {
    /// An empty room of so many bytes, which are the parts of a ledger of its own.
    pub fn new(capacity: u64, blank: Blank) -> ReadingRoom<L>
        requires name { blank.name ≡ L.name }
        requires parts { (blank.parts ≡ L.parts) × (L.parts ≡ capacity) }
        ensures { result ≡ capacity }
    {
        ReadingRoom {
            capacity,
            floor: Mutex::new(Floor::new(capacity, blank)),
            changed: Condvar::new(),
        }
    }

    /// Waits until all who came before have gone in and so many bytes are free. What is larger than
    /// the room takes all of it, and is alone there.
    pub fn enter<R: Wait>(&self, rt: &R, bytes: u64) -> Stay<'_, L>
        ensures { result ≡ min bytes self.now }
    {
        let bytes = bytes.min(self.capacity);
        let mut floor = self.floor.lock(rt);
        let ticket = floor.draw();
        for _ in rt.forever() {
            // The look and the beginning of the wait are under one lock, and who changes the floor
            // rings after it had that lock: so no ring falls between the two.
            if let Some(parts) = floor.admit(ticket, bytes) {
                drop(floor);
                // The next in the line may fit beside it. It sleeps, and nobody else wakes it.
                self.changed.notify_all();
                return Stay {
                    room: self,
                    bytes,
                    parts,
                };
            }
            // It ends at a ring, which may be for another one, or for no reason: hence the loop.
            floor = self.changed.wait(rt, floor);
        }
        unreachable!()
    }

    /// How many bytes all others that are inside take at most: what the room has beside these.
    pub fn beside(&self, stay: &mut Stay<'_, L>) -> u64
        ensures bytes { result + stay.old ≡ self.now }
        ensures same { stay.new ≡ stay.old }
    {
        let mut none = stay.parts.empty();
        stay.parts.give(&mut none, 0, 0);
        self.capacity - stay.bytes
    }
}

impl<'a, L: Ledger> Stay<'a, L> {
    /// Two as one: they take the bytes of both, and leave together.
    pub fn with(self, other: Stay<'a, L>) -> Stay<'a, L>
        ensures { result ≡ self.entry + other.entry }
    {
        let Stay { room, bytes, parts } = self;
        let Stay {
            room: _,
            bytes: more,
            parts: further,
        } = other;
        let mut parts = parts;
        parts.merge(further);
        Stay {
            room,
            bytes: bytes + more,
            parts,
        }
    }

    /// Leaves the room, and wakes all who wait: more than one may fit now.
    pub fn leave<R: Wait>(self, rt: &R) {
        let Stay { room, bytes, parts } = self;
        room.floor.lock(rt).take_back(bytes, parts);
        room.changed.notify_all();
    }
}
