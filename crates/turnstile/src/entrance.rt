//! Who draws the next ticket.

use std::hint::spin_loop;
use std::sync::{Mutex, MutexGuard, Wait};

/// So often a caller looks whether the room is free before it sleeps, with a pause of the processor
/// after each look: for longer than turns without the disk take, since to be woken takes as long
/// as several of them. Whoever looked on while a turn writes to the disk would keep a processor
/// from what it waits for.
const LOOKS: u32 = 1000;

/// The way to the tickets: a room for one caller, who has it to itself until its turn is passed.
/// Whoever finds it free goes in, also before those that sleep, since they may not be awake yet.
///
/// No clause rests on it.
#[derive(Drop)]
pub(crate) struct Entrance {
    room: Mutex<()>,
}

impl Entrance {
    pub(crate) fn new() -> Entrance {
        Entrance {
            room: Mutex::new(()),
        }
    }

    /// Waits until the caller has the room to itself, which it leaves when it drops the guard.
    pub(crate) fn enter<R: Wait>(&self, rt: &R) -> MutexGuard<'_, ()> {
        for _ in 0..LOOKS {
            if let Some(inside) = self.room.try_lock() {
                return inside;
            }
            spin_loop();
        }
        self.room.lock(rt)
    }
}
