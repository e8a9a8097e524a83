//! Who waits, and who goes in.
ghost use Rattle.std.specs.Prelude.{◌≡◌};

use crate::ReadingRoom;
use std::marker::Brand;
use std::sync::Wait;
use std::sync::atomic::{AtomicBool, Ordering};
use std::sync::ledger::{Blank, Ledger};
use std::test::Fail;
use std::thread::Threads;
use std::{hint, thread};

/// How often a flag is looked at before it is given up.
const LOOKS: u64 = 10_000_000;

/// Whether the flag was raised while it was looked at.
fn is_raised(flag: &AtomicBool) -> bool {
    for _ in 0..LOOKS {
        if flag.load(Ordering::SeqCst) {
            return true;
        }
        hint::spin_loop();
    }
    false
}

/// What the two who share a room tell each other.
#[derive(Drop)]
struct Flags {
    first_is_in: AtomicBool,
    first_leaves: AtomicBool,
    second_is_in: AtomicBool,
}

/// Goes in first, beside it another one for which there is room, and stays for a while. Tells
/// whether the second one went in meanwhile.
fn stays<L: Ledger, R: Wait>(rt: &R, room: &ReadingRoom<L>, flags: &Flags) -> bool {
    let stay = room.enter(rt, 7);
    room.enter(rt, 3).leave(rt);
    flags.first_is_in.store(true, Ordering::SeqCst);
    let met = is_raised(&flags.second_is_in);
    flags.first_leaves.store(true, Ordering::SeqCst);
    stay.leave(rt);
    met
}

/// Goes in second, and tells whether the first one had ended its stay.
fn follows<L: Ledger, R: Wait>(rt: &R, room: &ReadingRoom<L>, flags: &Flags) -> bool {
    let came_second = is_raised(&flags.first_is_in);
    let stay = room.enter(rt, 7);
    flags.second_is_in.store(true, Ordering::SeqCst);
    let had_left = flags.first_leaves.load(Ordering::SeqCst);
    stay.leave(rt);
    came_second && had_left
}

/// While 7 of 10 bytes are taken, 3 go in and out, and 7 wait.
fn second_waits<L: Ledger + Send + Sync, R: Threads + Wait + Sync>(rt: &R, blank: Blank) -> bool
    requires name { blank.name ≡ L.name }
    requires parts { (blank.parts ≡ 10) × (L.parts ≡ 10) }
{
    let room = ReadingRoom::<L>::new(10, blank);
    let flags = Flags {
        first_is_in: AtomicBool::new(false),
        first_leaves: AtomicBool::new(false),
        second_is_in: AtomicBool::new(false),
    };
    let (met, had_left) = thread::join(
        rt,
        || stays(rt, &room, &flags),
        || follows(rt, &room, &flags),
    );
    had_left && !met
}

#[test]
fn a_second_large_one_waits_until_the_first_has_left(rt: HostRuntime) -> Result<(), Fail> {
    assert!(rt; second_waits::<Brand, _>(&rt, Blank::new(10)));
    Ok(())
}

/// Two take what both take, and one that is larger than the room takes all of it.
fn counts<L: Ledger, R: Wait>(rt: &R, blank: Blank) -> (u64, u64, u64)
    requires name { blank.name ≡ L.name }
    requires parts { (blank.parts ≡ 10) × (L.parts ≡ 10) }
{
    let room = ReadingRoom::<L>::new(10, blank);
    let mut one = room.enter(rt, 3);
    let beside_one = room.beside(&mut one);
    let mut both = one.with(room.enter(rt, 5));
    let beside_both = room.beside(&mut both);
    both.leave(rt);
    let mut large = room.enter(rt, 1000);
    let beside_large = room.beside(&mut large);
    large.leave(rt);
    (beside_one, beside_both, beside_large)
}

#[test]
fn bytes_are_counted(rt: HostRuntime) -> Result<(), Fail> {
    assert_eq!(rt; counts::<Brand, _>(&rt, Blank::new(10)), (7, 2, 0));
    Ok(())
}
