//! Callers in threads of their own, and numbers of seats.
ghost use Rattle.std.specs.Prelude.{◌≡◌, ℕ, ◌+◌, ◌<◌, ◌≤◌, All, IfOk, IfSome, length};

use crate::{Call, Held, Seat, Turnstile};
use std::alloc::{AllocError, Global};
use std::sync::Wait;
use std::test::Fail;
use std::thread;
use std::thread::Threads;

/// A number of calls. Each entry of its history is the number of the seat that called.
#[derive(Drop)]
struct Tally {
    made: u64,
}

impl Held for Tally {
    type Start = ();

    type Entry = u64;

    ghost stands = { λ tally start log. tally.made ≡ length log };

    ghost by = { λ e. e };

    ghost entries = { λ tally. tally.made };

    ghost start = { λ tally. tt };

    ghost counts = { λ tally start log stands. stands };

    ghost begins = { λ tally none. none };
}

/// Answers how many calls were made before.
#[derive(Drop)]
struct Next;

impl Call<Tally> for Next {
    type Answer = u64;

    ghost suits = { λ call start. Unit {0} };

    ghost may = { λ call log e answer. answer ≡ length log };

    fn run(self, held: &mut Tally, _seat_number: u64) -> u64 {
        let before = held.made;
        held.made = before + 1;
        before
    }
}

/// Two turns of one seat: the second call finds what the first one did.
fn twice<R: Wait>(rt: &R, gate: &Turnstile<Tally>, seat: &mut Seat<Tally>) -> Option<(u64, u64)>
    requires { seat.old.table ≡ gate.now.table }
    ensures own { seat.new.table ≡ seat.old.table }
    ensures rises { IfSome result (λ r. r.0 < r.1) }
{
    let first = gate.turn(rt, seat, Next);
    let second = gate.turn(rt, seat, Next);
    Some((first.ok()?, second.ok()?))
}

/// A caller, and the last answer that it got, if each answer was greater than the one before.
#[derive(Drop)]
struct Caller {
    seat: Seat<Tally>,
    turns: u64,
    last: Option<u64>,
}

fn take_turns<R: Wait>(rt: &R, gate: &Turnstile<Tally>, caller: &mut Caller)
    requires { caller.old.seat.table ≡ gate.now.table }
    ensures { caller.new.seat.table ≡ gate.now.table }
{
    for _ in 0..caller.turns {
        let Ok(answer) = gate.turn(rt, &mut caller.seat, Next) else {
            caller.last = None;
            return;
        };
        if caller.last.is_some_and(|before| answer <= before) {
            return;
        }
        caller.last = Some(answer);
    }
}

fn at_seat(seat: Seat<Tally>, turns: u64) -> Caller
    ensures { result.seat.table ≡ seat.table }
{
    Caller {
        seat,
        turns,
        last: None,
    }
}

/// So many callers, each with a seat of its own.
fn callers(
    alloc: Global,
    gate: &Turnstile<Tally>,
    first: &mut Seat<Tally>,
    count: u64,
    turns: u64,
) -> Result<Vec<Caller>, AllocError>
    requires own { first.old.table ≡ gate.now.table }
    requires some { (count < 1000) × (first.old.knows.splits ≡ 4294967296) }
    ensures own { first.new.table ≡ first.old.table }
    ensures all { IfOk result (λ v. All (λ c. c.seat.table ≡ gate.now.table) v.items) }
{
    let mut all = Vec::new(alloc);
    for _ in 0..count {
        all.push(at_seat(gate.split(first), turns))?;
    }
    Ok(all)
}

/// Each caller in a thread of its own.
fn take_all<R: Threads + Wait + Sync>(rt: &R, gate: &Turnstile<Tally>, callers: &mut [Caller])
    requires { All (λ c. c.seat.table ≡ gate.now.table) callers.old }
    ensures { All (λ c. c.seat.table ≡ gate.now.table) callers.new }
{
    let count = callers.len().max(1);
    thread::for_each_mut(
        rt,
        callers,
        count,
        &|_, caller| take_turns(rt, gate, caller),
    );
}

/// Joins all seats into the first one, and answers the greatest of the last answers, where each
/// caller has one.
fn join_all(
    gate: &Turnstile<Tally>,
    first: &mut Seat<Tally>,
    mut callers: Vec<Caller>,
) -> Option<u64>
    requires own { first.old.table ≡ gate.now.table }
    requires all { All (λ c. c.seat.table ≡ gate.now.table) callers.items }
    ensures own { first.new.table ≡ first.old.table }
{
    let mut greatest = Some(0);
    while let Some(Caller { seat, last, .. }) = callers.pop() {
        gate.join(first, seat);
        greatest = match (greatest, last) {
            (Some(a), Some(b)) => Some(a.max(b)),
            _ => None,
        };
    }
    greatest
}

#[test]
fn each_turn_counts_once(rt: HostRuntime) -> Result<(), Fail> {
    for (threads, turns) in [(1, 3), (2, 100), (64, 5), (100, 2)] {
        let Ok((gate, mut first)) = Turnstile::begin(rt.alloc(), Tally { made: 0 }) else {
            return Err(Fail::from("no memory"));
        };
        let mut all = callers(rt.alloc(), &gate, &mut first, threads, turns)?;
        take_all(&rt, &gate, all.as_mut_slice());
        let greatest = join_all(&gate, &mut first, all);
        let tally = gate.close(&rt, first);
        assert!(rt; greatest == Some(threads * turns - 1) && tally.made == threads * turns);
    }
    Ok(())
}

#[test]
fn seats_have_the_next_numbers_and_see_their_own_turns(rt: HostRuntime) -> Result<(), Fail> {
    let Ok((gate, mut first)) = Turnstile::begin(rt.alloc(), Tally { made: 0 }) else {
        return Err(Fail::from("no memory"));
    };
    let one = gate.split(&mut first);
    let two = gate.split(&mut first);
    assert!(rt; [first.number(), one.number(), two.number()] == [0, 1, 2]);
    gate.join(&mut first, one);
    gate.join(&mut first, two);
    let mut three = gate.split(&mut first);
    let answers = twice(&rt, &gate, &mut three);
    assert!(rt; three.number() == 3 && answers == Some((0, 1)));
    assert!(rt; gate.close(&rt, three).made == 2);
    Ok(())
}
