//! Callers, each in a thread of its own, and what they do in their turns.
ghost use Rattle.std.specs.Prelude.{◌≡◌, ℕ, ◌+◌, ◌≤◌, All, IfOk, length};

use std::alloc::{AllocError, Global};
use std::sync::Wait;
use std::thread;
use std::thread::Threads;
use std::time::{Clock, Duration};
use turnstile::{Call, Held, Seat, Turnstile};

/// How many turns were taken. Each entry of its history is the number of the seat that took one.
#[derive(Drop)]
pub struct Tally {
    made: u64,
}

impl Tally {
    /// None yet.
    pub fn new() -> Tally
        ensures { result.made ≡ 0 }
    {
        Tally { made: 0 }
    }

    /// How many there were.
    pub fn made(&self) -> u64
        ensures { result ≡ self.now.made }
    {
        self.made
    }
}

impl Held for Tally {
    type Start = ();

    type Entry = u64;

    ghost stands = { λ tally start log. tally.made ≡ length log };

    ghost by = { λ e. e };

    ghost entries = { λ tally. tally.made };

    ghost start = { λ tally. tt };

    ghost counts = { λ tally start log stands. stands };

    ghost begins = { λ tally none. none };
}

/// Stays for a while, and adds one.
#[derive(Drop)]
struct AddOne<'a, R: Clock> {
    rt: &'a R,
    stay: Duration,
}

impl<R: Clock> Call<Tally> for AddOne<'_, R> {
    type Answer = u64;

    ghost suits = { λ call start. Unit {0} };

    ghost may = { λ call log e answer. answer ≡ length log };

    fn run(self, held: &mut Tally, _seat_number: u64) -> u64 {
        if !self.stay.is_zero() {
            thread::sleep(self.rt, self.stay);
        }
        let before = held.made;
        held.made = before + 1;
        before
    }
}

/// A caller's seat. The first caller stays in its first turn.
#[derive(Drop)]
pub struct Caller {
    seat: Seat<Tally>,
    is_first: bool,
}

fn take_turns<R: Wait + Clock>(
    rt: &R,
    gate: &Turnstile<Tally>,
    caller: &mut Caller,
    turns: u64,
    stay: Duration,
)
    requires { caller.old.seat.table ≡ gate.now.table }
    ensures { caller.new.seat.table ≡ gate.now.table }
{
    let is_first = caller.is_first;
    if !is_first {
        thread::sleep(rt, stay / 4);
    }
    for turn in 0..turns {
        let stay = if is_first && turn == 0 {
            stay
        } else {
            Duration::ZERO
        };
        let _ = gate.turn(rt, &mut caller.seat, AddOne { rt, stay });
    }
}

fn at_seat(seat: Seat<Tally>, is_first: bool) -> Caller
    ensures { result.seat.table ≡ seat.table }
{
    Caller { seat, is_first }
}

/// So many callers, each with a seat of its own.
pub fn callers(
    alloc: Global,
    gate: &Turnstile<Tally>,
    first: &mut Seat<Tally>,
    count: u64,
) -> Result<Vec<Caller>, AllocError>
    requires own { first.old.table ≡ gate.now.table }
    requires some { (count ≤ 1000) × (first.old.knows.splits ≡ 4294967296) }
    ensures own { first.new.table ≡ first.old.table }
    ensures all { IfOk result (λ v. All (λ c. c.seat.table ≡ gate.now.table) v.items) }
{
    let mut all = Vec::new(alloc);
    for number in 0..count {
        all.push(at_seat(gate.split(first), number == 0))?;
    }
    Ok(all)
}

/// Each caller takes so many turns, in a thread of its own.
pub fn take_all<R: Threads + Wait + Clock + Sync>(
    rt: &R,
    gate: &Turnstile<Tally>,
    callers: &mut [Caller],
    turns: u64,
    millis: u64,
)
    requires { All (λ c. c.seat.table ≡ gate.now.table) callers.old }
    ensures { All (λ c. c.seat.table ≡ gate.now.table) callers.new }
{
    let count = callers.len().max(1);
    let stay = Duration::from_millis(millis);
    thread::for_each_mut(
        rt,
        callers,
        count,
        &|_, caller| { take_turns(rt, gate, caller, turns, stay) },
    );
}
