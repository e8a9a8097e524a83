//! Clerks at one desk, whose seats are split off one seat and joined into it again.
ghost use Rattle.std.specs.Prelude.{◌≡◌, ◌+◌, ◌≤◌, List, IfOk, vec_len, length};
ghost use Rattle.service_desk.specs.ServiceCore.History.{Entry};
ghost use Rattle.service_desk.specs.Shelves.{Led};
ghost use Rattle.turnstile.specs.Seats.{first_known};
ghost use Rattle.desk_trial.specs.Seats.{EachFrom, HadTurns, IsAllOf, Sits, StandBelow};
ghost use Rattle.desk_trial.specs.Seats.{first_after};

use disks::Disk;
use outside::Clock;
use service_desk::{Clerk, Desk, Shelf};
use std::alloc::{AllocError, Global};
use std::sync::Wait;
use std::thread::Threads;
use trial_callers::{Caller, Heard, Task, Work, ask_all};
use turnstile::Seat;

/// A caller whose calls are asked at a desk.
type DeskCaller<'a, 'p, R, D, C> = Caller<Clerk<'a, 'p, R, D, C>>;

/// A caller that asks by a clerk with this seat.
fn caller<'a, 'p, R: Wait, D: Disk + Drop, C: Clock + Drop>(
    rt: &'a R,
    alloc: Global,
    desk: &'a Desk<'p, D, C>,
    seat: Seat<Shelf<D, C>>,
    task: Task,
) -> DeskCaller<'a, 'p, R, D, C>
    ensures desk { result.teller.desk.now ≡ desk.now }
    ensures seat { (result.teller.seat.table ≡ seat.table)
        × (result.teller.seat.knows ≡ seat.knows) }
{
    let teller = Clerk {
        rt,
        desk,
        seat,
        alloc,
    };
    Caller::new(teller, task)
}

/// The callers, with seats that are split off the first one.
fn callers_at<'a, 'p, R: Wait, D: Disk + Drop, C: Clock + Drop>(
    rt: &'a R,
    alloc: Global,
    desk: &'a Desk<'p, D, C>,
    first: &mut Seat<Shelf<D, C>>,
    work: Work,
) -> Result<Vec<DeskCaller<'a, 'p, R, D, C>>, AllocError>
    requires { (first.old.table ≡ desk.now.table) × (first.old.knows ≡ first_known) }
    ensures own { first.new.table ≡ desk.now.table }
    ensures count { IfOk result (λ callers. (vec_len callers ≤ 1000)
        × (first.new.knows ≡ first_after (vec_len callers))) }
    ensures seats { IfOk result (λ callers. EachFrom
        (λ n c. Sits desk.now desk.now.table n c.teller.desk.now c.teller.seat) 1
        callers.items) }
{
    let mut callers = Vec::with_capacity(alloc, work.seats() as usize)?;
    for number in 0..work.seats() {
        let seat = desk.split(first);
        callers.push_reserved(caller(rt, alloc, desk, seat, work.task(number)));
    }
    Ok(callers)
}

/// Joins the seats of callers into the first one, and adds up what they counted.
fn joined<R: Wait, D: Disk + Drop, C: Clock + Drop>(
    desk: &Desk<'_, D, C>,
    first: &mut Seat<Shelf<D, C>>,
    callers: Vec<DeskCaller<'_, '_, R, D, C>>,
) -> Heard
    requires own { first.old.table ≡ desk.now.table }
    requires none { StandBelow 1 0 first.old.knows }
    requires few { vec_len callers ≤ 1000 }
    requires had { EachFrom (λ n c. HadTurns desk.now.table n c.heard.turns c.heard.calls
        c.teller.seat) 1 callers.items }
    ensures own { first.new.table ≡ desk.now.table }
    ensures number { (first.new.knows.number ≡ first.old.knows.number)
        × (first.new.knows.splits ≡ first.old.knows.splits) }
    ensures stand { StandBelow (1 + vec_len callers.entry) result.turns first.new.knows }
{
    let mut sum = Heard::nothing();
    for Caller { teller, heard, .. } in callers {
        let Clerk { seat, .. } = teller;
        desk.join(first, seat);
        sum = sum.with(heard);
    }
    sum
}

/// Callers ask a desk, each in a thread of its own.
fn ask_at<R: Threads + Wait + Sync, D, C>(
    rt: &R,
    alloc: Global,
    desk: &Desk<'_, D, C>,
    first: &mut Seat<Shelf<D, C>>,
    work: Work,
) -> Result<Heard, AllocError>
where
    D: Disk + Drop + Send,
    C: Clock + Drop + Send,
    requires { (first.old.table ≡ desk.now.table) × (first.old.knows ≡ first_known) }
    ensures own { first.new.table ≡ desk.now.table }
    ensures stand { IfOk result (λ heard. IsAllOf heard.turns first.new.knows) }
{
    let callers = callers_at(rt, alloc, desk, first, work)?;
    let asked = ask_all(rt, alloc, callers);
    Ok(joined(desk, first, asked))
}

/// Callers ask a desk, each in a thread of its own, and it is closed. `Err` for want of memory.
///
/// The shelf that comes back counts just the turns that the callers counted.
pub fn ask_desk<R: Threads + Wait + Sync, D, C>(
    rt: &R,
    alloc: Global,
    desk: Desk<'_, D, C>,
    first: Seat<Shelf<D, C>>,
    work: Work,
) -> (Shelf<D, C>, Result<Heard, AllocError>)
where
    D: Disk + Drop + Send,
    C: Clock + Drop + Send,
    requires { (first.table ≡ desk.table) × (first.knows ≡ first_known) }
    ensures { (log : List Entry)
        × Led D.told D.faults (λ clock. C.tells (C.state clock)) desk.entry.start log result.0
        × (result.0.entries ≡ length log)
        × IfOk result.1 (λ heard. heard.turns ≡ length log) }
{
    let mut first = first;
    let heard = ask_at(rt, alloc, &desk, &mut first, work);
    (desk.close(rt, first), heard)
}
