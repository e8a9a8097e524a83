//! The doors of a service are served.
ghost use Rattle.std.specs.Prelude.{◌≡◌, ◌<◌, ◌≤◌, [], None, List, All, map, vec_len, vec_capacity};
ghost use Rattle.std.specs.Prelude.{IfOk, IfErr, IfSome, IfNone};
ghost use Rattle.std.specs.List.{AllZip};
ghost use Rattle.service_desk.specs.ServiceCore.CoreState.{world_in};
ghost use Rattle.service_desk.specs.ServiceCore.History.{Entry};
ghost use Rattle.service_desk.specs.ServiceCore.Service.{service_of};
ghost use Rattle.service_desk.specs.ServiceMachine.Machines.{Plays};
ghost use Rattle.service_desk.specs.RecordDesk.Standing.{HasRecorded};
ghost use Rattle.turnstile.specs.Seats.{IsWhole, first_known};
ghost use Rattle.door_workers.specs.Workers.{IsWorked, worker_of};
ghost use Rattle.door_workers.specs.declared.worker.Worked.{Worked};
ghost use Rattle.service_desk.specs.Shelves.{IsOpened};
ghost use Rattle.tellers.specs.Exchange.{StandsForSome};
ghost use Rattle.served_desk.specs.Posts.{ServesDoors, sum_of};
ghost use Rattle.served_desk.specs.Histories.{WentThrough};

use crate::Office;
use crate::joining::gathered;
use crate::staff::workers_of;
use crate::sums::summed;
use disks::Disk;
use door_workers::{Tally, Worker, serve_doors};
use doors::Door;
use outside::Clock;
use service_desk::{Desk, Policy, Shelf};
use std::alloc::Global;
use std::sync::Wait;
use std::thread::Threads;
use tellers::Teller;
use turnstile::Seat;

/// What is left when the doors were served: the doors, a seat that all others were joined into, and
/// what was counted. Where nothing was counted no door was asked.
#[derive(Drop)]
struct Attended<A, D: Disk, C: Clock> {
    doors: Vec<A>,
    seat: Seat<Shelf<D, C>>,
    sum: Option<Tally>,
}

/// No door was asked.
fn unasked<A, D: Disk, C: Clock>(doors: Vec<A>, seat: Seat<Shelf<D, C>>) -> Attended<A, D, C>
    ensures doors { result.doors ≡ doors }
    ensures seat { (result.seat.table ≡ seat.table) × (result.seat.knows ≡ seat.knows) }
    ensures sum { result.sum ≡ None }
{
    Attended {
        doors,
        seat,
        sum: None,
    }
}

/// Serves the doors of all workers. Nothing is counted where no door was asked, for want of memory.
fn work<R: Threads + Wait + Sync, A: Door + Drop + Send, T: Teller + Drop + Send>(
    rt: &R,
    alloc: Global,
    room: Vec<Worker<A, T>>,
    workers: Vec<Worker<A, T>>,
) -> (Vec<Worker<A, T>>, Option<Tally>)
where
    A::L: Send,
    requires stands { All (λ worker. StandsForSome T.stands worker.teller) workers.items }
    requires room { (room.items ≡ []) × (vec_len workers ≤ vec_capacity room) }
    ensures worked { IfSome result.1 (λ sum. (worked : List (Worked A T))
        × AllZip (IsWorked A.tells A.L.ends A.L.holds T.stands T.holds) workers.items worked
        × (result.0.items ≡ map worker_of worked)
        × (sum ≡ sum_of (map (λ w. w.tally) worked))) }
    ensures unasked { IfNone result.1 (result.0.items ≡ workers.items) }
{
    match serve_doors(rt, alloc, workers) {
        Ok(worked) => {
            let (workers, sum) = summed(room, worked);
            (workers, Some(sum))
        }
        Err(workers) => (workers, None),
    }
}

/// Has a worker for each door, which serves it, and joins their seats.
fn attend<R: Threads + Wait + Sync, A, D, C>(
    rt: &R,
    alloc: Global,
    desk: &Desk<'_, D, C>,
    first: Seat<Shelf<D, C>>,
    doors: Vec<A>,
) -> Attended<A, D, C>
where
    A: Door + Drop + Send,
    A::L: Send,
    D: Disk + Drop + Send,
    C: Clock + Drop + Send,
    requires own { (first.table ≡ desk.now.table) × (first.knows ≡ first_known) }
    requires some { (0 < vec_len doors) × (vec_len doors ≤ 64) }
    ensures own { result.seat.table ≡ desk.now.table }
    ensures served { IfSome result.sum (λ sum. (log : List Entry)
        → IsWhole (λ e. e.seat) result.seat.knows log
        → ServesDoors A.tells A.L.ends A.L.holds log doors.items sum result.doors.items) }
    ensures unasked { IfNone result.sum ((result.doors.items ≡ doors.items)
        × ((log : List Entry) → IsWhole (λ e. e.seat) result.seat.knows log → log ≡ [])) }
{
    let Ok(room) = Vec::with_capacity(alloc, doors.len()) else {
        return unasked(doors, first);
    };
    let Ok(back) = Vec::with_capacity(alloc, doors.len()) else {
        return unasked(doors, first);
    };
    match workers_of(rt, alloc, desk, first, doors) {
        Ok(workers) => {
            let (workers, sum) = work(rt, alloc, room, workers);
            let (doors, seat) = gathered(desk, back, workers);
            Attended { doors, seat, sum }
        }
        Err((seat, doors)) => unasked(doors, seat),
    }
}

/// Serves the doors at a desk, and closes it.
fn serve_at<R: Threads + Wait + Sync, A, D, C>(
    rt: &R,
    alloc: Global,
    desk: Desk<'_, D, C>,
    first: Seat<Shelf<D, C>>,
    doors: Vec<A>,
) -> Result<(Office<A, D, C>, Tally), Office<A, D, C>>
where
    A: Door + Drop + Send,
    A::L: Send,
    D: Disk + Drop + Send,
    C: Clock + Drop + Send,
    requires own { (first.table ≡ desk.table) × (first.knows ≡ first_known) }
    requires some { (0 < vec_len doors) × (vec_len doors ≤ 64) }
    ensures served { IfOk result (λ r. (log : List Entry)
        × WentThrough D.told D.faults (λ clock. C.tells (C.state clock)) desk.entry.start log
        (world_in r.0.book.machine.core) r.0.clock r.0.book.journal
        × ServesDoors A.tells A.L.ends A.L.holds log doors.items r.1 r.0.doors.items) }
    ensures memory { IfErr result (λ back. (back.doors.items ≡ doors.items)
        × WentThrough D.told D.faults (λ clock. C.tells (C.state clock)) desk.entry.start []
        (world_in back.book.machine.core) back.clock back.book.journal) }
{
    let Attended { doors, seat, sum } = attend(rt, alloc, &desk, first, doors);
    let Shelf {
        policy: _,
        book,
        clock,
        entries: _,
    } = desk.close(rt, seat);
    let office = Office { doors, book, clock };
    match sum {
        Some(sum) => Ok((office, sum)),
        None => Err(office),
    }
}

/// Serves every link that comes in at the doors, of which there are at most 64, each door by a
/// worker of its own, until no door has one left. All take turns at a desk over the book.
///
/// Answers the sums of what the workers counted. `Err` where there is no memory for the work: no
/// door was asked, and nothing was recorded. It waits for links, and for turns.
pub fn serve_office<R: Threads + Wait + Sync, A, D, C>(
    rt: &R,
    alloc: Global,
    policy: &Policy,
    office: Office<A, D, C>,
) -> Result<(Office<A, D, C>, Tally), Office<A, D, C>>
where
    A: Door + Drop + Send,
    A::L: Send,
    D: Disk + Drop + Send,
    C: Clock + Drop + Send,
    requires opened { IsOpened D.told (world_in office.book.machine.core) office.book.journal }
    requires few { vec_len office.doors ≤ 64 }

    // One history of all calls led from the book and the clock to those that come back, and the
    // calls at each door are those of its number in it.
    ensures served { IfOk result (λ r. (log : List Entry)
        × HasRecorded D.told D.faults Plays
        (service_of (record { policy = policy.now }) (world_in office.book.machine.core))
        (C.tells (C.state office.clock)) office.book.journal log
        (service_of (record { policy = policy.now }) (world_in r.0.book.machine.core))
        (C.tells (C.state r.0.clock)) r.0.book.journal
        × ServesDoors A.tells A.L.ends A.L.holds log office.doors.items r.1 r.0.doors.items) }

    // Where no door was asked the history has no entry.
    ensures memory { IfErr result (λ back. (back.doors.items ≡ office.doors.items)
        × HasRecorded D.told D.faults Plays
        (service_of (record { policy = policy.now }) (world_in office.book.machine.core))
        (C.tells (C.state office.clock)) office.book.journal []
        (service_of (record { policy = policy.now }) (world_in back.book.machine.core))
        (C.tells (C.state back.clock)) back.book.journal) }
{
    if office.doors.is_empty() {
        return Ok((office, Tally::new()));
    }
    let Office { doors, book, clock } = office;
    match Desk::begin(alloc, policy, book, clock) {
        Ok((desk, first)) => serve_at(rt, alloc, desk, first, doors),
        Err(shelf) => {
            let Shelf {
                policy: _,
                book,
                clock,
                entries: _,
            } = shelf;
            Err(Office { doors, book, clock })
        }
    }
}
