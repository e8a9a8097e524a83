//! A worker for each door, with a seat of the door's number.
ghost use Rattle.std.specs.Prelude.{◌≡◌, ◌<◌, ◌≤◌, IfOk, IfErr, map, vec_len};
ghost use Rattle.std.specs.List.{AllByRecursion};
ghost use Rattle.turnstile.specs.Seats.{first_known};
ghost use Rattle.served_desk.specs.Seatings.{AreSeats};

use disks::Disk;
use door_workers::Worker;
use outside::Clock;
use service_desk::{Clerk, Desk, Shelf};
use std::alloc::Global;
use std::sync::Wait;
use turnstile::Seat;

/// A worker whose calls are asked at a desk.
pub(crate) type DeskWorker<'a, 'p, R, A, D, C> = Worker<A, Clerk<'a, 'p, R, D, C>>;

/// A worker for each door. The first one has the first seat, and the others those that are split
/// off it. For want of memory the seat and the doors come back.
pub(crate) fn workers_of<'a, 'p, R: Wait, A: Drop, D: Disk + Drop, C: Clock + Drop>(
    rt: &'a R,
    alloc: Global,
    desk: &'a Desk<'p, D, C>,
    first: Seat<Shelf<D, C>>,
    doors: Vec<A>,
) -> Result<Vec<DeskWorker<'a, 'p, R, A, D, C>>, (Seat<Shelf<D, C>>, Vec<A>)>
    requires own { (first.table ≡ desk.now.table) × (first.knows ≡ first_known) }
    requires some { (0 < vec_len doors) × (vec_len doors ≤ 64) }
    ensures doors { IfOk result (λ workers. map (λ w. w.door) workers.items ≡ doors.items) }
    ensures desk { IfOk result
        (λ workers. AllByRecursion (λ w. w.teller.desk.now ≡ desk.now) workers.items) }
    ensures seats { IfOk result (λ workers. AreSeats desk.now.table (vec_len doors) 0
        (map (λ w. w.teller.seat) workers.items)) }
    ensures memory { IfErr result (λ back. (back.0.table ≡ first.table)
        × (back.0.knows ≡ first.knows) × (back.1.items ≡ doors.items)) }
{
    let Ok(mut workers) = Vec::with_capacity(alloc, doors.len()) else {
        return Err((first, doors));
    };
    let mut doors = doors;
    let mut seat = first;
    let front = doors.remove(0);
    for door in doors {
        let split = desk.split(&mut seat);
        let teller = Clerk {
            rt,
            desk,
            seat: split,
            alloc,
        };
        workers.push_reserved(Worker { door, teller });
    }
    let teller = Clerk {
        rt,
        desk,
        seat,
        alloc,
    };
    let _ = workers.insert(
        0,
        Worker {
            door: front,
            teller,
        },
    );
    Ok(workers)
}
