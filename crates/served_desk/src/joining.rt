//! All seats as one.
ghost use Rattle.std.specs.Prelude.{◌≡◌, ◌<◌, ◌≤◌, [], map, vec_len, vec_capacity};
ghost use Rattle.std.specs.List.{AllByRecursion};
ghost use Rattle.served_desk.specs.Seatings.{JoinsAll};

use crate::staff::DeskWorker;
use disks::Disk;
use door_workers::Worker;
use outside::Clock;
use service_desk::{Clerk, Desk, Shelf};
use std::sync::Wait;
use turnstile::Seat;

/// The doors of workers, in order, and their seats, all joined into the first one.
pub(crate) fn gathered<R: Wait, A: Drop, D: Disk + Drop, C: Clock + Drop>(
    desk: &Desk<'_, D, C>,
    room: Vec<A>,
    workers: Vec<DeskWorker<'_, '_, R, A, D, C>>,
) -> (Vec<A>, Seat<Shelf<D, C>>)
    requires some { 0 < vec_len workers }
    requires room { (room.items ≡ []) × (vec_len workers ≤ vec_capacity room) }
    requires own { AllByRecursion (λ w. w.teller.seat.table ≡ desk.now.table) workers.items }
    ensures doors { result.0.items ≡ map (λ w. w.door) workers.entry.items }
    ensures own { result.1.table ≡ desk.now.table }
    ensures joined { JoinsAll (map (λ w. w.teller.seat.knows) workers.entry.items) result.1.knows }
{
    let mut workers = workers;
    let mut doors = room;
    let Worker { door, teller } = workers.remove(0);
    let Clerk { seat, .. } = teller;
    let mut first = seat;
    doors.push_reserved(door);
    for Worker { door, teller } in workers {
        let Clerk { seat, .. } = teller;
        desk.join(&mut first, seat);
        doors.push_reserved(door);
    }
    (doors, first)
}
