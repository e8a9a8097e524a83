//! What all workers counted.
ghost use Rattle.std.specs.Prelude.{◌≡◌, ◌+◌, ◌≤◌, ◌||◌, [], map, vec_len, vec_capacity};
ghost use Rattle.door_workers.specs.Tallies.{up_to_most};
ghost use Rattle.door_workers.specs.Workers.{worker_of};
ghost use Rattle.served_desk.specs.Posts.{sum_of};

use door_workers::{Tally, Worked, Worker};

/// Two tallies as one.
fn added(one: Tally, other: Tally) -> Tally
    ensures { result ≡ record {
      connections = up_to_most (one.connections + other.connections);
      calls = up_to_most (one.calls + other.calls);
      failed = one.failed || other.failed;
    } }
{
    Tally {
        connections: one.connections.saturating_add(other.connections),
        calls: one.calls.saturating_add(other.calls),
        failed: one.failed || other.failed,
    }
}

/// The workers without what they counted, and the sum of that.
pub(crate) fn summed<A: Drop, T: Drop>(
    room: Vec<Worker<A, T>>,
    worked: Vec<Worked<A, T>>,
) -> (Vec<Worker<A, T>>, Tally)
    requires { (room.items ≡ []) × (vec_len worked ≤ vec_capacity room) }
    ensures workers { result.0.items ≡ map worker_of worked.items }
    ensures sum { result.1 ≡ sum_of (map (λ w. w.tally) worked.items) }
{
    let mut workers = room;
    let mut sum = Tally::new();
    for Worked {
        door,
        teller,
        tally,
    } in worked {
        workers.push_reserved(Worker { door, teller });
        sum = added(sum, tally);
    }
    (workers, sum)
}
