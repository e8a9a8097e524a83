//! The doors of a service, over the journal that the words name.
ghost use Rattle.std.specs.Prelude.{◌≡◌, ◌≤◌, ℕ, List, vec_len};
ghost use Rattle.outside.specs.Ends.{Incoming, Outgoing};
ghost use Rattle.rdb_program.specs.Configured.{Accepts};
ghost use Rattle.rdb_program.specs.Run.{DoesHere, disk_end};
ghost use Rattle.rdb_program.specs.Words.{IsServeWords};

use crate::ending::Ending;
use crate::run::{Lent, open_journal, read_policy};
use disks::Disk;
use doors::Door;
use outside::{Clock, Sink, Source};
use permissions::Policy;
use serve_runs::{Office, Returned, serve_all};
use std::alloc::Global;
use std::sync::Wait;
use std::thread::Threads;

/// What a service is lent, and gives back.
#[derive(Drop)]
pub(crate) struct Service<A, D, C> {
    pub(crate) doors: Vec<A>,
    pub(crate) lent: Lent<D, C>,
}

/// Opens the journal, and serves the doors under a policy.
fn serve_over<R: Threads + Wait + Sync, O: Sink, A, D, C>(
    rt: &R,
    alloc: Global,
    policy: &Policy,
    output: &mut O,
    service: Service<A, D, C>,
) -> (Ending, Service<A, D, C>)
where
    A: Door + Drop + Send,
    A::L: Send,
    D: Disk + Drop + Send,
    C: Clock + Drop + Send,
    requires { vec_len service.doors ≤ 64 }
    ensures { (words : List (List ℕ)) (before after input : Incoming) → IsServeWords words
        → Accepts before policy.now after → DoesHere
        (record { tells = A.tells; ends = A.L.ends; holds = A.L.holds }) result.0 words
        (record {
          config = before;
          ends = record { incoming = input; outgoing = O.ends output.old };
          disk = disk_end D.told D.faults service.lent.disk;
        })
        (C.tells (C.state service.lent.clock)) service.doors.items
        (record {
          config = after;
          ends = record { incoming = input; outgoing = O.ends output.new };
          disk = disk_end D.told D.faults result.1.lent.disk;
        })
        (C.tells (C.state result.1.lent.clock)) result.1.doors.items }
{
    let Service {
        doors,
        lent: Lent { disk, clock },
    } = service;
    match open_journal(alloc, disk) {
        Ok(book) => {
            let office = Office { doors, book, clock };
            let (ending, returned) = serve_all(rt, alloc, policy, office, output);
            let Returned { doors, disk, clock } = returned;
            let lent = Lent { disk, clock };
            (Ending::DoorsServed(ending), Service { doors, lent })
        }
        Err((ending, disk)) => {
            let lent = Lent { disk, clock };
            (ending, Service { doors, lent })
        }
    }
}

/// Serves the doors under the policy of the configuration.
pub(crate) fn serve_doors<R: Threads + Wait + Sync, I: Source, O: Sink, A, D, C>(
    rt: &R,
    alloc: Global,
    config: &mut I,
    output: &mut O,
    service: Service<A, D, C>,
) -> (Ending, Service<A, D, C>)
where
    A: Door + Drop + Send,
    A::L: Send,
    D: Disk + Drop + Send,
    C: Clock + Drop + Send,
    requires { vec_len service.doors ≤ 64 }
    ensures { (words : List (List ℕ)) (input : Incoming) → IsServeWords words → DoesHere
        (record { tells = A.tells; ends = A.L.ends; holds = A.L.holds }) result.0 words
        (record {
          config = I.ends config.old;
          ends = record { incoming = input; outgoing = O.ends output.old };
          disk = disk_end D.told D.faults service.lent.disk;
        })
        (C.tells (C.state service.lent.clock)) service.doors.items
        (record {
          config = I.ends config.new;
          ends = record { incoming = input; outgoing = O.ends output.new };
          disk = disk_end D.told D.faults result.1.lent.disk;
        })
        (C.tells (C.state result.1.lent.clock)) result.1.doors.items }
{
    match read_policy(alloc, config) {
        Ok(policy) => serve_over(rt, alloc, &policy, output, service),
        Err(ending) => (ending, service),
    }
}
