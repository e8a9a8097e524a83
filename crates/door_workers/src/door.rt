//! One worker at its door.
ghost use Rattle.std.specs.Prelude.{◌≡◌, [], ◌++◌, List};
ghost use Rattle.tellers.specs.Exchange.{Exchange, StandsForSome};
ghost use Rattle.door_workers.specs.Steps.{ServesNext};
ghost use Rattle.door_workers.specs.Work.{ServesDoor};
ghost use Rattle.door_workers.specs.Workers.{WasAsked};

use crate::Tally;
use doors::Door;
use http_workers::serve_connection;
use outside::Failed;
use std::alloc::Global;
use std::sync::Wait;
use tellers::Teller;

/// Serves the next link of a door, and gives it back. Answers how many calls were made on it, or
/// None where there is no link.
fn serve_next<A: Door, T: Teller>(
    alloc: Global,
    door: &mut A,
    teller: &mut T,
) -> Result<Option<u64>, Failed>
    requires { StandsForSome T.stands teller.old }
    ensures serves { ServesNext A.L.ends A.L.holds (WasAsked T.stands teller.old teller.new)
        (A.tells door.old) result (A.tells door.new) }
    ensures holds { T.holds teller.new ≡ T.holds teller.old }
    ensures stands { StandsForSome T.stands teller.new }
{
    match door.accept()? {
        Some(mut link) => {
            let ended = serve_connection(alloc, teller, &mut link);
            door.give_back(link);
            Ok(Some(ended.calls))
        }
        None => Ok(None),
    }
}

/// Serves link after link of a door, and gives each back, until there is none, or a call for one
/// fails.
///
/// A link that fails ends neither the door nor the work. It may wait for a link, and for what the
/// teller waits for. The teller stands for what it was asked before, as a new one stands for
/// nothing.
pub fn serve_door<R: Wait, A: Door, T: Teller>(
    rt: &R,
    alloc: Global,
    door: &mut A,
    teller: &mut T,
) -> Tally
    requires { StandsForSome T.stands teller.old }
    ensures serves { ServesDoor A.L.ends A.L.holds (WasAsked T.stands teller.old teller.new)
        (A.tells door.old) result (A.tells door.new) }
    ensures holds { T.holds teller.new ≡ T.holds teller.old }
    ensures stands { StandsForSome T.stands teller.new }
{
    let mut tally = Tally::new();
    'links: for _ in rt.forever() {
        match serve_next(alloc, door, teller) {
            Ok(Some(calls)) => tally = tally.with_link(calls),
            Ok(None) => return tally,
            Err(_) => return tally.with_failure(),
        }
    }
    unreachable!()
}
