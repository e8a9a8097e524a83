//! The invocations of the workload, made and ended.
ghost use Rattle.std.specs.Prelude.{◌≡◌, ◌+◌, ◌∷◌, [], ℕ, map, OnOk};
ghost use Rattle.std.specs.List.{flat_map, range_with_len};
ghost use Rattle.tellers.specs.Exchange.{StandsForSome};
ghost use Rattle.workload_plans.specs.Plans.{change_asked, changes_asked, invocation_asked};
ghost use Rattle.workload_plans.specs.Requests.{finalise_request};
ghost use Rattle.workload_plans.specs.WorkloadDraws.Drawn.{first_draw, invocation_at};
ghost use Rattle.workload_plans.specs.WorkloadDraws.Draws.{state_behind};
ghost use Rattle.workload_turns.specs.Courses.{Asks};

use crate::asking::{ask, ask_all};
use crate::stops::Stop;
use crate::tally::Tally;
use tellers::Teller;
use workload_plans::{Asking, Draws};

/// Asks what is drawn for the invocation of a number.
fn make_one<T: Teller>(
    teller: &mut T,
    tally: &mut Tally,
    asking: Asking<'_>,
    draws: &mut Draws,
    number: u64,
) -> Result<(), Stop>
    requires { StandsForSome T.stands teller.old }
    ensures asks { (start : ℕ) → draws.old ≡ state_behind start (first_draw number)
        → Asks T.stands teller.old tally.old
        (invocation_asked asking.entry.secret.now number (invocation_at start number)) result
        teller.new tally.new }
    ensures draws { (start : ℕ) → draws.old ≡ state_behind start (first_draw number)
        → OnOk result (draws.new ≡ state_behind start (first_draw (number + 1))) }
    ensures stands { StandsForSome T.stands teller.new }
    ensures holds { T.holds teller.new ≡ T.holds teller.old }
{
    let drawn = draws.invocation(asking.alloc, number)?;
    let requests = asking.invocation(number, &drawn)?;
    ask_all(teller, tally, requests.as_slice())
}

/// Asks what is drawn of a number for so many invocations in turn.
fn make_all<T: Teller>(
    teller: &mut T,
    tally: &mut Tally,
    asking: Asking<'_>,
    number: u64,
    count: u64,
) -> Result<(), Stop>
    requires { StandsForSome T.stands teller.old }
    ensures asks { Asks T.stands teller.old tally.old
        (flat_map (λ i. invocation_asked asking.entry.secret.now i (invocation_at number i))
        (range_with_len 0 count)) result teller.new tally.new }
    ensures stands { StandsForSome T.stands teller.new }
    ensures holds { T.holds teller.new ≡ T.holds teller.old }
{
    let mut draws = Draws::of(number);
    for at in 0..count {
        if let Err(stop) = make_one(teller, tally, asking, &mut draws, at) {
            return Err(stop);
        }
    }
    Ok(())
}

/// Asks that the invocation of a number end.
fn end_one<T: Teller>(
    teller: &mut T,
    tally: &mut Tally,
    asking: Asking<'_>,
    number: u64,
) -> Result<(), Stop>
    requires { StandsForSome T.stands teller.old }
    ensures asks { Asks T.stands teller.old tally.old
        (change_asked asking.entry.secret.now number (finalise_request number) ∷ []) result
        teller.new tally.new }
    ensures stands { StandsForSome T.stands teller.new }
    ensures holds { T.holds teller.new ≡ T.holds teller.old }
{
    let asked = asking.end(number)?;
    match ask(teller, tally, &asked) {
        Ok(_) => Ok(()),
        Err(stop) => Err(stop),
    }
}

/// Asks that so many invocations end, in turn.
fn end_all<T: Teller>(
    teller: &mut T,
    tally: &mut Tally,
    asking: Asking<'_>,
    count: u64,
) -> Result<(), Stop>
    requires { StandsForSome T.stands teller.old }
    ensures asks { Asks T.stands teller.old tally.old
        (map (λ i. change_asked asking.entry.secret.now i (finalise_request i))
        (range_with_len 0 count)) result teller.new tally.new }
    ensures stands { StandsForSome T.stands teller.new }
    ensures holds { T.holds teller.new ≡ T.holds teller.old }
{
    for at in 0..count {
        if let Err(stop) = end_one(teller, tally, asking, at) {
            return Err(stop);
        }
    }
    Ok(())
}

/// Asks all that comes before the pages.
pub(crate) fn change_all<T: Teller>(
    teller: &mut T,
    tally: &mut Tally,
    asking: Asking<'_>,
    number: u64,
    count: u64,
) -> Result<(), Stop>
    requires { StandsForSome T.stands teller.old }
    ensures asks { Asks T.stands teller.old tally.old
        (changes_asked asking.entry.secret.now number count) result teller.new tally.new }
    ensures stands { StandsForSome T.stands teller.new }
    ensures holds { T.holds teller.new ≡ T.holds teller.old }
{
    match make_all(teller, tally, asking, number, count) {
        Ok(()) => end_all(teller, tally, asking, count),
        Err(stop) => Err(stop),
    }
}
