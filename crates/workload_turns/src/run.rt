//! A run of the workload.
ghost use Rattle.std.specs.Prelude.{◌≡◌, ◌++◌, List};
ghost use Rattle.tellers.specs.Exchange.{Exchange, StandsForSome};
ghost use Rattle.workload_turns.specs.Runs.{LoadRun};

use crate::changes::change_all;
use crate::pages::read_pages;
use crate::stops::Stop;
use crate::tally::Tally;
use tellers::Teller;
use workload_plans::Asking;

/// Asks the workload of a number and a count of invocations, and counts what comes: the changes,
/// and then the pages of what the last invocation reaches. Where the count is 0 these are the pages
/// of invocation 0.
///
/// What is refused is passed over, and a refused page ends the pages. `Err` where a stand-in is
/// told, or there is no memory; then nothing more is asked.
pub fn run_load<T: Teller>(
    teller: &mut T,
    asking: Asking<'_>,
    number: u64,
    count: u64,
) -> Result<Tally, Stop>
    requires { StandsForSome T.stands teller.old }
    ensures run { LoadRun
        (λ exchanges. (first : T) (before : List Exchange) → T.stands first teller.old before
        → T.stands first teller.new (before ++ exchanges))
        asking.entry.secret.now number count result }
    ensures holds { T.holds teller.new ≡ T.holds teller.old }
{
    let mut tally = Tally::nothing();
    if let Err(stop) = change_all(teller, &mut tally, asking, number, count) {
        return Err(stop);
    }
    match read_pages(teller, &mut tally, asking, count.saturating_sub(1)) {
        Ok(()) => Ok(tally),
        Err(stop) => Err(stop),
    }
}
