//! Requests that are asked of a teller one after the other.
ghost use Rattle.std.specs.Prelude.{◌≡◌, List, [], ◌∷◌, ◌++◌, MatchResult};
ghost use Rattle.call_forms.specs.declared.forms.Standin.{Standin as StandinOf};
ghost use Rattle.call_forms.specs.declared.forms.Told.TheVariants.{Made, Standin as Instead};
ghost use Rattle.tellers.specs.Exchange.{Exchange, StandsForSome};
ghost use Rattle.workload_turns.specs.Courses.{Advances, Asks};
ghost use Rattle.workload_turns.specs.Stops.{stop_of};
ghost use Rattle.workload_turns.specs.Tallies.{Counts};

use crate::stops::Stop;
use crate::tally::Tally;
use tellers::Teller;
use workload_plans::{Answer, Asked, Told};

/// Asks one request, and counts it.
pub(crate) fn ask<T: Teller>(
    teller: &mut T,
    tally: &mut Tally,
    asked: &Asked,
) -> Result<Answer, Stop>
    requires { StandsForSome T.stands teller.old }
    ensures advances { MatchResult result
        (λ answer. Advances T.stands teller.old
        (record { asked = asked.now; told = Made answer } ∷ []) teller.new)
        (λ stop. (standin : StandinOf) × (stop ≡ stop_of standin)
        × Advances T.stands teller.old
        (record { asked = asked.now; told = Instead standin } ∷ []) teller.new) }
    ensures counts { Counts tally.old 1 [] tally.new }
    ensures stands { StandsForSome T.stands teller.new }
    ensures holds { T.holds teller.new ≡ T.holds teller.old }
{
    let told = teller.tell(asked);
    tally.count_request();
    match told {
        Told::Made(answer) => Ok(answer),
        Told::Standin(standin) => Err(Stop::of(standin)),
    }
}

/// Asks requests in order, up to one in place of whose answer a stand-in is told.
pub(crate) fn ask_all<T: Teller>(
    teller: &mut T,
    tally: &mut Tally,
    requests: &[Asked],
) -> Result<(), Stop>
    requires { StandsForSome T.stands teller.old }
    ensures asks { Asks T.stands teller.old tally.old requests.now result teller.new tally.new }
    ensures stands { StandsForSome T.stands teller.new }
    ensures holds { T.holds teller.new ≡ T.holds teller.old }
{
    for asked in requests {
        if let Err(stop) = ask(teller, tally, asked) {
            return Err(stop);
        }
    }
    Ok(())
}
