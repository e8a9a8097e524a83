//! Requests that were recorded, as they are judged again.
ghost use Rattle.std.specs.Prelude.{◌≡◌, MatchBool};
ghost use Rattle.request_rules.specs.Again.{IsRight};
ghost use Rattle.request_rules.specs.Held.{Held};
ghost use Rattle.request_demands.specs.Demands.{demand_of};
ghost use Rattle.request_rules.specs.Locating.{located};

use crate::judging::{deadline_range, itself, not_active, not_found, taken, too_many};
use crate::locating::Located;
use invocations::Table;
use names_realms::Moment;
use request_demands::{Demand, Request, demand_of};

/// Whether a demand breaks none of the rules that are asked again.
fn breaks_none(table: &Table, moment: Moment, places: &Located, demand: &Demand) -> bool
    requires { (held : Held)
        × (places.now ≡ located table.now.rows held demand.now) }
    ensures { (held : Held) → places.now ≡ located table.now.rows held demand.now
        → MatchBool result (IsRight table.now.rows held moment demand.now)
        (¬ IsRight table.now.rows held moment demand.now) }
{
    if not_found(places, demand).is_some() {
        return false;
    }
    if not_active(table, places, demand).is_some() {
        return false;
    }
    if deadline_range(moment, demand).is_some() {
        return false;
    }
    if itself(demand).is_some() {
        return false;
    }
    if too_many(demand).is_some() {
        return false;
    }
    taken(places, demand).is_none()
}

/// Whether a request breaks none of the rules that are asked again of one that was recorded, but
/// for that of its number. It takes no memory.
pub fn is_right(table: &Table, moment: Moment, places: &Located, request: &Request) -> bool
    requires { (held : Held)
        × (places.now ≡ located table.now.rows held (demand_of request.now)) }
    ensures { (held : Held)
        → places.now ≡ located table.now.rows held (demand_of request.now)
        → MatchBool result (IsRight table.now.rows held moment (demand_of request.now))
        (¬ IsRight table.now.rows held moment (demand_of request.now)) }
{
    breaks_none(table, moment, places, &demand_of(request))
}
