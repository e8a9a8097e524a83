//! Which rule a demand breaks, if any. Nothing here takes memory.
ghost use Rattle.std.specs.Prelude.{◌≡◌, ◌↔◌, ℕ, IsTrue, Contains, List, option_map};
ghost use Rattle.invocations.specs.declared.invocation.Invocation.{Invocation};
ghost use Rattle.call_forms.specs.declared.asked.Asked.{Asked};
ghost use Rattle.kept_replies.specs.declared.reply.KeptReply.{KeptReply};
ghost use Rattle.request_demands.specs.Demands.{demand_of};
ghost use Rattle.request_rules.specs.Locating.{located};
ghost use Rattle.request_rules.specs.Held.{Held};
ghost use Rattle.request_rules.specs.Broken.{IsBroken, BadUpdateToken, DeadlineRange, Denied, IsInReach, Itself};
ghost use Rattle.request_rules.specs.Broken.{NoUpdateToken, NotActive, NotFound, RequestIdReused, Taken, TooMany};
ghost use Rattle.request_demands.specs.Order.{Judges};
ghost use Rattle.request_demands.specs.Settings.{Settings, caller_name};
ghost use Rattle.request_demands.specs.Numbered.{IsNumbered};
ghost use Rattle.request_demands.specs.Understood.{IsCallOf, IsChecked};
ghost use Rattle.request_rules.specs.Breaches.{Finds, case_of, refusal_of};
ghost use Rattle.request_rules.specs.Askers.{IsAsker, MayJudge};

use crate::breaches::Breach;
use crate::holdings::Holding;
use crate::locating::{Located, first_missing, missing_artifact, missing_result, row_at};
use crate::rights::Asker;
use crate::rules::Rule;
use artifacts::ArtifactRows;
use invocations::Table;
use names_realms::{InvocationId, Moment, State};
use permissions::Policy;
use request_demands::{Call, Demand, NumberCheck, TokenCheck, demand_of};
use test_results::ResultRows;

/// Ten seconds, in microseconds.
const LEAST_LIFETIME: i64 = 10_000_000;

/// 120 hours, in microseconds.
const GREATEST_LIFETIME: i64 = 432_000_000_000;

/// How many invocations a request may name to include.
const MOST_NAMES: usize = 500;

/// The number under which another request was accepted.
fn request_id_reused<'r>(check: NumberCheck, demand: &Demand<'r>) -> Option<Breach<'r>>
    ensures { (kept : List KeptReply) (name : List ℕ) (asked : Asked)
        → IsNumbered kept name asked demand.now check
        → Finds (RequestIdReused kept name asked demand.now) result }
{
    let number = demand.number?;
    match check {
        NumberCheck::Reused => Some(Breach::RequestIdReused { number }),
        _ => None,
    }
}

/// The first invocation that is named and isn't there, or the result or the artifact where these
/// are there.
pub(crate) fn not_found<'r>(places: &Located, demand: &Demand<'r>) -> Option<Breach<'r>>
    ensures { (rows : List Invocation) (held : Held)
        → places.now ≡ located rows held demand.now
        → Finds (NotFound rows held demand.now) result }
{
    if let Some(id) = first_missing(places, demand) {
        return Some(Breach::NotFound { id });
    }
    if let Some(name) = missing_result(places, demand) {
        return Some(Breach::NoResult { name });
    }
    match missing_artifact(places, demand) {
        Some(name) => Some(Breach::NoArtifact { name }),
        None => None,
    }
}

/// The invocation that is changed without an update token.
fn no_update_token<'r>(token: TokenCheck, demand: &Demand<'r>) -> Option<Breach<'r>>
    ensures { (s : Settings) (asked : Asked) → IsChecked s asked demand.now token
        → Finds (NoUpdateToken asked demand.now) result }
{
    let id = demand.changed?;
    match token {
        TokenCheck::Missing => Some(Breach::NoUpdateToken { id }),
        _ => None,
    }
}

/// The invocation that is changed by another token than its own.
fn bad_update_token<'r>(token: TokenCheck, demand: &Demand<'r>) -> Option<Breach<'r>>
    ensures { (s : Settings) (asked : Asked) → IsChecked s asked demand.now token
        → Finds (BadUpdateToken s asked demand.now) result }
{
    let id = demand.changed?;
    match token {
        TokenCheck::Wrong => Some(Breach::BadUpdateToken { id }),
        _ => None,
    }
}

/// The first right that the caller lacks.
fn denied<'r>(
    asker: &Asker<'r>,
    table: &'r Table,
    demand: &Demand<'r>,
    places: &Located,
) -> Option<Breach<'r>>
    requires asker { IsAsker asker.now }
    requires places { (held : Held)
        × (places.now ≡ located table.now.rows held demand.now) }
    ensures { Finds (Denied asker.now.policy.now table.now.rows asker.now.caller demand.now)
        result }
{
    match asker.lacking(table, demand, places) {
        Some(lacking) => Some(Breach::Denied {
            permission: lacking.grant.named(),
            realm: lacking.realm,
        }),
        None => None,
    }
}

/// The invocation that has to be active and isn't.
pub(crate) fn not_active<'r>(
    table: &Table,
    places: &Located,
    demand: &Demand<'r>,
) -> Option<Breach<'r>>
    requires { (held : Held)
        × (places.now ≡ located table.now.rows held demand.now) }
    ensures { Finds (NotActive table.now.rows demand.now) result }
{
    let id = demand.active?;
    let state = row_at(table, places.active)?.state;
    if state == State::Active {
        return None;
    }
    Some(Breach::NotActive { id, state })
}

/// Whether a deadline is in reach of the moment of a call.
fn is_in_reach(moment: Moment, deadline: Moment) -> bool
    ensures { IsTrue result ↔ IsInReach moment deadline }
{
    let now = moment.micros();
    let end = deadline.micros();
    if end < now + LEAST_LIFETIME {
        return false;
    }
    if end > now + GREATEST_LIFETIME {
        return false;
    }
    true
}

/// The deadline that is given and isn't in reach.
pub(crate) fn deadline_range<'r>(moment: Moment, demand: &Demand<'r>) -> Option<Breach<'r>>
    ensures { Finds (DeadlineRange moment demand.now) result }
{
    let deadline = demand.deadline?;
    if is_in_reach(moment, deadline) {
        return None;
    }
    Some(Breach::DeadlineRange { deadline, moment })
}

/// Whether an id is one of these.
fn is_among(id: &InvocationId, ids: &[InvocationId]) -> bool
    ensures { IsTrue result ↔ Contains ids.now id.now }
{
    for other in ids {
        if other.as_slice() == id.as_slice() {
            return true;
        }
    }
    false
}

/// The invocation that would include itself.
pub(crate) fn itself<'r>(demand: &Demand<'r>) -> Option<Breach<'r>>
    ensures { Finds (Itself demand.now) result }
{
    let id = demand.changed?;
    if is_among(id, demand.included) {
        return Some(Breach::Itself { id });
    }
    None
}

/// How many invocations are named to be included, where they are more than may be.
pub(crate) fn too_many<'r>(demand: &Demand<'r>) -> Option<Breach<'r>>
    ensures { Finds (TooMany demand.now) result }
{
    let count = demand.included.len();
    if count > MOST_NAMES {
        return Some(Breach::TooMany { count });
    }
    None
}

/// The id that has to be free and isn't.
pub(crate) fn taken<'r>(places: &Located, demand: &Demand<'r>) -> Option<Breach<'r>>
    ensures { (rows : List Invocation) (held : Held)
        → places.now ≡ located rows held demand.now
        → Finds (Taken rows demand.now) result }
{
    let id = demand.makes?;
    places.made?;
    Some(Breach::Taken { id })
}

/// What a call is judged by: who may do what, the invocations that are there and what they hold,
/// and its moment.
#[derive(Clone, Copy)]
pub struct Situation<'r> {
    pub policy: &'r Policy,
    pub table: &'r Table,
    pub results: &'r ResultRows,
    pub artifacts: &'r ArtifactRows,
    pub moment: Moment,
    /// What was found before of the caller's rights, by `holdings_for`.
    pub holdings: &'r [Holding<'r>],
    /// Where the invocations and the rows stand that the call names.
    pub located: &'r Located,
    /// What the number of the call comes to.
    pub number: NumberCheck,
}

impl<'r> Situation<'r> {
    /// What breaks one rule, if it is broken.
    fn broken_by(&self, call: &Call, demand: &Demand<'r>, rule: Rule) -> Option<Breach<'r>>
        requires { MayJudge self.now call.now.caller demand.now }
        ensures { (kept : List KeptReply) (asked : Asked)
            → IsChecked (record { policy = self.now.policy.now }) asked demand.now call.now.token
            → IsNumbered kept (caller_name (record { policy = self.now.policy.now })
            call.now.caller) asked demand.now self.now.number
            → Finds (IsBroken (case_of self.now kept asked call.now.caller) demand.now rule)
            result }
    {
        let asker = Asker {
            policy: self.policy,
            caller: call.caller,
            holdings: self.holdings,
        };
        match rule {
            Rule::RequestIdReused => request_id_reused(self.number, demand),
            Rule::NotFound => not_found(self.located, demand),
            Rule::NoUpdateToken => no_update_token(call.token, demand),
            Rule::BadUpdateToken => bad_update_token(call.token, demand),
            Rule::Denied => denied(&asker, self.table, demand, self.located),
            Rule::NotActive => not_active(self.table, self.located, demand),
            Rule::DeadlineRange => deadline_range(self.moment, demand),
            Rule::Itself => itself(demand),
            Rule::TooMany => too_many(demand),
            Rule::Taken => taken(self.located, demand),
        }
    }

    /// The first of these rules that a demand breaks, if any.
    fn judge_demand(&self, rules: &[Rule], call: &Call, demand: &Demand<'r>) -> Option<Breach<'r>>
        requires { MayJudge self.now call.now.caller demand.now }
        ensures { (kept : List KeptReply) (asked : Asked)
            → IsChecked (record { policy = self.now.policy.now }) asked demand.now call.now.token
            → IsNumbered kept (caller_name (record { policy = self.now.policy.now })
            call.now.caller) asked demand.now self.now.number
            → Judges (IsBroken (case_of self.now kept asked call.now.caller) demand.now) rules.now
            (option_map refusal_of result) }
    {
        for rule in rules {
            if let Some(breach) = self.broken_by(call, demand, *rule) {
                return Some(breach);
            }
        }
        None
    }

    /// The first of these rules that a call breaks, if any.
    pub fn judge(&self, rules: &[Rule], call: &'r Call) -> Option<Breach<'r>>
        requires { MayJudge self.now call.now.caller (demand_of call.now.request) }
        ensures { (kept : List KeptReply) (asked : Asked)
            → IsCallOf (record { policy = self.now.policy.now }) asked call.now
            → IsNumbered kept (caller_name (record { policy = self.now.policy.now })
            call.now.caller) asked (demand_of call.now.request) self.now.number
            → Judges
            (IsBroken (case_of self.now kept asked call.now.caller) (demand_of call.now.request))
            rules.now (option_map refusal_of result) }
    {
        self.judge_demand(rules, call, &demand_of(&call.request))
    }
}
