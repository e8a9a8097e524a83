//! The plan of a request that breaks no rule for what is demanded.
ghost use Rattle.std.specs.Prelude.{◌≡◌, ◌<◌, IfOk, IfSome, length};
ghost use Rattle.call_forms.specs.declared.asked.Asked.{Asked};
ghost use Rattle.request_effects.specs.RequestDemands.Demands.{demand_of};
ghost use Rattle.request_effects.specs.RequestDemands.Settings.{caller_name};
ghost use Rattle.request_effects.specs.RequestDemands.Understood.{IsDigested, length_for};
ghost use Rattle.service_effects.specs.Fitting.{Fits, HasRoom, IsTimely};
ghost use Rattle.request_effects.specs.Answers.{Fits as ShowsFit};
ghost use Rattle.request_effects.specs.Keeps.{kept_of};
ghost use Rattle.request_effects.specs.Places.{located_in};
ghost use Rattle.request_effects.specs.Planned.{IsSafe};
ghost use Rattle.request_effects.specs.Shows.{shows_of};
ghost use Rattle.service_effects.specs.States.{recorded_in};
ghost use Rattle.service_core.specs.Again.{IsDoneBy, IsFreeFor, IsPreparedAgain, again_of};
ghost use Rattle.service_core.specs.CoreState.{IsRoomier};
ghost use Rattle.service_core.specs.Planning.{ComesTo, IsPlaced, IsShown};

use crate::plan::{CallRecord, Plan, Prepared, Work};
use crate::serving::Core;
use call_forms::Answer;
use kept_replies::Ready;
use names_realms::Moment;
use request_effects::{
    Asker, Call, Context, Located, Numbered, Policy, Request, Showing, keep_of, numbered_of,
    plan_change, show, shows_of,
};
use service_effects::{Change, Effect, Planned, StoreFull};
use std::alloc::{AllocError, Global};

/// What was found of a call that is to be planned: where what it names stands, and what it shows.
#[derive(Clone, Copy)]
struct Found<'r> {
    places: &'r Located,
    shows: &'r Showing,
}

/// What is done and kept of a call, and how many bytes its record takes.
#[derive(Drop)]
struct Deed {
    change: Change,
    keep: Option<Ready>,
    length: u64,
}

impl Core {
    /// What is to be kept of a request of a caller of this name that has this effect, for which
    /// there is room, with all room that it takes. `Err` where there is no memory.
    pub(crate) fn ready(
        &mut self,
        alloc: Global,
        name: &[u8],
        numbered: Option<Numbered>,
        effect: &Effect,
    ) -> Result<Option<Ready>, AllocError>
        requires { HasRoom self.old.held effect.now }
        ensures roomier { IsRoomier self.old self.new }
        ensures keep { IfOk result (λ keep. keep
            ≡ kept_of (recorded_in self.old.held) name.now numbered effect.now) }
        ensures room { IfOk result (λ keep. IfSome keep (λ _. 0 < self.new.keeps.room)) }
        ensures held { self.new.held ≡ self.old.held }
    {
        let Some(reply) = keep_of(alloc, &self.tables, name, numbered, effect)? else {
            return Ok(None);
        };
        Ok(Some(self.kept.prepare(alloc, reply)?))
    }

    /// The effect, where there is place for its record, that of a call taking so many bytes; or the
    /// answer that refuses it. `Err` where there is no memory for that.
    fn placed(
        &self,
        alloc: Global,
        effect: Effect,
        length: u64,
    ) -> Result<Result<Effect, Answer>, AllocError>
        ensures { IfOk result (IsPlaced self.now.stored effect length) }
    {
        match StoreFull::of(self.stored, effect.bytes_of(length)) {
            Some(full) => Ok(Err(full.answer(alloc)?)),
            None => Ok(Ok(effect)),
        }
    }

    /// The answer that shows to a caller what a change will leave, with the change, where it is
    /// one.
    fn with_answer(
        &mut self,
        alloc: Global,
        asker: &Asker,
        deed: Deed,
        shows: &Showing,
    ) -> Result<Prepared, AllocError>
        requires there { asker.now.caller < length asker.now.policy.now.users }
        requires fits { Fits self.old.held deed.change.moment deed.change.effect }
        requires own { ShowsFit (recorded_in self.old.held) deed.change.effect shows.now }
        ensures roomier { IsRoomier self.old self.new }
        ensures shown { IfOk result (IsShown (record { policy = asker.now.policy.now })
            asker.now.caller self.old (record {
              change = deed.change;
              keep = deed.keep;
              length = deed.length;
            }) shows.now) }
    {
        let Deed {
            change,
            keep,
            length,
        } = deed;
        let answer = show(alloc, &mut self.tables, asker, &change, shows)?;
        if change.effect.is_nothing() {
            return Ok(Prepared::Answered(answer));
        }
        let work = Work::Change(change);
        let plan = Plan::new(work, keep, Some(answer), length, self.changes);
        Ok(Prepared::Change(plan))
    }

    /// What a call comes to of which this was found. `Err` where there is no memory.
    fn plan_found(
        &mut self,
        alloc: Global,
        policy: &Policy,
        moment: Moment,
        call: Call,
        found: &Found,
    ) -> Result<Prepared, AllocError>
        requires there { call.caller < length policy.now.users }
        requires places { found.now.places.now
            ≡ located_in (recorded_in self.old.held) (demand_of call.request) }
        requires shows { found.now.shows.now ≡ shows_of (recorded_in self.old.held) call.request }
        requires timely { IsTimely self.old.held.world.world moment }
        requires safe { IsSafe self.old.held.world.world moment
            (caller_name (record { policy = policy.now }) call.caller) call.request }
        ensures roomier { IsRoomier self.old self.new }
        ensures comes { (asked : Asked) → IsDigested asked (demand_of call.request) call.digest
            → call.length ≡ length_for (record { policy = policy.now }) asked call.caller
            → IfOk result (ComesTo (record { policy = policy.now }) self.new moment asked
            call.caller call.request) }
    {
        let numbered = numbered_of(alloc, &call)?;
        let caller = call.caller;
        let length = call.length;
        let name = policy.name_of(caller);
        let context = Context {
            moment,
            name,
            located: found.places,
        };
        match plan_change(alloc, &mut self.tables, &context, call.request)? {
            Planned::Refused(fault) => Ok(Prepared::Refused(fault.answer(alloc)?)),
            Planned::Ready(effect) => match self.placed(alloc, effect, length)? {
                Err(answer) => Ok(Prepared::Refused(answer)),
                Ok(effect) => {
                    let keep = self.ready(alloc, name, numbered, &effect)?;
                    let length = effect.bytes_of(length);
                    let change = Change { moment, effect };
                    let deed = Deed {
                        change,
                        keep,
                        length,
                    };
                    let asker = Asker { policy, caller };
                    self.with_answer(alloc, &asker, deed, found.shows)
                }
            },
        }
    }

    /// What a call comes to that breaks no rule for what is demanded, where the invocations that it
    /// names stand at these places. `Err` where there is no memory.
    pub(crate) fn plan(
        &mut self,
        alloc: Global,
        policy: &Policy,
        moment: Moment,
        call: Call,
        places: &Located,
    ) -> Result<Prepared, AllocError>
        requires there { call.caller < length policy.now.users }
        requires places { places.now
            ≡ located_in (recorded_in self.old.held) (demand_of call.request) }
        requires timely { IsTimely self.old.held.world.world moment }
        requires safe { IsSafe self.old.held.world.world moment
            (caller_name (record { policy = policy.now }) call.caller) call.request }
        ensures roomier { IsRoomier self.old self.new }
        ensures comes { (asked : Asked) → IsDigested asked (demand_of call.request) call.digest
            → call.length ≡ length_for (record { policy = policy.now }) asked call.caller
            → IfOk result (ComesTo (record { policy = policy.now }) self.new moment asked
            call.caller call.request) }
    {
        let shows = shows_of(alloc, &self.tables, places, &call.request)?;
        let found = Found {
            places,
            shows: &shows,
        };
        self.plan_found(alloc, policy, moment, call, &found)
    }

    /// The plan that does again what has this effect, for which there is room; none where it does
    /// nothing, or its record has no place. `Err` where there is no memory.
    fn plan_again(
        &mut self,
        alloc: Global,
        context: &Context,
        said: CallRecord,
        effect: Effect,
    ) -> Result<Option<Plan>, AllocError>
        requires fits { Fits self.old.held context.now.moment effect }
        requires free { IsFreeFor self.old.keeps.kept context.now.name.now said.numbered }
        requires some { 0 < said.length }
        ensures roomier { IsRoomier self.old self.new }
        ensures done { IfOk result (IsDoneBy self.new (record {
          moment = context.now.moment;
          name = context.now.name.now;
          numbered = said.numbered;
          length = said.length;
          effect = effect;
        })) }
    {
        if effect.is_nothing() {
            return Ok(None);
        }
        let CallRecord { numbered, length } = said;
        match StoreFull::of(self.stored, length) {
            Some(_) => Ok(None),
            None => {
                let keep = self.ready(alloc, context.name, numbered, &effect)?;
                let work = Work::Change(Change {
                    moment: context.moment,
                    effect,
                });
                Ok(Some(Plan::new(work, keep, None, length, self.changes)))
            }
        }
    }

    /// The plan that does again what a request does that was accepted before, by its caller's name
    /// and where the invocations stand that it names. It gives no answer. There is none where what
    /// the request does is refused, or is nothing, or its record has no place. It takes all the
    /// memory that the change needs, and changes nothing yet. `Err` where there is no memory.
    pub fn prepare_again(
        &mut self,
        alloc: Global,
        context: &Context,
        said: CallRecord,
        request: Request,
    ) -> Result<Option<Plan>, AllocError>
        requires timely { IsTimely self.old.held.world.world context.now.moment }
        requires safe { IsSafe self.old.held.world.world context.now.moment context.now.name.now
            request }
        requires places { context.now.located.now
            ≡ located_in (recorded_in self.old.held) (demand_of request) }
        requires free { IsFreeFor self.old.keeps.kept context.now.name.now said.numbered }
        requires some { 0 < said.length }
        ensures roomier { IsRoomier self.old self.new }
        ensures prepared { IfOk result (IsPreparedAgain self.new (again_of self.old
            context.now.moment context.now.name.now said request)) }
    {
        match plan_change(alloc, &mut self.tables, context, request)? {
            Planned::Refused(_) => Ok(None),
            Planned::Ready(effect) => self.plan_again(alloc, context, said, effect),
        }
    }
}
