//! The core: the world in memory, and its steps.
ghost use Rattle.std.specs.Prelude.{◌≡◌, ◌≢◌, ℕ, ◌≤ℤ◌, ◌<◌, Bool, pos, IfOk, MatchBool, None, Some, OnErr, OnOk};
ghost use Rattle.std.specs.Prelude.{length, slice_get};
ghost use Rattle.std.specs.Int.{int_min, int_max};
ghost use Rattle.kept_replies.specs.declared.reply.KeptReply.{KeptReply};
ghost use Rattle.invocation_world.specs.World.{IsCallMoment, IsValid, latest_call};
ghost use Rattle.invocation_world.specs.Advancing.{IsDueAt, IsQuiet};
ghost use Rattle.request_effects.specs.RequestDemands.Demands.{demand_of};
ghost use Rattle.request_effects.specs.Places.{located_in};
ghost use Rattle.request_effects.specs.RequestDemands.Numbered.{IsNumbered};
ghost use Rattle.request_effects.specs.RequestDemands.Settings.{caller_name};
ghost use Rattle.request_effects.specs.RequestDemands.Understood.{IsCallOf, IsUnderstood};
ghost use Rattle.service_effects.specs.Fitting.{IsTimely};
ghost use Rattle.service_core.specs.CoreState.{IsRoomier, more_changes, world_in};
ghost use Rattle.service_effects.specs.Service.{empty_service};
ghost use Rattle.service_effects.specs.States.{recorded_in};
ghost use Rattle.service_core.specs.Service.{CatchesUp};
ghost use Rattle.service_core.specs.Step.{moment_of};
ghost use Rattle.service_core.specs.Plans.{CanDo, CanKeep, Carries, Fits, IsPrepared, Works};
ghost use Rattle.request_effects.specs.Keeps.{kept_answer, with_kept};
ghost use Rattle.call_forms.specs.declared.asked.Asked.{Asked};
ghost use Rattle.service_core.specs.Judged.{IsAnswered, TellsJudged, TellsRefusal};
ghost use Rattle.service_core.specs.History.{Serves};

use crate::plan::{Plan, Prepared, Work};
use call_forms::{Answer, Standin, Told};
use invocations::Invocation;
use kept_replies::{KeptReplies, Ready};
use names_realms::Moment;
use request_effects::{
    Call, Located, NumberCheck, Policy, Rule, Situation, Understood, check_number, holdings_for,
    show_kept,
};
use service_effects::{Tables, carry_out};
use std::alloc::{AllocError, Global};
use std::marker::Model;

/// 9999-01-01T00:00:00Z
const LATEST_CALL: i64 = 253_370_764_800_000_000;

/// How many bytes the record of due deadlines takes.
const TICK_LENGTH: u64 = 14;

/// All that the service holds. The policy stands beside it: what depends on policy and request
/// alone is understood before, by as many callers at once as there are.
#[derive(Drop)]
pub struct Core {
    pub(crate) tables: Tables,
    pub(crate) kept: KeptReplies,
    pub(crate) stored: u64,
    pub(crate) changes: u64,
}

/// What was looked up for a call before it is judged: where the invocations stand that it names,
/// and what its number comes to.
#[derive(Clone, Copy)]
struct LookedUp<'r> {
    places: &'r Located,
    number: NumberCheck,
}

impl Model for Core {
    ghost use Rattle.service_core.specs.CoreState.{CoreState};

    ghost Value = { CoreState };

    ghost view = { λ c. record {
      held = c.tables;
      keeps = c.kept;
      stored = c.stored;
      changes = c.changes;
    } };
}

impl Core {
    /// The empty world. `Err` where there is no memory.
    pub fn new(alloc: Global) -> Result<Core, AllocError>
        ensures { IfOk result (λ core. world_in core ≡ empty_service) }
    {
        let tables = Tables::new(alloc)?;
        let kept = KeptReplies::new(alloc);
        Ok(Core {
            tables,
            kept,
            stored: 0,
            changes: 0,
        })
    }

    /// The invocations, in order of creation.
    pub fn invocations(&self) -> &[Invocation]
        ensures value { result.now ≡ self.now.held.world.world.invocations }
        ensures valid { IsValid self.now.held.world.world }
    {
        self.tables.world.rows()
    }

    /// What is recorded, in memory.
    pub fn tables(&self) -> &Tables
        ensures { result.now ≡ self.now.held }
    {
        &self.tables
    }

    /// What is kept of numbered requests.
    pub fn kept(&self) -> &KeptReplies
        ensures { result.now ≡ self.now.keeps }
    {
        &self.kept
    }

    /// The moment of a call: what the clock says, in microseconds since 1970, brought into
    /// 1970-01-01T00:00:00Z to 9999-01-01T00:00:00Z, and no earlier than the last change.
    pub fn moment_of(&self, now: i64) -> Moment
        ensures value { result ≡ moment_of self.now.held.world.world.last now }
        ensures in_range { IsCallMoment result }
        ensures later { self.now.held.world.world.last ≤ℤ result }
    {
        Moment::new(later_of(within_years(now), self.tables.world.last().micros()))
    }

    /// Whether a deadline is due at a moment.
    pub fn is_due(&self, moment: Moment) -> bool
        ensures due { MatchBool result (IsDueAt self.now.held.world.world moment)
            (IsQuiet self.now.held.world.world moment) }
        ensures valid { IsValid self.now.held.world.world }
    {
        self.tables.world.is_due(moment)
    }

    /// The plan that carries out the deadlines that are due at a moment. It changes nothing yet.
    /// `Err` where there is no memory.
    pub fn prepare_tick(&mut self, alloc: Global, moment: Moment) -> Result<Plan, AllocError>
        requires in_range { IsCallMoment moment }
        requires later { self.old.held.world.world.last ≤ℤ moment }
        requires due { IsDueAt self.old.held.world.world moment }
        ensures core { self.new ≡ self.old }
        ensures work { IfOk result (λ plan. plan.work ≡ Work.Tick moment) }
        ensures keep { IfOk result (λ plan. plan.keep ≡ None) }
        ensures answer { IfOk result (λ plan. plan.answer ≡ None) }
        ensures length { IfOk result (λ plan. plan.length ≡ 14) }
        ensures fits { IfOk result (Fits self.new) }
    {
        let _ = alloc;
        if self.stored > u64::MAX - TICK_LENGTH {
            return Err(AllocError);
        }
        let work = Work::Tick(moment);
        Ok(Plan::new(work, None, None, TICK_LENGTH, self.changes))
    }

    /// The answer that refuses a call at this moment, where it breaks a rule for what is demanded.
    /// `Err` where there is no memory.
    fn refused(
        &self,
        alloc: Global,
        policy: &Policy,
        moment: Moment,
        call: &Call,
        found: &LookedUp,
    ) -> Result<Option<Answer>, AllocError>
        requires there { call.now.caller < length policy.now.users }
        requires places { found.now.places.now
            ≡ located_in (recorded_in self.now.held) (demand_of call.now.request) }
        ensures valid { IfOk result (λ _. IsValid self.now.held.world.world) }
        ensures told { (asked : Asked) → IsCallOf (record { policy = policy.now }) asked call.now
            → IsNumbered self.now.keeps.kept
            (caller_name (record { policy = policy.now }) call.now.caller) asked
            (demand_of call.now.request) found.now.number
            → IfOk result (TellsRefusal (record { policy = policy.now }) (world_in self.now) moment
            asked call.now) }
    {
        let holdings = holdings_for(alloc, policy, call)?;
        let situation = Situation {
            policy,
            table: self.tables.world.table(),
            results: &self.tables.results,
            artifacts: &self.tables.artifacts,
            moment,
            holdings: holdings.as_slice(),
            located: found.places,
            number: found.number,
        };
        match situation.judge(Rule::order(), call) {
            Some(breach) => Ok(Some(breach.answer(alloc)?)),
            None => Ok(None),
        }
    }

    /// The answer to a repeat of the request that is kept at this place. `Err` where there is no
    /// memory for it.
    fn kept_answer(
        &self,
        alloc: Global,
        policy: &Policy,
        place: usize,
    ) -> Result<Answer, AllocError>
        requires { place < length self.now.keeps.kept }
        ensures { (reply : KeptReply) → slice_get self.now.keeps.kept place ≡ Some reply
            → IfOk result (λ answer. answer ≡ kept_answer (record {
              settings = record { policy = policy.now };
              world = recorded_in self.now.held;
            }) reply.answer) }
    {
        show_kept(alloc, &self.tables, policy, &self.kept.reply(place).answer)
    }

    /// Where all stands that a call names that is no repeat, or the refusal of the rule for what is
    /// demanded that it breaks, by what its number comes to. `Err` where there is no memory.
    fn judge(
        &self,
        alloc: Global,
        policy: &Policy,
        moment: Moment,
        call: &Call,
        number: NumberCheck,
    ) -> Result<Result<Located, Prepared>, AllocError>
        requires there { call.now.caller < length policy.now.users }
        requires other { (place : ℕ) → number ≢ NumberCheck.Repeat place }
        ensures { (asked : Asked) → IsCallOf (record { policy = policy.now }) asked call.now
            → IsNumbered self.now.keeps.kept
            (caller_name (record { policy = policy.now }) call.now.caller) asked
            (demand_of call.now.request) number
            → IfOk result (TellsJudged (record { policy = policy.now }) self.now moment asked
            call.now) }
    {
        let tables = &self.tables;
        let table = tables.world.table();
        let places = Located::of(
            alloc,
            table,
            &tables.results,
            &tables.artifacts,
            &call.request,
        )?;
        let found = LookedUp {
            places: &places,
            number,
        };
        match self.refused(alloc, policy, moment, call, &found)? {
            Some(answer) => Ok(Err(Prepared::Refused(answer))),
            None => Ok(Ok(places)),
        }
    }

    /// Where all stands that a call names, or what it comes to where it isn't to be planned: a
    /// refusal, or the answer to a repeat. `Err` where there is no memory.
    fn assess(
        &self,
        alloc: Global,
        policy: &Policy,
        moment: Moment,
        call: &Call,
    ) -> Result<Result<Located, Prepared>, AllocError>
        requires call { (asked : Asked) × IsCallOf (record { policy = policy.now }) asked call.now }
        ensures { (asked : Asked) → IsCallOf (record { policy = policy.now }) asked call.now
            → IfOk result (TellsJudged (record { policy = policy.now }) self.now moment asked
            call.now) }
    {
        let number = check_number(alloc, &self.kept, policy.name_of(call.caller), call)?;
        match number {
            NumberCheck::Repeat(place) => {
                Ok(Err(Prepared::Repeated(self.kept_answer(alloc, policy, place)?)))
            }
            NumberCheck::New => self.judge(alloc, policy, moment, call, number),
            NumberCheck::Reused => self.judge(alloc, policy, moment, call, number),
        }
    }

    /// What a caller's request comes to at this moment.
    fn prepare_call(
        &mut self,
        alloc: Global,
        policy: &Policy,
        moment: Moment,
        call: Call,
    ) -> Result<Prepared, AllocError>
        requires in_range { IsCallMoment moment }
        requires later { self.old.held.world.world.last ≤ℤ moment }
        requires quiet { IsQuiet self.old.held.world.world moment }
        requires call { (asked : Asked) × IsCallOf (record { policy = policy.now }) asked call }
        ensures roomier { IsRoomier self.old self.new }
        ensures prepared { (asked : Asked) → IsCallOf (record { policy = policy.now }) asked call
            → IfOk result (IsPrepared (record { policy = policy.now }) self.new moment asked) }
    {
        let _ = policy.tables();
        match self.assess(alloc, policy, moment, &call)? {
            Ok(places) => self.plan(alloc, policy, moment, call, &places),
            Err(prepared) => Ok(prepared),
        }
    }

    /// What a request comes to at this moment, at which nothing is due, by what was understood of
    /// it under this policy. It takes all the memory that the change needs, and changes nothing
    /// yet. `Err` where there is no memory.
    pub fn prepare(
        &mut self,
        alloc: Global,
        policy: &Policy,
        moment: Moment,
        understood: Understood,
    ) -> Result<Prepared, AllocError>
        requires in_range { IsCallMoment moment }
        requires later { self.old.held.world.world.last ≤ℤ moment }
        requires quiet { IsQuiet self.old.held.world.world moment }
        requires understood { (asked : Asked)
            × IsUnderstood (record { policy = policy.now }) asked understood }
        ensures roomier { IsRoomier self.old self.new }
        ensures prepared { (asked : Asked)
            → IsUnderstood (record { policy = policy.now }) asked understood
            → IfOk result (IsPrepared (record { policy = policy.now }) self.new moment asked) }
    {
        match understood {
            Understood::Refused(answer) => Ok(Prepared::Refused(answer)),
            Understood::Wanted(call) => self.prepare_call(alloc, policy, moment, call),
        }
    }

    /// Does what was planned.
    fn work(&mut self, work: Work)
        requires { CanDo self.old.held work }
        ensures made { Works (recorded_in self.old.held) work (recorded_in self.new.held) }
        ensures keeps { self.new.keeps ≡ self.old.keeps }
        ensures stored { self.new.stored ≡ self.old.stored }
        ensures changes { self.new.changes ≡ self.old.changes }
    {
        match work {
            Work::Tick(moment) => self.tables.world.advance(moment),
            Work::Change(change) => carry_out(&mut self.tables, change),
        }
    }

    /// Keeps what was made ready.
    fn keep(&mut self, keep: Option<Ready>)
        requires { CanKeep self.old.keeps keep }
        ensures kept { self.new.keeps.kept ≡ with_kept self.old.keeps.kept keep }
        ensures held { self.new.held ≡ self.old.held }
        ensures stored { self.new.stored ≡ self.old.stored }
        ensures changes { self.new.changes ≡ self.old.changes }
    {
        if let Some(ready) = keep {
            self.kept.keep(ready);
        }
    }

    /// Makes a change that was prepared last, and gives its answer: none for due deadlines. It
    /// takes no memory.
    pub fn commit(&mut self, plan: Plan) -> Option<Answer>
        requires { Fits self.old plan }
        ensures world { Carries (world_in self.old) plan (world_in self.new) }
        ensures changes { self.new.changes ≡ more_changes self.old.changes }
        ensures answer { result ≡ plan.answer }
    {
        let length = plan.length();
        let (work, keep, answer) = plan.into_parts();
        self.work(work);
        self.keep(keep);
        self.stored += length;
        self.changes = self.changes.saturating_add(1);
        answer
    }

    /// Carries out the deadlines that are due at a moment, if there are any.
    /// `Err` where there is no memory, and then nothing was changed.
    fn catch_up(&mut self, alloc: Global, moment: Moment) -> Result<(), AllocError>
        requires in_range { IsCallMoment moment }
        requires later { self.old.held.world.world.last ≤ℤ moment }
        ensures ok { OnOk result (CatchesUp (world_in self.old) moment (world_in self.new)) }
        ensures timely { OnOk result (IsTimely self.new.held.world.world moment) }
        ensures err { OnErr result (world_in self.new ≡ world_in self.old) }
    {
        if self.is_due(moment) {
            let plan = self.prepare_tick(alloc, moment)?;
            self.commit(plan);
        }
        Ok(())
    }

    /// What a request comes to at this moment, where there was memory to understand it.
    fn prepare_if(
        &mut self,
        alloc: Global,
        policy: &Policy,
        moment: Moment,
        understood: Result<Understood, AllocError>,
    ) -> Result<Prepared, AllocError>
        requires timely { IsTimely self.old.held.world.world moment }
        requires understood { (asked : Asked)
            × IfOk understood (IsUnderstood (record { policy = policy.now }) asked) }
        ensures roomier { IsRoomier self.old self.new }
        ensures prepared { (asked : Asked)
            → IfOk understood (IsUnderstood (record { policy = policy.now }) asked)
            → IfOk result (IsPrepared (record { policy = policy.now }) self.new moment asked) }
    {
        match understood {
            Ok(understood) => self.prepare(alloc, policy, moment, understood),
            Err(AllocError) => Err(AllocError),
        }
    }

    /// Answers a request at a moment at which nothing is due.
    fn answer(
        &mut self,
        alloc: Global,
        policy: &Policy,
        moment: Moment,
        understood: Result<Understood, AllocError>,
    ) -> Told
        requires timely { IsTimely self.old.held.world.world moment }
        requires understood { (asked : Asked)
            × IfOk understood (IsUnderstood (record { policy = policy.now }) asked) }
        ensures { (asked : Asked)
            → IfOk understood (IsUnderstood (record { policy = policy.now }) asked)
            → IsAnswered (record { policy = policy.now }) (world_in self.old) moment asked result
            (world_in self.new) }
    {
        match self.prepare_if(alloc, policy, moment, understood) {
            Ok(Prepared::Refused(answer)) => Told::Made(answer),
            Ok(Prepared::Repeated(answer)) => Told::Made(answer),
            Ok(Prepared::Answered(answer)) => Told::Made(answer),
            Ok(Prepared::Change(plan)) => match self.commit(plan) {
                Some(answer) => Told::Made(answer),
                None => unreachable!(),
            },
            Err(_) => Told::Standin(Standin::Memory),
        }
    }

    /// Serves a request at the moment that this answer of the clock makes, in microseconds since
    /// 1970, by what was understood of it under this policy: the deadlines that are due are carried
    /// out, and then the request is judged. Where there is no memory for that, or was none to
    /// understand it, the stand-in for it is told, and nothing but due deadlines is carried out.
    pub fn serve(
        &mut self,
        alloc: Global,
        policy: &Policy,
        now: i64,
        understood: Result<Understood, AllocError>,
    ) -> Told
        requires { (asked : Asked)
            × IfOk understood (IsUnderstood (record { policy = policy.now }) asked) }
        ensures { (seat : ℕ) (asked : Asked) (rose : Bool)
            → IfOk understood (IsUnderstood (record { policy = policy.now }) asked)
            → Serves (record { policy = policy.now }) (world_in self.old) seat now asked result rose
            (world_in self.new) }
    {
        let moment = self.moment_of(now);
        match self.catch_up(alloc, moment) {
            Ok(()) => self.answer(alloc, policy, moment, understood),
            Err(AllocError) => Told::Standin(Standin::Memory),
        }
    }
}

/// The clock's answer, brought into 1970-01-01T00:00:00Z to 9999-01-01T00:00:00Z.
fn within_years(now: i64) -> i64
    ensures value { result ≡ int_max (pos 0) (int_min now latest_call) }
    ensures in_range { IsCallMoment result }
{
    now.min(LATEST_CALL).max(0)
}

/// The later of two moments that a call may have.
fn later_of(moment: i64, last: i64) -> i64
    requires moment { IsCallMoment moment }
    requires last { IsCallMoment last }
    ensures value { result ≡ int_max last moment }
    ensures in_range { IsCallMoment result }
{
    moment.max(last)
}
