//! Plans with their commands.
ghost use Rattle.std.specs.Prelude.{◌≡◌, ℕ, ◌^◌, ◌<◌, ◌≤ℤ◌, true, Some, None, Err, IfOk, length};
ghost use Rattle.policy_checks.specs.Checks.{is_name};
ghost use Rattle.result_journal.specs.Grammar.{IsBody};
ghost use Rattle.invocation_world.specs.Advancing.{IsDueAt};
ghost use Rattle.invocation_world.specs.World.{IsCallMoment};
ghost use Rattle.recorded_calls.specs.declared.command.CallKind.{CallKind};
ghost use Rattle.recorded_calls.specs.Commands.{call_said, called, command_bytes, ticked};
ghost use Rattle.service_replay.specs.RequestDemands.Settings.{caller_of};
ghost use Rattle.service_replay.specs.ServiceEffects.Fitting.{IsTimely};
ghost use Rattle.service_replay.specs.ServiceCore.CoreState.{world_in};
ghost use Rattle.service_replay.specs.ServiceCore.Plans.{Fits, IsPlanOf};
ghost use Rattle.service_replay.specs.Replay.{IsKindOf};
ghost use Rattle.service_replay.specs.ServiceCore.declared.plan.Work.TheVariants.{Tick};
ghost use Rattle.service_machine.specs.Machines.{IsCommandOf, IsFit, IsTooLong};

use call_forms::Asked;
use lists::Bytes;
use names_realms::Moment;
use recorded_calls::{RecordedCall, write_call, write_tick};
use service_replay::{Core, Plan, Policy, caller_of, kind_of};
use std::alloc::{AllocError, Global};
use std::marker::Model;

/// How many bytes a record may have.
const MOST_BYTES: usize = 8_388_608;

/// How many of them stand beside the caller's name and the body of a call.
const HEAD: usize = 15;

/// A change that was planned, with the command by which it is recorded.
#[derive(Drop)]
pub struct RecordedPlan {
    pub(crate) plan: Plan,
    pub(crate) command: Bytes,
}

impl Model for RecordedPlan {
    ghost use Rattle.service_machine.specs.Machines.{RecordedState};

    ghost Value = { RecordedState };

    ghost view = { λ p. record { plan = p.plan; command = p.command } };
}

/// Why the command of a change isn't written.
#[derive(Clone, Copy, Debug, PartialEq, Eq, Drop)]
pub enum PlanFault {
    /// It is longer than a record may be.
    TooLong,
    /// There was no memory.
    Memory,
}

impl From<AllocError> for PlanFault {
    ghost use Rattle.std.specs.Prelude.{◌≡◌};
    ghost use Rattle.service_machine.specs.declared.plans.PlanFault.TheVariants.{Memory};

    ghost from_gives = { λ _ fault. fault ≡ Memory };

    fn from(_: AllocError) -> PlanFault {
        PlanFault::Memory
    }
}

/// What was asked, and when, and under which policy it was judged.
#[derive(Clone, Copy)]
pub struct Wanted<'r> {
    pub policy: &'r Policy,
    pub moment: Moment,
    pub asked: &'r Asked,
}

/// The call by which what was asked is recorded.
fn call_of<'r>(wanted: &Wanted<'r>) -> RecordedCall<'r>
    requires caller { (caller : ℕ) × (caller_of (record { policy = wanted.now.policy.now })
        wanted.now.asked.now.bearer ≡ Some caller) }
    requires kind { (kind : CallKind) × IsKindOf kind wanted.now.asked.now }
    ensures call { IsCommandOf (record { policy = wanted.now.policy.now }) wanted.now.moment
        wanted.now.asked.now (command_bytes (called (call_said result))) }
    ensures moment { result.moment ≡ wanted.now.moment }
    ensures body { result.body.now ≡ wanted.now.asked.now.body }
    ensures caller { is_name result.caller.now ≡ true }
{
    let _ = wanted.policy.tables();
    let Some(caller) = caller_of(wanted.policy, wanted.asked) else {
        unreachable!()
    };
    let Some(kind) = kind_of(wanted.asked) else {
        unreachable!()
    };
    RecordedCall {
        kind,
        moment: wanted.moment,
        caller: wanted.policy.name_of(caller),
        body: wanted.asked.body.as_slice(),
    }
}

/// The command of a call, where it is no longer than a record may be.
fn command_of(alloc: Global, call: &RecordedCall) -> Result<Bytes, PlanFault>
    requires moment { IsCallMoment call.now.moment }
    requires caller { is_name call.now.caller.now ≡ true }
    ensures command { IfOk result (λ c. c ≡ command_bytes (called (call_said call.now))) }
    ensures body { IfOk result IsBody }
    ensures short { IfOk result (λ _. length call.now.body.now < 2 ^ 32) }
    ensures too_long { result ≡ Err PlanFault.TooLong
        → 2 ^ 23 < length (command_bytes (called (call_said call.now))) }
{
    if call.body.len() > MOST_BYTES - HEAD - call.caller.len() {
        return Err(PlanFault::TooLong);
    }
    Ok(write_call(alloc, call)?)
}

impl RecordedPlan {
    /// The plan that carries out the deadlines that are due at a moment, with its tick. Nothing is
    /// changed yet. `Err` where there is no memory.
    pub fn tick(alloc: Global, core: &mut Core, moment: Moment) -> Result<RecordedPlan, AllocError>
        requires in_range { IsCallMoment moment }
        requires later { core.old.held.world.world.last ≤ℤ moment }
        requires due { IsDueAt core.old.held.world.world moment }
        ensures core { core.new ≡ core.old }
        ensures fits { IfOk result (IsFit core.new) }
        ensures work { IfOk result (λ p. p.plan.work ≡ Tick moment) }
        ensures keep { IfOk result (λ p. p.plan.keep ≡ None) }
        ensures answer { IfOk result (λ p. p.plan.answer ≡ None) }
        ensures length { IfOk result (λ p. p.plan.length ≡ 14) }
        ensures command { IfOk result (λ p. p.command ≡ command_bytes (ticked moment)) }
    {
        let plan = core.prepare_tick(alloc, moment)?;
        let command = write_tick(alloc, moment)?;
        Ok(RecordedPlan { plan, command })
    }

    /// The plan of a request that was accepted, with the command of the call. `TooLong` where the
    /// command is longer than a record may be.
    pub fn change(
        alloc: Global,
        core: &Core,
        wanted: &Wanted,
        plan: Plan,
    ) -> Result<RecordedPlan, PlanFault>
        requires timely { IsTimely core.now.held.world.world wanted.now.moment }
        requires plan { IsPlanOf (record { policy = wanted.now.policy.now }) (world_in core.now)
            wanted.now.moment wanted.now.asked.now plan }
        requires fits { Fits core.now plan }
        ensures fits { IfOk result (IsFit core.now) }
        ensures plan { IfOk result (λ p. p.plan ≡ plan) }
        ensures command { IfOk result (λ p. IsCommandOf
            (record { policy = wanted.now.policy.now }) wanted.now.moment wanted.now.asked.now
            p.command) }
        ensures too_long { result ≡ Err PlanFault.TooLong → IsTooLong
            (record { policy = wanted.now.policy.now }) wanted.now.moment wanted.now.asked.now }
    {
        let _ = wanted.policy.tables();
        let call = call_of(wanted);
        let command = command_of(alloc, &call)?;
        Ok(RecordedPlan { plan, command })
    }

    /// The plan alone.
    pub(crate) fn into_plan(self) -> Plan
        ensures { result ≡ self.plan }
    {
        self.plan
    }
}
