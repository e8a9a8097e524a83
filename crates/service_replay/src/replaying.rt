//! Recorded commands, made again. No policy is asked: a command was allowed when it was recorded.
ghost use Rattle.std.specs.Prelude.{◌≡◌, ◌≢◌, ◌<◌, ◌≤ℤ◌, IfOk, OnOk, Some, Err, MatchBool, MatchOption};
ghost use Rattle.service_core.specs.InvocationWorld.World.{IsCallMoment};
ghost use Rattle.service_core.specs.MessageForms.Methods.{name_of, service_of};
ghost use Rattle.service_core.specs.MessageForms.Reading.{Asks};
ghost use Rattle.recorded_calls.specs.Commands.{IsCallSayable, IsSayable, call_said, said_by};
ghost use Rattle.service_core.specs.RequestRules.Again.{IsUnused};
ghost use Rattle.service_core.specs.RequestDemands.Numbered.{asked_again};
ghost use Rattle.service_core.specs.RequestDemands.Demands.{demand_of};
ghost use Rattle.service_core.specs.RequestEffects.Keeps.{numbered_of};
ghost use Rattle.service_core.specs.RequestEffects.Places.{located_in};
ghost use Rattle.service_core.specs.RequestEffects.Planned.{IsSafe};
ghost use Rattle.service_effects.specs.Fitting.{IsTimely};
ghost use Rattle.service_effects.specs.States.{recorded_in};
ghost use Rattle.service_core.specs.Again.{IsFreeFor};
ghost use Rattle.service_core.specs.CoreState.{world_in};
ghost use Rattle.service_replay.specs.Replay.{ActsAgain, IsKindOf, IsRefused, Replays, ReplaysCall, ReplaysSaid};
ghost use Rattle.service_replay.specs.Replay.{ReplaysTick, length_again, recorded_method};
ghost use Rattle.service_replay.specs.Replaying.{IsActedAgain, IsRightIn};

use call_forms::Asked;
use names_realms::Moment;
use recorded_calls::{CallKind, Command, RecordedCall, read_command, record_length};
use service_core::{
    CallRecord, Context, Core, Demand, FormFault, Located, Method, NumberCheck, Numbered, Request,
    check_digest, demand_of, digest_again, is_right, numbered_in, read_request,
};
use std::alloc::{AllocError, Global};

/// Why a command isn't made again.
#[derive(Clone, Copy, Debug, PartialEq, Eq, Drop)]
pub enum ReplayFault {
    /// It is no command, or none that leads on from the world as it is.
    OutOfPlace,
    /// There was no memory.
    Memory,
}

impl From<AllocError> for ReplayFault {
    ghost use Rattle.std.specs.Prelude.{◌≡◌};
    ghost use Rattle.service_replay.specs.declared.replaying.ReplayFault.TheVariants.{Memory};

    ghost from_gives = { λ _ fault. fault ≡ Memory };

    fn from(_: AllocError) -> ReplayFault {
        ReplayFault::Memory
    }
}

/// The method that a recorded call was for.
fn recorded_method(kind: CallKind) -> Option<Method>
    ensures { result ≡ recorded_method kind }
{
    match kind {
        CallKind::CreateInvocation => Some(Method::CreateInvocation),
        CallKind::UpdateInvocation => Some(Method::UpdateInvocation),
        CallKind::FinalizeInvocation => Some(Method::FinalizeInvocation),
        CallKind::UpdateIncludedInvocations => Some(Method::UpdateIncludedInvocations),
        CallKind::BatchCreateTestResults => Some(Method::BatchCreateTestResults),
        CallKind::BatchCreateTestExonerations => Some(Method::BatchCreateTestExonerations),
        CallKind::BatchCreateArtifacts => Some(Method::BatchCreateArtifacts),
    }
}

/// The kind by which calls of a method are recorded; none for a method that changes nothing.
fn kind_for(method: Method) -> Option<CallKind>
    ensures { MatchOption result ((kind : CallKind) → recorded_method kind ≢ Some method)
        (λ kind. recorded_method kind ≡ Some method) }
{
    match method {
        Method::CreateInvocation => Some(CallKind::CreateInvocation),
        Method::UpdateInvocation => Some(CallKind::UpdateInvocation),
        Method::FinalizeInvocation => Some(CallKind::FinalizeInvocation),
        Method::UpdateIncludedInvocations => Some(CallKind::UpdateIncludedInvocations),
        Method::BatchCreateTestResults => Some(CallKind::BatchCreateTestResults),
        Method::BatchCreateTestExonerations => Some(CallKind::BatchCreateTestExonerations),
        Method::BatchCreateArtifacts => Some(CallKind::BatchCreateArtifacts),
        _ => None,
    }
}

/// The kind by which what was asked is recorded; none where its method isn't there, or changes
/// nothing.
pub fn kind_of(asked: &Asked) -> Option<CallKind>
    ensures { MatchOption result ((kind : CallKind) → ¬ IsKindOf kind asked.now)
        (λ kind. IsKindOf kind asked.now) }
{
    match Method::of(asked.service.as_slice(), asked.method.as_slice()) {
        Some(method) => kind_for(method),
        None => None,
    }
}

/// The request for which a recorded body asks, by its method.
fn read_again(alloc: Global, method: Method, body: &[u8]) -> Result<Request, ReplayFault>
    ensures ok { IfOk result (Asks (service_of method) (name_of method) body.now) }
    ensures refused { result ≡ Err ReplayFault.OutOfPlace → (q : Request)
        → ¬ Asks (service_of method) (name_of method) body.now q }
{
    let service = method.service().as_bytes();
    let name = method.name().as_bytes();
    match read_request(alloc, service, name, body) {
        Ok(request) => Ok(request),
        Err(FormFault::Memory) => Err(ReplayFault::Memory),
        Err(_) => Err(ReplayFault::OutOfPlace),
    }
}

/// Whether a moment isn't before the last change.
fn is_later(core: &Core, moment: Moment) -> bool
    ensures { MatchBool result (core.now.held.world.world.last ≤ℤ moment)
        (¬ (core.now.held.world.world.last ≤ℤ moment)) }
{
    core.tables().world.last().micros() <= moment.micros()
}

/// The number of a recorded request of which this is demanded, with its digest, where it has one.
/// It is out of place where anything is kept for it.
fn number_again(
    alloc: Global,
    core: &Core,
    call: &RecordedCall,
    method: Method,
    demand: &Demand,
) -> Result<Option<Numbered>, ReplayFault>
    ensures unused { IfOk result
        (λ _. IsUnused core.now.keeps.kept call.now.caller.now demand.now) }
    ensures ok { IfOk result
        (λ n. n ≡ numbered_of (asked_again method call.now.body.now) demand.now) }
    ensures refused { result ≡ Err ReplayFault.OutOfPlace
        → ¬ IsUnused core.now.keeps.kept call.now.caller.now demand.now }
{
    let digest = digest_again(method, call.body, demand);
    match check_digest(alloc, core.kept(), call.caller, demand, &digest)? {
        NumberCheck::New => Ok(numbered_in(alloc, demand, &digest)?),
        NumberCheck::Repeat(_) => Err(ReplayFault::OutOfPlace),
        NumberCheck::Reused => Err(ReplayFault::OutOfPlace),
    }
}

/// What the record of a call says beside its request, which has this number, if it has one.
fn record_of(call: &RecordedCall, numbered: Option<Numbered>) -> CallRecord
    requires { IsCallSayable (call_said call.now) }
    ensures numbered { result.numbered ≡ numbered }
    ensures length { result.length ≡ length_again (call_said call.now) }
    ensures some { 0 < result.length }
{
    CallRecord {
        numbered,
        length: record_length(call.caller, call.body),
    }
}

/// Does again what a recorded request does that breaks none of the rules that are asked again, and
/// keeps what is kept of it. It is out of place where that is refused, or does nothing, or its
/// record has no place.
fn act_again(
    alloc: Global,
    core: &mut Core,
    context: &Context,
    said: CallRecord,
    request: Request,
) -> Result<(), ReplayFault>
    requires timely { IsTimely core.old.held.world.world context.now.moment }
    requires safe { IsSafe core.old.held.world.world context.now.moment context.now.name.now
        request }
    requires places { context.now.located.now
        ≡ located_in (recorded_in core.old.held) (demand_of request) }
    requires free { IsFreeFor core.old.keeps.kept context.now.name.now said.numbered }
    requires some { 0 < said.length }
    ensures ok { OnOk result (IsActedAgain (world_in core.old) context.now.moment
        context.now.name.now said request (world_in core.new)) }
    ensures refused { IsRefused (IsActedAgain (world_in core.old) context.now.moment
        context.now.name.now said request) result }
{
    match core.prepare_again(alloc, context, said, request)? {
        Some(plan) => {
            core.commit(plan);
            Ok(())
        }
        None => Err(ReplayFault::OutOfPlace),
    }
}

/// Where what a recorded request names stands. It is out of place where the request breaks a rule
/// that is asked again.
fn right_places(
    alloc: Global,
    core: &Core,
    call: &RecordedCall,
    request: &Request,
) -> Result<Located, ReplayFault>
    ensures places { IfOk result
        (λ p. p ≡ located_in (recorded_in core.now.held) (demand_of request.now)) }
    ensures right { IfOk result
        (λ _. IsRightIn (world_in core.now) call.now.moment request.now) }
    ensures refused { result ≡ Err ReplayFault.OutOfPlace
        → ¬ IsRightIn (world_in core.now) call.now.moment request.now }
{
    let tables = core.tables();
    let table = tables.world.table();
    let places = Located::of(alloc, table, &tables.results, &tables.artifacts, request)?;
    if is_right(table, call.moment, &places, request) {
        Ok(places)
    } else {
        Err(ReplayFault::OutOfPlace)
    }
}

/// Makes a recorded call again, by the request for which it asks.
fn make_again(
    alloc: Global,
    core: &mut Core,
    call: &RecordedCall,
    method: Method,
    request: Request,
) -> Result<(), ReplayFault>
    requires sayable { IsCallSayable (call_said call.now) }
    requires timely { IsTimely core.old.held.world.world call.now.moment }
    requires asks { Asks (service_of method) (name_of method) call.now.body.now request }
    ensures ok { OnOk result (ActsAgain (world_in core.old) (call_said call.now) method request
        (world_in core.new)) }
    ensures refused { IsRefused
        (ActsAgain (world_in core.old) (call_said call.now) method request) result }
{
    let numbered = number_again(alloc, core, call, method, &demand_of(&request))?;
    let places = right_places(alloc, core, call, &request)?;
    let context = Context {
        moment: call.moment,
        name: call.caller,
        located: &places,
    };
    act_again(alloc, core, &context, record_of(call, numbered), request)
}

/// Makes a recorded call again.
fn replay_call(alloc: Global, core: &mut Core, call: &RecordedCall) -> Result<(), ReplayFault>
    requires { IsCallSayable (call_said call.now) }
    ensures ok { OnOk result
        (ReplaysCall (world_in core.old) (call_said call.now) (world_in core.new)) }
    ensures refused { IsRefused (ReplaysCall (world_in core.old) (call_said call.now)) result }
{
    let Some(method) = recorded_method(call.kind) else {
        return Err(ReplayFault::OutOfPlace);
    };
    if !is_later(core, call.moment) {
        return Err(ReplayFault::OutOfPlace);
    }
    if core.is_due(call.moment) {
        return Err(ReplayFault::OutOfPlace);
    }
    match read_again(alloc, method, call.body) {
        Ok(request) => make_again(alloc, core, call, method, request),
        Err(fault) => Err(fault),
    }
}

/// Carries out again the deadlines that were due at a moment.
fn replay_tick(alloc: Global, core: &mut Core, moment: Moment) -> Result<(), ReplayFault>
    requires { IsCallMoment moment }
    ensures ok { OnOk result (ReplaysTick (world_in core.old) moment (world_in core.new)) }
    ensures refused { IsRefused (ReplaysTick (world_in core.old) moment) result }
{
    if !is_later(core, moment) {
        return Err(ReplayFault::OutOfPlace);
    }
    if !core.is_due(moment) {
        return Err(ReplayFault::OutOfPlace);
    }
    let plan = core.prepare_tick(alloc, moment)?;
    core.commit(plan);
    Ok(())
}

/// Makes again what a command says.
fn replay_said(alloc: Global, core: &mut Core, command: &Command) -> Result<(), ReplayFault>
    requires { IsSayable (said_by command.now) }
    ensures ok { OnOk result
        (ReplaysSaid (world_in core.old) (said_by command.now) (world_in core.new)) }
    ensures refused { IsRefused (ReplaysSaid (world_in core.old) (said_by command.now)) result }
{
    match command {
        Command::Tick(moment) => replay_tick(alloc, core, *moment),
        Command::Call(call) => replay_call(alloc, core, call),
    }
}

/// Makes a command again that was recorded. It is out of place exactly where it leads nowhere from
/// the world as it is. After an error the core is given up: some of it may have been done.
pub fn replay(alloc: Global, core: &mut Core, command: &[u8]) -> Result<(), ReplayFault>
    ensures ok { OnOk result (Replays (world_in core.old) command.now (world_in core.new)) }
    ensures refused { IsRefused (Replays (world_in core.old) command.now) result }
{
    match read_command(command) {
        Some(command) => replay_said(alloc, core, &command),
        None => Err(ReplayFault::OutOfPlace),
    }
}
