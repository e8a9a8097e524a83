//! What a request does is planned, with all the room that it takes, and nothing is changed.
ghost use Rattle.std.specs.Prelude.{◌≡◌, ◌≢◌, ◌<◌, Some, [], All, IfOk, IfSome, length};
ghost use Rattle.invocations.specs.Rows.{IsInState};
ghost use Rattle.invocation_world.specs.World.{IsValid};
ghost use Rattle.request_rules.specs.RequestDemands.Demands.{demand_of};
ghost use Rattle.request_effects.specs.Places.{located_in};
ghost use Rattle.request_effects.specs.Effects.{artifacts_at, effect_of, end_at, include_of, update_at};
ghost use Rattle.service_effects.specs.Fitting.{IsTimely};
ghost use Rattle.service_effects.specs.Planned.{IsRoomPlanned};
ghost use Rattle.service_effects.specs.States.{IsRoomier, recorded_in};
ghost use Rattle.request_effects.specs.Planned.{AreEdgesPlanned, IsPlanned, IsSafe};

use crate::making::{pairs_of, row_of};
use artifacts::{Digested, NewArtifact};
use inclusion_graph::{EdgeFault, EdgePlan};
use invocation_world::InvocationWorld;
use invocations::AddFault;
use lists::Listed;
use names_realms::{Moment, Pair, State};
use request_rules::{CreateInvocation, Located, Request, UpdateInvocation};
use service_effects::{
    Effect, EffectFault, FullTable, Planned, Tables, plan_artifacts, plan_exonerations,
    plan_results,
};
use std::alloc::{AllocError, Global};

/// When a request is planned, for a caller of which name, and where the invocations stand that it
/// names.
#[derive(Clone, Copy)]
pub struct Context<'r> {
    pub moment: Moment,
    pub name: &'r [u8],
    pub located: &'r Located,
}

/// The update of the invocation at a place, if it changes anything.
fn update_at(
    world: &InvocationWorld,
    place: u32,
    deadline: Option<Moment>,
    tags: Option<Listed<Pair>>,
) -> Effect
    requires { place < length world.now.world.invocations }
    ensures { result ≡ update_at world.now.world.invocations deadline tags (Some place) }
{
    let given = match deadline {
        Some(deadline) => Some(deadline),
        None => None,
    };
    if !world.would_update(place, given, &tags) {
        return Effect::Nothing;
    }
    Effect::Update {
        place,
        deadline,
        tags,
    }
}

/// The end of the invocation at a place, if it is active.
fn end_at(world: &InvocationWorld, place: u32) -> Effect
    requires { place < length world.now.world.invocations }
    ensures { result ≡ end_at world.now.world.invocations (Some place) }
{
    match world.row(place).state {
        State::Active => Effect::End(place),
        State::Finalizing => Effect::Nothing,
        State::Finalized => Effect::Nothing,
    }
}

/// The update that a request asks for of the invocation at this place, if there is one and it
/// changes anything. `Err` where there is no memory.
fn update_of(
    alloc: Global,
    world: &InvocationWorld,
    place: Option<u32>,
    q: UpdateInvocation,
) -> Result<Effect, AllocError>
    requires { IfSome place (λ at. at < length world.now.world.invocations) }
    ensures { IfOk result (λ effect. effect ≡ update_at world.now.world.invocations
        q.deadline q.tags place) }
{
    let tags = pairs_of(alloc, q.tags)?;
    match place {
        Some(place) => Ok(update_at(world, place, q.deadline, tags)),
        None => Ok(Effect::Nothing),
    }
}

/// The end of the invocation at this place, if there is one and it is active.
fn end_of(world: &InvocationWorld, place: Option<u32>) -> Effect
    requires { IfSome place (λ at. at < length world.now.world.invocations) }
    ensures { result ≡ end_at world.now.world.invocations place }
{
    match place {
        Some(place) => end_at(world, place),
        None => Effect::Nothing,
    }
}

/// What inclusions that were planned do: nothing where there are none.
fn include_of(plan: EdgePlan) -> Effect
    ensures { result ≡ include_of plan.from plan.held plan.targets }
{
    if plan.is_empty() {
        return Effect::Nothing;
    }
    Effect::Include(plan)
}

/// Plans a new invocation.
fn plan_row(
    alloc: Global,
    tables: &mut Tables,
    moment: Moment,
    name: &[u8],
    q: CreateInvocation,
) -> Result<Planned, AllocError>
    requires timely { IsTimely tables.old.world.world moment }
    requires safe { IsSafe tables.old.world.world moment name.now (Request.CreateInvocation q) }
    ensures roomier { IsRoomier tables.old tables.new }
    ensures planned { IfOk result (IsPlanned tables.new moment
        (effect_of (recorded_in tables.old) moment name.now (Request.CreateInvocation q))) }
{
    let row = row_of(alloc, moment, name, q)?;
    match tables.world.prepare_add(alloc, &row.id) {
        Ok(()) => Ok(Planned::Ready(Effect::Add(row))),
        Err(AddFault::Full { count }) => {
            Ok(Planned::Refused(EffectFault::Full(FullTable::Invocations { count })))
        }
        Err(AddFault::Memory) => Err(AllocError),
        Err(AddFault::Taken { .. }) => unreachable!(),
    }
}

/// Plans inclusions of the invocations at some places in an active one.
fn plan_edges(
    alloc: Global,
    tables: &mut Tables,
    place: u32,
    targets: &[u32],
) -> Result<Planned, AllocError>
    requires valid { IsValid tables.old.world.world }
    requires active { IsInState State.Active tables.old.world.world.invocations place }
    requires there { All (λ target. target < length tables.old.world.world.invocations)
        targets.now }
    requires elsewhere { All (λ target. target ≢ place) targets.now }
    ensures roomier { IsRoomier tables.old tables.new }
    ensures planned { IfOk result (AreEdgesPlanned tables.new place targets.now) }
{
    match tables.world.prepare_inclusions(alloc, place, targets) {
        Ok(plan) => Ok(Planned::Ready(include_of(plan))),
        Err(EdgeFault::Full { count }) => {
            Ok(Planned::Refused(EffectFault::Full(FullTable::Inclusions { count })))
        }
        Err(EdgeFault::Memory) => Err(AllocError),
        Err(EdgeFault::Itself { .. }) => unreachable!(),
    }
}

/// Plans artifacts of the invocation at a place, which are at least one. Their hashes are taken
/// first.
fn plan_files(
    alloc: Global,
    tables: &mut Tables,
    holder: u32,
    news: Vec<NewArtifact>,
) -> Result<Planned, AllocError>
    requires { news.items ≢ [] }
    ensures roomier { IsRoomier tables.old tables.new }
    ensures planned { IfOk result (IsRoomPlanned tables.new
        (artifacts_at (Some holder) news.items)) }
{
    let rows = Digested::of(alloc, news)?;
    plan_artifacts(alloc, tables, holder, rows)
}

/// Plans what a request does that a caller of this name asks for at this moment, with all the room
/// that it takes. Nothing is changed. `Err` where there is no memory.
pub fn plan_change(
    alloc: Global,
    tables: &mut Tables,
    context: &Context,
    request: Request,
) -> Result<Planned, AllocError>
    requires timely { IsTimely tables.old.world.world context.now.moment }
    requires safe { IsSafe tables.old.world.world context.now.moment context.now.name.now request }
    requires located { context.now.located.now
        ≡ located_in (recorded_in tables.old) (demand_of request) }
    ensures roomier { IsRoomier tables.old tables.new }
    ensures planned { IfOk result (IsPlanned tables.new context.now.moment
        (effect_of (recorded_in tables.old) context.now.moment context.now.name.now request)) }
{
    let first = context.located.first();
    match request {
        Request::CreateInvocation(q) => plan_row(alloc, tables, context.moment, context.name, q),
        Request::UpdateInvocation(q) => Ok(Planned::Ready(update_of(
            alloc,
            &tables.world,
            first,
            q,
        )?)),
        Request::FinalizeInvocation(_) => Ok(Planned::Ready(end_of(&tables.world, first))),
        Request::UpdateIncludedInvocations(_) => match first {
            Some(place) => {
                let targets = context.located.targets(alloc)?;
                plan_edges(alloc, tables, place, targets.as_slice())
            }
            None => Ok(Planned::Ready(Effect::Nothing)),
        },
        Request::BatchCreateTestResults(q) => match first {
            Some(holder) => plan_results(alloc, tables, holder, q.requests.into_vec()),
            None => Ok(Planned::Ready(Effect::Nothing)),
        },
        Request::BatchCreateTestExonerations(q) => match first {
            Some(holder) => plan_exonerations(alloc, tables, holder, q.requests.into_vec()),
            None => Ok(Planned::Ready(Effect::Nothing)),
        },
        Request::BatchCreateArtifacts(q) => match first {
            Some(holder) => plan_files(alloc, tables, holder, q.requests.into_vec()),
            None => Ok(Planned::Ready(Effect::Nothing)),
        },
        _ => Ok(Planned::Ready(Effect::Nothing)),
    }
}
