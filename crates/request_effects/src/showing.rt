//! The answer that shows what a request leaves, written before anything is done.
ghost use Rattle.std.specs.Prelude.{◌≡◌, ◌<◌, List, None, Some, All, IfOk, length, map, slice_get};
ghost use Rattle.artifacts.specs.Requests.{DigestedState};
ghost use Rattle.invocation_world.specs.World.{World};
ghost use Rattle.test_results.specs.declared.exoneration.TestExoneration.{TestExoneration};
ghost use Rattle.test_results.specs.declared.result.TestResult.{TestResult};
ghost use Rattle.service_effects.specs.Effects.{Makes};
ghost use Rattle.service_effects.specs.Fitting.{IsTimely, Suits};
ghost use Rattle.request_effects.specs.Foreseen.{Foresees, IsHere, IsOwn, Leaves, LeavesAll};
ghost use Rattle.service_effects.specs.Service.{Recorded};
ghost use Rattle.service_effects.specs.States.{IsRoomier, recorded_in};
ghost use Rattle.request_effects.specs.Answers.{Answers, Fits};
ghost use Rattle.request_effects.specs.Keeps.{kept_answer, made_answer};
ghost use Rattle.request_effects.specs.Shows.{answer_of, artifacts_reply, done, exonerations_reply, ids_at, part_of};
ghost use Rattle.request_effects.specs.Shows.{reply_at, results_reply, shown_with, token_at};

use crate::ahead::{Ahead, Seen, ends_at_once};
use crate::seeing::{see_artifact, see_artifacts, see_result, see_results, see_verdicts};
use crate::shows::{Showing, Shows};
use artifacts::Artifact;
use call_forms::Answer;
use invocation_world::InvocationWorld;
use invocations::Invocation;
use kept_replies::KeptAnswer;
use names_realms::{InvocationId, Moment, Pair};
use query_replies::Asker;
use request_rules::{
    Policy, Reply, ShownArtifacts, ShownExonerations, ShownInvocation, ShownResults, write_reply,
};
use service_effects::{Change, Effect, Tables};
use std::alloc::{AllocError, Global};
use test_results::{TestExoneration, TestResult};
use update_tokens::update_token;

/// The ids of the invocations at these places.
fn ids_at<'r>(
    alloc: Global,
    world: &'r InvocationWorld,
    places: &[u32],
) -> Result<Vec<&'r InvocationId>, AllocError>
    requires { All (λ place. place < length world.now.world.invocations) places.now }
    ensures { IfOk result (λ ids. map (λ id. id.now) ids.items
        ≡ ids_at world.now.world.invocations places.now) }
{
    let mut ids = Vec::with_capacity(alloc, places.len())?;
    for place in places {
        ids.push(&world.row(*place).id)?;
    }
    Ok(ids)
}

/// What a reply shows of an invocation that includes these.
fn shown_with<'r, 'i>(seen: &Seen<'r>, included: &'r [&'i InvocationId]) -> ShownInvocation<'r, 'i>
    ensures { result ≡ shown_with seen.now (map (λ id. id.now) included.now) }
{
    ShownInvocation {
        id: &seen.row.id,
        realm: &seen.row.realm,
        creator: &seen.row.creator,
        created: seen.row.created,
        deadline: seen.deadline,
        started: seen.started,
        finished: seen.finished,
        state: seen.state,
        tags: seen.tags,
        included,
    }
}

/// The answer that a request succeeded, with this reply. `Err` where there is no memory for its
/// text.
pub(crate) fn done(
    alloc: Global,
    token: Option<[u8; 64]>,
    reply: &Reply,
) -> Result<Answer, AllocError>
    ensures { IfOk result (λ answer. answer ≡ done token reply.now) }
{
    let body = write_reply(alloc, reply)?;
    Ok(Answer {
        status: 200,
        code: 0,
        token,
        body,
    })
}

/// So many rows from a place on, of those that there are.
fn part_of<T>(rows: &[T], first: u32, count: u32) -> &[T]
    ensures { result.now ≡ part_of first count rows.now }
{
    if first as usize > rows.len() {
        return &[];
    }
    let (_, rest) = rows.split_at(first as usize);
    if count as usize > rest.len() {
        return rest;
    }
    let (part, _) = rest.split_at(count as usize);
    part
}

/// What is shown of test results of one invocation.
fn results_reply<'r>(world: &'r InvocationWorld, rows: &'r [TestResult]) -> Reply<'r, 'r>
    ensures { result ≡ results_reply world.now.world.invocations rows.now }
{
    let Some(row) = rows.first() else {
        return Reply::Empty;
    };
    if row.holder >= world.count() {
        return Reply::Empty;
    }
    Reply::Results(ShownResults {
        invocation: &world.row(row.holder).id,
        rows,
    })
}

/// What is shown of exonerations of one invocation.
fn exonerations_reply<'r>(world: &'r InvocationWorld, rows: &'r [TestExoneration]) -> Reply<'r, 'r>
    ensures { result ≡ exonerations_reply world.now.world.invocations rows.now }
{
    let Some(row) = rows.first() else {
        return Reply::Empty;
    };
    if row.holder >= world.count() {
        return Reply::Empty;
    }
    Reply::Exonerations(ShownExonerations {
        invocation: &world.row(row.holder).id,
        rows,
    })
}

/// What is shown of artifacts. `Err` where there is no memory for it.
fn artifacts_reply<'r>(alloc: Global, rows: &'r [Artifact]) -> Result<Reply<'r, 'r>, AllocError>
    ensures { IfOk result (λ reply. reply ≡ artifacts_reply rows.now) }
{
    let mut shown = Vec::with_capacity(alloc, rows.len())?;
    for row in rows {
        shown.push(row)?;
    }
    Ok(Reply::Artifacts(ShownArtifacts {
        rows: shown,
        next: None,
    }))
}

impl<'r> Ahead<'r> {
    /// The update token of the invocation at a place.
    fn token(&self, policy: &Policy, place: u32) -> [u8; 64]
        requires foresees { Foresees self.now }
        requires here { IsHere self.now.tables.now.world.world self.now.effect.now place }
        ensures { (after : World) → Leaves self.now after
            → token_at (record { policy = policy.now }) (slice_get after.invocations place)
            ≡ Some result }
    {
        let seen = self.row(place);
        update_token(policy.secret(), &seen.row.id)
    }

    /// The answer that shows the invocation at a place, with this update token. `Err` where there
    /// is no memory for it.
    fn answer(
        &self,
        alloc: Global,
        place: u32,
        token: Option<[u8; 64]>,
    ) -> Result<Answer, AllocError>
        requires foresees { Foresees self.now }
        requires here { IsHere self.now.tables.now.world.world self.now.effect.now place }
        ensures { (after : World) → Leaves self.now after
            → IfOk result (λ answer. answer ≡ done token
            (reply_at after place (slice_get after.invocations place))) }
    {
        let seen = self.row(place);
        let included = ids_at(alloc, &self.tables.world, self.included(place))?;
        let shown = shown_with(&seen, included.as_slice());
        done(alloc, token, &Reply::Invocation(shown))
    }

    /// The answer that shows the test results that will be added. `Err` where there is no memory
    /// for it.
    fn results(&self, alloc: Global) -> Result<Answer, AllocError>
        requires { (batch : List TestResult) × (self.now.effect.now ≡ Effect.Results batch) }
        ensures { (batch : List TestResult) → self.now.effect.now ≡ Effect.Results batch
            → IfOk result (λ answer. answer ≡ done None
            (results_reply self.now.tables.now.world.world.invocations batch)) }
    {
        let Effect::Results(batch) = self.effect else {
            unreachable!()
        };
        done(
            alloc,
            None,
            &results_reply(&self.tables.world, batch.rows()),
        )
    }

    /// The answer that shows the exonerations that will be added. `Err` where there is no memory
    /// for it.
    fn exonerations(&self, alloc: Global) -> Result<Answer, AllocError>
        requires { (batch : List TestExoneration)
            × (self.now.effect.now ≡ Effect.Exonerations batch) }
        ensures { (batch : List TestExoneration) → self.now.effect.now ≡ Effect.Exonerations batch
            → IfOk result (λ answer. answer ≡ done None
            (exonerations_reply self.now.tables.now.world.world.invocations batch)) }
    {
        let Effect::Exonerations(batch) = self.effect else {
            unreachable!()
        };
        done(
            alloc,
            None,
            &exonerations_reply(&self.tables.world, batch.rows()),
        )
    }

    /// The answer that shows the artifacts that will be added. `Err` where there is no memory for
    /// it.
    fn artifacts(&self, alloc: Global) -> Result<Answer, AllocError>
        requires { (batch : DigestedState) × (self.now.effect.now ≡ Effect.Artifacts batch) }
        ensures { (batch : DigestedState) → self.now.effect.now ≡ Effect.Artifacts batch
            → IfOk result (λ answer. answer ≡ done None (artifacts_reply batch.rows)) }
    {
        let Effect::Artifacts(batch) = self.effect else {
            unreachable!()
        };
        done(alloc, None, &artifacts_reply(alloc, batch.rows())?)
    }

    /// The answer that shows this.
    fn show(&self, alloc: Global, policy: &Policy, shows: Shows) -> Result<Answer, AllocError>
        requires foresees { Foresees self.now }
        requires own { IsOwn (recorded_in self.now.tables.now) self.now.effect.now shows }
        ensures { (after : Recorded) → LeavesAll self.now after
            → IfOk result (λ answer. answer ≡ answer_of
            (record { settings = record { policy = policy.now }; world = after }) shows) }
    {
        match shows {
            Shows::Empty => done(alloc, None, &Reply::Empty),
            Shows::Row(place) => self.answer(alloc, place, None),
            Shows::Made(place) => {
                let token = self.token(policy, place);
                self.answer(alloc, place, Some(token))
            }
            Shows::Results { .. } => self.results(alloc),
            Shows::Exonerations { .. } => self.exonerations(alloc),
            Shows::Artifacts { .. } => self.artifacts(alloc),
        }
    }
}

/// The answer that shows what a change will leave to all alike, where what is shown is what it is
/// about. Nothing is changed. `Err` where there is no memory for it.
fn show_alike(
    alloc: Global,
    tables: &mut Tables,
    policy: &Policy,
    change: &Change,
    shows: Shows,
) -> Result<Answer, AllocError>
    requires timely { IsTimely tables.old.world.world change.now.moment }
    requires suits { Suits tables.old.world.world change.now.moment change.now.effect }
    requires own { IsOwn (recorded_in tables.old) change.now.effect shows }
    ensures roomier { IsRoomier tables.old tables.new }
    ensures answer { (after : Recorded)
        → Makes change.now.moment change.now.effect (recorded_in tables.old) after
        → IfOk result (λ answer. answer ≡ answer_of
        (record { settings = record { policy = policy.now }; world = after }) shows) }
{
    let is_final = ends_at_once(&mut tables.world, change.moment, &change.effect);
    let ahead = Ahead {
        tables,
        moment: change.moment,
        effect: &change.effect,
        is_final,
    };
    ahead.show(alloc, policy, shows)
}

/// The answer that shows to a caller what a change will leave, where what is shown is what it is
/// about, or is read and nothing is done. Nothing is changed. `Err` where there is no memory for
/// it.
pub fn show(
    alloc: Global,
    tables: &mut Tables,
    asker: &Asker,
    change: &Change,
    showing: &Showing,
) -> Result<Answer, AllocError>
    requires timely { IsTimely tables.old.world.world change.now.moment }
    requires suits { Suits tables.old.world.world change.now.moment change.now.effect }
    requires caller { asker.now.caller < length asker.now.policy.now.users }
    requires fits { Fits (recorded_in tables.old) change.now.effect showing.now }
    ensures roomier { IsRoomier tables.old tables.new }
    ensures answer { (after : Recorded)
        → Makes change.now.moment change.now.effect (recorded_in tables.old) after
        → IfOk result (Answers
        (record { settings = record { policy = asker.now.policy.now }; world = after })
        asker.now.caller showing.now) }
{
    match showing {
        Showing::Alike(shows) => show_alike(alloc, tables, asker.policy, change, *shows),
        Showing::Result(place) => see_result(alloc, tables, asker, *place),
        Showing::Results(query) => see_results(alloc, tables, asker, query),
        Showing::Verdicts(query) => see_verdicts(alloc, tables, asker, query),
        Showing::Artifact(place) => see_artifact(alloc, tables, asker, *place),
        Showing::Artifacts(query) => see_artifacts(alloc, tables, asker, query),
    }
}

/// The answer that showed a new invocation, made again with the deadline and the tags that it had.
/// `Err` where there is no memory for it.
fn show_made(
    alloc: Global,
    policy: &Policy,
    row: &Invocation,
    deadline: Moment,
    tags: &[Pair],
) -> Result<Answer, AllocError>
    ensures { IfOk result (λ answer. answer ≡ made_answer (record { policy = policy.now })
        deadline tags.now (Some row.now)) }
{
    let token = update_token(policy.secret(), &row.id);
    let seen = Seen::made(row, deadline, tags);
    let shown = shown_with(&seen, &[]);
    done(alloc, Some(token), &Reply::Invocation(shown))
}

/// The answer to a repeat, made again of what is kept. Where no row stands at a place that is kept,
/// none is shown. `Err` where there is no memory for it.
pub fn show_kept(
    alloc: Global,
    tables: &Tables,
    policy: &Policy,
    kept: &KeptAnswer,
) -> Result<Answer, AllocError>
    ensures { IfOk result (λ answer. answer ≡ kept_answer
        (record { settings = record { policy = policy.now }; world = recorded_in tables.now })
        kept.now) }
{
    match kept {
        KeptAnswer::Created {
            place,
            deadline,
            tags,
        } => {
            if *place < tables.world.count() {
                let row = tables.world.row(*place);
                show_made(alloc, policy, row, *deadline, tags.as_slice())
            } else {
                done(alloc, None, &Reply::Empty)
            }
        }
        KeptAnswer::Results { first, count } => {
            let rows = part_of(tables.results.rows(), *first, *count);
            done(alloc, None, &results_reply(&tables.world, rows))
        }
        KeptAnswer::Exonerations { first, count } => {
            let rows = part_of(tables.exonerations.rows(), *first, *count);
            done(alloc, None, &exonerations_reply(&tables.world, rows))
        }
        KeptAnswer::Artifacts { first, count } => {
            let rows = part_of(tables.artifacts.rows(), *first, *count);
            done(alloc, None, &artifacts_reply(alloc, rows)?)
        }
    }
}
