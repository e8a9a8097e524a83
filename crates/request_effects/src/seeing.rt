//! What is shown to who asks: of results and verdicts what the caller may see, and artifacts.
ghost use Rattle.std.specs.Prelude.{◌≡◌, ◌<◌, IfOk, length};
ghost use Rattle.query_replies.specs.VerdictLists.World.{AreRoots, IsWhole, world_of};
ghost use Rattle.service_effects.specs.States.{recorded_in};
ghost use Rattle.request_effects.specs.declared.shows.Showing.TheVariants as showing;
ghost use Rattle.request_effects.specs.Answers.{Answers, HasResult, done_with, listed_in};

use crate::showing::done;
use artifact_pages::{ArtifactQuery, show_artifacts};
use call_forms::Answer;
use lists::Bytes;
use query_replies::{
    Asker, ResultQuery, VerdictQuery, View, show_result, show_results, show_verdicts, write_result,
    write_results_page, write_verdicts_page,
};
use request_rules::{Reply, ShownArtifact};
use service_effects::Tables;
use std::alloc::{AllocError, Global};

/// What is recorded, as results and verdicts are listed of it.
fn view_of(tables: &Tables) -> View<'_>
    ensures world { world_of result ≡ listed_in (recorded_in tables.now) }
    ensures whole { IsWhole result }
{
    View {
        table: tables.world.table(),
        graph: tables.world.graph(),
        results: &tables.results,
        exonerations: &tables.exonerations,
    }
}

/// The answer that a request succeeded, with this reply.
fn done_with(body: Bytes) -> Answer
    ensures { result ≡ done_with body }
{
    Answer {
        status: 200,
        code: 0,
        token: None,
        body,
    }
}

/// The answer that shows the result at a place. `Err` where there is no memory for it, as below.
pub(crate) fn see_result(
    alloc: Global,
    tables: &Tables,
    asker: &Asker,
    place: u32,
) -> Result<Answer, AllocError>
    requires caller { asker.now.caller < length asker.now.policy.now.users }
    requires there { HasResult (listed_in (recorded_in tables.now)) place }
    ensures { IfOk result (Answers (record {
      settings = record { policy = asker.now.policy.now };
      world = recorded_in tables.now;
    }) asker.now.caller (showing.Result place)) }
{
    let view = view_of(tables);
    let held = show_result(&view, asker, place);
    Ok(done_with(write_result(alloc, &held)?))
}

/// The answer that shows a page of results.
pub(crate) fn see_results(
    alloc: Global,
    tables: &Tables,
    asker: &Asker,
    query: &ResultQuery,
) -> Result<Answer, AllocError>
    requires caller { asker.now.caller < length asker.now.policy.now.users }
    requires roots { AreRoots (listed_in (recorded_in tables.now)) query.now.roots }
    requires size { 0 < query.now.size }
    ensures { IfOk result (Answers (record {
      settings = record { policy = asker.now.policy.now };
      world = recorded_in tables.now;
    }) asker.now.caller (showing.Results query.now)) }
{
    let view = view_of(tables);
    let page = show_results(alloc, &view, asker, query)?;
    Ok(done_with(write_results_page(alloc, &page)?))
}

/// The answer that shows a page of verdicts.
pub(crate) fn see_verdicts(
    alloc: Global,
    tables: &Tables,
    asker: &Asker,
    query: &VerdictQuery,
) -> Result<Answer, AllocError>
    requires caller { asker.now.caller < length asker.now.policy.now.users }
    requires roots { AreRoots (listed_in (recorded_in tables.now)) query.now.roots }
    requires size { 0 < query.now.size }
    ensures { IfOk result (Answers (record {
      settings = record { policy = asker.now.policy.now };
      world = recorded_in tables.now;
    }) asker.now.caller (showing.Verdicts query.now)) }
{
    let view = view_of(tables);
    let page = show_verdicts(alloc, &view, asker, query)?;
    Ok(done_with(write_verdicts_page(alloc, &page)?))
}

/// The answer that shows the artifact at a place, whole.
pub(crate) fn see_artifact(
    alloc: Global,
    tables: &Tables,
    asker: &Asker,
    place: u32,
) -> Result<Answer, AllocError>
    requires { place < length tables.now.artifacts.rows }
    ensures { IfOk result (Answers (record {
      settings = record { policy = asker.now.policy.now };
      world = recorded_in tables.now;
    }) asker.now.caller (showing.Artifact place)) }
{
    let _ = asker;
    let row = tables.artifacts.row(place);
    done(alloc, None, &Reply::Artifact(ShownArtifact { row }))
}

/// The answer that shows a page of artifacts.
pub(crate) fn see_artifacts(
    alloc: Global,
    tables: &Tables,
    asker: &Asker,
    query: &ArtifactQuery,
) -> Result<Answer, AllocError>
    ensures { IfOk result (Answers (record {
      settings = record { policy = asker.now.policy.now };
      world = recorded_in tables.now;
    }) asker.now.caller (showing.Artifacts query.now)) }
{
    let _ = asker;
    let page = show_artifacts(alloc, &tables.artifacts, query)?;
    done(alloc, None, &Reply::Artifacts(page))
}
