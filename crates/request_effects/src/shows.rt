//! What a request shows, by places.
ghost use Rattle.std.specs.Prelude.{◌≡◌, IfOk};
ghost use Rattle.service_effects.specs.States.{recorded_in};
ghost use Rattle.request_effects.specs.Shows.{artifacts_page, result_query, shows_artifact, shows_artifacts};
ghost use Rattle.request_effects.specs.Shows.{shows_exonerations, shows_of, shows_result, shows_results, shows_row};
ghost use Rattle.request_effects.specs.Shows.{verdict_query};
ghost use Rattle.request_rules.specs.RequestDemands.Demands.{demand_of};
ghost use Rattle.request_effects.specs.Places.{located_in};
ghost use Rattle.request_rules.specs.Named.{first_place, places_in};

use crate::cursors::{copied_result, copied_verdict};
use artifact_pages::ArtifactQuery;
use lists::Numbers;
use query_replies::{ResultQuery, VerdictQuery};
use request_rules::{ListArtifacts, Located, QueryTestResults, QueryTestVariants, Request};
use service_effects::Tables;
use std::alloc::{AllocError, Global};

/// What is shown of the world that a request leaves, the same to all who ask. A place is that of an
/// invocation in order of creation, counted from 0.
#[derive(Clone, Copy, Debug, PartialEq, Eq)]
pub enum Shows {
    /// Nothing but that it was done.
    Empty,
    /// The invocation at this place.
    Row(u32),
    /// The invocation at this place, which is new, with its update token.
    Made(u32),
    /// So many test results, one behind the other, from this place on.
    Results { first: u32, count: usize },
    /// So many exonerations, one behind the other, from this place on.
    Exonerations { first: u32, count: usize },
    /// So many artifacts, one behind the other, from this place on.
    Artifacts { first: u32, count: usize },
}

/// What is shown to who asks.
#[derive(Drop)]
pub enum Showing {
    /// What is the same to all.
    Alike(Shows),
    /// The test result at this place, in order of arrival and counted from 0.
    Result(u32),
    /// A page of test results.
    Results(ResultQuery),
    /// A page of verdicts.
    Verdicts(VerdictQuery),
    /// The artifact at this place, in order of arrival and counted from 0, with its contents.
    Artifact(u32),
    /// A page of artifacts.
    Artifacts(ArtifactQuery),
}

/// The invocation at a place, if there is one.
fn shows_row(place: Option<u32>) -> Shows
    ensures { result ≡ shows_row place }
{
    match place {
        Some(place) => Shows::Row(place),
        None => Shows::Empty,
    }
}

/// So many new test results of the invocation at a place, if there is one.
fn shows_results(tables: &Tables, place: Option<u32>, count: usize) -> Shows
    ensures { result ≡ shows_results (recorded_in tables.now) place count }
{
    match place {
        Some(_) => Shows::Results {
            first: tables.results.count(),
            count,
        },
        None => Shows::Empty,
    }
}

/// So many new exonerations of the invocation at a place, if there is one.
fn shows_exonerations(tables: &Tables, place: Option<u32>, count: usize) -> Shows
    ensures { result ≡ shows_exonerations (recorded_in tables.now) place count }
{
    match place {
        Some(_) => Shows::Exonerations {
            first: tables.exonerations.count(),
            count,
        },
        None => Shows::Empty,
    }
}

/// So many new artifacts of the invocation at a place, if there is one.
fn shows_artifacts(tables: &Tables, place: Option<u32>, count: usize) -> Shows
    ensures { result ≡ shows_artifacts (recorded_in tables.now) place count }
{
    match place {
        Some(_) => Shows::Artifacts {
            first: tables.artifacts.count(),
            count,
        },
        None => Shows::Empty,
    }
}

/// The test result at a place, if there is one.
fn shows_result(place: Option<u32>) -> Showing
    ensures { result ≡ shows_result place }
{
    match place {
        Some(place) => Showing::Result(place),
        None => Showing::Alike(Shows::Empty),
    }
}

/// The artifact at a place, if there is one.
fn shows_artifact(place: Option<u32>) -> Showing
    ensures { result ≡ shows_artifact place }
{
    match place {
        Some(place) => Showing::Artifact(place),
        None => Showing::Alike(Shows::Empty),
    }
}

/// The page of artifacts that is asked for, of the invocation at a place, if there is one. `Err`
/// where there is no memory.
fn artifacts_page(
    alloc: Global,
    place: Option<u32>,
    q: &ListArtifacts,
) -> Result<Showing, AllocError>
    ensures { IfOk result (λ showing. showing ≡ artifacts_page place q.now) }
{
    match place {
        Some(holder) => Ok(Showing::Artifacts(ArtifactQuery::of(alloc, holder, q)?)),
        None => Ok(Showing::Alike(Shows::Empty)),
    }
}

/// The page of results that is asked for, from the invocations at these places. `Err` where there
/// is no memory.
fn result_query(
    alloc: Global,
    tables: &Tables,
    places: &Located,
    q: &QueryTestResults,
) -> Result<ResultQuery, AllocError>
    requires { places.now.named ≡ places_in tables.now.world.world.invocations q.now.invocations }
    ensures { IfOk result (λ query. query ≡ result_query (recorded_in tables.now) q.now) }
{
    let _ = tables;
    Ok(ResultQuery {
        roots: Numbers::new(places.roots(alloc)?),
        query: q.query(alloc)?,
        after: copied_result(alloc, &q.page_token)?,
        size: q.size(),
    })
}

/// The page of verdicts that is asked for, from the invocations at these places. `Err` where there
/// is no memory.
fn verdict_query(
    alloc: Global,
    tables: &Tables,
    places: &Located,
    q: &QueryTestVariants,
) -> Result<VerdictQuery, AllocError>
    requires { places.now.named ≡ places_in tables.now.world.world.invocations q.now.invocations }
    ensures { IfOk result (λ query. query ≡ verdict_query (recorded_in tables.now) q.now) }
{
    let _ = tables;
    Ok(VerdictQuery {
        roots: Numbers::new(places.roots(alloc)?),
        query: q.query(alloc)?,
        after: copied_verdict(alloc, &q.page_token)?,
        size: q.size(),
        results: q.limit(),
    })
}

/// What a request shows, where the invocations, the result and the artifact that it names stand at
/// these places. `Err` where there is no memory for the page that it asks for.
pub fn shows_of(
    alloc: Global,
    tables: &Tables,
    places: &Located,
    request: &Request,
) -> Result<Showing, AllocError>
    requires { places.now ≡ located_in (recorded_in tables.now) (demand_of request.now) }
    ensures { IfOk result (λ showing. showing ≡ shows_of (recorded_in tables.now) request.now) }
{
    let first = shows_row(places.first());
    match request {
        Request::CreateInvocation(_) => Ok(Showing::Alike(Shows::Made(tables.world.count()))),
        Request::UpdateInvocation(_) => Ok(Showing::Alike(first)),
        Request::FinalizeInvocation(_) => Ok(Showing::Alike(first)),
        Request::UpdateIncludedInvocations(_) => Ok(Showing::Alike(Shows::Empty)),
        Request::BatchCreateTestResults(q) => {
            let count = q.requests.len();
            Ok(Showing::Alike(shows_results(tables, places.first(), count)))
        }
        Request::BatchCreateTestExonerations(q) => {
            let count = q.requests.len();
            Ok(Showing::Alike(shows_exonerations(tables, places.first(), count)))
        }
        Request::GetInvocation(_) => Ok(Showing::Alike(first)),
        Request::GetTestResult(_) => Ok(shows_result(places.row())),
        Request::QueryTestResults(q) => {
            Ok(Showing::Results(result_query(alloc, tables, places, q)?))
        }
        Request::QueryTestVariants(q) => {
            Ok(Showing::Verdicts(verdict_query(alloc, tables, places, q)?))
        }
        Request::BatchCreateArtifacts(q) => {
            let count = q.requests.len();
            Ok(Showing::Alike(shows_artifacts(tables, places.first(), count)))
        }
        Request::GetArtifact(_) => Ok(shows_artifact(places.artifact())),
        Request::ListArtifacts(q) => artifacts_page(alloc, places.first(), q),
    }
}
