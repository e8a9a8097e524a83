//! What is uploaded of a report, and where to.
ghost use Rattle.std.specs.Prelude.{◌≡◌, ◌≤◌, ◌^◌, IfOk, All, length};
ghost use Rattle.report_ids.specs.Digests.{IsRequestName};
ghost use Rattle.sink_plans.specs.Plans.{plan_for};
ghost use Rattle.sink_plans.specs.Results.{IsPlain};

use crate::batches::batches_of;
use crate::results::Naming;
use lists::{Bytes, Listed};
use names_realms::{Case, InvocationId};
use report_ids::ReportDigest;
use std::alloc::{AllocError, Global};
use test_results::TestResult;

/// Which invocation results are uploaded to, and by which tokens.
#[derive(Drop)]
pub struct Destination {
    pub invocation: InvocationId,
    /// The token of the caller.
    pub bearer: Bytes,
    /// The update token of the invocation.
    pub update_token: Bytes,
}

/// Results that go into one request.
#[derive(Drop)]
pub struct SinkBatch {
    pub request_id: Bytes,
    /// The results, of which there are at most 200.
    pub results: Listed<TestResult>,
}

/// What is uploaded of a report.
#[derive(Drop)]
pub struct SinkPlan {
    pub invocation: InvocationId,
    pub bearer: Bytes,
    pub update_token: Bytes,
    pub batches: Listed<SinkBatch>,
}

/// The plan of a report that has these cases: a result of each under the prefix and its name, in
/// batches of 200. The ids of results and requests are made of a digest over the invocation's id
/// and the report, so the same report gets the same ones. `Err` where there is no memory for it.
pub fn plan_of(
    alloc: Global,
    report: &[u8],
    cases: Vec<Case>,
    prefix: &str,
    to: Destination,
) -> Result<SinkPlan, AllocError>
    ensures plan { IfOk result
        (λ plan. plan ≡ plan_for report.now cases.items prefix.now to) }
    // Each batch can be sent, and each of its results is read again.
    ensures few { IfOk result (λ plan. All (λ b. length b.results ≤ 200) plan.batches) }
    ensures names { IfOk result (λ plan. length cases.items ≤ 2 ^ 40
        → All (λ b. IsRequestName b.request_id) plan.batches) }
    ensures form { IfOk result (λ plan. All (λ b. All IsPlain b.results) plan.batches) }
{
    let digest = ReportDigest::new(&to.invocation, report);
    let naming = Naming { digest, prefix };
    let batches = batches_of(alloc, &naming, cases)?;
    let Destination {
        invocation,
        bearer,
        update_token,
    } = to;
    Ok(SinkPlan {
        invocation,
        bearer,
        update_token,
        batches,
    })
}
