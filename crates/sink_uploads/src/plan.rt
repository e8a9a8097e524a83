//! The upload of a plan.
ghost use Rattle.std.specs.Prelude.{◌≡◌, ◌-◌, ◌^◌, ◌≤◌, List, IfOk, length, map, min, sum_by};
ghost use Rattle.sink_uploads.specs.Dialled.{Dial};
ghost use Rattle.sink_uploads.specs.Requests.{requests_of, cases_in};
ghost use Rattle.sink_uploads.specs.Runs.{Runs, begun};

use crate::course::{Sent, SinkFault, upload_requests};
use crate::request::{Target, batch_text};
use dialers::Dialer;
use lists::Bytes;
use sink_plans::{SinkBatch, SinkPlan};
use std::alloc::{AllocError, Global};

/// Uploads a plan, batch after batch, over links that it dials and gives back, each of them.
///
/// A batch is written whole before its reply is read, and begins anew on the next link, with the
/// same bytes, where its link failed, ended or took nothing. A plan without batches dials nothing.
/// `Sent` comes where each batch got a whole reply of status 200; `GaveUp` at five faults and ends
/// on one batch; `Refused` at a whole reply of another status; `BadReply` where the bytes that came
/// begin no reply; `Memory` where there is no memory.
pub fn upload<X: Dialer>(alloc: Global, dialer: &mut X, plan: SinkPlan) -> Result<Sent, SinkFault>
    ensures runs { (dials : List (Dial X.L)) × Runs X.L.ends (requests_of plan) begun
        (X.dials dialer.old) dials result (X.dials dialer.new) }
    ensures batches { IfOk result (λ sent. sent.batches ≡ length plan.batches) }
    ensures cases { IfOk result (λ sent. sent.cases ≡ min (cases_in plan.batches) (2 ^ 64 - 1)) }
{
    let sent = Sent {
        batches: plan.batches.len() as u64,
        cases: count_cases(plan.batches.as_slice()),
    };
    match texts_of(alloc, plan) {
        Ok(requests) => upload_requests(alloc, dialer, requests.as_slice(), sent),
        Err(_) => Err(SinkFault::Memory),
    }
}

/// How many cases batches have; the greatest u64 where they are more.
fn count_cases(batches: &[SinkBatch]) -> u64
    ensures { result ≡ min (cases_in batches.now) (2 ^ 64 - 1) }
{
    let mut cases: u64 = 0;
    for batch in batches {
        cases = cases.saturating_add(batch.results.len() as u64);
    }
    cases
}

/// The requests of a plan.
fn texts_of(alloc: Global, plan: SinkPlan) -> Result<Vec<Bytes>, AllocError>
    ensures { IfOk result (λ texts. texts.items ≡ requests_of plan) }
{
    let SinkPlan {
        invocation,
        bearer,
        update_token,
        batches,
    } = plan;
    let target = Target {
        invocation: &invocation,
        bearer: &bearer,
        update_token: &update_token,
    };
    let mut texts = Vec::with_capacity(alloc, batches.len())?;
    for batch in batches.into_vec() {
        texts.push(batch_text(alloc, target, batch)?)?;
    }
    Ok(texts)
}
