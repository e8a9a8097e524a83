//! Words for requests with a batch of results or exonerations, and for their replies.
use crate::faults::Fault;
use json_fields::read_body;
use lists::Listed;
use message_forms::{Reply, ShownExonerations, ShownResults, write_reply};
use result_forms::{BatchCreateTestExonerations, BatchCreateTestResults};
use std::alloc::{AllocError, Global};
use test_results::TestExoneration;

/// Where the first exoneration of a batch is shown to stand.
const FIRST_PLACE: u32 = 7;

/// Where each further one is, so that places of one digit and of two are shown.
const NEXT_PLACE: u32 = 12;

/// What such a word makes of a body, none for another word.
pub(crate) fn told(alloc: Global, word: &str, body: &[u8]) -> Result<Option<Vec<u8>>, Fault> {
    let told = match word {
        "results" => results(alloc, body)?,
        "exonerations" => exonerations(alloc, body)?,
        "results-reply" => results_reply(alloc, body)?,
        "exonerations-reply" => exonerations_reply(alloc, body)?,
        _ => return Ok(None),
    };
    Ok(Some(told))
}

/// What is written of the batch of results that a body is.
fn results(alloc: Global, body: &[u8]) -> Result<Vec<u8>, Fault> {
    let batch = read_body::<BatchCreateTestResults>(alloc, body)?;
    Ok(batch.write(alloc)?.to_vec(alloc)?)
}

/// What is written of the batch of exonerations that a body is.
fn exonerations(alloc: Global, body: &[u8]) -> Result<Vec<u8>, Fault> {
    let batch = read_body::<BatchCreateTestExonerations>(alloc, body)?;
    Ok(batch.write(alloc)?.to_vec(alloc)?)
}

/// The reply that shows the results of a batch.
fn results_reply(alloc: Global, body: &[u8]) -> Result<Vec<u8>, Fault> {
    let batch = read_body::<BatchCreateTestResults>(alloc, body)?;
    let shown = ShownResults {
        invocation: &batch.invocation,
        rows: batch.requests.as_slice(),
    };
    Ok(write_reply(alloc, &Reply::Results(shown))?.into_vec())
}

/// The reply that shows the exonerations of a batch.
fn exonerations_reply(alloc: Global, body: &[u8]) -> Result<Vec<u8>, Fault> {
    let batch = read_body::<BatchCreateTestExonerations>(alloc, body)?;
    let rows = placed(alloc, batch.requests)?;
    let shown = ShownExonerations {
        invocation: &batch.invocation,
        rows: rows.as_slice(),
    };
    Ok(write_reply(alloc, &Reply::Exonerations(shown))?.into_vec())
}

/// Exonerations at places, the first at one, and each further one at another.
fn placed(
    alloc: Global,
    rows: Listed<TestExoneration>,
) -> Result<Vec<TestExoneration>, AllocError> {
    let mut out = Vec::new(alloc);
    let mut place = FIRST_PLACE;
    for row in rows.into_vec() {
        let mut row = row;
        row.place = place;
        place = NEXT_PLACE;
        out.push(row)?;
    }
    Ok(out)
}
