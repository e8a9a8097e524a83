//! What is asked for.
ghost use Rattle.std.specs.Prelude.{◌≡◌, [], IfOk};
ghost use Rattle.workload_plans.specs.Requests.{batch_request, create_request, finalise_request, include_request};
ghost use Rattle.workload_plans.specs.Requests.{page_request, result_of, results_from};

use crate::names::{invocation_id, no_variant, realm, request_id, result_id, test_id};
use field_kinds::Whole;
use message_forms::{
    BatchCreateTestResults, CreateInvocation, IncludingInvocation, NamedInvocation, NewInvocation,
    QueryTestVariants, Request,
};
use page_tokens::VerdictCursor;
use std::alloc::{AllocError, Global};
use test_results::TestResult;
use workload_draws::{Bytes, DrawnResult, Listed};

/// Nothing.
fn none<T>(alloc: Global) -> Listed<T>
    ensures { result ≡ [] }
{
    Listed::new(Vec::new(alloc))
}

/// That the invocation of a number be made.
pub(crate) fn create(alloc: Global, number: u64) -> Result<Request, AllocError>
    ensures { IfOk result (λ request. request ≡ create_request number) }
{
    Ok(Request::CreateInvocation(CreateInvocation {
        request_id: Some(request_id(alloc, "c", number)?),
        id: invocation_id(alloc, number)?,
        invocation: NewInvocation {
            realm: realm(alloc)?,
            deadline: None,
            tags: none(alloc),
        },
    }))
}

/// That it include another one.
pub(crate) fn include(alloc: Global, number: u64, other: u64) -> Result<Request, AllocError>
    ensures { IfOk result (λ request. request ≡ include_request number other) }
{
    let mut add = Vec::with_capacity(alloc, 1)?;
    add.push(invocation_id(alloc, other)?)?;
    Ok(Request::UpdateIncludedInvocations(IncludingInvocation {
        including: invocation_id(alloc, number)?,
        add: Listed::new(add),
    }))
}

/// The result of a number.
fn result_of(alloc: Global, number: u64, drawn: &DrawnResult) -> Result<TestResult, AllocError>
    ensures { IfOk result (λ r. r ≡ result_of number drawn.now) }
{
    Ok(TestResult {
        holder: 0,
        test: test_id(alloc, drawn.test)?,
        result: result_id(alloc, number)?,
        variant: no_variant(alloc)?,
        expected: drawn.expected,
        status: drawn.status,
        summary: none(alloc),
        start: None,
        duration: None,
        tags: none(alloc),
        message: none(alloc),
        properties: none(alloc),
    })
}

/// The results, numbered from 0 on.
fn results_of(alloc: Global, drawn: &[DrawnResult]) -> Result<Listed<TestResult>, AllocError>
    ensures { IfOk result (λ results. results ≡ results_from 0 drawn.now) }
{
    let mut results = Vec::with_capacity(alloc, drawn.len())?;
    for at in 0..drawn.len() {
        results.push(result_of(alloc, at as u64, &drawn[at])?)?;
    }
    Ok(Listed::new(results))
}

/// That it take these results.
pub(crate) fn batch(
    alloc: Global,
    number: u64,
    drawn: &[DrawnResult],
) -> Result<Request, AllocError>
    ensures { IfOk result (λ request. request ≡ batch_request number drawn.now) }
{
    Ok(Request::BatchCreateTestResults(BatchCreateTestResults {
        invocation: invocation_id(alloc, number)?,
        request_id: Some(request_id(alloc, "b", number)?),
        requests: results_of(alloc, drawn)?,
    }))
}

/// That it end.
pub(crate) fn finalise(alloc: Global, number: u64) -> Result<Request, AllocError>
    ensures { IfOk result (λ request. request ≡ finalise_request number) }
{
    Ok(Request::FinalizeInvocation(NamedInvocation {
        id: invocation_id(alloc, number)?,
    }))
}

/// A page of the verdicts that it reaches, from the start or behind one.
pub(crate) fn page(
    alloc: Global,
    number: u64,
    behind: Option<VerdictCursor>,
) -> Result<QueryTestVariants, AllocError>
    ensures { IfOk result (λ query. query ≡ page_request number behind) }
{
    let mut invocations = Vec::with_capacity(alloc, 1)?;
    invocations.push(invocation_id(alloc, number)?)?;
    let (Some(result_limit), Some(page_size)) = (Whole::new(0), Whole::new(100)) else {
        return Err(AllocError);
    };
    Ok(QueryTestVariants {
        invocations: Listed::new(invocations),
        result_limit,
        page_size,
        page_token: behind,
    })
}
