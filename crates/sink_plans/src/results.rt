//! The cases of a report as results.
ghost use Rattle.std.specs.Prelude.{◌≡◌, ◌+◌, ◌<◌, ◌^◌, IfOk, OnOk, take, drop, []};
ghost use Rattle.sink_plans.specs.Results.{result_of, results_from};

use lists::Listed;
use names_realms::{Bytes, Case, NameFault, Variant};
use report_ids::{ReportDigest, test_id};
use std::alloc::{AllocError, Global};
use std::collections::VecDeque;
use test_results::TestResult;

/// How many results a batch has at most.
pub(crate) const MOST: usize = 200;

/// What the ids of results are made of.
#[derive(Drop)]
pub(crate) struct Naming<'p> {
    pub(crate) digest: ReportDigest,
    pub(crate) prefix: &'p str,
}

/// A variant without a pair.
fn no_variant(alloc: Global) -> Result<Variant, AllocError>
    ensures { IfOk result (λ v. v ≡ []) }
{
    match Variant::from_pairs(alloc, Vec::new(alloc)) {
        Ok(variant) => Ok(variant),
        Err(NameFault::Memory) => Err(AllocError),
        Err(_) => unreachable!(),
    }
}

/// The result of the case with this number.
fn result_of(
    alloc: Global,
    naming: &Naming<'_>,
    number: u64,
    case: Case,
) -> Result<TestResult, AllocError>
    ensures { IfOk result
        (λ r. r ≡ result_of naming.now.digest naming.now.prefix.now number case) }
{
    let test = test_id(alloc, naming.prefix, case.name.as_slice())?;
    let result = naming.digest.result_id(alloc, number)?;
    Ok(TestResult {
        holder: 0,
        test,
        result,
        variant: no_variant(alloc)?,
        expected: case.expected,
        status: case.status,
        summary: Bytes::new(Vec::new(alloc)),
        start: None,
        duration: case.duration,
        tags: Listed::new(Vec::new(alloc)),
        message: case.message,
        properties: Bytes::new(Vec::new(alloc)),
    })
}

/// The results of the first cases, of which the first has this number: those of a batch.
pub(crate) fn take_results(
    alloc: Global,
    naming: &Naming<'_>,
    first: u64,
    cases: &mut VecDeque<Case>,
) -> Result<Vec<TestResult>, AllocError>
    requires { first + 200 < 2 ^ 64 }
    ensures results { IfOk result (λ v. v.items
        ≡ results_from naming.now.digest naming.now.prefix.now first (take 200 cases.old.items)) }
    ensures rest { OnOk result (cases.new.items ≡ drop 200 cases.old.items) }
{
    let mut results = Vec::with_capacity(alloc, MOST.min(cases.len()))?;
    for at in 0..MOST {
        match cases.pop_front() {
            Some(case) => results.push(result_of(alloc, naming, first + at as u64, case)?)?,
            None => return Ok(results),
        }
    }
    Ok(results)
}
