//! The results of a report in numbered batches.
ghost use Rattle.std.specs.Prelude.{◌≡◌, ◌+◌, ◌*◌, ◌/◌, ◌<◌, ◌^◌, IfOk, OnOk, take, drop};
ghost use Rattle.sink_plans.specs.Plans.{batch_from, batches_of};

use crate::plans::SinkBatch;
use crate::results::{MOST, Naming, take_results};
use lists::Listed;
use names_realms::Case;
use std::alloc::{AllocError, Global};
use std::collections::VecDeque;

/// The batch behind so many others, of the first cases that are left.
fn take_batch(
    alloc: Global,
    naming: &Naming<'_>,
    others: u64,
    cases: &mut VecDeque<Case>,
) -> Result<SinkBatch, AllocError>
    requires { 200 * others + 201 < 2 ^ 64 }
    ensures batch { IfOk result (λ b. b
        ≡ batch_from naming.now.digest naming.now.prefix.now cases.old.items others) }
    ensures rest { OnOk result (cases.new.items ≡ drop 200 cases.old.items) }
{
    let request_id = naming.digest.request_id(alloc, others + 1)?;
    let results = take_results(alloc, naming, MOST as u64 * others + 1, cases)?;
    Ok(SinkBatch {
        request_id,
        results: Listed::new(results),
    })
}

/// The batches of cases.
pub(crate) fn batches_of(
    alloc: Global,
    naming: &Naming<'_>,
    cases: Vec<Case>,
) -> Result<Listed<SinkBatch>, AllocError>
    ensures { IfOk result
        (λ bs. bs ≡ batches_of naming.now.digest naming.now.prefix.now cases.items) }
{
    let count = cases.len().div_ceil(MOST);
    let mut batches = Vec::with_capacity(alloc, count)?;
    let mut left = VecDeque::from(cases);
    for others in 0..count {
        batches.push(take_batch(alloc, naming, others as u64, &mut left)?)?;
    }
    Ok(Listed::new(batches))
}
