//! The name of a result.
ghost use Rattle.std.specs.Prelude.{◌≡◌, IfOk};
ghost use Rattle.names_realms.specs.ResultNames.{result_name};

use names_realms::{InvocationId, append, append_escaped};
use std::alloc::{AllocError, Global};
use test_results::TestResult;

/// The name of a result of the invocation with this id.
#[tactic(auto, unfolding(names_realms::specs::ResultNames::result_name))]
pub(crate) fn name_of(
    alloc: Global,
    id: &InvocationId,
    row: &TestResult,
) -> Result<Vec<u8>, AllocError>
    ensures { IfOk result (λ text. text.items ≡ result_name (record {
      invocation = id.now;
      test = row.now.test;
      result = row.now.result;
    })) }
{
    let mut out = Vec::from_slice(alloc, b"invocations/")?;
    append(&mut out, id.as_slice())?;
    append(&mut out, b"/tests/")?;
    append_escaped(&mut out, row.test.as_slice())?;
    append(&mut out, b"/results/")?;
    append(&mut out, row.result.as_slice())?;
    Ok(out)
}
