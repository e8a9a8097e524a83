//! The names of results.
ghost use Rattle.std.specs.Prelude.{◌≡◌, IfOk, string_bytes};
ghost use Rattle.name_parts.specs.Escapes.{escaped};
ghost use Rattle.result_forms.specs.Replies.{name_of_result};

use name_parts::{append_escaped, owned_text};
use names_realms::{InvocationId, TestId};
use std::alloc::{AllocError, Global};
use test_results::TestResult;

/// The id of a test, as names spell it.
fn escaped_test(alloc: Global, test: &TestId) -> Result<String, AllocError>
    ensures { IfOk result (λ text. string_bytes text ≡ escaped test.now) }
{
    let mut out = Vec::new(alloc);
    append_escaped(&mut out, test.as_slice())?;
    owned_text(alloc, out.as_slice())
}

/// The name of a result of an invocation.
#[tactic(auto, unfolding(names_realms::specs::ResultNames::result_name))]
pub fn name_of_result(
    alloc: Global,
    id: &InvocationId,
    row: &TestResult,
) -> Result<String, AllocError>
    ensures { IfOk result (λ text. string_bytes text ≡ name_of_result id.now row.now) }
{
    let id = id.as_str();
    let test = escaped_test(alloc, &row.test)?;
    let result = row.result.as_str();
    format!(in alloc; "invocations/{id}/tests/{test}/results/{result}")
}
