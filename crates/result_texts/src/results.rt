//! A result, and lists of them.
ghost use Rattle.std.specs.Prelude.{OnOk};
ghost use Rattle.std.specs.List.{flat_map};
ghost use Rattle.result_forms.specs.Replies.{result_data};
ghost use Rattle.token_texts.specs.Tokens.{tokens_of, IsAdded};

use crate::names::{NameRoom, put_result_name};
use crate::pairs::put_variant;
use crate::values::{put_bytes, put_flag, put_label, put_properties, put_reason, put_status};
use json::Writer;
use json_fields::InvocationId;
use std::alloc::{AllocError, Global};
use test_results::TestResult;
use token_texts::{begin_object, end_object, put_optional, put_tags, put_text};

/// Adds a result. Its members stand in byte order of their names.
fn put_result(
    alloc: Global,
    out: &mut Writer,
    room: &mut NameRoom,
    id: &InvocationId,
    row: &TestResult,
) -> Result<(), AllocError>
    ensures { OnOk result (IsAdded out.old out.new (tokens_of (result_data id.now row.now))) }
{
    begin_object(out)?;
    put_optional(alloc, out, "duration", &row.duration)?;
    put_flag(out, "expected", row.expected)?;
    put_reason(out, "failureReason", row.message.as_slice())?;
    put_result_name(out, room, id, row)?;
    put_properties(alloc, out, "properties", row.properties.as_slice())?;
    put_text(out, "resultId", row.result.as_str())?;
    put_optional(alloc, out, "startTime", &row.start)?;
    put_status(out, "status", row.status)?;
    put_bytes(out, "summaryHtml", row.summary.as_slice())?;
    put_tags(out, "tags", row.tags.as_slice())?;
    put_text(out, "testId", row.test.as_str())?;
    put_variant(alloc, out, "variant", &row.variant)?;
    put_label(out, "variantHash", &row.variant)?;
    end_object(out)?;
    Ok(())
}

/// Adds results, one behind the other.
pub(crate) fn put_results(
    alloc: Global,
    out: &mut Writer,
    id: &InvocationId,
    rows: &[TestResult],
) -> Result<(), AllocError>
    ensures { OnOk result
        (IsAdded out.old out.new (flat_map (λ r. tokens_of (result_data id.now r)) rows.now)) }
{
    let mut room = NameRoom::new(alloc);
    for row in rows {
        put_result(alloc, out, &mut room, id, row)?;
    }
    Ok(())
}
