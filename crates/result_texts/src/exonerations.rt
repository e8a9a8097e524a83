//! An exoneration, and lists of them.
ghost use Rattle.std.specs.Prelude.{OnOk};
ghost use Rattle.std.specs.List.{flat_map};
ghost use Rattle.result_forms.specs.Replies.{exoneration_data};
ghost use Rattle.token_texts.specs.Tokens.{tokens_of, IsAdded};

use crate::names::{NameRoom, id_of_exoneration, put_exoneration_name};
use crate::pairs::put_variant;
use crate::values::{put_bytes, put_label};
use json::Writer;
use json_fields::InvocationId;
use std::alloc::{AllocError, Global};
use test_results::TestExoneration;
use token_texts::{begin_object, end_object, put_text};

/// Adds an exoneration. Its members stand in byte order of their names.
fn put_exoneration(
    alloc: Global,
    out: &mut Writer,
    room: &mut NameRoom,
    id: &InvocationId,
    row: &TestExoneration,
) -> Result<(), AllocError>
    ensures { OnOk result (IsAdded out.old out.new (tokens_of (exoneration_data id.now row.now))) }
{
    let own = id_of_exoneration(alloc, row)?;
    begin_object(out)?;
    put_text(out, "exonerationId", own.as_str())?;
    put_bytes(out, "explanationHtml", row.explanation.as_slice())?;
    put_exoneration_name(out, room, id, row, own.as_str())?;
    put_text(out, "testId", row.test.as_str())?;
    put_variant(alloc, out, "variant", &row.variant)?;
    put_label(out, "variantHash", &row.variant)?;
    end_object(out)?;
    Ok(())
}

/// Adds exonerations, one behind the other.
pub(crate) fn put_exonerations(
    alloc: Global,
    out: &mut Writer,
    id: &InvocationId,
    rows: &[TestExoneration],
) -> Result<(), AllocError>
    ensures { OnOk result
        (IsAdded out.old out.new (flat_map (λ x. tokens_of (exoneration_data id.now x)) rows.now)) }
{
    let mut room = NameRoom::new(alloc);
    for row in rows {
        put_exoneration(alloc, out, &mut room, id, row)?;
    }
    Ok(())
}
