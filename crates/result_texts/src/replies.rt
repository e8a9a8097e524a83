//! The objects that hold the rows of a batch, behind what stands before.
ghost use Rattle.std.specs.Prelude.{◌≡◌, ◌++◌, IfOk, OnOk};
ghost use Rattle.serde_json.specs.Data.{object, no_members};
ghost use Rattle.serde_json.specs.Written.{compact_text};
ghost use Rattle.json_fields.specs.Writing.{put_list};
ghost use Rattle.result_forms.specs.Replies.{result_data, exoneration_data};
ghost use Rattle.token_texts.specs.Tokens.{member_tokens, list_shown, IsAdded};

use crate::exonerations::put_exonerations;
use crate::results::put_results;
use json::Writer;
use json_fields::{InvocationId, Name};
use std::alloc::{AllocError, Global};
use test_results::{TestExoneration, TestResult};
use token_texts::{begin_array, begin_object, end_array, end_object, put_key};

/// Adds the list of results, where there are any.
fn put_result_list(
    alloc: Global,
    out: &mut Writer,
    name: &Name,
    id: &InvocationId,
    rows: &[TestResult],
) -> Result<(), AllocError>
    ensures { OnOk result (IsAdded out.old out.new
        (member_tokens name.now.camel (list_shown (result_data id.now) rows.now))) }
{
    if rows.is_empty() {
        return Ok(());
    }
    put_key(out, name.camel())?;
    begin_array(out)?;
    put_results(alloc, out, id, rows)?;
    end_array(out)?;
    Ok(())
}

/// The text with the JSON object behind it whose one member lists the results, whole and in their
/// order, each by the id of their invocation; the object is empty where there are none. `Err` where
/// there is no memory for it.
pub fn append_results(
    alloc: Global,
    text: Vec<u8>,
    name: &Name,
    id: &InvocationId,
    rows: &[TestResult],
) -> Result<Vec<u8>, AllocError>
    ensures { IfOk result (λ whole. whole.items ≡ text.items ++ compact_text
        (object (put_list name.now (result_data id.now) rows.now no_members))) }
{
    let mut out = Writer::new(text);
    begin_object(&mut out)?;
    put_result_list(alloc, &mut out, name, id, rows)?;
    end_object(&mut out)?;
    Ok(out.into_inner())
}

/// Adds the list of exonerations, where there are any.
fn put_exoneration_list(
    alloc: Global,
    out: &mut Writer,
    name: &Name,
    id: &InvocationId,
    rows: &[TestExoneration],
) -> Result<(), AllocError>
    ensures { OnOk result (IsAdded out.old out.new
        (member_tokens name.now.camel (list_shown (exoneration_data id.now) rows.now))) }
{
    if rows.is_empty() {
        return Ok(());
    }
    put_key(out, name.camel())?;
    begin_array(out)?;
    put_exonerations(alloc, out, id, rows)?;
    end_array(out)?;
    Ok(())
}

/// The text with the JSON object behind it whose one member lists the exonerations, whole and in
/// their order, each by the id of their invocation; the object is empty where there are none. `Err`
/// where there is no memory for it.
pub fn append_exonerations(
    alloc: Global,
    text: Vec<u8>,
    name: &Name,
    id: &InvocationId,
    rows: &[TestExoneration],
) -> Result<Vec<u8>, AllocError>
    ensures { IfOk result (λ whole. whole.items ≡ text.items ++ compact_text
        (object (put_list name.now (exoneration_data id.now) rows.now no_members))) }
{
    let mut out = Writer::new(text);
    begin_object(&mut out)?;
    put_exoneration_list(alloc, &mut out, name, id, rows)?;
    end_object(&mut out)?;
    Ok(out.into_inner())
}
