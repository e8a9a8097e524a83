//! The names of rows, and the ids of exonerations.
ghost use Rattle.std.specs.Prelude.{◌≡◌, ◌++◌, Some, OnOk, IfOk, codes, string_bytes};
ghost use Rattle.json_fields.specs.NameParts.Escapes.{escaped};
ghost use Rattle.serde_json.specs.Data.{string};
ghost use Rattle.result_forms.specs.Replies.{name_of_result, exoneration_id, name_of_exoneration};
ghost use Rattle.token_texts.specs.Tokens.{member_tokens, IsAdded};

use json::Writer;
use json_fields::{InvocationId, TestId, append_escaped};
use std::alloc::{AllocError, Global};
use std::str::from_utf8;
use test_results::{TestExoneration, TestResult};
use token_texts::put_text;

/// Room for the names of rows, which is used again for each.
#[derive(Drop)]
pub(crate) struct NameRoom {
    escaped: Vec<u8>,
    name: String,
}

impl NameRoom {
    pub(crate) fn new(alloc: Global) -> NameRoom {
        NameRoom {
            escaped: Vec::new(alloc),
            name: String::new(alloc),
        }
    }
}

/// Begins a name with those of the invocation and of the test.
fn begin_name(room: &mut NameRoom, id: &InvocationId, test: &TestId) -> Result<(), AllocError>
    ensures { OnOk result (string_bytes room.new.name
        ≡ codes "invocations/" ++ id.now ++ codes "/tests/" ++ escaped test.now) }
{
    room.escaped.clear();
    append_escaped(&mut room.escaped, test.as_slice())?;
    room.name.clear();
    room.name.push_str("invocations/")?;
    room.name.push_str(id.as_str())?;
    room.name.push_str("/tests/")?;
    match from_utf8(room.escaped.as_slice()) {
        Ok(text) => room.name.push_str(text),
        Err(_) => unreachable!(),
    }
}

/// Writes the name of a result into the room.
fn name_result(room: &mut NameRoom, id: &InvocationId, row: &TestResult) -> Result<(), AllocError>
    ensures { OnOk result (string_bytes room.new.name ≡ name_of_result id.now row.now) }
{
    begin_name(room, id, &row.test)?;
    room.name.push_str("/results/")?;
    room.name.push_str(row.result.as_str())?;
    Ok(())
}

/// Adds the name of a result.
pub(crate) fn put_result_name(
    out: &mut Writer,
    room: &mut NameRoom,
    id: &InvocationId,
    row: &TestResult,
) -> Result<(), AllocError>
    ensures { OnOk result (IsAdded out.old out.new
        (member_tokens (codes "name") (Some (string (name_of_result id.now row.now))))) }
{
    name_result(room, id, row)?;
    put_text(out, "name", room.name.as_str())
}

/// The id of an exoneration.
pub(crate) fn id_of_exoneration(alloc: Global, row: &TestExoneration) -> Result<String, AllocError>
    ensures { IfOk result (λ text. string_bytes text ≡ exoneration_id row.now) }
{
    let label = row.variant.label();
    let place = row.place;
    match from_utf8(label.as_slice()) {
        Ok(label) => format!(in alloc; "{label}:{place}"),
        Err(_) => unreachable!(),
    }
}

/// Writes the name of an exoneration with this id into the room.
fn name_exoneration(
    room: &mut NameRoom,
    id: &InvocationId,
    row: &TestExoneration,
    own: &str,
) -> Result<(), AllocError>
    requires { own.now ≡ exoneration_id row.now }
    ensures { OnOk result (string_bytes room.new.name ≡ name_of_exoneration id.now row.now) }
{
    begin_name(room, id, &row.test)?;
    room.name.push_str("/exonerations/")?;
    room.name.push_str(own)?;
    Ok(())
}

/// Adds the name of an exoneration with this id.
pub(crate) fn put_exoneration_name(
    out: &mut Writer,
    room: &mut NameRoom,
    id: &InvocationId,
    row: &TestExoneration,
    own: &str,
) -> Result<(), AllocError>
    requires { own.now ≡ exoneration_id row.now }
    ensures { OnOk result (IsAdded out.old out.new
        (member_tokens (codes "name") (Some (string (name_of_exoneration id.now row.now))))) }
{
    name_exoneration(room, id, row, own)?;
    put_text(out, "name", room.name.as_str())
}
