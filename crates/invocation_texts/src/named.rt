//! Texts that are put together in room that is used again for each: the names of invocations, and
//! who made one.
ghost use Rattle.std.specs.Prelude.{◌≡◌, Some, OnOk, map, string_bytes};
ghost use Rattle.std.specs.List.{flat_map};
ghost use Rattle.serde_json.specs.Data.{string};
ghost use Rattle.json_fields.specs.NamesRealms.Names.{invocation_name};
ghost use Rattle.invocation_forms.specs.Named.{name_data};
ghost use Rattle.invocation_forms.specs.Replies.{user_text};
ghost use Rattle.token_texts.specs.Tokens.{tokens_of, member_tokens, list_shown, IsAdded};

use json::Writer;
use json_fields::InvocationId;
use std::alloc::AllocError;
use token_texts::{begin_array, end_array, put_key, put_string, put_text, text_of};

/// Writes the name of an invocation into the room.
fn write_name(room: &mut String, id: &InvocationId) -> Result<(), AllocError>
    ensures { OnOk result (string_bytes room.new ≡ invocation_name id.now) }
{
    room.clear();
    room.push_str("invocations/")?;
    room.push_str(id.as_str())
}

/// Writes a user, as who made an invocation, into the room.
fn write_user(room: &mut String, user: &[u8]) -> Result<(), AllocError>
    ensures { OnOk result (string_bytes room.new ≡ user_text user.now) }
{
    room.clear();
    room.push_str("user:")?;
    room.push_str(text_of(user))
}

/// Adds a member that is the name of an invocation.
pub(crate) fn put_name(
    out: &mut Writer,
    room: &mut String,
    name: &str,
    id: &InvocationId,
) -> Result<(), AllocError>
    ensures { OnOk result
        (IsAdded out.old out.new (member_tokens name.now (Some (name_data id.now)))) }
{
    write_name(room, id)?;
    put_text(out, name, room.as_str())?;
    Ok(())
}

/// Adds a member that is a user, as who made an invocation.
pub(crate) fn put_user(
    out: &mut Writer,
    room: &mut String,
    name: &str,
    user: &[u8],
) -> Result<(), AllocError>
    ensures { OnOk result
        (IsAdded out.old out.new (member_tokens name.now (Some (string (user_text user.now))))) }
{
    write_user(room, user)?;
    put_text(out, name, room.as_str())?;
    Ok(())
}

/// Adds the name of an invocation as an element.
fn put_element(out: &mut Writer, room: &mut String, id: &InvocationId) -> Result<(), AllocError>
    ensures { OnOk result (IsAdded out.old out.new (tokens_of (name_data id.now))) }
{
    write_name(room, id)?;
    put_string(out, room.as_str())?;
    Ok(())
}

fn put_each_element(
    out: &mut Writer,
    room: &mut String,
    ids: &[&InvocationId],
) -> Result<(), AllocError>
    ensures { OnOk result
        (IsAdded out.old out.new (flat_map (λ id. tokens_of (name_data id.now)) ids.now)) }
{
    for id in ids {
        put_element(out, room, *id)?;
    }
    Ok(())
}

/// Adds a member that lists the names of invocations, where there are any.
pub(crate) fn put_names(
    out: &mut Writer,
    room: &mut String,
    name: &str,
    ids: &[&InvocationId],
) -> Result<(), AllocError>
    ensures { OnOk result (IsAdded out.old out.new
        (member_tokens name.now (list_shown name_data (map (λ id. id.now) ids.now)))) }
{
    if ids.is_empty() {
        return Ok(());
    }
    put_key(out, name)?;
    begin_array(out)?;
    put_each_element(out, room, ids)?;
    end_array(out)?;
    Ok(())
}
