//! An invocation, behind what stands before.
ghost use Rattle.std.specs.Prelude.{◌≡◌, ◌++◌, IfOk, OnOk};
ghost use Rattle.serde_json.specs.Written.{compact_text};
ghost use Rattle.invocation_forms.specs.Replies.{invocation_data};
ghost use Rattle.token_texts.specs.Tokens.{tokens_of, IsAdded};

use crate::named::{put_name, put_names, put_user};
use invocation_forms::{ShownInvocation, state_name};
use json::Writer;
use std::alloc::{AllocError, Global};
use token_texts::{begin_object, end_object, put_optional, put_spelled, put_tags, put_text};

/// Room for the name of an invocation, whose id has at most 100 bytes, and for most creators.
const NAME_ROOM: usize = 128;

/// Adds an invocation. Its members stand in byte order of their names.
fn put_invocation(
    alloc: Global,
    out: &mut Writer,
    room: &mut String,
    shown: &ShownInvocation,
) -> Result<(), AllocError>
    ensures { OnOk result (IsAdded out.old out.new (tokens_of (invocation_data shown.now))) }
{
    begin_object(out)?;
    put_spelled(alloc, out, "createTime", &shown.created)?;
    put_user(out, room, "createdBy", shown.creator.as_slice())?;
    put_spelled(alloc, out, "deadline", &shown.deadline)?;
    put_optional(alloc, out, "finalizeStartTime", &shown.started)?;
    put_optional(alloc, out, "finalizeTime", &shown.finished)?;
    put_names(out, room, "includedInvocations", shown.included)?;
    put_name(out, room, "name", shown.id)?;
    put_text(out, "realm", shown.realm.as_str())?;
    put_text(out, "state", state_name(shown.state))?;
    put_tags(out, "tags", shown.tags)?;
    end_object(out)?;
    Ok(())
}

/// The text with the JSON object of the invocation behind it. A creator and texts of tags that
/// aren't UTF-8 are shown as empty. `Err` where there is no memory for it.
pub fn append_invocation(
    alloc: Global,
    text: Vec<u8>,
    shown: &ShownInvocation,
) -> Result<Vec<u8>, AllocError>
    ensures { IfOk result
        (λ whole. whole.items ≡ text.items ++ compact_text (invocation_data shown.now)) }
{
    let mut out = Writer::new(text);
    let mut room = String::with_capacity(alloc, NAME_ROOM)?;
    put_invocation(alloc, &mut out, &mut room, shown)?;
    Ok(out.into_inner())
}
