//! The text of an object, a member at a time.
ghost use Rattle.std.specs.Prelude.{◌≡◌, ◌++◌, true, Some, OnOk, string_bytes};
ghost use Rattle.std.specs.List.{list_all};
ghost use Rattle.json.specs.Print.{quoted};
ghost use Rattle.serde_json.specs.Data.{string};
ghost use Rattle.serde_json.specs.Written.{comma_if};
ghost use Rattle.artifact_replies.specs.Texts.{is_plain, key_text, member_text};

use serde_json::Value;
use std::alloc::{AllocError, Global};

/// Appends a text.
pub(crate) fn append(out: &mut String, text: &str) -> Result<(), AllocError>
    ensures { OnOk result (string_bytes out.new ≡ string_bytes out.old ++ text.now) }
{
    out.push_str(text)
}

/// Appends a text in quotes, none of whose bytes needs an escape.
pub(crate) fn append_plain(out: &mut String, text: &str) -> Result<(), AllocError>
    requires { list_all is_plain text.now ≡ true }
    ensures { OnOk result (string_bytes out.new ≡ string_bytes out.old ++ quoted text.now) }
{
    append(out, "\"")?;
    append(out, text)?;
    append(out, "\"")?;
    Ok(())
}

/// Appends a text in quotes.
fn append_quoted(alloc: Global, out: &mut String, text: &str) -> Result<(), AllocError>
    ensures { OnOk result (string_bytes out.new ≡ string_bytes out.old ++ quoted text.now) }
{
    let value = Value::try_from_str(alloc, text)?;
    let quoted = value.to_string(alloc)?;
    append(out, quoted.as_str())
}

/// Appends a comma, where something stands before.
pub(crate) fn append_comma(out: &mut String, later: bool) -> Result<(), AllocError>
    ensures { OnOk result (string_bytes out.new ≡ string_bytes out.old ++ comma_if later) }
{
    if later { append(out, ",") } else { Ok(()) }
}

/// Appends the name of a member, behind a comma where members stand before it.
pub(crate) fn append_key(out: &mut String, later: bool, key: &str) -> Result<(), AllocError>
    requires { list_all is_plain key.now ≡ true }
    ensures { OnOk result (string_bytes out.new ≡ string_bytes out.old ++ key_text later key.now) }
{
    append_comma(out, later)?;
    append_plain(out, key)?;
    append(out, ":")?;
    Ok(())
}

/// Appends a member that is a text.
pub(crate) fn append_text(
    alloc: Global,
    out: &mut String,
    later: bool,
    key: &str,
    text: &str,
) -> Result<(), AllocError>
    requires { list_all is_plain key.now ≡ true }
    ensures { OnOk result (string_bytes out.new
        ≡ string_bytes out.old ++ member_text later key.now (Some (string text.now))) }
{
    append_key(out, later, key)?;
    append_quoted(alloc, out, text)?;
    Ok(())
}
