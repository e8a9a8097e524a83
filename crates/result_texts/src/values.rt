//! The values of a row, each as a member that is left out where it has none.
ghost use Rattle.std.specs.Prelude.{◌≡◌, ◌∷◌, [], true, false, Some, OnOk, codes, length};
ghost use Rattle.std.specs.List.{list_all};
ghost use Rattle.json.specs.Align.{is_good};
ghost use Rattle.serde_json.specs.Data.{string};
ghost use Rattle.serde_json.specs.View.{view};
ghost use Rattle.serde_json.specs.Written.{has_float};
ghost use Rattle.json_fields.specs.NamesRealms.Variants.{label_of};
ghost use Rattle.result_forms.specs.TextKinds.Statuses.{status_name};
ghost use Rattle.result_forms.specs.Shown.{text_shown, flag_shown, reason_shown, properties_shown};
ghost use Rattle.token_texts.specs.Tokens.{tokens_of, member_tokens, IsAdded};

use json::{Reader, Scratch, Token, Writer};
use json_fields::{Status, Variant};
use result_forms::properties_value;
use serde_json::Value;
use std::alloc::{AllocError, Global};
use std::str::from_utf8;
use token_texts::{begin_object, end_object, put_filled, put_key, put_text, put_true, text_of};

/// The name of a status.
fn status_text(status: Status) -> &'static str
    ensures { result.now ≡ status_name status }
{
    match status {
        Status::Pass => "PASS",
        Status::Fail => "FAIL",
        Status::Crash => "CRASH",
        Status::Abort => "ABORT",
        Status::Skip => "SKIP",
    }
}

pub(crate) fn put_bytes(out: &mut Writer, name: &str, bytes: &[u8]) -> Result<(), AllocError>
    ensures { OnOk result
        (IsAdded out.old out.new (member_tokens name.now (text_shown bytes.now))) }
{
    put_filled(out, name, text_of(bytes))
}

pub(crate) fn put_flag(out: &mut Writer, name: &str, on: bool) -> Result<(), AllocError>
    ensures { OnOk result (IsAdded out.old out.new (member_tokens name.now (flag_shown on))) }
{
    if !on {
        return Ok(());
    }
    put_key(out, name)?;
    put_true(out)?;
    Ok(())
}

pub(crate) fn put_status(out: &mut Writer, name: &str, status: Status) -> Result<(), AllocError>
    ensures { OnOk result
        (IsAdded out.old out.new (member_tokens name.now (Some (string (status_name status))))) }
{
    put_text(out, name, status_text(status))
}

/// Adds the reason of a failure by its message.
pub(crate) fn put_reason(out: &mut Writer, name: &str, message: &[u8]) -> Result<(), AllocError>
    ensures { OnOk result
        (IsAdded out.old out.new (member_tokens name.now (reason_shown message.now))) }
{
    let text = text_of(message);
    if text.is_empty() {
        return Ok(());
    }
    put_key(out, name)?;
    begin_object(out)?;
    put_text(out, "primaryErrorMessage", text)?;
    end_object(out)?;
    Ok(())
}

/// Adds the label of a variant.
pub(crate) fn put_label(out: &mut Writer, name: &str, variant: &Variant) -> Result<(), AllocError>
    ensures { OnOk result
        (IsAdded out.old out.new (member_tokens name.now (Some (string (label_of variant.now))))) }
{
    let label = variant.label();
    match from_utf8(label.as_slice()) {
        Ok(text) => put_text(out, name, text),
        Err(_) => unreachable!(),
    }
}

/// Adds the tokens that a reader hands out.
fn put_tokens(out: &mut Writer, reader: &mut Reader) -> Result<(), AllocError>
    requires { list_all is_good reader.old ≡ true }
    ensures { OnOk result (IsAdded out.old out.new reader.old) }
{
    while let Some(token) = reader.next() {
        out.token(token)?;
    }
    Ok(())
}

/// Adds a value.
pub(crate) fn put_value(alloc: Global, out: &mut Writer, value: &Value) -> Result<(), AllocError>
    requires { has_float (view value.now) ≡ false }
    ensures { OnOk result (IsAdded out.old out.new (tokens_of (view value.now))) }
{
    let text = value.to_string(alloc)?;
    let mut scratch = Scratch::new(alloc);
    let mut reader = Reader::new(text.as_str(), &mut scratch)?;
    put_tokens(out, &mut reader)?;
    Ok(())
}

/// Adds the object that a text of properties is, where it is of one.
pub(crate) fn put_properties(
    alloc: Global,
    out: &mut Writer,
    name: &str,
    text: &[u8],
) -> Result<(), AllocError>
    ensures { OnOk result
        (IsAdded out.old out.new (member_tokens name.now (properties_shown text.now))) }
{
    match properties_value(alloc, text)? {
        Some(value) => {
            put_key(out, name)?;
            put_value(alloc, out, &value)?;
            Ok(())
        }
        None => Ok(()),
    }
}
