//! Tokens of JSON, one behind the other.
ghost use Rattle.std.specs.Prelude.{◌∷◌, [], true, Some, OnOk};
ghost use Rattle.json.specs.Token.{begin_array, begin_object, boolean, end_array, end_object, key, string};
ghost use Rattle.serde_json.specs.Data.{string as string_data};
ghost use Rattle.token_texts.specs.Tokens.{member_tokens, IsAdded};

use json::Writer;
use std::alloc::AllocError;

pub fn begin_object(out: &mut Writer) -> Result<(), AllocError>
    ensures { OnOk result (IsAdded out.old out.new (begin_object ∷ [])) }
{
    out.begin_object()
}

pub fn end_object(out: &mut Writer) -> Result<(), AllocError>
    ensures { OnOk result (IsAdded out.old out.new (end_object ∷ [])) }
{
    out.end_object()
}

pub fn begin_array(out: &mut Writer) -> Result<(), AllocError>
    ensures { OnOk result (IsAdded out.old out.new (begin_array ∷ [])) }
{
    out.begin_array()
}

pub fn end_array(out: &mut Writer) -> Result<(), AllocError>
    ensures { OnOk result (IsAdded out.old out.new (end_array ∷ [])) }
{
    out.end_array()
}

pub fn put_key(out: &mut Writer, name: &str) -> Result<(), AllocError>
    ensures { OnOk result (IsAdded out.old out.new (key name.now ∷ [])) }
{
    out.key(name)
}

pub fn put_string(out: &mut Writer, text: &str) -> Result<(), AllocError>
    ensures { OnOk result (IsAdded out.old out.new (string text.now ∷ [])) }
{
    out.string(text)
}

pub fn put_true(out: &mut Writer) -> Result<(), AllocError>
    ensures { OnOk result (IsAdded out.old out.new (boolean true ∷ [])) }
{
    out.boolean(true)
}

/// Adds a member that is a text.
pub fn put_text(out: &mut Writer, name: &str, text: &str) -> Result<(), AllocError>
    ensures { OnOk result
        (IsAdded out.old out.new (member_tokens name.now (Some (string_data text.now)))) }
{
    put_key(out, name)?;
    put_string(out, text)?;
    Ok(())
}
