//! Members that are texts: of bytes, and of values with one text.
ghost use Rattle.std.specs.Prelude.{◌≡◌, Some, OnOk, option_map};
ghost use Rattle.serde_json.specs.Data.{string};
ghost use Rattle.token_texts.specs.Shown.{as_text, filled};
ghost use Rattle.token_texts.specs.Tokens.{member_tokens, IsAdded};

use crate::tokens::put_text;
use json::Writer;
use pair_kinds::SpelledOut;
use std::alloc::{AllocError, Global};
use std::str::from_utf8;

/// The text of bytes: the empty one where they aren't UTF-8.
pub fn text_of(bytes: &[u8]) -> &str
    ensures { result.now ≡ as_text bytes.now }
{
    match from_utf8(bytes) {
        Ok(text) => text,
        Err(_) => "",
    }
}

/// Adds a member that is a text, where that isn't empty.
pub fn put_filled(out: &mut Writer, name: &str, text: &str) -> Result<(), AllocError>
    ensures { OnOk result (IsAdded out.old out.new (member_tokens name.now (filled text.now))) }
{
    if text.is_empty() {
        return Ok(());
    }
    put_text(out, name, text)
}

/// Adds a member that is the one text of a value.
pub fn put_spelled<T: SpelledOut>(
    alloc: Global,
    out: &mut Writer,
    name: &str,
    x: &T,
) -> Result<(), AllocError>
    ensures { OnOk result (IsAdded out.old out.new
        (member_tokens name.now (Some (string (T.spelling x.now))))) }
{
    let text = x.to_spelling(alloc)?;
    put_text(out, name, text.as_str())?;
    Ok(())
}

/// Adds a member that is the one text of a value, where there is one.
pub fn put_optional<T: SpelledOut>(
    alloc: Global,
    out: &mut Writer,
    name: &str,
    x: &Option<T>,
) -> Result<(), AllocError>
    ensures { OnOk result (IsAdded out.old out.new
        (member_tokens name.now (option_map (λ a. string (T.spelling a)) x.now))) }
{
    match x {
        Some(x) => put_spelled(alloc, out, name, x),
        None => Ok(()),
    }
}
