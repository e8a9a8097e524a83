//! Variants.
ghost use Rattle.std.specs.Prelude.{◌≡◌, ◌≢◌, [], true, OnOk};
ghost use Rattle.std.specs.List.{flat_map};
ghost use Rattle.std.specs.Str.{is_utf8};
ghost use Rattle.json_fields.specs.NamesRealms.Variants.{IsAscending};
ghost use Rattle.result_forms.specs.Shown.{variant_shown};
ghost use Rattle.result_texts.specs.Pairs.{pair_tokens, have_text_keys};
ghost use Rattle.token_texts.specs.Tokens.{member_tokens, IsAdded};

use crate::values::put_value;
use json::Writer;
use json_fields::{Pair, Variant};
use result_forms::variant_value;
use std::alloc::{AllocError, Global};
use std::str::from_utf8;
use token_texts::{begin_object, end_object, put_key, put_text, text_of};

fn put_pair(out: &mut Writer, pair: &Pair) -> Result<(), AllocError>
    ensures { OnOk result (IsAdded out.old out.new (pair_tokens pair.now)) }
{
    let key = text_of(pair.key.as_slice());
    let text = text_of(pair.value.as_slice());
    put_text(out, key, text)
}

fn put_each_pair(out: &mut Writer, pairs: &[Pair]) -> Result<(), AllocError>
    ensures { OnOk result (IsAdded out.old out.new (flat_map pair_tokens pairs.now)) }
{
    for pair in pairs {
        put_pair(out, pair)?;
    }
    Ok(())
}

fn has_text_key(pair: &Pair) -> bool
    ensures { result ≡ is_utf8 pair.now.key }
{
    match from_utf8(pair.key.as_slice()) {
        Ok(_) => true,
        Err(_) => false,
    }
}

/// Whether the pairs, which rise by their keys, also rise by the texts of these.
fn have_text_keys(pairs: &[Pair]) -> bool
    ensures { result ≡ have_text_keys pairs.now }
{
    for pair in pairs {
        if !has_text_key(pair) {
            return false;
        }
    }
    true
}

/// Adds pairs that rise by their texts.
fn put_rising(out: &mut Writer, name: &str, pairs: &[Pair]) -> Result<(), AllocError>
    requires rising { IsAscending pairs.now }
    requires texts { have_text_keys pairs.now ≡ true }
    requires some { pairs.now ≢ [] }
    ensures { OnOk result
        (IsAdded out.old out.new (member_tokens name.now (variant_shown pairs.now))) }
{
    put_key(out, name)?;
    begin_object(out)?;
    put_key(out, "def")?;
    begin_object(out)?;
    put_each_pair(out, pairs)?;
    end_object(out)?;
    end_object(out)?;
    Ok(())
}

/// Adds pairs of any bytes.
fn put_any(alloc: Global, out: &mut Writer, name: &str, pairs: &[Pair]) -> Result<(), AllocError>
    ensures { OnOk result
        (IsAdded out.old out.new (member_tokens name.now (variant_shown pairs.now))) }
{
    match variant_value(alloc, pairs)? {
        Some(value) => {
            put_key(out, name)?;
            put_value(alloc, out, &value)?;
            Ok(())
        }
        None => Ok(()),
    }
}

/// Adds the object of a variant, where it has pairs.
pub(crate) fn put_variant(
    alloc: Global,
    out: &mut Writer,
    name: &str,
    variant: &Variant,
) -> Result<(), AllocError>
    ensures { OnOk result
        (IsAdded out.old out.new (member_tokens name.now (variant_shown variant.now))) }
{
    let pairs = variant.as_slice();
    if pairs.is_empty() {
        return Ok(());
    }
    if have_text_keys(pairs) {
        put_rising(out, name, pairs)
    } else {
        put_any(alloc, out, name, pairs)
    }
}
