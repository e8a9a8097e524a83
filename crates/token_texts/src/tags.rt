//! Tags.
ghost use Rattle.std.specs.Prelude.{OnOk};
ghost use Rattle.std.specs.List.{flat_map};
ghost use Rattle.token_texts.specs.Shown.{pair_data};
ghost use Rattle.token_texts.specs.Tokens.{tokens_of, member_tokens, list_shown, IsAdded};

use crate::members::{put_filled, text_of};
use crate::tokens::{begin_array, begin_object, end_array, end_object, put_key, put_text};
use json::Writer;
use pair_kinds::Pair;
use std::alloc::AllocError;

fn put_tag(out: &mut Writer, tag: &Pair) -> Result<(), AllocError>
    ensures { OnOk result (IsAdded out.old out.new (tokens_of (pair_data tag.now))) }
{
    begin_object(out)?;
    put_text(out, "key", text_of(tag.key.as_slice()))?;
    put_filled(out, "value", text_of(tag.value.as_slice()))?;
    end_object(out)?;
    Ok(())
}

fn put_each_tag(out: &mut Writer, tags: &[Pair]) -> Result<(), AllocError>
    ensures { OnOk result
        (IsAdded out.old out.new (flat_map (λ tag. tokens_of (pair_data tag)) tags.now)) }
{
    for tag in tags {
        put_tag(out, tag)?;
    }
    Ok(())
}

/// Adds a member that lists tags, where there are any.
pub fn put_tags(out: &mut Writer, name: &str, tags: &[Pair]) -> Result<(), AllocError>
    ensures { OnOk result
        (IsAdded out.old out.new (member_tokens name.now (list_shown pair_data tags.now))) }
{
    if tags.is_empty() {
        return Ok(());
    }
    put_key(out, name)?;
    begin_array(out)?;
    put_each_tag(out, tags)?;
    end_array(out)?;
    Ok(())
}
