//! JSON that is written straight behind bytes, member by member and row by row.
ghost use Rattle.std.specs.Prelude.{◌≡◌, ◌++◌, [], false, IfOk, IfSome, OnOk, is_some, map, option_and_then};
ghost use Rattle.std.specs.Prelude.{option_map};
ghost use Rattle.serde_json.specs.View.{view, items_of};
ghost use Rattle.serde_json.specs.Written.{comma_if, compact_text, has_float, items_text};
ghost use Rattle.result_forms.specs.Shown.{text_shown};
ghost use Rattle.query_replies.specs.Names.{next_page_token};
ghost use Rattle.query_replies.specs.Verdicts.{list_shown};
ghost use Rattle.query_replies.specs.Pieces.{member_piece, name_piece};

use crate::names::next_page_token;
use json_fields::Name;
use lists::Bytes;
use result_forms::bytes_value;
use serde_json::Value;
use std::alloc::{AllocError, Global};

/// A row of a page.
pub(crate) trait Row {
    ghost use Rattle.std.specs.Prelude.{◌≡◌, false, IfOk};
    ghost use Rattle.serde_json.specs.Data.{Data};
    ghost use Rattle.serde_json.specs.View.{view};
    ghost use Rattle.serde_json.specs.Written.{has_float};

    ghost shows: { Self → Data };

    /// The JSON value that shows it, which has no float. `Err` where there is no memory for it.
    fn row_value(&self, alloc: Global) -> Result<Value, AllocError>
        ensures value { IfOk result (λ v. view v ≡ shows self.now) }
        ensures plain { has_float (shows self.now) ≡ false };
}

/// Appends the text of a value.
pub(crate) fn append_value(
    alloc: Global,
    out: &mut Vec<u8>,
    value: &Value,
) -> Result<(), AllocError>
    requires { has_float (view value.now) ≡ false }
    ensures { OnOk result (out.new.items ≡ out.old.items ++ compact_text (view value.now)) }
{
    let text = value.to_vec(alloc)?;
    out.extend_from_slice(text.as_slice())
}

/// Appends a comma, where something stands before.
fn append_comma(out: &mut Vec<u8>, later: bool) -> Result<(), AllocError>
    ensures { OnOk result (out.new.items ≡ out.old.items ++ comma_if later) }
{
    if later {
        out.push(b',')?;
    }
    Ok(())
}

/// Appends the name of a member.
fn append_name(alloc: Global, out: &mut Vec<u8>, later: bool, name: &Name) -> Result<(), AllocError>
    ensures { OnOk result (out.new.items
        ≡ out.old.items ++ name_piece later name.now []) }
{
    append_comma(out, later)?;
    let text = Value::try_from_str(alloc, name.camel())?;
    append_value(alloc, out, &text)?;
    out.push(b':')?;
    Ok(())
}

/// Appends a row, behind a comma where another one stands before.
fn append_row<T: Row>(
    alloc: Global,
    out: &mut Vec<u8>,
    later: bool,
    row: &T,
) -> Result<(), AllocError>
    ensures { OnOk result (out.new.items
        ≡ out.old.items ++ (comma_if later ++ compact_text (T.shows row.now))) }
{
    append_comma(out, later)?;
    let value = row.row_value(alloc)?;
    append_value(alloc, out, &value)
}

/// Appends rows, and the bracket behind them.
fn append_rows<T: Row>(alloc: Global, out: &mut Vec<u8>, rows: &[T]) -> Result<(), AllocError>
    ensures { OnOk result (out.new.items
        ≡ out.old.items ++ items_text false (items_of (map T.shows rows.now))) }
{
    let mut later = false;
    for row in rows {
        append_row(alloc, out, later, row)?;
        later = true;
    }
    out.push(b']')?;
    Ok(())
}

/// Appends the member of a list of rows, nothing where there are none.
pub(crate) fn append_list<T: Row>(
    alloc: Global,
    out: &mut Vec<u8>,
    later: bool,
    name: &Name,
    rows: &[T],
) -> Result<(), AllocError>
    ensures { OnOk result (out.new.items
        ≡ out.old.items ++ member_piece later name.now (list_shown T.shows rows.now)) }
{
    if rows.is_empty() {
        return Ok(());
    }
    append_name(alloc, out, later, name)?;
    out.push(b'[')?;
    append_rows(alloc, out, rows)
}

/// The text of a token, none where it is unset or empty.
fn token_value(alloc: Global, next: &Option<Bytes>) -> Result<Option<Value>, AllocError>
    ensures value { IfOk result (λ o.
        option_map view o ≡ option_and_then text_shown next.now) }
    ensures plain { IfOk result (λ o. IfSome o (λ v. has_float (view v) ≡ false)) }
{
    match next {
        Some(text) => bytes_value(alloc, text.as_slice()),
        None => Ok(None),
    }
}

/// Appends the member of a token where there is one, and says whether there is.
pub(crate) fn append_token(
    alloc: Global,
    out: &mut Vec<u8>,
    next: &Option<Bytes>,
) -> Result<bool, AllocError>
    ensures text { OnOk result (out.new.items ≡ out.old.items
        ++ member_piece false next_page_token (option_and_then text_shown next.now)) }
    ensures there { IfOk result (λ there.
        there ≡ is_some (option_and_then text_shown next.now)) }
{
    match token_value(alloc, next)? {
        Some(value) => {
            append_name(alloc, out, false, &next_page_token())?;
            append_value(alloc, out, &value)?;
            Ok(true)
        }
        None => Ok(false),
    }
}
