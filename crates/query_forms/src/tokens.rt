//! Page tokens in requests, each judged beside the query of its request.
ghost use Rattle.std.specs.Prelude.{◌≡◌, false, Some, None, IfOk, IfErr, IfSome, OnOk, string_bytes};
ghost use Rattle.serde_json.specs.Data.{string};
ghost use Rattle.serde_json.specs.View.{view, members_view};
ghost use Rattle.json_fields.specs.Faults.{Says};
ghost use Rattle.json_fields.specs.Fields.{filled_at, HoldsMaybe};
ghost use Rattle.field_kinds.specs.Filled.{optional_filled};
ghost use Rattle.json_fields.specs.Kinds.{empty_text};
ghost use Rattle.json_fields.specs.Writing.{IsWritten, put_optional};
ghost use Rattle.page_tokens.specs.Tokens.{token_fault};
ghost use Rattle.query_forms.specs.Names.{page_token};
ghost use Rattle.query_forms.specs.Tokens.{cursors, a_token, token_refused, IsTokenOf, IsCursor, a_page_token};
ghost use Rattle.query_forms.specs.Tokens.{IsPageToken, token_text};

use crate::cursors::PageCursor;
use crate::named::query_in;
use crate::names::page_token;
use field_kinds::{FormBeside, optional_beside};
use json_fields::{FaultKind, Name, ReadFault, Why, is_empty_text, put};
use page_tokens::{Query, TokenFault, read_token, write_token};
use serde_json::{Map, Value};
use std::alloc::{AllocError, Global};

/// What is told of a text that is no token.
fn refused(alloc: Global, fault: TokenFault) -> ReadFault
    ensures { Says result (token_refused (Some fault)) }
{
    match fault {
        TokenFault::NotBase64 => ReadFault::here(alloc, FaultKind::BadValue(Why::NotBase64)),
        TokenFault::BadForm { at } => {
            ReadFault::here(alloc, FaultKind::BadValue(Why::BadForm(at)))
        }
        TokenFault::OtherQuery => ReadFault::here(alloc, FaultKind::BadValue(Why::OtherQuery)),
        TokenFault::Memory => ReadFault::Memory,
    }
}

/// Reads the cursor that a text is the token of.
fn read_text<C: PageCursor>(alloc: Global, query: &Query, text: &str) -> Result<C, ReadFault>
    ensures ok { IfOk result (λ c.
        (token_refused (token_fault query.now C.number C.form text.now) ≡ None)
        × IsTokenOf (cursors C.number C.form C.held C.fits) query.now text.now c) }
    ensures err { IfErr result (λ e.
        Says e (token_refused (token_fault query.now C.number C.form text.now))) }
{
    let _hash = query.as_slice();
    match read_token::<C>(alloc, text.as_bytes(), query) {
        Ok(cursor) => {
            cursor.keep_bounds();
            Ok(cursor)
        }
        Err(fault) => Err(refused(alloc, fault)),
    }
}

/// Reads the cursor that a value is the token of.
fn read_cursor<C: PageCursor>(alloc: Global, query: &Query, value: &Value) -> Result<C, ReadFault>
    ensures ok { IfOk result (λ c.
        (a_token (cursors C.number C.form C.held C.fits) query.now (view value.now) ≡ None)
        × IsCursor (cursors C.number C.form C.held C.fits) query.now (view value.now) c) }
    ensures err { IfErr result (λ e.
        Says e (a_token (cursors C.number C.form C.held C.fits) query.now (view value.now))) }
{
    match value {
        Value::String(text) => read_text(alloc, query, text.as_str()),
        _ => Err(ReadFault::here(alloc, FaultKind::WrongKind)),
    }
}

/// A cursor, or none where its text is empty.
#[derive(Drop)]
struct PageToken<C: PageCursor> {
    cursor: Option<C>,
}

impl<C: PageCursor> FormBeside<Query> for PageToken<C> {
    ghost use Rattle.json_fields.specs.Fields.{filled, HoldsMaybe};
    ghost use Rattle.json_fields.specs.Kinds.{empty_text};
    ghost use Rattle.field_kinds.specs.Filled.{if_filled};
    ghost use Rattle.query_forms.specs.Tokens.{cursors, a_token, IsCursor};

    ghost fault = { λ query.
        if_filled empty_text (a_token (cursors C.number C.form C.held C.fits) query) };

    ghost means = { λ query d x.
        HoldsMaybe (IsCursor (cursors C.number C.form C.held C.fits) query)
        (filled empty_text d) x.cursor };

    fn read_beside(
        alloc: Global,
        context: &Query,
        value: &Value,
    ) -> Result<PageToken<C>, ReadFault> {
        if value.is_null() || is_empty_text(value) {
            return Ok(PageToken { cursor: None });
        }
        let cursor = read_cursor(alloc, context, value)?;
        Ok(PageToken {
            cursor: Some(cursor),
        })
    }
}

/// The cursor of a field, none where it is unset, null or empty.
fn read_field<C: PageCursor>(
    alloc: Global,
    query: &Query,
    value: &Value,
    name: Name,
) -> Result<Option<C>, ReadFault>
    ensures ok { IfOk result (λ o. (optional_filled name empty_text
        (a_token (cursors C.number C.form C.held C.fits) query.now) (view value.now) ≡ None)
        × HoldsMaybe (IsCursor (cursors C.number C.form C.held C.fits) query.now)
        (filled_at name empty_text (view value.now)) o) }
    ensures err { IfErr result (λ e. Says e (optional_filled name empty_text
        (a_token (cursors C.number C.form C.held C.fits) query.now) (view value.now))) }
{
    match optional_beside::<Query, PageToken<C>>(alloc, query, value, name) {
        Ok(Some(found)) => Ok(found.cursor),
        Ok(None) => Ok(None),
        Err(fault) => Err(fault),
    }
}

/// The cursor of a request's page token, none where it is unset, null or empty. It is judged as one
/// of what the request asks by this method.
pub(crate) fn read_page_token<C: PageCursor>(
    alloc: Global,
    method: &str,
    value: &Value,
) -> Result<Option<C>, ReadFault>
    ensures ok { IfOk result (λ o.
        (a_page_token (cursors C.number C.form C.held C.fits) method.now (view value.now) ≡ None)
        × IsPageToken (cursors C.number C.form C.held C.fits) method.now (view value.now) o) }
    ensures err { IfErr result (λ e. Says e
        (a_page_token (cursors C.number C.form C.held C.fits) method.now (view value.now))) }
{
    let query = query_in(alloc, method, value)?;
    read_field(alloc, &query, value, page_token())
}

/// The token of a cursor of this query.
fn token_of<C: PageCursor>(alloc: Global, query: &Query, cursor: &C) -> Result<String, AllocError>
    ensures text { IfOk result (λ text. string_bytes text
        ≡ token_text (cursors C.number C.form C.held C.fits) query.now cursor.now) }
    ensures again { OnOk result (IsWritten
        (a_token (cursors C.number C.form C.held C.fits) query.now)
        (IsCursor (cursors C.number C.form C.held C.fits) query.now) empty_text (λ _. false)
        cursor.now
        (string (token_text (cursors C.number C.form C.held C.fits) query.now cursor.now))) }
{
    let _hash = query.as_slice();
    cursor.keep_bounds();
    let text = write_token(alloc, cursor, query)?;
    Ok(text)
}

/// Puts the token of a cursor of this query, where there is one.
pub(crate) fn put_page_token<C: PageCursor>(
    alloc: Global,
    map: &mut Map<String, Value>,
    query: &Query,
    cursor: &Option<C>,
) -> Result<(), AllocError>
    ensures members { OnOk result (members_view map.new.entries ≡ put_optional page_token
        (λ c. string (token_text (cursors C.number C.form C.held C.fits) query.now c)) cursor.now
        (members_view map.old.entries)) }
    ensures again { OnOk result (IfSome cursor.now (λ c. IsWritten
        (a_token (cursors C.number C.form C.held C.fits) query.now)
        (IsCursor (cursors C.number C.form C.held C.fits) query.now) empty_text (λ _. false) c
        (string (token_text (cursors C.number C.form C.held C.fits) query.now c)))) }
{
    match cursor {
        None => Ok(()),
        Some(cursor) => {
            let text = token_of(alloc, query, cursor)?;
            put(alloc, map, &page_token(), Value::String(text))?;
            Ok(())
        }
    }
}
