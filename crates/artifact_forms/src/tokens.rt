//! Page tokens of a list of artifacts.
ghost use Rattle.std.specs.Prelude.{◌≡◌, None, IfOk, IfErr};
ghost use Rattle.serde_json.specs.View.{view};
ghost use Rattle.json_fields.specs.Faults.{Says};
ghost use Rattle.json_fields.specs.Fields.{filled_at, HoldsMaybe};
ghost use Rattle.json_fields.specs.Kinds.{empty_text};
ghost use Rattle.field_kinds.specs.Filled.{optional_filled};
ghost use Rattle.artifact_forms.specs.Names.{page_token};
ghost use Rattle.artifact_forms.specs.Tokens.{a_token, IsTokenOf, list_query, told_of, token_why, Tells};
ghost use Rattle.json_fields.specs.Texts.{bad_value};

use crate::names::page_token;
use field_kinds::Contents;
use json_fields::{FaultKind, ReadFault, Step, Why, filled_at};
use lists::Bytes;
use page_tokens::{ArtifactCursor, Query, TokenFault, read_token};
use serde_json::Value;
use std::alloc::{AllocError, Global};

/// What is asked: the artifacts of the parent of this name.
pub(crate) fn query_of(alloc: Global, parent: &str) -> Result<Query, AllocError>
    ensures { IfOk result (λ query. query ≡ list_query parent.now) }
{
    let mut name = Vec::with_capacity(alloc, parent.len())?;
    name.extend_from_slice(parent.as_bytes())?;
    Ok(Query::of(b"ListArtifacts", &[Bytes::new(name)]))
}

/// Why a text is no token, where that is a fault of its own.
fn told_of(fault: TokenFault) -> Option<Why>
    ensures { result ≡ told_of fault }
{
    match fault {
        TokenFault::NotBase64 => Some(Why::NotBase64),
        TokenFault::BadForm { at } => Some(Why::BadForm(at)),
        TokenFault::OtherQuery => Some(Why::OtherQuery),
        TokenFault::Memory => None,
    }
}

/// What is told of a text that is no token.
fn refused(alloc: Global, fault: TokenFault) -> ReadFault
    ensures { Says result (bad_value (told_of fault)) }
{
    match told_of(fault) {
        Some(why) => ReadFault::here(alloc, FaultKind::BadValue(why)),
        None => ReadFault::Memory,
    }
}

/// The place that a token tells.
fn cursor_of(alloc: Global, query: &Query, text: &str) -> Result<ArtifactCursor, ReadFault>
    ensures ok { IfOk result (λ c. (token_why query.now text.now ≡ None)
        × Tells query.now text.now c) }
    ensures err { IfErr result (λ e. Says e (bad_value (token_why query.now text.now))) }
{
    let _hash = query.as_slice();
    match read_token::<ArtifactCursor>(alloc, text.as_bytes(), query) {
        Ok(cursor) => Ok(cursor),
        Err(fault) => Err(refused(alloc, fault)),
    }
}

fn read_cursor(alloc: Global, query: &Query, value: &Value) -> Result<ArtifactCursor, ReadFault>
    ensures ok { IfOk result (λ c. (a_token query.now (view value.now) ≡ None)
        × IsTokenOf query.now (view value.now) c) }
    ensures err { IfErr result (λ e. Says e (a_token query.now (view value.now))) }
{
    match value {
        Value::String(text) => cursor_of(alloc, query, text.as_str()),
        _ => Err(ReadFault::here(alloc, FaultKind::WrongKind)),
    }
}

/// The place that the page token of a request tells; `None` where it is unset, null or empty.
pub(crate) fn read_page_token(
    alloc: Global,
    query: &Query,
    value: &Value,
) -> Result<Option<ArtifactCursor>, ReadFault>
    ensures ok { IfOk result (λ o.
        (optional_filled page_token empty_text (a_token query.now) (view value.now) ≡ None)
        × HoldsMaybe (IsTokenOf query.now) (filled_at page_token empty_text (view value.now)) o) }
    ensures err { IfErr result (λ e.
        Says e (optional_filled page_token empty_text (a_token query.now) (view value.now))) }
{
    match filled_at::<Contents>(value, &page_token()) {
        None => Ok(None),
        Some(found) => match read_cursor(alloc, query, found) {
            Ok(cursor) => Ok(Some(cursor)),
            Err(fault) => Err(fault.under(Step::Member(page_token()))),
        },
    }
}
