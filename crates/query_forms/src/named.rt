//! The invocations that a query names, read from its list of names and written as one.
ghost use Rattle.std.specs.Prelude.{◌≡◌, ◌≢◌, ◌++◌, ◌∷◌, [], None, IfOk, IfErr, OnOk, map};
ghost use Rattle.serde_json.specs.View.{view};
ghost use Rattle.names_realms.specs.Names.{IsInvocationId, invocation_name};
ghost use Rattle.json_fields.specs.Faults.{Says};
ghost use Rattle.json_fields.specs.Writing.{list_data};
ghost use Rattle.invocation_forms.specs.Named.{name_data};
ghost use Rattle.page_tokens.specs.Tokens.{query_hash};
ghost use Rattle.query_forms.specs.Lists.{names_of_query, AreNamed, text_of, names_in};
ghost use Rattle.query_forms.specs.Tokens.{query_in};

use crate::names::invocations;
use field_kinds::{InvocationName, LimitedList, QueryNames};
use json_fields::{ReadFault, UnbuiltList, filled_at, required};
use lists::{Bytes, Listed};
use names_realms::InvocationId;
use page_tokens::Query;
use serde_json::Value;
use std::alloc::{AllocError, Global};

/// The ids of invocations that are named.
fn ids_of(alloc: Global, names: &[InvocationName]) -> Result<Listed<InvocationId>, AllocError>
    ensures { IfOk result (λ ids. ids ≡ names.now) }
{
    let mut ids = Vec::with_capacity(alloc, names.len())?;
    for name in names {
        ids.push(name.id().try_clone(alloc)?)?;
    }
    Ok(Listed::new(ids))
}

/// Reads the ids of the invocations that a query names.
pub(crate) fn read_invocations(
    alloc: Global,
    value: &Value,
) -> Result<Listed<InvocationId>, ReadFault>
    ensures ok { IfOk result (λ ids. (names_of_query (view value.now) ≡ None)
        × AreNamed (view value.now) ids) }
    ensures err { IfErr result (λ e. Says e (names_of_query (view value.now))) }
{
    match required::<LimitedList<InvocationName, QueryNames>>(alloc, value, invocations()) {
        Ok(names) => Ok(ids_of(alloc, names.as_slice())?),
        Err(fault) => Err(fault),
    }
}

/// The text of a value, the empty one where it is none.
fn text_of(value: &Value) -> &str
    ensures { result.now ≡ text_of (view value.now) }
{
    match value {
        Value::String(text) => text.as_str(),
        _ => "",
    }
}

/// Appends the text of a value.
fn add_text(alloc: Global, texts: &mut Vec<Bytes>, value: &Value) -> Result<(), AllocError>
    ensures { OnOk result (texts.new.items
        ≡ texts.old.items ++ text_of (view value.now) ∷ []) }
{
    texts.push(Bytes::from_slice(alloc, text_of(value).as_bytes())?)?;
    Ok(())
}

/// The texts of values.
fn texts_of(alloc: Global, values: &[Value]) -> Result<Vec<Bytes>, AllocError>
    ensures { IfOk result (λ texts. texts.items ≡ map text_of (map view values.now)) }
{
    let mut texts = Vec::with_capacity(alloc, values.len())?;
    for value in values {
        add_text(alloc, &mut texts, value)?;
    }
    Ok(texts)
}

/// The names in a list as they are written, none where it is no list.
fn names_in(alloc: Global, list: &Value) -> Result<Vec<Bytes>, AllocError>
    ensures { IfOk result (λ names. names.items ≡ names_in (view list.now)) }
{
    match list {
        Value::Array(values) => texts_of(alloc, values),
        _ => Ok(Vec::new(alloc)),
    }
}

/// The query by a method over the names in a list, as they are written.
fn query_over(alloc: Global, method: &str, list: &Value) -> Result<Query, AllocError>
    ensures { IfOk result (λ q. q ≡ query_hash method.now (names_in (view list.now))) }
{
    let names = names_in(alloc, list)?;
    Ok(Query::of(method.as_bytes(), names.as_slice()))
}

/// What a request asks by a method: the query over the names in it, as they are written.
pub(crate) fn query_in(alloc: Global, method: &str, value: &Value) -> Result<Query, AllocError>
    ensures { IfOk result (λ q. q ≡ query_in method.now (view value.now)) }
{
    match filled_at::<UnbuiltList>(value, &invocations()) {
        Some(list) => query_over(alloc, method, list),
        None => Ok(Query::of(method.as_bytes(), &[])),
    }
}

/// Appends the name of an invocation.
fn add_name(alloc: Global, list: &mut Vec<Value>, id: &InvocationId) -> Result<(), AllocError>
    ensures { OnOk result (map view list.new.items
        ≡ map view list.old.items ++ name_data id.now ∷ []) }
{
    let id = id.as_str();
    let text = format!(in alloc; "invocations/{id}")?;
    list.push(Value::String(text))?;
    Ok(())
}

/// The list that names invocations.
fn names_value(alloc: Global, ids: &[InvocationId]) -> Result<Value, AllocError>
    ensures { IfOk result (λ v. view v ≡ list_data name_data ids.now) }
{
    let mut list = Vec::with_capacity(alloc, ids.len())?;
    for id in ids {
        add_name(alloc, &mut list, id)?;
    }
    Ok(Value::Array(list))
}

/// The list that names invocations, and the query by a method over their names.
pub(crate) fn asked(
    alloc: Global,
    method: &str,
    ids: &[InvocationId],
) -> Result<(Value, Query), AllocError>
    ensures list { IfOk result (λ both. view both.0 ≡ list_data name_data ids.now) }
    ensures query { IfOk result (λ both.
        both.1 ≡ query_hash method.now (map invocation_name ids.now)) }
{
    let list = names_value(alloc, ids)?;
    let query = query_over(alloc, method, &list)?;
    Ok((list, query))
}
