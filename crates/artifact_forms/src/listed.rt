//! Requests that list the artifacts of a parent, page by page.
ghost use Rattle.std.specs.Prelude.{◌≡◌, ◌≤◌, None, IfOk, IfErr, OnOk, Some, option_map};
ghost use Rattle.std.specs.Option.{ForSome};
ghost use Rattle.serde_json.specs.Data.{string};
ghost use Rattle.serde_json.specs.View.{view, members_view};
ghost use Rattle.json_fields.specs.Faults.{Says};
ghost use Rattle.json_fields.specs.Fields.{optional, set_at};
ghost use Rattle.field_kinds.specs.Defaults.{HoldsOr};
ghost use Rattle.field_kinds.specs.Numbers.{a_whole, IsSaid, most_of_page};
ghost use Rattle.result_forms.specs.Laws.{IsReadAgain};
ghost use Rattle.form_fields.specs.Members.{put_some};
ghost use Rattle.artifact_forms.specs.Listed.{query_in, query_of, size_shown, counted_size};
ghost use Rattle.artifact_forms.specs.Methods.{list_form};
ghost use Rattle.artifact_forms.specs.Names.{page_size, page_token};
ghost use Rattle.artifact_forms.specs.Tokens.{Tells, token_text};

use crate::names::{page_size, page_token, parent};
use crate::parents::text_of;
use crate::tokens::{query_of, read_page_token};
use crate::written::put_text;
use field_kinds::{PageSize, Whole, or_default};
use json_fields::{Form, ReadFault, SpelledOut, object, put, required, set_at};
use names_realms::Parent;
use page_tokens::{ArtifactCursor, Query, write_token};
use serde_json::{Map, Number, Value};
use std::alloc::{AllocError, Global};

/// A request for a page of the artifacts of a parent.
#[derive(Drop)]
pub struct ListArtifacts {
    pub parent: Parent,
    /// How many artifacts the page is to have at most; 0 where the request doesn't say.
    pub page_size: u32,
    /// The place behind which the page begins, where it isn't the first one.
    pub page_token: Option<ArtifactCursor>,
}

/// The size of a page, 0 where it is unset.
fn read_page_size(alloc: Global, value: &Value) -> Result<u32, ReadFault>
    ensures ok { IfOk result (λ n.
        (optional page_size (a_whole most_of_page) (view value.now) ≡ None)
        × HoldsOr IsSaid 0 (set_at page_size (view value.now)) n) }
    ensures err { IfErr result (λ e.
        Says e (optional page_size (a_whole most_of_page) (view value.now))) }
{
    match or_default::<Whole<PageSize>>(alloc, value, page_size()) {
        Ok(size) => Ok(size.get() as u32),
        Err(fault) => Err(fault),
    }
}

impl Form for ListArtifacts {
    ghost use Rattle.json_fields.specs.Kinds.{never_empty};
    ghost use Rattle.artifact_forms.specs.Listed.{a_list_request, IsList};

    ghost fault = { a_list_request };

    ghost means = { IsList };

    ghost empty = { never_empty };

    fn is_empty(_value: &Value) -> bool {
        false
    }

    #[tactic(auto, unfolding(crate::proofs::Opened::fields))]
    fn read(alloc: Global, value: &Value) -> Result<ListArtifacts, ReadFault> {
        object(alloc, value)?;
        let named = required(alloc, value, parent())?;
        let page_size = read_page_size(alloc, value)?;
        let query = query_of(alloc, text_of(set_at(value, &parent())))?;
        match read_page_token(alloc, &query, value) {
            Ok(page_token) => Ok(ListArtifacts {
                parent: named,
                page_size,
                page_token,
            }),
            Err(fault) => Err(fault),
        }
    }
}

/// Puts the size of a page, unless it is 0.
fn put_size(alloc: Global, map: &mut Map<String, Value>, size: u32) -> Result<(), AllocError>
    ensures { OnOk result (members_view map.new.entries
        ≡ put_some page_size (size_shown size) (members_view map.old.entries)) }
{
    if size == 0 {
        return Ok(());
    }
    put(alloc, map, &page_size(), Value::Number(Number::from(size)))
}

/// Puts a page token, where there is one.
fn put_token(
    alloc: Global,
    map: &mut Map<String, Value>,
    query: &Query,
    cursor: &Option<ArtifactCursor>,
) -> Result<(), AllocError>
    ensures members { OnOk result (members_view map.new.entries ≡ put_some page_token
        (option_map (λ c. string (token_text query.now c)) cursor.now)
        (members_view map.old.entries)) }
    ensures tells { OnOk result (ForSome cursor.now
        (λ c. Tells query.now (token_text query.now c) c)) }
{
    match cursor {
        Some(cursor) => {
            let text = write_token(alloc, cursor, query)?;
            put_text(alloc, map, page_token(), text)
        }
        None => Ok(()),
    }
}

impl ListArtifacts {
    /// What the request asks, for which its page tokens hold. `Err` where there is no memory for
    /// the parent's name.
    pub fn query(&self, alloc: Global) -> Result<Query, AllocError>
        ensures { IfOk result (λ query. query ≡ query_of self.now) }
    {
        let name = self.parent.to_spelling(alloc)?;
        query_of(alloc, name.as_str())
    }

    /// How many artifacts a page has at most: 100 where the request doesn't say, and never more
    /// than 1,000.
    pub fn counted_size(&self) -> u32
        ensures { result ≡ counted_size self.now.page_size }
    {
        if self.page_size == 0 {
            100
        } else {
            self.page_size.min(1000)
        }
    }

    /// What is written of the request, which is read again where it is of its form. `Err` where
    /// there is no memory for it.
    pub fn write(&self, alloc: Global) -> Result<Value, AllocError>
        ensures value { IfOk result (λ v. view v ≡ list_form.json self.now) }
        ensures again { OnOk result (list_form.CanBeAsked self.now
            → IsReadAgain list_form self.now) }
    {
        let query = self.query(alloc)?;
        let mut map = Map::new(alloc);
        put_token(alloc, &mut map, &query, &self.page_token)?;
        put_size(alloc, &mut map, self.page_size)?;
        let text = self.parent.to_spelling(alloc)?;
        put_text(alloc, &mut map, parent(), text)?;
        Ok(Value::Object(map))
    }
}
