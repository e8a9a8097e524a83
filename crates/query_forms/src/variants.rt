//! Requests for a page of verdicts.
ghost use Rattle.std.specs.Prelude.{◌≡◌, ◌<◌, IfOk, OnOk};
ghost use Rattle.serde_json.specs.View.{view};
ghost use Rattle.result_forms.specs.Laws.{IsReadAgain};
ghost use Rattle.query_forms.specs.Sizes.{counted};
ghost use Rattle.query_forms.specs.Variants.{variants_form, variants_query};

use crate::named::{asked, read_invocations};
use crate::names::{invocations, order_by, page_size, predicate, read_mask, result_limit};
use crate::sizes::{counted, put_size, read_size};
use crate::tokens::{put_page_token, read_page_token};
use field_kinds::{NoMessage, NoText, PageSize, Whole};
use json_fields::{Form, ReadFault, object, optional, put};
use lists::Listed;
use names_realms::InvocationId;
use page_tokens::{Query, VerdictCursor};
use serde_json::{Map, Value};
use std::alloc::{AllocError, Global};

/// The method's name.
const METHOD: &str = "QueryTestVariants";

/// A request for a page of the verdicts of the results that invocations reach.
#[derive(Debug, Drop)]
pub struct QueryTestVariants {
    pub invocations: Listed<InvocationId>,
    /// How many results of a verdict may be shown; 0 where the request doesn't say it.
    pub result_limit: Whole<PageSize>,
    /// How many verdicts a page may have; 0 where the request doesn't say it.
    pub page_size: Whole<PageSize>,
    /// The verdict behind which the page begins, where it isn't the first page.
    pub page_token: Option<VerdictCursor>,
}

impl Form for QueryTestVariants {
    ghost use Rattle.json_fields.specs.Kinds.{never_empty};
    ghost use Rattle.query_forms.specs.Variants.{a_variants_query, IsVariantsQuery};

    ghost fault = { a_variants_query };

    ghost means = { IsVariantsQuery };

    ghost empty = { never_empty };

    fn is_empty(_value: &Value) -> bool {
        false
    }

    #[tactic(auto, unfolding(crate::proofs::Opened::request_fields))]
    fn read(alloc: Global, value: &Value) -> Result<QueryTestVariants, ReadFault> {
        object(alloc, value)?;
        let invocations = read_invocations(alloc, value)?;
        let result_limit = read_size(alloc, value, result_limit())?;
        let page_size = read_size(alloc, value, page_size())?;
        let page_token = read_page_token(alloc, METHOD, value)?;
        optional::<NoMessage>(alloc, value, predicate())?;
        optional::<NoMessage>(alloc, value, read_mask())?;
        optional::<NoText>(alloc, value, order_by())?;
        Ok(QueryTestVariants {
            invocations,
            result_limit,
            page_size,
            page_token,
        })
    }
}

impl QueryTestVariants {
    /// How many verdicts a page has at most: 100 where the request doesn't say it, and never more
    /// than 10,000.
    pub fn size(&self) -> u32
        ensures value { result ≡ counted 100 10000 self.now.page_size }
        ensures some { 0 < result }
    {
        counted(100, 10000, &self.page_size)
    }

    /// How many results of a verdict are shown at most: 10 where the request doesn't say it, and
    /// never more than 100.
    pub fn limit(&self) -> u32
        ensures value { result ≡ counted 10 100 self.now.result_limit }
        ensures some { 0 < result }
    {
        counted(10, 100, &self.result_limit)
    }

    /// The query that tokens of its pages are of. `Err` where there is no memory for the names.
    pub fn query(&self, alloc: Global) -> Result<Query, AllocError>
        ensures { IfOk result (λ q. q ≡ variants_query self.now) }
    {
        let (_, query) = asked(alloc, METHOD, self.invocations.as_slice())?;
        Ok(query)
    }

    /// What is written of the request, which is read again where it is of its form. `Err` where
    /// there is no memory for it.
    pub fn write(&self, alloc: Global) -> Result<Value, AllocError>
        ensures value { IfOk result (λ v. view v ≡ variants_form.json self.now) }
        ensures again { OnOk result (variants_form.CanBeAsked self.now
            → IsReadAgain variants_form self.now) }
    {
        let mut map = Map::new(alloc);
        let (names, query) = asked(alloc, METHOD, self.invocations.as_slice())?;
        put_page_token(alloc, &mut map, &query, &self.page_token)?;
        put_size(alloc, &mut map, page_size(), &self.page_size)?;
        put_size(alloc, &mut map, result_limit(), &self.result_limit)?;
        put(alloc, &mut map, &invocations(), names)?;
        Ok(Value::Object(map))
    }
}
