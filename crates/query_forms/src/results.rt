//! Requests for a page of results.
ghost use Rattle.std.specs.Prelude.{◌≡◌, ◌<◌, IfOk, OnOk};
ghost use Rattle.serde_json.specs.View.{view};
ghost use Rattle.result_forms.specs.Laws.{IsReadAgain};
ghost use Rattle.query_forms.specs.Results.{results_form, results_query};
ghost use Rattle.query_forms.specs.Sizes.{counted};

use crate::named::{asked, read_invocations};
use crate::names::{invocations, page_size, predicate, read_mask};
use crate::sizes::{counted, put_size, read_size};
use crate::tokens::{put_page_token, read_page_token};
use field_kinds::{NoMessage, PageSize, Whole};
use json_fields::{Form, ReadFault, object, optional, put};
use lists::Listed;
use names_realms::InvocationId;
use page_tokens::{Query, ResultCursor};
use serde_json::{Map, Value};
use std::alloc::{AllocError, Global};

/// The method's name.
const METHOD: &str = "QueryTestResults";

/// A request for a page of the results that invocations reach.
#[derive(Debug, Drop)]
pub struct QueryTestResults {
    pub invocations: Listed<InvocationId>,
    /// How many results a page may have; 0 where the request doesn't say it.
    pub page_size: Whole<PageSize>,
    /// The result behind which the page begins, where it isn't the first page.
    pub page_token: Option<ResultCursor>,
}

impl Form for QueryTestResults {
    ghost use Rattle.json_fields.specs.Kinds.{never_empty};
    ghost use Rattle.query_forms.specs.Results.{a_results_query, IsResultsQuery};

    ghost fault = { a_results_query };

    ghost means = { IsResultsQuery };

    ghost empty = { never_empty };

    fn is_empty(_value: &Value) -> bool {
        false
    }

    #[tactic(auto, unfolding(crate::proofs::Opened::request_fields))]
    fn read(alloc: Global, value: &Value) -> Result<QueryTestResults, ReadFault> {
        object(alloc, value)?;
        let invocations = read_invocations(alloc, value)?;
        let page_size = read_size(alloc, value, page_size())?;
        let page_token = read_page_token(alloc, METHOD, value)?;
        optional::<NoMessage>(alloc, value, predicate())?;
        optional::<NoMessage>(alloc, value, read_mask())?;
        Ok(QueryTestResults {
            invocations,
            page_size,
            page_token,
        })
    }
}

impl QueryTestResults {
    /// How many results a page has at most: 100 where the request doesn't say it, and never more
    /// than 1,000.
    pub fn size(&self) -> u32
        ensures value { result ≡ counted 100 1000 self.now.page_size }
        ensures some { 0 < result }
    {
        counted(100, 1000, &self.page_size)
    }

    /// The query that tokens of its pages are of. `Err` where there is no memory for the names.
    pub fn query(&self, alloc: Global) -> Result<Query, AllocError>
        ensures { IfOk result (λ q. q ≡ results_query self.now) }
    {
        let (_, query) = asked(alloc, METHOD, self.invocations.as_slice())?;
        Ok(query)
    }

    /// What is written of the request, which is read again where it is of its form. `Err` where
    /// there is no memory for it.
    pub fn write(&self, alloc: Global) -> Result<Value, AllocError>
        ensures value { IfOk result (λ v. view v ≡ results_form.json self.now) }
        ensures again { OnOk result (results_form.CanBeAsked self.now
            → IsReadAgain results_form self.now) }
    {
        let mut map = Map::new(alloc);
        let (names, query) = asked(alloc, METHOD, self.invocations.as_slice())?;
        put_page_token(alloc, &mut map, &query, &self.page_token)?;
        put_size(alloc, &mut map, page_size(), &self.page_size)?;
        put(alloc, &mut map, &invocations(), names)?;
        Ok(Value::Object(map))
    }
}
