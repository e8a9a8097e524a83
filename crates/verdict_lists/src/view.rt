//! The rows that verdicts are made of.
ghost use Rattle.std.specs.Prelude.{◌≡◌};
ghost use Rattle.verdict_lists.specs.Entries.{entry_key, seen};
ghost use Rattle.verdict_lists.specs.Orders.{exoneration_key_at, id_at, result_key_at};
ghost use Rattle.verdict_lists.specs.World.{IsKept, IsWhole, world_of};

use crate::entries::Entry;
use crate::keys::{Key, no_key};
use inclusion_graph::Graph;
use invocations::Table;
use test_results::{ExonerationRows, ResultRows};

/// The invocations, which of them includes which, and the results and exonerations that they hold.
/// The graph has a node for each invocation.
#[derive(Clone, Copy)]
pub struct View<'a> {
    pub table: &'a Table,
    pub graph: &'a Graph,
    pub results: &'a ResultRows,
    pub exonerations: &'a ExonerationRows,
}

/// What is so of the rows of each view. This does nothing: what it ensures is the law.
pub fn rows_are_kept(view: &View)
    requires { IsWhole view.now }
    ensures { IsKept (world_of view.now) }
{
    let _edges = view.graph.edges();
    let _invocations = view.table.rows();
    let _results = view.results.rows();
}

impl<'a> View<'a> {
    /// The id of the invocation at a place; empty where there is none.
    pub fn invocation_id(&self, holder: u32) -> &'a str
        ensures { result.now ≡ id_at (world_of self.now) holder }
    {
        let table = self.table;
        match table.rows().get(holder as usize) {
            Some(row) => row.id.as_str(),
            None => "",
        }
    }

    /// What the result at a place is put in order by.
    pub(crate) fn result_key(&self, place: u32) -> Key<'a>
        ensures { seen result ≡ result_key_at (world_of self.now) place }
    {
        let rows = self.results;
        match rows.rows().get(place as usize) {
            Some(row) => Key {
                test: row.test.as_str(),
                pairs: row.variant.as_slice(),
                expected: row.expected,
                invocation: self.invocation_id(row.holder),
                id: row.result.as_str(),
                place: 0,
            },
            None => no_key(),
        }
    }

    /// What the exoneration at a place is put in order by.
    pub(crate) fn exoneration_key(&self, place: u32) -> Key<'a>
        ensures { seen result ≡ exoneration_key_at (world_of self.now) place }
    {
        let rows = self.exonerations;
        match rows.rows().get(place as usize) {
            Some(row) => Key {
                test: row.test.as_str(),
                pairs: row.variant.as_slice(),
                expected: false,
                invocation: self.invocation_id(row.holder),
                id: "",
                place: row.place,
            },
            None => no_key(),
        }
    }

    /// What an entry is put in order by.
    pub(crate) fn key(&self, entry: Entry) -> Key<'a>
        ensures { seen result ≡ entry_key (world_of self.now) entry }
    {
        match entry {
            Entry::Result(place) => self.result_key(place),
            Entry::Exoneration(place) => self.exoneration_key(place),
        }
    }
}
