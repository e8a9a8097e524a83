//! Who asks, and for which page.
use lists::Numbers;
use page_tokens::{Query, ResultCursor, VerdictCursor};
use permissions::{CallerId, Policy};

/// A caller under a policy.
#[derive(Clone, Copy)]
pub struct Asker<'p> {
    pub policy: &'p Policy,
    pub caller: CallerId,
}

/// Which page of verdicts is asked for.
#[derive(Drop)]
pub struct VerdictQuery {
    /// The places of the invocations from which results are reached.
    pub roots: Numbers,
    /// What is asked, for which tokens hold.
    pub query: Query,
    /// The key of the last verdict of the page before; none for the first page.
    pub after: Option<VerdictCursor>,
    /// How many verdicts a page has at most.
    pub size: u32,
    /// How many results of a verdict are shown at most.
    pub results: u32,
}

/// Which page of results is asked for.
#[derive(Drop)]
pub struct ResultQuery {
    /// The places of the invocations from which results are reached.
    pub roots: Numbers,
    /// What is asked, for which tokens hold.
    pub query: Query,
    /// The key of the last result of the page before; none for the first page.
    pub after: Option<ResultCursor>,
    /// How many results a page has at most.
    pub size: u32,
}
