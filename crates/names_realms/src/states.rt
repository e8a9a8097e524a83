//! How far an invocation has come, and how a test ended.

use moments_spans::Span;
use name_parts::Bytes;

/// The state of an invocation. It goes from the first to the last, never back.
#[derive(Clone, Copy, Debug, PartialEq, Eq)]
pub enum State {
    /// It takes results.
    Active,
    /// It takes none any more, and waits for those that it includes.
    Finalizing,
    /// It never changes again.
    Finalized,
}

/// How a test ended.
#[derive(Clone, Copy, Debug, PartialEq, Eq)]
pub enum Status {
    Pass,
    Fail,
    Crash,
    Abort,
    Skip,
}

/// A case of a test report.
#[derive(Debug, Drop)]
pub struct Case {
    pub name: Bytes,
    pub status: Status,
    /// Whether it ended as it was to.
    pub expected: bool,
    /// How long it took, where the report says so.
    pub duration: Option<Span>,
    /// What the report says of it.
    pub message: Bytes,
}
