//! A test result, and a batch of them.
ghost use Rattle.std.specs.Prelude.{◌≡◌};

use names_realms::{Bytes, Listed, Moment, Pair, ResultId, Span, Status, TestId, Variant};
use std::marker::Model;

/// A result of a test.
#[derive(Drop)]
pub struct TestResult {
    /// The place of the invocation that holds it; 0 in a request.
    pub holder: u32,
    pub test: TestId,
    pub result: ResultId,
    pub variant: Variant,
    /// Whether it ended as was expected.
    pub expected: bool,
    pub status: Status,
    /// A summary in HTML, which may be empty.
    pub summary: Bytes,
    pub start: Option<Moment>,
    pub duration: Option<Span>,
    pub tags: Listed<Pair>,
    /// The message of its failure, which may be empty.
    pub message: Bytes,
    /// The compact text of its properties; empty where they are unset, or `{}`.
    pub properties: Bytes,
}

/// Results of one holder that are to be added to a table.
#[derive(Drop)]
pub struct ResultBatch {
    pub(crate) rows: Vec<TestResult>,
}

impl Model for ResultBatch {
    ghost use Rattle.std.specs.Prelude.{List};
    ghost use Rattle.test_results.specs.declared.result.TestResult.{TestResult};

    ghost Value = { List TestResult };

    ghost view = { λ b. b.rows.items };
}

impl ResultBatch {
    /// The results, as they will stand in the table, one behind the other.
    pub fn rows(&self) -> &[TestResult]
        ensures { result.now ≡ self.now }
    {
        self.rows.as_slice()
    }
}
