//! A test exoneration, and a batch of them.
ghost use Rattle.std.specs.Prelude.{◌≡◌};

use names_realms::{Bytes, TestId, Variant};
use std::marker::Model;

/// Why the unexpected results of a test with a variant don't count.
#[derive(Drop)]
pub struct TestExoneration {
    /// The place of the invocation that holds it; 0 in a request.
    pub holder: u32,
    /// Its place among the exonerations of its holder, counted from 1; 0 in a request.
    pub place: u32,
    pub test: TestId,
    pub variant: Variant,
    /// Why, in HTML, which may be empty.
    pub explanation: Bytes,
}

/// Exonerations of one holder that are to be added to a table.
#[derive(Drop)]
pub struct ExonerationBatch {
    pub(crate) rows: Vec<TestExoneration>,
}

impl Model for ExonerationBatch {
    ghost use Rattle.std.specs.Prelude.{List};
    ghost use Rattle.test_results.specs.declared.exoneration.TestExoneration.{TestExoneration};

    ghost Value = { List TestExoneration };

    ghost view = { λ b. b.rows.items };
}

impl ExonerationBatch {
    /// The exonerations, as they will stand in the table, one behind the other.
    pub fn rows(&self) -> &[TestExoneration]
        ensures { result.now ≡ self.now }
    {
        self.rows.as_slice()
    }
}
