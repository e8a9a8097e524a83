//! What replies show of batches: their rows, whole and in the order in which they came.

use json_fields::InvocationId;
use std::marker::Model;
use test_results::{TestExoneration, TestResult};

/// The results of an invocation, as the reply to a batch shows them. Contracts see the values
/// that are shown.
#[derive(Drop)]
pub struct ShownResults<'r> {
    /// The id of the invocation that holds them.
    pub invocation: &'r InvocationId,
    pub rows: &'r [TestResult],
}

impl<'r> Model for ShownResults<'r> {
    ghost use Rattle.message_forms.specs.Batches.{ResultsShown};

    ghost Value = { ResultsShown };

    ghost view = { λ s. record { invocation = s.invocation.now; rows = s.rows.now } };
}

/// The exonerations of an invocation, as the reply to a batch shows them. Contracts see the values
/// that are shown.
#[derive(Drop)]
pub struct ShownExonerations<'r> {
    /// The id of the invocation that holds them.
    pub invocation: &'r InvocationId,
    pub rows: &'r [TestExoneration],
}

impl<'r> Model for ShownExonerations<'r> {
    ghost use Rattle.message_forms.specs.Batches.{ExonerationsShown};

    ghost Value = { ExonerationsShown };

    ghost view = { λ s. record { invocation = s.invocation.now; rows = s.rows.now } };
}
