//! A result as it is shown.
use test_results::TestResult;

/// A result as it is shown to a caller. Where it is masked, of the row only these fields are to be
/// written: the ids, whether it was expected, its status, start and duration.
#[derive(Clone, Copy)]
pub struct ShownResult<'a> {
    pub row: &'a TestResult,
    /// The label of its variant.
    pub label: [u8; 16],
    pub masked: bool,
    /// Its message, or so much of it as is shown.
    pub message: &'a [u8],
}
