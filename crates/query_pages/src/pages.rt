//! Results, verdicts and pages of them as they are shown.
use lists::Bytes;
use names_realms::{InvocationId, TestId, Variant};
use verdict_lists::VerdictStatus;
use verdict_masks::ShownResult;

/// A result as it is shown, with the id of the invocation that holds it.
#[derive(Clone, Copy)]
pub struct HeldResult<'a> {
    pub invocation: &'a InvocationId,
    pub shown: ShownResult<'a>,
}

/// A verdict as it is shown.
#[derive(Drop)]
pub struct ShownVerdict<'a> {
    pub test: &'a TestId,
    /// The variant, where it may be seen; else the verdict is masked.
    pub variant: Option<&'a Variant>,
    /// The label of the variant.
    pub label: [u8; 16],
    pub status: VerdictStatus,
    /// The first results, as many as the query asks for at most.
    pub results: Vec<HeldResult<'a>>,
    /// The explanation of each exoneration, where it may be seen.
    pub exonerations: Vec<Option<&'a Bytes>>,
}

/// A page of verdicts.
#[derive(Drop)]
pub struct ShownVerdicts<'a> {
    pub verdicts: Vec<ShownVerdict<'a>>,
    /// The text of the token for the page behind this one, where verdicts are left.
    pub next: Option<Bytes>,
}

/// A page of results.
#[derive(Drop)]
pub struct ShownRows<'a> {
    pub rows: Vec<HeldResult<'a>>,
    /// The text of the token for the page behind this one, where results are left.
    pub next: Option<Bytes>,
}
