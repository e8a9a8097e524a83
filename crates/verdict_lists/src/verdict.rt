//! A verdict, and its status.
ghost use Rattle.std.specs.Prelude.{◌≡◌};
ghost use Rattle.verdict_lists.specs.Statuses.{status_number};

use lists::Numbers;

/// What the results of a test with a variant come to.
#[derive(Clone, Copy, Debug, PartialEq, Eq)]
pub enum VerdictStatus {
    /// All are unexpected.
    Unexpected,
    /// All are unexpected, and all were skipped.
    UnexpectedlySkipped,
    /// Some are expected, and some are not.
    Flaky,
    /// They are exonerated, whatever they are.
    Exonerated,
    /// All are expected.
    Expected,
}

impl VerdictStatus {
    /// Its number, by which verdicts are listed.
    pub fn number(self) -> u8
        ensures { result ≡ status_number self }
    {
        match self {
            VerdictStatus::Unexpected => 10,
            VerdictStatus::UnexpectedlySkipped => 20,
            VerdictStatus::Flaky => 30,
            VerdictStatus::Exonerated => 40,
            VerdictStatus::Expected => 50,
        }
    }
}

/// The results of a test with a variant, and what they come to. The test and the variant are those
/// of its first result.
#[derive(Debug, Drop)]
pub struct Verdict {
    pub status: VerdictStatus,
    /// The label of the variant.
    pub label: [u8; 16],
    /// The places of the results: unexpected ones first, then by the ids of invocation and result.
    pub results: Numbers,
    /// The places of the exonerations, by the id of the invocation and their place in it.
    pub exonerations: Numbers,
    /// How many verdicts with its status, test and label are listed before it.
    pub ordinal: u32,
}
