//! What is wrong with a report.
ghost use Rattle.std.specs.Prelude.{◌≡◌, codes};
ghost use Rattle.tap_reader.specs.Faults.{fault_name, fault_number};

use std::alloc::AllocError;

/// Why a report gives no cases. Lines are counted from 1, bytes from 0.
#[derive(Clone, Copy, Debug, PartialEq, Eq)]
pub enum TapFault {
    /// The first line that isn't blank isn't `TAP version 14` or `TAP version 13`.
    NoVersion,
    /// A stream's second plan stands here.
    TwoPlans { line: usize },
    /// The top stream has no plan, and the run wasn't given up.
    NoPlan,
    /// The number of the point here is 0, or above the plan of its stream, wherever that stands.
    PlanExceeded { line: usize },
    /// The diagnostic that begins here doesn't end.
    OpenDiagnostic { line: usize },
    /// A plan, a point or a bail-out more than 16 levels below the top.
    TooDeep { line: usize },
    /// No UTF-8 goes on here, or 64 MiB end here.
    NotText { at: usize },
    /// With the plan here the numbers of the plans sum to more than 1,000,000.
    PlanTooLarge { line: usize },
    /// There was no memory for the cases. Of the report nothing is said.
    Memory,
}

impl TapFault {
    /// The fault's number: 1 to 8, and 0 for want of memory, which is no fault of the report.
    pub fn number(&self) -> u8
        ensures { result ≡ fault_number self.now }
    {
        match self {
            TapFault::NoVersion => 1,
            TapFault::TwoPlans { .. } => 2,
            TapFault::NoPlan => 3,
            TapFault::PlanExceeded { .. } => 4,
            TapFault::OpenDiagnostic { .. } => 5,
            TapFault::TooDeep { .. } => 6,
            TapFault::NotText { .. } => 7,
            TapFault::PlanTooLarge { .. } => 8,
            TapFault::Memory => 0,
        }
    }

    /// The fault's name.
    pub fn name(&self) -> &'static str
        ensures { result.now ≡ fault_name self.now }
    {
        match self {
            TapFault::NoVersion => "NoVersion",
            TapFault::TwoPlans { .. } => "TwoPlans",
            TapFault::NoPlan => "NoPlan",
            TapFault::PlanExceeded { .. } => "PlanExceeded",
            TapFault::OpenDiagnostic { .. } => "OpenDiagnostic",
            TapFault::TooDeep { .. } => "TooDeep",
            TapFault::NotText { .. } => "NotText",
            TapFault::PlanTooLarge { .. } => "PlanTooLarge",
            TapFault::Memory => "Memory",
        }
    }
}

impl From<AllocError> for TapFault {
    ghost use Rattle.std.specs.Prelude.{◌≡◌};
    ghost use Rattle.tap_reader.specs.declared.faults.TapFault.TheVariants.{Memory};

    ghost from_gives = { λ _ e. e ≡ Memory };

    fn from(_e: AllocError) -> TapFault {
        TapFault::Memory
    }
}
