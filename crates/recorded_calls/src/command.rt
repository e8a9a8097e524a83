//! Commands as data.
ghost use Rattle.std.specs.Prelude.{◌≡◌, ℕ, MatchOption};
ghost use Rattle.recorded_calls.specs.Commands.{kind_byte};

use policy_checks::Moment;

/// Which method a recorded call was for. A method that changes nothing has none.
#[derive(Clone, Copy, Debug, PartialEq, Eq)]
pub enum CallKind {
    CreateInvocation,
    UpdateInvocation,
    FinalizeInvocation,
    UpdateIncludedInvocations,
    BatchCreateTestResults,
    BatchCreateTestExonerations,
    BatchCreateArtifacts,
}

/// A call that changed something: its method, its moment, its caller's name, and the body of its
/// request as it came.
#[derive(Clone, Copy)]
pub struct RecordedCall<'c> {
    pub kind: CallKind,
    pub moment: Moment,
    pub caller: &'c [u8],
    pub body: &'c [u8],
}

/// What one record of a journal says.
#[derive(Clone, Copy)]
pub enum Command<'c> {
    /// The deadlines that were due at this moment were carried out.
    Tick(Moment),
    /// A call changed something.
    Call(RecordedCall<'c>),
}

impl CallKind {
    /// The byte that says the method.
    pub(crate) fn byte(self) -> u8
        ensures { result ≡ kind_byte self }
    {
        match self {
            CallKind::CreateInvocation => 1,
            CallKind::UpdateInvocation => 2,
            CallKind::FinalizeInvocation => 3,
            CallKind::UpdateIncludedInvocations => 4,
            CallKind::BatchCreateTestResults => 5,
            CallKind::BatchCreateTestExonerations => 6,
            CallKind::BatchCreateArtifacts => 7,
        }
    }

    /// The method that a byte says, if it says one.
    pub(crate) fn of(byte: u8) -> Option<CallKind>
        ensures { MatchOption result ((kind : CallKind) → kind_byte kind ≡ byte → ⊥)
            (λ kind. kind_byte kind ≡ byte) }
    {
        match byte {
            1 => Some(CallKind::CreateInvocation),
            2 => Some(CallKind::UpdateInvocation),
            3 => Some(CallKind::FinalizeInvocation),
            4 => Some(CallKind::UpdateIncludedInvocations),
            5 => Some(CallKind::BatchCreateTestResults),
            6 => Some(CallKind::BatchCreateTestExonerations),
            7 => Some(CallKind::BatchCreateArtifacts),
            _ => None,
        }
    }
}
