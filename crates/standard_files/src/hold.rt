//! Files that stand where standard streams are closed.
ghost use Rattle.std.specs.Prelude.{◌≡◌, ◌≤◌, ◌<◌, ℕ, ⊤, Option, Some, IfOk, MatchOption};
ghost use Rattle.fault_counts.specs.Causes.{HasCause};
ghost use Rattle.standard_files.specs.Standard.{HoldsStandard, IsAbove, third_of};

use crate::Failed;

/// The greatest number of a standard stream: that of standard error.
const STANDARD_ERROR: u32 = 2;

/// A file, and its number among the process's open files.
#[derive(Drop)]
pub struct OpenedFile<F> {
    pub number: u32,
    pub file: F,
}

/// What opens the file that is empty, and forgets what is written to it.
///
/// `faults` counts the openings that failed, and `newest` is the number of the file that was opened
/// last. A system gives a file that it opens the least number that no open file has.
pub trait OpensNull {
    type File: Drop;

    ghost faults: { Self → ℕ };

    ghost newest: { Self → Option ℕ };

    fn open_null(&mut self) -> Result<OpenedFile<Self::File>, Failed>
        ensures cause { HasCause (faults self.old) (faults self.new) result }
        ensures newest { IfOk result (λ opened. newest self.new ≡ Some opened.number) };
}

/// The files that were opened where standard streams are closed, in the order of their numbers.
#[derive(Drop)]
pub struct Held<F> {
    pub first: Option<OpenedFile<F>>,
    pub second: Option<OpenedFile<F>>,
    pub third: Option<OpenedFile<F>>,
}

/// Opens files until one gets a number above those of the standard streams, and holds those before
/// it, at most three. So each standard stream is there, as long as what is answered is kept.
///
/// At `Failed` nothing is held.
pub fn hold_standard<N: OpensNull>(nulls: &mut N) -> Result<Held<N::File>, Failed>
    ensures standard { IfOk result HoldsStandard }
    ensures all { IfOk result (λ held. MatchOption (third_of held) (IsAbove (N.newest nulls.new))
        (λ _. ⊤)) }
    ensures cause { HasCause (N.faults nulls.old) (N.faults nulls.new) result }
{
    let mut held = Held {
        first: None,
        second: None,
        third: None,
    };
    held.first = open_standard(nulls)?;
    if held.first.is_some() {
        held.second = open_standard(nulls)?;
    }
    if held.second.is_some() {
        held.third = open_standard(nulls)?;
    }
    Ok(held)
}

// Opens a file, and keeps it where it got the number of a standard stream.
fn open_standard<N: OpensNull>(nulls: &mut N) -> Result<Option<OpenedFile<N::File>>, Failed>
    ensures found { IfOk result (λ found. MatchOption found (IsAbove (N.newest nulls.new))
        (λ opened. opened.number ≤ 2)) }
    ensures cause { HasCause (N.faults nulls.old) (N.faults nulls.new) result }
{
    let opened = nulls.open_null()?;
    if opened.number > STANDARD_ERROR {
        return Ok(None);
    }
    Ok(Some(opened))
}
