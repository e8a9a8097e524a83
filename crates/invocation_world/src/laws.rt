//! Laws of the definitions that the contracts cite. These functions do nothing: what each of them
//! ensures is the law.
ghost use Rattle.invocation_world.specs.Laws.{AdvanceKeepsFinal, AdvanceKeepsValid, AdvancesOnce, ChangesKeepFinal};
ghost use Rattle.invocation_world.specs.Laws.{ChangesKeepValid, HasAdvance, HasSettling, SettlesOnce};
ghost use Rattle.invocation_world.specs.Laws.{SettlingKeepsFinal, UpdateIsTold, ValidIsSettled};

/// A world settles in one way at most.
pub fn settles_once()
    ensures { SettlesOnce }
{}

/// Each world settles.
pub fn a_settling_is_there()
    ensures { HasSettling }
{}

/// A valid world settles into itself.
pub fn valid_is_settled()
    ensures { ValidIsSettled }
{}

/// What is due is carried out in one way at most.
pub fn advances_once()
    ensures { AdvancesOnce }
{}

/// What is due can be carried out in each world.
pub fn an_advance_is_there()
    ensures { HasAdvance }
{}

/// Where it is carried out in a valid world, a valid one comes of it, in which nothing is due.
pub fn advance_keeps_valid()
    ensures { AdvanceKeepsValid }
{}

/// Each change of a valid world gives a valid one.
pub fn changes_keep_valid()
    ensures { ChangesKeepValid }
{}

/// No deadline that is carried out alters a row that is final, or what it includes and reaches.
pub fn advance_keeps_final()
    ensures { AdvanceKeepsFinal }
{}

/// Settling doesn't, either.
pub fn settling_keeps_final()
    ensures { SettlingKeepsFinal }
{}

/// Neither does a change of an active row, or a new row.
pub fn changes_keep_final()
    ensures { ChangesKeepFinal }
{}

/// An update is said to change a row just where it does.
pub fn update_is_told()
    ensures { UpdateIsTold }
{}
