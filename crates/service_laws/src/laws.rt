//! Laws of steps and histories. These functions do nothing: what each of them ensures is the law.
ghost use Rattle.service_laws.specs.Laws.{ArtifactsStay, EmptyIsValid, ExonerationsStay, FinalInTime, FinalStays};
ghost use Rattle.service_laws.specs.Laws.{FirstIsKept, HasSteps, KeptStays, LegalKeepsValid, NumbersActOnce, ResultsStay, RowsStay};
ghost use Rattle.service_laws.specs.Laws.{ShownIsNamed, StepsAreUnique, TicksFit};
ghost use Rattle.service_laws.specs.Shown.{RecordedIsShown};

/// Each request at a moment leads from each world to some world, with some answer.
pub fn a_step_is_there()
    ensures { HasSteps }
{}

/// A request at a moment leads from a world to one world alone, with one answer.
pub fn one_step()
    ensures { StepsAreUnique }
{}

/// The world in which nothing is recorded is valid.
pub fn empty_is_valid()
    ensures { EmptyIsValid }
{}

/// No two invocations ever have one id: a history from a valid world leads to a valid one.
pub fn ids_stay_unique()
    ensures { LegalKeepsValid }
{}

/// A history takes no invocation away, and each stays whose it is, where, and since when.
pub fn rows_stay()
    ensures { RowsStay }
{}

/// It takes no test result away either: those that it adds stand behind the others.
pub fn results_stay()
    ensures { ResultsStay }
{}

/// Nor an exoneration.
pub fn exonerations_stay()
    ensures { ExonerationsStay }
{}

/// Nor an artifact.
pub fn artifacts_stay()
    ensures { ArtifactsStay }
{}

/// What was recorded is shown as it was given, however long after: each answer to a request for an
/// artifact shows it whole, with the SHA-256 of its contents, or refuses.
pub fn recorded_is_shown()
    ensures { RecordedIsShown }
{}

/// An effect leaves each invocation at its place, found by its id, and a new one after the others.
/// So what is shown by a place is what the request names, or makes.
pub fn shown_is_named()
    ensures { ShownIsNamed }
{}

/// The records of due deadlines always have a place in the journal: in each history from the empty
/// world, with one more for each active invocation, all records stay below 2^30 bytes.
pub fn ticks_fit()
    ensures { TicksFit }
{}

/// What is final stays as it is, with all that it holds and reaches, in each history from a valid
/// world.
pub fn final_stays()
    ensures { FinalStays }
{}

/// In such a history each finalizing invocation becomes final with the first change after which it
/// reaches no active one.
pub fn final_in_time()
    ensures { FinalInTime }
{}

/// An accepted request that has a number is kept under it, with the answer that it got.
pub fn first_is_kept()
    ensures { FirstIsKept }
{}

/// What is kept stays, and stands before what is kept later.
pub fn kept_stays()
    ensures { KeptStays }
{}

/// Each numbered request acts once: sent again, it changes nothing, and it gets the answer that was
/// kept.
pub fn numbers_act_once()
    ensures { NumbersActOnce }
{}
