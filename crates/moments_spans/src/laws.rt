//! Laws of the definitions that the contracts cite. These functions do nothing: what each of them
//! ensures is the law.
ghost use Rattle.moments_spans.specs.Laws.{DecimalsAreFewest, OneMomentFault, OneMomentSaid, OneSpanFault, OneSpanSaid};
ghost use Rattle.moments_spans.specs.Laws.{PrintedDecimalsAreSaid, PrintedMomentIsSaid, PrintedSpanIsSaid};
ghost use Rattle.moments_spans.specs.Laws.{SaidMomentHasNoFault, SaidSpanHasNoFault};

/// One text says at most one moment.
pub fn one_moment_said()
    ensures { OneMomentSaid }
{}

/// One text says at most one span.
pub fn one_span_said()
    ensures { OneSpanSaid }
{}

/// Every moment that is printed is said by its text.
pub fn printed_moment_is_said()
    ensures { PrintedMomentIsSaid }
{}

/// Every span that is printed is said by its text.
pub fn printed_span_is_said()
    ensures { PrintedSpanIsSaid }
{}

/// A text that says a moment of the years 1 to 9999 has no fault.
pub fn said_moment_has_no_fault()
    ensures { SaidMomentHasNoFault }
{}

/// A text that says a span of at most 315,576,000,000 seconds has no fault.
pub fn said_span_has_no_fault()
    ensures { SaidSpanHasNoFault }
{}

/// A text has at most one fault as a moment.
pub fn one_moment_fault()
    ensures { OneMomentFault }
{}

/// A text has at most one fault as a span.
pub fn one_span_fault()
    ensures { OneSpanFault }
{}

/// A fraction of a second is printed with the fewest of no, three or six digits that are exact.
pub fn decimals_are_fewest()
    ensures { DecimalsAreFewest }
{}

/// A fraction of a second that is printed says its microseconds.
pub fn printed_decimals_are_said()
    ensures { PrintedDecimalsAreSaid }
{}
