//! Laws of the definitions that the contracts cite. These functions do nothing: what each of them
//! ensures is the law.
ghost use Rattle.json_fields.specs.Laws.{MomentFaultIsOfGrammar, SpanFaultIsOfGrammar, MomentWithoutFault, SpanWithoutFault};

/// The fault of a moment's text is the one that its grammar says.
pub fn moment_fault_is_of_grammar()
    ensures { MomentFaultIsOfGrammar }
{}

/// A moment's text has no fault exactly where it says a moment of the years 1 to 9999.
pub fn moment_without_fault()
    ensures { MomentWithoutFault }
{}

/// The fault of a span's text is the one that its grammar says.
pub fn span_fault_is_of_grammar()
    ensures { SpanFaultIsOfGrammar }
{}

/// A span's text has no fault exactly where it says a span that isn't too long.
pub fn span_without_fault()
    ensures { SpanWithoutFault }
{}
