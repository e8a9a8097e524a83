//! Laws of the definitions that the contract cites. These functions do nothing: what each of them
//! ensures is the law.
ghost use Rattle.tap_reader.specs.Laws.{GrammarIsRead, LinesAreRead, OneOutcome, OneTree, SomeOutcome};

/// Lines have at most one tree: the tree of which they are the lines, in order, each at its level.
pub fn one_tree()
    ensures { OneTree }
{}

/// A report gives at most one list of cases or fault.
pub fn one_outcome()
    ensures { OneOutcome }
{}

/// Every report gives a list of cases or a fault.
pub fn some_outcome()
    ensures { SomeOutcome }
{}

/// A line says just what its bytes have by the table of TAP 14: its indent, then a plan, a point
/// or a bail-out.
pub fn lines_are_read()
    ensures { LinesAreRead }
{}

/// The lines of a report that count are just those that its grammar has: the version, and then in
/// order what counts, each point with its diagnostic.
pub fn grammar_is_read()
    ensures { GrammarIsRead }
{}
