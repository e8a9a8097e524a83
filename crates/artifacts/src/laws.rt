//! Laws of the definitions that the contracts cite. These functions do nothing: what each of them
//! ensures is the law.
ghost use Rattle.artifacts.specs.Laws.{FaultOrCanCome, HasOneListing, OneBatchFault, PagesHaveAll, RowsStay};
ghost use Rattle.artifacts.specs.Laws.{StaysTable};

/// In a holder no two artifacts have the same name, after any number of batches.
pub fn stays_table()
    ensures { StaysTable }
{}

/// Artifacts stay at their places, whatever batches come.
pub fn rows_stay()
    ensures { RowsStay }
{}

/// Of a batch one fault at most is said; want of memory only of one that can come in, of which
/// nothing else is.
pub fn one_batch_fault()
    ensures { OneBatchFault }
{}

/// Each batch can come in, or a fault other than want of memory is said of it.
pub fn fault_or_can_come()
    ensures { FaultOrCanCome }
{}

/// What is to be shown of a parent is one list, in one order.
pub fn has_one_listing()
    ensures { HasOneListing }
{}

/// Pages that are followed to the end have together just the artifacts of the parent, each once, in
/// the order of their ids.
pub fn pages_have_all()
    ensures { PagesHaveAll }
{}
