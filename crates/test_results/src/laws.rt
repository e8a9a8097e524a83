//! Laws of the definitions that the contracts cite. These functions do nothing: what each of them
//! ensures is the law.
ghost use Rattle.test_results.specs.Laws.{FaultOrCanAdd, OneBatchFault, RowsStay, StaysTable};

/// In a holder no two results have the same ids, after any number of batches.
pub fn stays_table()
    ensures { StaysTable }
{}

/// Results stay at their places, whatever batches come.
pub fn rows_stay()
    ensures { RowsStay }
{}

/// Of a batch one fault at most is said, of results as of exonerations; want of memory only of one
/// that can come in, of which nothing else is.
pub fn one_batch_fault()
    ensures { OneBatchFault }
{}

/// Each batch can come in, or a fault other than want of memory is said of it.
pub fn fault_or_can_add()
    ensures { FaultOrCanAdd }
{}
