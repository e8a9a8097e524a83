//! Laws of the definitions that the contracts cite. These functions do nothing: what each of them
//! ensures is the law.
ghost use Rattle.verdict_lists.specs.Laws.{HasList, HasListing, OneList, OneListing};

/// There is one list of verdicts at most.
pub fn one_list()
    ensures { OneList }
{}

/// There is one.
pub fn a_list_is_there()
    ensures { HasList }
{}

/// There is one list of results at most.
pub fn one_listing()
    ensures { OneListing }
{}

/// There is one.
pub fn a_listing_is_there()
    ensures { HasListing }
{}
