//! Laws of the definitions that the contracts cite. These functions do nothing: what each of them
//! ensures is the law.
ghost use Rattle.verdict_pages.specs.Laws.{ResultPagesAreList, ResultsRise, VerdictKeysRise, VerdictPagesAreList};

/// The keys of the list of verdicts rise.
pub fn verdict_keys_rise()
    ensures { VerdictKeysRise }
{}

/// Pages of verdicts that are followed to the end are together the list.
pub fn verdict_pages_are_list()
    ensures { VerdictPagesAreList }
{}

/// The keys of the list of results rise.
pub fn result_keys_rise()
    ensures { ResultsRise }
{}

/// Pages of results that are followed to the end are together the list.
pub fn result_pages_are_list()
    ensures { ResultPagesAreList }
{}
