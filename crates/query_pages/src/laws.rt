//! Laws of the definitions that the contracts cite. These functions do nothing: what each of them
//! ensures is the law.
ghost use Rattle.query_pages.specs.Laws.{HasResultPage, HasShownResult, HasVerdictPage, OneResultPage, OneShownResult};
ghost use Rattle.query_pages.specs.Laws.{OneVerdictPage, PagesShowResults, PagesShowVerdicts, ResultPagesUnseen};
ghost use Rattle.query_pages.specs.Laws.{ResultsUnseen, VerdictPagesUnseen};

/// A caller sees one page of a query at most, and one result at a place.
pub fn one_page()
    ensures verdicts { OneVerdictPage }
    ensures results { OneResultPage }
    ensures result { OneShownResult }
{}

/// There is one.
pub fn a_page_is_there()
    ensures verdicts { HasVerdictPage }
    ensures results { HasResultPage }
    ensures result { HasShownResult }
{}

/// What a caller may not see changes nothing of what the caller sees.
pub fn unseen_changes_nothing()
    ensures verdicts { VerdictPagesUnseen }
    ensures results { ResultPagesUnseen }
    ensures result { ResultsUnseen }
{}

/// Pages that are followed to the end show the whole list.
pub fn followed_pages_are_list()
    ensures verdicts { PagesShowVerdicts }
    ensures results { PagesShowResults }
{}
