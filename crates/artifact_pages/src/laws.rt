//! Laws of the definitions that the contracts cite. These functions do nothing: what each of them
//! ensures is the law.
ghost use Rattle.artifact_pages.specs.Laws.{APageIsThere, OnePage};

/// What is asked has one page at most.
pub fn one_page()
    ensures { OnePage }
{}

/// And it has one, whatever rows there are.
pub fn a_page_is_there()
    ensures { APageIsThere }
{}
