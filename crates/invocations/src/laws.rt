//! Laws of the definitions that the contracts cite. These functions do nothing: what each of them
//! ensures is the law.
ghost use Rattle.invocations.specs.Laws.{FindsOnePlace, HasOneNext};

/// An id is found at one place, or nowhere.
pub fn finds_one_place()
    ensures { FindsOnePlace }
{}

/// One row alone is the next that is due, or none is.
pub fn has_one_next()
    ensures { HasOneNext }
{}
