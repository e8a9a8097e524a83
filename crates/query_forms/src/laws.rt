//! Laws of the definitions that the contracts cite. These functions do nothing: what each of them
//! ensures is the law.
ghost use Rattle.query_forms.specs.Laws.{IsReadOneWay, ResultsAskedAsWritten, VariantsAskedAsWritten};
ghost use Rattle.query_forms.specs.Results.{results_form};
ghost use Rattle.query_forms.specs.Single.{single_form};
ghost use Rattle.query_forms.specs.Variants.{variants_form};

/// Each body asks for one result, or has one fault.
pub fn single_is_read_one_way()
    ensures { IsReadOneWay single_form }
{}

/// Each body asks for one page of results, or has one fault.
pub fn results_are_read_one_way()
    ensures { IsReadOneWay results_form }
{}

/// Each body asks for one page of verdicts, or has one fault.
pub fn variants_are_read_one_way()
    ensures { IsReadOneWay variants_form }
{}

/// The names in a body, as they are written, are those of the invocations that it asks about, so
/// that the query of a request is the one beside which its token was judged.
pub fn asked_as_written()
    ensures results { ResultsAskedAsWritten }
    ensures variants { VariantsAskedAsWritten }
{}
