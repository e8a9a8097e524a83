//! Laws of the definitions that the contracts cite. These functions do nothing: what each of them
//! ensures is the law.
ghost use Rattle.result_forms.specs.Laws.{AsksForOne, AsksOfForm, WritesPlain, ShowsPlainResults};
ghost use Rattle.result_forms.specs.Laws.{ShowsPlainExonerations};
ghost use Rattle.result_forms.specs.Methods.{results_form, exonerations_form};

/// One body asks for one batch of results at most.
pub fn one_batch_of_results()
    ensures { AsksForOne results_form }
{}

/// One body asks for one batch of exonerations at most.
pub fn one_batch_of_exonerations()
    ensures { AsksForOne exonerations_form }
{}

/// A batch of results that a body asks for is of its form: each id, variant, pair and tag is of its
/// grammar, and each text, moment and span within its limits.
pub fn results_are_of_form()
    ensures { AsksOfForm results_form }
{}

/// A batch of exonerations that a body asks for is of its form, likewise.
pub fn exonerations_are_of_form()
    ensures { AsksOfForm exonerations_form }
{}

/// What is written of a request has no float and nests at most 68 levels, whatever its texts are.
pub fn batches_are_written_plain()
    ensures results { WritesPlain results_form }
    ensures exonerations { WritesPlain exonerations_form }
{}

/// What replies show of a row has no float and nests at most 65 levels, whatever its texts are.
pub fn rows_are_shown_plain()
    ensures results { ShowsPlainResults }
    ensures exonerations { ShowsPlainExonerations }
{}
