//! Laws of the definitions that the contracts cite. These functions do nothing: what each of them
//! ensures is the law.
ghost use Rattle.artifact_forms.specs.Laws.{IsSound};
ghost use Rattle.artifact_forms.specs.Methods.{artifacts_form, artifact_form, list_form};

/// One body asks for one batch at most, and for one where its value has no fault, which is of its
/// form; and what is written of one has no float and nests little.
pub fn batches_are_sound()
    ensures { IsSound artifacts_form }
{}

/// Likewise of a request that shows an artifact.
pub fn names_are_sound()
    ensures { IsSound artifact_form }
{}

/// Likewise of a request that lists artifacts.
pub fn lists_are_sound()
    ensures { IsSound list_form }
{}
