//! Laws of effects. These functions do nothing: what each of them ensures is the law.
ghost use Rattle.service_effects.specs.Laws.{EffectsAreChanges, EffectsKeepValid};

/// An effect that suits what is sound leads to what is.
pub fn effects_keep_valid()
    ensures { EffectsKeepValid }
{}

/// It leaves something else, but for the one that does nothing.
pub fn effects_are_changes()
    ensures { EffectsAreChanges }
{}
