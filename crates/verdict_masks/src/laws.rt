//! Laws of the definitions that the contracts cite. These functions do nothing: what each of them
//! ensures is the law.
ghost use Rattle.verdict_masks.specs.Laws.{HasCut, HiddenUnseen, OneCut};

/// A text has one cut at most.
pub fn one_cut()
    ensures { OneCut }
{}

/// It has one.
pub fn a_cut_is_there()
    ensures { HasCut }
{}

/// Results that differ in what is hidden are seen alike where they are masked.
pub fn hidden_unseen()
    ensures { HiddenUnseen }
{}
