//! A law of the definitions that the contracts cite. The function does nothing: what it ensures is
//! the law.
ghost use Rattle.artifact_replies.specs.Laws.{ListsHideContents};

/// Lists show neither contents nor hashes: those of artifacts that are alike but for these are the
/// same.
pub fn lists_hide_contents()
    ensures { ListsHideContents }
{}
