//! Laws of the definitions that the contracts cite. These functions do nothing: what each of them
//! ensures is the law.
ghost use Rattle.restricted_fields.specs.Laws.{UnseenChangesNoAnswer, UnseenChangesNoHistory};

/// What a caller may not see changes no answer to a request that reads.
pub fn unseen_changes_no_answer()
    ensures { UnseenChangesNoAnswer }
{}

/// Nor what is told to calls that read, one after the other.
pub fn unseen_changes_no_history()
    ensures { UnseenChangesNoHistory }
{}
