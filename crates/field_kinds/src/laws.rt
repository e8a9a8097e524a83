//! Laws of the definitions that the contracts cite. These functions do nothing: what each of them
//! ensures is the law.
ghost use Rattle.field_kinds.specs.OutsideProfile.{OnlyEmptyMessagesAreRead, OnlyEmptyTextsAreRead};

/// A message that the profile leaves out has no fault exactly where it is null, the empty text or
/// the empty object.
pub fn only_empty_messages_are_read()
    ensures { OnlyEmptyMessagesAreRead }
{}

/// A text that the profile leaves out has no fault exactly where it is null or empty.
pub fn only_empty_texts_are_read()
    ensures { OnlyEmptyTextsAreRead }
{}
