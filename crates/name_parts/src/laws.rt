//! Laws of the definitions that the contracts cite. These functions do nothing: what each of them
//! ensures is the law.
ghost use Rattle.name_parts.specs.Laws.{EscapesBreakFirst, KeysBreakFirst, LettersBreakFirst};
ghost use Rattle.name_parts.specs.Laws.{NameHasNoFault, OneListOfParts};

/// The bad place of a text is the first that breaks the grammar of its alphabet: some text of the
/// grammar begins as it does up to there, and none with the byte there too.
pub fn letters_break_first()
    ensures { LettersBreakFirst }
{}

/// The bad place of a text is the first that breaks the grammar of keys.
pub fn keys_break_first()
    ensures { KeysBreakFirst }
{}

/// The place of an escaped part's fault is the first that breaks the grammar: some escaped part
/// begins as the text does up to there, and there the first bad byte of its value stands, or no
/// byte's one spelling does.
pub fn escapes_break_first()
    ensures { EscapesBreakFirst }
{}

/// A name of several parts has no fault, and so is read.
pub fn name_has_no_fault()
    ensures { NameHasNoFault }
{}

/// Two lists of parts never spell one name.
pub fn one_list_of_parts()
    ensures { OneListOfParts }
{}
