//! Laws of the definitions that the contracts cite. These functions do nothing: what each of them
//! ensures is the law.
ghost use Rattle.junit_parts.specs.Laws.{ReadIsSpelled, ReadValueIsSpelled, SpelledIsRead, SpelledValueIsRead};

/// What is read as a construct is one by the grammar: a tag is its name, its attributes each behind
/// white space, and white space.
pub fn read_is_spelled()
    ensures { ReadIsSpelled }
{}

/// Each construct by the grammar is read as that.
pub fn spelled_is_read()
    ensures { SpelledIsRead }
{}

/// What is read of a value is its text by the grammar, each reference as its character, or the
/// first reference that is faulty.
pub fn read_value_is_spelled()
    ensures { ReadValueIsSpelled }
{}

/// Each text of a value, and each first faulty reference, is read as that.
pub fn spelled_value_is_read()
    ensures { SpelledValueIsRead }
{}
