//! Laws of the definitions that the contracts cite. These functions do nothing: what each of them
//! ensures is the law.
ghost use Rattle.text_kinds.specs.Laws.{OnlyHashesAreRead, OnlyRequestIdsAreRead};

/// A text has no fault as a hash exactly where it is `sha256:` and 64 lower-case hexadecimal
/// digits.
pub fn only_hashes_are_read()
    ensures { OnlyHashesAreRead }
{}

/// A text has no fault as the id of a request exactly where it is 1 to 36 bytes of 0x21 to 0x7E.
pub fn only_request_ids_are_read()
    ensures { OnlyRequestIdsAreRead }
{}
