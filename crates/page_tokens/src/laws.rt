//! Laws of the definitions that the contracts cite. These functions do nothing: what each of them
//! ensures is the law.
ghost use Rattle.page_tokens.specs.Laws.{KeysBreakThere, OneArtifactHeld, OneKeyTold, OneResultHeld, OneTextWritten};
ghost use Rattle.page_tokens.specs.Laws.{OneVerdictHeld, OnlyBase64IsRead, OnlyTokensAreRead, TokensHaveNoFault};

/// A token has no fault, and so is read.
pub fn tokens_have_no_fault()
    ensures { TokensHaveNoFault }
{}

/// The text of bytes is a token where it has no fault.
pub fn only_tokens_are_read()
    ensures { OnlyTokensAreRead }
{}

/// A text that is no base64 is the text of no bytes.
pub fn only_base64_is_read()
    ensures { OnlyBase64IsRead }
{}

/// The place where bytes break a key is the one in front of which some first parts stand whole, and
/// at which it breaks behind them.
pub fn keys_break_there()
    ensures { KeysBreakThere }
{}

/// What the parts of a key hold has one text.
pub fn one_text_written()
    ensures { OneTextWritten }
{}

/// One text has one query, and the key in it one content for each part.
pub fn one_key_told()
    ensures { OneKeyTold }
{}

/// Two cursors over verdicts whose parts hold the same are one.
pub fn one_verdict_held()
    ensures { OneVerdictHeld }
{}

/// Two cursors over results whose parts hold the same are one.
pub fn one_result_held()
    ensures { OneResultHeld }
{}

/// Two cursors over artifacts whose parts hold the same are one.
pub fn one_artifact_held()
    ensures { OneArtifactHeld }
{}
