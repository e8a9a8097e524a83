//! The law of the grammar.
ghost use Rattle.std.specs.Prelude.{ℕ, ◌≡◌, ◌<◌, List, All};
ghost use Rattle.result_journal.specs.Grammar.{IsVersion, Reading, VersionReads};

/// Each list of bytes has one reading in each version: record bodies, or one fault. It does
/// nothing.
pub fn one_reading()
    ensures there_is_one { (version : ℕ) → IsVersion version → (bytes : List ℕ) →
        All (λ b. b < 256) bytes → (reading : Reading) × VersionReads version bytes reading }
    ensures there_is_no_other { (version : ℕ) → IsVersion version → (bytes : List ℕ)
        (one other : Reading) → VersionReads version bytes one → VersionReads version bytes other →
        one ≡ other }
{}
