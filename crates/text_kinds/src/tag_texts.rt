//! The two texts of a tag: its key, and its value.
ghost use Rattle.std.specs.Prelude.{◌≡◌};
ghost use Rattle.json_fields.specs.NamesRealms.Pairs.{IsPairKey, IsPairValue, pair_value_fault};

use json_fields::{Bytes, NameFault, PartForm, Spelled, limited, owned_text, read_part, utf8_len};
use std::alloc::Global;
use std::marker::Model;

/// The key of a tag, at most 64 bytes: words of lower-case letters, digits and `_` that begin with
/// a letter, parted by `/`.
#[derive(Debug, Drop)]
pub struct TagKey {
    text: String,
}

impl Model for TagKey {
    ghost use Rattle.std.specs.Prelude.{ℕ, List, string_bytes};
    ghost use Rattle.json_fields.specs.NamesRealms.Pairs.{IsPairKey};

    ghost Value = { List ℕ };

    ghost view = { λ k. string_bytes k.text };

    ghost invariant = { λ k. IsPairKey (string_bytes k.text) };
}

impl TagKey {
    /// The text.
    pub fn as_str(&self) -> &str
        ensures text { result.now ≡ self.now }
        ensures grammar { IsPairKey self.now }
    {
        self.text.as_str()
    }

    /// The bytes of the text, moved out.
    pub fn into_bytes(self) -> Bytes
        ensures { result ≡ self }
    {
        Bytes::new(self.text.into_bytes())
    }
}

impl Spelled for TagKey {
    ghost use Rattle.text_kinds.specs.TagTexts.{key_fault};
    ghost use Rattle.json_fields.specs.Texts.{IsSame};

    ghost text_fault = { key_fault };

    ghost spells = { IsSame };

    fn parse_text(alloc: Global, text: &[u8]) -> Result<TagKey, NameFault> {
        let text = read_part(alloc, PartForm::PairKey, text)?;
        Ok(TagKey { text })
    }
}

/// The value of a tag: at most 256 bytes of UTF-8, which may be empty.
#[derive(Debug, Drop)]
pub struct TagValue {
    text: String,
}

impl Model for TagValue {
    ghost use Rattle.std.specs.Prelude.{ℕ, List, string_bytes};
    ghost use Rattle.json_fields.specs.NamesRealms.Pairs.{IsPairValue};

    ghost Value = { List ℕ };

    ghost view = { λ v. string_bytes v.text };

    ghost invariant = { λ v. IsPairValue (string_bytes v.text) };
}

impl TagValue {
    /// The text.
    pub fn as_str(&self) -> &str
        ensures text { result.now ≡ self.now }
        ensures grammar { IsPairValue self.now }
    {
        self.text.as_str()
    }

    /// The bytes of the text, moved out.
    pub fn into_bytes(self) -> Bytes
        ensures { result ≡ self }
    {
        Bytes::new(self.text.into_bytes())
    }
}

/// What is wrong with the value of a pair.
fn fault_of_value(text: &[u8]) -> Option<NameFault>
    ensures { result ≡ pair_value_fault text.now }
{
    let good = utf8_len(text);
    let bad = if good == text.len() { None } else { Some(good) };
    limited(256, text.len(), bad)
}

impl Spelled for TagValue {
    ghost use Rattle.json_fields.specs.NamesRealms.Pairs.{pair_value_fault};
    ghost use Rattle.json_fields.specs.Texts.{IsSame};

    ghost text_fault = { pair_value_fault };

    ghost spells = { IsSame };

    fn parse_text(alloc: Global, text: &[u8]) -> Result<TagValue, NameFault> {
        if let Some(fault) = fault_of_value(text) {
            return Err(fault);
        }
        let text = owned_text(alloc, text)?;
        Ok(TagValue { text })
    }
}
