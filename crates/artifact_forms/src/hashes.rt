//! SHA-256 hashes as texts.
ghost use Rattle.std.specs.Prelude.{◌≡◌, ℕ, List, None, IfOk, IfErr, drop, length, string_bytes};
ghost use Rattle.serde_json.specs.View.{view};
ghost use Rattle.hex.specs.Hex.{encode_lower};
ghost use Rattle.json_fields.specs.Faults.{Says};
ghost use Rattle.json_fields.specs.Fields.{optional, set_at, HoldsMaybe};
ghost use Rattle.field_kinds.specs.TextKinds.Hashes.{hash_why};
ghost use Rattle.artifact_forms.specs.Fields.{a_hash, IsHashOf};
ghost use Rattle.artifact_forms.specs.Hashes.{hash_text, IsDigest, SpellsHash};

use field_kinds::HashText;
use json_fields::{Form, Name, ReadFault, optional};
use serde_json::Value;
use std::alloc::{AllocError, Global};
use std::marker::Model;

/// The text of a hash: `sha256:`, and two lower-case hexadecimal digits of each byte. `Err` where
/// there is no memory for it.
pub fn hash_text(alloc: Global, hash: &[u8; 32]) -> Result<String, AllocError>
    ensures { IfOk result (λ text. string_bytes text ≡ hash_text hash.now) }
{
    let digits = hex::encode(alloc, hash.as_slice())?;
    format!(in alloc; "sha256:{digits}")
}

/// The bytes of a hash, by its text.
fn digest_of(text: &HashText) -> [u8; 32]
    ensures { SpellsHash text.now result }
{
    let digits = text.as_str().as_bytes().split_at(7).1;
    let mut hash = [0u8; 32];
    let _ = hex::decode_to_slice(digits, &mut hash);
    hash
}

/// A hash that a request says. Contracts see it as its bytes.
#[derive(Drop)]
pub(crate) struct Digest {
    bytes: [u8; 32],
}

impl Model for Digest {
    ghost use Rattle.std.specs.Prelude.{ℕ, List};

    ghost Value = { List ℕ };

    ghost view = { λ d. d.bytes };
}

impl Form for Digest {
    ghost use Rattle.json_fields.specs.Kinds.{empty_text};
    ghost use Rattle.artifact_forms.specs.Fields.{a_hash, IsHashOf};

    ghost fault = { a_hash };

    ghost means = { IsHashOf };

    ghost empty = { empty_text };

    fn is_empty(value: &Value) -> bool {
        HashText::is_empty(value)
    }

    fn read(alloc: Global, value: &Value) -> Result<Digest, ReadFault> {
        match HashText::read(alloc, value) {
            Ok(text) => Ok(Digest {
                bytes: digest_of(&text),
            }),
            Err(fault) => Err(fault),
        }
    }
}

/// The bytes of a hash, where one is said.
pub(crate) fn read_hash(
    alloc: Global,
    value: &Value,
    name: Name,
) -> Result<Option<[u8; 32]>, ReadFault>
    ensures ok { IfOk result (λ hash. (optional name a_hash (view value.now) ≡ None)
        × HoldsMaybe IsHashOf (set_at name (view value.now)) hash) }
    ensures err { IfErr result (λ e. Says e (optional name a_hash (view value.now))) }
{
    match optional::<Digest>(alloc, value, name) {
        Ok(Some(digest)) => Ok(Some(digest.bytes)),
        Ok(None) => Ok(None),
        Err(fault) => Err(fault),
    }
}
