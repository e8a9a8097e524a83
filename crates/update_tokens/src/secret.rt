//! The secret of update tokens, and the tokens under it.
ghost use Rattle.std.specs.Prelude.{◌≡◌, length, ◌↔◌, IsTrue};
ghost use Rattle.update_tokens.specs.Hash.{token_text};

use crate::hash::Pads;
use names_realms::InvocationId;
use std::marker::Model;

/// A secret under which tokens are made. Its pads are hashed once, and it has no `Debug`, so that
/// it isn't printed.
#[derive(Drop)]
pub struct Secret {
    bytes: Vec<u8>,
    pads: Pads,
}

impl Model for Secret {
    ghost use Rattle.std.specs.Prelude.{ℕ, List};
    ghost use Rattle.update_tokens.specs.Pads.{ArePads};

    ghost Value = { List ℕ };

    ghost view = { λ s. s.bytes.items };

    ghost invariant = { λ s. ArePads s.bytes.items s.pads };
}

impl Secret {
    /// The secret of these bytes, of any length.
    pub fn new(bytes: Vec<u8>) -> Secret
        ensures { result ≡ bytes.items }
    {
        let pads = Pads::of(bytes.as_slice());
        Secret { bytes, pads }
    }

    /// The update token of an id.
    fn token_of(&self, id: &[u8]) -> [u8; 64]
        ensures { result ≡ token_text self.now id.now }
    {
        let code = self.pads.code(b"rdb-update/", id);
        let mut text = [0u8; 64];
        let _ = hex::encode_to_slice(code.as_slice(), &mut text);
        text
    }
}

/// The update token of an invocation under a secret: 64 lower-case hex digits.
pub fn update_token(secret: &Secret, id: &InvocationId) -> [u8; 64]
    ensures { result ≡ token_text secret.now id.now }
{
    secret.token_of(id.as_slice())
}

/// The bits in which two texts differ anywhere. It looks at every byte, whatever the ones before it
/// are.
fn differing_bits(left: &[u8], right: &[u8]) -> u8
    requires { length left.now ≡ length right.now }
    ensures { (result ≡ 0) ↔ (left.now ≡ right.now) }
{
    let mut bits = 0;
    for i in 0..left.len() {
        bits |= left[i] ^ right[i];
    }
    bits
}

/// Whether a text is the update token of the invocation under the secret. A text of a token's
/// length takes the same time, wherever it differs from the token.
pub fn token_is(secret: &Secret, id: &InvocationId, text: &[u8]) -> bool
    ensures { IsTrue result ↔ (text.now ≡ token_text secret.now id.now) }
{
    let token = update_token(secret, id);
    text.len() == 64 && differing_bits(text, token.as_slice()) == 0
}
