//! HMAC-SHA256.
ghost use Rattle.std.specs.Prelude.{◌≡◌, ◌++◌, ◌≤◌, ℕ, List, length, drop};
ghost use Rattle.update_tokens.specs.Hash.{filled_block, key_block, padded_with, hmac};
ghost use Rattle.update_tokens.specs.Pads.{ArePads};

use sha2::{Digest, Sha256};

/// The two pads of a key, each fed to a hasher: a code under the key goes on from there.
#[derive(Drop)]
pub(crate) struct Pads {
    inner: Sha256,
    outer: Sha256,
}

/// Writes bytes over the front of a slice.
fn write_front(room: &mut [u8], bytes: &[u8])
    requires { length bytes.now ≤ length room.old }
    ensures { room.new ≡ bytes.now ++ drop (length bytes.now) room.old }
{
    room[..bytes.len()].copy_from_slice(bytes);
}

/// The bytes of a short key, and zeros up to the block's end.
fn block_of_short(key: &[u8]) -> [u8; 64]
    requires { length key.now ≤ 64 }
    ensures { result ≡ filled_block key.now }
{
    let mut block = [0u8; 64];
    write_front(&mut block, key);
    block
}

/// The block of a key of any length.
fn block_of(key: &[u8]) -> [u8; 64]
    ensures { result ≡ key_block key.now }
{
    if key.len() > 64 {
        let code = Sha256::digest(key);
        block_of_short(code.as_slice())
    } else {
        block_of_short(key)
    }
}

/// Lays a pad over each byte.
fn lay_pad(block: &mut [u8], pad: u8)
    ensures { block.new ≡ padded_with pad block.old }
{
    for x in block.iter_mut() {
        *x ^= pad;
    }
}

/// A block with a pad laid over each byte.
fn with_pad(block: &[u8; 64], pad: u8) -> [u8; 64]
    ensures { result ≡ padded_with pad block.now }
{
    let mut out = *block;
    lay_pad(&mut out, pad);
    out
}

/// A hasher of what this one holds.
fn copied(hasher: &Sha256) -> Sha256
    ensures { result ≡ hasher.now }
{
    match hasher.clone() {
        Ok(hasher) => hasher,
        Err(_) => unreachable!(),
    }
}

impl Pads {
    /// The pads of a key.
    pub(crate) fn of(key: &[u8]) -> Pads
        ensures { ArePads key.now result }
    {
        let block = block_of(key);
        let inner = with_pad(&block, 0x36);
        let outer = with_pad(&block, 0x5c);
        Pads {
            inner: Sha256::new_with_prefix(inner.as_slice()),
            outer: Sha256::new_with_prefix(outer.as_slice()),
        }
    }

    /// The code of two pieces, taken as one message.
    #[tactic(auto, unfolding(crate::specs::Hash::hmac))]
    pub(crate) fn code(&self, first: &[u8], second: &[u8]) -> [u8; 32]
        ensures { (key : List ℕ) → ArePads key self.now
            → result ≡ hmac key (first.now ++ second.now) }
    {
        let mut inner = copied(&self.inner);
        inner.update(first);
        inner.update(second);
        let inside = inner.finalize();
        let mut outer = copied(&self.outer);
        outer.update(inside.as_slice());
        outer.finalize()
    }
}

/// The message authentication code of RFC 2104 over SHA-256, of a key and a message of any length.
pub fn hmac_sha256(key: &[u8], message: &[u8]) -> [u8; 32]
    ensures { result ≡ hmac key.now message.now }
{
    Pads::of(key).code(message, &[])
}
