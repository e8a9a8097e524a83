//! Bytes with their hash.
ghost use Rattle.std.specs.Prelude.{◌≡◌};
ghost use Rattle.sha2.specs.Sha256.{sha256};

use names_realms::Bytes;
use sha2::{Digest, Sha256};
use std::marker::Model;

/// Bytes with their SHA-256, which is taken once, where they are read. Contracts see the bytes
/// alone.
#[derive(Drop)]
pub struct HashedBytes {
    bytes: Bytes,
    hash: [u8; 32],
}

impl Model for HashedBytes {
    ghost use Rattle.std.specs.Prelude.{◌≡◌, ℕ, List};
    ghost use Rattle.sha2.specs.Sha256.{sha256};

    ghost Value = { List ℕ };

    ghost view = { λ h. h.bytes };

    ghost invariant = { λ h. h.hash ≡ sha256 h.bytes };
}

impl HashedBytes {
    /// These bytes, with their SHA-256.
    pub fn of(bytes: Bytes) -> HashedBytes
        ensures { result ≡ bytes }
    {
        let hash = Sha256::digest(bytes.as_slice());
        HashedBytes { bytes, hash }
    }

    /// The bytes.
    pub fn as_slice(&self) -> &[u8]
        ensures { result.now ≡ self.now }
    {
        self.bytes.as_slice()
    }

    /// Their SHA-256.
    pub fn hash(&self) -> [u8; 32]
        ensures { result ≡ sha256 self.now }
    {
        self.hash
    }

    /// The bytes, which are moved.
    pub fn into_bytes(self) -> Bytes
        ensures { result ≡ self }
    {
        self.bytes
    }
}
