//! What a page is asked with.
ghost use Rattle.std.specs.Prelude.{◌≡◌, ◌++◌, ℕ, List, length};
ghost use Rattle.sha2.specs.Hashers.{Holds256};
ghost use Rattle.page_tokens.specs.Tokens.{line, query_hash};

use name_parts::Bytes;
use sha2::{Digest, Sha256};
use std::marker::Model;

/// A method with the names in its request, by their SHA-256. A token holds for its query alone.
#[derive(Debug, Drop)]
pub struct Query {
    hash: [u8; 32],
}

impl Model for Query {
    ghost use Rattle.std.specs.Prelude.{◌≡◌, ℕ, List, length};

    ghost Value = { List ℕ };

    ghost view = { λ q. q.hash };

    ghost invariant = { λ q. length q.hash ≡ 32 };
}

/// Feeds a name and a newline to a hasher.
fn feed_line(hasher: &mut Sha256, name: &[u8])
    ensures { (m : List ℕ) → Holds256 hasher.old m → Holds256 hasher.new (m ++ line name.now) }
{
    hasher.update(name);
    hasher.update(b"\n");
}

impl Query {
    /// The query of a method with the names of its request, as they are written there and in their
    /// order: SHA-256 over each of them, the method's first, with a newline behind it.
    #[tactic(auto, unfolding(crate::specs::Tokens::query_hash))]
    pub fn of(method: &[u8], names: &[Bytes]) -> Query
        ensures { result ≡ query_hash method.now names.now }
    {
        let mut hasher = Sha256::new();
        feed_line(&mut hasher, method);
        for i in 0..names.len() {
            feed_line(&mut hasher, names[i].as_slice());
        }
        Query {
            hash: hasher.finalize(),
        }
    }

    /// The bytes of the hash, 32 of them.
    pub fn as_slice(&self) -> &[u8]
        ensures hash { result.now ≡ self.now }
        ensures len { length self.now ≡ 32 }
    {
        self.hash.as_slice()
    }
}
