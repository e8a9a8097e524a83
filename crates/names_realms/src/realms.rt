//! Realms: a project, and what is asked for in it.
ghost use Rattle.std.specs.Prelude.{◌≡◌, ◌≢◌, ◌+◌, ◌^◌, ◌<◌, ◌≤◌, ◌++◌, ◌↔◌, length, IfOk, IfErr, IfSome, OnOk, OnErr};
ghost use Rattle.std.specs.Prelude.{IsTrue, Some};
ghost use Rattle.names_realms.specs.Realms.{IsRealm, bad_subrealm_place, colon_fault, realm_fault};

use name_parts::{
    Alphabet, NameFault, PartForm, append, bad_in_literal, fault_unless_empty, first_bad,
    len_before, limited, owned_text, same, shifted_fault,
};
use std::alloc::{AllocError, Global};
use std::marker::Model;

/// A realm: a project `[a-z0-9\-_]{1,100}`, a colon, and `@root` or `[a-z0-9_.\-/]{1,400}`.
#[derive(Debug, Drop)]
pub struct Realm {
    text: String,
}

impl Model for Realm {
    ghost use Rattle.std.specs.Prelude.{ℕ, List, string_bytes};
    ghost use Rattle.names_realms.specs.Realms.{IsRealm};

    ghost Value = { List ℕ };

    ghost view = { λ r. string_bytes r.text };

    ghost invariant = { λ r. IsRealm (string_bytes r.text) };
}

/// The first bad place behind a realm's colon.
fn bad_in_subrealm(text: &[u8]) -> Option<usize>
    ensures place { result ≡ bad_subrealm_place text.now }
    ensures within { IfSome result (λ place. place ≤ length text.now) }
{
    match text {
        [b'@', ..] => bad_in_literal(b"@root", text),
        _ => first_bad(PartForm::Letters(Alphabet::Subrealm), text),
    }
}

/// What is wrong behind the project of a realm, which ends at this place.
fn fault_behind_project(place: usize, text: &[u8]) -> Option<NameFault>
    requires { place + length text.now < 2 ^ 63 }
    ensures { result ≡ colon_fault place text.now }
{
    let Some((_colon, rest)) = text.split_first() else {
        return Some(NameFault::BadByte { at: place });
    };
    shifted_fault(place + 1, limited(400, rest.len(), bad_in_subrealm(rest)))
}

/// What is wrong with a realm.
fn fault_of_realm(text: &[u8]) -> Option<NameFault>
    ensures { result ≡ realm_fault text.now }
{
    if text.is_empty() {
        return Some(NameFault::Empty);
    }
    let end = len_before(text, b':');
    match fault_unless_empty(PartForm::Letters(Alphabet::Project), &text[..end]) {
        Some(fault) => Some(fault),
        None => fault_behind_project(end, &text[end..]),
    }
}

impl Realm {
    /// Reads a realm, all of the text. `Memory` where there is none for the realm.
    pub fn parse(alloc: Global, text: &[u8]) -> Result<Realm, NameFault>
        ensures ok { IfOk result (λ r. (r ≡ text.now) × IsRealm text.now) }
        ensures refused { IfErr result (λ f. f ≢ NameFault.Memory → ¬ IsRealm text.now) }
        ensures fault { IfErr result (λ f. f ≢ NameFault.Memory → realm_fault text.now ≡ Some f) }
    {
        if let Some(fault) = fault_of_realm(text) {
            return Err(fault);
        }
        let text = owned_text(alloc, text)?;
        Ok(Realm { text })
    }

    /// The bytes of the realm.
    pub fn as_slice(&self) -> &[u8]
        ensures text { result.now ≡ self.now }
        ensures grammar { IsRealm self.now }
    {
        self.text.as_bytes()
    }

    /// The text of the realm, which is ASCII.
    pub fn as_str(&self) -> &str
        ensures text { result.now ≡ self.now }
        ensures grammar { IsRealm self.now }
    {
        self.text.as_str()
    }

    /// Appends the realm, all of it or nothing.
    pub fn write_to(&self, alloc: Global, out: &mut Vec<u8>) -> Result<(), AllocError>
        ensures grammar { IsRealm self.now }
        ensures ok { OnOk result (out.new.items ≡ out.old.items ++ self.now) }
        ensures err { OnErr result (out.new.items ≡ out.old.items) }
    {
        let _ = alloc;
        append(out, self.as_slice())
    }

    /// Whether the other realm has the same bytes.
    pub fn same_as(&self, other: &Realm) -> bool
        ensures { IsTrue result ↔ (self.now ≡ other.now) }
    {
        same(self.as_str(), other.as_str())
    }
}
