//! Whether a text of a configuration is what it has to be.
ghost use Rattle.std.specs.Prelude.{◌≡◌, ◌≢◌, false, IfOk, option_map};
ghost use Rattle.std.specs.List.{list_all};
ghost use Rattle.policy_checks.specs.Checks.{is_name, is_token, is_hex_text, has_secret_length, is_secret};
ghost use Rattle.policy_checks.specs.Checks.{is_realm_name, has_form, behind, is_principal, is_faulty};
ghost use Rattle.policy_checks.specs.Checks.{may_follow_in_name, is_visible};

use crate::book::Book;
use crate::permission::Permission;
use crate::texts::{Check, TextKind};
use hex::FromHexError;
use names_realms::{NameFault, Realm};
use std::alloc::{AllocError, Global};

/// Whether a byte may stand in a name, behind its first one.
fn may_follow(byte: u8) -> bool
    ensures { result ≡ may_follow_in_name byte }
{
    byte.is_ascii_lowercase()
        || byte.is_ascii_digit()
        || byte == b'_'
        || byte == b'-'
        || byte == b'.'
}

/// Whether each byte may stand in a name, behind its first one.
fn all_may_follow(bytes: &[u8]) -> bool
    ensures { result ≡ list_all may_follow_in_name bytes.now }
{
    bytes.iter().all(|byte| may_follow(*byte))
}

/// Whether a text has the form of a user's, a group's or a role's name.
fn has_name_form(text: &[u8]) -> bool
    ensures { result ≡ is_name text.now }
{
    let Some((first, rest)) = text.split_first() else {
        return false;
    };
    first.is_ascii_lowercase() && rest.len() <= 63 && all_may_follow(rest)
}

/// Whether each byte is a visible one of ASCII.
fn all_visible(bytes: &[u8]) -> bool
    ensures { result ≡ list_all is_visible bytes.now }
{
    bytes.iter().all(|byte| 0x21 <= *byte && *byte <= 0x7E)
}

/// Whether a text has the form of a token.
fn has_token_form(text: &[u8]) -> bool
    ensures { result ≡ is_token text.now }
{
    1 <= text.len() && text.len() <= 256 && all_visible(text)
}

/// Whether a text is the hex text of some bytes.
#[tactic(auto, unfolding(crate::specs::Checks::is_hex_text))]
fn is_hex(alloc: Global, text: &[u8]) -> Result<bool, AllocError>
    ensures { IfOk result (λ b. b ≡ is_hex_text text.now) }
{
    match hex::decode(alloc, text) {
        Ok(_) => Ok(true),
        Err(FromHexError::OutOfMemory) => Err(AllocError),
        Err(_) => Ok(false),
    }
}

/// Whether a text has as many bytes as a secret may have digits.
fn fits_secret(text: &[u8]) -> bool
    ensures { result ≡ has_secret_length text.now }
{
    2 <= text.len() && text.len() <= 128
}

/// Whether a text has the form of a secret.
fn has_secret_form(alloc: Global, text: &[u8]) -> Result<bool, AllocError>
    ensures { IfOk result (λ b. b ≡ is_secret text.now) }
{
    if !fits_secret(text) {
        return Ok(false);
    }
    is_hex(alloc, text)
}

/// No, where the fault is not a want of memory.
fn no_unless_memory(fault: NameFault) -> Result<bool, AllocError>
    ensures { IfOk result (λ b. (false ≡ b) × (fault ≢ NameFault.Memory)) }
{
    match fault {
        NameFault::Memory => Err(AllocError),
        _ => Ok(false),
    }
}

/// Whether a text has the form of a realm.
fn has_realm_form(alloc: Global, text: &[u8]) -> Result<bool, AllocError>
    ensures { IfOk result (λ b. b ≡ is_realm_name text.now) }
{
    match Realm::parse(alloc, text) {
        Ok(_) => Ok(true),
        Err(fault) => no_unless_memory(fault),
    }
}

/// Whether a text has the form that its kind asks for.
fn is_formed(alloc: Global, kind: TextKind, text: &[u8]) -> Result<bool, AllocError>
    ensures { IfOk result (λ b. b ≡ has_form kind text.now) }
{
    match kind {
        TextKind::Secret => has_secret_form(alloc, text),
        TextKind::UserName | TextKind::GroupName | TextKind::RoleName => Ok(has_name_form(text)),
        TextKind::Token => Ok(has_token_form(text)),
        TextKind::Permission => Ok(Permission::from_text(text).is_some()),
        TextKind::RealmName => has_realm_form(alloc, text),
        TextKind::Extended | TextKind::BoundRole | TextKind::Member | TextKind::Principal => Ok(
            true,
        ),
    }
}

/// What stands behind a front.
pub fn rest_behind<'a>(front: &[u8], text: &'a [u8]) -> Option<&'a [u8]>
    ensures { option_map (λ r. r.now) result ≡ behind front.now text.now }
{
    text.strip_prefix(front)
}

/// Whether a text names a user or a group that is there.
fn is_known_principal(book: &Book, text: &[u8]) -> bool
    ensures { result ≡ is_principal book.now text.now }
{
    if let Some(name) = rest_behind(b"user:", text) {
        return book.user(name).is_some();
    }
    match rest_behind(b"group:", text) {
        Some(name) => book.group(name).is_some(),
        None => false,
    }
}

/// Whether a text isn't what is asked of it.
pub(crate) fn fails(
    alloc: Global,
    book: &Book,
    check: Check,
    kind: TextKind,
    text: &[u8],
) -> Result<bool, AllocError>
    ensures { IfOk result (λ b. b ≡ is_faulty book.now check kind text.now) }
{
    match (check, kind) {
        (Check::Form, _) => Ok(!is_formed(alloc, kind, text)?),
        (Check::Roles, TextKind::BoundRole) => Ok(book.role(text).is_none()),
        (Check::Realms, TextKind::Extended) => Ok(book.realm(text).is_none()),
        (Check::Principals, TextKind::Member) => Ok(book.user(text).is_none()),
        (Check::Principals, TextKind::Principal) => Ok(!is_known_principal(book, text)),
        _ => Ok(false),
    }
}
