//! The asks that stand in a configuration as comments, and their answers.
//!
//! - `# ask TOKEN REALM`: the permissions that the token's user has in the realm.
//! - `# realms TOKEN REALM..`, `# listed TOKEN REALM..`: by one pass, in which of these realms the
//!   user may read, or list, artifacts, a letter each.
//! - `# user TOKEN`: the user's name.
//! - `# token ID`: the update token of the invocation under the configuration's secret.
//! - `# shows ID TEXT`: whether a text is this token.
//! - `# code KEY MESSAGE`: the HMAC-SHA256 of the message under the key, all in hex digits.
use names_realms::{InvocationId, Realm};
use permissions::{Permission, Policy};
use std::alloc::{AllocError, Global};
use update_tokens::{Secret, hmac_sha256, token_is, update_token};

/// The names of the permissions, in the order in which they are told.
const NAMES: [&str; 12] = [
    "resultdb.invocations.create",
    "resultdb.invocations.createWithReservedID",
    "resultdb.invocations.get",
    "resultdb.invocations.include",
    "resultdb.testResults.get",
    "resultdb.testResults.list",
    "resultdb.testResults.listLimited",
    "resultdb.testExonerations.get",
    "resultdb.testExonerations.list",
    "resultdb.testExonerations.listLimited",
    "resultdb.artifacts.get",
    "resultdb.artifacts.list",
];

/// The names of what the owner of a token may do in a realm.
fn tell_rights(
    alloc: Global,
    policy: &Policy,
    ask: &str,
    out: &mut Vec<u8>,
) -> Result<(), AllocError> {
    let (token, realm) = ask.split_once(' ').unwrap_or((ask, ""));
    let Ok(realm) = Realm::parse(alloc, realm.as_bytes()) else {
        return out.extend_from_slice(b"no realm\n");
    };
    let Some(caller) = policy.caller_of(token.as_bytes()) else {
        return out.extend_from_slice(b"no caller\n");
    };
    out.extend_from_slice(b"may")?;
    for name in NAMES {
        let Some(permission) = Permission::from_text(name.as_bytes()) else {
            return out.extend_from_slice(b" ?\n");
        };
        if policy.allows(caller, permission, &realm) {
            out.extend_from_slice(b" ")?;
            out.extend_from_slice(name.as_bytes())?;
        }
    }
    out.extend_from_slice(b"\n")
}

/// The letters of the realms, parted by blanks behind the token, in which its owner has a
/// permission.
fn tell_realms(
    alloc: Global,
    policy: &Policy,
    permission: Permission,
    ask: &str,
    out: &mut Vec<u8>,
) -> Result<(), AllocError> {
    let Some((token, realms)) = ask.split_once(' ') else {
        return out.extend_from_slice(b"no realm\n");
    };
    let Some(caller) = policy.caller_of(token.as_bytes()) else {
        return out.extend_from_slice(b"no caller\n");
    };
    let granted = policy.granted(alloc, caller, permission)?;
    for name in realms.split(' ') {
        let letter = match Realm::parse(alloc, name.as_bytes()) {
            Ok(realm) => if granted.in_realm(&realm) { b"x" } else { b"-" },
            Err(_) => b"?",
        };
        out.extend_from_slice(letter)?;
    }
    out.extend_from_slice(b"\n")
}

/// The name of a token's owner.
fn tell_user(policy: &Policy, token: &str, out: &mut Vec<u8>) -> Result<(), AllocError> {
    match policy.caller_of(token.as_bytes()) {
        Some(caller) => out.extend_from_slice(policy.name_of(caller))?,
        None => out.extend_from_slice(b"no caller")?,
    }
    out.extend_from_slice(b"\n")
}

/// The update token of an invocation.
fn tell_token(
    alloc: Global,
    secret: &Secret,
    id: &str,
    out: &mut Vec<u8>,
) -> Result<(), AllocError> {
    match InvocationId::parse(alloc, id.as_bytes()) {
        Ok(id) => out.extend_from_slice(update_token(secret, &id).as_slice())?,
        Err(_) => out.extend_from_slice(b"no id")?,
    }
    out.extend_from_slice(b"\n")
}

/// Whether a text is the update token of an invocation.
fn tell_shown(
    alloc: Global,
    secret: &Secret,
    ask: &str,
    out: &mut Vec<u8>,
) -> Result<(), AllocError> {
    let (id, text) = ask.split_once(' ').unwrap_or((ask, ""));
    let answer: &[u8] = match InvocationId::parse(alloc, id.as_bytes()) {
        Ok(id) => if token_is(secret, &id, text.as_bytes()) {
            b"yes\n"
        } else {
            b"no\n"
        },
        Err(_) => b"no id\n",
    };
    out.extend_from_slice(answer)
}

/// The code of a message under a key.
fn tell_code(alloc: Global, ask: &str, out: &mut Vec<u8>) -> Result<(), AllocError> {
    let (key, message) = ask.split_once(' ').unwrap_or((ask, ""));
    let key = hex::decode(alloc, key.as_bytes());
    let message = hex::decode(alloc, message.as_bytes());
    let (Ok(key), Ok(message)) = (key, message) else {
        return out.extend_from_slice(b"no digits\n");
    };
    let mut digits = [0u8; 64];
    let code = hmac_sha256(key.as_slice(), message.as_slice());
    let _ = hex::encode_to_slice(code.as_slice(), &mut digits);
    out.extend_from_slice(&digits)?;
    out.extend_from_slice(b"\n")
}

/// The answer to an ask of this kind; nothing to any other comment.
fn tell_ask(
    alloc: Global,
    policy: &Policy,
    kind: &str,
    ask: &str,
    out: &mut Vec<u8>,
) -> Result<(), AllocError> {
    match kind {
        "ask" => tell_rights(alloc, policy, ask, out),
        "realms" => tell_realms(alloc, policy, Permission::GetArtifact, ask, out),
        "listed" => tell_realms(alloc, policy, Permission::ListArtifacts, ask, out),
        "user" => tell_user(policy, ask, out),
        "token" => tell_token(alloc, policy.secret(), ask, out),
        "shows" => tell_shown(alloc, policy.secret(), ask, out),
        "code" => tell_code(alloc, ask, out),
        _ => Ok(()),
    }
}

/// The answers to the asks that stand in a configuration.
pub(crate) fn tell_asks(
    alloc: Global,
    policy: &Policy,
    text: &str,
    out: &mut Vec<u8>,
) -> Result<(), AllocError> {
    for line in text.lines() {
        let comment = line.strip_prefix("# ").unwrap_or("");
        if let Some((kind, ask)) = comment.split_once(' ') {
            tell_ask(alloc, policy, kind, ask, out)?;
        }
    }
    Ok(())
}
