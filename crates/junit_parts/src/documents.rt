//! The document in a report.
ghost use Rattle.std.specs.Prelude.{◌≡◌, option_map};
ghost use Rattle.junit_parts.specs.Reports.{behind_mark, declaration_from, document_of, ends_target};

use crate::bytes::{is_white, parted_at};

/// What stands behind a byte order mark.
fn behind_mark(bytes: &[u8]) -> &[u8]
    ensures { result.now ≡ behind_mark bytes.now }
{
    if bytes.starts_with(&[0xEF, 0xBB, 0xBF]) {
        return &bytes[3..];
    }
    bytes
}

/// Whether the name of an instruction ends here.
fn ends_target(bytes: &[u8]) -> bool
    ensures { result ≡ ends_target bytes.now }
{
    match bytes {
        [first, ..] => is_white(*first) || *first == b'?',
        [] => false,
    }
}

/// What stands behind the declaration, where there is one.
fn declaration(bytes: &[u8]) -> Option<&[u8]>
    ensures { option_map (λ r. r.now) result ≡ declaration_from bytes.now }
{
    if !bytes.starts_with(b"<?xml") {
        return None;
    }
    let rest = &bytes[5..];
    if !ends_target(rest) {
        return None;
    }
    match parted_at(rest, b"?>") {
        Ok((_, behind)) => Some(behind),
        Err(_) => None,
    }
}

/// What stands behind a byte order mark and a declaration.
pub fn document_of(bytes: &[u8]) -> &[u8]
    ensures { result.now ≡ document_of bytes.now }
{
    let bytes = behind_mark(bytes);
    match declaration(bytes) {
        Some(rest) => rest,
        None => bytes,
    }
}
