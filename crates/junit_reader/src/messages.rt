//! What is told of an error or a failure.
ghost use Rattle.std.specs.Prelude.{◌≡◌, ◌≤◌, ◌<◌, ◌-◌, ◌&&◌, nat_lt, length, slice_index};
ghost use Rattle.junit_parts.specs.Bytes.{is_white};
ghost use Rattle.junit_parts.specs.Messages.{boundary, cut, is_inner, solid_len};

use junit_parts::is_white;

/// Whether white space stands before the place.
fn ends_white(bytes: &[u8], at: usize) -> bool
    requires { at ≤ length bytes.now }
    ensures { result ≡ (nat_lt 0 at && is_white (slice_index bytes.now (at - 1))) }
{
    at > 0 && is_white(bytes[at - 1])
}

/// How many bytes there are up to the last that isn't white space.
pub(crate) fn solid_len(bytes: &[u8]) -> usize
    ensures value { result ≡ solid_len bytes.now }
    ensures within { result ≤ length bytes.now }
{
    let mut at = bytes.len();
    while ends_white(bytes, at) {
        at -= 1;
    }
    at
}

/// Whether the byte isn't the first of its character.
fn is_inner(byte: u8) -> bool
    ensures { result ≡ is_inner byte }
{
    byte >= 128 && byte < 192
}

/// Whether a character goes over the place.
fn is_inside(bytes: &[u8], at: usize) -> bool
    requires { at < length bytes.now }
    ensures { result ≡ (nat_lt 0 at && is_inner (slice_index bytes.now at)) }
{
    at > 0 && is_inner(bytes[at])
}

/// The last place up to 1,024 where a character begins.
fn boundary(bytes: &[u8]) -> usize
    requires { 1024 < length bytes.now }
    ensures value { result ≡ boundary 1024 bytes.now }
    ensures within { result ≤ 1024 }
{
    let mut at = 1024;
    while is_inside(bytes, at) {
        at -= 1;
    }
    at
}

/// The longest front of at most 1,024 bytes that ends where a character does.
pub(crate) fn cut(bytes: &[u8]) -> &[u8]
    ensures { result.now ≡ cut bytes.now }
{
    if bytes.len() <= 1024 {
        return bytes;
    }
    let (front, _) = bytes.split_at(boundary(bytes));
    front
}
