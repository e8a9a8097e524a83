//! Whether a Connection header says that the connection ends.
ghost use Rattle.std.specs.Prelude.{◌≡◌, reverse};
ghost use Rattle.httparse.specs.Grammar.{is_ows, skip_ows};
ghost use Rattle.http_wire.specs.Form.{is_close, has_close};

use crate::fields::is_same_but_case;

fn is_blank(byte: u8) -> bool
    ensures { result ≡ is_ows byte }
{
    byte == b' ' || byte == b'\t'
}

/// The text behind the blanks in front of it.
fn without_front(text: &[u8]) -> &[u8]
    ensures { result.now ≡ skip_ows text.now }
{
    let mut left = text;
    'blanks: while let Some((byte, rest)) = left.split_first() {
        if !is_blank(*byte) {
            return left;
        }
        left = rest;
    }
    left
}

/// The text before the blanks at its end.
fn without_back(text: &[u8]) -> &[u8]
    ensures { result.now ≡ reverse (skip_ows (reverse text.now)) }
{
    let mut left = text;
    'blanks: while let Some((byte, rest)) = left.split_last() {
        if !is_blank(*byte) {
            return left;
        }
        left = rest;
    }
    left
}

/// Whether an element is `close`.
fn is_close(element: &[u8]) -> bool
    ensures { result ≡ is_close element.now }
{
    is_same_but_case(without_back(without_front(element)), b"close")
}

/// Whether one of the elements of a header's value, which stand between commas, is `close`.
pub fn has_close(value: &[u8]) -> bool
    ensures { result ≡ has_close value.now }
{
    value
        .split(|byte| *byte == b',')
        .any(|element| is_close(element))
}
