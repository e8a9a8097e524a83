//! A head's fields: what stands under the names that are read.
ghost use Rattle.std.specs.Prelude.{◌≡◌, ℕ, length, List, [], ◌∷◌, ◌++◌, ◌||◌, All, map, codes};
ghost use Rattle.std.specs.List.{list_any};
ghost use Rattle.std.specs.Option.{option_map};
ghost use Rattle.std.specs.Str.{str_eq_ignore_ascii_case};
ghost use Rattle.httparse.specs.Spans.{IsHeaderWithin, header_bytes};
ghost use Rattle.http_wire.specs.Form.{value_if, values_of, has_close};
ghost use Rattle.http_wire.specs.Says.{IsTheText, IsAlone};
ghost use Rattle.http_wire.specs.Found.{IsFound, AreFound};

use crate::closing::has_close;
use httparse::spans::HeaderSpan;

/// What a head has under a name.
#[derive(Clone, Copy)]
pub enum Found<'b> {
    Absent,
    Once(&'b [u8]),
    Again,
}

/// What a head has under each name that is read.
#[derive(Clone, Copy)]
pub struct Fields<'b> {
    pub content_length: Found<'b>,
    pub transfer_encoding: Found<'b>,
    /// Whether a Connection header has the element `close`.
    pub closes: bool,
    pub authorization: Found<'b>,
    pub update_token: Found<'b>,
}

/// What stands under each name, without regard to ASCII case.
pub fn read_fields<'b>(head: &'b [u8], headers: &[HeaderSpan]) -> Fields<'b>
    requires { All (IsHeaderWithin (length head.now)) headers.now }
    ensures { AreFound result (map (header_bytes head.now) headers.now) }
{
    let mut fields = Fields {
        content_length: Found::Absent,
        transfer_encoding: Found::Absent,
        closes: false,
        authorization: Found::Absent,
        update_token: Found::Absent,
    };
    for header in headers {
        fields = with_header(fields, head, *header);
    }
    fields
}

/// One header more.
fn with_header<'b>(fields: Fields<'b>, head: &'b [u8], header: HeaderSpan) -> Fields<'b>
    requires { IsHeaderWithin (length head.now) header }
    ensures { (list : List (List ℕ × List ℕ)) → AreFound fields.entry list
        → AreFound result (list ++ header_bytes head.now header ∷ []) }
{
    let name = header.name.of(head);
    let value = header.value.of(head);
    Fields {
        content_length: with_field(fields.content_length, b"content-length", name, value),
        transfer_encoding: with_field(fields.transfer_encoding, b"transfer-encoding", name, value),
        closes: with_close(fields.closes, name, value),
        authorization: with_field(fields.authorization, b"authorization", name, value),
        update_token: with_field(fields.update_token, b"update-token", name, value),
    }
}

/// Whether a Connection header has the element `close`, with one field more.
fn with_close(closes: bool, name: &[u8], value: &[u8]) -> bool
    ensures { result
        ≡ (closes || list_any has_close (value_if (codes "connection") (name.now, value.now))) }
{
    closes || (is_same_but_case(name, b"connection") && has_close(value))
}

/// What stands under a name, with one field more.
fn with_field<'b>(found: Found<'b>, wanted: &[u8], name: &[u8], value: &'b [u8]) -> Found<'b>
    ensures { (list : List (List ℕ × List ℕ)) → IsFound found.entry (values_of wanted.now list)
        → IsFound result (values_of wanted.now (list ++ (name.now, value.now) ∷ [])) }
{
    if !is_same_but_case(name, wanted) {
        return found;
    }
    match found {
        Found::Absent => Found::Once(value),
        _ => Found::Again,
    }
}

/// Whether two texts are the same, without regard to ASCII case.
pub fn is_same_but_case(text: &[u8], other: &[u8]) -> bool
    ensures { result ≡ str_eq_ignore_ascii_case text.now other.now }
{
    text.eq_ignore_ascii_case(other)
}

/// The value that stands alone under a name.
pub fn alone<'b>(found: Found<'b>) -> Option<&'b [u8]>
    ensures { (values : List (List ℕ)) → IsFound found.entry values
        → IsTheText (IsAlone values) (option_map (λ t. t.now) result) }
{
    match found {
        Found::Once(value) => Some(value),
        _ => None,
    }
}
