//! The forms of the two tokens.
ghost use Rattle.std.specs.Prelude.{◌≡◌};
ghost use Rattle.std.specs.List.{list_all};
ghost use Rattle.sink_settings.specs.Forms.{is_visible, is_token, is_lower_hex, is_update_token};

/// Whether each byte is a visible one of ASCII.
fn all_visible(bytes: &[u8]) -> bool
    ensures { result ≡ list_all is_visible bytes.now }
{
    bytes.iter().all(|byte| 0x21 <= *byte && *byte <= 0x7E)
}

/// Whether a text has the form of a caller's token.
pub(crate) fn is_token(text: &[u8]) -> bool
    ensures { result ≡ is_token text.now }
{
    1 <= text.len() && text.len() <= 256 && all_visible(text)
}

/// Whether each byte is a lower-case hex digit.
fn all_lower_hex(bytes: &[u8]) -> bool
    ensures { result ≡ list_all is_lower_hex bytes.now }
{
    bytes.iter().all(|byte| byte.is_ascii_digit() || (b'a' <= *byte && *byte <= b'f'))
}

/// Whether a text has the form of an update token.
pub(crate) fn is_update_token(text: &[u8]) -> bool
    ensures { result ≡ is_update_token text.now }
{
    text.len() == 64 && all_lower_hex(text)
}
