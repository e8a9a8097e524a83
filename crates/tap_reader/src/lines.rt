//! The lines of a text, one after the other.
ghost use Rattle.std.specs.Prelude.{◌≡◌, ◌<◌, [], ◌∷◌, length, MatchOption, IfSome};
ghost use Rattle.tap_reader.specs.Lines.{lines};
ghost use Rattle.tap_reader.specs.LineWords.{without_return};

use name_parts::len_before;

/// A line that ends at a LF, without the CR before that.
fn without_return_of(line: &[u8]) -> &[u8]
    ensures { result.now ≡ without_return line.now }
{
    match line.split_last() {
        Some((last, front)) if *last == 13 => front,
        _ => line,
    }
}

/// The first line of a text, and the text behind it.
pub(crate) fn split_line(text: &[u8]) -> Option<(&[u8], &[u8])>
    ensures lines { MatchOption result (text.now ≡ []) (λ p. lines text.now
        ≡ p.0.now ∷ lines p.1.now) }
    ensures shorter { IfSome result (λ p. length p.1.now < length text.now) }
{
    if text.is_empty() {
        return None;
    }
    let end = len_before(text, b'\n');
    if end == text.len() {
        return Some((text, &text[end..]));
    }
    Some((without_return_of(&text[..end]), &text[end + 1..]))
}
