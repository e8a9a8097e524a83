//! Where a message is cut.
ghost use Rattle.std.specs.Prelude.{◌≡◌, ◌≤◌};
ghost use Rattle.verdict_masks.specs.Cuts.{IsCut, is_inside};

/// How many bytes of a message are shown at most.
const MOST: usize = 140;

/// Whether a byte that goes on with a character stands at a place.
fn is_inside(text: &[u8], place: usize) -> bool
    ensures { result ≡ is_inside text.now place }
{
    if place == 0 {
        return false;
    }
    match text.get(place) {
        Some(byte) => *byte >= 128 && *byte < 192,
        None => false,
    }
}

/// The longest front of at most 140 bytes that ends where a character does.
pub(crate) fn cut(text: &[u8]) -> &[u8]
    ensures { IsCut text.now result.now }
{
    if text.len() <= MOST {
        return text;
    }
    let mut end = MOST;
    'inside: while is_inside(text, end) {
        end -= 1;
    }
    &text[..end]
}
