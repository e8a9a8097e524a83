//! Bytes of a report, and runs of them from the front on.
ghost use Rattle.std.specs.Prelude.{◌≡◌, ◌≤◌, ◌<◌, ◌==◌, ◌||◌, not, length, IfErr, IfOk, IfSome};
ghost use Rattle.std.specs.List.{position, position_or_len};
ghost use Rattle.junit_parts.specs.Bytes.{is_white, starts_name, continues_name, run_len, begins_name, behind_white};
ghost use Rattle.junit_parts.specs.Bytes.{is_name, name_from, byte_from, parted_at};
ghost use Rattle.junit_parts.specs.Answers.{Gives};
ghost use Rattle.junit_parts.specs.Runs.{has};

use crate::unread::Unread;

/// Whether the byte is white space (XML 1.0, 2.3).
pub fn is_white(byte: u8) -> bool
    ensures { result ≡ is_white byte }
{
    byte == b' ' || byte == b'\t' || byte == b'\n' || byte == b'\r'
}

/// Whether a name begins with the byte.
pub(crate) fn starts_name(byte: u8) -> bool
    ensures { result ≡ starts_name byte }
{
    byte.is_ascii_alphabetic() || byte == b'_' || byte == b':' || byte > 127
}

/// Whether a name goes on with the byte.
fn continues_name(byte: u8) -> bool
    ensures { result ≡ continues_name byte }
{
    starts_name(byte) || byte.is_ascii_digit() || byte == b'-' || byte == b'.'
}

/// What bytes a run is made of.
#[derive(Clone, Copy, Debug, PartialEq, Eq)]
pub(crate) enum Run {
    White,
    /// What a name goes on with.
    Name,
    Digits,
    DigitsAndCommas,
}

impl Run {
    /// Whether it goes on with the byte.
    fn has(self, byte: u8) -> bool
        ensures { result ≡ has self byte }
    {
        match self {
            Run::White => is_white(byte),
            Run::Name => continues_name(byte),
            Run::Digits => byte.is_ascii_digit(),
            Run::DigitsAndCommas => byte.is_ascii_digit() || byte == b',',
        }
    }
}

/// The first place of a byte that isn't in the run.
fn place_behind(run: Run, bytes: &[u8]) -> Option<usize>
    ensures place { result ≡ position (λ b. not (has run b)) bytes.now }
    ensures within { IfSome result (λ place. place < length bytes.now) }
{
    bytes.iter().position(|b| !run.has(*b))
}

/// How many bytes of a run stand in front.
pub(crate) fn len_of(run: Run, bytes: &[u8]) -> usize
    ensures value { result ≡ run_len (has run) bytes.now }
    ensures within { result ≤ length bytes.now }
{
    match place_behind(run, bytes) {
        Some(place) => place,
        None => bytes.len(),
    }
}

/// The first place of one of two bytes.
fn place_of_either(bytes: &[u8], first: u8, second: u8) -> Option<usize>
    ensures place { result ≡ position (λ b. b == first || b == second) bytes.now }
    ensures within { IfSome result (λ place. place < length bytes.now) }
{
    bytes.iter().position(|b| *b == first || *b == second)
}

/// How much white space stands in front.
pub fn white_len(bytes: &[u8]) -> usize
    ensures value { result ≡ run_len is_white bytes.now }
    ensures within { result ≤ length bytes.now }
{
    len_of(Run::White, bytes)
}

/// How many bytes stand before the first of two, or all where there is none.
pub(crate) fn len_before_either(bytes: &[u8], first: u8, second: u8) -> usize
    ensures value { result ≡ position_or_len (λ b. b == first || b == second) bytes.now }
    ensures within { result ≤ length bytes.now }
{
    match place_of_either(bytes, first, second) {
        Some(place) => place,
        None => bytes.len(),
    }
}

/// What stands behind white space.
pub fn behind_white(bytes: &[u8]) -> &[u8]
    ensures value { result.now ≡ behind_white bytes.now }
    ensures within { length result.now ≤ length bytes.now }
{
    &bytes[white_len(bytes)..]
}

/// Reads a name.
#[tactic(auto, unfolding(crate::specs::Bytes::name_from))]
pub(crate) fn name(bytes: &[u8]) -> Result<(&[u8], &[u8]), Unread>
    ensures read { Gives (λ r. (r.0.now, r.1.now)) result (name_from bytes.now) }
    ensures within { IfOk result (λ r. length r.1.now ≤ length bytes.now) }
{
    match bytes {
        [first, ..] => {
            if !starts_name(*first) {
                return Err(Unread::Broken);
            }
            let len = len_of(Run::Name, bytes);
            Ok((&bytes[..len], &bytes[len..]))
        }
        [] => Err(Unread::Broken),
    }
}

/// Reads this byte.
#[tactic(auto, unfolding(crate::specs::Bytes::byte_from))]
pub(crate) fn byte(bytes: &[u8], wanted: u8) -> Result<&[u8], Unread>
    ensures read { Gives (λ r. r.now) result (byte_from wanted bytes.now) }
    ensures shorter { IfOk result (λ r. length r.now < length bytes.now) }
{
    match bytes {
        [first, rest @ ..] => {
            if *first == wanted {
                Ok(rest)
            } else {
                Err(Unread::Broken)
            }
        }
        [] => Err(Unread::Broken),
    }
}

/// What stands before the first place of the mark, and what stands behind it there.
pub(crate) fn parted_at<'a>(bytes: &'a [u8], mark: &[u8]) -> Result<(&'a [u8], &'a [u8]), Unread>
    ensures parted { Gives (λ r. (r.0.now, r.1.now)) result (parted_at mark.now bytes.now) }
    ensures sure { IfErr result (λ e. e ≡ Unread.Broken) }
    ensures within { IfOk result (λ r. length r.1.now ≤ length bytes.now) }
{
    for at in 0..bytes.len() {
        let (front, rest) = bytes.split_at(at);
        if rest.starts_with(mark) {
            let (_, behind) = rest.split_at(mark.len());
            return Ok((front, behind));
        }
    }
    Err(Unread::Broken)
}

/// Whether a name begins here.
pub(crate) fn begins_name(bytes: &[u8]) -> bool
    ensures { result ≡ begins_name bytes.now }
{
    match bytes {
        [first, ..] => starts_name(*first),
        [] => false,
    }
}

/// Whether all of the bytes are a name.
pub(crate) fn is_name(bytes: &[u8]) -> bool
    ensures { result ≡ is_name bytes.now }
{
    begins_name(bytes) && len_of(Run::Name, bytes) == bytes.len()
}
