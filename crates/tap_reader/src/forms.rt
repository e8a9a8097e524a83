//! What one line of a report says, by the table of TAP 14.
ghost use Rattle.std.specs.Prelude.{◌≡◌, ◌+◌, ◌*◌, ◌/◌, ◌%◌, ◌<◌, ◌≤◌, ◌^◌, IsTrue, Option, Some, None, length, codes, option_map};
ghost use Rattle.tap_reader.specs.LineForms.{begins_word, described, digits, directive_in, ends_plan, ends_word, hash_place, is_mark, number_from, numbered_in, plan_in, point_in, said_by, said_in, spaces, trimmed, undashed, unspaced};
ghost use Rattle.tap_reader.specs.Entries.{said_of, test_of};

use crate::entries::{Directive, Says, TestPoint};

/// How many spaces a text begins with.
pub(crate) fn count_spaces(text: &[u8]) -> usize
    ensures value { result ≡ spaces text.now }
    ensures within { result ≤ length text.now }
{
    let mut at = 0;
    while at < text.len() && text[at] == b' ' {
        at += 1;
    }
    at
}

/// How many digits a text begins with.
fn count_digits(text: &[u8]) -> usize
    ensures value { result ≡ digits text.now }
    ensures within { result ≤ length text.now }
{
    let mut at = 0;
    while at < text.len() && text[at].is_ascii_digit() {
        at += 1;
    }
    at
}

/// The text without its first spaces.
fn skip_spaces(text: &[u8]) -> &[u8]
    ensures { result.now ≡ unspaced text.now }
{
    &text[count_spaces(text)..]
}

/// The text without the spaces at its ends.
#[tactic(auto, unfolding(crate::specs::LineForms::trimmed))]
fn trim(text: &[u8]) -> &[u8]
    ensures { result.now ≡ trimmed text.now }
{
    let text = skip_spaces(text);
    let mut end = text.len();
    while end > 0 && text[end - 1] == b' ' {
        end -= 1;
    }
    &text[..end]
}

/// Whether the text is at its end, or a space stands here.
fn at_word_end(text: &[u8]) -> bool
    ensures { result ≡ ends_word text.now }
{
    match text {
        [] => true,
        [first, ..] => *first == b' ',
    }
}

/// The number that so few digits spell.
fn number_of(text: &[u8]) -> u64
    requires { length text.now < 10 }
    ensures { result ≡ number_from 0 text.now }
{
    let mut number: u64 = 0;
    for byte in text {
        number = 10 * number + u64::from(byte.saturating_sub(b'0'));
    }
    number
}

/// Whether behind a plan nothing stands, or spaces, `#` and anything.
fn at_plan_end(text: &[u8]) -> bool
    ensures { result ≡ ends_plan text.now }
{
    match text {
        [] => true,
        [first, rest @ ..] => *first == b' ' && skip_spaces(rest).starts_with(b"#"),
    }
}

/// The plan behind its `1..`.
#[tactic(auto, unfolding(crate::specs::LineForms::plan_in))]
fn read_plan(text: &[u8]) -> Option<Says<'_>>
    ensures { option_map said_of result ≡ plan_in text.now }
{
    let len = count_digits(text);
    if len > 0 && len < 10 && at_plan_end(&text[len..]) {
        return Some(Says::Planned(number_of(&text[..len])));
    }
    None
}

/// How many bytes stand before the first `#` behind a space, or all. The text stands behind a
/// space.
fn find_hash(text: &[u8]) -> usize
    ensures value { result ≡ hash_place 32 text.now }
    ensures within { result ≤ length text.now }
{
    let mut before = b' ';
    for (at, byte) in text.iter().enumerate() {
        if before == b' ' && *byte == b'#' {
            return at;
        }
        before = *byte;
    }
    text.len()
}

/// Whether the text begins with this word, in letters of any case.
fn begins_with_word(word: &[u8], text: &[u8]) -> bool
    ensures { result ≡ begins_word word.now text.now }
{
    if text.len() < word.len() {
        return text.eq_ignore_ascii_case(word);
    }
    let (front, rest) = text.split_at(word.len());
    front.eq_ignore_ascii_case(word) && at_word_end(rest)
}

/// The directive that stands behind a `#`.
#[tactic(auto, unfolding(crate::specs::LineForms::directive_in))]
fn read_directive(text: &[u8]) -> Option<Directive>
    ensures { result ≡ directive_in text.now }
{
    let text = skip_spaces(text);
    if begins_with_word(b"SKIP", text) {
        return Some(Directive::Skip);
    }
    if begins_with_word(b"TODO", text) {
        return Some(Directive::Todo);
    }
    None
}

/// The text behind a dash, if it begins with one that is a word.
fn skip_dash(text: &[u8]) -> &[u8]
    ensures { result.now ≡ undashed text.now }
{
    match text {
        [b'-'] => &text[1..],
        [b'-', b' ', rest @ ..] => rest,
        _ => text,
    }
}

/// A point with what stands behind its number.
#[tactic(auto, unfolding(crate::specs::LineForms::described))]
fn read_description(passed: bool, number: Option<u64>, text: &[u8]) -> TestPoint<'_>
    ensures { test_of result ≡ described passed number text.now }
{
    let text = skip_dash(text);
    let place = find_hash(text);
    let directive = read_directive(&text[(place + 1).min(text.len())..]);
    let description = if directive.is_some() {
        trim(&text[..place])
    } else {
        trim(text)
    };
    TestPoint {
        passed,
        number,
        directive,
        description,
        diagnostic: &[],
        diagnostic_lines: 0,
    }
}

/// A point with what stands behind `ok` and one space.
#[tactic(auto, unfolding(crate::specs::LineForms::numbered_in))]
fn read_numbered(passed: bool, text: &[u8]) -> TestPoint<'_>
    ensures { test_of result ≡ numbered_in passed text.now }
{
    let len = count_digits(text);
    if len > 0 && len < 10 && at_word_end(&text[len..]) {
        let number = Some(number_of(&text[..len]));
        return read_description(passed, number, &text[(len + 1).min(text.len())..]);
    }
    read_description(passed, None, text)
}

/// The point behind its `ok` or `not ok`.
#[tactic(auto, unfolding(crate::specs::LineForms::point_in))]
fn read_point(passed: bool, text: &[u8]) -> Option<Says<'_>>
    ensures { option_map said_of result ≡ point_in passed text.now }
{
    match text {
        [] => Some(Says::Tested(read_numbered(passed, text))),
        [b' ', rest @ ..] => Some(Says::Tested(read_numbered(passed, rest))),
        _ => None,
    }
}

/// What a line says behind its indent.
#[tactic(auto, unfolding(crate::specs::LineForms::said_in))]
fn read_unspaced(text: &[u8]) -> Option<Says<'_>>
    ensures { option_map said_of result ≡ said_in text.now }
{
    if text.starts_with(b"1..") {
        return read_plan(&text[3..]);
    }
    if text.starts_with(b"ok") {
        return read_point(true, &text[2..]);
    }
    if text.starts_with(b"not ok") {
        return read_point(false, &text[6..]);
    }
    if text.starts_with(b"Bail out!") {
        return Some(Says::GivenUp);
    }
    None
}

/// What a line says, and at which level.
#[tactic(auto, unfolding(crate::specs::LineForms::said_by))]
pub(crate) fn read_said(line: &[u8]) -> Option<(usize, Says<'_>)>
    ensures { option_map (λ p. (p.0, said_of p.1)) result ≡ said_by line.now }
{
    let indent = count_spaces(line);
    if indent % 4 != 0 {
        return None;
    }
    let says = read_unspaced(&line[indent..])?;
    Some((indent / 4, says))
}

/// Whether the line is this mark at the indent of the diagnostics of points of the level.
#[tactic(auto, unfolding(crate::specs::LineForms::is_mark))]
pub(crate) fn is_mark_of(mark: &[u8], level: usize, line: &[u8]) -> bool
    ensures { result ≡ is_mark mark.now level line.now }
{
    let indent = count_spaces(line);
    indent % 4 == 2 && indent / 4 == level && &line[indent..] == mark
}
