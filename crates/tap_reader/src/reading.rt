//! The lines of a report that count, with the diagnostics of its points.
ghost use Rattle.std.specs.Prelude.{◌≡◌, ◌+◌, ◌≤◌, ◌<◌, ◌^◌, ◌++◌, codes, map, length, take, drop, Some, None, IfOk, OnOk, IfSome, MatchOption, option_map};
ghost use Rattle.tap_reader.specs.Lines.{lines};
ghost use Rattle.tap_reader.specs.LineForms.{said_by};
ghost use Rattle.tap_reader.specs.Counted.{counted, found_in, given, lines_found, until_end, with_found};
ghost use Rattle.tap_reader.specs.Bounds.{AllBelow};
ghost use Rattle.tap_reader.specs.Entries.{line_of, test_of};
ghost use Rattle.tap_reader.specs.ReadingWords.{IsDiagnostic, counted_behind};

use crate::entries::{Entry, Says, TestPoint};
use crate::forms::{is_mark_of, read_said};
use crate::lines::split_line;
use std::alloc::{AllocError, Global};

/// What of a diagnostic stands behind a point.
#[derive(Clone, Copy)]
pub(crate) enum Diagnostic<'a> {
    Absent,
    /// So many lines stand from here on up to its end, and what follows that.
    Whole {
        body: &'a [u8],
        lines: usize,
        rest: &'a [u8],
    },
    Endless,
}

/// How many lines stand before the one that ends a diagnostic, and the text behind that.
fn find_end(level: usize, text: &[u8]) -> Option<(usize, &[u8])>
    ensures body { MatchOption result (until_end level (lines text.now) ≡ None)
        (λ p. until_end level (lines text.now) ≡ Some (take p.0 (lines text.now))) }
    ensures rest { IfSome result (λ p. lines p.1.now ≡ drop (p.0 + 1) (lines text.now)) }
    ensures count { IfSome result (λ p. p.0 + 1 ≤ length (lines text.now)) }
    ensures within { IfSome result (λ p. p.0 + 1 + length p.1.now ≤ length text.now) }
{
    let mut rest = text;
    let mut count = 0;
    while let Some((line, behind)) = split_line(rest) {
        if is_mark_of(b"...", level, line) {
            return Some((count, behind));
        }
        count += 1;
        rest = behind;
    }
    None
}

/// The diagnostic of a point of the level, behind which the text stands.
fn find_diagnostic(level: usize, text: &[u8]) -> Diagnostic<'_>
    ensures { IsDiagnostic level text.now result }
{
    let Some((line, body)) = split_line(text) else {
        return Diagnostic::Absent;
    };
    if !is_mark_of(b"---", level, line) {
        return Diagnostic::Absent;
    }
    match find_end(level, body) {
        Some((lines, rest)) => Diagnostic::Whole { body, lines, rest },
        None => Diagnostic::Endless,
    }
}

/// Keeps what a line of this number says, behind which the text stands. Gives the number and the
/// text of the line to read next.
fn take_line<'a>(
    entries: &mut Vec<Entry<'a>>,
    number: usize,
    line: &'a [u8],
    behind: &'a [u8],
) -> Result<(usize, &'a [u8]), AllocError>
    requires { number + 1 + length behind.now < 2 ^ 64 }
    ensures given { OnOk result (map line_of entries.new.items ≡ map line_of entries.old.items
        ++ given number (said_by line.now) (lines behind.now)) }
    ensures rest { IfOk result (λ p. counted p.0 0 (lines p.1.now)
        ≡ counted_behind number line.now behind.now) }
    ensures within { IfOk result (λ p. p.0 + length p.1.now ≤ number + 1 + length behind.now) }
    ensures shorter { IfOk result (λ p. length p.1.now ≤ length behind.now) }
{
    let Some((level, says)) = read_said(line) else {
        return Ok((number + 1, behind));
    };
    match says {
        Says::Tested(point) => take_point(entries, number, level, point, behind),
        Says::GivenUp => {
            entries.push(Entry::new(number, level, says))?;
            let rest = &behind[behind.len()..];
            Ok((number + 1, rest))
        }
        Says::Planned(_) => {
            entries.push(Entry::new(number, level, says))?;
            Ok((number + 1, behind))
        }
        Says::Opened | Says::Lacking(_) => Ok((number + 1, behind)),
    }
}

/// Keeps a point with its diagnostic.
fn take_point<'a>(
    entries: &mut Vec<Entry<'a>>,
    number: usize,
    level: usize,
    point: TestPoint<'a>,
    behind: &'a [u8],
) -> Result<(usize, &'a [u8]), AllocError>
    requires { number + 1 + length behind.now < 2 ^ 64 }
    ensures given { OnOk result (map line_of entries.new.items ≡ map line_of entries.old.items
        ++ with_found number level (test_of point.entry) (found_in level (lines behind.now))) }
    ensures rest { IfOk result (λ p. counted p.0 0 (lines p.1.now)
        ≡ counted (number + 1)
        (lines_found (found_in level (lines behind.now)) (lines behind.now)) (lines behind.now)) }
    ensures within { IfOk result (λ p. p.0 + length p.1.now ≤ number + 1 + length behind.now) }
    ensures shorter { IfOk result (λ p. length p.1.now ≤ length behind.now) }
{
    match find_diagnostic(level, behind) {
        Diagnostic::Absent => {
            entries.push(Entry::new(number, level, Says::Tested(point)))?;
            Ok((number + 1, behind))
        }
        Diagnostic::Whole { body, lines, rest } => {
            let point = TestPoint {
                diagnostic: body,
                diagnostic_lines: lines,
                ..point
            };
            entries.push(Entry::new(number, level, Says::Tested(point)))?;
            Ok((number + 1 + (lines + 2), rest))
        }
        Diagnostic::Endless => {
            entries.push(Entry::new(number, level, Says::Tested(point)))?;
            entries.push(Entry::new(number + 1, level, Says::Opened))?;
            Ok((number + 1, &behind[behind.len()..]))
        }
    }
}

/// The lines that count, of a text whose first line has this number.
pub(crate) fn read_lines<'a>(
    alloc: Global,
    first: usize,
    text: &'a [u8],
) -> Result<Vec<Entry<'a>>, AllocError>
    requires { first + length text.now < 2 ^ 64 }
    ensures lines { IfOk result (λ v. map line_of v.items ≡ counted first 0 (lines text.now)) }
    ensures below { IfOk result (λ v. AllBelow (2 ^ 40) (map line_of v.items)) }
    ensures room { IfOk result (λ v. length v.items < 2 ^ 63) }
{
    let mut entries = Vec::new(alloc);
    let mut number = first;
    let mut rest = text;
    while let Some((line, behind)) = split_line(rest) {
        (number, rest) = take_line(&mut entries, number, line, behind)?;
    }
    Ok(entries)
}
