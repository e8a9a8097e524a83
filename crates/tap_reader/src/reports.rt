//! A report, read from its first byte to its last.
ghost use Rattle.std.specs.Prelude.{◌≡◌, ◌≢◌, ◌||◌, is_some, ◌+◌, ◌==◌, ◌<◌, ◌≤◌, ◌^◌, map, length, Some, None, Ok, Err, IfOk, IfErr, IsErrAnd, MatchOption, IfSome, IfNone, OnOk, IsTrue, option_map};
ghost use Rattle.std.specs.List.{list_all, list_any};
ghost use Rattle.tap_reader.specs.Lines.{lines};
ghost use Rattle.tap_reader.specs.Counted.{counted};
ghost use Rattle.tap_reader.specs.Bounds.{AllBelow};
ghost use Rattle.tap_reader.specs.Entries.{line_of};
ghost use Rattle.tap_reader.specs.Streams.{first_alone, is_bail, line_fault, plan_of};
ghost use Rattle.tap_reader.specs.Completing.{at_level};
ghost use Rattle.tap_reader.specs.Cases.{names_len};
ghost use Rattle.tap_reader.specs.Naming.{named};
ghost use Rattle.tap_reader.specs.Reports.{HasLongNames, Reads, ReadsLines, after_version, begins_version, counted_in, is_blank, is_version, text_fault};

use crate::TapFault;
use crate::cases::name_cases;
use crate::completing::{complete, earlier_of, plan_at};
use crate::entries::{Entry, Says};
use crate::lengths::do_names_fit;
use crate::lines::split_line;
use crate::reading::read_lines;
use name_parts::utf8_len;
use names_realms::Case;
use std::alloc::Global;

/// How many bytes a report has at most.
const MOST: usize = 67_108_864;

/// How many points the plans of a report are for at most.
const MOST_PLANNED: u64 = 1_000_000;

/// How deep a line stands at most.
const DEEPEST: usize = 16;

/// The first place that is no text.
fn find_no_text(bytes: &[u8]) -> Option<usize>
    ensures place { result ≡ text_fault bytes.now }
    ensures small { IfNone result (length bytes.now < 2 ^ 32) }
{
    let good = utf8_len(bytes);
    if good == bytes.len() && good <= MOST {
        return None;
    }
    Some(good.min(MOST))
}

/// Whether a line has nothing but spaces and tabs.
fn is_blank_line(line: &[u8]) -> bool
    ensures { result ≡ is_blank line.now }
{
    line.iter().all(|byte| *byte == b' ' || *byte == b'\t')
}

/// Whether a line begins with a version that is read.
#[tactic(auto, unfolding(crate::specs::Reports::begins_version))]
fn begins_with_version(line: &[u8]) -> bool
    ensures value { result ≡ begins_version line.now }
    ensures long { IsTrue result → 14 ≤ length line.now }
{
    line.starts_with(b"TAP version 14") || line.starts_with(b"TAP version 13")
}

/// Whether a text has nothing but spaces.
fn is_spaces(text: &[u8]) -> bool
    ensures { result ≡ list_all (λ b. b == 32) text.now }
{
    text.iter().all(|byte| *byte == b' ')
}

/// Whether a line says the version.
fn is_version_line(line: &[u8]) -> bool
    ensures { result ≡ is_version line.now }
{
    begins_with_version(line) && is_spaces(&line[14..])
}

/// The text behind the version line, and the number of its first line.
fn skip_version(text: &[u8]) -> Option<(usize, &[u8])>
    requires { length text.now < 2 ^ 32 }
    ensures found { option_map (λ p. (p.0, lines p.1.now)) result
        ≡ after_version 1 (lines text.now) }
    ensures within { IfSome result (λ p. p.0 + length p.1.now ≤ 1 + length text.now) }
{
    let mut rest = text;
    let mut number = 1;
    while let Some((line, behind)) = split_line(rest) {
        if !is_blank_line(line) {
            return is_version_line(line).then_some((number + 1, behind));
        }
        number += 1;
        rest = behind;
    }
    None
}

/// The text behind the version line of a report, and the number of its first line.
fn open_report(bytes: &[u8]) -> Result<(usize, &[u8]), TapFault>
    ensures text { IfOk result (λ p. text_fault bytes.now ≡ None) }
    ensures lines { IfOk result (λ p. counted_in bytes.now
        ≡ Some (counted p.0 0 (lines p.1.now))) }
    ensures within { IfOk result (λ p. p.0 + length p.1.now < 2 ^ 33) }
    ensures err { IfErr result (λ f. Reads bytes.now (Err f)) }
{
    if let Some(at) = find_no_text(bytes) {
        return Err(TapFault::NotText { at });
    }
    skip_version(bytes).ok_or(TapFault::NoVersion)
}

/// The fault of a line by itself, before which the plans have this sum.
fn fault_alone(sum: u64, entry: &Entry) -> Option<TapFault>
    requires { sum ≤ 1000000 }
    ensures { result ≡ line_fault sum (line_of entry.now) }
{
    let line = entry.line;
    if entry.level > DEEPEST {
        return Some(TapFault::TooDeep { line });
    }
    match entry.says {
        Says::Planned(count) if count > MOST_PLANNED - sum => Some(TapFault::PlanTooLarge { line }),
        Says::Opened => Some(TapFault::OpenDiagnostic { line }),
        _ => None,
    }
}

/// The fault of the first line that has one by itself.
fn find_alone(entries: &[Entry]) -> Option<TapFault>
    ensures { result ≡ first_alone 0 (map line_of entries.now) }
{
    let mut sum: u64 = 0;
    for entry in entries {
        let fault = fault_alone(sum, entry);
        if fault.is_some() {
            return fault;
        }
        if let Says::Planned(count) = entry.says {
            sum += count;
        }
    }
    None
}

/// Whether the run was given up.
fn has_bail(entries: &[Entry]) -> bool
    ensures { result ≡ list_any (λ e. is_bail (line_of e).said) entries.now }
{
    entries
        .iter()
        .any(|entry| matches!(entry.says, Says::GivenUp))
}

/// Whether the top stream has a plan, or the run was given up.
#[tactic(auto, using(crate::proofs::OutcomeLemmas::any_line))]
fn has_end(entries: &[Entry], completed: &[Entry]) -> bool
    ensures { result ≡ (is_some (plan_of (at_level 0 (map line_of completed.now)))
        || list_any (λ l. is_bail l.said) (map line_of entries.now)) }
{
    plan_at(completed, 0).is_some() || has_bail(entries)
}

/// The lines of a report's tree, completed, of a report that has cases.
fn complete_report<'a>(alloc: Global, entries: &[Entry<'a>]) -> Result<Vec<Entry<'a>>, TapFault>
    requires below { AllBelow (2 ^ 40) (map line_of entries.now) }
    requires room { length entries.now < 2 ^ 63 }
    ensures ok { IfOk result (λ written. ReadsLines (Some (map line_of entries.now))
        (Ok (named (map line_of written.items)))) }
    ensures err { IfErr result (λ f. f ≢ TapFault.Memory
        → ReadsLines (Some (map line_of entries.now)) (Err f)) }
{
    let alone = find_alone(entries);
    let streams = complete(alloc, entries, alone.is_none())?;
    if let Some(fault) = earlier_of(streams.fault, alone) {
        return Err(fault);
    }
    if !has_end(entries, &streams.entries) {
        return Err(TapFault::NoPlan);
    }
    Ok(streams.entries)
}

/// The completed lines of a report that has cases. Those that were read are let go before the cases
/// are named, which takes as much room again.
fn read_written<'a>(alloc: Global, bytes: &'a [u8]) -> Result<Vec<Entry<'a>>, TapFault>
    ensures ok { IfOk result (λ written. Reads bytes.now (Ok (named (map line_of written.items)))) }
    ensures err { IfErr result (λ f. f ≢ TapFault.Memory → Reads bytes.now (Err f)) }
{
    let (first, text) = open_report(bytes)?;
    let entries = read_lines(alloc, first, text)?;
    complete_report(alloc, &entries)
}

/// Reads a report in TAP 14: its cases in the order of its points, those of a subtest before its
/// point's, each under the names of its parents; or its first fault. `Memory` where there is no
/// memory for the cases, and where their names have more than 512 MiB together, before any is made.
pub fn read_report(alloc: Global, bytes: &[u8]) -> Result<Vec<Case>, TapFault>
    ensures ok { IfOk result (λ cases. Reads bytes.now (Ok cases.items)) }
    ensures names { IfOk result (λ cases. names_len cases.items ≤ 536870912) }
    ensures long { HasLongNames bytes.now → IsErrAnd result (λ f. f ≡ TapFault.Memory) }
    ensures err { IfErr result (λ f. f ≢ TapFault.Memory → Reads bytes.now (Err f)) }
{
    let written = read_written(alloc, bytes)?;
    if !do_names_fit(alloc, &written)? {
        return Err(TapFault::Memory);
    }
    Ok(name_cases(alloc, &written)?)
}
