//! The streams of a report: each line's number, the first fault, and the numbers that no point has.
ghost use Rattle.std.specs.Prelude.{◌≡◌, ◌-◌, ◌<◌, ◌≤◌, ◌^◌, if◌then◌else◌, map, fold, filter, length, drop, take, Some, None, IfOk, IfSome, IfNone, OnOk, option_map, option_to_list, false, true, is_some};
ghost use Rattle.tap_reader.specs.Entries.{line_of};
ghost use Rattle.tap_reader.specs.Streams.{earlier, fault_of, in_tree, line_named, missing_numbers, plan_of, stream_fault};
ghost use Rattle.tap_reader.specs.Completing.{at_level, closed, closed_above, completed, last_number, missing_line, missing_lines, own, put_behind, top_level, with_line};
ghost use Rattle.tap_reader.specs.Bounds.{AllBelow};
ghost use Rattle.tap_reader.specs.CompletingViews.{state_of, empty_state};

use crate::TapFault;
use crate::entries::{Entry, Says, TestPoint};
use crate::marks::{numbers_marked, push_missing};
use std::alloc::{AllocError, Global};

/// What was written of a report's lines, and the first fault so far.
#[derive(Drop)]
pub(crate) struct Streams<'a> {
    pub(crate) entries: Vec<Entry<'a>>,
    pub(crate) fault: Option<TapFault>,
}

/// The line that a fault names.
fn line_of_fault(fault: TapFault) -> usize
    ensures { result ≡ line_named fault }
{
    match fault {
        TapFault::TwoPlans { line }
        | TapFault::PlanExceeded { line }
        | TapFault::OpenDiagnostic { line }
        | TapFault::TooDeep { line }
        | TapFault::PlanTooLarge { line } => line,
        TapFault::NoVersion | TapFault::NoPlan | TapFault::NotText { .. } | TapFault::Memory => 0,
    }
}

/// The fault of the earlier line; of one line, the first.
pub(crate) fn earlier_of(first: Option<TapFault>, second: Option<TapFault>) -> Option<TapFault>
    ensures { result ≡ fold earlier first (option_to_list second) }
{
    match (first, second) {
        (Some(one), Some(other)) if line_of_fault(one) <= line_of_fault(other) => first,
        (_, None) => first,
        _ => second,
    }
}

/// Where the lines begin that are no higher than the level, up to the end.
fn run_start(entries: &[Entry], level: usize) -> usize
    ensures own { own level (map line_of entries.now)
        ≡ at_level level (map line_of (drop result entries.now)) }
    ensures within { result ≤ length entries.now }
{
    let mut start = entries.len();
    while start > 0 && entries[start - 1].level >= level {
        start -= 1;
    }
    start
}

/// The first plan at the level.
pub(crate) fn plan_at(entries: &[Entry], level: usize) -> Option<u64>
    ensures { result ≡ plan_of (at_level level (map line_of entries.now)) }
{
    for entry in entries {
        match entry.says {
            Says::Planned(count) if entry.level == level => return Some(count),
            _ => {}
        }
    }
    None
}

/// The fault of a line in a stream of this plan, in which a plan stood before it or not.
fn fault_in_stream(plan: Option<u64>, planned: bool, entry: &Entry) -> Option<TapFault>
    ensures { result
        ≡ stream_fault plan planned (line_of entry.now).number (line_of entry.now).said }
{
    let line = entry.line;
    match entry.says {
        Says::Planned(_) if planned => Some(TapFault::TwoPlans { line }),
        Says::Tested(point) => {
            let number = point.number.unwrap_or(0);
            if number == 0 || plan.is_some_and(|count| count < number) {
                Some(TapFault::PlanExceeded { line })
            } else {
                None
            }
        }
        _ => None,
    }
}

/// The first fault at the level.
fn fault_at(entries: &[Entry], level: usize, plan: Option<u64>) -> Option<TapFault>
    requires { plan ≡ plan_of (at_level level (map line_of entries.now)) }
    ensures { result ≡ fault_of (at_level level (map line_of entries.now)) }
{
    let mut planned = false;
    for entry in entries {
        if entry.level == level {
            let fault = fault_in_stream(plan, planned, entry);
            if fault.is_some() {
                return fault;
            }
            planned = planned || matches!(entry.says, Says::Planned(_));
        }
    }
    None
}

/// The level of the last line.
fn top_of(entries: &[Entry]) -> usize
    ensures { result ≡ top_level (map line_of entries.now) }
{
    entries.last().map_or(0, |entry| entry.level)
}

/// The number of the last point at the level since the last line of a lower level.
fn last_number_of(entries: &[Entry], level: usize) -> u64
    ensures { result ≡ last_number level (map line_of entries.now) }
{
    let mut end = entries.len();
    while end > 0 {
        let entry = entries[end - 1];
        if entry.level < level {
            return 0;
        }
        if entry.level == level
            && let Says::Tested(point) = entry.says
        {
            return point.number.unwrap_or(0);
        }
        end -= 1;
    }
    0
}

/// Whether a line stands in the tree: a plan or a point, not too deep.
fn is_in_tree(entry: &Entry) -> bool
    ensures { result ≡ in_tree (line_of entry.now) }
{
    entry.level <= 16 && matches!(entry.says, Says::Planned(_) | Says::Tested(_))
}

impl<'a> Streams<'a> {
    /// Closes the stream of a level: tells its fault, and writes its missing numbers where they are
    /// wanted.
    #[tactic(auto, unfolding(crate::specs::Completing::closed))]
    fn close(&mut self, alloc: Global, level: usize, fill: bool) -> Result<(), AllocError>
        ensures { OnOk result (state_of self.new ≡ closed fill level (state_of self.old)) }
    {
        let start = run_start(&self.entries, level);
        let plan = plan_at(&self.entries[start..], level);
        let fault = fault_at(&self.entries[start..], level, plan);
        self.fault = earlier_of(self.fault, fault);
        if fill && let Some(count) = plan {
            let marks = numbers_marked(alloc, &self.entries[start..], level, count)?;
            push_missing(&mut self.entries, level, &marks)?;
        }
        Ok(())
    }

    /// Closes the streams deeper than a level.
    fn close_above(&mut self, alloc: Global, level: usize, fill: bool) -> Result<(), AllocError>
        ensures { OnOk result (state_of self.new ≡ closed_above fill level (state_of self.old)) }
    {
        let mut at = top_of(&self.entries);
        while at > level {
            self.close(alloc, at, fill)?;
            at -= 1;
        }
        Ok(())
    }

    /// Writes a line, a point with its number.
    fn put(&mut self, entry: Entry<'a>) -> Result<(), AllocError>
        requires { last_number (line_of entry).level (state_of self.old).lines < 2 ^ 64 - 1 }
        ensures { OnOk result (state_of self.new
            ≡ put_behind (line_of entry.entry) (state_of self.old)) }
    {
        let says = match entry.says {
            Says::Tested(point) => {
                let number = match point.number {
                    Some(number) => number,
                    None => last_number_of(&self.entries, entry.level) + 1,
                };
                Says::Tested(TestPoint {
                    number: Some(number),
                    ..point
                })
            }
            other => other,
        };
        self.entries.push(Entry { says, ..entry })?;
        Ok(())
    }

    /// Adds a line of the report, if it stands in the tree.
    fn add(&mut self, alloc: Global, entry: &Entry<'a>, fill: bool) -> Result<(), AllocError>
        requires { AllBelow (2 ^ 64 - 1) (state_of self.old).lines }
        ensures { OnOk result (state_of self.new ≡ (if in_tree (line_of entry.now)
            then with_line fill (state_of self.old) (line_of entry.now) else state_of self.old)) }
    {
        if is_in_tree(entry) {
            self.close_above(alloc, entry.level, fill)?;
            self.put(*entry)?;
        }
        Ok(())
    }
}

/// The lines of a report's tree, completed: each point has its number, and the numbers that a
/// stream lacks stand behind it where they are wanted. And the first fault of a stream.
pub(crate) fn complete<'a>(
    alloc: Global,
    lines: &[Entry<'a>],
    fill: bool,
) -> Result<Streams<'a>, AllocError>
    requires below { AllBelow (2 ^ 40) (map line_of lines.now) }
    requires room { length lines.now < 2 ^ 63 }
    ensures { IfOk result (λ s. state_of s
        ≡ completed fill
        (fold (with_line fill) empty_state (filter in_tree (map line_of lines.now)))) }
{
    let mut streams = Streams {
        entries: Vec::new(alloc),
        fault: None,
    };
    for entry in lines {
        streams.add(alloc, entry, fill)?;
    }
    streams.close_above(alloc, 0, fill)?;
    streams.close(alloc, 0, fill)?;
    Ok(streams)
}
