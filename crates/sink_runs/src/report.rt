//! The report that is uploaded.
ghost use Rattle.std.specs.Prelude.{◌≡◌, ◌≤◌, MatchResult, length};
ghost use Rattle.sink_runs.specs.Reports.{GivesCases, IsNoCases, IsNoReport, fault_name, fault_number, junit_end};
ghost use Rattle.sink_runs.specs.Texts.{IsReadWhole};

use crate::ending::SinkEnd;
use junit_reader::JunitFault;
use names_realms::Case;
use outside::Source;
use program_words::ReportFormat;
use std::alloc::Global;
use tap_reader::TapFault;
use whole_reads::{ReadEnd, read_front};

/// The most that is read of a report: the most bytes that it may have, and three more. They tell
/// that it has more, and hold the rest of a character that begins before the limit.
const MOST_READ: usize = 67_108_867;

/// The first fault of a report.
#[derive(Clone, Copy, Debug, PartialEq, Eq)]
pub enum ReportFault {
    /// That of a report in TAP.
    Tap(TapFault),
    /// That of a report in JUnit XML.
    Junit(JunitFault),
}

impl ReportFault {
    /// The fault's number, as its reader has it.
    pub fn number(&self) -> u8
        ensures { result ≡ fault_number self.now }
    {
        match self {
            ReportFault::Tap(fault) => fault.number(),
            ReportFault::Junit(fault) => fault.number(),
        }
    }

    /// The fault's name.
    #[tactic(auto, using(crate::proofs::NameLaws::name_short))]
    pub fn name(&self) -> &'static str
        ensures name { result.now ≡ fault_name self.now }
        ensures short { length result.now ≤ 24 }
    {
        match self {
            ReportFault::Tap(fault) => fault.name(),
            ReportFault::Junit(fault) => fault.name(),
        }
    }
}

/// What was read of a report.
#[derive(Drop)]
pub(crate) struct Report {
    pub(crate) text: Vec<u8>,
    pub(crate) cases: Vec<Case>,
}

/// The cases of a report in TAP.
fn tap_cases(alloc: Global, text: &[u8]) -> Result<Vec<Case>, SinkEnd>
    ensures { MatchResult result (λ cases. GivesCases ReportFormat.Tap text.now cases.items)
        (IsNoCases ReportFormat.Tap text.now) }
{
    match tap_reader::read_report(alloc, text) {
        Ok(cases) => Ok(cases),
        Err(TapFault::Memory) => Err(SinkEnd::Memory),
        Err(fault) => Err(SinkEnd::ReportRefused(ReportFault::Tap(fault))),
    }
}

/// Why a report in JUnit XML gave no cases.
fn junit_end(fault: JunitFault) -> SinkEnd
    ensures { result ≡ junit_end fault }
{
    match fault {
        JunitFault::Memory => SinkEnd::Memory,
        JunitFault::NotText { .. }
        | JunitFault::NotWellFormed { .. }
        | JunitFault::Unsupported { .. }
        | JunitFault::NoRoot
        | JunitFault::MissingName { .. }
        | JunitFault::BadTime { .. }
        | JunitFault::TooDeep { .. } => SinkEnd::ReportRefused(ReportFault::Junit(fault)),
    }
}

/// The cases of a report in JUnit XML.
fn junit_cases(alloc: Global, text: &[u8]) -> Result<Vec<Case>, SinkEnd>
    ensures { MatchResult result (λ cases. GivesCases ReportFormat.Junit text.now cases.items)
        (IsNoCases ReportFormat.Junit text.now) }
{
    match junit_reader::read_report(alloc, text) {
        Ok(cases) => Ok(cases),
        Err(fault) => Err(junit_end(fault)),
    }
}

/// The cases of a report.
fn cases_of(alloc: Global, format: ReportFormat, text: &[u8]) -> Result<Vec<Case>, SinkEnd>
    ensures { MatchResult result (λ cases. GivesCases format text.now cases.items)
        (IsNoCases format text.now) }
{
    match format {
        ReportFormat::Tap => tap_cases(alloc, text),
        ReportFormat::Junit => junit_cases(alloc, text),
    }
}

/// Reads a report to its end, or to where it is too long in any case, and its cases.
#[tactic(auto, using(crate::proofs::ReportLaws::report_ends))]
pub(crate) fn read_report<I: Source>(
    alloc: Global,
    format: ReportFormat,
    input: &mut I,
) -> Result<Report, SinkEnd>
    ensures { MatchResult result
        (λ report. IsReadWhole (I.ends input.old) report.text.items (I.ends input.new)
        × GivesCases format report.text.items report.cases.items)
        (λ end. IsNoReport format (I.ends input.old) end (I.ends input.new)) }
{
    let text = match read_front(alloc, input, MOST_READ) {
        Ok(text) => text,
        Err(ReadEnd::Failed) => return Err(SinkEnd::InputFault),
        Err(ReadEnd::Memory) => return Err(SinkEnd::Memory),
    };
    match cases_of(alloc, format, text.as_slice()) {
        Ok(cases) => Ok(Report { text, cases }),
        Err(end) => Err(end),
    }
}
