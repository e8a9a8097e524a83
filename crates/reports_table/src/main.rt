//! A program that reads test reports from its input and prints their cases, or their faults: for
//! examples, for trials and for measuring.
//!
//! The words are `tap` or `junit`, and `list` or `count`: the input is one report. `list` prints a
//! line for each case, with its status, whether that was expected, its duration or `-`, and its
//! name; and the lines of its message behind it, each behind two blanks. `count` prints how many
//! there are. By the words `table` and `list` the input is reports between lines `----`, of the
//! form that the last line `==== tap` or `==== junit` says; each is listed, with a line `----`
//! behind it.
#![tactic(auto)]

use junit_reader::{JunitFault, Unsupported};
use names_realms::{Case, Status};
use outside::StdIn;
use standard_files::{DevNull, hold_standard};
use std::alloc::{AllocError, Global};
use std::env;
use std::io::{self, Write};
use std::process::ExitCode;
use tap_reader::TapFault;
use whole_reads::read_front;

/// How much of a report is read: the most bytes that it may have, and three more. They tell that it
/// has more, and hold the rest of a character that begins before the limit.
const FRONT: usize = 67_108_867;

/// What a report gave: its cases, or its fault.
type Read = Result<Vec<Case>, Fault>;

/// The number and the name of a fault, the line or the place that it tells, and what isn't read.
#[derive(Clone, Copy, Debug)]
struct Fault {
    number: u8,
    name: &'static str,
    place: Option<usize>,
    what: &'static str,
}

/// A form of reports.
#[derive(Clone, Copy, Debug, PartialEq, Eq)]
enum Form {
    Tap,
    Junit,
}

/// The line or the place that a fault of TAP tells.
fn tap_place(fault: TapFault) -> Option<usize> {
    match fault {
        TapFault::TwoPlans { line }
        | TapFault::PlanExceeded { line }
        | TapFault::OpenDiagnostic { line }
        | TapFault::TooDeep { line }
        | TapFault::PlanTooLarge { line } => Some(line),
        TapFault::NotText { at } => Some(at),
        TapFault::NoVersion | TapFault::NoPlan | TapFault::Memory => None,
    }
}

/// The place that a fault of JUnit tells.
fn junit_place(fault: JunitFault) -> Option<usize> {
    match fault {
        JunitFault::NotText { at }
        | JunitFault::NotWellFormed { at }
        | JunitFault::Unsupported { at, .. }
        | JunitFault::MissingName { at }
        | JunitFault::BadTime { at }
        | JunitFault::TooDeep { at } => Some(at),
        JunitFault::NoRoot | JunitFault::Memory => None,
    }
}

/// What of XML isn't read, behind a blank.
fn unsupported_text(fault: JunitFault) -> &'static str {
    match fault {
        JunitFault::Unsupported { what, .. } => match what {
            Unsupported::Doctype => " Doctype",
            Unsupported::Instruction => " Instruction",
            Unsupported::Entity => " Entity",
        },
        _ => "",
    }
}

fn read_tap(alloc: Global, report: &[u8]) -> Result<Read, AllocError> {
    match tap_reader::read_report(alloc, report) {
        Ok(cases) => Ok(Ok(cases)),
        Err(TapFault::Memory) => Err(AllocError),
        Err(fault) => Ok(Err(Fault {
            number: fault.number(),
            name: fault.name(),
            place: tap_place(fault),
            what: "",
        })),
    }
}

fn read_junit(alloc: Global, report: &[u8]) -> Result<Read, AllocError> {
    match junit_reader::read_report(alloc, report) {
        Ok(cases) => Ok(Ok(cases)),
        Err(JunitFault::Memory) => Err(AllocError),
        Err(fault) => Ok(Err(Fault {
            number: fault.number(),
            name: fault.name(),
            place: junit_place(fault),
            what: unsupported_text(fault),
        })),
    }
}

fn read(alloc: Global, form: Form, report: &[u8]) -> Result<Read, AllocError> {
    match form {
        Form::Tap => read_tap(alloc, report),
        Form::Junit => read_junit(alloc, report),
    }
}

fn status_text(status: Status) -> &'static str {
    match status {
        Status::Pass => "PASS",
        Status::Fail => "FAIL",
        Status::Crash => "CRASH",
        Status::Abort => "ABORT",
        Status::Skip => "SKIP",
    }
}

/// Puts a case and the lines of its message behind what is there.
fn put_case(alloc: Global, case: &Case, out: &mut Vec<u8>) -> Result<(), AllocError> {
    out.extend_from_slice(status_text(case.status).as_bytes())?;
    out.extend_from_slice(if case.expected {
        b" expected ".as_slice()
    } else {
        b" unexpected ".as_slice()
    })?;
    match &case.duration {
        Some(span) => span.write_to(alloc, out)?,
        None => out.extend_from_slice(b"-")?,
    }
    out.extend_from_slice(b" ")?;
    out.extend_from_slice(case.name.as_slice())?;
    out.extend_from_slice(b"\n")?;
    put_message(case.message.as_slice(), out)
}

fn put_message(message: &[u8], out: &mut Vec<u8>) -> Result<(), AllocError> {
    if message.is_empty() {
        return Ok(());
    }
    for line in message.split(|byte| *byte == b'\n') {
        out.extend_from_slice(b"  ")?;
        out.extend_from_slice(line)?;
        out.extend_from_slice(b"\n")?;
    }
    Ok(())
}

/// What is printed of a report.
fn report_text(alloc: Global, read: &Read, is_list: bool) -> Result<Vec<u8>, AllocError> {
    match read {
        Ok(cases) if is_list => {
            let mut out = Vec::new(alloc);
            for case in cases {
                put_case(alloc, case, &mut out)?;
            }
            Ok(out)
        }
        Ok(cases) => {
            let count = cases.len();
            Ok(format!(in alloc; "{count} cases\n")?.into_bytes())
        }
        Err(fault) => Ok(fault_text(alloc, *fault)?.into_bytes()),
    }
}

fn fault_text(alloc: Global, fault: Fault) -> Result<String, AllocError> {
    let number = fault.number;
    let name = fault.name;
    let what = fault.what;
    match fault.place {
        Some(place) => format!(in alloc; "fault {number} {name} {place}{what}\n"),
        None => format!(in alloc; "fault {number} {name}{what}\n"),
    }
}

/// Puts what a report of a table gives behind what is there. The LF behind it is no part of it.
fn put_row(
    alloc: Global,
    form: Form,
    report: &mut Vec<u8>,
    out: &mut Vec<u8>,
) -> Result<(), AllocError> {
    let _ = report.pop();
    let read = read(alloc, form, report)?;
    out.extend_from_slice(&report_text(alloc, &read, true)?)?;
    report.clear();
    out.extend_from_slice(b"----\n")
}

/// The form that a line of a table says, if it is such a line.
fn said_form(line: &[u8]) -> Option<Form> {
    if line == b"==== tap".as_slice() {
        return Some(Form::Tap);
    }
    if line == b"==== junit".as_slice() {
        Some(Form::Junit)
    } else {
        None
    }
}

/// What is printed of a table.
fn table_text(alloc: Global, input: &[u8]) -> Result<Vec<u8>, AllocError> {
    let mut out = Vec::new(alloc);
    let mut form = Form::Tap;
    let mut report: Vec<u8> = Vec::new(alloc);
    for line in input.split(|byte| *byte == b'\n') {
        if let Some(said) = said_form(line) {
            form = said;
        } else if line == b"----".as_slice() {
            put_row(alloc, form, &mut report, &mut out)?;
        } else {
            report.extend_from_slice(line)?;
            report.push(b'\n')?;
        }
    }
    put_row(alloc, form, &mut report, &mut out)?;
    Ok(out)
}

/// What is printed of an input, by the two words; none where they aren't among those above.
fn answer(
    alloc: Global,
    input: &[u8],
    form: &str,
    what: &str,
) -> Result<Option<Vec<u8>>, AllocError> {
    let form = match form {
        "table" => return Ok(Some(table_text(alloc, input)?)),
        "tap" => Form::Tap,
        "junit" => Form::Junit,
        _ => return Ok(None),
    };
    let read = read(alloc, form, input)?;
    Ok(Some(report_text(alloc, &read, what == "list")?))
}

fn main(rt: HostRuntime) -> io::Result<ExitCode> {
    let Ok(_held) = hold_standard(&mut DevNull::new(&rt)) else {
        return Ok(ExitCode::from(4));
    };
    let alloc = rt.alloc();
    let words: Vec<String> = env::args(&rt)?.collect(alloc)?;
    let (Some(form), Some(what)) = (words.get(1), words.get(2)) else {
        return Ok(ExitCode::from(1));
    };
    let Ok(report) = read_front(alloc, &mut StdIn::new(rt.stdin()), FRONT) else {
        return Ok(ExitCode::from(2));
    };
    let Some(text) = answer(alloc, report.as_slice(), form.as_str(), what.as_str())? else {
        return Ok(ExitCode::from(1));
    };
    rt.stdout().write_all(text.as_slice())?;
    Ok(ExitCode::from(0))
}
