//! Reads configurations from the input, and prints what becomes of each, and who may do what by it.
//! For trials alone.
//!
//! A line `----` parts two configurations. Comments of one that is read may ask (`asks`).
#![tactic(auto)]

mod asks;

use asks::tell_asks;
use outside::StdIn;
use permissions::PolicyFault;
use policy_reading::from_toml;
use standard_files::{DevNull, hold_standard};
use std::alloc::{AllocError, Global};
use std::io::Write;
use std::process::ExitCode;
use whole_reads::read_front;

/// One byte more than a configuration may have.
const MOST_BYTES: usize = 4_194_305;

/// What a fault names.
fn subject_of(fault: &PolicyFault) -> &[u8] {
    match fault {
        PolicyFault::BadName { at } | PolicyFault::BadShape { at } => at.as_slice(),
        PolicyFault::UnknownRole { name }
        | PolicyFault::UnknownRealm { name }
        | PolicyFault::UnknownPrincipal { name }
        | PolicyFault::RealmCycle { name } => name.as_slice(),
        PolicyFault::TwoOwners { token } => token.as_slice(),
        PolicyFault::NotToml | PolicyFault::TooMany { .. } | PolicyFault::Memory => b"",
    }
}

/// The fault's number and name, and what it names or counts.
fn tell_fault(alloc: Global, fault: &PolicyFault, out: &mut Vec<u8>) -> Result<(), AllocError> {
    let number = fault.number();
    let name = fault.name();
    let line = format!(in alloc; "{number} {name}")?;
    out.extend_from_slice(line.as_bytes())?;
    let subject = subject_of(fault);
    if !subject.is_empty() {
        out.extend_from_slice(b" ")?;
        out.extend_from_slice(subject)?;
    }
    if let PolicyFault::TooMany { count } = fault {
        let text = format!(in alloc; " {count}")?;
        out.extend_from_slice(text.as_bytes())?;
    }
    out.extend_from_slice(b"\n")
}

/// What becomes of a configuration.
fn tell(alloc: Global, text: &str, out: &mut Vec<u8>) -> Result<(), AllocError> {
    match from_toml(alloc, text.as_bytes()) {
        Ok(policy) => {
            out.extend_from_slice(b"read\n")?;
            tell_asks(alloc, &policy, text, out)
        }
        Err(fault) => tell_fault(alloc, &fault, out),
    }
}

/// What becomes of each configuration of an input. Bytes that are no text are one, which isn't
/// TOML.
fn report(alloc: Global, input: &[u8]) -> Result<Vec<u8>, AllocError> {
    let mut out = Vec::new(alloc);
    match std::str::from_utf8(input) {
        Ok(text) => {
            for part in text.split("----\n") {
                tell(alloc, part, &mut out)?;
            }
        }
        Err(_) => tell_fault(alloc, &PolicyFault::NotToml, &mut out)?,
    }
    Ok(out)
}

fn main(rt: HostRuntime) -> ExitCode {
    let Ok(_held) = hold_standard(&mut DevNull::new(&rt)) else {
        return ExitCode::from(4);
    };
    let Ok(text) = read_front(rt.alloc(), &mut StdIn::new(rt.stdin()), MOST_BYTES) else {
        return ExitCode::from(2);
    };
    let Ok(answer) = report(rt.alloc(), text.as_slice()) else {
        return ExitCode::from(1);
    };
    match rt.stdout().write_all(answer.as_slice()) {
        Ok(()) => ExitCode::from(0),
        Err(_) => ExitCode::from(1),
    }
}
