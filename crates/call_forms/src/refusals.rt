//! Refusals and their answers.
ghost use Rattle.std.specs.Prelude.{◌≡◌, ◌++◌, IfOk, OnOk};
ghost use Rattle.call_forms.specs.Rules.{IsRuleNumber, rule_of, subject_part, refusal_answer};

use crate::forms::{Answer, Refusal};
use lists::Bytes;
use std::alloc::{AllocError, Global};

/// The name, the HTTP status and the gRPC code of the rule of a number, from 1 to 21.
fn rule_of(number: u8) -> (&'static str, u16, u8)
    requires { IsRuleNumber number }
    ensures name { result.0.now ≡ (rule_of number).name }
    ensures status { result.1 ≡ (rule_of number).status }
    ensures code { result.2 ≡ (rule_of number).code }
{
    match number {
        1 => ("NoMethod", 501, 12),
        2 => ("NoCaller", 401, 16),
        3 => ("NotJson", 400, 3),
        4 => ("WrongKind", 400, 3),
        5 => ("Missing", 400, 3),
        6 => ("BadValue", 400, 3),
        7 => ("RequestIdReused", 400, 9),
        8 => ("NotFound", 404, 5),
        9 => ("NoUpdateToken", 401, 16),
        10 => ("BadUpdateToken", 403, 7),
        11 => ("Denied", 403, 7),
        12 => ("NotActive", 400, 9),
        13 => ("DeadlineRange", 400, 3),
        14 => ("Itself", 400, 3),
        15 => ("TooMany", 400, 3),
        16 => ("Repeated", 400, 3),
        17 => ("SizeWrong", 400, 3),
        18 => ("HashWrong", 400, 3),
        19 => ("Taken", 409, 6),
        20 => ("TableFull", 429, 8),
        _ => ("StoreFull", 429, 8),
    }
}

/// Appends the part of a text that names what breaks the rule.
fn add_subject(text: &mut Vec<u8>, subject: &[u8]) -> Result<(), AllocError>
    ensures { OnOk result (text.new.items ≡ text.old.items ++ subject_part subject.now) }
{
    if subject.is_empty() {
        return Ok(());
    }
    text.extend_from_slice(b": ")?;
    text.extend_from_slice(subject)
}

/// The answer of a refusal. `Err` where there is no memory for its text.
pub fn write_refusal(alloc: Global, refusal: &Refusal) -> Result<Answer, AllocError>
    requires { IsRuleNumber refusal.now.rule }
    ensures { IfOk result (λ answer. answer ≡ refusal_answer refusal.now) }
{
    let rule = refusal.rule;
    let (name, status, code) = rule_of(rule);
    let mut text = format!(in alloc; "{rule} {name}")?.into_bytes();
    add_subject(&mut text, refusal.subject.as_slice())?;
    text.push(b'\n')?;
    Ok(Answer {
        status,
        code,
        token: None,
        body: Bytes::new(text),
    })
}
