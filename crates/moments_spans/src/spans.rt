//! Spans of time, and their one text.
ghost use Rattle.std.specs.Prelude.{string_bytes, ◌≡◌, ◌≤◌, ◌<◌, ◌++◌, ◌↔◌, None, Ok, Err, IfOk, IfErr, IfSome, OnOk};
ghost use Rattle.std.specs.Prelude.{OnErr};
ghost use Rattle.moments_spans.specs.MomentReading.{seen};
ghost use Rattle.moments_spans.specs.SpanGrammar.{IsSpanFault, IsSpanText};
ghost use Rattle.moments_spans.specs.Spans.{most_span, span_text};
ghost use Rattle.moments_spans.specs.SpanReading.{seconds_from, span_from, span_judged, span_of, whole_from};

use crate::moment_reading::{byte, decimals};
use crate::moments::push_decimals;
use name_parts::{NameFault, append};
use std::alloc::{AllocError, Global};
use std::marker::Model;

/// A span of time of at most 315,576,000,000 seconds, in microseconds.
#[derive(Clone, Copy, Debug, PartialEq, Eq, PartialOrd, Ord)]
pub struct Span {
    micros: u64,
}

impl Model for Span {
    ghost use Rattle.std.specs.Prelude.{◌≤◌, ℕ};
    ghost use Rattle.moments_spans.specs.Spans.{most_span};

    ghost Value = { ℕ };

    ghost view = { λ s. s.micros };

    ghost invariant = { λ s. s.micros ≤ most_span };

    ghost inverse = { λ n. record { micros = n } };
}

/// Reads up to twelve digits.
fn whole(text: &[u8]) -> (u64, &[u8])
    ensures value { (result.0, result.1.now) ≡ whole_from 12 0 text.now }
    ensures bound { result.0 < 1_000_000_000_000 }
{
    let mut rest = text;
    let mut number: u64 = 0;
    for place in 0..12u32 {
        let Some((first, behind)) = rest.split_first() else {
            return (number, rest);
        };
        if !first.is_ascii_digit() {
            return (number, rest);
        }
        number = 10 * number + (*first - b'0') as u64;
        rest = behind;
    }
    (number, rest)
}

/// Reads at least one digit, and up to twelve.
#[tactic(auto, unfolding(crate::specs::SpanReading::seconds_from))]
fn seconds(text: &[u8]) -> Result<(u64, &[u8]), usize>
    ensures value { seen result ≡ seconds_from text.now }
    ensures bound { IfOk result (λ r. r.0 < 1_000_000_000_000) }
{
    match text.split_first() {
        Some((first, _)) => if first.is_ascii_digit() {
            Ok(whole(text))
        } else {
            Err(text.len())
        },
        None => Err(0),
    }
}

/// Reads a span, all of the text, in microseconds.
#[tactic(auto, unfolding(crate::specs::SpanReading::span_from))]
fn span_micros(text: &[u8]) -> Result<u64, usize>
    ensures { result ≡ span_from text.now }
{
    let (seconds, rest) = seconds(text)?;
    let (decimals, rest) = decimals(rest)?;
    let rest = byte(rest, b's')?;
    if !rest.is_empty() {
        return Err(rest.len());
    }
    Ok(seconds * 1_000_000 + decimals as u64)
}

/// What is read of a text of this length, where the reader gives this.
#[tactic(auto, unfolding(crate::specs::SpanReading::span_judged))]
fn judged(len: usize, read: Result<u64, usize>) -> Result<Span, NameFault>
    ensures ok { IfOk result (λ s. span_judged len read ≡ Ok s) }
    ensures fault { IfErr result (λ f. span_judged len read ≡ Err f) }
{
    match read {
        Ok(micros) => match Span::from_micros(micros) {
            Some(span) => Ok(span),
            None => Err(NameFault::OutOfRange),
        },
        Err(left) => Err(NameFault::BadByte {
            at: len.saturating_sub(left),
        }),
    }
}

/// Appends a span.
#[tactic(auto, unfolding(crate::specs::Spans::span_text))]
fn push_span(alloc: Global, out: &mut String, micros: u64) -> Result<(), AllocError>
    ensures { OnOk result (string_bytes out.new ≡ string_bytes out.old ++ span_text micros) }
{
    let seconds = micros / 1_000_000;
    let text = format!(in alloc; "{seconds}")?;
    out.push_str(text.as_str())?;
    push_decimals(out, (micros % 1_000_000) as u32)?;
    out.push('s')
}

/// Reads a span from left to right.
fn read(text: &[u8]) -> Result<Span, NameFault>
    ensures ok { IfOk result (λ s. span_of text.now ≡ Ok s) }
    ensures fault { IfErr result (λ f. span_of text.now ≡ Err f) }
{
    if text.is_empty() {
        return Err(NameFault::Empty);
    }
    judged(text.len(), span_micros(text))
}

impl Span {
    /// The span of so many microseconds; none where they are more than 315,576,000,000 seconds.
    pub fn from_micros(micros: u64) -> Option<Span>
        ensures some { IfSome result (λ s. s ≡ micros) }
        ensures none { (result ≡ None) ↔ (most_span < micros) }
    {
        if micros <= 315_576_000_000_000_000 {
            Some(Span { micros })
        } else {
            None
        }
    }

    /// The microseconds.
    pub fn micros(&self) -> u64
        ensures value { result ≡ self.now }
        ensures range { self.now ≤ most_span }
    {
        self.micros
    }

    /// Reads a span, all of the text: 1 to 12 digits, where there are decimals a point and one to
    /// nine digits, and `s`. What decimals say below a microsecond is dropped. `OutOfRange` where
    /// it is more than 315,576,000,000 seconds. Takes no memory, and so never answers `Memory`.
    pub fn parse(alloc: Global, text: &[u8]) -> Result<Span, NameFault>
        ensures said { IfOk result (λ s. IsSpanText text.now s) }
        ensures wrong { IfErr result (IsSpanFault text.now) }
    {
        let _ = alloc;
        read(text)
    }

    /// The text of the span, as `write_to` appends it.
    pub fn to_text(&self, alloc: Global) -> Result<String, AllocError>
        ensures range { self.now ≤ most_span }
        ensures text { IfOk result (λ text. string_bytes text ≡ span_text self.now) }
    {
        let mut text = String::new(alloc);
        push_span(alloc, &mut text, self.micros)?;
        Ok(text)
    }

    /// Appends the span in seconds with the fewest of 0, 3 or 6 decimals that are exact, and `s`:
    /// all of it or nothing.
    pub fn write_to(&self, alloc: Global, out: &mut Vec<u8>) -> Result<(), AllocError>
        ensures said { IsSpanText (span_text self.now) self.now }
        ensures ok { OnOk result (out.new.items ≡ out.old.items ++ span_text self.now) }
        ensures err { OnErr result (out.new.items ≡ out.old.items) }
    {
        let text = self.to_text(alloc)?;
        append(out, text.as_bytes())
    }
}
