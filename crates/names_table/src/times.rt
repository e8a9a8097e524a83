//! Moments and spans.
use crate::notation::undone;
use crate::words::{Stop, Told, put_bar, two, value, word};
use moments_spans::{Moment, Span, is_of_years};
use std::alloc::Global;
use std::cmp::Ordering;

/// A text that was written, and its microseconds.
fn with_micros(alloc: Global, written: &[u8], micros: &str) -> Told {
    let mut out = value(alloc, written)?;
    put_bar(&mut out)?;
    out.extend_from_slice(micros.as_bytes())?;
    Ok(out)
}

/// A text: the moment's one text, and its microseconds since 1970.
pub(crate) fn moment(alloc: Global, subject: &str) -> Told {
    let text = undone(alloc, subject)?;
    let moment = Moment::parse(alloc, text.as_slice())?;
    let mut written = Vec::new(alloc);
    moment.write_to(alloc, &mut written)?;
    let micros = moment.micros();
    let micros = format!(in alloc; "{micros}")?;
    with_micros(alloc, written.as_slice(), micros.as_str())
}

/// Microseconds since 1970: the text of their moment, if the years 1 to 9999 have it.
pub(crate) fn moment_of(alloc: Global, subject: &str) -> Told {
    let micros: i64 = subject.parse().ok().ok_or(Stop::Odd("no number"))?;
    if !is_of_years(micros) {
        return word(alloc, "no moment");
    }
    let text = Moment::new(micros).to_text(alloc)?;
    word(alloc, text.as_str())
}

/// A text: the span's one text, and its microseconds.
pub(crate) fn span(alloc: Global, subject: &str) -> Told {
    let text = undone(alloc, subject)?;
    let span = Span::parse(alloc, text.as_slice())?;
    let mut written = Vec::new(alloc);
    span.write_to(alloc, &mut written)?;
    let micros = span.micros();
    let micros = format!(in alloc; "{micros}")?;
    with_micros(alloc, written.as_slice(), micros.as_str())
}

/// Microseconds: the text of their span, if they are one.
pub(crate) fn span_of(alloc: Global, subject: &str) -> Told {
    let micros: u64 = subject.parse().ok().ok_or(Stop::Odd("no number"))?;
    let Some(span) = Span::from_micros(micros) else {
        return word(alloc, "no span");
    };
    let text = span.to_text(alloc)?;
    word(alloc, text.as_str())
}

/// How two values lie to one another.
fn told_order(alloc: Global, order: Ordering) -> Told {
    match order {
        Ordering::Less => word(alloc, "less"),
        Ordering::Equal => word(alloc, "equal"),
        Ordering::Greater => word(alloc, "greater"),
    }
}

/// Two texts: whether the first moment is before the second.
pub(crate) fn moment_order(alloc: Global, subject: &str) -> Told {
    let (left, right) = two(subject)?;
    let left = undone(alloc, left)?;
    let right = undone(alloc, right)?;
    let left = Moment::parse(alloc, left.as_slice())?;
    let right = Moment::parse(alloc, right.as_slice())?;
    told_order(alloc, left.cmp(&right))
}

/// Two texts: whether the first span is shorter than the second.
pub(crate) fn span_order(alloc: Global, subject: &str) -> Told {
    let (left, right) = two(subject)?;
    let left = undone(alloc, left)?;
    let right = undone(alloc, right)?;
    let left = Span::parse(alloc, left.as_slice())?;
    let right = Span::parse(alloc, right.as_slice())?;
    told_order(alloc, left.cmp(&right))
}
