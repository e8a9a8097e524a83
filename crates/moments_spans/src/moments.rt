//! Moments, and their one text.
ghost use Rattle.std.specs.Prelude.{◌≡◌, ◌++◌, ◌≤◌, ◌<◌, ◌+◌, ◌↔◌, ◌∷◌, [], IfOk, IfErr, OnOk, OnErr, Ok, Err, IsTrue};
ghost use Rattle.std.specs.Prelude.{string_bytes, pos, neg_ℤ, unsigned_abs};
ghost use Rattle.std.specs.Int.{IsInRange, int_div_euclid, int_rem_euclid};
ghost use Rattle.jiff.specs.Words.{IsBetween};
ghost use Rattle.moments_spans.specs.MomentReading.{is_in_years, moment_judged, moment_of};
ghost use Rattle.moments_spans.specs.MomentGrammar.{IsMomentFault, IsMomentText};
ghost use Rattle.moments_spans.specs.Moments.{IsInYears, clock_text, date_text, decimals, four_digits, moment_text};
ghost use Rattle.moments_spans.specs.Moments.{text_of_day_and_clock, three_digits, two_digits};

use crate::civil::{CivilDate, date_of};
use crate::moment_reading::moment;
use name_parts::{NameFault, append};
use std::alloc::{AllocError, Global};
use std::marker::Model;

/// How many bytes the longest text of a moment has: one with six decimals.
const LONGEST: usize = 27;

/// A moment of a year from 1 to 9999, in microseconds since 1970-01-01T00:00:00Z.
#[derive(Clone, Copy, Debug, PartialEq, Eq, PartialOrd, Ord)]
pub struct Moment {
    micros: i64,
}

impl Model for Moment {
    ghost use Rattle.std.specs.Prelude.{ℤ};
    ghost use Rattle.moments_spans.specs.Moments.{IsInYears};

    ghost Value = { ℤ };

    ghost view = { λ m. m.micros };

    ghost invariant = { λ m. IsInYears m.micros };

    ghost inverse = { λ z. record { micros = z } };
}

/// The day number of a moment, and the microseconds since the midnight before it.
fn parted(micros: i64) -> (i32, u64)
    requires { IsInYears micros }
    ensures day { result.0 ≡ int_div_euclid micros (pos 86_400_000_000) }
    ensures days { IsBetween (neg_ℤ (pos 719_162)) (pos 2_932_896) result.0 }
    ensures clock { result.1 ≡ unsigned_abs (int_rem_euclid micros (pos 86_400_000_000)) }
    ensures clocks { result.1 < 86_400_000_000 }
{
    let day = micros.div_euclid(86_400_000_000);
    let clock = micros.rem_euclid(86_400_000_000);
    (day as i32, clock as u64)
}

/// Appends the digit of a number below ten.
fn push_digit(out: &mut String, n: u32) -> Result<(), AllocError>
    requires { n ≤ 9 }
    ensures { OnOk result (string_bytes out.new ≡ string_bytes out.old ++ (48 + n) ∷ []) }
{
    out.push(char::from(b'0' + n as u8))
}

/// Appends two digits.
fn push_two(out: &mut String, n: u32) -> Result<(), AllocError>
    requires { n ≤ 99 }
    ensures { OnOk result (string_bytes out.new ≡ string_bytes out.old ++ two_digits n) }
{
    push_digit(out, n / 10)?;
    push_digit(out, n % 10)
}

/// Appends three digits.
fn push_three(out: &mut String, n: u32) -> Result<(), AllocError>
    requires { n ≤ 999 }
    ensures { OnOk result (string_bytes out.new ≡ string_bytes out.old ++ three_digits n) }
{
    push_digit(out, n / 100)?;
    push_two(out, n % 100)
}

/// Appends four digits.
fn push_four(out: &mut String, n: u32) -> Result<(), AllocError>
    requires { n ≤ 9999 }
    ensures { OnOk result (string_bytes out.new ≡ string_bytes out.old ++ four_digits n) }
{
    push_two(out, n / 100)?;
    push_two(out, n % 100)
}

/// Appends the decimals of so many microseconds: none, three or six, the fewest that are exact.
pub(crate) fn push_decimals(out: &mut String, micros: u32) -> Result<(), AllocError>
    requires { micros < 1_000_000 }
    ensures { OnOk result (string_bytes out.new ≡ string_bytes out.old ++ decimals micros) }
{
    if micros == 0 {
        return Ok(());
    }
    out.push('.')?;
    push_three(out, micros / 1000)?;
    if micros % 1000 == 0 {
        return Ok(());
    }
    push_three(out, micros % 1000)
}

/// Appends a date.
fn push_date(out: &mut String, date: CivilDate) -> Result<(), AllocError>
    requires year { date.year ≤ 9999 }
    requires month { date.month ≤ 99 }
    requires day { date.day ≤ 99 }
    ensures { OnOk result (string_bytes out.new ≡ string_bytes out.old ++ date_text date) }
{
    push_four(out, date.year as u32)?;
    out.push('-')?;
    push_two(out, date.month as u32)?;
    out.push('-')?;
    push_two(out, date.day as u32)
}

/// Appends a time of day, of so many microseconds since midnight.
fn push_clock(out: &mut String, micros: u64) -> Result<(), AllocError>
    requires { micros < 86_400_000_000 }
    ensures { OnOk result (string_bytes out.new ≡ string_bytes out.old ++ clock_text micros) }
{
    push_two(out, (micros / 3_600_000_000) as u32)?;
    out.push(':')?;
    push_two(out, (micros / 60_000_000 % 60) as u32)?;
    out.push(':')?;
    push_two(out, (micros / 1_000_000 % 60) as u32)?;
    push_decimals(out, (micros % 1_000_000) as u32)
}

/// Appends a day and a time of day in UTC.
#[tactic(auto, unfolding(crate::specs::Moments::text_of_day_and_clock))]
fn push_day_and_clock(out: &mut String, day: i32, clock: u64) -> Result<(), AllocError>
    requires day { IsBetween (neg_ℤ (pos 719_162)) (pos 2_932_896) day }
    requires clock { clock < 86_400_000_000 }
    ensures { OnOk result
        (string_bytes out.new ≡ string_bytes out.old ++ text_of_day_and_clock day clock) }
{
    push_date(out, date_of(day))?;
    out.push('T')?;
    push_clock(out, clock)?;
    out.push('Z')?;
    Ok(())
}

/// Appends a moment.
fn push_moment(out: &mut String, micros: i64) -> Result<(), AllocError>
    requires { IsInYears micros }
    ensures { OnOk result (string_bytes out.new ≡ string_bytes out.old ++ moment_text micros) }
{
    let (day, clock) = parted(micros);
    push_day_and_clock(out, day, clock)
}

/// Whether so many microseconds since 1970 are a moment of a year from 1 to 9999.
pub fn is_of_years(micros: i64) -> bool
    ensures value { result ≡ is_in_years micros }
    ensures range { IsTrue result ↔ IsInYears micros }
{
    micros >= -62_135_596_800_000_000 && micros <= 253_402_300_799_999_999
}

/// What is read of a text of this length, where the reader gives this.
#[tactic(auto, unfolding(crate::specs::MomentReading::moment_judged))]
fn judged(len: usize, read: Result<i64, usize>) -> Result<Moment, NameFault>
    ensures ok { IfOk result (λ m. moment_judged len read ≡ Ok m) }
    ensures fault { IfErr result (λ f. moment_judged len read ≡ Err f) }
{
    match read {
        Ok(micros) => {
            if is_of_years(micros) {
                Ok(Moment::new(micros))
            } else {
                Err(NameFault::OutOfRange)
            }
        }
        Err(left) => Err(NameFault::BadByte {
            at: len.saturating_sub(left),
        }),
    }
}

/// Reads a moment from left to right.
fn read(text: &[u8]) -> Result<Moment, NameFault>
    ensures ok { IfOk result (λ m. moment_of text.now ≡ Ok m) }
    ensures fault { IfErr result (λ f. moment_of text.now ≡ Err f) }
{
    if text.is_empty() {
        return Err(NameFault::Empty);
    }
    judged(text.len(), moment(text))
}

impl Moment {
    /// The moment of so many microseconds since 1970. `is_of_years` tells whether there is one.
    pub fn new(micros: i64) -> Moment
        requires { IsInYears micros }
        ensures { result ≡ micros }
    {
        Moment { micros }
    }

    /// The microseconds since 1970.
    pub fn micros(&self) -> i64
        ensures value { result ≡ self.now }
        ensures range { IsInYears self.now }
    {
        self.micros
    }

    /// Reads a moment of RFC 3339, all of the text: `YYYY-MM-DDTHH:MM:SS`, where there are decimals
    /// a point and one to nine digits, and `Z` or an offset as `+HH:MM`. What decimals say below a
    /// microsecond is dropped. `OutOfRange` where the moment is before the year 1 or after the year
    /// 9999 in UTC. Takes no memory, and so never answers `Memory`.
    pub fn parse(alloc: Global, text: &[u8]) -> Result<Moment, NameFault>
        ensures said { IfOk result (λ m. IsMomentText text.now m) }
        ensures wrong { IfErr result (IsMomentFault text.now) }
    {
        let _ = alloc;
        read(text)
    }

    /// The text of the moment, as `write_to` appends it.
    pub fn to_text(&self, alloc: Global) -> Result<String, AllocError>
        ensures range { IsInYears self.now }
        ensures text { IfOk result (λ text. string_bytes text ≡ moment_text self.now) }
    {
        let micros = self.micros;
        let mut text = String::with_capacity(alloc, LONGEST)?;
        push_moment(&mut text, micros)?;
        Ok(text)
    }

    /// Appends the moment as RFC 3339 has it, in UTC with `Z` and the fewest of 0, 3 or 6 decimals
    /// that are exact: all of it or nothing.
    pub fn write_to(&self, alloc: Global, out: &mut Vec<u8>) -> Result<(), AllocError>
        ensures said { IsMomentText (moment_text self.now) self.now }
        ensures ok { OnOk result (out.new.items ≡ out.old.items ++ moment_text self.now) }
        ensures err { OnErr result (out.new.items ≡ out.old.items) }
    {
        let text = self.to_text(alloc)?;
        append(out, text.as_bytes())
    }
}
