//! Reading moments, each reader from the front of a text. Where it fails it tells how many bytes
//! stand from the first bad place on.
ghost use Rattle.std.specs.Prelude.{◌≡◌, ◌≤◌, ◌<◌, ◌+◌, ◌-◌, ◌*◌, ◌≤ℤ◌, ◌↔◌, ℕ, List, [], length, pos, neg_ℤ, Ok, IfOk};
ghost use Rattle.std.specs.Prelude.{IsTrue};
ghost use Rattle.std.specs.Int.{IsInRange};
ghost use Rattle.jiff.specs.Words.{IsBetween, IsEpochDay};
ghost use Rattle.jiff_core.specs.Calendar.{days_from_civil, days_in_month};
ghost use Rattle.moments_spans.specs.MomentReading.{seen, seen_rest, digit_from, two_from, year_from, byte_from};
ghost use Rattle.moments_spans.specs.MomentReading.{day_from, fraction_from, digits_from, decimals_from, minutes_from};
ghost use Rattle.moments_spans.specs.MomentReading.{clock_from, offset_from, zone_from, moment_from};
ghost use Rattle.moments_spans.specs.Moments.{moment_at};

use jiff::civil::Date;

/// Reads one digit more, worth so much, of a number that can still come to lie from `low` to
/// `high`.
#[tactic(auto, unfolding(crate::specs::MomentReading::digit_from))]
fn digit(text: &[u8], worth: u32, low: u32, high: u32, so_far: u32) -> Result<(u32, &[u8]), usize>
    requires worth { IsInRange 1 1000 worth }
    requires so_far { so_far ≤ 9999 }
    ensures value { seen result ≡ digit_from worth low high so_far text.now }
    ensures most { IfOk result (λ r. r.0 ≤ high) }
    ensures least { IfOk result (λ r. low ≤ r.0 + (worth - 1)) }
{
    let Some((first, rest)) = text.split_first() else {
        return Err(0);
    };
    if !first.is_ascii_digit() {
        return Err(text.len());
    }
    let number = so_far + worth * (*first - b'0') as u32;
    if number <= high && low <= number + (worth - 1) {
        Ok((number, rest))
    } else {
        Err(text.len())
    }
}

/// Reads two digits, a number from `low` to `high`.
#[tactic(auto, unfolding(crate::specs::MomentReading::two_from))]
fn two_digits(text: &[u8], low: u32, high: u32) -> Result<(u32, &[u8]), usize>
    requires { high ≤ 99 }
    ensures value { seen result ≡ two_from low high text.now }
    ensures range { IfOk result (λ r. IsInRange low high r.0) }
{
    let (tens, rest) = digit(text, 10, low, high, 0)?;
    digit(rest, 1, low, high, tens)
}

/// Reads a year from 1 to 9999.
#[tactic(auto, unfolding(crate::specs::MomentReading::year_from))]
fn year(text: &[u8]) -> Result<(u32, &[u8]), usize>
    ensures value { seen result ≡ year_from text.now }
    ensures range { IfOk result (λ r. IsInRange 1 9999 r.0) }
{
    let (thousands, rest) = digit(text, 1000, 1, 9999, 0)?;
    let (hundreds, rest) = digit(rest, 100, 1, 9999, thousands)?;
    let (tens, rest) = digit(rest, 10, 1, 9999, hundreds)?;
    digit(rest, 1, 1, 9999, tens)
}

/// Reads this byte.
#[tactic(auto, unfolding(crate::specs::MomentReading::byte_from))]
pub(crate) fn byte(text: &[u8], wanted: u8) -> Result<&[u8], usize>
    ensures { seen_rest result ≡ byte_from wanted text.now }
{
    match text.split_first() {
        Some((first, rest)) => if *first == wanted {
            Ok(rest)
        } else {
            Err(text.len())
        },
        None => Err(0),
    }
}

/// How many days the month has.
fn month_length(year: u32, month: u32) -> u32
    requires year { IsInRange 1 9999 year }
    requires month { IsInRange 1 12 month }
    ensures value { result ≡ days_in_month (pos year) month }
    ensures range { IsInRange 28 31 result }
{
    match month {
        2 => if year % 4 == 0 && (year % 100 != 0 || year % 400 == 0) {
            29
        } else {
            28
        },
        4 | 6 | 9 | 11 => 30,
        _ => 31,
    }
}

/// The day number of a date.
fn day_number(year: u32, month: u32, day: u32) -> i32
    requires year { IsInRange 1 9999 year }
    requires month { IsInRange 1 12 month }
    requires day { IsInRange 1 (days_in_month (pos year) month) day }
    requires days { day ≤ 31 }
    ensures value { result ≡ days_from_civil (pos year) month day }
    ensures bound { IsEpochDay result }
{
    match Date::new(year as i16, month as i8, day as i8) {
        Ok(date) => date.to_plain().to_unix_epoch_day(),
        Err(_) => unreachable!(),
    }
}

/// Reads a date of the calendar, as its day number.
#[tactic(auto, unfolding(crate::specs::MomentReading::day_from))]
fn day(text: &[u8]) -> Result<(i32, &[u8]), usize>
    ensures value { seen result ≡ day_from text.now }
    ensures bound { IfOk result (λ r. IsEpochDay r.0) }
{
    let (year, rest) = year(text)?;
    let rest = byte(rest, b'-')?;
    let (month, rest) = two_digits(rest, 1, 12)?;
    let rest = byte(rest, b'-')?;
    let (day, rest) = two_digits(rest, 1, month_length(year, month))?;
    Ok((day_number(year, month, day), rest))
}

/// Reads up to nine digits behind a point as microseconds, of which the text has the first at
/// least.
fn fraction(text: &[u8]) -> (u32, &[u8])
    ensures value { (result.0, result.1.now) ≡ fraction_from 9 100_000 0 text.now }
    ensures bound { result.0 < 1_000_000 }
{
    let mut rest = text;
    let mut micros = 0;
    let mut worth = 100_000;
    for place in 0..9u32 {
        let Some((first, behind)) = rest.split_first() else {
            return (micros, rest);
        };
        if !first.is_ascii_digit() {
            return (micros, rest);
        }
        micros += worth * (*first - b'0') as u32;
        worth /= 10;
        rest = behind;
    }
    (micros, rest)
}

/// Reads at least one digit, and up to nine, as microseconds.
#[tactic(auto, unfolding(crate::specs::MomentReading::digits_from))]
fn digits(text: &[u8]) -> Result<(u32, &[u8]), usize>
    ensures value { seen result ≡ digits_from text.now }
    ensures bound { IfOk result (λ r. r.0 < 1_000_000) }
{
    match text.split_first() {
        Some((first, _)) => if first.is_ascii_digit() {
            Ok(fraction(text))
        } else {
            Err(text.len())
        },
        None => Err(0),
    }
}

/// Reads the decimals where there is a point, as microseconds.
#[tactic(auto, unfolding(crate::specs::MomentReading::decimals_from))]
pub(crate) fn decimals(text: &[u8]) -> Result<(u32, &[u8]), usize>
    ensures value { seen result ≡ decimals_from text.now }
    ensures bound { IfOk result (λ r. r.0 < 1_000_000) }
{
    match text.split_first() {
        Some((first, rest)) => if *first == b'.' {
            digits(rest)
        } else {
            Ok((0, text))
        },
        None => Ok((0, text)),
    }
}

/// Reads hours and minutes, as minutes.
#[tactic(auto, unfolding(crate::specs::MomentReading::minutes_from))]
fn minutes(text: &[u8]) -> Result<(u32, &[u8]), usize>
    ensures value { seen result ≡ minutes_from text.now }
    ensures bound { IfOk result (λ r. r.0 < 1440) }
{
    let (hours, rest) = two_digits(text, 0, 23)?;
    let rest = byte(rest, b':')?;
    let (minutes, rest) = two_digits(rest, 0, 59)?;
    Ok((hours * 60 + minutes, rest))
}

/// Reads a time of day, as microseconds.
#[tactic(auto, unfolding(crate::specs::MomentReading::clock_from))]
fn clock(text: &[u8]) -> Result<(u64, &[u8]), usize>
    ensures value { seen result ≡ clock_from text.now }
    ensures bound { IfOk result (λ r. r.0 < 86_400_000_000) }
{
    let (minutes, rest) = minutes(text)?;
    let rest = byte(rest, b':')?;
    let (seconds, rest) = two_digits(rest, 0, 59)?;
    let (decimals, rest) = decimals(rest)?;
    Ok((
        (minutes as u64 * 60 + seconds as u64) * 1_000_000 + decimals as u64,
        rest,
    ))
}

/// Reads the hours and minutes of a zone before UTC, or behind it.
#[tactic(auto, unfolding(crate::specs::MomentReading::offset_from))]
fn offset(text: &[u8], is_behind: bool) -> Result<(i32, &[u8]), usize>
    ensures value { seen result ≡ offset_from is_behind text.now }
    ensures bound { IfOk result (λ r. IsBetween (neg_ℤ (pos 1439)) (pos 1439) r.0) }
{
    let (minutes, rest) = minutes(text)?;
    let offset = if is_behind {
        -(minutes as i32)
    } else {
        minutes as i32
    };
    Ok((offset, rest))
}

/// Reads `Z`, or how many minutes a clock is before UTC.
#[tactic(auto, unfolding(crate::specs::MomentReading::zone_from))]
fn zone(text: &[u8]) -> Result<(i32, &[u8]), usize>
    ensures value { seen result ≡ zone_from text.now }
    ensures bound { IfOk result (λ r. IsBetween (neg_ℤ (pos 1439)) (pos 1439) r.0) }
{
    let Some((first, rest)) = text.split_first() else {
        return Err(0);
    };
    match *first {
        b'Z' => Ok((0, rest)),
        b'+' => offset(rest, false),
        b'-' => offset(rest, true),
        _ => Err(text.len()),
    }
}

/// A day, a time of day and a zone as microseconds in UTC.
fn joined(day: i32, clock: u64, zone: i32) -> i64
    requires day { IsEpochDay day }
    requires clock { clock < 86_400_000_000 }
    requires zone { IsBetween (neg_ℤ (pos 1439)) (pos 1439) zone }
    ensures { result ≡ moment_at day clock zone }
{
    day as i64 * 86_400_000_000 + clock as i64 - zone as i64 * 60_000_000
}

/// Reads a moment, all of the text, in microseconds since 1970-01-01T00:00:00Z.
#[tactic(auto, unfolding(crate::specs::MomentReading::moment_from))]
pub(crate) fn moment(text: &[u8]) -> Result<i64, usize>
    ensures { result ≡ moment_from text.now }
{
    let (day, rest) = day(text)?;
    let rest = byte(rest, b'T')?;
    let (clock, rest) = clock(rest)?;
    let (zone, rest) = zone(rest)?;
    if !rest.is_empty() {
        return Err(rest.len());
    }
    Ok(joined(day, clock, zone))
}
