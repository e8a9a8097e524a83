//! Dates of the calendar, by their day numbers.
ghost use Rattle.std.specs.Prelude.{◌≡◌, pos, neg_ℤ, ◌≤ℤ◌};
ghost use Rattle.std.specs.Int.{IsInRange};
ghost use Rattle.jiff.specs.Words.{IsBetween};
ghost use Rattle.moments_spans.specs.Civil.{civil_date};

use jiff_core::civil::Date;

/// A date of a year from 1 to 9999.
#[derive(Clone, Copy)]
pub(crate) struct CivilDate {
    pub year: u16,
    pub month: u8,
    pub day: u8,
}

/// The year of a date on or after 0001-01-01.
fn year_of(date: Date) -> u16
    requires { pos 1 ≤ℤ date.year }
    ensures value { pos result ≡ date.year }
    ensures range { IsInRange 1 9999 result }
{
    date.year as u16
}

/// The date of a day number, where day 0 is 1970-01-01.
pub(crate) fn date_of(day: i32) -> CivilDate
    requires { IsBetween (neg_ℤ (pos 719_162)) (pos 2_932_896) day }
    ensures date { result ≡ civil_date day }
    ensures year { IsInRange 1 9999 result.year }
    ensures month { IsInRange 1 12 result.month }
    ensures day { IsInRange 1 31 result.day }
{
    match Date::from_unix_epoch_day(day as i64) {
        Ok(date) => CivilDate {
            year: year_of(date),
            month: date.month,
            day: date.day,
        },
        Err(_) => unreachable!(),
    }
}
