//! Whole numbers within bounds.
ghost use Rattle.std.specs.Prelude.{◌≡◌, ℕ, ◌≤◌, ◌<◌, ◌+◌, ◌*◌, ◌^◌, true, min, Some, None, IfOk, IfErr, MatchOption};
ghost use Rattle.std.specs.List.{list_all};
ghost use Rattle.std.specs.Char.{is_ascii_digit, digit_value};
ghost use Rattle.std.specs.Str.Parse.{digits_value};
ghost use Rattle.json_fields.specs.Faults.{Says};
ghost use Rattle.serde_json.specs.View.{view, number_view};
ghost use Rattle.field_kinds.specs.Numbers.{says, said, said_below, said_behind_minus, said_text, said_number, a_whole};
ghost use Rattle.field_kinds.specs.Numbers.{is_decimal, IsSaid};
ghost use Rattle.field_kinds.specs.Readings.{answer};

use crate::defaults::Defaulted;
use json_fields::{FaultKind, Form, ReadFault, Why, Written};
use serde_json::{Number, Value};
use std::alloc::{AllocError, Global};
use std::marker::{Model, PhantomData};

fn are_digits(text: &[u8]) -> bool
    ensures { result ≡ list_all is_ascii_digit text.now }
{
    text.iter().all(|byte| byte.is_ascii_digit())
}

fn is_decimal(text: &[u8]) -> bool
    ensures { result ≡ is_decimal text.now }
{
    match text.split_first() {
        None => false,
        Some((first, rest)) => are_digits(text) && (*first != b'0' || rest.is_empty()),
    }
}

/// The number of a digit behind another number, at most `top`.
fn with_digit(top: u64, number: u64, digit: u8) -> u64
    requires digit { is_ascii_digit digit ≡ true }
    ensures { result ≡ min (number * 10 + digit_value digit) top }
{
    let next = u128::from(number) * 10 + u128::from(digit - b'0');
    next.min(u128::from(top)) as u64
}

/// The number that digits write, at most `top`.
fn number_to(top: u64, digits: &[u8]) -> u64
    requires { list_all is_ascii_digit digits.now ≡ true }
    ensures { result ≡ min (digits_value 10 digits.now) top }
{
    let mut number: u64 = 0;
    let mut left = digits;
    while let Some((digit, rest)) = left.split_first() {
        number = with_digit(top, number, *digit);
        left = rest;
    }
    number
}

fn within(most: u64, number: u64) -> Result<u64, FaultKind>
    ensures { result ≡ answer most (says number) }
{
    if number > most {
        Err(FaultKind::BadValue(Why::OutOfRange))
    } else {
        Ok(number)
    }
}

/// A number behind a minus.
fn below(digits: &[u8]) -> Result<u64, FaultKind>
    requires { is_decimal digits.now ≡ true }
    ensures { (most : ℕ) → result ≡ answer most (said_below (digits_value 10 digits.now)) }
{
    if number_to(1, digits) == 0 {
        Ok(0)
    } else {
        Err(FaultKind::BadValue(Why::Negative))
    }
}

fn behind_minus(most: u64, text: &[u8]) -> Result<u64, FaultKind>
    ensures { result ≡ answer most (said_behind_minus text.now) }
{
    match text.split_first() {
        None => Err(FaultKind::WrongKind),
        Some((first, rest)) => {
            if *first == b'-' && is_decimal(rest) {
                below(rest)
            } else {
                Err(FaultKind::WrongKind)
            }
        }
    }
}

/// The number that a text says.
fn of_text(most: u64, text: &[u8]) -> Result<u64, FaultKind>
    requires { most < 2 ^ 63 }
    ensures { result ≡ answer most (said_text text.now) }
{
    if is_decimal(text) {
        within(most, number_to(most + 1, text))
    } else {
        behind_minus(most, text)
    }
}

/// The number that a JSON number is.
fn of_number(most: u64, number: &Number) -> Result<u64, FaultKind>
    ensures { result ≡ answer most (said_number (number_view number.now)) }
{
    match number.as_u64() {
        Some(n) => within(most, n),
        None => {
            if number.is_f64() {
                Err(FaultKind::BadValue(Why::NotWhole))
            } else {
                Err(FaultKind::BadValue(Why::Negative))
            }
        }
    }
}

fn of_value(most: u64, value: &Value) -> Result<u64, FaultKind>
    requires { most < 2 ^ 63 }
    ensures { result ≡ answer most (said (view value.now)) }
{
    match value {
        Value::Number(number) => of_number(most, number),
        Value::String(text) => of_text(most, text.as_bytes()),
        _ => Err(FaultKind::WrongKind),
    }
}

/// Reads a whole number that is at most the bound.
fn read_whole(alloc: Global, most: u64, value: &Value) -> Result<u64, ReadFault>
    requires { most < 2 ^ 63 }
    ensures ok { IfOk result (λ n. (a_whole most (view value.now) ≡ None)
        × IsSaid (view value.now) n × (n ≤ most)) }
    ensures err { IfErr result (λ e. Says e (a_whole most (view value.now))) }
{
    match of_value(most, value) {
        Ok(number) => Ok(number),
        Err(kind) => Err(ReadFault::here(alloc, kind)),
    }
}

/// What whole numbers a field may have, and how they are written.
pub trait NumberRule: Drop {
    ghost use Rattle.std.specs.Prelude.{◌≤◌, ◌^◌, ◌<◌, ℕ, false, IfOk, OnOk};
    ghost use Rattle.serde_json.specs.Data.{Data};
    ghost use Rattle.json_fields.specs.Kinds.{never_empty};
    ghost use Rattle.json_fields.specs.Writing.{IsWritten};
    ghost use Rattle.field_kinds.specs.Numbers.{a_whole, IsSaid};

    ghost greatest: { ℕ };

    ghost written: { ℕ → Data };

    /// The greatest number that is taken, which is below 2^63.
    fn most() -> u64
        ensures most { result ≡ greatest }
        ensures bound { greatest < 2 ^ 63 };

    /// What is written of a number, which is read again as this number where it isn't too great.
    /// `Err` where there is no memory for it.
    fn write(alloc: Global, number: u64) -> Result<Value, AllocError>
        ensures value { IfOk result (λ v. view v ≡ written number) }
        ensures again { OnOk result (number ≤ greatest
            → IsWritten (a_whole greatest) IsSaid never_empty (λ _. false)
            number (written number)) };
}

/// The size of a page, or a limit of results: at most 2^31 - 1, written as a number.
#[derive(Debug, Drop)]
pub struct PageSize;

impl NumberRule for PageSize {
    ghost use Rattle.serde_json.specs.Data.{number, unsigned};
    ghost use Rattle.field_kinds.specs.Numbers.{most_of_page};

    ghost greatest = { most_of_page };

    ghost written = { λ n. number (unsigned n) };

    fn most() -> u64 {
        2147483647
    }

    fn write(_alloc: Global, number: u64) -> Result<Value, AllocError> {
        Ok(Value::Number(Number::from(number)))
    }
}

/// How many bytes there are: at most 2^63 - 1, written as a decimal text.
#[derive(Debug, Drop)]
pub struct ByteSize;

impl NumberRule for ByteSize {
    ghost use Rattle.std.specs.Prelude.{decimal};
    ghost use Rattle.serde_json.specs.Data.{string};
    ghost use Rattle.field_kinds.specs.Numbers.{most_of_bytes};

    ghost greatest = { most_of_bytes };

    ghost written = { λ n. string (decimal n) };

    fn most() -> u64 {
        9223372036854775807
    }

    fn write(alloc: Global, number: u64) -> Result<Value, AllocError> {
        let text = format!(in alloc; "{number}")?;
        Ok(Value::String(text))
    }
}

/// A whole number that a rule allows. Contracts see it as the number.
#[derive(Debug, Drop)]
pub struct Whole<R: NumberRule> {
    value: u64,
    rule: PhantomData<R>,
}

impl<R: NumberRule> Model for Whole<R> {
    ghost use Rattle.std.specs.Prelude.{ℕ, ◌≤◌};

    ghost Value = { ℕ };

    ghost view = { λ n. n.value };

    ghost invariant = { λ n. n.value ≤ R.greatest };
}

impl<R: NumberRule> Whole<R> {
    /// The number, or `None` where it is too great for the rule.
    pub fn new(value: u64) -> Option<Whole<R>>
        ensures { MatchOption result (R.greatest < value)
            (λ n. (n ≡ value) × (value ≤ R.greatest)) }
    {
        if value > R::most() {
            return None;
        }
        Some(Whole {
            value,
            rule: PhantomData,
        })
    }

    /// The number.
    pub fn get(&self) -> u64
        ensures value { result ≡ self.now }
        ensures most { result ≤ R.greatest }
    {
        self.value
    }
}

impl<R: NumberRule> Form for Whole<R> {
    ghost use Rattle.json_fields.specs.Kinds.{never_empty};
    ghost use Rattle.field_kinds.specs.Numbers.{a_whole, IsSaid};

    ghost fault = { a_whole R.greatest };

    ghost means = { IsSaid };

    ghost empty = { never_empty };

    fn is_empty(_value: &Value) -> bool {
        false
    }

    fn read(alloc: Global, value: &Value) -> Result<Whole<R>, ReadFault> {
        match read_whole(alloc, R::most(), value) {
            Ok(value) => Ok(Whole {
                value,
                rule: PhantomData,
            }),
            Err(fault) => Err(fault),
        }
    }
}

impl<R: NumberRule> Written for Whole<R> {
    ghost use Rattle.std.specs.Prelude.{false};

    ghost json = { λ n. R.written n };

    ghost blank = { λ _. false };

    fn write(&self, alloc: Global) -> Result<Value, AllocError> {
        R::write(alloc, self.get())
    }
}

/// The default of a number is 0.
impl<R: NumberRule> Defaulted for Whole<R> {
    ghost unset = { 0 };

    fn default_value(_alloc: Global) -> Result<Whole<R>, AllocError> {
        Ok(Whole {
            value: 0,
            rule: PhantomData,
        })
    }

    #[tactic(auto, using(crate::proofs::DefaultLaws::number_zero))]
    fn is_default(&self) -> bool {
        self.get() == 0
    }
}
