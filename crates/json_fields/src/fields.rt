//! Reading the fields of an object: which must be set, may be unset, or are empty where unset.
ghost use Rattle.std.specs.Prelude.{◌≡◌, Bool, Option, None, IfOk, IfErr, option_map};
ghost use Rattle.serde_json.specs.Data.{Data};
ghost use Rattle.serde_json.specs.View.{view};
ghost use Rattle.json_fields.specs.Faults.{Says};
ghost use Rattle.json_fields.specs.Fields.{member, set, filled, set_at, filled_at, text_at, required, optional, or_empty, Holds, HoldsMaybe};
ghost use Rattle.json_fields.specs.Kinds.{a_list, HoldsList};
ghost use Rattle.json_fields.specs.declared.faults.FieldFault.{FieldFault};

use crate::faults::{FaultKind, ReadFault};
use crate::names::{Name, Step};
use names_realms::Listed;
use serde_json::Value;
use std::alloc::Global;

/// What is read from a JSON value: a text, a number, a list, or an object with fields.
///
/// `fault` is what is wrong with a value, `means` which value of the program it means, and `empty`
/// which values count as unset, besides null, where a field must be set.
pub trait Form: Sized + Drop {
    ghost fault: { Data → Option FieldFault };

    ghost means: { Data → Self → Type 0 };

    ghost empty: { Data → Bool };

    /// Whether the value is empty by this kind.
    fn is_empty(value: &Value) -> bool
        ensures { result ≡ empty (view value.now) };

    /// Reads the value whole. `Field` with its fault where it has one, and `Memory`.
    fn read(alloc: Global, value: &Value) -> Result<Self, ReadFault>
        ensures ok { IfOk result (λ x. (fault (view value.now) ≡ None) × means (view value.now) x) }
        ensures err { IfErr result (λ e. Says e (fault (view value.now))) };
}

/// The member under the lowerCamelCase name, else under the proto's name.
fn member<'v>(value: &'v Value, name: &Name) -> Option<&'v Value>
    ensures { option_map (λ v. view v.now) result ≡ member name.now (view value.now) }
{
    match value.get(name.camel()) {
        None if name.camel() != name.proto() => value.get(name.proto()),
        found => found,
    }
}

/// A value that isn't null.
fn set<'v>(value: &'v Value) -> Option<&'v Value>
    ensures { option_map (λ v. view v.now) result ≡ set (view value.now) }
{
    match value {
        Value::Null => None,
        _ => Some(value),
    }
}

/// A value that is neither null nor empty by the kind.
fn filled<'v, T: Form>(value: &'v Value) -> Option<&'v Value>
    ensures { option_map (λ v. view v.now) result ≡ filled T.empty (view value.now) }
{
    match value {
        Value::Null => None,
        _ => {
            if T::is_empty(value) {
                None
            } else {
                Some(value)
            }
        }
    }
}

/// The value of a field that is set, and isn't null.
#[tactic(auto, unfolding(crate::specs::Fields::set_at))]
pub fn set_at<'v>(value: &'v Value, name: &Name) -> Option<&'v Value>
    ensures { option_map (λ v. view v.now) result ≡ set_at name.now (view value.now) }
{
    match member(value, name) {
        Some(found) => set(found),
        None => None,
    }
}

/// The value of a field that is set, and neither null nor empty by the kind.
#[tactic(auto, unfolding(crate::specs::Fields::filled_at))]
pub fn filled_at<'v, T: Form>(value: &'v Value, name: &Name) -> Option<&'v Value>
    ensures { option_map (λ v. view v.now) result ≡ filled_at name.now T.empty (view value.now) }
{
    match member(value, name) {
        Some(found) => filled::<T>(found),
        None => None,
    }
}

/// A field that must be set: `Missing` where it is unset, null, or empty by its kind.
#[tactic(auto, unfolding(crate::specs::Fields::required))]
pub fn required<T: Form>(alloc: Global, value: &Value, name: Name) -> Result<T, ReadFault>
    ensures ok { IfOk result (λ x. (required name T.empty T.fault (view value.now) ≡ None)
        × Holds T.means (filled_at name T.empty (view value.now)) x) }
    ensures err { IfErr result (λ e. Says e (required name T.empty T.fault (view value.now))) }
{
    match filled_at::<T>(value, &name) {
        None => Err(ReadFault::here(alloc, FaultKind::Missing).under(Step::Member(name))),
        Some(found) => match T::read(alloc, found) {
            Ok(x) => Ok(x),
            Err(fault) => Err(fault.under(Step::Member(name))),
        },
    }
}

/// A field that may be unset: `None` where it is, or is null.
#[tactic(auto, unfolding(crate::specs::Fields::optional))]
pub fn optional<T: Form>(alloc: Global, value: &Value, name: Name) -> Result<Option<T>, ReadFault>
    ensures ok { IfOk result (λ o. (optional name T.fault (view value.now) ≡ None)
        × HoldsMaybe T.means (set_at name (view value.now)) o) }
    ensures err { IfErr result (λ e. Says e (optional name T.fault (view value.now))) }
{
    match set_at(value, &name) {
        None => Ok(None),
        Some(found) => match T::read(alloc, found) {
            Ok(x) => Ok(Some(x)),
            Err(fault) => Err(fault.under(Step::Member(name))),
        },
    }
}

/// A list that may be unset, and is empty then.
pub fn optional_list<T: Form>(
    alloc: Global,
    value: &Value,
    name: Name,
) -> Result<Listed<T>, ReadFault>
    ensures ok { IfOk result (λ xs. (optional name (a_list T.fault) (view value.now) ≡ None)
        × HoldsList T.means (set_at name (view value.now)) xs) }
    ensures err { IfErr result (λ e. Says e (optional name (a_list T.fault) (view value.now))) }
{
    match optional::<Listed<T>>(alloc, value, name) {
        Ok(Some(list)) => Ok(list),
        Ok(None) => Ok(Listed::new(Vec::new(alloc))),
        Err(fault) => Err(fault),
    }
}

/// A field whose text counts as empty where it is unset.
#[tactic(auto, unfolding(crate::specs::Fields::or_empty, crate::specs::Fields::text_at))]
pub fn or_empty_text<T: Form>(alloc: Global, value: &Value, name: Name) -> Result<T, ReadFault>
    ensures ok { IfOk result (λ x. (or_empty name T.fault (view value.now) ≡ None)
        × T.means (text_at name (view value.now)) x) }
    ensures err { IfErr result (λ e. Says e (or_empty name T.fault (view value.now))) }
{
    let read = match set_at(value, &name) {
        Some(found) => T::read(alloc, found),
        None => T::read(alloc, &Value::String(String::new(alloc))),
    };
    match read {
        Ok(x) => Ok(x),
        Err(fault) => Err(fault.under(Step::Member(name))),
    }
}
