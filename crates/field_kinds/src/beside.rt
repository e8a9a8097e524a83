//! Forms that are judged beside what the request says elsewhere, as an inner name that has to equal
//! the outer one.
ghost use Rattle.std.specs.Prelude.{◌≡◌, [], ◌∷◌, ◌++◌, Option, None, IfOk, IfErr, OnOk, map};
ghost use Rattle.serde_json.specs.Data.{Data};
ghost use Rattle.serde_json.specs.View.{view};
ghost use Rattle.json_fields.specs.Faults.{Says};
ghost use Rattle.json_fields.specs.Fields.{fault_from, Pairs, required, optional, filled_at, set_at, Holds, HoldsMaybe};
ghost use Rattle.json_fields.specs.Kinds.{a_list, empty_list, IsEach};
ghost use Rattle.field_kinds.specs.Beside.{a_same_text};
ghost use Rattle.json_fields.specs.declared.faults.FieldFault.{FieldFault};

use json_fields::{FaultKind, Listed, Name, ReadFault, Step, UnbuiltList, Why, filled_at, set_at};
use serde_json::Value;
use std::alloc::{AllocError, Global};

/// For how many elements room is made before any is read: as many as most lists that are read
/// whole have at most. A longer list, which may well be refused, gets more as it is read.
const AT_FIRST: usize = 500;

/// What is read from a JSON value beside a context: `fault` and `means` are as of a `Form`, but
/// for the context.
pub trait FormBeside<C>: Sized + Drop {
    ghost fault: { C → Data → Option FieldFault };

    ghost means: { C → Data → Self → Type 0 };

    /// Reads the value whole. `Field` with its fault where it has one, and `Memory`.
    fn read_beside(alloc: Global, context: &C, value: &Value) -> Result<Self, ReadFault>
        ensures ok { IfOk result (λ x. (fault context.now (view value.now) ≡ None)
            × means context.now (view value.now) x) }
        ensures err { IfErr result (λ e. Says e (fault context.now (view value.now))) };

    /// Takes over from the element before it what needn't be computed again. The value stays.
    fn take_over(&mut self, _before: Option<&Self>)
        ensures { self.new ≡ self.old }
    {}
}

fn add<C, T: FormBeside<C>>(found: &mut Vec<T>, mut one: T) -> Result<(), AllocError>
    ensures { OnOk result (found.new.items ≡ found.old.items ++ one ∷ []) }
{
    <T as FormBeside<C>>::take_over(&mut one, found.last());
    found.push(one)?;
    Ok(())
}

/// The values of the elements, or the fault of the first that has one.
fn read_all_beside<C, T: FormBeside<C>>(
    alloc: Global,
    context: &C,
    list: &[Value],
) -> Result<Listed<T>, ReadFault>
    ensures ok { IfOk result (λ xs.
        (fault_from 0 (T.fault context.now) (map view list.now) ≡ None)
        × Pairs (T.means context.now) (map view list.now) xs) }
    ensures err { IfErr result (λ e.
        Says e (fault_from 0 (T.fault context.now) (map view list.now))) }
{
    let mut found = Vec::with_capacity(alloc, list.len().min(AT_FIRST))?;
    for i in 0..list.len() {
        match T::read_beside(alloc, context, &list[i]) {
            Ok(one) => add::<C, T>(&mut found, one)?,
            Err(fault) => return Err(fault.under(Step::Place(i))),
        }
    }
    Ok(Listed::new(found))
}

/// The elements of a list that is there.
fn read_list_beside<C, T: FormBeside<C>>(
    alloc: Global,
    context: &C,
    value: &Value,
) -> Result<Listed<T>, ReadFault>
    ensures ok { IfOk result (λ xs. (a_list (T.fault context.now) (view value.now) ≡ None)
        × IsEach (T.means context.now) (view value.now) xs) }
    ensures err { IfErr result (λ e. Says e (a_list (T.fault context.now) (view value.now))) }
{
    match value {
        Value::Array(list) => read_all_beside(alloc, context, list),
        _ => Err(ReadFault::here(alloc, FaultKind::WrongKind)),
    }
}

/// A field that may be unset, beside a context.
#[tactic(auto, unfolding(json_fields::specs::Fields::optional))]
pub fn optional_beside<C, T: FormBeside<C>>(
    alloc: Global,
    context: &C,
    value: &Value,
    name: Name,
) -> Result<Option<T>, ReadFault>
    ensures ok { IfOk result (λ o. (optional name (T.fault context.now) (view value.now) ≡ None)
        × HoldsMaybe (T.means context.now) (set_at name (view value.now)) o) }
    ensures err { IfErr result (λ e.
        Says e (optional name (T.fault context.now) (view value.now))) }
{
    match set_at(value, &name) {
        None => Ok(None),
        Some(found) => match T::read_beside(alloc, context, found) {
            Ok(x) => Ok(Some(x)),
            Err(fault) => Err(fault.under(Step::Member(name))),
        },
    }
}

/// A list that must be set and have an element, each beside a context: `Missing` where it is unset,
/// null or empty.
#[tactic(auto, unfolding(json_fields::specs::Fields::required))]
pub fn required_list_beside<C, T: FormBeside<C>>(
    alloc: Global,
    context: &C,
    value: &Value,
    name: Name,
) -> Result<Listed<T>, ReadFault>
    ensures ok { IfOk result (λ xs.
        (required name empty_list (a_list (T.fault context.now)) (view value.now) ≡ None)
        × Holds (IsEach (T.means context.now)) (filled_at name empty_list (view value.now)) xs) }
    ensures err { IfErr result (λ e.
        Says e (required name empty_list (a_list (T.fault context.now)) (view value.now))) }
{
    match filled_at::<UnbuiltList>(value, &name) {
        None => Err(ReadFault::here(alloc, FaultKind::Missing).under(Step::Member(name))),
        Some(found) => match read_list_beside(alloc, context, found) {
            Ok(xs) => Ok(xs),
            Err(fault) => Err(fault.under(Step::Member(name))),
        },
    }
}

fn judge_same(alloc: Global, outer: &str, value: &Value) -> Result<(), ReadFault>
    ensures ok { IfOk result (λ _. a_same_text outer.now (view value.now) ≡ None) }
    ensures err { IfErr result (λ e. Says e (a_same_text outer.now (view value.now))) }
{
    match value {
        Value::String(text) => if text.is_empty() || text.as_bytes() == outer.as_bytes() {
            Ok(())
        } else {
            Err(ReadFault::here(alloc, FaultKind::BadValue(Why::Differs)))
        },
        _ => Err(ReadFault::here(alloc, FaultKind::WrongKind)),
    }
}

/// A text that may be unset or empty, and else is the outer one: `Differs` where it is another.
#[tactic(auto, unfolding(json_fields::specs::Fields::optional))]
pub fn same_text(alloc: Global, outer: &str, value: &Value, name: Name) -> Result<(), ReadFault>
    ensures ok { IfOk result (λ _.
        optional name (a_same_text outer.now) (view value.now) ≡ None) }
    ensures err { IfErr result (λ e.
        Says e (optional name (a_same_text outer.now) (view value.now))) }
{
    match set_at(value, &name) {
        None => Ok(()),
        Some(found) => match judge_same(alloc, outer, found) {
            Ok(()) => Ok(()),
            Err(fault) => Err(fault.under(Step::Member(name))),
        },
    }
}
