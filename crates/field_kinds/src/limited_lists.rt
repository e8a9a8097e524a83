//! Lists with a limit of elements.
ghost use Rattle.std.specs.Prelude.{◌≡◌, ◌≤◌, ℕ, Option, Some, length, option_map};
ghost use Rattle.serde_json.specs.View.{view};
ghost use Rattle.json_fields.specs.Faults.{here};
ghost use Rattle.json_fields.specs.declared.faults.FieldFault.{FieldFault};
ghost use Rattle.json_fields.specs.declared.faults.FaultKind.TheVariants.{BadValue};
ghost use Rattle.json_fields.specs.declared.whys.Why.TheVariants.{TooMany};
ghost use Rattle.field_kinds.specs.Lists.{over, too_many, most_names};

use json_fields::{FaultKind, Form, Listed, ReadFault, Why, Written};
use serde_json::Value;
use std::alloc::{AllocError, Global};
use std::marker::{Model, PhantomData};

/// How many elements a list may have.
pub trait ListRule: Drop {
    ghost limit: { ℕ };

    /// How many elements a list may have.
    fn most() -> usize
        ensures { result ≡ limit };
}

/// At most 100 elements: the names of a query.
#[derive(Debug, Drop)]
pub struct QueryNames;

impl ListRule for QueryNames {
    ghost limit = { most_names };

    fn most() -> usize {
        100
    }
}

/// A list of no more elements than a rule allows.
#[derive(Debug, Drop)]
pub struct LimitedList<T, R: ListRule> {
    list: Listed<T>,
    rule: PhantomData<R>,
}

impl<T, R: ListRule> Model for LimitedList<T, R> {
    ghost use Rattle.std.specs.Prelude.{◌≤◌, List, length};

    ghost Value = { List T };

    ghost view = { λ l. l.list };

    ghost invariant = { λ l. length l.list ≤ R.limit };
}

impl<T, R: ListRule> LimitedList<T, R> {
    /// The elements, which are no more than the rule allows.
    pub fn as_slice(&self) -> &[T]
        ensures elements { result.now ≡ self.now }
        ensures few { length self.now ≤ R.limit }
    {
        self.list.as_slice()
    }
}

/// How many elements a list has, where they are too many.
fn too_many(most: usize, value: &Value) -> Option<usize>
    ensures { option_map (λ n. here (BadValue (TooMany n))) result
        ≡ too_many most (view value.now) }
{
    match value {
        Value::Array(list) => over(most, list),
        _ => None,
    }
}

fn over(most: usize, list: &[Value]) -> Option<usize>
    ensures { option_map (λ n. here (BadValue (TooMany n))) result ≡ over most (length list.now) }
{
    if list.len() > most {
        Some(list.len())
    } else {
        None
    }
}

impl<T: Form, R: ListRule> Form for LimitedList<T, R> {
    ghost use Rattle.json_fields.specs.Kinds.{empty_list, IsEach};
    ghost use Rattle.field_kinds.specs.Lists.{a_limited_list};

    ghost fault = { a_limited_list R.limit T.fault };

    ghost means = { IsEach T.means };

    ghost empty = { empty_list };

    fn is_empty(value: &Value) -> bool {
        <Listed<T> as Form>::is_empty(value)
    }

    fn read(alloc: Global, value: &Value) -> Result<LimitedList<T, R>, ReadFault> {
        if let Some(count) = too_many(R::most(), value) {
            return Err(ReadFault::here(alloc, FaultKind::BadValue(Why::TooMany(count))));
        }
        let list = <Listed<T> as Form>::read(alloc, value)?;
        Ok(LimitedList {
            list,
            rule: PhantomData,
        })
    }
}

impl<T: Written, R: ListRule> Written for LimitedList<T, R> {
    ghost use Rattle.json_fields.specs.Writing.{list_data, is_bare};

    ghost json = { list_data T.json };

    ghost blank = { is_bare };

    fn write(&self, alloc: Global) -> Result<Value, AllocError> {
        self.list.write(alloc)
    }
}
