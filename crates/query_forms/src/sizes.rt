//! The sizes of pages, and limits of results.
ghost use Rattle.std.specs.Prelude.{◌≡◌, ◌<◌, ◌≤◌, None, IfOk, IfErr, OnOk};
ghost use Rattle.serde_json.specs.View.{view, members_view};
ghost use Rattle.json_fields.specs.Faults.{Says};
ghost use Rattle.query_forms.specs.Sizes.{a_size, IsSize, put_size, counted};

use field_kinds::{PageSize, Whole, or_default, write_unless_default};
use json_fields::{Name, ReadFault};
use serde_json::{Map, Value};
use std::alloc::{AllocError, Global};

/// Reads a size, which is 0 where it is unset.
pub(crate) fn read_size(
    alloc: Global,
    value: &Value,
    name: Name,
) -> Result<Whole<PageSize>, ReadFault>
    ensures ok { IfOk result (λ n. (a_size name (view value.now) ≡ None)
        × IsSize name (view value.now) n) }
    ensures err { IfErr result (λ e. Says e (a_size name (view value.now))) }
{
    or_default(alloc, value, name)
}

/// Puts a size, where it isn't 0.
pub(crate) fn put_size(
    alloc: Global,
    map: &mut Map<String, Value>,
    name: Name,
    size: &Whole<PageSize>,
) -> Result<(), AllocError>
    ensures { OnOk result (members_view map.new.entries
        ≡ put_size name size.now (members_view map.old.entries)) }
{
    write_unless_default(alloc, map, name, size)?;
    Ok(())
}

/// The size that counts: `unsaid` where 0 is said, and at most `most`.
pub(crate) fn counted(unsaid: u32, most: u32, size: &Whole<PageSize>) -> u32
    requires unsaid { 0 < unsaid }
    requires most { 0 < most }
    ensures value { result ≡ counted unsaid most size.now }
    ensures some { 0 < result }
{
    let said = size.get();
    if said == 0 {
        unsaid
    } else {
        said.min(u64::from(most)) as u32
    }
}
