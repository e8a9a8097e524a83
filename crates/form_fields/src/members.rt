//! Members of an object, of which some are left out.
ghost use Rattle.std.specs.Prelude.{◌≡◌, OnOk, option_map};
ghost use Rattle.serde_json.specs.View.{view, members_view};
ghost use Rattle.form_fields.specs.Members.{put_some};

use json_fields::{Name, put};
use serde_json::{Map, Value};
use std::alloc::{AllocError, Global};

/// Puts a value under a name, where there is one. `Err` where there is no memory for it.
pub fn put_some(
    alloc: Global,
    map: &mut Map<String, Value>,
    name: Name,
    value: Option<Value>,
) -> Result<(), AllocError>
    ensures { OnOk result (members_view map.new.entries
        ≡ put_some name (option_map view value) (members_view map.old.entries)) }
{
    match value {
        Some(value) => put(alloc, map, &name, value),
        None => Ok(()),
    }
}
