//! Fields of a row, each read as the value that the row keeps.
ghost use Rattle.std.specs.Prelude.{◌≡◌, None, [], false, IfOk, IfErr};
ghost use Rattle.serde_json.specs.View.{view};
ghost use Rattle.json_fields.specs.Faults.{Says};
ghost use Rattle.json_fields.specs.Fields.{optional, set_at, filled_at};
ghost use Rattle.json_fields.specs.Kinds.{a_list, HoldsList};
ghost use Rattle.field_kinds.specs.PairKinds.Tags.{a_tag, IsTag};
ghost use Rattle.field_kinds.specs.Defaults.{HoldsOr};
ghost use Rattle.field_kinds.specs.Filled.{optional_filled};
ghost use Rattle.field_kinds.specs.Flags.{a_flag, IsFlag};
ghost use Rattle.field_kinds.specs.Properties.{a_properties, empty_object};
ghost use Rattle.field_kinds.specs.Variants.{a_variant, IsVariant};
ghost use Rattle.result_forms.specs.Fields.{html, a_reason, IsUtf8Text, IsReason, IsPropertiesOf};

use crate::reasons::Reason;
use field_kinds::{
    Flag, Html, LimitedText, Properties, Tag, VariantMap, optional_filled, or_default, pairs_from,
};
use json_fields::{Name, ReadFault, optional, optional_list};
use lists::{Bytes, Listed};
use names_realms::{Pair, Variant};
use serde_json::Value;
use std::alloc::Global;

/// A variant, the empty one where it is unset.
pub(crate) fn read_variant(alloc: Global, value: &Value, name: Name) -> Result<Variant, ReadFault>
    ensures ok { IfOk result (λ v. (optional name a_variant (view value.now) ≡ None)
        × HoldsOr IsVariant [] (set_at name (view value.now)) v) }
    ensures err { IfErr result (λ e. Says e (optional name a_variant (view value.now))) }
{
    match or_default::<VariantMap>(alloc, value, name) {
        Ok(map) => Ok(map.into_variant()),
        Err(fault) => Err(fault),
    }
}

/// A flag, off where it is unset.
pub(crate) fn read_flag(alloc: Global, value: &Value, name: Name) -> Result<bool, ReadFault>
    ensures ok { IfOk result (λ on. (optional name a_flag (view value.now) ≡ None)
        × HoldsOr IsFlag false (set_at name (view value.now)) on) }
    ensures err { IfErr result (λ e. Says e (optional name a_flag (view value.now))) }
{
    match optional::<Flag>(alloc, value, name) {
        Ok(Some(flag)) => Ok(flag.on),
        Ok(None) => Ok(false),
        Err(fault) => Err(fault),
    }
}

/// A summary or an explanation, empty where it is unset.
pub(crate) fn read_html(alloc: Global, value: &Value, name: Name) -> Result<Bytes, ReadFault>
    ensures ok { IfOk result (λ text. (optional name html (view value.now) ≡ None)
        × HoldsOr IsUtf8Text [] (set_at name (view value.now)) text) }
    ensures err { IfErr result (λ e. Says e (optional name html (view value.now))) }
{
    match or_default::<LimitedText<Html>>(alloc, value, name) {
        Ok(text) => Ok(text.into_bytes()),
        Err(fault) => Err(fault),
    }
}

/// The pairs that tags are.
pub(crate) fn read_tags(alloc: Global, value: &Value, name: Name) -> Result<Listed<Pair>, ReadFault>
    ensures ok { IfOk result (λ tags. (optional name (a_list a_tag) (view value.now) ≡ None)
        × HoldsList IsTag (set_at name (view value.now)) tags) }
    ensures err { IfErr result (λ e. Says e (optional name (a_list a_tag) (view value.now))) }
{
    match optional_list::<Tag>(alloc, value, name) {
        Ok(tags) => Ok(pairs_from(alloc, tags)?),
        Err(fault) => Err(fault),
    }
}

/// The message of a failure's reason, empty where there is no reason.
pub(crate) fn read_message(alloc: Global, value: &Value, name: Name) -> Result<Bytes, ReadFault>
    ensures ok { IfOk result (λ text. (optional name a_reason (view value.now) ≡ None)
        × HoldsOr IsReason [] (set_at name (view value.now)) text) }
    ensures err { IfErr result (λ e. Says e (optional name a_reason (view value.now))) }
{
    match optional::<Reason>(alloc, value, name) {
        Ok(Some(reason)) => Ok(reason.into_message()),
        Ok(None) => Ok(Bytes::new(Vec::new(alloc))),
        Err(fault) => Err(fault),
    }
}

/// The text of properties, empty where there are none.
pub(crate) fn read_properties(alloc: Global, value: &Value, name: Name) -> Result<Bytes, ReadFault>
    ensures ok { IfOk result (λ text.
        (optional_filled name empty_object a_properties (view value.now) ≡ None)
        × HoldsOr IsPropertiesOf [] (filled_at name empty_object (view value.now)) text) }
    ensures err { IfErr result (λ e.
        Says e (optional_filled name empty_object a_properties (view value.now))) }
{
    match optional_filled::<Properties>(alloc, value, name) {
        Ok(Some(kept)) => Ok(kept.into_bytes()),
        Ok(None) => Ok(Bytes::new(Vec::new(alloc))),
        Err(fault) => Err(fault),
    }
}
