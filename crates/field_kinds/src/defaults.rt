//! Fields with a default: it is read where the field is unset, and left out where it is written.
ghost use Rattle.std.specs.Prelude.{◌≡◌, ◌↔◌, IsTrue, None, IfOk, IfErr, OnOk};
ghost use Rattle.serde_json.specs.Data.{object};
ghost use Rattle.serde_json.specs.View.{view, members_view};
ghost use Rattle.json_fields.specs.Faults.{Says};
ghost use Rattle.json_fields.specs.Fields.{member, optional, set_at};
ghost use Rattle.field_kinds.specs.Defaults.{HoldsOr, IsReadAs, PutsUnless};

use json_fields::{Name, ReadFault, Written, optional, write_required};
use pair_kinds::{LimitedText, MayBeEmpty};
use serde_json::{Map, Value};
use std::alloc::{AllocError, Global};

/// A kind with a default: `unset`, which an unset field stands for.
pub trait Defaulted: Written {
    ghost unset: { Self };

    /// The default. `Err` where there is no memory for it.
    fn default_value(alloc: Global) -> Result<Self, AllocError>
        ensures { IfOk result (λ x. x ≡ unset) };

    /// Whether it is the default.
    fn is_default(&self) -> bool
        ensures { IsTrue result ↔ (self.now ≡ unset) };
}

/// The default of a text that may be empty is the empty one.
impl<R: MayBeEmpty> Defaulted for LimitedText<R> {
    ghost use Rattle.std.specs.Prelude.{[]};

    ghost unset = { [] };

    fn default_value(alloc: Global) -> Result<LimitedText<R>, AllocError> {
        Ok(LimitedText::empty(alloc))
    }

    #[tactic(auto, using(crate::proofs::DefaultLaws::list_bare))]
    fn is_default(&self) -> bool {
        self.as_str().is_empty()
    }
}

/// A field that may be unset, or null, and is the default then.
pub fn or_default<T: Defaulted>(alloc: Global, value: &Value, name: Name) -> Result<T, ReadFault>
    ensures ok { IfOk result (λ x. (optional name T.fault (view value.now) ≡ None)
        × HoldsOr T.means T.unset (set_at name (view value.now)) x) }
    ensures err { IfErr result (λ e. Says e (optional name T.fault (view value.now))) }
{
    match optional::<T>(alloc, value, name) {
        Ok(Some(x)) => Ok(x),
        Ok(None) => {
            let x = T::default_value(alloc)?;
            Ok(x)
        }
        Err(fault) => Err(fault),
    }
}

/// Writes a field with a default: nothing where it is that. Beside members without this name it is
/// read again.
pub fn write_unless_default<T: Defaulted>(
    alloc: Global,
    map: &mut Map<String, Value>,
    name: Name,
    x: &T,
) -> Result<(), AllocError>
    ensures members { OnOk result (PutsUnless name T.json T.unset x.now
        (members_view map.old.entries) (members_view map.new.entries)) }
    ensures again { OnOk result (member name (object (members_view map.old.entries)) ≡ None
        → IsReadAs T.fault T.means T.unset name (members_view map.new.entries) x.now) }
{
    if x.is_default() {
        return Ok(());
    }
    write_required(alloc, map, name, x)?;
    Ok(())
}
