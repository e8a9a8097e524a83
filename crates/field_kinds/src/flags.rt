//! Flags: true, or false.

use crate::defaults::Defaulted;
use json_fields::{FaultKind, Form, ReadFault, Written};
use serde_json::Value;
use std::alloc::{AllocError, Global};

/// A flag.
#[derive(Clone, Copy, Debug, PartialEq, Eq)]
pub struct Flag {
    pub on: bool,
}

impl Form for Flag {
    ghost use Rattle.json_fields.specs.Kinds.{never_empty};
    ghost use Rattle.field_kinds.specs.Flags.{a_flag, IsFlag};

    ghost fault = { a_flag };

    ghost means = { λ d x. IsFlag d x.on };

    ghost empty = { never_empty };

    fn is_empty(_value: &Value) -> bool {
        false
    }

    fn read(alloc: Global, value: &Value) -> Result<Flag, ReadFault> {
        match value {
            Value::Bool(flag) => Ok(Flag { on: *flag }),
            _ => Err(ReadFault::here(alloc, FaultKind::WrongKind)),
        }
    }
}

impl Written for Flag {
    ghost use Rattle.std.specs.Prelude.{false};
    ghost use Rattle.serde_json.specs.Data.{boolean};

    ghost json = { λ x. boolean x.on };

    ghost blank = { λ _. false };

    fn write(&self, _alloc: Global) -> Result<Value, AllocError> {
        Ok(Value::Bool(self.on))
    }
}

/// The default of a flag is that it is off.
impl Defaulted for Flag {
    ghost use Rattle.std.specs.Prelude.{false};

    ghost unset = { record { on = false } };

    fn default_value(_alloc: Global) -> Result<Flag, AllocError> {
        Ok(Flag { on: false })
    }

    #[tactic(auto, using(crate::proofs::DefaultLaws::flag_off))]
    fn is_default(&self) -> bool {
        !self.on
    }
}
