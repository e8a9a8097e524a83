//! The reason of a failure, of which the message is kept.
ghost use Rattle.std.specs.Prelude.{◌≡◌, None, IfOk, IfErr};
ghost use Rattle.serde_json.specs.View.{view};
ghost use Rattle.json_fields.specs.Faults.{Says};
ghost use Rattle.json_fields.specs.Fields.{optional, set_at};

use crate::names::primary_error_message;
use field_kinds::{LimitedText, Message, or_default};
use json_fields::{Form, ReadFault, object};
use lists::Bytes;
use serde_json::Value;
use std::alloc::Global;
use std::marker::Model;

/// The reason of a failure. Contracts see it as the bytes of its message.
#[derive(Drop)]
pub(crate) struct Reason {
    message: Bytes,
}

impl Model for Reason {
    ghost use Rattle.std.specs.Prelude.{ℕ, List};

    ghost Value = { List ℕ };

    ghost view = { λ r. r.message };
}

impl Reason {
    /// The bytes of its message, moved out.
    pub(crate) fn into_message(self) -> Bytes
        ensures { result ≡ self }
    {
        self.message
    }
}

impl Form for Reason {
    ghost use Rattle.json_fields.specs.Kinds.{never_empty};
    ghost use Rattle.result_forms.specs.Fields.{a_reason, IsReason};

    ghost fault = { a_reason };

    ghost means = { IsReason };

    ghost empty = { never_empty };

    fn is_empty(_value: &Value) -> bool {
        false
    }

    #[tactic(auto, unfolding(crate::specs::Fields::a_reason))]
    fn read(alloc: Global, value: &Value) -> Result<Reason, ReadFault> {
        object(alloc, value)?;
        match or_default::<LimitedText<Message>>(alloc, value, primary_error_message()) {
            Ok(text) => Ok(Reason {
                message: text.into_bytes(),
            }),
            Err(fault) => Err(fault),
        }
    }
}
