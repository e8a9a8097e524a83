//! An exoneration as a request says it.
ghost use Rattle.std.specs.Prelude.{◌≡◌};

use crate::names::{explanation_html, test_id, variant};
use crate::values::{read_html, read_variant};
use json_fields::{Form, ReadFault, object, required};
use serde_json::Value;
use std::alloc::Global;
use std::marker::Model;
use test_results::TestExoneration;

/// An exoneration that a request says. Contracts see it as the row.
#[derive(Drop)]
pub(crate) struct NewExoneration {
    row: TestExoneration,
}

impl Model for NewExoneration {
    ghost use Rattle.test_results.specs.declared.exoneration.TestExoneration.{TestExoneration};

    ghost Value = { TestExoneration };

    ghost view = { λ n. n.row };
}

impl NewExoneration {
    /// The row, moved out.
    pub(crate) fn into_row(self) -> TestExoneration
        ensures { result ≡ self }
    {
        self.row
    }
}

impl Form for NewExoneration {
    ghost use Rattle.json_fields.specs.Kinds.{never_empty};
    ghost use Rattle.result_forms.specs.Exonerations.{an_exoneration, IsExoneration};

    ghost fault = { an_exoneration };

    ghost means = { IsExoneration };

    ghost empty = { never_empty };

    fn is_empty(_value: &Value) -> bool {
        false
    }

    #[tactic(auto, unfolding(crate::proofs::Opened::fields))]
    fn read(alloc: Global, value: &Value) -> Result<NewExoneration, ReadFault> {
        object(alloc, value)?;
        let test = required(alloc, value, test_id())?;
        let variant = read_variant(alloc, value, variant())?;
        match read_html(alloc, value, explanation_html()) {
            Ok(explanation) => Ok(NewExoneration {
                row: TestExoneration {
                    holder: 0,
                    place: 0,
                    test,
                    variant,
                    explanation,
                },
            }),
            Err(fault) => Err(fault),
        }
    }
}
