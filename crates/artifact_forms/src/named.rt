//! Requests that show an artifact.
ghost use Rattle.std.specs.Prelude.{◌≡◌, IfOk};
ghost use Rattle.serde_json.specs.View.{view};
ghost use Rattle.result_forms.specs.Laws.{IsReadAgain};
ghost use Rattle.artifact_forms.specs.Methods.{artifact_form};
ghost use Rattle.artifact_forms.specs.Named.{named_data};

use crate::names::name;
use crate::written::put_text;
use json_fields::{Form, ReadFault, SpelledOut, object, required};
use names_realms::ArtifactName;
use serde_json::{Map, Value};
use std::alloc::{AllocError, Global};

/// A request that an artifact be shown.
#[derive(Drop)]
pub struct GetArtifact {
    pub name: ArtifactName,
}

impl Form for GetArtifact {
    ghost use Rattle.json_fields.specs.Kinds.{never_empty};
    ghost use Rattle.artifact_forms.specs.Named.{a_named, IsNamed};

    ghost fault = { a_named };

    ghost means = { λ d q. IsNamed d q.name };

    ghost empty = { never_empty };

    fn is_empty(_value: &Value) -> bool {
        false
    }

    #[tactic(auto, unfolding(crate::specs::Named::a_named))]
    fn read(alloc: Global, value: &Value) -> Result<GetArtifact, ReadFault> {
        object(alloc, value)?;
        match required::<ArtifactName>(alloc, value, name()) {
            Ok(name) => Ok(GetArtifact { name }),
            Err(fault) => Err(fault),
        }
    }
}

/// What is written of an artifact's name.
fn named_value(alloc: Global, artifact: &ArtifactName) -> Result<Value, AllocError>
    ensures { IfOk result (λ v. view v ≡ named_data artifact.now) }
{
    let mut map = Map::new(alloc);
    let text = artifact.to_spelling(alloc)?;
    put_text(alloc, &mut map, name(), text)?;
    Ok(Value::Object(map))
}

impl GetArtifact {
    /// What is written of the request, which is read again where the name is of its grammar. `Err`
    /// where there is no memory for it.
    pub fn write(&self, alloc: Global) -> Result<Value, AllocError>
        ensures value { IfOk result (λ v. view v ≡ artifact_form.json self.now) }
        ensures again { artifact_form.CanBeAsked self.now → IsReadAgain artifact_form self.now }
    {
        named_value(alloc, &self.name)
    }
}
