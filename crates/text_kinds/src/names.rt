//! Invocations by their names, and the ids that these name.
#![tactic(auto, using(crate::proofs::NameLaws::invocation_names))]

ghost use Rattle.std.specs.Prelude.{◌≡◌, ℕ, List, IfOk};

use json_fields::{InvocationId, Listed, NameFault, Spelled, SpelledOut};
use std::alloc::{AllocError, Global};
use std::marker::Model;

/// An invocation by its name: `invocations/` and the id. Contracts see it as the id.
#[derive(Debug, Drop)]
pub struct InvocationName {
    id: InvocationId,
}

impl Model for InvocationName {
    ghost Value = { List ℕ };

    ghost view = { λ n. n.id };
}

impl InvocationName {
    /// The id.
    pub fn id(&self) -> &InvocationId
        ensures { result.now ≡ self.now }
    {
        &self.id
    }

    /// The id, moved out.
    pub fn into_id(self) -> InvocationId
        ensures { result ≡ self }
    {
        self.id
    }
}

impl Spelled for InvocationName {
    ghost use Rattle.json_fields.specs.NamesRealms.Names.{invocation_name_fault, IsInvocationName};

    ghost text_fault = { invocation_name_fault };

    ghost spells = { λ text x. IsInvocationName x text };

    fn parse_text(alloc: Global, text: &[u8]) -> Result<InvocationName, NameFault> {
        let id = InvocationId::parse_name(alloc, text)?;
        Ok(InvocationName { id })
    }
}

impl SpelledOut for InvocationName {
    ghost use Rattle.json_fields.specs.NamesRealms.Names.{invocation_name};

    ghost spelling = { λ x. invocation_name x };

    fn to_spelling(&self, alloc: Global) -> Result<String, AllocError> {
        let id = self.id().as_str();
        format!(in alloc; "invocations/{id}")
    }
}

/// The ids of invocations that are named, moved. `Err` where there is no memory for the list.
pub fn ids_from(
    alloc: Global,
    names: Listed<InvocationName>,
) -> Result<Listed<InvocationId>, AllocError>
    ensures { IfOk result (λ ids. ids ≡ names) }
{
    let mut ids = Vec::with_capacity(alloc, names.len())?;
    for name in names.into_vec() {
        ids.push(name.into_id())?;
    }
    Ok(Listed::new(ids))
}
