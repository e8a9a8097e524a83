//! Broken rules whose texts aren't written yet.
ghost use Rattle.std.specs.Prelude.{◌≡◌, ◌++◌, IfOk, codes, decimal};
ghost use Rattle.moments_spans.specs.Moments.{moment_text};
ghost use Rattle.names_realms.specs.ResultNames.{result_name};
ghost use Rattle.names_realms.specs.ArtifactNames.{artifact_name};
ghost use Rattle.policy_checks.specs.Permissions.{permission_text};
ghost use Rattle.call_forms.specs.Rules.{refusal_answer};
ghost use Rattle.request_demands.specs.InvocationForms.Replies.{state_text};
ghost use Rattle.request_rules.specs.Broken.{number_of};
ghost use Rattle.request_rules.specs.Breaches.{refusal_of};

use crate::rules::Rule;
use call_forms::{Answer, Refusal, write_refusal};
use lists::Bytes;
use names_realms::{ArtifactName, InvocationId, Moment, Realm, ResultName, State};
use permissions::Permission;
use request_demands::{LimitedText, RequestId, state_name};
use std::alloc::{AllocError, Global};

/// A rule that a request breaks, with what breaks it. It is found without memory.
#[derive(Clone, Copy)]
pub enum Breach<'r> {
    /// Another request was accepted under the number of the request.
    RequestIdReused {
        number: &'r LimitedText<RequestId>,
    },
    /// An invocation that the request names isn't there.
    NotFound {
        id: &'r InvocationId,
    },
    /// The result that the request names isn't there.
    NoResult {
        name: &'r ResultName,
    },
    /// The artifact that the request names isn't there.
    NoArtifact {
        name: &'r ArtifactName,
    },
    /// The request changes the invocation, and shows no update token.
    NoUpdateToken {
        id: &'r InvocationId,
    },
    /// It shows another token than the invocation's.
    BadUpdateToken {
        id: &'r InvocationId,
    },
    /// The caller lacks the permission in the realm.
    Denied {
        permission: Permission,
        realm: &'r Realm,
    },
    /// The invocation that the request changes isn't active.
    NotActive {
        id: &'r InvocationId,
        state: State,
    },
    /// The deadline isn't in reach of the moment of the call.
    DeadlineRange {
        deadline: Moment,
        moment: Moment,
    },
    /// The invocation would include itself.
    Itself {
        id: &'r InvocationId,
    },
    /// The request names so many invocations to include, which are more than it may.
    TooMany {
        count: usize,
    },
    /// An invocation has the id.
    Taken {
        id: &'r InvocationId,
    },
}

/// A permission and a realm, with a space between.
fn right_text(alloc: Global, permission: Permission, realm: &Realm) -> Result<Vec<u8>, AllocError>
    ensures { IfOk result (λ text.
        text.items ≡ permission_text permission ++ (codes " " ++ realm.now)) }
{
    let name = permission.text();
    let realm = realm.as_str();
    Ok(format!(in alloc; "{name} {realm}")?.into_bytes())
}

/// Two moments, with a space between.
fn moments_text(alloc: Global, first: Moment, second: Moment) -> Result<Vec<u8>, AllocError>
    ensures { IfOk result (λ text.
        text.items ≡ moment_text first ++ (codes " " ++ moment_text second)) }
{
    let mut text = Vec::new(alloc);
    first.write_to(alloc, &mut text)?;
    text.push(b' ')?;
    second.write_to(alloc, &mut text)?;
    Ok(text)
}

/// The name of an invocation.
fn name_text(alloc: Global, id: &InvocationId) -> Result<Vec<u8>, AllocError>
    ensures { IfOk result (λ text. text.items ≡ codes "invocations/" ++ id.now) }
{
    let id = id.as_str();
    Ok(format!(in alloc; "invocations/{id}")?.into_bytes())
}

/// The name of a result.
fn result_text(alloc: Global, name: &ResultName) -> Result<Vec<u8>, AllocError>
    ensures { IfOk result (λ text. text.items ≡ result_name name.now) }
{
    let mut text = Vec::new(alloc);
    name.write_to(alloc, &mut text)?;
    Ok(text)
}

/// The name of an artifact.
fn artifact_text(alloc: Global, name: &ArtifactName) -> Result<Vec<u8>, AllocError>
    ensures { IfOk result (λ text. text.items ≡ artifact_name name.now) }
{
    let mut text = Vec::new(alloc);
    name.write_to(alloc, &mut text)?;
    Ok(text)
}

/// The name of an invocation and its state, with a space between.
fn state_of(alloc: Global, id: &InvocationId, state: State) -> Result<Vec<u8>, AllocError>
    ensures { IfOk result (λ text.
        text.items ≡ (codes "invocations/" ++ id.now) ++ (codes " " ++ state_text state)) }
{
    let mut text = name_text(alloc, id)?;
    text.push(b' ')?;
    text.extend_from_slice(state_name(state).as_bytes())?;
    Ok(text)
}

/// A number.
fn number_text(alloc: Global, number: usize) -> Result<Vec<u8>, AllocError>
    ensures { IfOk result (λ text. text.items ≡ decimal number) }
{
    Ok(format!(in alloc; "{number}")?.into_bytes())
}

impl Breach<'_> {
    /// The broken rule.
    fn rule(&self) -> Rule
        ensures { number_of result ≡ (refusal_of self.now).rule }
    {
        match self {
            Breach::RequestIdReused { .. } => Rule::RequestIdReused,
            Breach::NotFound { .. } => Rule::NotFound,
            Breach::NoResult { .. } => Rule::NotFound,
            Breach::NoArtifact { .. } => Rule::NotFound,
            Breach::NoUpdateToken { .. } => Rule::NoUpdateToken,
            Breach::BadUpdateToken { .. } => Rule::BadUpdateToken,
            Breach::Denied { .. } => Rule::Denied,
            Breach::NotActive { .. } => Rule::NotActive,
            Breach::DeadlineRange { .. } => Rule::DeadlineRange,
            Breach::Itself { .. } => Rule::Itself,
            Breach::TooMany { .. } => Rule::TooMany,
            Breach::Taken { .. } => Rule::Taken,
        }
    }

    /// What breaks it.
    fn subject(&self, alloc: Global) -> Result<Vec<u8>, AllocError>
        ensures { IfOk result (λ text. text.items ≡ (refusal_of self.now).subject) }
    {
        match *self {
            Breach::RequestIdReused { number } => {
                Vec::from_slice(alloc, number.as_str().as_bytes())
            }
            Breach::NotFound { id } => name_text(alloc, id),
            Breach::NoResult { name } => result_text(alloc, name),
            Breach::NoArtifact { name } => artifact_text(alloc, name),
            Breach::NoUpdateToken { id } => name_text(alloc, id),
            Breach::BadUpdateToken { id } => name_text(alloc, id),
            Breach::Denied { permission, realm } => right_text(alloc, permission, realm),
            Breach::NotActive { id, state } => state_of(alloc, id, state),
            Breach::DeadlineRange { deadline, moment } => moments_text(alloc, deadline, moment),
            Breach::Itself { id } => name_text(alloc, id),
            Breach::TooMany { count } => number_text(alloc, count),
            Breach::Taken { id } => name_text(alloc, id),
        }
    }

    /// The answer that names the rule, and what breaks it. `Err` where there is no memory for its
    /// text.
    pub fn answer(&self, alloc: Global) -> Result<Answer, AllocError>
        ensures { IfOk result (λ answer. answer ≡ refusal_answer (refusal_of self.now)) }
    {
        let rule = self.rule().number();
        let subject = Bytes::new(self.subject(alloc)?);
        write_refusal(alloc, &Refusal { rule, subject })
    }
}
