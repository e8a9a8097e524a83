//! Refusals that a request earns by itself.
ghost use Rattle.std.specs.Prelude.{◌≡◌, Some, [], IfOk};
ghost use Rattle.call_forms.specs.Rules.{IsRuleNumber, refusal_answer};
ghost use Rattle.message_forms.specs.Refusals.{refusal_of as refusal_of_fault};
ghost use Rattle.call_forms.specs.declared.forms.Refusal.{Refusal};
ghost use Rattle.request_demands.specs.Alone.{refusal, target_of};

use call_forms::{Answer, Asked, Refusal, write_refusal};
use lists::Bytes;
use message_forms::{FormFault, refusal_of};
use std::alloc::{AllocError, Global};

/// The rule that the method is one that is served.
const NO_METHOD: u8 = 1;

/// The rule that the bearer token is a user's.
const NO_CALLER: u8 = 2;

/// The answer by a rule, with what breaks it.
fn refused(alloc: Global, rule: u8, subject: Vec<u8>) -> Result<Answer, AllocError>
    requires { IsRuleNumber rule }
    ensures { IfOk result (λ answer. answer ≡ refusal_answer (refusal rule subject.items)) }
{
    let subject = Bytes::new(subject);
    write_refusal(alloc, &Refusal { rule, subject })
}

/// What a request aims at.
fn target_of(alloc: Global, asked: &Asked) -> Result<Vec<u8>, AllocError>
    ensures { IfOk result (λ target. target.items ≡ target_of asked.now) }
{
    let method = asked.method.as_slice();
    let service = asked.service.as_slice();
    if service.is_empty() {
        return Vec::from_slice(alloc, method);
    }
    let mut target = Vec::from_slice(alloc, b"/prpc/")?;
    target.extend_from_slice(service)?;
    target.push(b'/')?;
    target.extend_from_slice(method)?;
    Ok(target)
}

/// The answer to a method that isn't there.
pub(crate) fn no_method(alloc: Global, asked: &Asked) -> Result<Answer, AllocError>
    ensures { IfOk result (λ answer. answer ≡ refusal_answer (refusal 1 (target_of asked.now))) }
{
    refused(alloc, NO_METHOD, target_of(alloc, asked)?)
}

/// The answer to a request of nobody's.
pub(crate) fn no_caller(alloc: Global) -> Result<Answer, AllocError>
    ensures { IfOk result (λ answer. answer ≡ refusal_answer (refusal 2 [])) }
{
    refused(alloc, NO_CALLER, Vec::new(alloc))
}

/// The answer to a body that isn't read.
pub(crate) fn bad_body(
    alloc: Global,
    asked: &Asked,
    fault: &FormFault,
) -> Result<Answer, AllocError>
    ensures { IfOk result (λ answer. (r : Refusal)
        × (refusal_of_fault (target_of asked.now) fault.now ≡ Some r)
        × (answer ≡ refusal_answer r)) }
{
    let target = target_of(alloc, asked)?;
    let refusal = refusal_of(alloc, target.as_slice(), fault)?;
    write_refusal(alloc, &refusal)
}
