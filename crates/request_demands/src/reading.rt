//! What a request says by itself, whatever the world and the moment.
ghost use Rattle.std.specs.Prelude.{◌≡◌, ◌<◌, Some, IfOk, IfSome, IsSome, length};
ghost use Rattle.message_forms.specs.Methods.{method_of};
ghost use Rattle.request_demands.specs.Settings.{caller_of};
ghost use Rattle.request_demands.specs.Demands.{Demand, demand_of};
ghost use Rattle.request_demands.specs.Understood.{IsChecked, IsUnderstood, length_for};

use crate::demand::{Demand, demand_of};
use crate::numbers::digest_for;
use crate::refusals::{bad_body, no_caller, no_method};
use call_forms::{Answer, Asked};
use message_forms::{Method, Request, read_request};
use names_realms::InvocationId;
use permissions::{CallerId, Policy};
use recorded_calls::record_length;
use std::alloc::{AllocError, Global};
use update_tokens::token_is;

/// What the update token of a request comes to.
#[derive(Clone, Copy)]
pub enum TokenCheck {
    /// The request changes an invocation, and shows no token.
    Missing,
    /// It shows another one.
    Wrong,
    /// It shows the right one.
    Right,
    /// None is asked.
    Unasked,
}

/// What a caller asks for, with what its update token comes to, the digest by which a repeat of it
/// is known, where it has a number, and how many bytes its record takes in a journal.
#[derive(Drop)]
pub struct Call {
    pub caller: CallerId,
    pub request: Request,
    pub token: TokenCheck,
    pub digest: Option<[u8; 32]>,
    pub length: u64,
}

/// What is understood of a request.
#[derive(Drop)]
pub enum Understood {
    /// It breaks a rule by itself, and this is the answer.
    Refused(Answer),
    /// A caller asks for this.
    Wanted(Call),
}

/// The caller who shows the bearer token of a request.
pub fn caller_of(policy: &Policy, asked: &Asked) -> Option<CallerId>
    ensures caller { result ≡ caller_of (record { policy = policy.now }) asked.now.bearer }
    ensures there { IfSome result (λ c. c < length policy.now.users) }
{
    match &asked.bearer {
        Some(token) => policy.caller_of(token.as_slice()),
        None => None,
    }
}

/// What the update token that a request shows comes to, where it changes the invocation with this
/// id. The token is compared in the same time wherever it differs.
fn check_shown(policy: &Policy, asked: &Asked, id: &InvocationId) -> TokenCheck
    ensures { (d : Demand) → d.changed ≡ Some id.now
        → IsChecked (record { policy = policy.now }) asked.now d result }
{
    match &asked.update_token {
        None => TokenCheck::Missing,
        Some(text) => {
            if token_is(policy.secret(), id, text.as_slice()) {
                TokenCheck::Right
            } else {
                TokenCheck::Wrong
            }
        }
    }
}

/// What the update token of a request comes to, by what the request demands.
fn check_demand(policy: &Policy, asked: &Asked, demand: &Demand) -> TokenCheck
    ensures { IsChecked (record { policy = policy.now }) asked.now demand.now result }
{
    match demand.changed {
        Some(id) => check_shown(policy, asked, id),
        None => TokenCheck::Unasked,
    }
}

/// What the update token of a request comes to.
fn check_token(policy: &Policy, asked: &Asked, request: &Request) -> TokenCheck
    ensures { IsChecked (record { policy = policy.now }) asked.now (demand_of request.now) result }
{
    check_demand(policy, asked, &demand_of(request))
}

/// How many bytes the record takes of what a caller asks.
fn length_for(policy: &Policy, asked: &Asked, caller: CallerId) -> u64
    requires { caller < length policy.now.users }
    ensures { result ≡ length_for (record { policy = policy.now }) asked.now caller }
{
    let _ = policy.tables();
    record_length(policy.name_of(caller), asked.body.as_slice())
}

/// Understands the body of a request whose method is there.
fn understand_body(
    alloc: Global,
    policy: &Policy,
    asked: &Asked,
    caller: CallerId,
) -> Result<Understood, AllocError>
    requires method { IsSome (method_of asked.now.service asked.now.method) }
    requires caller { caller_of (record { policy = policy.now }) asked.now.bearer ≡ Some caller }
    ensures { IfOk result (IsUnderstood (record { policy = policy.now }) asked.now) }
{
    let service = asked.service.as_slice();
    let method = asked.method.as_slice();
    match read_request(alloc, service, method, asked.body.as_slice()) {
        Ok(request) => {
            let token = check_token(policy, asked, &request);
            let digest = digest_for(asked, &request);
            let length = length_for(policy, asked, caller);
            Ok(Understood::Wanted(Call {
                caller,
                request,
                token,
                digest,
                length,
            }))
        }
        Err(fault) => Ok(Understood::Refused(bad_body(alloc, asked, &fault)?)),
    }
}

/// Understands a request: its method is looked up first, then its caller, and only then its body
/// is read. `Err` where there is no memory.
pub fn understand(alloc: Global, policy: &Policy, asked: &Asked) -> Result<Understood, AllocError>
    ensures { IfOk result (IsUnderstood (record { policy = policy.now }) asked.now) }
{
    let Some(_) = Method::of(asked.service.as_slice(), asked.method.as_slice()) else {
        return Ok(Understood::Refused(no_method(alloc, asked)?));
    };
    let Some(caller) = caller_of(policy, asked) else {
        return Ok(Understood::Refused(no_caller(alloc)?));
    };
    understand_body(alloc, policy, asked, caller)
}
