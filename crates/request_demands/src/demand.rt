//! What a request demands of the world: a row of a table for each method.
ghost use Rattle.std.specs.Prelude.{◌≡◌};
ghost use Rattle.artifacts.specs.Orders.{invocation_of};
ghost use Rattle.request_demands.specs.Demands.{demand_of, nothing, of_artifacts, of_batch, to_create, to_show};

use crate::grants::Grant;
use artifacts::NewArtifact;
use message_forms::{LimitedText, Request, RequestId};
use names_realms::{ArtifactName, InvocationId, Moment, Parent, Realm, ResultName};
use permissions::Permission;
use std::marker::Model;
use std::slice::from_ref;

/// To list results is enough to be shown masked ones.
const LIST_RESULTS: Grant = Grant::Either(
    Permission::ListTestResults,
    Permission::ListLimitedTestResults,
);

/// So it is with exonerations.
const LIST_EXONERATIONS: Grant = Grant::Either(
    Permission::ListTestExonerations,
    Permission::ListLimitedTestExonerations,
);

/// What has to be so for a request to be accepted.
#[derive(Drop)]
pub struct Demand<'r> {
    /// The number of the request.
    pub number: Option<&'r LimitedText<RequestId>>,
    /// The invocations that have to be there, in the order in which they are looked for.
    pub named: &'r [InvocationId],
    /// Those to be included, which have to be there after them.
    pub included: &'r [InvocationId],
    /// The test result that has to be there behind these.
    pub row: Option<&'r ResultName>,
    /// The artifact that has to be there behind these.
    pub artifact: Option<&'r ArtifactName>,
    /// The one that is changed, and whose update token is shown.
    pub changed: Option<&'r InvocationId>,
    /// The one that has to be active.
    pub active: Option<&'r InvocationId>,
    /// The deadline that is given.
    pub deadline: Option<Moment>,
    /// The id of a new invocation, which has to be free.
    pub makes: Option<&'r InvocationId>,
    /// The realm of what is new, and what it takes there, in its order.
    pub realm: Option<&'r Realm>,
    pub takes: &'r [Grant],
    /// What it takes in the realm of each invocation that has to be there.
    pub of_named: &'r [Grant],
    /// What it takes in the realm of each one to be included.
    pub of_included: &'r [Grant],
}

impl<'r> Model for Demand<'r> {
    ghost use Rattle.std.specs.Prelude.{option_map};
    ghost use Rattle.request_demands.specs.Demands.{Demand};

    ghost Value = { Demand };

    ghost view = { λ d. record {
      number = option_map (λ number. number.now) d.number;
      named = d.named.now;
      included = d.included.now;
      row = option_map (λ name. name.now) d.row;
      artifact = option_map (λ name. name.now) d.artifact;
      changed = option_map (λ id. id.now) d.changed;
      active = option_map (λ id. id.now) d.active;
      deadline = d.deadline;
      makes = option_map (λ id. id.now) d.makes;
      realm = option_map (λ realm. realm.now) d.realm;
      takes = d.takes.now;
      of_named = d.of_named.now;
      of_included = d.of_included.now;
    } };
}

impl<'r> Demand<'r> {
    /// Nothing at all.
    fn nothing() -> Demand<'r>
        ensures { result ≡ nothing }
    {
        Demand {
            number: None,
            named: &[],
            included: &[],
            row: None,
            artifact: None,
            changed: None,
            active: None,
            deadline: None,
            makes: None,
            realm: None,
            takes: &[],
            of_named: &[],
            of_included: &[],
        }
    }

    /// What a batch of rows of an invocation demands.
    fn of_batch(
        number: &'r Option<LimitedText<RequestId>>,
        invocation: &'r InvocationId,
    ) -> Demand<'r>
        ensures { result ≡ of_batch number.now invocation.now }
    {
        Demand {
            number: number.as_ref(),
            named: from_ref(invocation),
            changed: Some(invocation),
            active: Some(invocation),
            ..Demand::nothing()
        }
    }

    /// What it demands that something of these invocations is shown.
    fn to_show(named: &'r [InvocationId], of_named: &'r [Grant]) -> Demand<'r>
        ensures { result ≡ to_show named.now of_named.now }
    {
        Demand {
            named,
            of_named,
            ..Demand::nothing()
        }
    }

    /// What a batch of artifacts demands, which stand in the invocation of the first.
    fn of_artifacts(
        number: &'r Option<LimitedText<RequestId>>,
        rows: &'r [NewArtifact],
    ) -> Demand<'r>
        ensures { result ≡ of_artifacts number.now rows.now }
    {
        match rows.first() {
            Some(first) => Demand::of_batch(number, invocation_of(&first.name.parent)),
            None => Demand {
                number: number.as_ref(),
                ..Demand::nothing()
            },
        }
    }
}

/// The invocation that holds the artifacts of a parent.
pub fn invocation_of(parent: &Parent) -> &InvocationId
    ensures { result.now ≡ invocation_of parent.now }
{
    match parent {
        Parent::Invocation(id) => id,
        Parent::Result(name) => &name.invocation,
    }
}

/// What a new invocation of this id takes: an id that begins with `u-` is for all who may create.
fn to_create(id: &InvocationId) -> &'static [Grant]
    ensures { result.now ≡ to_create id.now }
{
    if id.as_slice().starts_with(b"u-") {
        &[Grant::One(Permission::CreateInvocation)]
    } else {
        &[
            Grant::One(Permission::CreateInvocation),
            Grant::One(Permission::CreateWithReservedId),
        ]
    }
}

/// What a request demands.
pub fn demand_of(request: &Request) -> Demand<'_>
    ensures { result ≡ demand_of request.now }
{
    match request {
        Request::CreateInvocation(r) => Demand {
            number: r.request_id.as_ref(),
            makes: Some(&r.id),
            realm: Some(&r.invocation.realm),
            takes: to_create(&r.id),
            deadline: r.invocation.deadline,
            ..Demand::nothing()
        },
        Request::UpdateInvocation(r) => Demand {
            named: from_ref(&r.id),
            changed: Some(&r.id),
            active: Some(&r.id),
            deadline: r.deadline,
            ..Demand::nothing()
        },
        Request::FinalizeInvocation(r) => Demand {
            named: from_ref(&r.id),
            changed: Some(&r.id),
            ..Demand::nothing()
        },
        Request::UpdateIncludedInvocations(r) => Demand {
            named: from_ref(&r.including),
            included: r.add.as_slice(),
            changed: Some(&r.including),
            active: Some(&r.including),
            of_included: &[Grant::One(Permission::IncludeInvocation)],
            ..Demand::nothing()
        },
        Request::BatchCreateTestResults(r) => Demand::of_batch(&r.request_id, &r.invocation),
        Request::BatchCreateTestExonerations(r) => Demand::of_batch(&r.request_id, &r.invocation),
        Request::BatchCreateArtifacts(r) => {
            Demand::of_artifacts(&r.request_id, r.requests.as_slice())
        }
        Request::GetInvocation(r) => {
            Demand::to_show(from_ref(&r.id), &[Grant::One(Permission::GetInvocation)])
        }
        Request::GetTestResult(r) => Demand {
            row: Some(&r.name),
            ..Demand::to_show(
                from_ref(&r.name.invocation),
                &[Grant::One(Permission::GetTestResult)],
            )
        },
        Request::QueryTestResults(r) => {
            Demand::to_show(r.invocations.as_slice(), &[LIST_RESULTS])
        }
        Request::QueryTestVariants(r) => Demand::to_show(
            r.invocations.as_slice(),
            &[LIST_RESULTS, LIST_EXONERATIONS],
        ),
        Request::GetArtifact(r) => Demand {
            artifact: Some(&r.name),
            ..Demand::to_show(
                from_ref(invocation_of(&r.name.parent)),
                &[Grant::One(Permission::GetArtifact)],
            )
        },
        Request::ListArtifacts(r) => Demand::to_show(
            from_ref(invocation_of(&r.parent)),
            &[Grant::One(Permission::ListArtifacts)],
        ),
    }
}
