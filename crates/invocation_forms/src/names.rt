//! The names of the members of messages.
ghost use Rattle.std.specs.Prelude.{◌≡◌};
ghost use Rattle.invocation_forms.specs.Names.{request_id, invocation_id, invocation, realm, deadline, tags};
ghost use Rattle.invocation_forms.specs.Names.{name, update_mask, including_invocation};
ghost use Rattle.invocation_forms.specs.Names.{add_invocations, remove_invocations};

use json_fields::Name;

pub(crate) fn request_id() -> Name
    ensures { result ≡ request_id }
{
    Name::new("requestId", "request_id")
}

pub(crate) fn invocation_id() -> Name
    ensures { result ≡ invocation_id }
{
    Name::new("invocationId", "invocation_id")
}

pub(crate) fn invocation() -> Name
    ensures { result ≡ invocation }
{
    Name::word("invocation")
}

pub(crate) fn realm() -> Name
    ensures { result ≡ realm }
{
    Name::word("realm")
}

pub(crate) fn deadline() -> Name
    ensures { result ≡ deadline }
{
    Name::word("deadline")
}

pub(crate) fn tags() -> Name
    ensures { result ≡ tags }
{
    Name::word("tags")
}

pub(crate) fn name() -> Name
    ensures { result ≡ name }
{
    Name::word("name")
}

pub(crate) fn update_mask() -> Name
    ensures { result ≡ update_mask }
{
    Name::new("updateMask", "update_mask")
}

pub(crate) fn including_invocation() -> Name
    ensures { result ≡ including_invocation }
{
    Name::new("includingInvocation", "including_invocation")
}

pub(crate) fn add_invocations() -> Name
    ensures { result ≡ add_invocations }
{
    Name::new("addInvocations", "add_invocations")
}

pub(crate) fn remove_invocations() -> Name
    ensures { result ≡ remove_invocations }
{
    Name::new("removeInvocations", "remove_invocations")
}
