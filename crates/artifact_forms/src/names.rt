//! The names of the members of requests for artifacts.
ghost use Rattle.std.specs.Prelude.{◌≡◌};
ghost use Rattle.artifact_forms.specs.Names.{request_id, requests, parent, artifact, artifact_id, content_type};
ghost use Rattle.artifact_forms.specs.Names.{contents, size_bytes, hash, name, page_size, page_token};

use json_fields::Name;

pub(crate) fn request_id() -> Name
    ensures { result ≡ request_id }
{
    Name::new("requestId", "request_id")
}

pub(crate) fn requests() -> Name
    ensures { result ≡ requests }
{
    Name::word("requests")
}

pub(crate) fn parent() -> Name
    ensures { result ≡ parent }
{
    Name::word("parent")
}

pub(crate) fn artifact() -> Name
    ensures { result ≡ artifact }
{
    Name::word("artifact")
}

pub(crate) fn artifact_id() -> Name
    ensures { result ≡ artifact_id }
{
    Name::new("artifactId", "artifact_id")
}

pub(crate) fn content_type() -> Name
    ensures { result ≡ content_type }
{
    Name::new("contentType", "content_type")
}

pub(crate) fn contents() -> Name
    ensures { result ≡ contents }
{
    Name::word("contents")
}

pub(crate) fn size_bytes() -> Name
    ensures { result ≡ size_bytes }
{
    Name::new("sizeBytes", "size_bytes")
}

pub(crate) fn hash() -> Name
    ensures { result ≡ hash }
{
    Name::word("hash")
}

pub(crate) fn name() -> Name
    ensures { result ≡ name }
{
    Name::word("name")
}

pub(crate) fn page_size() -> Name
    ensures { result ≡ page_size }
{
    Name::new("pageSize", "page_size")
}

pub(crate) fn page_token() -> Name
    ensures { result ≡ page_token }
{
    Name::new("pageToken", "page_token")
}
