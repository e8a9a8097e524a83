//! The names of the members of queries.
ghost use Rattle.std.specs.Prelude.{◌≡◌};
ghost use Rattle.query_forms.specs.Names.{name, invocations, result_limit, page_size, page_token, predicate, read_mask};
ghost use Rattle.query_forms.specs.Names.{order_by};

use json_fields::Name;

pub(crate) fn name() -> Name
    ensures { result ≡ name }
{
    Name::word("name")
}

pub(crate) fn invocations() -> Name
    ensures { result ≡ invocations }
{
    Name::word("invocations")
}

pub(crate) fn result_limit() -> Name
    ensures { result ≡ result_limit }
{
    Name::new("resultLimit", "result_limit")
}

pub(crate) fn page_size() -> Name
    ensures { result ≡ page_size }
{
    Name::new("pageSize", "page_size")
}

pub(crate) fn page_token() -> Name
    ensures { result ≡ page_token }
{
    Name::new("pageToken", "page_token")
}

pub(crate) fn predicate() -> Name
    ensures { result ≡ predicate }
{
    Name::word("predicate")
}

pub(crate) fn read_mask() -> Name
    ensures { result ≡ read_mask }
{
    Name::new("readMask", "read_mask")
}

pub(crate) fn order_by() -> Name
    ensures { result ≡ order_by }
{
    Name::new("orderBy", "order_by")
}
