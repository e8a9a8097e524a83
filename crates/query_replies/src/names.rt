//! The names of the members of replies to queries.
ghost use Rattle.std.specs.Prelude.{◌≡◌};
ghost use Rattle.query_replies.specs.Names.{is_masked, test_results, test_variants, next_page_token, results, outcome};
ghost use Rattle.query_replies.specs.Names.{exonerations};

use json_fields::Name;

pub(crate) fn is_masked() -> Name
    ensures { result ≡ is_masked }
{
    Name::new("isMasked", "is_masked")
}

pub(crate) fn test_results() -> Name
    ensures { result ≡ test_results }
{
    Name::new("testResults", "test_results")
}

pub(crate) fn test_variants() -> Name
    ensures { result ≡ test_variants }
{
    Name::new("testVariants", "test_variants")
}

pub(crate) fn next_page_token() -> Name
    ensures { result ≡ next_page_token }
{
    Name::new("nextPageToken", "next_page_token")
}

pub(crate) fn results() -> Name
    ensures { result ≡ results }
{
    Name::word("results")
}

pub(crate) fn outcome() -> Name
    ensures { result ≡ outcome }
{
    Name::word("result")
}

pub(crate) fn exonerations() -> Name
    ensures { result ≡ exonerations }
{
    Name::word("exonerations")
}
