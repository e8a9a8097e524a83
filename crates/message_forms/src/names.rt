//! The names of the members of replies of batches.
ghost use Rattle.std.specs.Prelude.{◌≡◌};
ghost use Rattle.message_forms.specs.Names.{test_results, test_exonerations};

use json_fields::Name;

pub(crate) fn test_results() -> Name
    ensures { result ≡ test_results }
{
    Name::new("testResults", "test_results")
}

pub(crate) fn test_exonerations() -> Name
    ensures { result ≡ test_exonerations }
{
    Name::new("testExonerations", "test_exonerations")
}
