//! The token of an Authorization header.
ghost use Rattle.std.specs.Prelude.{◌≡◌, List, ℕ, codes};
ghost use Rattle.std.specs.Option.{option_map};
ghost use Rattle.std.specs.Str.{str_eq_ignore_ascii_case};
ghost use Rattle.http_wire.specs.Says.{IsTheText, IsBearer, IsBearerValue};
ghost use Rattle.http_wire.specs.Found.{IsFound};

use crate::fields::{Found, alone, is_same_but_case};

/// The token of the one Authorization header. `None` where none stands, two do, or it has another
/// scheme.
pub fn bearer_token<'b>(authorization: Found<'b>) -> Option<&'b [u8]>
    ensures { (values : List (List ℕ)) → IsFound authorization.entry values
        → IsTheText (IsBearer values) (option_map (λ t. t.now) result) }
{
    let value = alone(authorization)?;
    token_of(value)
}

fn is_bearer(scheme: &[u8]) -> bool
    ensures { result ≡ str_eq_ignore_ascii_case scheme.now (codes "Bearer") }
{
    is_same_but_case(scheme, b"Bearer")
}

/// The token behind `Bearer` and a space.
fn token_of(value: &[u8]) -> Option<&[u8]>
    ensures { IsTheText (IsBearerValue value.now) (option_map (λ t. t.now) result) }
{
    if value.len() < 7 || value[6] != b' ' || !is_bearer(&value[..6]) {
        return None;
    }
    Some(&value[7..])
}
