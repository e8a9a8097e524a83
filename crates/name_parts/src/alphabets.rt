//! The alphabets of ids, each with the number of bytes that an id may have.
ghost use Rattle.std.specs.Prelude.{◌≡◌};
ghost use Rattle.name_parts.specs.Alphabets.{is_in, is_small, may_begin, may_follow, most_letters};

/// Whose alphabet it is.
#[derive(Clone, Copy)]
pub enum Alphabet {
    /// An invocation's id.
    Invocation,
    /// What stands before the colon of a realm.
    Project,
    /// What stands behind it, where it isn't `@root`.
    Subrealm,
    /// A result's id.
    Outcome,
    /// An artifact's id.
    Artifact,
}

/// Whether the byte is a lower-case letter or a digit.
fn is_lower_or_digit(byte: u8) -> bool
    ensures { result ≡ is_small byte }
{
    byte.is_ascii_lowercase() || byte.is_ascii_digit()
}

/// Whether the byte is one of these marks.
fn is_one_of(byte: u8, marks: &[u8]) -> bool
    ensures { result ≡ is_in marks.now byte }
{
    marks.iter().any(|mark| *mark == byte)
}

impl Alphabet {
    /// Whether an id may begin with the byte.
    pub(crate) fn begins_with(self, byte: u8) -> bool
        ensures { result ≡ may_begin self byte }
    {
        match self {
            Alphabet::Invocation => byte.is_ascii_lowercase(),
            Alphabet::Artifact => byte != b'/' && self.goes_on_with(byte),
            _ => self.goes_on_with(byte),
        }
    }

    /// Whether an id may have the byte behind its first one.
    pub(crate) fn goes_on_with(self, byte: u8) -> bool
        ensures { result ≡ may_follow self byte }
    {
        match self {
            Alphabet::Invocation => is_lower_or_digit(byte) || is_one_of(byte, b"_-:."),
            Alphabet::Project => is_lower_or_digit(byte) || is_one_of(byte, b"-_"),
            Alphabet::Subrealm => is_lower_or_digit(byte) || is_one_of(byte, b"_.-/"),
            Alphabet::Outcome => is_lower_or_digit(byte) || is_one_of(byte, b"-_."),
            Alphabet::Artifact => byte.is_ascii_alphanumeric() || is_one_of(byte, b"-_./"),
        }
    }

    /// How many bytes an id may have.
    pub(crate) fn most(self) -> usize
        ensures { result ≡ most_letters self }
    {
        match self {
            Alphabet::Invocation | Alphabet::Project => 100,
            Alphabet::Subrealm => 400,
            Alphabet::Outcome => 32,
            Alphabet::Artifact => 256,
        }
    }
}
