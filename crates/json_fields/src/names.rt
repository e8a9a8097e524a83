//! The names of members, and the steps of a path to one.
ghost use Rattle.std.specs.Prelude.{◌≡◌};
ghost use Rattle.json_fields.specs.Names.{named};

use std::marker::Model;

/// The two names of a member by the Proto3 mapping to JSON: in lowerCamelCase, and as the proto
/// spells it.
#[derive(Debug, Drop)]
pub struct Name {
    camel: &'static str,
    proto: &'static str,
}

impl Model for Name {
    ghost use Rattle.json_fields.specs.Names.{NameForm, named};

    ghost Value = { NameForm };

    ghost view = { λ n. named n.camel.now n.proto.now };
}

impl Name {
    /// A name in lowerCamelCase, and as the proto spells it.
    pub fn new(camel: &'static str, proto: &'static str) -> Name
        ensures { result ≡ named camel.now proto.now }
    {
        Name { camel, proto }
    }

    /// A name of one word, which both spell alike.
    pub fn word(text: &'static str) -> Name
        ensures { result ≡ named text.now text.now }
    {
        Name {
            camel: text,
            proto: text,
        }
    }

    /// The name in lowerCamelCase.
    pub fn camel(&self) -> &'static str
        ensures { result.now ≡ self.now.camel }
    {
        self.camel
    }

    /// The name as the proto spells it.
    pub fn proto(&self) -> &'static str
        ensures { result.now ≡ self.now.proto }
    {
        self.proto
    }
}

/// A step of a path into a value.
#[derive(Debug, Drop)]
pub enum Step {
    /// To a member of an object.
    Member(Name),
    /// To an element of a list, by its place from 0.
    Place(usize),
}
