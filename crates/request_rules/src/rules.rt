//! The rules for what is demanded, and their order.
ghost use Rattle.std.specs.Prelude.{◌≡◌};
ghost use Rattle.call_forms.specs.Rules.{IsRuleNumber};
ghost use Rattle.request_rules.specs.Broken.{number_of, order};

/// A rule for what is demanded. Each is named as a refusal names it.
#[derive(Clone, Copy, Debug, PartialEq, Eq)]
pub enum Rule {
    /// No other request of the caller was accepted under the number of the request.
    RequestIdReused,
    /// Each invocation that is named is there, and then the result.
    NotFound,
    /// A request that changes an invocation shows an update token.
    NoUpdateToken,
    /// It is the token of this invocation.
    BadUpdateToken,
    /// The caller has each right that the request takes.
    Denied,
    /// The invocation that has to be active is.
    NotActive,
    /// A deadline that is given is in reach of the moment of the call.
    DeadlineRange,
    /// No invocation includes itself.
    Itself,
    /// At most 500 are named to be included.
    TooMany,
    /// No invocation has the id of the new one.
    Taken,
}

/// The rules, in the order in which they are asked.
const ORDER: [Rule; 10] = [
    Rule::RequestIdReused,
    Rule::NotFound,
    Rule::NoUpdateToken,
    Rule::BadUpdateToken,
    Rule::Denied,
    Rule::NotActive,
    Rule::DeadlineRange,
    Rule::Itself,
    Rule::TooMany,
    Rule::Taken,
];

impl Rule {
    /// The rules, in the order in which they are asked.
    pub fn order() -> &'static [Rule]
        ensures { result.now ≡ order }
    {
        ORDER.as_slice()
    }

    /// The number by which a refusal names the rule.
    pub(crate) fn number(self) -> u8
        ensures number { result ≡ number_of self }
        ensures known { IsRuleNumber result }
    {
        match self {
            Rule::RequestIdReused => 7,
            Rule::NotFound => 8,
            Rule::NoUpdateToken => 9,
            Rule::BadUpdateToken => 10,
            Rule::Denied => 11,
            Rule::NotActive => 12,
            Rule::DeadlineRange => 13,
            Rule::Itself => 14,
            Rule::TooMany => 15,
            Rule::Taken => 19,
        }
    }
}
