//! The kinds of table in a configuration.

/// Which table of a configuration this is.
#[derive(Clone, Copy, Debug)]
pub enum Shape {
    /// The whole document of a service.
    Document,
    /// A user, with a token.
    User,
    /// A group, with its members.
    Group,
    /// A role, with its permissions.
    Role,
    /// A realm, with what it extends and its bindings.
    Realm,
    /// A binding, with a role and principals.
    Binding,
    /// The whole document of a sink, with two tokens.
    Sink,
}
