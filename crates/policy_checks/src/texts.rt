//! Which texts stand where in a configuration, and what is asked of each.

/// What a text of a configuration is.
#[derive(Clone, Copy, Debug)]
pub(crate) enum TextKind {
    Secret,
    UserName,
    Token,
    GroupName,
    Member,
    RoleName,
    Permission,
    RealmName,
    Extended,
    BoundRole,
    Principal,
}

/// What is asked of the texts.
#[derive(Clone, Copy, Debug)]
pub enum Check {
    /// Each name, token, secret and permission has its form.
    Form,
    /// Each role that is bound is there.
    Roles,
    /// Each realm that is extended is there.
    Realms,
    /// Each principal and each member is there.
    Principals,
}
