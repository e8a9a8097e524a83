//! What an element is for the cases of a report.
ghost use Rattle.std.specs.Prelude.{◌≡◌};
ghost use Rattle.junit_parts.specs.Cases.{inner_of_case, inner_of_suite, inner_of_suites, inner_of_top, role_in};

/// What an element is, by its name and by what it stands in.
#[derive(Clone, Copy, Debug, PartialEq, Eq)]
pub enum Role {
    /// What stands outside every element.
    Top,
    /// The root `testsuites`.
    Suites,
    /// A `testsuite` whose cases count.
    Suite,
    /// A `testcase` that is a case.
    Testcase,
    /// An `error`, `failure` or `skipped` of a case.
    Outcome,
    /// Passed over with all that is in it.
    Passed,
}

fn inner_of_top(name: &[u8]) -> Role
    ensures { result ≡ inner_of_top name.now }
{
    if name == b"testsuites".as_slice() {
        return Role::Suites;
    }
    inner_of_suites(name)
}

fn inner_of_suites(name: &[u8]) -> Role
    ensures { result ≡ inner_of_suites name.now }
{
    if name == b"testsuite".as_slice() {
        Role::Suite
    } else {
        Role::Passed
    }
}

fn inner_of_suite(name: &[u8]) -> Role
    ensures { result ≡ inner_of_suite name.now }
{
    if name == b"testcase".as_slice() {
        return Role::Testcase;
    }
    inner_of_suites(name)
}

fn inner_of_case(name: &[u8]) -> Role
    ensures { result ≡ inner_of_case name.now }
{
    if name == b"error".as_slice() {
        return Role::Outcome;
    }
    if name == b"failure".as_slice() {
        return Role::Outcome;
    }
    if name == b"skipped".as_slice() {
        Role::Outcome
    } else {
        Role::Passed
    }
}

/// What an element of this name is, directly in what has a role.
pub fn role_in(outer: Role, name: &[u8]) -> Role
    ensures { result ≡ role_in outer name.now }
{
    match outer {
        Role::Top => inner_of_top(name),
        Role::Suites => inner_of_suites(name),
        Role::Suite => inner_of_suite(name),
        Role::Testcase => inner_of_case(name),
        Role::Outcome => Role::Passed,
        Role::Passed => Role::Passed,
    }
}
