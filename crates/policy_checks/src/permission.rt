//! The permissions.
ghost use Rattle.std.specs.Prelude.{◌≡◌};
ghost use Rattle.std.specs.List.{find};
ghost use Rattle.std.specs.Str.{bytes_eq};
ghost use Rattle.policy_checks.specs.Permissions.{permission_text, permission_of};

/// What a caller may be allowed to do in a realm.
#[derive(Clone, Copy, Debug, PartialEq, Eq)]
pub enum Permission {
    CreateInvocation,
    CreateWithReservedId,
    GetInvocation,
    IncludeInvocation,
    GetTestResult,
    ListTestResults,
    ListLimitedTestResults,
    GetTestExoneration,
    ListTestExonerations,
    ListLimitedTestExonerations,
    GetArtifact,
    ListArtifacts,
}

/// Every permission.
const EVERY: [Permission; 12] = [
    Permission::CreateInvocation,
    Permission::CreateWithReservedId,
    Permission::GetInvocation,
    Permission::IncludeInvocation,
    Permission::GetTestResult,
    Permission::ListTestResults,
    Permission::ListLimitedTestResults,
    Permission::GetTestExoneration,
    Permission::ListTestExonerations,
    Permission::ListLimitedTestExonerations,
    Permission::GetArtifact,
    Permission::ListArtifacts,
];

impl Permission {
    /// The permission's text, as configurations write it.
    pub fn text(self) -> &'static str
        ensures { result.now ≡ permission_text self }
    {
        match self {
            Permission::CreateInvocation => "resultdb.invocations.create",
            Permission::CreateWithReservedId => "resultdb.invocations.createWithReservedID",
            Permission::GetInvocation => "resultdb.invocations.get",
            Permission::IncludeInvocation => "resultdb.invocations.include",
            Permission::GetTestResult => "resultdb.testResults.get",
            Permission::ListTestResults => "resultdb.testResults.list",
            Permission::ListLimitedTestResults => "resultdb.testResults.listLimited",
            Permission::GetTestExoneration => "resultdb.testExonerations.get",
            Permission::ListTestExonerations => "resultdb.testExonerations.list",
            Permission::ListLimitedTestExonerations => "resultdb.testExonerations.listLimited",
            Permission::GetArtifact => "resultdb.artifacts.get",
            Permission::ListArtifacts => "resultdb.artifacts.list",
        }
    }

    /// The permission of a text, none where the text is no permission's.
    pub fn from_text(text: &[u8]) -> Option<Permission>
        ensures { result ≡ permission_of text.now }
    {
        find_text(EVERY.as_slice(), text)
    }
}

/// The first of these permissions that has the text.
fn find_text(permissions: &[Permission], text: &[u8]) -> Option<Permission>
    ensures { result ≡ find (λ p. bytes_eq (permission_text p) text.now) permissions.now }
{
    for permission in permissions {
        if permission.text().as_bytes() == text {
            return Some(*permission);
        }
    }
    None
}
