//! The `@root` of a realm's project.
ghost use Rattle.std.specs.Prelude.{◌≡◌, ◌<◌, ◌≤◌, ◌==◌, ◌++◌, take, drop, length, IfSome};
ghost use Rattle.std.specs.List.{position};
ghost use Rattle.policy_checks.specs.NamesRealms.Realms.{IsRealm, project_len};
ghost use Rattle.permissions.specs.Allows.{root_of};

/// Writes bytes over the front of a slice.
fn write_front(room: &mut [u8], bytes: &[u8])
    requires { length bytes.now ≤ length room.old }
    ensures { room.new ≡ bytes.now ++ drop (length bytes.now) room.old }
{
    room[..bytes.len()].copy_from_slice(bytes);
}

/// The first place of a colon.
fn place_of_colon(text: &[u8]) -> Option<usize>
    ensures place { result ≡ position (λ b. b == 58) text.now }
    ensures within { IfSome result (λ place. place < length text.now) }
{
    text.iter().position(|b| *b == b':')
}

/// How long the project of a realm is.
fn project_of(text: &[u8]) -> usize
    ensures len { result ≡ project_len text.now }
    ensures within { result ≤ length text.now }
{
    match place_of_colon(text) {
        Some(place) => place,
        None => text.len(),
    }
}

/// Writes the name of the `@root` of a realm's project, and says how long it is.
pub(crate) fn write_root(room: &mut [u8], realm: &[u8]) -> usize
    requires room { length room.old ≡ 106 }
    requires realm { IsRealm realm.now }
    ensures within { result ≤ 106 }
    ensures len { length room.new ≡ 106 }
    ensures root { take result room.new ≡ root_of realm.now }
{
    let len = project_of(realm);
    write_front(room, &realm[..len]);
    write_front(&mut room[len..], b":@root");
    len + 6
}
