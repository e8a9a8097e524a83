//! Which realms are extended by which, by places.
ghost use Rattle.std.specs.Prelude.{◌≡◌};
ghost use Rattle.permissions.specs.Graph.{edges};

use policy_tables::Listed;

/// The places that a place leads to.
pub fn edges_of(graph: &[Listed<usize>], place: usize) -> &[usize]
    ensures { result.now ≡ edges graph.now place }
{
    match graph.get(place) {
        Some(edges) => edges.as_slice(),
        None => &[],
    }
}
