//! The realms by their places, with the places that each extends.
ghost use Rattle.std.specs.Prelude.{◌≡◌, ◌++◌, [], IfOk, OnOk};
ghost use Rattle.policy_checks.specs.Index.{place_of};
ghost use Rattle.policy_checks.specs.Checks.{realm_names};
ghost use Rattle.policy_tables.specs.Entries.{with_entry};
ghost use Rattle.permissions.specs.Graph.{places_in, graph_from, graph_of};

use policy_checks::Book;
use policy_tables::{Bytes, Listed, RealmTable};
use std::alloc::{AllocError, Global};

/// Appends the place of a realm, where it is there.
fn push_place(book: &Book, name: &[u8], places: &mut Vec<usize>) -> Result<(), AllocError>
    ensures { OnOk result
        (places.new.items ≡ places.old.items
        ++ with_entry (place_of name.now (realm_names book.now)) []) }
{
    match book.realm(name) {
        Some(place) => {
            places.push(place)?;
            Ok(())
        }
        None => Ok(()),
    }
}

/// The places of realms.
fn places_of(alloc: Global, book: &Book, names: &[Bytes]) -> Result<Listed<usize>, AllocError>
    ensures { IfOk result (λ places. places ≡ places_in (realm_names book.now) names.now) }
{
    let mut places = Vec::new(alloc);
    for name in names {
        push_place(book, name.as_slice(), &mut places)?;
    }
    Ok(Listed::new(places))
}

/// The places that each of these realms extends.
fn all_places(
    alloc: Global,
    book: &Book,
    realms: &[RealmTable],
) -> Result<Vec<Listed<usize>>, AllocError>
    ensures { IfOk result (λ graph. graph.items ≡ graph_from (realm_names book.now) realms.now) }
{
    let mut graph = Vec::new(alloc);
    for realm in realms {
        graph.push(places_of(alloc, book, realm.extends.as_slice())?)?;
    }
    Ok(graph)
}

/// The places that each realm extends.
#[tactic(auto, unfolding(crate::specs::Graph::graph_of))]
pub fn read_graph(alloc: Global, book: &Book) -> Result<Vec<Listed<usize>>, AllocError>
    ensures { IfOk result (λ graph. graph.items ≡ graph_of book.now) }
{
    let tables = book.tables();
    all_places(alloc, book, tables.realms.as_slice())
}
