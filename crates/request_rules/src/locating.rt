//! The invocations and the result or the artifact that a request names, and where they stand.
ghost use Rattle.std.specs.Prelude.{◌≡◌, ◌++◌, ◌<◌, List, [], None, Some, IfOk, IfSome, MatchOption, OnOk, length, map};
ghost use Rattle.std.specs.Prelude.{option_map};
ghost use Rattle.std.specs.Option.{option_to_list};
ghost use Rattle.std.specs.List.{cons_option};
ghost use Rattle.invocations.specs.declared.invocation.Invocation.{Invocation as InvocationOf};
ghost use Rattle.request_rules.specs.Held.{Held};
ghost use Rattle.request_rules.specs.Named.{all_found, artifact_held, first_place, place_held, place_named};
ghost use Rattle.request_rules.specs.Named.{place_of_result, places_in, row_at};
ghost use Rattle.request_demands.specs.Demands.{demand_of};
ghost use Rattle.request_rules.specs.Locating.{IsActiveFirst, artifact_if, located, place_if, result_if};
ghost use Rattle.request_demands.specs.Order.{FirstOf};
ghost use Rattle.request_rules.specs.Broken.{IsAbsent, IsMissing, artifact_named, result_named};

use artifacts::ArtifactRows;
use invocations::{Invocation, Table};
use names_realms::{ArtifactName, InvocationId, ResultName};
use request_demands::{Demand, Request, demand_of, invocation_of};
use std::alloc::{AllocError, Global};
use std::marker::Model;
use test_results::ResultRows;

/// The place of the invocation with this id.
fn place_of(table: &Table, id: &InvocationId) -> Option<u32>
    ensures { result ≡ place_named table.now.rows id.now }
{
    table.find(id)
}

/// The place of the invocation with this id, where one is given.
fn place_if(table: &Table, id: Option<&InvocationId>) -> Option<u32>
    ensures { result ≡ place_if table.now.rows (option_map (λ given. given.now) id.entry) }
{
    match id {
        Some(id) => place_of(table, id),
        None => None,
    }
}

/// The place of the result of this name, where this is the place of the invocation that it names.
fn place_held(results: &ResultRows, name: &ResultName, holder: Option<u32>) -> Option<u32>
    ensures { result ≡ place_held results.now.rows name.now holder }
{
    let _ = results.rows();
    match holder {
        Some(holder) => results.find(holder, &name.test, &name.result),
        None => None,
    }
}

/// The place of the result of this name, where one is given.
fn result_if(table: &Table, results: &ResultRows, name: Option<&ResultName>) -> Option<u32>
    ensures { result ≡ result_if table.now.rows results.now.rows
        (option_map (λ given. given.now) name.entry) }
{
    match name {
        Some(name) => place_held(results, name, place_of(table, &name.invocation)),
        None => None,
    }
}

/// The place of the artifact of this name, where this is the place of the invocation that holds it.
fn artifact_held(held: &ArtifactRows, name: &ArtifactName, holder: Option<u32>) -> Option<u32>
    ensures { result ≡ artifact_held held.now.rows name.now holder }
{
    let _ = held.rows();
    match holder {
        Some(holder) => held.find(holder, name),
        None => None,
    }
}

/// The place of the artifact of this name, where one is given.
fn artifact_if(table: &Table, held: &ArtifactRows, name: Option<&ArtifactName>) -> Option<u32>
    ensures { result ≡ artifact_if table.now.rows held.now.rows
        (option_map (λ given. given.now) name.entry) }
{
    match name {
        Some(name) => artifact_held(held, name, place_of(table, invocation_of(&name.parent))),
        None => None,
    }
}

/// The invocation at this place, if there is one.
pub(crate) fn row_at(table: &Table, place: Option<u32>) -> Option<&Invocation>
    requires { IfSome place (λ at. at < length table.now.rows) }
    ensures { option_map (λ row. row.now) result ≡ row_at table.now.rows place }
{
    match place {
        Some(place) => Some(table.row(place)),
        None => None,
    }
}

/// The place of the one that has to be active, which is the first of those at these places.
fn active_in(demand: &Demand, named: &[Option<u32>]) -> Option<u32>
    ensures { (rows : List InvocationOf) → IsActiveFirst demand.now
        → named.now ≡ places_in rows demand.now.named
        → result ≡ place_if rows demand.now.active }
{
    match demand.active {
        Some(_) => *named.first()?,
        None => None,
    }
}

/// Where the invocations with these ids stand. `Err` where there is no memory for their places.
fn places_in(
    alloc: Global,
    table: &Table,
    ids: &[InvocationId],
) -> Result<Vec<Option<u32>>, AllocError>
    ensures { IfOk result (λ places. places.items ≡ places_in table.now.rows ids.now) }
{
    let mut places = Vec::with_capacity(alloc, ids.len())?;
    for id in ids {
        places.push(place_of(table, id))?;
    }
    Ok(places)
}

/// Appends a place, if there is one.
fn add_place(places: &mut Vec<u32>, place: Option<u32>) -> Result<(), AllocError>
    ensures { OnOk result (places.new.items ≡ places.old.items ++ cons_option place []) }
{
    if let Some(place) = place {
        places.push(place)?;
    }
    Ok(())
}

/// Those of the places that are there. `Err` where there is no memory for them.
fn found_in(alloc: Global, places: &[Option<u32>]) -> Result<Vec<u32>, AllocError>
    ensures { IfOk result (λ found. found.items ≡ all_found places.now) }
{
    let mut found = Vec::with_capacity(alloc, places.len())?;
    for place in places {
        add_place(&mut found, *place)?;
    }
    Ok(found)
}

/// Where the invocations stand that a request names, in order of creation and counted from 0, and
/// where the result or the artifact does, in order of arrival. Each is looked up once, before the
/// request is judged; one that isn't there has no place.
#[derive(Drop)]
pub struct Located {
    pub(crate) named: Vec<Option<u32>>,
    pub(crate) included: Vec<Option<u32>>,
    pub(crate) row: Option<u32>,
    pub(crate) artifact: Option<u32>,
    pub(crate) active: Option<u32>,
    pub(crate) made: Option<u32>,
}

impl Model for Located {
    ghost use Rattle.request_rules.specs.Locating.{Located};

    ghost Value = { Located };

    ghost view = { λ l. record {
      named = l.named.items;
      included = l.included.items;
      row = l.row;
      artifact = l.artifact;
      active = l.active;
      made = l.made;
    } };
}

impl Located {
    /// Where the invocations and the rows stand that a request names. `Err` where there is no
    /// memory for their places.
    pub fn of(
        alloc: Global,
        table: &Table,
        results: &ResultRows,
        artifacts: &ArtifactRows,
        request: &Request,
    ) -> Result<Located, AllocError>
        ensures { IfOk result (λ l.
            l ≡ located table.now.rows
            (record { results = results.now.rows; artifacts = artifacts.now.rows })
            (demand_of request.now)) }
    {
        let demand = demand_of(request);
        let named = places_in(alloc, table, demand.named)?;
        let included = places_in(alloc, table, demand.included)?;
        let row = result_if(table, results, demand.row);
        let artifact = artifact_if(table, artifacts, demand.artifact);
        let active = active_in(&demand, named.as_slice());
        let made = place_if(table, demand.makes);
        Ok(Located {
            named,
            included,
            row,
            artifact,
            active,
            made,
        })
    }

    /// The place of the first one that has to be there.
    pub fn first(&self) -> Option<u32>
        ensures { result ≡ first_place self.now.named }
    {
        match self.named.first() {
            Some(place) => *place,
            None => None,
        }
    }

    /// The place of the result that has to be there.
    pub fn row(&self) -> Option<u32>
        ensures { result ≡ self.now.row }
    {
        self.row
    }

    /// The place of the artifact that has to be there.
    pub fn artifact(&self) -> Option<u32>
        ensures { result ≡ self.now.artifact }
    {
        self.artifact
    }

    /// The places of those that have to be there that are. `Err` where there is no memory for them.
    pub fn roots(&self, alloc: Global) -> Result<Vec<u32>, AllocError>
        ensures { IfOk result (λ roots. roots.items ≡ all_found self.now.named) }
    {
        found_in(alloc, self.named.as_slice())
    }

    /// The places of those to be included that are there. `Err` where there is no memory for them.
    pub fn targets(&self, alloc: Global) -> Result<Vec<u32>, AllocError>
        ensures { IfOk result (λ targets. targets.items ≡ all_found self.now.included) }
    {
        found_in(alloc, self.included.as_slice())
    }
}

/// The first of these ids that has no place.
fn first_missing_of<'r>(ids: &'r [InvocationId], places: &[Option<u32>]) -> Option<&'r InvocationId>
    ensures { (rows : List InvocationOf) → places.now ≡ places_in rows ids.now
        → FirstOf (IsMissing rows) ids.now (option_map (λ id. id.now) result) }
{
    for (at, place) in places.iter().enumerate() {
        if place.is_none() {
            return ids.get(at);
        }
    }
    None
}

/// The first invocation that is named and isn't there.
pub(crate) fn first_missing<'r>(places: &Located, demand: &Demand<'r>) -> Option<&'r InvocationId>
    ensures { (rows : List InvocationOf) (held : Held)
        → places.now ≡ located rows held demand.now
        → FirstOf (IsMissing rows) (demand.now.named ++ demand.now.included)
        (option_map (λ id. id.now) result) }
{
    if let Some(id) = first_missing_of(demand.named, places.named.as_slice()) {
        return Some(id);
    }
    first_missing_of(demand.included, places.included.as_slice())
}

/// The name of a result, where it has no place.
fn unplaced(name: &ResultName, place: Option<u32>) -> Option<&ResultName>
    ensures { MatchOption place
        (option_map (λ found. result_named found.now) result ≡ Some (result_named name.now))
        (λ _. option_map (λ found. result_named found.now) result ≡ None) }
{
    match place {
        Some(_) => None,
        None => Some(name),
    }
}

/// The result that is named and isn't there.
pub(crate) fn missing_result<'r>(places: &Located, demand: &Demand<'r>) -> Option<&'r ResultName>
    ensures { (rows : List InvocationOf) (held : Held)
        → places.now ≡ located rows held demand.now
        → FirstOf (IsAbsent rows held) (map result_named (option_to_list demand.now.row))
        (option_map (λ name. result_named name.now) result) }
{
    match demand.row {
        Some(name) => unplaced(name, places.row),
        None => None,
    }
}

/// The name of an artifact, where it has no place.
fn unplaced_artifact(name: &ArtifactName, place: Option<u32>) -> Option<&ArtifactName>
    ensures { MatchOption place
        (option_map (λ found. artifact_named found.now) result ≡ Some (artifact_named name.now))
        (λ _. option_map (λ found. artifact_named found.now) result ≡ None) }
{
    if place.is_some() {
        return None;
    }
    Some(name)
}

/// The artifact that is named and isn't there.
pub(crate) fn missing_artifact<'r>(
    places: &Located,
    demand: &Demand<'r>,
) -> Option<&'r ArtifactName>
    ensures { (rows : List InvocationOf) (held : Held)
        → places.now ≡ located rows held demand.now
        → FirstOf (IsAbsent rows held) (map artifact_named (option_to_list demand.now.artifact))
        (option_map (λ name. artifact_named name.now) result) }
{
    match demand.artifact {
        Some(name) => unplaced_artifact(name, places.artifact),
        None => None,
    }
}
