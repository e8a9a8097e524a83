//! The stages in which a configuration is read, each with its fault.
ghost use Rattle.std.specs.Prelude.{◌≡◌, ◌≢◌, ◌<◌, ◌≤◌, ℕ, List, None, Some, Ok, length, map, IfOk, IfErr, OnOk};
ghost use Rattle.std.specs.Prelude.{option_map};
ghost use Rattle.toml.specs.Data.{Members};
ghost use Rattle.toml.specs.View.{table_view};
ghost use Rattle.policy_document.specs.Document.{tables_of};
ghost use Rattle.policy_checks.specs.Index.{IsIndexOf};
ghost use Rattle.permissions.specs.Cycle.{IsLeastCycle};
ghost use Rattle.policy_reading.specs.Walked.{LeadsBack};
ghost use Rattle.permissions.specs.Graph.{graph_of};
ghost use Rattle.policy_reading.specs.Reading.{most_bytes, IsToml, shape_fault, Answers};
ghost use Rattle.permissions.specs.Faults.{entries_fault, check_fault, checked, text_fault, owners_fault};

use crate::cycle::first_cycle;
use permissions::PolicyFault;
use policy_checks::{Book, Check, NameIndex, first_failing, index_tokens};
use policy_document::read_tables;
use policy_tables::{Finding, Listed, Notes, PolicyTables, count_entries};
use std::alloc::Global;
use toml::Table;

/// Refuses a text of more than 4 MiB.
pub(crate) fn check_size(text: &[u8]) -> Result<(), PolicyFault>
    ensures ok { OnOk result (length text.now ≤ most_bytes) }
    ensures err { IfErr result
        (λ f. (most_bytes < length text.now) × (f ≡ PolicyFault.TooMany (length text.now))) }
{
    if text.len() > 4_194_304 {
        return Err(PolicyFault::TooMany { count: text.len() });
    }
    Ok(())
}

/// Reads a text as TOML.
pub(crate) fn read_toml(alloc: Global, text: &[u8]) -> Result<Table, PolicyFault>
    ensures ok { IfOk result (λ t. IsToml text.now (table_view t)) }
    ensures err { IfErr result
        (λ f. f ≢ PolicyFault.Memory
        → (f ≡ PolicyFault.NotToml) × ((t : Members) → ¬ IsToml text.now t)) }
{
    match toml::table_from_slice(alloc, text) {
        Ok(table) => Ok(table),
        Err(error) => {
            if error.is_memory() {
                return Err(PolicyFault::Memory);
            }
            Err(PolicyFault::NotToml)
        }
    }
}

/// Refuses a path that isn't of the document's shape.
fn no_bad_shape(least: Option<Finding>) -> Result<(), PolicyFault>
    ensures { Answers result (option_map (λ f. PolicyFault.BadShape f.path) least) }
{
    match least {
        Some(finding) => Err(PolicyFault::BadShape { at: finding.path }),
        None => Ok(()),
    }
}

/// Reads the tables of a document.
#[tactic(auto, unfolding(crate::specs::Reading::shape_fault))]
pub(crate) fn read_shaped(alloc: Global, document: &Table) -> Result<PolicyTables, PolicyFault>
    ensures tables { IfOk result (λ tables. tables ≡ tables_of (table_view document.now)) }
    ensures fault { Answers result (shape_fault (table_view document.now)) }
{
    let mut notes = Notes::new(alloc);
    let tables = read_tables(&mut notes, document)?;
    no_bad_shape(notes.into_least())?;
    Ok(tables)
}

/// Refuses more than 65,536 entries.
pub(crate) fn check_entries(tables: &PolicyTables) -> Result<(), PolicyFault>
    ensures { Answers result (entries_fault tables.now) }
{
    let count = count_entries(tables);
    if count > 65_536 {
        return Err(PolicyFault::TooMany { count });
    }
    Ok(())
}

/// The fault that a check says of a finding.
fn fault_of(check: Check, finding: Finding) -> PolicyFault
    ensures { result ≡ check_fault check finding }
{
    match check {
        Check::Form => PolicyFault::BadName { at: finding.path },
        Check::Roles => PolicyFault::UnknownRole { name: finding.text },
        Check::Realms => PolicyFault::UnknownRealm { name: finding.text },
        Check::Principals => PolicyFault::UnknownPrincipal { name: finding.text },
    }
}

/// Refuses what a check finds.
fn no_finding(check: Check, least: Option<Finding>) -> Result<(), PolicyFault>
    ensures { Answers result (option_map (check_fault check) least) }
{
    match least {
        Some(finding) => Err(fault_of(check, finding)),
        None => Ok(()),
    }
}

/// Refuses a text that isn't what a check asks for.
fn check_all(alloc: Global, book: &Book, check: Check) -> Result<(), PolicyFault>
    ensures { Answers result (checked book.now check) }
{
    let least = first_failing(alloc, book, check)?;
    no_finding(check, least)
}

/// Refuses a text that isn't what it has to be.
pub(crate) fn check_texts(alloc: Global, book: &Book) -> Result<(), PolicyFault>
    requires { entries_fault book.now ≡ None }
    ensures { Answers result (text_fault book.now) }
{
    check_all(alloc, book, Check::Form)?;
    check_all(alloc, book, Check::Roles)?;
    check_all(alloc, book, Check::Realms)?;
    check_all(alloc, book, Check::Principals)
}

/// The fault of realms of which one reaches itself.
pub(crate) fn cycle_fault(alloc: Global, book: &Book, graph: &[Listed<usize>]) -> PolicyFault
    requires graph { graph.now ≡ graph_of book.now }
    requires back { LeadsBack graph.now }
    ensures { result ≢ PolicyFault.Memory
        → (name : List ℕ) × IsLeastCycle book.now name × (result ≡ PolicyFault.RealmCycle name) }
{
    match first_cycle(alloc, book, graph) {
        Ok(Some(name)) => PolicyFault::RealmCycle { name },
        Ok(None) => unreachable!(),
        Err(error) => PolicyFault::from(error),
    }
}

/// Refuses a token that two users have.
fn no_second_owner(least: Option<Finding>) -> Result<(), PolicyFault>
    ensures { Answers result (option_map (λ f. PolicyFault.TwoOwners f.path) least) }
{
    match least {
        Some(finding) => Err(PolicyFault::TwoOwners {
            token: finding.path,
        }),
        None => Ok(()),
    }
}

/// The index of the users' tokens, each of which has one owner.
#[tactic(auto, unfolding(permissions::specs::Faults::owners_fault))]
pub(crate) fn check_tokens(alloc: Global, tables: &PolicyTables) -> Result<NameIndex, PolicyFault>
    ensures index { IfOk result (λ index. IsIndexOf index (map (λ u. u.token) tables.now.users)) }
    ensures fault { Answers result (owners_fault tables.now) }
{
    let mut notes = Notes::new(alloc);
    let index = index_tokens(&mut notes, tables.users.as_slice())?;
    no_second_owner(notes.into_least())?;
    Ok(index)
}
