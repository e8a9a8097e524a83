//! The entries of a configuration's tables, read with what is wrong in them.
ghost use Rattle.std.specs.Prelude.{◌≡◌, ℕ, List, [], ◌++◌, IfOk, OnOk, option_map};
ghost use Rattle.toml.specs.Data.{Members, as_table};
ghost use Rattle.toml.specs.View.{view, table_view, array_view};
ghost use Rattle.policy_tables.specs.Entries.{with_entry};
ghost use Rattle.policy_tables.specs.Findings.{joined, least_with};
ghost use Rattle.policy_document.specs.Document.{table_findings, entries_of, entries_findings, section_of};
ghost use Rattle.policy_document.specs.Document.{section_findings, item_bindings, item_bindings_findings, bindings_of};
ghost use Rattle.policy_document.specs.Document.{bindings_findings, tables_of, shape_findings};

use crate::read::{
    find_list, find_table, note_if_there, note_unknown, read_text, read_texts, read_texts_if_there,
};
use crate::shape::Shape;
use lists::Listed;
use name_parts::Bytes;
use policy_tables::{Binding, Group, Notes, PolicyTables, RealmTable, Role, User};
use std::alloc::{AllocError, Global};
use toml::value::Array;
use toml::{Table, Value};

/// An entry of a table of tables.
trait Entry: Drop {
    ghost use Rattle.policy_tables.specs.declared.findings.Finding.{Finding};

    /// What the entry of a key and a table is.
    ghost entry: { List ℕ → Members → Self };

    /// What is wrong in its table at a path.
    ghost findings: { List ℕ → Members → List Finding };

    /// Reads the entry of a key, whose table stands at a path.
    fn read(notes: &mut Notes, name: &[u8], table: &Table) -> Result<Self, AllocError>
        ensures entry { IfOk result (λ e. e ≡ entry name.now (table_view table.now)) }
        ensures path { OnOk result (notes.new.path ≡ notes.old.path) }
        ensures least { OnOk result
            (notes.new.least ≡ least_with notes.old.least
            (findings notes.old.path (table_view table.now))) };
}

impl Entry for User {
    ghost use Rattle.policy_document.specs.Document.{user_of, user_findings};

    ghost entry = { user_of };

    ghost findings = { user_findings };

    fn read(notes: &mut Notes, name: &[u8], table: &Table) -> Result<Self, AllocError> {
        note_unknown(notes, Shape::User, table)?;
        let token = read_text(notes, table, "token")?;
        Ok(User {
            name: Bytes::from_slice(notes.alloc(), name)?,
            token,
        })
    }
}

impl Entry for Group {
    ghost use Rattle.policy_document.specs.Document.{group_of, group_findings};

    ghost entry = { group_of };

    ghost findings = { group_findings };

    fn read(notes: &mut Notes, name: &[u8], table: &Table) -> Result<Self, AllocError> {
        note_unknown(notes, Shape::Group, table)?;
        let members = read_texts(notes, table, "members")?;
        Ok(Group {
            name: Bytes::from_slice(notes.alloc(), name)?,
            members,
        })
    }
}

impl Entry for Role {
    ghost use Rattle.policy_document.specs.Document.{role_of, role_findings};

    ghost entry = { role_of };

    ghost findings = { role_findings };

    fn read(notes: &mut Notes, name: &[u8], table: &Table) -> Result<Self, AllocError> {
        note_unknown(notes, Shape::Role, table)?;
        let permissions = read_texts(notes, table, "permissions")?;
        Ok(Role {
            name: Bytes::from_slice(notes.alloc(), name)?,
            permissions,
        })
    }
}

impl Entry for Binding {
    ghost use Rattle.policy_document.specs.Document.{binding_of, binding_findings};

    ghost entry = { binding_of };

    ghost findings = { binding_findings };

    fn read(notes: &mut Notes, name: &[u8], table: &Table) -> Result<Self, AllocError> {
        let _ = name;
        note_unknown(notes, Shape::Binding, table)?;
        let role = read_text(notes, table, "role")?;
        let principals = read_texts(notes, table, "principals")?;
        Ok(Binding { role, principals })
    }
}

impl Entry for RealmTable {
    ghost use Rattle.policy_document.specs.Document.{realm_of, realm_findings};

    ghost entry = { realm_of };

    ghost findings = { realm_findings };

    fn read(notes: &mut Notes, name: &[u8], table: &Table) -> Result<Self, AllocError> {
        note_unknown(notes, Shape::Realm, table)?;
        let extends = read_texts_if_there(notes, table, "extends")?;
        let bindings = read_bindings(notes, table, "bindings")?;
        Ok(RealmTable {
            name: Bytes::from_slice(notes.alloc(), name)?,
            extends,
            bindings,
        })
    }
}

/// Reads an entry more, where a table stands at the path. Else notes the path.
fn push_entry<E: Entry>(
    notes: &mut Notes,
    name: &[u8],
    value: &Value,
    entries: &mut Vec<E>,
) -> Result<(), AllocError>
    ensures entries { OnOk result
        (entries.new.items ≡ entries.old.items
        ++ with_entry (option_map (E.entry name.now) (as_table (view value.now))) []) }
    ensures path { OnOk result (notes.new.path ≡ notes.old.path) }
    ensures least { OnOk result
        (notes.new.least ≡ least_with notes.old.least
        (table_findings E.findings notes.old.path (as_table (view value.now)))) }
{
    match value.as_table() {
        Some(table) => {
            entries.push(E::read(notes, name, table)?)?;
            Ok(())
        }
        None => notes.note(b""),
    }
}

/// Reads the bindings in a list that stands at a path.
#[tactic(auto, using(policy_tables::proofs::PathLemmas::front_of_joined))]
fn read_binding_items(notes: &mut Notes, array: &Array) -> Result<Vec<Binding>, AllocError>
    ensures bindings { IfOk result
        (λ bindings. bindings.items ≡ item_bindings (array_view array.now)) }
    ensures path { OnOk result (notes.new.path ≡ notes.old.path) }
    ensures least { OnOk result
        (notes.new.least ≡ least_with notes.old.least
        (item_bindings_findings notes.old.path 0 (array_view array.now))) }
{
    let mut bindings = Vec::new(notes.alloc());
    for (place, value) in array.iter().enumerate() {
        let len = notes.enter_place(place)?;
        push_entry(notes, b"", value, &mut bindings)?;
        notes.leave(len);
    }
    Ok(bindings)
}

/// Reads the bindings at a key that may be absent. Notes where something else stands.
#[tactic(auto, using(policy_tables::proofs::PathLemmas::front_of_joined))]
fn read_bindings(notes: &mut Notes, table: &Table, key: &str) -> Result<Listed<Binding>, AllocError>
    ensures bindings { IfOk result
        (λ bindings. bindings ≡ bindings_of key.now (table_view table.now)) }
    ensures path { OnOk result (notes.new.path ≡ notes.old.path) }
    ensures least { OnOk result
        (notes.new.least ≡ least_with notes.old.least
        (bindings_findings notes.old.path key.now (table_view table.now))) }
{
    match find_list(table, key) {
        Some(array) => {
            let len = notes.enter_key(key.as_bytes())?;
            let bindings = read_binding_items(notes, array)?;
            notes.leave(len);
            Ok(Listed::new(bindings))
        }
        None => {
            note_if_there(notes, table, key)?;
            Ok(Listed::new(Vec::new(notes.alloc())))
        }
    }
}

/// Reads the entry of a key of the table at the path.
#[tactic(auto, using(policy_tables::proofs::PathLemmas::front_of_joined))]
fn read_keyed<E: Entry>(
    notes: &mut Notes,
    key: &[u8],
    value: &Value,
    entries: &mut Vec<E>,
) -> Result<(), AllocError>
    ensures entries { OnOk result
        (entries.new.items ≡ entries.old.items
        ++ with_entry (option_map (E.entry key.now) (as_table (view value.now))) []) }
    ensures path { OnOk result (notes.new.path ≡ notes.old.path) }
    ensures least { OnOk result
        (notes.new.least ≡ least_with notes.old.least
        (table_findings E.findings (joined notes.old.path key.now) (as_table (view value.now)))) }
{
    let len = notes.enter_key(key)?;
    push_entry(notes, key, value, entries)?;
    notes.leave(len);
    Ok(())
}

/// Reads the entries of a table of tables that stands at the path.
fn read_entries<E: Entry>(notes: &mut Notes, table: &Table) -> Result<Vec<E>, AllocError>
    ensures entries { IfOk result
        (λ entries. entries.items ≡ entries_of E.entry (table_view table.now)) }
    ensures path { OnOk result (notes.new.path ≡ notes.old.path) }
    ensures least { OnOk result
        (notes.new.least ≡ least_with notes.old.least
        (entries_findings E.findings notes.old.path (table_view table.now))) }
{
    let mut entries = Vec::new(notes.alloc());
    for (key, value) in table {
        read_keyed(notes, key.as_bytes(), value, &mut entries)?;
    }
    Ok(entries)
}

/// Reads the entries at a key of the document, which may be absent.
#[tactic(auto, using(policy_tables::proofs::PathLemmas::front_of_joined))]
fn read_section<E: Entry>(
    notes: &mut Notes,
    document: &Table,
    key: &str,
) -> Result<Listed<E>, AllocError>
    requires { notes.old.path ≡ [] }
    ensures entries { IfOk result
        (λ entries. entries ≡ section_of E.entry key.now (table_view document.now)) }
    ensures path { OnOk result (notes.new.path ≡ []) }
    ensures least { OnOk result
        (notes.new.least ≡ least_with notes.old.least
        (section_findings E.findings key.now (table_view document.now))) }
{
    match find_table(document, key) {
        Some(table) => {
            let len = notes.enter_key(key.as_bytes())?;
            let entries = read_entries(notes, table)?;
            notes.leave(len);
            Ok(Listed::new(entries))
        }
        None => {
            note_if_there(notes, document, key)?;
            Ok(Listed::new(Vec::new(notes.alloc())))
        }
    }
}

/// Reads the tables of a document. Notes each path where it isn't of their shape.
pub fn read_tables(notes: &mut Notes, document: &Table) -> Result<PolicyTables, AllocError>
    requires { notes.old.path ≡ [] }
    ensures tables { IfOk result (λ tables. tables ≡ tables_of (table_view document.now)) }
    ensures path { OnOk result (notes.new.path ≡ []) }
    ensures least { OnOk result
        (notes.new.least ≡ least_with notes.old.least (shape_findings (table_view document.now))) }
{
    note_unknown(notes, Shape::Document, document)?;
    let secret = read_text(notes, document, "secret")?;
    let users = read_section(notes, document, "user")?;
    let groups = read_section(notes, document, "group")?;
    let roles = read_section(notes, document, "role")?;
    let realms = read_section(notes, document, "realm")?;
    Ok(PolicyTables {
        secret,
        users,
        groups,
        roles,
        realms,
    })
}
