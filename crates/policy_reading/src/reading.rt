//! A configuration, read and checked in stages.
ghost use Rattle.std.specs.Prelude.{◌≡◌, ◌≢◌, None, ℕ, List, IfOk, IfErr, map};
ghost use Rattle.policy_checks.specs.Index.{IsIndexOf};
ghost use Rattle.permissions.specs.Cycle.{HasNoCycle, IsLeastCycle};
ghost use Rattle.permissions.specs.Faults.{IsSound, text_fault};
ghost use Rattle.permissions.specs.Graph.{graph_of};
ghost use Rattle.permissions.specs.Order.{IsOrder};
ghost use Rattle.policy_reading.specs.Reading.{IsFirstFault, IsPolicyOf, IsTablesFault};

use crate::order::order_of;
use crate::stages::{
    check_entries, check_size, check_texts, check_tokens, cycle_fault, read_shaped, read_toml,
};
use permissions::{Policy, PolicyFault, read_graph};
use policy_checks::{Book, NameIndex};
use policy_tables::{Listed, PolicyTables};
use std::alloc::Global;

/// An order of the realms, where none reaches itself.
fn checked_order(
    alloc: Global,
    book: &Book,
    graph: &[Listed<usize>],
) -> Result<Vec<usize>, PolicyFault>
    requires { graph.now ≡ graph_of book.now }
    ensures ok { IfOk result (λ order. HasNoCycle book.now × IsOrder graph.now order.items) }
    ensures err { IfErr result
        (λ f. f ≢ PolicyFault.Memory
        → (name : List ℕ) × IsLeastCycle book.now name × (f ≡ PolicyFault.RealmCycle name)) }
{
    match order_of(alloc, graph)? {
        Some(order) => Ok(order),
        None => Err(cycle_fault(alloc, book, graph)),
    }
}

/// The tables with their indexes, where each text is what it has to be.
fn checked_book(alloc: Global, tables: PolicyTables) -> Result<Book, PolicyFault>
    ensures ok { IfOk result (λ b. (b ≡ tables) × (text_fault tables ≡ None)) }
    ensures err { IfErr result (λ f. f ≢ PolicyFault.Memory → IsTablesFault tables f) }
{
    check_entries(&tables)?;
    let book = Book::new(alloc, tables)?;
    check_texts(alloc, &book)?;
    Ok(book)
}

/// The index of the tokens, where each has one owner.
fn checked_tokens(alloc: Global, book: &Book) -> Result<NameIndex, PolicyFault>
    requires texts { text_fault book.now ≡ None }
    requires no_cycle { HasNoCycle book.now }
    ensures ok { IfOk result
        (λ tokens. IsSound book.now × IsIndexOf tokens (map (λ u. u.token) book.now.users)) }
    ensures err { IfErr result (λ f. f ≢ PolicyFault.Memory → IsTablesFault book.now f) }
{
    check_tokens(alloc, book.tables())
}

/// The policy of tables each text of which is what it has to be.
fn policy_over(alloc: Global, book: Book) -> Result<Policy, PolicyFault>
    requires { text_fault book ≡ None }
    ensures ok { IfOk result (λ p. (p ≡ book) × IsSound book) }
    ensures err { IfErr result (λ f. f ≢ PolicyFault.Memory → IsTablesFault book f) }
{
    let graph = read_graph(alloc, &book)?;
    let order = checked_order(alloc, &book, graph.as_slice())?;
    let tokens = checked_tokens(alloc, &book)?;
    let policy = Policy::new(alloc, book, graph.as_slice(), order.as_slice(), tokens)?;
    Ok(policy)
}

/// The policy of sound tables.
fn policy_of(alloc: Global, tables: PolicyTables) -> Result<Policy, PolicyFault>
    ensures ok { IfOk result (λ p. (p ≡ tables) × IsSound tables) }
    ensures err { IfErr result (λ f. f ≢ PolicyFault.Memory → IsTablesFault tables f) }
{
    let book = checked_book(alloc, tables)?;
    policy_over(alloc, book)
}

/// Reads a configuration.
///
/// The first fault is answered: `TooMany` for more than 4 MiB, which is looked at before the
/// text is read, `NotToml`, `BadShape`, `TooMany` for more than 65,536 entries over the four
/// tables and all bindings, `BadName`, `UnknownRole`, `UnknownRealm`, `UnknownPrincipal`,
/// `RealmCycle`, `TwoOwners`. Of several of one kind it is the one with the least path, or the
/// least name or token, in byte order.
pub fn from_toml(alloc: Global, text: &[u8]) -> Result<Policy, PolicyFault>
    ensures ok { IfOk result (IsPolicyOf text.now) }
    ensures err { IfErr result (λ f. f ≢ PolicyFault.Memory → IsFirstFault text.now f) }
{
    check_size(text)?;
    let document = read_toml(alloc, text)?;
    let tables = read_shaped(alloc, &document)?;
    policy_of(alloc, tables)
}
