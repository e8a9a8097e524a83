//! Keys that stand twice in a batch.
ghost use Rattle.std.specs.Prelude.{◌≡◌, ◌≤◌, ◌<◌, ◌+◌, MatchOption, true, length, vec_len, vec_capacity};
ghost use Rattle.std.specs.List.{All};
ghost use Rattle.std.specs.declared.cmp.Ordering.TheVariants.{Less};
ghost use Rattle.test_results.specs.Batches.{AreOnce, IsRepeat};
ghost use Rattle.lists.specs.Orders.{IsRising, IsSlot};
ghost use Rattle.test_results.specs.Orders.{IsFrontIndex, key_order, order_at, places_order};
ghost use Rattle.test_results.specs.Results.{key_of, keys_of, named};

use crate::result::TestResult;
use std::cmp::Ordering;

/// Two rows of a request with the same key.
#[derive(Clone, Copy)]
pub(crate) struct Repeat {
    pub(crate) first: usize,
    pub(crate) second: usize,
}

/// The key of a row, compared with a key: by the holder, then by the id, and where these are equal
/// by the test.
fn compare_row(row: &TestResult, holder: u32, test: &str, id: &str) -> Ordering
    ensures { result ≡ key_order (key_of row.now) (named holder test.now id.now) }
{
    match row.holder.cmp(&holder).then(row.result.as_str().cmp(id)) {
        Ordering::Equal => row.test.as_str().cmp(test),
        unequal => unequal,
    }
}

/// The key of the row at a place, compared with a key. Where there is no row it has the holder 0
/// and empty texts.
fn compare(rows: &[TestResult], place: u32, holder: u32, test: &str, id: &str) -> Ordering
    ensures { result ≡ order_at (keys_of rows.now) (named holder test.now id.now) place }
{
    match rows.get(place as usize) {
        Some(row) => compare_row(row, holder, test, id),
        None => 0u32.cmp(&holder).then("".cmp(id)).then("".cmp(test)),
    }
}

/// Whether a key stands behind those at all places.
fn is_behind(places: &[u32], rows: &[TestResult], holder: u32, test: &str, id: &str) -> bool
    requires { IsRising (places_order (keys_of rows.now)) places.now }
    ensures { result ≡ true → All (λ place.
        order_at (keys_of rows.now) (named holder test.now id.now) place ≡ Less) places.now }
{
    match places.last() {
        Some(last) => compare(rows, *last, holder, test, id).is_lt(),
        None => true,
    }
}

/// Where the place of a key stands, or where it would go. Rows often come in the order of their
/// ids, so the end is looked at first.
fn search(
    places: &[u32],
    rows: &[TestResult],
    holder: u32,
    test: &str,
    id: &str,
) -> Result<usize, usize>
    requires { IsRising (places_order (keys_of rows.now)) places.now }
    ensures { IsSlot (order_at (keys_of rows.now) (named holder test.now id.now)) places.now
        result }
{
    if is_behind(places, rows, holder, test, id) {
        return Err(places.len());
    }
    places.binary_search_by(|place| compare(rows, *place, holder, test, id))
}

/// Adds the next place of a batch to those before it, or else gives the earlier one with its key.
fn add_next(order: &mut Vec<u32>, rows: &[TestResult], next: usize) -> Option<u32>
    requires index { IsFrontIndex (keys_of rows.now) next order.old.items }
    requires once { AreOnce rows.now next }
    requires within { next < length rows.now }
    requires few { length rows.now ≤ 500 }
    requires room { vec_len order.old < vec_capacity order.old }
    ensures index { MatchOption result
        (IsFrontIndex (keys_of rows.now) (next + 1) order.new.items)
        (λ first. IsRepeat rows.now first next) }
    ensures once { MatchOption result (AreOnce rows.now (next + 1)) (λ first. first < next) }
    ensures capacity { vec_capacity order.old ≤ vec_capacity order.new }
{
    let row = &rows[next];
    match search(
        order.as_slice(),
        rows,
        row.holder,
        row.test.as_str(),
        row.result.as_str(),
    ) {
        Ok(at) => Some(order[at]),
        Err(at) => {
            let _ = order.insert(at, next as u32);
            None
        }
    }
}

/// The first two rows with the same key: the least second one, and the one before it that has its
/// key. `order` has room for as many places as there are rows.
pub(crate) fn first_repeat(order: &mut Vec<u32>, rows: &[TestResult]) -> Option<Repeat>
    requires few { length rows.now ≤ 500 }
    requires room { 500 ≤ vec_capacity order.old }
    ensures repeat { MatchOption result (AreOnce rows.now (length rows.now))
        (λ repeat. IsRepeat rows.now repeat.first repeat.second) }
    ensures capacity { vec_capacity order.old ≤ vec_capacity order.new }
{
    order.clear();
    for next in 0..rows.len() {
        if let Some(first) = add_next(order, rows, next) {
            return Some(Repeat {
                first: first as usize,
                second: next,
            });
        }
    }
    None
}
