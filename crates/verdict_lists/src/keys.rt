//! What rows are put in order by.
ghost use Rattle.std.specs.Prelude.{◌≡◌};
ghost use Rattle.std.specs.Cmp.Lexicographic.{slice_cmp};
ghost use Rattle.verdict_lists.specs.Entries.{seen};
ghost use Rattle.verdict_lists.specs.Orders.{group_order, key_order, no_key, own_order, pair_order, pairs_order};

use names_realms::Pair;
use std::cmp::Ordering;

/// What a result or an exoneration is put in order by.
#[derive(Clone, Copy)]
pub(crate) struct Key<'a> {
    pub(crate) test: &'a str,
    pub(crate) pairs: &'a [Pair],
    pub(crate) expected: bool,
    pub(crate) invocation: &'a str,
    pub(crate) id: &'a str,
    pub(crate) place: u32,
}

/// What stands for a row that isn't there.
pub(crate) fn no_key<'a>() -> Key<'a>
    ensures { seen result ≡ no_key }
{
    Key {
        test: "",
        pairs: &[],
        expected: false,
        invocation: "",
        id: "",
        place: 0,
    }
}

/// Two pairs, by the bytes of their keys and then of their values.
fn compare_pair(a: &Pair, b: &Pair) -> Ordering
    ensures { result ≡ pair_order a.now b.now }
{
    a.key
        .as_slice()
        .cmp(b.key.as_slice())
        .then(a.value.as_slice().cmp(b.value.as_slice()))
}

/// Two variants, pair by pair.
pub(crate) fn compare_pairs(a: &[Pair], b: &[Pair]) -> Ordering
    ensures { result ≡ pairs_order a.now b.now }
{
    for at in 0..a.len() {
        if at >= b.len() {
            return Ordering::Greater;
        }
        let order = compare_pair(&a[at], &b[at]);
        if order != Ordering::Equal {
            return order;
        }
    }
    a.len().cmp(&b.len())
}

/// Two keys, by the test and the variant alone.
pub(crate) fn compare_groups(a: &Key, b: &Key) -> Ordering
    ensures { result ≡ group_order (seen a.now) (seen b.now) }
{
    a.test.cmp(b.test).then(compare_pairs(a.pairs, b.pairs))
}

/// Two keys of one test and variant.
fn compare_own(a: &Key, b: &Key) -> Ordering
    ensures { result ≡ own_order (seen a.now) (seen b.now) }
{
    let rest = a.id.cmp(b.id).then(a.place.cmp(&b.place));
    a.expected
        .cmp(&b.expected)
        .then(a.invocation.cmp(b.invocation).then(rest))
}

/// Two keys.
pub(crate) fn compare_keys(a: &Key, b: &Key) -> Ordering
    ensures { result ≡ key_order (seen a.now) (seen b.now) }
{
    compare_groups(a, b).then(compare_own(a, b))
}
