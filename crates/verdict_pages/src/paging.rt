//! Pages.
ghost use Rattle.std.specs.Prelude.{◌≡◌, ◌≤◌, length, take, drop, nat_lt};
ghost use Rattle.std.specs.Option.{option_map, option_copied};
ghost use Rattle.verdict_lists.specs.World.{world_of};
ghost use Rattle.verdict_pages.specs.Keys.{KeysRise, ResultKeysRise, more_results, more_verdicts, place_seen};
ghost use Rattle.verdict_pages.specs.Keys.{result_rows, result_seen, results_behind, verdict_rows, verdicts_behind};

use crate::keys::{ResultKey, VerdictKey, compare, compare_results, result_key, verdict_key};
use verdict_lists::{Verdict, View};

/// Some rows of a list, and whether more stand behind them.
#[derive(Clone, Copy)]
pub struct Page<'a, T> {
    pub rows: &'a [T],
    pub more: bool,
}

/// So many first rows from a place on.
fn page_from<T>(list: &[T], start: usize, size: usize) -> Page<'_, T>
    requires { start ≤ length list.now }
    ensures rows { result.rows.now ≡ take size (drop start list.now) }
    ensures more { result.more ≡ nat_lt size (length (drop start list.now)) }
{
    let behind = &list[start..];
    let more = size < behind.len();
    let rows = if more { &behind[..size] } else { behind };
    Page { rows, more }
}

/// The place of the first verdict behind a key.
fn place_behind(view: &View, list: &[Verdict], after: &VerdictKey) -> usize
    requires { KeysRise (world_of view.now) list.now }
    ensures within { result ≤ length list.now }
    ensures behind { drop result list.now
        ≡ verdicts_behind (world_of view.now) list.now (place_seen after.now) }
{
    list.partition_point(|verdict| compare(&verdict_key(view, verdict), after).is_le())
}

/// The first verdicts of a list behind a key, at most so many, or from its start where there is
/// none; and whether more are left. It takes no memory.
pub fn verdict_page<'a>(
    view: &View,
    list: &'a [Verdict],
    after: Option<&VerdictKey>,
    size: usize,
) -> Page<'a, Verdict>
    requires { KeysRise (world_of view.now) list.now }
    ensures rows { result.rows.now ≡ verdict_rows (world_of view.now) list.now
        (option_map place_seen (option_copied after.entry)) size }
    ensures more { result.more ≡ more_verdicts (world_of view.now) list.now
        (option_map place_seen (option_copied after.entry)) size }
{
    match after {
        Some(key) => page_from(list, place_behind(view, list, key), size),
        None => page_from(list, 0, size),
    }
}

/// The place in a list of the first result behind a key.
fn result_behind(view: &View, list: &[u32], after: &ResultKey) -> usize
    requires { ResultKeysRise (world_of view.now) list.now }
    ensures within { result ≤ length list.now }
    ensures behind { drop result list.now
        ≡ results_behind (world_of view.now) list.now (result_seen after.now) }
{
    list.partition_point(|place| compare_results(&result_key(view, *place), after).is_le())
}

/// The first results of a list behind a key, at most so many, or from its start where there is
/// none; and whether more are left. It takes no memory.
pub fn result_page<'a>(
    view: &View,
    list: &'a [u32],
    after: Option<&ResultKey>,
    size: usize,
) -> Page<'a, u32>
    requires { ResultKeysRise (world_of view.now) list.now }
    ensures rows { result.rows.now ≡ result_rows (world_of view.now) list.now
        (option_map result_seen (option_copied after.entry)) size }
    ensures more { result.more ≡ more_results (world_of view.now) list.now
        (option_map result_seen (option_copied after.entry)) size }
{
    match after {
        Some(key) => page_from(list, result_behind(view, list, key), size),
        None => page_from(list, 0, size),
    }
}
