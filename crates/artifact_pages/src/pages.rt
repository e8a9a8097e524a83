//! The page that is asked.
ghost use Rattle.std.specs.Prelude.{◌≡◌, ◌<◌, ◌++◌, ◌∷◌, [], Some, IfOk, OnOk, map, length, slice_get, option_map};
ghost use Rattle.std.specs.Prelude.{string_bytes};
ghost use Rattle.std.specs.List.{All};
ghost use Rattle.artifacts.specs.Artifacts.{keys_of};
ghost use Rattle.artifacts.specs.Orders.{id_at};
ghost use Rattle.artifact_replies.specs.ArtifactForms.Tokens.{token_text};
ghost use Rattle.artifact_pages.specs.Pages.{IsShownPage, next_token};

use crate::queries::ArtifactQuery;
use artifact_replies::ShownArtifacts;
use artifacts::{Artifact, ArtifactPage, ArtifactRows};
use page_tokens::{ArtifactCursor, Query, write_token};
use std::alloc::{AllocError, Global};

/// Appends the row at a place.
fn add_row<'t>(
    rows: &mut Vec<&'t Artifact>,
    table: &'t ArtifactRows,
    place: u32,
) -> Result<(), AllocError>
    requires { place < length table.now.rows }
    ensures { OnOk result (map (λ row. Some row.now) rows.new.items
        ≡ map (λ row. Some row.now) rows.old.items ++ slice_get table.now.rows place ∷ []) }
{
    rows.push(table.row(place))?;
    Ok(())
}

/// The rows at places.
fn rows_at<'t>(
    alloc: Global,
    table: &'t ArtifactRows,
    places: &[u32],
) -> Result<Vec<&'t Artifact>, AllocError>
    requires { All (λ place. place < length table.now.rows) places.now }
    ensures { IfOk result (λ rows. map (λ row. Some row.now) rows.items
        ≡ map (slice_get table.now.rows) places.now) }
{
    let mut rows = Vec::with_capacity(alloc, places.len())?;
    for i in 0..places.len() {
        add_row(&mut rows, table, places[i])?;
    }
    Ok(rows)
}

/// The token of the page behind the row at a place.
fn token_behind(
    alloc: Global,
    table: &ArtifactRows,
    query: &Query,
    place: u32,
) -> Result<String, AllocError>
    requires { place < length table.now.rows }
    ensures { IfOk result (λ text. string_bytes text ≡ token_text query.now
        (record { artifact = id_at (keys_of table.now.rows) place })) }
{
    let row = table.row(place);
    let artifact = row.name.artifact.try_clone(alloc)?;
    write_token(alloc, &ArtifactCursor { artifact }, query)
}

/// The token of the page behind the rows at places, where more are left.
fn token_of(
    alloc: Global,
    table: &ArtifactRows,
    query: &Query,
    page: &ArtifactPage,
) -> Result<Option<String>, AllocError>
    requires { All (λ place. place < length table.now.rows) page.now.rows.now }
    ensures { IfOk result (λ next. option_map string_bytes next
        ≡ next_token table.now.rows query.now page.now.rows.now page.now.more) }
{
    let places = page.rows;
    if places.is_empty() || !page.more {
        return Ok(None);
    }
    let text = token_behind(alloc, table, query, places[places.len() - 1])?;
    Ok(Some(text))
}

/// The page that is asked: the artifacts behind the last one that was shown, by id, as many as were
/// asked for, and the token of the next page where more are left. It costs its own rows, and some
/// look-ups by binary search. `Err` where there is no memory for it.
pub fn show_artifacts<'t>(
    alloc: Global,
    table: &'t ArtifactRows,
    asked: &ArtifactQuery,
) -> Result<ShownArtifacts<'t>, AllocError>
    ensures { IfOk result (λ shown. IsShownPage table.now.rows asked.now shown) }
{
    let after = asked.after.as_ref();
    let page = table.list(asked.holder, &asked.parent, after, asked.size);
    let rows = rows_at(alloc, table, page.rows)?;
    let next = token_of(alloc, table, &asked.query, &page)?;
    Ok(ShownArtifacts { rows, next })
}
