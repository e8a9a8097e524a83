//! What is asked of the artifacts of a parent.
ghost use Rattle.std.specs.Prelude.{◌≡◌, IfOk, option_map};
ghost use Rattle.artifact_pages.specs.Pages.{query_from};

use artifact_replies::ListArtifacts;
use names_realms::{ArtifactId, Parent};
use page_tokens::{ArtifactCursor, Query};
use std::alloc::{AllocError, Global};

/// A page of the artifacts of a parent.
#[derive(Drop)]
pub struct ArtifactQuery {
    /// The place of the invocation that holds them.
    pub holder: u32,
    pub parent: Parent,
    /// The query for which the tokens of the pages hold.
    pub query: Query,
    /// The id of the last artifact that was shown, where one was.
    pub after: Option<ArtifactId>,
    /// How many artifacts the page has at most.
    pub size: u32,
}

/// The id at a place, where one is given.
fn id_at(alloc: Global, cursor: &Option<ArtifactCursor>) -> Result<Option<ArtifactId>, AllocError>
    ensures { IfOk result (λ id. id ≡ option_map (λ c. c.artifact) cursor.now) }
{
    match cursor {
        Some(cursor) => Ok(Some(cursor.artifact.try_clone(alloc)?)),
        None => Ok(None),
    }
}

impl ArtifactQuery {
    /// The page that a request asks for, where the invocation at this place holds the artifacts of
    /// its parent. `Err` where there is no memory for it.
    pub fn of(
        alloc: Global,
        holder: u32,
        request: &ListArtifacts,
    ) -> Result<ArtifactQuery, AllocError>
        ensures { IfOk result (λ query. query ≡ query_from holder request.now) }
    {
        Ok(ArtifactQuery {
            holder,
            parent: request.parent.try_clone(alloc)?,
            query: request.query(alloc)?,
            after: id_at(alloc, &request.page_token)?,
            size: request.counted_size(),
        })
    }
}
