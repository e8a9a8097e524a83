//! Replies and their texts.
ghost use Rattle.std.specs.Prelude.{◌≡◌, IfOk};
ghost use Rattle.message_forms.specs.Replies.{reply_text};

use crate::batches::{ShownExonerations, ShownResults};
use crate::names::{test_exonerations, test_results};
use artifact_replies::{Artifact, ShownArtifacts, append_artifact, append_artifacts};
use invocation_texts::append_invocation;
use lists::Bytes;
use query_forms::ShownInvocation;
use result_texts::{append_exonerations, append_results};
use std::alloc::{AllocError, Global};
use std::marker::Model;

/// An artifact whole. Contracts see the artifact.
#[derive(Drop)]
pub struct ShownArtifact<'r> {
    pub row: &'r Artifact,
}

impl<'r> Model for ShownArtifact<'r> {
    ghost use Rattle.artifact_replies.specs.Artifacts.declared.artifact.Artifact.{Artifact};

    ghost Value = { Artifact };

    ghost view = { λ s. s.row.now };
}

/// A reply: what it shows.
#[derive(Drop)]
pub enum Reply<'r, 'i> {
    /// Nothing but that it was done.
    Empty,
    /// An invocation, as it stands.
    Invocation(ShownInvocation<'r, 'i>),
    /// The results of a batch.
    Results(ShownResults<'r>),
    /// The exonerations of a batch.
    Exonerations(ShownExonerations<'r>),
    /// The artifacts of a batch or of a page, each as a line.
    Artifacts(ShownArtifacts<'r>),
    /// An artifact, with its contents.
    Artifact(ShownArtifact<'r>),
}

/// The text of a reply that shows nothing.
fn write_empty(alloc: Global) -> Result<Bytes, AllocError>
    ensures { IfOk result (λ text. text ≡ reply_text Reply.Empty) }
{
    let text = Vec::from_slice(alloc, b")]}'\n{}")?;
    Ok(Bytes::new(text))
}

/// Room for the text of most invocations.
const INVOCATION_ROOM: usize = 512;

/// The text of a reply that shows an invocation.
fn write_invocation(alloc: Global, shown: &ShownInvocation) -> Result<Bytes, AllocError>
    ensures { IfOk result (λ text. text ≡ reply_text (Reply.Invocation shown.now)) }
{
    let mut prefix = Vec::with_capacity(alloc, INVOCATION_ROOM)?;
    prefix.extend_from_slice(b")]}'\n")?;
    let text = append_invocation(alloc, prefix, shown)?;
    Ok(Bytes::new(text))
}

/// The text of a reply that shows results.
fn write_results(alloc: Global, shown: &ShownResults) -> Result<Bytes, AllocError>
    ensures { IfOk result (λ text. text ≡ reply_text (Reply.Results shown.now)) }
{
    let prefix = Vec::from_slice(alloc, b")]}'\n")?;
    let name = test_results();
    let text = append_results(alloc, prefix, &name, shown.invocation, shown.rows)?;
    Ok(Bytes::new(text))
}

/// The text of a reply that shows exonerations.
fn write_exonerations(alloc: Global, shown: &ShownExonerations) -> Result<Bytes, AllocError>
    ensures { IfOk result (λ text. text ≡ reply_text (Reply.Exonerations shown.now)) }
{
    let prefix = Vec::from_slice(alloc, b")]}'\n")?;
    let name = test_exonerations();
    let text = append_exonerations(alloc, prefix, &name, shown.invocation, shown.rows)?;
    Ok(Bytes::new(text))
}

/// The text of a reply that shows artifacts, each as a line.
fn write_artifacts(alloc: Global, shown: &ShownArtifacts) -> Result<Bytes, AllocError>
    ensures { IfOk result (λ text. text ≡ reply_text (Reply.Artifacts shown.now)) }
{
    let mut out = String::new(alloc);
    out.push_str(")]}'\n")?;
    append_artifacts(alloc, &mut out, shown)?;
    Ok(Bytes::new(out.into_bytes()))
}

/// The text of a reply that shows an artifact. Its contents are encoded straight into it.
fn write_artifact(alloc: Global, row: &Artifact) -> Result<Bytes, AllocError>
    ensures { IfOk result (λ text. text ≡ reply_text (Reply.Artifact row.now)) }
{
    let mut out = String::new(alloc);
    out.push_str(")]}'\n")?;
    append_artifact(alloc, &mut out, row)?;
    Ok(Bytes::new(out.into_bytes()))
}

/// The text of a reply: the prefix and compact JSON. A creator and texts of tags that aren't UTF-8,
/// as no row has them, are shown as empty. `Err` where there is no memory for it.
pub fn write_reply(alloc: Global, reply: &Reply) -> Result<Bytes, AllocError>
    ensures { IfOk result (λ text. text ≡ reply_text reply.now) }
{
    match reply {
        Reply::Empty => write_empty(alloc),
        Reply::Invocation(shown) => write_invocation(alloc, shown),
        Reply::Results(shown) => write_results(alloc, shown),
        Reply::Exonerations(shown) => write_exonerations(alloc, shown),
        Reply::Artifacts(shown) => write_artifacts(alloc, shown),
        Reply::Artifact(shown) => write_artifact(alloc, shown.row),
    }
}
