//! The request of a batch as bytes.
ghost use Rattle.std.specs.Prelude.{◌≡◌, ◌++◌, IfOk, OnOk, length};
ghost use Rattle.call_forms.specs.ReplyBytes.{line};
ghost use Rattle.sink_uploads.specs.Requests.{batch_body, batch_text, head_text};

use itoa::Buffer;
use lists::Bytes;
use message_forms::{BatchCreateTestResults, LimitedText, Request, RequestId, write_request};
use names_realms::InvocationId;
use sink_plans::SinkBatch;
use std::alloc::{AllocError, Global};

/// Where a batch goes, and by which tokens.
#[derive(Clone, Copy)]
pub struct Target<'p> {
    pub invocation: &'p InvocationId,
    pub bearer: &'p Bytes,
    pub update_token: &'p Bytes,
}

/// The request of a batch: a head, and the text of the batch as its body. `Err` where there is no
/// memory for it, or the batch's number is none that a request can have.
pub fn batch_text(alloc: Global, target: Target<'_>, batch: SinkBatch) -> Result<Bytes, AllocError>
    ensures { IfOk result (λ text. text ≡ batch_text target.entry.invocation.now
        target.entry.bearer.now target.entry.update_token.now batch) }
{
    let body = batch_body(alloc, target.invocation, batch)?;
    let mut text = head_text(alloc, target, body.len())?;
    text.extend_from_slice(body.as_slice())?;
    Ok(Bytes::new(text))
}

/// What the request of a batch asks for, as compact JSON.
fn batch_body(
    alloc: Global,
    invocation: &InvocationId,
    batch: SinkBatch,
) -> Result<Bytes, AllocError>
    ensures { IfOk result (λ body. body ≡ batch_body invocation.now batch) }
{
    let request_id = request_id_of(alloc, batch.request_id.as_slice())?;
    let invocation = invocation.try_clone(alloc)?;
    let request = Request::BatchCreateTestResults(BatchCreateTestResults {
        invocation,
        request_id: Some(request_id),
        requests: batch.results,
    });
    write_request(alloc, &request)
}

/// The number of a request. A text that is none, of which a plan has none, is told as want of
/// memory.
fn request_id_of(alloc: Global, text: &[u8]) -> Result<LimitedText<RequestId>, AllocError>
    ensures { IfOk result (λ id. id ≡ text.now) }
{
    let Ok(text) = str::from_utf8(text) else {
        return Err(AllocError);
    };
    match LimitedText::parse(alloc, text) {
        Ok(id) => Ok(id),
        Err(_) => Err(AllocError),
    }
}

/// The head of a request with a body of so many bytes.
#[tactic(auto, unfolding(crate::specs::Requests::head_text))]
fn head_text(alloc: Global, target: Target<'_>, len: usize) -> Result<Vec<u8>, AllocError>
    ensures { IfOk result (λ head. head.items ≡ head_text target.entry.bearer.now
        target.entry.update_token.now len) }
{
    let mut head = Vec::new(alloc);
    head.extend_from_slice(
        b"POST /prpc/luci.resultdb.v1.Recorder/BatchCreateTestResults HTTP/1.1\r\n",
    )?;
    put_line(
        &mut head,
        b"Authorization: Bearer ",
        target.bearer.as_slice(),
    )?;
    put_line(&mut head, b"Update-Token: ", target.update_token.as_slice())?;
    put_line(
        &mut head,
        b"Content-Length: ",
        Buffer::new().format(len).as_bytes(),
    )?;
    head.extend_from_slice(b"\r\n")?;
    Ok(head)
}

fn put_line(head: &mut Vec<u8>, name: &[u8], value: &[u8]) -> Result<(), AllocError>
    ensures { OnOk result (head.new.items ≡ head.old.items ++ line (name.now ++ value.now)) }
{
    head.extend_from_slice(name)?;
    head.extend_from_slice(value)?;
    head.extend_from_slice(b"\r\n")
}
