//! Methods, by their names: what is written of the request that a body asks for.
use message_forms::{FormFault, Method, read_request, refusal_of, write_refusal, write_request};
use std::alloc::{AllocError, Global};

/// The services, as pRPC names them.
const RECORDER: &str = "luci.resultdb.v1.Recorder";

const READER: &str = "luci.resultdb.v1.ResultDB";

/// The service that has a method; the recorder where there is no such method.
fn service_of(method: &[u8]) -> &'static str {
    match Method::of(READER.as_bytes(), method) {
        Some(_) => READER,
        None => RECORDER,
    }
}

/// What is written of the request that a body asks for, or the text of its refusal, in which the
/// method stands for the target.
pub(crate) fn told(alloc: Global, method: &str, body: &[u8]) -> Result<Vec<u8>, AllocError> {
    let method = method.as_bytes();
    let service = service_of(method).as_bytes();
    match read_request(alloc, service, method, body) {
        Ok(request) => Ok(write_request(alloc, &request)?.into_vec()),
        Err(fault) => refused(alloc, method, &fault),
    }
}

/// The text of the refusal of a fault.
fn refused(alloc: Global, target: &[u8], fault: &FormFault) -> Result<Vec<u8>, AllocError> {
    let refusal = refusal_of(alloc, target, fault)?;
    if refusal.rule < 1 || refusal.rule > 21 {
        return Err(AllocError);
    }
    Ok(write_refusal(alloc, &refusal)?.body.into_vec())
}
