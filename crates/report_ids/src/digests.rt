//! The ids that tell a report's results and requests from those of every other report.
ghost use Rattle.std.specs.Prelude.{◌≡◌, ◌<◌, ◌^◌, ◌++◌, ◌∷◌, IfOk, length, true};
ghost use Rattle.std.specs.Fmt.{decimal};
ghost use Rattle.std.specs.List.{list_all};
ghost use Rattle.hex.specs.Hex.{encode_lower};
ghost use Rattle.name_parts.specs.Alphabets.{is_small};
ghost use Rattle.report_ids.specs.Digests.{IsDigest, report_digest, request_id_text, result_id_text};

use names_realms::{Bytes, InvocationId, NameFault, ResultId};
use sha2::{Digest, Sha256};
use std::alloc::{AllocError, Global};
use std::marker::Model;

/// The digest of a report that goes to an invocation.
#[derive(Drop)]
pub struct ReportDigest {
    text: [u8; 64],
}

impl Model for ReportDigest {
    ghost use Rattle.std.specs.Prelude.{ℕ, List};
    ghost use Rattle.report_ids.specs.Digests.{IsDigest};

    ghost Value = { List ℕ };

    ghost view = { λ d. d.text };

    ghost invariant = { λ d. IsDigest d.text };
}

/// The hexadecimal digits of a digest.
fn hex_of(code: &[u8]) -> [u8; 64]
    requires { length code.now ≡ 32 }
    ensures value { result ≡ encode_lower code.now }
    ensures digits { list_all is_small result ≡ true }
{
    let mut text = [0u8; 64];
    let _ = hex::encode_to_slice(code, &mut text);
    text
}

/// The digest of an id and a report.
fn digest_text(id: &[u8], report: &[u8]) -> [u8; 64]
    ensures value { result ≡ report_digest id.now report.now }
    ensures digits { list_all is_small result ≡ true }
{
    let mut hasher = Sha256::new();
    hasher.update(id);
    hasher.update(b"\n");
    hasher.update(report);
    let code = hasher.finalize();
    hex_of(code.as_slice())
}

/// Digits, `-` and a number.
fn numbered(alloc: Global, digits: &[u8], number: u64) -> Result<Vec<u8>, AllocError>
    ensures { IfOk result (λ v. v.items ≡ digits.now ++ 45 ∷ decimal number) }
{
    let mut text = Vec::from_slice(alloc, digits)?;
    text.push(b'-')?;
    let decimal = number.to_string(alloc)?;
    text.extend_from_slice(decimal.as_bytes())?;
    Ok(text)
}

impl ReportDigest {
    /// The digest over the id of the invocation, a newline and the report.
    pub fn new(invocation: &InvocationId, report: &[u8]) -> ReportDigest
        ensures value { result ≡ report_digest invocation.now report.now }
        ensures digits { IsDigest (report_digest invocation.now report.now) }
    {
        ReportDigest {
            text: digest_text(invocation.as_slice(), report),
        }
    }

    /// The id of the result of the case with this number.
    pub fn result_id(&self, alloc: Global, number: u64) -> Result<ResultId, AllocError>
        ensures { IfOk result (λ id. id ≡ result_id_text self.now number) }
    {
        let text = numbered(alloc, &self.text[..8], number)?;
        match ResultId::parse(alloc, text.as_slice()) {
            Ok(id) => Ok(id),
            Err(fault) => match fault {
                NameFault::Memory => Err(AllocError),
                _ => unreachable!(),
            },
        }
    }

    /// The id of the request of the batch with this number.
    pub fn request_id(&self, alloc: Global, number: u64) -> Result<Bytes, AllocError>
        ensures { IfOk result (λ id. id ≡ request_id_text self.now number) }
    {
        let text = numbered(alloc, &self.text[..24], number)?;
        Ok(Bytes::new(text))
    }
}
