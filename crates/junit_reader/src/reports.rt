//! Reports, read to their cases or to their first fault in one pass.
ghost use Rattle.std.specs.Prelude.{◌≡◌, ◌≢◌, ◌<◌, length, Err, IfErr, IfOk};
ghost use Rattle.junit_parts.specs.Reports.{HasCases, HasFault, IsDocument, IsFlawed, text_place};

use crate::answers::{answer_of, long_fault};
use crate::reading::Reading;
use junit_parts::{Cause, Flaw, JunitFault, Stop, Unread, document_of, read_construct};
use names_realms::Case;
use std::alloc::Global;

/// The cases of a document, or its first flaw.
fn read_document(alloc: Global, document: &[u8]) -> Result<Vec<Case>, Stop>
    ensures ok { IfOk result (λ v. IsDocument document.now v.items) }
    ensures flawed { IfErr result (IsFlawed document.now) }
{
    let mut reading = Reading::new(alloc);
    let mut rest = document;
    while !rest.is_empty() {
        let left = rest.len();
        match read_construct(alloc, rest) {
            Ok((construct, behind)) => {
                reading.take(alloc, left, construct)?;
                rest = behind;
            }
            Err(Unread::Memory) => return Err(Stop::Memory),
            Err(Unread::Broken) => {
                return Err(Stop::Flawed(Flaw {
                    left,
                    cause: Cause::NotWellFormed,
                }));
            }
        }
    }
    reading.end()
}

/// The cases of a JUnit XML report, or its first fault.
///
/// The bytes are UTF-8 of at most 64 MiB, in the profile of XML 1.0 that `docs/formats.md` says. Of
/// more bytes `NotText` is told, and nothing else is read: at a byte that is no UTF-8, or behind 64
/// MiB. Of several faults the one with the least place is told; of one place `NotText`,
/// `NotWellFormed`, `Unsupported`, `NoRoot`, `MissingName`, `BadTime` and `TooDeep`, in this order.
/// Takes time linear in the bytes, and n log n in the attributes of one element; room for the
/// cases, for what is open, and for the attributes of one tag.
pub fn read_report(alloc: Global, bytes: &[u8]) -> Result<Vec<Case>, JunitFault>
    // What is read are the cases of the one tree that the report is a print of.
    ensures ok { IfOk result (λ v. HasCases bytes.now v.items) }
    // Every other report is refused by its first fault.
    ensures err { IfErr result (λ f. f ≢ JunitFault.Memory → HasFault bytes.now f) }
    // Past 64 MiB that is told, whatever else is wrong and however little memory there is.
    ensures long { 67_108_864 < length bytes.now
        → result ≡ Err (JunitFault.NotText (text_place bytes.now)) }
{
    if let Some(fault) = long_fault(bytes) {
        return Err(fault);
    }
    answer_of(bytes, read_document(alloc, document_of(bytes)))
}
