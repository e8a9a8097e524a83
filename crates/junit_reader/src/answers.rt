//! What is answered of a report, by what was read of its document.
ghost use Rattle.std.specs.Prelude.{◌≡◌, ◌≢◌, ◌≤◌, ◌<◌, ◌-◌, ◌&&◌, nat_le, nat_lt, length, Err, IfErr, IfOk, IfNone};
ghost use Rattle.std.specs.Prelude.{IfSome};
ghost use Rattle.junit_parts.specs.Reports.{HasCases, HasFault, HasFlaw, IsDocument, IsFlawed, document_of, text_place};
ghost use Rattle.junit_parts.specs.Reports.{told};

use junit_parts::{Cause, Flaw, JunitFault, Stop};
use name_parts::utf8_len;
use names_realms::Case;

/// The first byte that is no UTF-8, or the one behind 64 MiB.
fn text_place(bytes: &[u8]) -> usize
    ensures { result ≡ text_place bytes.now }
{
    utf8_len(bytes).min(67_108_864)
}

/// A flaw as it is told of a report of so many bytes.
fn told(len: usize, flaw: Flaw) -> JunitFault
    ensures { result ≡ told len flaw }
{
    let at = len.saturating_sub(flaw.left);
    match flaw.cause {
        Cause::NotWellFormed => JunitFault::NotWellFormed { at },
        Cause::Unsupported(what) => JunitFault::Unsupported { at, what },
        Cause::NoRoot => JunitFault::NoRoot,
        Cause::MissingName => JunitFault::MissingName { at },
        Cause::BadTime => JunitFault::BadTime { at },
        Cause::TooDeep => JunitFault::TooDeep { at },
    }
}

/// The fault of a report of more than 64 MiB.
pub(crate) fn long_fault(bytes: &[u8]) -> Option<JunitFault>
    ensures none { IfNone result (length bytes.now ≤ 67_108_864) }
    ensures some { IfSome result (λ f. (67_108_864 < length bytes.now)
        × (f ≡ JunitFault.NotText (text_place bytes.now))) }
{
    if bytes.len() > 67_108_864 {
        Some(JunitFault::NotText {
            at: text_place(bytes),
        })
    } else {
        None
    }
}

/// Whether the text of a report of so many bytes ends before or at a place.
fn ends_before(text: usize, len: usize, left: usize) -> bool
    ensures { result ≡ (nat_lt text len && nat_le text (len - left)) }
{
    text < len && text <= len.saturating_sub(left)
}

/// The fault of a report with a flaw, whose text ends at a place.
fn fault_of(bytes: &[u8], flaw: Flaw) -> JunitFault
    requires short { length bytes.now ≤ 67_108_864 }
    requires flaw { HasFlaw (document_of bytes.now) flaw }
    ensures fault { HasFault bytes.now result }
    ensures sure { result ≢ JunitFault.Memory }
{
    let text = text_place(bytes);
    if ends_before(text, bytes.len(), flaw.left) {
        JunitFault::NotText { at: text }
    } else {
        told(bytes.len(), flaw)
    }
}

/// Why reading a report stopped, as it is answered.
fn fault_for(bytes: &[u8], stop: Stop) -> JunitFault
    requires short { length bytes.now ≤ 67_108_864 }
    requires flaw { IsFlawed (document_of bytes.now) stop }
    ensures fault { result ≢ JunitFault.Memory → HasFault bytes.now result }
    ensures memory { result ≡ JunitFault.Memory → stop ≡ Stop.Memory }
{
    match stop {
        Stop::Memory => JunitFault::Memory,
        Stop::Flawed(flaw) => fault_of(bytes, flaw),
    }
}

/// What is answered of a report of at most 64 MiB, by what was read of its document.
pub(crate) fn answer_of(
    bytes: &[u8],
    read: Result<Vec<Case>, Stop>,
) -> Result<Vec<Case>, JunitFault>
    requires short { length bytes.now ≤ 67_108_864 }
    requires document { IfOk read (λ v. IsDocument (document_of bytes.now) v.items) }
    requires flawed { IfErr read (IsFlawed (document_of bytes.now)) }
    ensures ok { IfOk result (λ v. HasCases bytes.now v.items) }
    ensures err { IfErr result (λ f. f ≢ JunitFault.Memory → HasFault bytes.now f) }
    // Memory was wanting where reading wanted it.
    ensures memory { IfErr result (λ f. f ≡ JunitFault.Memory → read ≡ Err Stop.Memory) }
{
    match read {
        Ok(cases) => {
            let text = text_place(bytes);
            if text < bytes.len() {
                return Err(JunitFault::NotText { at: text });
            }
            Ok(cases)
        }
        Err(stop) => Err(fault_for(bytes, stop)),
    }
}
