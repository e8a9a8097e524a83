//! Fields of an artifact, each read as the value that a request keeps.
ghost use Rattle.std.specs.Prelude.{◌≡◌, None, [], IfOk, IfErr};
ghost use Rattle.base64.specs.GeneralPurpose.{IsBytes};
ghost use Rattle.serde_json.specs.View.{view};
ghost use Rattle.json_fields.specs.Faults.{Says};
ghost use Rattle.json_fields.specs.Fields.{optional, set_at};
ghost use Rattle.field_kinds.specs.Defaults.{HoldsOr};
ghost use Rattle.result_forms.specs.Fields.{IsUtf8Text};
ghost use Rattle.artifact_forms.specs.Fields.{a_type, some_contents, IsContentsOf, a_size, unless_0, SaysSize};

use field_kinds::{ByteSize, ContentType, Contents, LimitedText, Whole, or_default};
use json_fields::{Name, ReadFault, optional};
use lists::Bytes;
use serde_json::Value;
use std::alloc::Global;

/// What a content is, empty where it is unset.
pub(crate) fn read_type(alloc: Global, value: &Value, name: Name) -> Result<Bytes, ReadFault>
    ensures ok { IfOk result (λ text. (optional name a_type (view value.now) ≡ None)
        × HoldsOr IsUtf8Text [] (set_at name (view value.now)) text) }
    ensures err { IfErr result (λ e. Says e (optional name a_type (view value.now))) }
{
    match or_default::<LimitedText<ContentType>>(alloc, value, name) {
        Ok(text) => Ok(text.into_bytes()),
        Err(fault) => Err(fault),
    }
}

/// That a slice of bytes has bytes.
fn see_bytes(bytes: &[u8])
    ensures { IsBytes bytes.now }
{
    let _bytes = bytes;
}

/// The bytes of contents, which are moved out.
fn bytes_of(contents: Contents) -> Bytes
    ensures same { result ≡ contents }
    ensures bytes { IsBytes contents }
{
    let bytes = contents.into_bytes();
    see_bytes(bytes.as_slice());
    bytes
}

/// Contents, empty where they are unset.
pub(crate) fn read_contents(alloc: Global, value: &Value, name: Name) -> Result<Bytes, ReadFault>
    ensures ok { IfOk result (λ bytes. (optional name some_contents (view value.now) ≡ None)
        × HoldsOr IsContentsOf [] (set_at name (view value.now)) bytes) }
    ensures err { IfErr result (λ e. Says e (optional name some_contents (view value.now))) }
{
    match optional::<Contents>(alloc, value, name) {
        Ok(Some(contents)) => Ok(bytes_of(contents)),
        Ok(None) => Ok(Bytes::new(Vec::new(alloc))),
        Err(fault) => Err(fault),
    }
}

/// A size, where it says something.
fn unless_0(size: u64) -> Option<u64>
    ensures { result ≡ unless_0 size }
{
    if size == 0 { None } else { Some(size) }
}

/// How many bytes there are, where that is said.
pub(crate) fn read_size(alloc: Global, value: &Value, name: Name) -> Result<Option<u64>, ReadFault>
    ensures ok { IfOk result (λ size. (optional name a_size (view value.now) ≡ None)
        × SaysSize (set_at name (view value.now)) size) }
    ensures err { IfErr result (λ e. Says e (optional name a_size (view value.now))) }
{
    match or_default::<Whole<ByteSize>>(alloc, value, name) {
        Ok(size) => Ok(unless_0(size.get())),
        Err(fault) => Err(fault),
    }
}
