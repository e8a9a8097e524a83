//! How a test ended, by name.
ghost use Rattle.std.specs.Prelude.{◌≡◌};
ghost use Rattle.text_kinds.specs.Statuses.{no_status, status_of, status_name};
ghost use Rattle.serde_json.specs.View.{view};

use json_fields::{FaultKind, Form, ReadFault, Status, Why, Written};
use serde_json::Value;
use std::alloc::{AllocError, Global};

/// The status of a name.
fn status_of(text: &str) -> Option<Status>
    ensures { result ≡ status_of text.now }
{
    match text {
        "PASS" => Some(Status::Pass),
        "FAIL" => Some(Status::Fail),
        "CRASH" => Some(Status::Crash),
        "ABORT" => Some(Status::Abort),
        "SKIP" => Some(Status::Skip),
        _ => None,
    }
}

/// The name of a status.
fn status_name(status: Status) -> &'static str
    ensures { result.now ≡ status_name status }
{
    match status {
        Status::Pass => "PASS",
        Status::Fail => "FAIL",
        Status::Crash => "CRASH",
        Status::Abort => "ABORT",
        Status::Skip => "SKIP",
    }
}

/// A status by its name. The unspecified one and the empty text count as unset where it must be
/// set.
#[derive(Clone, Copy, Debug, PartialEq, Eq)]
pub struct StatusName {
    pub status: Status,
}

impl Form for StatusName {
    ghost use Rattle.text_kinds.specs.Statuses.{a_status, IsStatus, no_status};

    ghost fault = { a_status };

    ghost means = { λ d x. IsStatus d x.status };

    ghost empty = { no_status };

    fn is_empty(value: &Value) -> bool {
        match value {
            Value::String(text) => text.is_empty() || text.as_str() == "STATUS_UNSPECIFIED",
            _ => false,
        }
    }

    fn read(alloc: Global, value: &Value) -> Result<StatusName, ReadFault> {
        match value {
            Value::String(text) => match status_of(text.as_str()) {
                Some(status) => Ok(StatusName { status }),
                None => Err(ReadFault::here(alloc, FaultKind::BadValue(Why::Unknown))),
            },
            _ => Err(ReadFault::here(alloc, FaultKind::WrongKind)),
        }
    }
}

impl Written for StatusName {
    ghost use Rattle.std.specs.Prelude.{false};
    ghost use Rattle.serde_json.specs.Data.{string};
    ghost use Rattle.text_kinds.specs.Statuses.{status_name};

    ghost json = { λ x. string (status_name x.status) };

    ghost blank = { λ _. false };

    fn write(&self, alloc: Global) -> Result<Value, AllocError> {
        Value::try_from_str(alloc, status_name(self.status))
    }
}
