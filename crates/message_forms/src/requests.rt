//! The table of methods: each has a pRPC service, a name, and requests of its own form, which are
//! read and written by it.
ghost use Rattle.std.specs.Prelude.{◌≡◌, None, IfOk, IfErr, OnOk};
ghost use Rattle.std.specs.List.{find};
ghost use Rattle.serde_json.specs.View.{view};
ghost use Rattle.serde_json.specs.Written.{compact_text};
ghost use Rattle.json_fields.specs.Faults.{Says};
ghost use Rattle.message_forms.specs.Reading.{Asks};
ghost use Rattle.message_forms.specs.Methods.{is_called, method_of, service_of, name_of, request_fault, method_asked};
ghost use Rattle.message_forms.specs.Methods.{request_data, Means, CanBeAsked, IsReadAgain};

use artifact_replies::{BatchCreateArtifacts, GetArtifact, ListArtifacts};
use json_fields::{Form, ReadFault};
use lists::Bytes;
use query_forms::{
    BatchCreateTestExonerations, BatchCreateTestResults, CreateInvocation, GetTestResult,
    IncludingInvocation, NamedInvocation, QueryTestResults, QueryTestVariants, UpdateInvocation,
};
use serde_json::Value;
use std::alloc::{AllocError, Global};

/// A method.
#[derive(Clone, Copy, Debug, PartialEq, Eq)]
pub enum Method {
    /// `luci.resultdb.v1.Recorder.CreateInvocation`.
    CreateInvocation,
    /// `luci.resultdb.v1.Recorder.UpdateInvocation`.
    UpdateInvocation,
    /// `luci.resultdb.v1.Recorder.FinalizeInvocation`.
    FinalizeInvocation,
    /// `luci.resultdb.v1.Recorder.UpdateIncludedInvocations`.
    UpdateIncludedInvocations,
    /// `luci.resultdb.v1.Recorder.BatchCreateTestResults`.
    BatchCreateTestResults,
    /// `luci.resultdb.v1.Recorder.BatchCreateTestExonerations`.
    BatchCreateTestExonerations,
    /// `luci.resultdb.v1.Recorder.BatchCreateArtifacts`.
    BatchCreateArtifacts,
    /// `luci.resultdb.v1.ResultDB.GetInvocation`.
    GetInvocation,
    /// `luci.resultdb.v1.ResultDB.GetTestResult`.
    GetTestResult,
    /// `luci.resultdb.v1.ResultDB.QueryTestResults`.
    QueryTestResults,
    /// `luci.resultdb.v1.ResultDB.QueryTestVariants`.
    QueryTestVariants,
    /// `luci.resultdb.v1.ResultDB.GetArtifact`.
    GetArtifact,
    /// `luci.resultdb.v1.ResultDB.ListArtifacts`.
    ListArtifacts,
}

/// What a request asks for.
#[derive(Drop)]
pub enum Request {
    /// A new invocation.
    CreateInvocation(CreateInvocation),
    /// Another deadline or other tags of an invocation.
    UpdateInvocation(UpdateInvocation),
    /// The end of an invocation.
    FinalizeInvocation(NamedInvocation),
    /// That an invocation include others.
    UpdateIncludedInvocations(IncludingInvocation),
    /// That results be added to an invocation.
    BatchCreateTestResults(BatchCreateTestResults),
    /// That exonerations be added to an invocation.
    BatchCreateTestExonerations(BatchCreateTestExonerations),
    /// That artifacts be added to an invocation.
    BatchCreateArtifacts(BatchCreateArtifacts),
    /// What an invocation is.
    GetInvocation(NamedInvocation),
    /// What a test result is.
    GetTestResult(GetTestResult),
    /// A page of the test results that invocations reach.
    QueryTestResults(QueryTestResults),
    /// A page of the verdicts of these.
    QueryTestVariants(QueryTestVariants),
    /// What an artifact is.
    GetArtifact(GetArtifact),
    /// A page of the artifacts of a parent.
    ListArtifacts(ListArtifacts),
}

/// Every method.
const EVERY: [Method; 13] = [
    Method::CreateInvocation,
    Method::UpdateInvocation,
    Method::FinalizeInvocation,
    Method::UpdateIncludedInvocations,
    Method::BatchCreateTestResults,
    Method::BatchCreateTestExonerations,
    Method::BatchCreateArtifacts,
    Method::GetInvocation,
    Method::GetTestResult,
    Method::QueryTestResults,
    Method::QueryTestVariants,
    Method::GetArtifact,
    Method::ListArtifacts,
];

/// The services, as pRPC names them.
const RECORDER: &str = "luci.resultdb.v1.Recorder";

const READER: &str = "luci.resultdb.v1.ResultDB";

/// The first of these methods that has this name at this service.
fn find_method(methods: &[Method], service: &[u8], name: &[u8]) -> Option<Method>
    ensures { result ≡ find (is_called service.now name.now) methods.now }
{
    for method in methods {
        if method.is_called(service, name) {
            return Some(*method);
        }
    }
    None
}

impl Method {
    /// The method of this name of this service, where there is one.
    pub fn of(service: &[u8], name: &[u8]) -> Option<Method>
        ensures { result ≡ method_of service.now name.now }
    {
        find_method(EVERY.as_slice(), service, name)
    }

    /// Whether it is the method of this name of this service.
    #[tactic(auto, using(crate::proofs::MethodLaws::not_named))]
    fn is_called(self, service: &[u8], name: &[u8]) -> bool
        ensures { result ≡ is_called service.now name.now self }
    {
        // Few names have the same length, and the names of both services do.
        if self.name().as_bytes() != name {
            return false;
        }
        self.service().as_bytes() == service
    }

    /// The service that has the method, and the method's name there.
    fn names(self) -> (&'static str, &'static str)
        ensures service { result.0.now ≡ service_of self }
        ensures name { result.1.now ≡ name_of self }
    {
        match self {
            Method::CreateInvocation => (RECORDER, "CreateInvocation"),
            Method::UpdateInvocation => (RECORDER, "UpdateInvocation"),
            Method::FinalizeInvocation => (RECORDER, "FinalizeInvocation"),
            Method::UpdateIncludedInvocations => (RECORDER, "UpdateIncludedInvocations"),
            Method::BatchCreateTestResults => (RECORDER, "BatchCreateTestResults"),
            Method::BatchCreateTestExonerations => (RECORDER, "BatchCreateTestExonerations"),
            Method::BatchCreateArtifacts => (RECORDER, "BatchCreateArtifacts"),
            Method::GetInvocation => (READER, "GetInvocation"),
            Method::GetTestResult => (READER, "GetTestResult"),
            Method::QueryTestResults => (READER, "QueryTestResults"),
            Method::QueryTestVariants => (READER, "QueryTestVariants"),
            Method::GetArtifact => (READER, "GetArtifact"),
            Method::ListArtifacts => (READER, "ListArtifacts"),
        }
    }

    /// The service that has the method.
    pub fn service(self) -> &'static str
        ensures { result.now ≡ service_of self }
    {
        self.names().0
    }

    /// The method's name.
    pub fn name(self) -> &'static str
        ensures { result.now ≡ name_of self }
    {
        self.names().1
    }

    /// Reads the request that a value is by the method's fields.
    pub(crate) fn read(self, alloc: Global, value: &Value) -> Result<Request, ReadFault>
        ensures ok { IfOk result (λ q. (request_fault self (view value.now) ≡ None)
            × Means self (view value.now) q) }
        ensures err { IfErr result (λ e. Says e (request_fault self (view value.now))) }
    {
        match self {
            Method::CreateInvocation => {
                Ok(Request::CreateInvocation(CreateInvocation::read(alloc, value)?))
            }
            Method::UpdateInvocation => {
                Ok(Request::UpdateInvocation(UpdateInvocation::read(alloc, value)?))
            }
            Method::FinalizeInvocation => {
                Ok(Request::FinalizeInvocation(NamedInvocation::read(alloc, value)?))
            }
            Method::UpdateIncludedInvocations => {
                Ok(Request::UpdateIncludedInvocations(IncludingInvocation::read(alloc, value)?))
            }
            Method::BatchCreateTestResults => {
                Ok(Request::BatchCreateTestResults(BatchCreateTestResults::read(alloc, value)?))
            }
            Method::BatchCreateTestExonerations => {
                Ok(Request::BatchCreateTestExonerations(BatchCreateTestExonerations::read(
                    alloc, value,
                )?))
            }
            Method::BatchCreateArtifacts => {
                Ok(Request::BatchCreateArtifacts(BatchCreateArtifacts::read(alloc, value)?))
            }
            Method::GetInvocation => {
                Ok(Request::GetInvocation(NamedInvocation::read(alloc, value)?))
            }
            Method::GetTestResult => Ok(Request::GetTestResult(GetTestResult::read(alloc, value)?)),
            Method::QueryTestResults => {
                Ok(Request::QueryTestResults(QueryTestResults::read(alloc, value)?))
            }
            Method::QueryTestVariants => {
                Ok(Request::QueryTestVariants(QueryTestVariants::read(alloc, value)?))
            }
            Method::GetArtifact => Ok(Request::GetArtifact(GetArtifact::read(alloc, value)?)),
            Method::ListArtifacts => Ok(Request::ListArtifacts(ListArtifacts::read(alloc, value)?)),
        }
    }
}

impl Request {
    /// The method that the request is one of.
    pub fn method(&self) -> Method
        ensures { result ≡ method_asked self.now }
    {
        match self {
            Request::CreateInvocation(_) => Method::CreateInvocation,
            Request::UpdateInvocation(_) => Method::UpdateInvocation,
            Request::FinalizeInvocation(_) => Method::FinalizeInvocation,
            Request::UpdateIncludedInvocations(_) => Method::UpdateIncludedInvocations,
            Request::BatchCreateTestResults(_) => Method::BatchCreateTestResults,
            Request::BatchCreateTestExonerations(_) => Method::BatchCreateTestExonerations,
            Request::BatchCreateArtifacts(_) => Method::BatchCreateArtifacts,
            Request::GetInvocation(_) => Method::GetInvocation,
            Request::GetTestResult(_) => Method::GetTestResult,
            Request::QueryTestResults(_) => Method::QueryTestResults,
            Request::QueryTestVariants(_) => Method::QueryTestVariants,
            Request::GetArtifact(_) => Method::GetArtifact,
            Request::ListArtifacts(_) => Method::ListArtifacts,
        }
    }

    /// What is written of the request, which is read again by its method.
    pub(crate) fn write(&self, alloc: Global) -> Result<Value, AllocError>
        ensures value { IfOk result (λ v. view v ≡ request_data self.now) }
        ensures again { OnOk result (CanBeAsked self.now
            → IsReadAgain (request_data self.now) self.now) }
    {
        match self {
            Request::CreateInvocation(request) => request.write(alloc),
            Request::UpdateInvocation(request) => request.write(alloc),
            Request::FinalizeInvocation(request) => request.write(alloc),
            Request::UpdateIncludedInvocations(request) => request.write(alloc),
            Request::BatchCreateTestResults(request) => request.write(alloc),
            Request::BatchCreateTestExonerations(request) => request.write(alloc),
            Request::BatchCreateArtifacts(request) => request.write(alloc),
            Request::GetInvocation(request) => request.write(alloc),
            Request::GetTestResult(request) => request.write(alloc),
            Request::QueryTestResults(request) => request.write(alloc),
            Request::QueryTestVariants(request) => request.write(alloc),
            Request::GetArtifact(request) => request.write(alloc),
            Request::ListArtifacts(request) => request.write(alloc),
        }
    }
}

/// The text of a request: compact JSON, the members by their lowerCamelCase names in byte order,
/// unset ones left out. It is read again as the same request by its method, but for an update that
/// gives nothing, for which no body asks. `Err` for want of memory alone.
pub fn write_request(alloc: Global, request: &Request) -> Result<Bytes, AllocError>
    ensures text { IfOk result (λ text. text ≡ compact_text (request_data request.now)) }
    ensures reads_back { IfOk result (λ text. CanBeAsked request.now
        → Asks (service_of (method_asked request.now)) (name_of (method_asked request.now))
        text request.now) }
{
    let value = request.write(alloc)?;
    let text = value.to_vec(alloc)?;
    Ok(Bytes::new(text))
}
