//! The names of the members of batches and of their rows.
ghost use Rattle.std.specs.Prelude.{◌≡◌};
ghost use Rattle.result_forms.specs.Names.{invocation, request_id, requests, test_result, test_exoneration, test_id};
ghost use Rattle.result_forms.specs.Names.{result_id, variant, expected, status, summary_html, start_time, duration};
ghost use Rattle.result_forms.specs.Names.{tags, failure_reason, primary_error_message, properties, explanation_html};
ghost use Rattle.result_forms.specs.Names.{name, variant_hash};

use json_fields::Name;

pub fn invocation() -> Name
    ensures { result ≡ invocation }
{
    Name::word("invocation")
}

pub fn request_id() -> Name
    ensures { result ≡ request_id }
{
    Name::new("requestId", "request_id")
}

pub fn requests() -> Name
    ensures { result ≡ requests }
{
    Name::word("requests")
}

pub fn test_result() -> Name
    ensures { result ≡ test_result }
{
    Name::new("testResult", "test_result")
}

pub fn test_exoneration() -> Name
    ensures { result ≡ test_exoneration }
{
    Name::new("testExoneration", "test_exoneration")
}

pub fn test_id() -> Name
    ensures { result ≡ test_id }
{
    Name::new("testId", "test_id")
}

pub fn result_id() -> Name
    ensures { result ≡ result_id }
{
    Name::new("resultId", "result_id")
}

pub fn variant() -> Name
    ensures { result ≡ variant }
{
    Name::word("variant")
}

pub fn expected() -> Name
    ensures { result ≡ expected }
{
    Name::word("expected")
}

pub fn status() -> Name
    ensures { result ≡ status }
{
    Name::word("status")
}

pub fn summary_html() -> Name
    ensures { result ≡ summary_html }
{
    Name::new("summaryHtml", "summary_html")
}

pub fn start_time() -> Name
    ensures { result ≡ start_time }
{
    Name::new("startTime", "start_time")
}

pub fn duration() -> Name
    ensures { result ≡ duration }
{
    Name::word("duration")
}

pub fn tags() -> Name
    ensures { result ≡ tags }
{
    Name::word("tags")
}

pub fn failure_reason() -> Name
    ensures { result ≡ failure_reason }
{
    Name::new("failureReason", "failure_reason")
}

pub fn primary_error_message() -> Name
    ensures { result ≡ primary_error_message }
{
    Name::new("primaryErrorMessage", "primary_error_message")
}

pub fn properties() -> Name
    ensures { result ≡ properties }
{
    Name::word("properties")
}

pub fn explanation_html() -> Name
    ensures { result ≡ explanation_html }
{
    Name::new("explanationHtml", "explanation_html")
}

pub fn name() -> Name
    ensures { result ≡ name }
{
    Name::word("name")
}

pub fn variant_hash() -> Name
    ensures { result ≡ variant_hash }
{
    Name::new("variantHash", "variant_hash")
}
