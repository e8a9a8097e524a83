//! Laws of uploads. These functions do nothing: what each of them ensures is the law.
ghost use Rattle.upload_laws.specs.Reports.{BatchesHaveEachCase};
ghost use Rattle.upload_laws.specs.Sending.{BatchesAreRead};
ghost use Rattle.upload_laws.specs.Uploads.{UploadedIsRecorded};

/// The batches of a report's plan have each of its cases, once and in order.
pub fn batches_have_each_case()
    ensures { BatchesHaveEachCase }
{}

/// What the sink asks by a batch is read as that batch: its results, for its invocation, under its
/// number.
pub fn batches_are_read()
    ensures { BatchesAreRead }
{}

/// Each case of a report whose batches were granted in a legal history stands at its end as one
/// row, however often each batch was asked.
pub fn uploaded_is_recorded()
    ensures { UploadedIsRecorded }
{}
