//! A run of the sink.
ghost use Rattle.std.specs.Prelude.{◌≡◌};
ghost use Rattle.sink_runs.specs.Runs.{Sending, IsSending, sending_at};
ghost use Rattle.sink_runs.specs.Statuses.{EachStatusSays};

use crate::ending::SinkEnd;
use crate::report::{Report, read_report};
use crate::settings::read_config;
use dialers::Dialer;
use outside::Source;
use program_words::SinkWords;
use sink_plans::{Destination, plan_of};
use sink_uploads::{Sent, upload};
use std::alloc::Global;

/// Reads a report and uploads the plan of its cases.
fn send<I: Source, X: Dialer>(
    alloc: Global,
    words: SinkWords,
    config: &mut I,
    input: &mut I,
    dialer: &mut X,
) -> Result<Sent, SinkEnd>
    ensures { IsSending X.L.ends words
        (record {
          config = I.ends config.old;
          input = I.ends input.old;
          dials = X.dials dialer.old;
        })
        result
        (record {
          config = I.ends config.new;
          input = I.ends input.new;
          dials = X.dials dialer.new;
        }) }
{
    let SinkWords {
        config: _,
        server: _,
        invocation,
        format,
        prefix,
    } = words;
    let settings = read_config(alloc, config)?;
    let Report { text, cases } = read_report(alloc, format, input)?;
    let to = Destination {
        invocation,
        bearer: settings.token,
        update_token: settings.update_token,
    };
    let Ok(plan) = plan_of(alloc, text.as_slice(), cases, prefix.as_str(), to) else {
        return Err(SinkEnd::Memory);
    };
    match upload(alloc, dialer, plan) {
        Ok(sent) => Ok(sent),
        Err(fault) => Err(SinkEnd::Unsent(fault)),
    }
}

/// Reads a report from `input`, and uploads the plan of its cases, under the tokens that `config`
/// names, over links that it dials and gives back.
///
/// The configuration is read first, to its end, then the report to its end, and nothing is dialled
/// before both are accepted. `Unsent` says why the upload ended before each batch was answered.
///
/// However what it came to is then told (`tell`), the exit status says one of these:
///
/// | Status | |
/// |---|---|
/// | 0 | each batch was accepted, and that was told |
/// | 2 | the configuration is refused |
/// | 4 | a read of configuration or report failed, a write to output, or the upload gave up |
/// | 5 | the report is refused |
/// | 6 | a batch was refused, or what came is no reply |
/// | 7 | memory was wanting |
/// | 9 | the output took nothing of bytes that it was given |
pub fn send_report<I: Source, X: Dialer>(
    alloc: Global,
    words: SinkWords,
    config: &mut I,
    input: &mut I,
    dialer: &mut X,
) -> Result<Sent, SinkEnd>
    ensures sent { IsSending X.L.ends words
        (sending_at (I.ends config.old) (I.ends input.old) (X.dials dialer.old))
        result
        (sending_at (I.ends config.new) (I.ends input.new) (X.dials dialer.new)) }
    ensures status { EachStatusSays X.L.ends words
        (sending_at (I.ends config.old) (I.ends input.old) (X.dials dialer.old))
        result
        (sending_at (I.ends config.new) (I.ends input.new) (X.dials dialer.new)) }
{
    send(alloc, words, config, input, dialer)
}
