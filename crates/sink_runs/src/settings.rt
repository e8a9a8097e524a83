//! The configuration under which a report is uploaded.
ghost use Rattle.std.specs.Prelude.{MatchResult};
ghost use Rattle.sink_runs.specs.Configs.{HasSettings, IsNoSettings};

use crate::ending::SinkEnd;
use outside::Source;
use sink_settings::{SettingsFault, SinkSettings, read_settings};
use std::alloc::Global;
use whole_reads::{ReadEnd, read_front};

/// The most that is read of a configuration: one byte more than it may have.
const MOST_READ: usize = 4_194_305;

/// Reads the configuration to its end, or to where it is too long in any case.
pub(crate) fn read_config<I: Source>(alloc: Global, config: &mut I) -> Result<SinkSettings, SinkEnd>
    ensures { MatchResult result
        (λ settings. HasSettings (I.ends config.old) settings (I.ends config.new))
        (λ end. IsNoSettings (I.ends config.old) end (I.ends config.new)) }
{
    let text = match read_front(alloc, config, MOST_READ) {
        Ok(text) => text,
        Err(ReadEnd::Failed) => return Err(SinkEnd::ConfigFault),
        Err(ReadEnd::Memory) => return Err(SinkEnd::Memory),
    };
    match read_settings(alloc, text.as_slice()) {
        Ok(settings) => Ok(settings),
        Err(SettingsFault::Memory) => Err(SinkEnd::Memory),
        Err(fault) => Err(SinkEnd::ConfigRefused(fault)),
    }
}
