//! The words of the command line, and the texts that tell of them.
#![tactic(auto)]

mod command;
mod named_places;
mod reading;
mod serve_words;
mod sink_words;
mod texts;
mod values;
mod workload_words;

pub use command::{Command, Places, WordFault};
pub use named_places::places;
pub use reading::{read_words, words_say_one_command};
pub use serve_words::ServeWords;
pub use sink_words::{Prefix, ReportFormat, SinkWords};
pub use texts::{help_text, version_text};
pub use workload_words::WorkloadWords;
