//! The configuration of the sink: the two tokens under which it uploads.
#![tactic(auto)]

mod fault;
mod forms;
mod reading;
mod settings;
#[cfg(test)]
mod tests;

pub use fault::SettingsFault;
pub use reading::read_settings;
pub use settings::SinkSettings;
