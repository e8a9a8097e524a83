//! Why a sink's configuration is refused.
ghost use Rattle.std.specs.Prelude.{◌≡◌};
ghost use Rattle.sink_settings.specs.Faults.{fault_number, fault_name};

use lists::Bytes;
use std::alloc::AllocError;

/// Why a sink's configuration is refused. A path may be any text of it, so nothing prints a fault
/// whole. The numbers are those that the service's configuration has for faults of these names.
#[derive(Drop)]
pub enum SettingsFault {
    /// The text is no TOML document.
    NotToml,
    /// At the path stands a token outside its form.
    BadName { at: Bytes },
    /// There are more than 4 MiB, so many.
    TooMany { count: usize },
    /// At the path a key is absent or unknown, or a value is no text.
    BadShape { at: Bytes },
    /// There was no memory. Of the text nothing is said.
    Memory,
}

impl From<AllocError> for SettingsFault {
    ghost use Rattle.std.specs.Prelude.{◌≡◌};
    ghost use Rattle.sink_settings.specs.declared.fault.SettingsFault.TheVariants.{Memory};

    ghost from_gives = { λ _ e. e ≡ Memory };

    fn from(_e: AllocError) -> SettingsFault {
        SettingsFault::Memory
    }
}

impl SettingsFault {
    /// The number of the fault. A want of memory has 0.
    pub fn number(&self) -> u8
        ensures { result ≡ fault_number self.now }
    {
        match self {
            SettingsFault::NotToml => 1,
            SettingsFault::BadName { .. } => 2,
            SettingsFault::TooMany { .. } => 7,
            SettingsFault::BadShape { .. } => 8,
            SettingsFault::Memory => 0,
        }
    }

    /// The name of the fault.
    pub fn name(&self) -> &'static str
        ensures { result.now ≡ fault_name self.now }
    {
        match self {
            SettingsFault::NotToml => "NotToml",
            SettingsFault::BadName { .. } => "BadName",
            SettingsFault::TooMany { .. } => "TooMany",
            SettingsFault::BadShape { .. } => "BadShape",
            SettingsFault::Memory => "Memory",
        }
    }
}
