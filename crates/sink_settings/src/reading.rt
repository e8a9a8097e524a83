//! The configuration of a sink, read and checked in stages.
ghost use Rattle.std.specs.Prelude.{◌≡◌, ◌≢◌, ◌<◌, ◌≤◌, [], ◌∷◌, None, length, IfOk, IfErr, OnOk, option_map};
ghost use Rattle.std.specs.Prelude.{if◌then◌else◌};
ghost use Rattle.toml.specs.Data.{Members};
ghost use Rattle.toml.specs.View.{table_view};
ghost use Rattle.policy_tables.specs.Findings.{at, least_with};
ghost use Rattle.sink_settings.specs.Settings.{most_bytes, IsDocument, settings_of, shape_fault, form_fault};
ghost use Rattle.sink_settings.specs.Settings.{IsSettingsOf, IsFirstFault, Answers};

use crate::fault::SettingsFault;
use crate::forms::{is_token, is_update_token};
use crate::settings::SinkSettings;
use policy_document::{Shape, note_unknown, read_text};
use policy_tables::{Finding, Notes};
use std::alloc::{AllocError, Global};
use toml::Table;

/// Refuses a text of more than 4 MiB.
fn check_size(text: &[u8]) -> Result<(), SettingsFault>
    ensures ok { OnOk result (length text.now ≤ most_bytes) }
    ensures err { IfErr result
        (λ f. (most_bytes < length text.now) × (f ≡ SettingsFault.TooMany (length text.now))) }
{
    if text.len() > 4_194_304 {
        return Err(SettingsFault::TooMany { count: text.len() });
    }
    Ok(())
}

/// Reads a text as TOML.
fn read_document(alloc: Global, text: &[u8]) -> Result<Table, SettingsFault>
    ensures ok { IfOk result (λ t. IsDocument text.now (table_view t)) }
    ensures err { IfErr result
        (λ f. f ≢ SettingsFault.Memory
        → (f ≡ SettingsFault.NotToml) × ((t : Members) → ¬ IsDocument text.now t)) }
{
    match toml::table_from_slice(alloc, text) {
        Ok(table) => Ok(table),
        Err(error) => {
            if error.is_memory() {
                return Err(SettingsFault::Memory);
            }
            Err(SettingsFault::NotToml)
        }
    }
}

/// Refuses a path that isn't of the document's shape.
fn no_bad_shape(least: Option<Finding>) -> Result<(), SettingsFault>
    ensures { Answers result (option_map (λ f. SettingsFault.BadShape f.path) least) }
{
    match least {
        Some(finding) => Err(SettingsFault::BadShape { at: finding.path }),
        None => Ok(()),
    }
}

/// Reads the two texts of a document.
#[tactic(auto, unfolding(crate::specs::Settings::shape_fault))]
fn read_shaped(alloc: Global, document: &Table) -> Result<SinkSettings, SettingsFault>
    ensures settings { IfOk result (λ s. s ≡ settings_of (table_view document.now)) }
    ensures fault { Answers result (shape_fault (table_view document.now)) }
{
    let mut notes = Notes::new(alloc);
    note_unknown(&mut notes, Shape::Sink, document)?;
    let token = read_text(&mut notes, document, "token")?;
    let update_token = read_text(&mut notes, document, "update_token")?;
    no_bad_shape(notes.into_least())?;
    Ok(SinkSettings {
        token,
        update_token,
    })
}

/// Notes a key whose text is outside its form.
fn note_unless(notes: &mut Notes, has_form: bool, key: &[u8]) -> Result<(), AllocError>
    requires { notes.old.path ≡ [] }
    ensures path { OnOk result (notes.new.path ≡ []) }
    ensures least { OnOk result
        (notes.new.least
        ≡ least_with notes.old.least (if has_form then [] else at key.now ∷ [])) }
{
    if has_form {
        return Ok(());
    }
    notes.note_key(key)
}

/// Refuses a path whose text is outside its form.
fn no_bad_form(least: Option<Finding>) -> Result<(), SettingsFault>
    ensures { Answers result (option_map (λ f. SettingsFault.BadName f.path) least) }
{
    match least {
        Some(finding) => Err(SettingsFault::BadName { at: finding.path }),
        None => Ok(()),
    }
}

/// Refuses texts outside their forms.
#[tactic(auto, unfolding(crate::specs::Settings::form_fault))]
fn check_forms(alloc: Global, settings: &SinkSettings) -> Result<(), SettingsFault>
    ensures { Answers result (form_fault settings.now) }
{
    let mut notes = Notes::new(alloc);
    let has_form = is_token(settings.token.as_slice());
    note_unless(&mut notes, has_form, b"token")?;
    let has_form = is_update_token(settings.update_token.as_slice());
    note_unless(&mut notes, has_form, b"update_token")?;
    no_bad_form(notes.into_least())
}

/// Reads the configuration of a sink: a TOML document with the texts `token`, 1 to 256 visible
/// bytes of ASCII, and `update_token`, 64 lower-case hex digits, and nothing else.
///
/// The first fault is answered: `TooMany` for more than 4 MiB, which is looked at before the text
/// is read, `NotToml`, `BadShape` for a key that is absent or unknown or no text, `BadName` for a
/// text outside its form. Of several of one kind it is the one with the least path in byte order.
pub fn read_settings(alloc: Global, text: &[u8]) -> Result<SinkSettings, SettingsFault>
    ensures ok { IfOk result (IsSettingsOf text.now) }
    ensures err { IfErr result (λ f. f ≢ SettingsFault.Memory → IsFirstFault text.now f) }
{
    check_size(text)?;
    let document = read_document(alloc, text)?;
    let settings = read_shaped(alloc, &document)?;
    check_forms(alloc, &settings)?;
    Ok(settings)
}
