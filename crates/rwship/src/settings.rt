//! The settings that a command is given.

ghost use Rattle.std.specs.Prelude.{◌≡◌, [], None, Ok, string_bytes, IfOk, IsOkAnd};
ghost use Rattle.rw_settings.specs.Settings as toml;
ghost use Rattle.rw_settings.specs.SettingsText.{settings_text};

use rw_cli::{LogDir, SettingsFile};
use rw_external_labels::ExternalLabels;
use rw_settings::{
    SentFields, Settings, SettingsFault, SettingsNote, explain_settings, print_settings,
    read_external_labels, read_sent_fields, read_settings,
};
use rw_text::ToolFault;
use rw_types::Names;
use std::io::ErrorKind;
use std::{fs, io};

/// Why there are no settings.
#[derive(Drop)]
pub enum Unset {
    /// Memory ran out.
    Tool(ToolFault),
    /// The file cannot be read; the text says why, if that was asked for.
    Unreadable(String),
    /// The file has this fault, which is not out of memory. The notes explain each of its faults,
    /// if that was asked for.
    Settings(SettingsFault, Vec<SettingsNote>),
}

/// Returns the error of a file that cannot be read.
fn unreadable(rt: &HostRuntime, path: &str, error: &io::Error, is_explained: bool) -> Unset {
    if error.kind() == ErrorKind::OutOfMemory {
        return Unset::Tool(ToolFault::OutOfMemory);
    }
    if !is_explained {
        return Unset::Unreadable(String::new(rt.alloc()));
    }
    match format!(in rt.alloc(); "cannot read {path}: {error}") {
        Ok(said) => Unset::Unreadable(said),
        Err(_) => Unset::Tool(ToolFault::OutOfMemory),
    }
}

/// Returns the text of a settings file, or the empty one if there is none.
fn text_of(rt: &HostRuntime, file: SettingsFile<'_>) -> Result<Vec<u8>, Unset>
    ensures { file.entry.path ≡ None → IfOk result (λ t. t.items ≡ []) }
{
    let Some(path) = file.path else {
        return Ok(Vec::new(rt.alloc()));
    };
    match fs::read(rt, path) {
        Ok(text) => Ok(text),
        Err(error) => Err(unreadable(rt, path, &error, file.is_explained)),
    }
}

/// Returns the error of a text that has this fault, with notes on each of its faults if they are
/// asked for.
fn refused(rt: &HostRuntime, text: &[u8], fault: SettingsFault, is_explained: bool) -> Unset {
    if fault == SettingsFault::OutOfMemory {
        return Unset::Tool(ToolFault::OutOfMemory);
    }
    if !is_explained {
        return Unset::Settings(fault, Vec::new(rt.alloc()));
    }
    match explain_settings(rt.alloc(), text) {
        Ok(notes) => Unset::Settings(fault, notes),
        Err(_) => Unset::Tool(ToolFault::OutOfMemory),
    }
}

/// Returns the settings that are asked for.
pub fn settings_in(rt: &HostRuntime, file: SettingsFile<'_>) -> Result<Settings, Unset>
    ensures { file.entry.path ≡ None → IfOk result (λ s. toml.settings_in [] ≡ Ok s) }
{
    let text = text_of(rt, file)?;
    match read_settings(rt.alloc(), &text) {
        Ok(settings) => Ok(settings),
        Err(fault) => Err(refused(rt, &text, fault, file.is_explained)),
    }
}

/// Returns what the settings that are asked for add to requests.
pub fn sent_fields_in(rt: &HostRuntime, file: SettingsFile<'_>) -> Result<SentFields, Unset> {
    let text = text_of(rt, file)?;
    match read_sent_fields(rt.alloc(), &text) {
        Ok(sent) => Ok(sent),
        Err(fault) => Err(refused(rt, &text, fault, file.is_explained)),
    }
}

/// Returns the labels that the settings that are asked for add to each series; `names` says which
/// names are accepted.
pub fn external_labels_in(
    rt: &HostRuntime,
    file: SettingsFile<'_>,
    names: Names,
) -> Result<ExternalLabels, Unset> {
    let text = text_of(rt, file)?;
    match read_external_labels(rt.alloc(), &text, names) {
        Ok(labels) => Ok(labels),
        Err(fault) => Err(refused(rt, &text, fault, file.is_explained)),
    }
}

/// Returns the settings that are asked for, as a text with each key.
pub fn settings_text(rt: &HostRuntime, file: SettingsFile<'_>) -> Result<String, Unset>
    ensures { file.entry.path ≡ None
        → IfOk result (λ t. IsOkAnd (toml.settings_in []) (λ s. string_bytes t ≡ settings_text s)) }
{
    let text = text_of(rt, file)?;
    match print_settings(rt.alloc(), &text) {
        Ok(text) => Ok(text),
        Err(fault) => Err(refused(rt, &text, fault, file.is_explained)),
    }
}

/// Returns a folder as it is read if not only the options, but also these settings say how.
pub fn dir_with<'a>(dir: LogDir<'a>, settings: &Settings) -> LogDir<'a> {
    LogDir {
        may_compress: dir.may_compress || settings.may_compress,
        ..dir
    }
}
