//! The values of options, and of options that several commands share.

use crate::{LogDir, Reporting, SendTo, SettingsFile};
use clap::ArgMatches;
use rw_text::{Address, read_address};
use rw_types::Bounded;

/// Returns the number that an option gives, or its default.
pub(crate) fn number_of<const LOW: u64, const HIGH: u64>(
    options: &ArgMatches<'_>,
    name: &str,
) -> Option<Bounded<LOW, HIGH>> {
    Bounded::try_new(options.get_one::<u64>(name)?)
}

/// Returns the address that an option gives, or `None` if the value is not a valid HOST:PORT.
pub(crate) fn address_of<'a>(options: &ArgMatches<'a>, name: &str) -> Option<Address<'a>> {
    read_address(options.get_str(name)?)
}

/// Returns whether a text is meant as a URL.
pub(crate) fn is_url(text: &str) -> bool {
    text.contains("://")
}

/// Returns the receiver that `--to` gives, or `None` if it is neither a URL nor a valid HOST:PORT.
pub(crate) fn receiver_of<'a>(options: &ArgMatches<'a>) -> Option<SendTo<'a>> {
    let value = options.get_str("to")?;
    if is_url(value) {
        return Some(SendTo::Url(value));
    }
    Some(SendTo::Address(read_address(value)?))
}

/// Returns the milliseconds of a span of time: a number of minutes, hours or days, as `90m`, `3h`
/// or `15d`. `None` if the text is no such span, or its number is 0.
pub(crate) fn span_ms(text: &str) -> Option<u64> {
    let (count, unit_ms) = if let Some(minutes) = text.strip_suffix("m") {
        (minutes, 60_000)
    } else if let Some(hours) = text.strip_suffix("h") {
        (hours, 3_600_000)
    } else {
        (text.strip_suffix("d")?, 86_400_000)
    };
    let Ok(count) = count.parse::<u32>() else {
        return None;
    };
    if count == 0 {
        return None;
    }
    Some(count as u64 * unit_ms)
}

/// Returns the milliseconds of a time: a number of seconds, as `30s`, or a span as `span_ms` reads
/// it. `None` if the text is no such time, or its number is 0.
pub(crate) fn time_ms(text: &str) -> Option<u64> {
    let Some(seconds) = text.strip_suffix("s") else {
        return span_ms(text);
    };
    match seconds.parse::<u32>() {
        Ok(count) if count > 0 => Some(count as u64 * 1_000),
        _ => None,
    }
}

/// Returns the folder with a log that an option gives.
pub(crate) fn dir_of<'a>(options: &ArgMatches<'a>) -> Option<LogDir<'a>> {
    let path = options.get_str("dir")?;
    Some(LogDir {
        path,
        from_checkpoint: options.get_flag("checkpoint"),
        may_compress: options.get_flag("wal-compression"),
    })
}

/// Returns which settings are asked for.
pub(crate) fn settings_of<'a>(options: &ArgMatches<'a>, is_explained: bool) -> SettingsFile<'a> {
    SettingsFile {
        path: options.get_str("settings"),
        is_explained,
    }
}

/// Returns what is to be reported of the work, or `None` if a value is not a valid HOST:PORT.
pub(crate) fn reporting_of<'a>(options: &ArgMatches<'a>) -> Option<Reporting<'a>> {
    let metrics = match options.get_str("metrics") {
        Some(value) => Some(read_address(value)?),
        None => None,
    };
    Some(Reporting {
        has_progress: options.get_flag("progress"),
        has_log: options.get_flag("log"),
        metrics,
    })
}
