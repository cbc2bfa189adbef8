//! The arguments of the command `send`.

use crate::answers::{dir_of, number_of, receiver_of, reporting_of, time_ms};
use crate::{Following, ReadExtent, Sending, SettingsFile, Task};
use clap::ArgMatches;

/// Returns how far the log is to be read.
fn reading_of<'a>(options: &ArgMatches<'a>) -> Option<ReadExtent<'a>> {
    if !options.get_flag("follow") {
        return Some(ReadExtent::Whole);
    }
    Some(ReadExtent::Follow(Following {
        stop_file: options.get_str("stop-file"),
        waits: options.get_flag("wait"),
        poll_ms: number_of(options, "poll-ms")?,
        flush_ms: number_of(options, "flush-ms")?,
        reshard_ms: number_of(options, "reshard-ms")?,
    }))
}

/// How many milliseconds `--max-skew` has if only `--snappy` is given.
const SNAPPY_SKEW_MS: u64 = 600_000;

/// Returns how many milliseconds `--max-skew` has if it is not given.
fn default_skew_ms(options: &ArgMatches<'_>) -> Option<u64> {
    if options.get_flag("snappy") {
        Some(SNAPPY_SKEW_MS)
    } else {
        None
    }
}

/// Returns the milliseconds of the time that an option gives, or else this default. `None` if its
/// value is not a valid time.
fn time_of(options: &ArgMatches<'_>, name: &str, default: Option<u64>) -> Option<Option<u64>> {
    match options.get_str(name) {
        Some(time) => Some(Some(time_ms(time)?)),
        None => Some(default),
    }
}

/// Returns what the options of `send` ask for.
pub(crate) fn send_task<'a>(
    settings: SettingsFile<'a>,
    options: &ArgMatches<'a>,
) -> Option<Task<'a>> {
    let dir = dir_of(options)?;
    let to = receiver_of(options)?;
    let Some(reading) = reading_of(options) else {
        return None;
    };
    let Some(reporting) = reporting_of(options) else {
        return None;
    };
    let give_up_ms = time_of(options, "give-up", None)?;
    let max_skew_ms = time_of(options, "max-skew", default_skew_ms(options))?;
    Some(Task::Send {
        settings,
        sending: Sending {
            dir,
            to,
            reading,
            reporting,
            fails_on_drop: options.get_flag("fail-on-drop"),
            fails_on_empty: options.get_flag("fail-on-empty"),
            fails_on_gap: options.get_flag("fail-on-gap"),
            fails_on_skip: options.get_flag("fail-on-skip"),
            stops_on_refusal: options.get_flag("stop-on-refusal"),
            give_up_ms,
            max_batch_bytes: options.get_one::<u64>("max-batch-bytes"),
            sends_snappy: options.get_flag("snappy"),
            max_skew_ms,
            resume: options.get_str("resume"),
        },
    })
}
