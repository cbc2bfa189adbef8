//! The arguments of the command `receive`.

use crate::answers::{address_of, number_of, reporting_of, span_ms};
use crate::{Receiving, SettingsFile, Task, Until};
use clap::ArgMatches;

/// Returns how long connections are to be served.
fn until_of<'a>(options: &ArgMatches<'a>) -> Option<Until<'a>> {
    if !options.get_flag("until-eof") {
        return Some(Until::Connections(number_of(options, "connections")?));
    }
    match options.get_str("stop-file") {
        Some(file) => Some(Until::FileIs(file)),
        None => Some(Until::InputEnds),
    }
}

/// For how many milliseconds a request may come to a service that no number of connections ends.
const MOST_REQUEST_MS: u64 = 3_600_000;

/// How many bytes of unfinished requests such a service may have in memory.
const MOST_INFLIGHT_BYTES: u64 = 256 * 1024 * 1024;

/// Returns a bound that an option gives or, in a service that no number of connections ends, its
/// default.
fn bound_of(options: &ArgMatches<'_>, name: &str, default: u64) -> Option<u64> {
    match options.get_one::<u64>(name) {
        Some(bound) => Some(bound),
        None if options.get_flag("until-eof") => Some(default),
        None => None,
    }
}

/// Returns what the options of `receive` ask for.
pub(crate) fn receive_task<'a>(
    settings: SettingsFile<'a>,
    options: &ArgMatches<'a>,
) -> Option<Task<'a>> {
    let listen = address_of(options, "listen")?;
    let idle_ms = number_of(options, "idle-ms")?;
    let request_ms = number_of(options, "request-ms")?;
    let Some(until) = until_of(options) else {
        return None;
    };
    let Some(reporting) = reporting_of(options) else {
        return None;
    };
    let memory_ms = match options.get_str("memory") {
        Some(span) => Some(span_ms(span)?),
        None => None,
    };
    Some(Task::Receive {
        settings,
        receiving: Receiving {
            listen,
            until,
            idle_ms,
            request_ms,
            max_request_ms: bound_of(options, "max-request-ms", MOST_REQUEST_MS),
            max_inflight_bytes: bound_of(options, "max-inflight-bytes", MOST_INFLIGHT_BYTES),
            takes_snappy: options.get_flag("snappy"),
            takes_parts: options.get_flag("partial"),
            sorts_labels: options.get_flag("sort-labels"),
            explains_replies: options.get_flag("explain-replies"),
            max_samples: options.get_one::<u64>("max-samples"),
            max_series: options.get_one::<u64>("max-series"),
            dir: options.get_str("dir"),
            is_quiet: options.get_flag("quiet"),
            has_decimals: options.get_flag("decimal"),
            memory_ms,
            ends_on_write_error: options.get_flag("end-on-write-error"),
            adopts: options.get_flag("adopt"),
            allows_missing_start: options.get_flag("allow-missing-start"),
            cuts_at_fault: options.get_flag("cut-at-fault"),
            reporting,
        },
    })
}
