//! The command line: the commands, their options, and the task that the arguments ask for.
#![tactic(auto)]

mod answers;
mod commands;
mod help;
mod receive;
mod receiver_url;
mod send;
mod table;

use answers::{dir_of, is_url, number_of, settings_of, span_ms, time_ms};
use clap::ArgMatches;
pub use commands::{VERSION, command_line};
use receive::receive_task;
pub use receiver_url::{ReceiverUrl, UrlFault, read_receiver_url};
use rw_text::{Address, read_address};
use rw_types::Bounded;
use send::send_task;
use std::alloc::{AllocError, Global};

/// Which settings are asked for.
#[derive(Clone, Copy)]
pub struct SettingsFile<'a> {
    /// The path of the file, or `None` for the defaults.
    pub path: Option<&'a str>,
    /// Whether each of its faults is explained.
    pub is_explained: bool,
}

/// How long connections are served.
#[derive(Clone, Copy)]
pub enum Until<'a> {
    /// Until this many have come, and have ended.
    Connections(Bounded<1, 1_000>),
    /// Until standard input ends.
    InputEnds,
    /// Until the file exists.
    FileIs(&'a str),
}

/// How a log is followed to which a server is writing.
#[derive(Clone, Copy)]
pub struct Following<'a> {
    /// It ends once this file exists, or, without one, once standard input ends.
    pub stop_file: Option<&'a str>,
    /// Whether it waits for a folder and a host that are not there yet, until the file exists.
    pub waits: bool,
    /// Look for new records every `poll_ms` milliseconds.
    pub poll_ms: Bounded<10, 60_000>,
    /// Flush a partial batch after this many milliseconds.
    pub flush_ms: Bounded<10, 3_600_000>,
    /// Adjust the number of shards every `reshard_ms` milliseconds within a segment.
    pub reshard_ms: Bounded<10, 3_600_000>,
}

/// A folder with a log.
#[derive(Clone, Copy)]
pub struct LogDir<'a> {
    pub path: &'a str,
    /// Whether its newest checkpoint is read first, and then the segments after it.
    pub from_checkpoint: bool,
    /// Whether its records may be Snappy blocks, whatever the settings say.
    pub may_compress: bool,
}

/// How far a log is read.
#[derive(Clone, Copy)]
pub enum ReadExtent<'a> {
    /// To its present end.
    Whole,
    /// While it grows, until a stop.
    Follow(Following<'a>),
}

/// What is reported of the work while it goes on.
#[derive(Clone, Copy)]
pub struct Reporting<'a> {
    /// Whether a line of progress is written to standard error every second.
    pub has_progress: bool,
    /// Whether what happens is written to standard error, with time and level.
    pub has_log: bool,
    /// The address at which the metrics are served.
    pub metrics: Option<Address<'a>>,
}

/// Where `send` sends to.
#[derive(Clone, Copy)]
pub enum SendTo<'a> {
    /// To this address; the settings say what requests name.
    Address(Address<'a>),
    /// To the receiver with this URL, which `read_receiver_url` reads.
    Url(&'a str),
}

/// What `send` is to do.
#[derive(Clone, Copy)]
pub struct Sending<'a> {
    /// The segments of this folder are shipped.
    pub dir: LogDir<'a>,
    pub to: SendTo<'a>,
    pub reading: ReadExtent<'a>,
    pub reporting: Reporting<'a>,
    /// Whether dropped samples in a complete report are a fault.
    pub fails_on_drop: bool,
    /// Whether a folder without a segment is a fault.
    pub fails_on_empty: bool,
    /// Whether a missing number between two segments is a fault.
    pub fails_on_gap: bool,
    /// Whether a record that is skipped and may hold samples is a fault.
    pub fails_on_skip: bool,
    /// Whether it stops if the receiver refuses the first batch that it answers as it would refuse
    /// all others.
    pub stops_on_refusal: bool,
    /// After how many milliseconds of the same failure it stops, if it does.
    pub give_up_ms: Option<u64>,
    /// The most bytes of a batch's body, or `None` for no limit.
    pub max_batch_bytes: Option<u64>,
    /// Whether bodies are sent as Snappy blocks, whatever the settings say.
    pub sends_snappy: bool,
    /// By how many milliseconds a sample that is sent may be later than an earlier one of the log
    /// that has no answer yet, if the options say so.
    pub max_skew_ms: Option<u64>,
    /// The file in which the position in the log is kept, if it is kept.
    pub resume: Option<&'a str>,
}

/// What `receive` is to do.
#[derive(Clone, Copy)]
pub struct Receiving<'a> {
    pub listen: Address<'a>,
    pub until: Until<'a>,
    /// For how many milliseconds a connection may be silent.
    pub idle_ms: Bounded<10, 3_600_000>,
    /// How many milliseconds a request may take, and a reply; one more for each byte of a request.
    pub request_ms: Bounded<10, 3_600_000>,
    /// How many milliseconds a request may take, however many bytes of it have come; none for no
    /// such limit.
    pub max_request_ms: Option<u64>,
    /// How many bytes of unfinished requests may be in memory; none for no limit.
    pub max_inflight_bytes: Option<u64>,
    /// Whether bodies with `Content-Encoding: snappy` are taken, whatever the settings say.
    pub takes_snappy: bool,
    /// Whether of a request that is refused as a whole the samples are taken that can be.
    pub takes_parts: bool,
    /// Whether the labels of each series are sorted before they are judged.
    pub sorts_labels: bool,
    /// Whether a reply 400 has a text that says why.
    pub explains_replies: bool,
    /// How many samples may be held; none for no limit.
    pub max_samples: Option<u64>,
    /// How many series they may be of; none for no limit.
    pub max_series: Option<u64>,
    /// The folder in which what is taken is kept as a log, if it is to be kept.
    pub dir: Option<&'a str>,
    /// Whether what is held is not printed at the end.
    pub is_quiet: bool,
    /// Whether values are printed as decimals.
    pub has_decimals: bool,
    /// For how many milliseconds samples stay in memory; none for all of them.
    pub memory_ms: Option<u64>,
    /// Whether it stops once a write to that folder has failed.
    pub ends_on_write_error: bool,
    /// Whether it goes on in a folder with segments that no receiver wrote, or of a server.
    pub adopts: bool,
    /// Whether it goes on in a folder whose first segments are missing.
    pub allows_missing_start: bool,
    /// Whether it cuts the last segment of a folder at a fault that a whole record follows.
    pub cuts_at_fault: bool,
    pub reporting: Reporting<'a>,
}

/// What the arguments ask for. A file or a folder is a path.
#[derive(Clone, Copy)]
pub enum Task<'a> {
    /// One log segment in; its body out.
    Body {
        hex: bool,
        /// Whether records of the segment may be Snappy blocks.
        may_compress: bool,
        /// Whether the damage of a segment is explained.
        is_explained: bool,
    },
    /// Log text in; one segment out, or numbered segments into `dir`.
    Log {
        hex: bool,
        pages: Bounded<1, 4096>,
        dir: Option<&'a str>,
        /// Whether values may be decimals.
        has_decimals: bool,
        /// Whether the fault of a line is explained.
        is_explained: bool,
    },
    /// One log segment in, or all segments of `dir`; the series plan out.
    Plan {
        settings: SettingsFile<'a>,
        hex: bool,
        /// Whether records may be Snappy blocks, whatever the settings say.
        may_compress: bool,
        dir: Option<LogDir<'a>>,
    },
    /// One log segment in, or all segments of `dir`; what they hold out.
    Inspect {
        dir: Option<LogDir<'a>>,
        /// Whether records may be Snappy blocks.
        may_compress: bool,
        json: bool,
        /// Whether it is explained what cannot be read.
        is_explained: bool,
    },
    /// All segments of `dir` in; the entries at the positions that `positions_of` gives out.
    Find {
        dir: LogDir<'a>,
        /// Whether it is explained what cannot be read.
        is_explained: bool,
    },
    /// An event script in; the state at its end out.
    Replay {
        settings: SettingsFile<'a>,
    },
    /// The settings out, each key with its value.
    Settings {
        settings: SettingsFile<'a>,
    },
    /// The name of the program and its version out.
    Version,
    /// Ships all segments of a folder.
    Send {
        settings: SettingsFile<'a>,
        sending: Sending<'a>,
    },
    /// Serves connections, and then prints what is held.
    Receive {
        settings: SettingsFile<'a>,
        receiving: Receiving<'a>,
    },
}

/// Returns the value of an option that has to be a HOST:PORT and is not a valid one.
fn bad_value<'a>(options: &ArgMatches<'a>, option: &str) -> Option<&'a str> {
    let value = options.get_str(option)?;
    if read_address(value).is_some() || option == "to" && is_url(value) {
        return None;
    }
    Some(value)
}

/// Returns the option and the value that is not a valid HOST:PORT, if the options have one.
fn bad_option<'a>(options: &ArgMatches<'a>) -> Option<(&'static str, &'a str)> {
    for option in ["to", "listen", "metrics"] {
        if let Some(value) = bad_value(options, option) {
            return Some((option, value));
        }
    }
    None
}

/// Returns the option and the value that is not a valid HOST:PORT, if the arguments have one.
pub fn bad_address<'a>(words: &ArgMatches<'a>) -> Option<(&'static str, &'a str)> {
    let (_, options) = words.subcommand()?;
    bad_option(options)
}

/// Returns the value of an option that has to be a time and is not a valid one.
fn bad_time<'a>(options: &ArgMatches<'a>, option: &str) -> Option<&'a str> {
    let value = options.get_str(option)?;
    if time_ms(value).is_some() {
        return None;
    }
    Some(value)
}

/// Returns the option and the value that is not a valid span of time, if the arguments have one.
pub fn bad_span<'a>(words: &ArgMatches<'a>) -> Option<(&'static str, &'a str)> {
    let (_, options) = words.subcommand()?;
    if let Some(text) = options.get_str("memory") {
        return match span_ms(text) {
            Some(_) => None,
            None => Some(("memory", text)),
        };
    }
    for option in ["give-up", "max-skew"] {
        if let Some(value) = bad_time(options, option) {
            return Some((option, value));
        }
    }
    None
}

/// Returns what the options of `inspect` ask for.
fn inspect_task<'a>(options: &ArgMatches<'a>, is_explained: bool) -> Task<'a> {
    let dir = dir_of(options);
    match dir {
        Some(dir) if options.get_str("at").is_some() => Task::Find { dir, is_explained },
        _ => Task::Inspect {
            dir,
            may_compress: options.get_flag("wal-compression"),
            json: options.get_flag("json"),
            is_explained,
        },
    }
}

/// Returns the positions that the arguments ask for, in their order.
pub fn positions_of(alloc: Global, words: &ArgMatches<'_>) -> Result<Vec<u64>, AllocError> {
    let mut positions = Vec::new(alloc);
    if let Some((_, options)) = words.subcommand() {
        if let Some(texts) = options.get_raw("at") {
            for text in texts {
                if let Ok(position) = text.parse::<u64>() {
                    positions.push(position)?;
                }
            }
        }
    }
    Ok(positions)
}

/// Returns what the options of `log` ask for.
fn log_task<'a>(options: &ArgMatches<'a>, is_explained: bool) -> Option<Task<'a>> {
    Some(Task::Log {
        hex: options.get_flag("hex"),
        pages: number_of(options, "pages")?,
        dir: options.get_str("dir"),
        has_decimals: options.get_flag("decimal"),
        is_explained,
    })
}

/// Returns what the options of `body` ask for.
fn body_task<'a>(options: &ArgMatches<'a>, is_explained: bool) -> Task<'a> {
    Task::Body {
        hex: options.get_flag("hex"),
        may_compress: options.get_flag("wal-compression"),
        is_explained,
    }
}

/// Returns what the options of a command ask for that has no `--settings`.
fn plain_task<'a>(name: &str, options: &ArgMatches<'a>, is_explained: bool) -> Option<Task<'a>> {
    if name == "body" {
        Some(body_task(options, is_explained))
    } else if name == "log" {
        log_task(options, is_explained)
    } else if name == "inspect" {
        Some(inspect_task(options, is_explained))
    } else if name == "version" {
        Some(Task::Version)
    } else {
        None
    }
}

/// Returns what the options of `plan` ask for.
fn plan_task<'a>(settings: SettingsFile<'a>, options: &ArgMatches<'a>) -> Task<'a> {
    Task::Plan {
        settings,
        hex: options.get_flag("hex"),
        may_compress: options.get_flag("wal-compression"),
        dir: dir_of(options),
    }
}

/// Returns what the options of a command ask for.
fn task_named<'a>(name: &str, options: &ArgMatches<'a>, is_explained: bool) -> Option<Task<'a>> {
    let settings = settings_of(options, is_explained);
    if name == "plan" {
        Some(plan_task(settings, options))
    } else if name == "replay" {
        Some(Task::Replay { settings })
    } else if name == "settings" {
        Some(Task::Settings { settings })
    } else if name == "send" {
        send_task(settings, options)
    } else if name == "receive" {
        receive_task(settings, options)
    } else {
        plain_task(name, options, is_explained)
    }
}

/// Returns what the arguments ask for, or `None` if a value is not a valid HOST:PORT or span of
/// time, which `bad_address` or `bad_span` returns. On a terminal, what fails is explained without
/// `--explain`.
pub fn task_of<'a>(words: &ArgMatches<'a>, on_terminal: bool) -> Option<Task<'a>> {
    let (name, options) = words.subcommand()?;
    let is_explained = on_terminal || options.get_flag("explain");
    task_named(name, options, is_explained)
}
