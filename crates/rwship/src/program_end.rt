//! How the program ends: what it prints of a fault, and its exit status.

ghost use Rattle.std.specs.Prelude.{◌≡◌, MatchResult};
ghost use Rattle.std.specs.Process as process;
ghost use Rattle.rw_text.specs.Printed.{exit_status};
ghost use Rattle.rwship.specs.Statuses.{follow_status, unset_status};

use crate::settings::Unset;
use clap::ArgMatches;
use clap::error::ErrorKind;
use rw_cli::{UrlFault, VERSION, bad_address, bad_span};
use rw_send::FollowFault;
use rw_settings::SettingsNote;
use rw_text::ToolFault;
use std::io::Error;
use std::process::ExitCode;

/// The exit status for arguments and settings that are not valid.
const BAD_ARGUMENTS: u8 = 2;

/// The exit status for dropped samples, if they are a fault.
const DROPPED: u8 = 1;

/// The exit status for skipped records that may hold samples, if they are a fault.
const SKIPPED: u8 = 1;

/// The exit status for a folder without a segment, if that is a fault.
const EMPTY: u8 = 1;

/// The exit status for a number that is missing between two segments, if that is a fault.
const GAP: u8 = 1;

/// The exit status for positions that have no entry.
const NOT_THERE: u8 = 1;

/// The exit status for work that was ended from outside.
const CUT_OFF: u8 = 4;

/// Writes the one line of a fault to standard error, and returns its exit status.
pub fn report_result(rt: &HostRuntime, outcome: Result<(), ToolFault>) -> ExitCode
    ensures { MatchResult outcome (λ _. process.exit_status result
        ≡ 0) (λ fault. process.exit_status result ≡ exit_status fault) }
{
    match outcome {
        Ok(()) => ExitCode::SUCCESS,
        Err(fault) => {
            let _ = eprintln!(rt; "rwship: {fault}");
            ExitCode::from(fault.exit_status())
        }
    }
}

/// Reports why following a log ended, and returns the exit status.
pub fn report_follow_fault(rt: &HostRuntime, fault: FollowFault) -> ExitCode
    ensures { process.exit_status result ≡ follow_status fault }
{
    match fault {
        FollowFault::Tool(fault) => report_result(rt, Err(fault)),
        FollowFault::Missing(number) => {
            let _ = eprintln!(rt; "rwship: segment {number} is missing");
            ExitCode::from(CUT_OFF)
        }
        FollowFault::Stopped => {
            let _ = eprintln!(rt; "rwship: stopped");
            ExitCode::from(CUT_OFF)
        }
    }
}

/// Reports how many samples were dropped, if that is a fault.
pub fn report_dropped(rt: &HostRuntime, count: u64) -> ExitCode
    ensures { process.exit_status result ≡ 1 }
{
    let _ = eprintln!(rt; "rwship: samples dropped: {count}");
    ExitCode::from(DROPPED)
}

/// Reports how many records were skipped that may hold samples, if that is a fault.
pub fn report_skipped(rt: &HostRuntime, count: u64) -> ExitCode
    ensures { process.exit_status result ≡ 1 }
{
    let _ = eprintln!(rt; "rwship: records skipped that may hold samples: {count}");
    ExitCode::from(SKIPPED)
}

/// Returns the exit status for a folder without a segment, if that is a fault.
pub fn empty_status() -> ExitCode
    ensures { process.exit_status result ≡ 1 }
{
    ExitCode::from(EMPTY)
}

/// Returns the exit status for a number that is missing between two segments, if that is a fault.
pub fn gap_status() -> ExitCode
    ensures { process.exit_status result ≡ 1 }
{
    ExitCode::from(GAP)
}

/// Returns the exit status for work that was ended from outside.
pub fn cut_off_status() -> ExitCode
    ensures { process.exit_status result ≡ 4 }
{
    ExitCode::from(CUT_OFF)
}

/// Reports how many positions have no entry.
pub fn report_missing(rt: &HostRuntime, count: u64) -> ExitCode
    ensures { process.exit_status result ≡ 1 }
{
    let _ = eprintln!(rt; "rwship: positions without an entry: {count}");
    ExitCode::from(NOT_THERE)
}

/// Reports that standard input could not be read, and returns the exit status.
pub fn report_unread_input(rt: &HostRuntime, fault: ToolFault) -> ExitCode
    ensures { process.exit_status result ≡ exit_status fault }
{
    let status = report_result(rt, Err(fault));
    if matches!(fault, ToolFault::Device) {
        let _ = eprintln!(rt;
            "  cannot read standard input; next: see whether it is a file or a pipe"
        );
    }
    status
}

/// Prints what could not be done with what, and the error of the system.
pub fn print_device_error(rt: &HostRuntime, action: &str, name: &str, error: &Error) {
    let _ = eprintln!(rt; "  cannot {action} {name}: {error}");
}

/// Writes a line for each note on settings to standard error.
fn print_notes(rt: &HostRuntime, notes: &[SettingsNote]) {
    for note in notes {
        let place = note.place.as_str();
        let text = note.text.as_str();
        let _ = eprintln!(rt; "  {place}: {text}");
    }
}

/// Reports that settings cannot be read and, if that is asked for, what is wrong with them. Returns
/// the exit status.
pub fn report_settings_fault(rt: &HostRuntime, fault: Unset) -> ExitCode
    ensures { process.exit_status result ≡ unset_status fault }
{
    match fault {
        Unset::Tool(fault) => report_result(rt, Err(fault)),
        Unset::Settings(fault, notes) => {
            let number = fault.number();
            let _ = eprintln!(rt; "rwship: settings fault {number}");
            print_notes(rt, notes.as_slice());
            ExitCode::from(BAD_ARGUMENTS)
        }
        Unset::Unreadable(said) => {
            let status = report_result(rt, Err(ToolFault::Device));
            if !said.is_empty() {
                let _ = eprintln!(rt; "  {said}");
            }
            status
        }
    }
}

/// Prints the name of the program and its version, as `--version` does.
pub fn print_version(rt: &HostRuntime) -> ExitCode {
    match println!(rt; "rwship {VERSION}") {
        Ok(()) => ExitCode::SUCCESS,
        Err(_) => report_result(rt, Err(ToolFault::Device)),
    }
}

/// Prints the text of the command-line parser: help and version on standard output with status 0,
/// and otherwise what is wrong with the arguments.
pub fn report_parse_error(rt: &HostRuntime, error: clap::Error) -> ExitCode {
    if error.kind() == ErrorKind::OutOfMemory {
        return report_result(rt, Err(ToolFault::OutOfMemory));
    }
    match error.print(rt) {
        Err(_) if !error.use_stderr() => report_result(rt, Err(ToolFault::Device)),
        _ if error.use_stderr() => ExitCode::from(BAD_ARGUMENTS),
        _ => ExitCode::SUCCESS,
    }
}

/// Prints what is wrong with the arguments.
pub fn report_bad_arguments(rt: &HostRuntime, text: &str) -> ExitCode
    ensures { process.exit_status result ≡ 2 }
{
    let _ = eprintln!(rt; "{text}");
    ExitCode::from(BAD_ARGUMENTS)
}

/// Reports that the folder of the stop file is missing or may not be entered, in the form of the
/// command-line parser, and returns the exit status.
pub fn report_misplaced(rt: &HostRuntime, stop_file: &str) -> ExitCode
    ensures { process.exit_status result ≡ 2 }
{
    let _ = eprintln!(rt;
        "error: invalid value '{stop_file}' for '--stop-file <FILE>': expected a file in a folder that exists and may be entered\n"
    );
    report_bad_arguments(rt, "For more information, try '--help'.")
}

/// Reports which HOST:PORT or span of time is not valid, in the form of the command-line parser.
pub fn report_bad_value(rt: &HostRuntime, words: &ArgMatches<'_>) -> ExitCode {
    if let Some((option, value)) = bad_address(words) {
        let _ = eprintln!(rt;
            "error: invalid value '{value}' for '--{option} <HOST:PORT>': expected a host, a colon and a port from 1 to 65535\n"
        );
    } else if let Some((option, value)) = bad_span(words) {
        let units = if option == "memory" { "m" } else { "s, m" };
        let _ = eprintln!(rt;
            "error: invalid value '{value}' for '--{option} <TIME>': expected a number from 1 on, and {units}, h or d after it, as 3h\n"
        );
    }
    report_bad_arguments(rt, "For more information, try '--help'.")
}

/// Returns what a URL should be that has this fault.
fn url_advice(fault: UrlFault) -> &'static str {
    match fault {
        UrlFault::NotUrl | UrlFault::OutOfMemory => "expected http://HOST:PORT/PATH",
        UrlFault::NeedsTls => {
            "only plain HTTP is spoken; dist/tls.md shows a proxy that speaks TLS, and send to that"
        }
        UrlFault::OtherScheme => "expected a URL that begins with http://",
        UrlFault::HasUser => "expected no user name and no password before the host",
        UrlFault::BadPort => "expected a port from 1 to 65535",
        UrlFault::BadPath => {
            "expected a path and query of 1 to 255 bytes; write a byte that they do not have as % and two hexadecimal digits, and + as %2B or %20"
        }
    }
}

/// Reports what is wrong with the URL of a receiver, in the form of the command-line parser, and
/// returns the exit status. A URL with a user is not printed, since it may have a password.
pub fn report_bad_url(rt: &HostRuntime, url: &str, fault: UrlFault) -> ExitCode
    ensures { process.exit_status result ≡ 2 }
{
    let shown = if fault == UrlFault::HasUser {
        "http://..@.."
    } else {
        url
    };
    let advice = url_advice(fault);
    let _ = eprintln!(rt; "error: invalid value '{shown}' for '--to <HOST:PORT>': {advice}\n");
    report_bad_arguments(rt, "For more information, try '--help'.")
}
