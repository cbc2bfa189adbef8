//! The program `rwship`.
#![tactic(auto)]

mod destination;
mod drops;
mod engines;
mod event_log;
mod explanations;
mod file_limit;
mod input;
mod inspect_command;
mod kept_receiver;
mod live_report;
mod log_fault;
mod log_files;
mod memory_watch;
mod output;
mod program_end;
mod receive_command;
mod refusal;
mod refusal_lines;
mod request_access;
mod resume;
mod send_command;
mod settings;
mod shipped_log;
mod stop;
mod waiting;

use clap::ArgMatches;
use engines::{body, log, plan, replay};
use inspect_command::{LogCommand, inspect_input};
use output::{open_output, report_output_fault};
use program_end::{
    print_version, report_bad_arguments, report_bad_value, report_parse_error, report_result,
    report_settings_fault,
};
use receive_command::receive;
use rw_cli::{LogDir, SettingsFile, Task, command_line, positions_of, task_of};
use rw_text::ToolFault;
use rw_types::write_all;
use send_command::send;
use settings::settings_text;
use std::env;
use std::io::{ErrorKind, IsTerminal};
use std::process::ExitCode;
use std::sync::Wait;
use std::thread::Threads;
use std::time::Clock;

/// Prints settings, each key with its value.
fn print_settings(rt: &HostRuntime, settings: SettingsFile<'_>) -> ExitCode {
    let mut output = open_output(rt);
    match settings_text(rt, settings) {
        Ok(text) => match write_all(&mut output, text.as_bytes()) {
            Ok(()) => ExitCode::SUCCESS,
            Err(_) => report_output_fault(rt, &mut output, settings.is_explained),
        },
        Err(fault) => report_settings_fault(rt, fault),
    }
}

/// Prints the entries at positions of the log in a folder.
fn find(rt: &HostRuntime, dir: LogDir<'_>, words: &ArgMatches<'_>, is_explained: bool) -> ExitCode {
    match positions_of(rt.alloc(), words) {
        Ok(positions) => LogCommand::new(rt, dir, is_explained).find(positions),
        Err(_) => report_result(rt, Err(ToolFault::OutOfMemory)),
    }
}

/// Does what the arguments ask for.
fn perform<R: Threads + Wait + Clock + Copy + Send + Sync + 'static>(
    rt: &HostRuntime,
    threads: &R,
    words: &ArgMatches<'_>,
) -> ExitCode {
    let Some(task) = task_of(words, rt.stderr().is_terminal()) else {
        return report_bad_value(rt, words);
    };
    match task {
        Task::Body {
            hex,
            may_compress,
            is_explained,
        } => body(rt, hex, may_compress, is_explained),
        Task::Log {
            hex,
            pages,
            dir,
            has_decimals,
            is_explained,
        } => log(rt, hex, pages, dir, has_decimals, is_explained),
        Task::Plan {
            settings,
            hex,
            may_compress,
            dir,
        } => plan(rt, settings, hex, may_compress, dir),
        Task::Inspect {
            dir,
            may_compress,
            json,
            is_explained,
        } => match dir {
            Some(dir) => LogCommand::new(rt, dir, is_explained).inspect(json),
            None => inspect_input(rt, may_compress, json),
        },
        Task::Find { dir, is_explained } => find(rt, dir, words, is_explained),
        Task::Replay { settings } => replay(rt, settings),
        Task::Settings { settings } => print_settings(rt, settings),
        Task::Version => print_version(rt),
        Task::Send { settings, sending } => send(rt, threads, settings, &sending),
        Task::Receive {
            settings,
            receiving,
        } => receive(rt, threads, settings, &receiving),
    }
}

/// Returns the arguments, or the exit status if they cannot be read, which it reports.
fn read_arguments(rt: &HostRuntime) -> Result<Vec<String>, ExitCode> {
    match env::args(rt) {
        Ok(words) => match words.collect(rt.alloc()) {
            Ok(words) => Ok(words),
            Err(_) => Err(report_result(rt, Err(ToolFault::OutOfMemory))),
        },
        Err(error) if error.kind() == ErrorKind::OutOfMemory => {
            Err(report_result(rt, Err(ToolFault::OutOfMemory)))
        }
        Err(_) => Err(report_bad_arguments(
            rt,
            "error: an argument is not UTF-8\n\nFor more information, try '--help'.",
        )),
    }
}

/// Parses the arguments. If they are not valid, or ask for help, it prints that, and returns the
/// exit status.
fn parse_arguments<'a>(rt: &HostRuntime, words: &'a [String]) -> Result<ArgMatches<'a>, ExitCode> {
    match command_line(rt.alloc()) {
        Ok(command) => match command.try_get_matches_from(words) {
            Ok(matches) => Ok(matches),
            Err(error) => Err(report_parse_error(rt, error)),
        },
        Err(_) => Err(report_result(rt, Err(ToolFault::OutOfMemory))),
    }
}

fn main(rt: HostRuntime) -> ExitCode {
    match read_arguments(&rt) {
        Ok(words) => match parse_arguments(&rt, words.as_slice()) {
            Ok(matches) => perform(&rt, &rt, &matches),
            Err(status) => status,
        },
        Err(status) => status,
    }
}
