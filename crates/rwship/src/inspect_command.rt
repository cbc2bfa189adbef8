//! The commands that read the log in a folder and print what they find: `inspect`, `plan`, and
//! `inspect` at given positions.

use crate::input::Reader;
use crate::log_fault::{LogReadFault, print_lines, report_run_fault};
use crate::log_files::{files_of, names_of, note_checkpoint, note_empty, note_gaps};
use crate::output::{Output, has_output_failed, open_output, report_output_fault};
use crate::program_end::{report_missing, report_unread_input};
use rw_cli::LogDir;
use rw_external_labels::ExternalLabels;
use rw_follow::Queue;
use rw_inspect::{LogFindings, fault_lines, find_entries, inspect, json_of, table_of};
use rw_log_commands::plan_log;
use rw_log_folder::{Opened, SegmentFile};
use rw_log_read::{Named, SkippedRecords};
use rw_settings::Settings;
use rw_text::ToolFault;
use rw_types::{Std, write_all};
use std::alloc::AllocError;
use std::io::IsTerminal;
use std::process::ExitCode;

/// The files of a log, each with its name, and their names once more.
struct LogFiles {
    files: Vec<Named<Opened<SegmentFile<HostRuntime>>>>,
    names: Vec<String>,
}

/// Writes a text to standard output.
fn print_text(output: &mut Output, text: &[u8]) -> Result<(), ToolFault> {
    Ok(write_all(output, text)?)
}

/// Prints the records that were passed over, a line for each type.
fn print_skipped(
    rt: &HostRuntime,
    report: &LogFindings,
    json: bool,
    output: &mut Output,
) -> Result<(), ToolFault> {
    for SkippedRecords { kind, count } in &report.skipped {
        let name = kind.name();
        let line = if json {
            format!(in rt.alloc();
                "{{\"type\":\"skipped\",\"records\":\"{name}\",\"count\":{count}}}\n"
            )?
        } else {
            format!(in rt.alloc(); "skipped {name} {count}\n")?
        };
        print_text(output, line.as_bytes())?;
    }
    Ok(())
}

/// Prints a report.
fn print_report(
    rt: &HostRuntime,
    report: &LogFindings,
    json: bool,
    output: &mut Output,
) -> Result<(), ToolFault> {
    let text = if json {
        json_of(rt.alloc(), report)?
    } else {
        table_of(rt.alloc(), report)?
    };
    print_text(output, &text)?;
    print_skipped(rt, report, json, output)
}

/// A command over the log in a folder.
#[derive(Drop)]
pub struct LogCommand<'a> {
    rt: &'a HostRuntime,
    dir: LogDir<'a>,
    is_explained: bool,
    output: Output,
}

impl<'a> LogCommand<'a> {
    /// Returns the command over the log in this folder.
    pub fn new(rt: &'a HostRuntime, dir: LogDir<'a>, is_explained: bool) -> LogCommand<'a> {
        LogCommand {
            rt,
            dir,
            is_explained,
            output: open_output(rt),
        }
    }

    /// Returns the files of the log. That there is none, or that some are missing between two, is
    /// said with `--explain` and on a terminal.
    fn files(&self) -> Result<LogFiles, LogReadFault> {
        let alloc = self.rt.alloc();
        let sources = files_of(self.rt, self.dir, None)?;
        if sources.is_empty() {
            note_empty(self.rt, self.dir, self.is_explained);
        }
        note_gaps(
            self.rt,
            self.dir,
            &sources,
            self.is_explained || self.rt.stderr().is_terminal(),
        );
        let names = names_of(alloc, &sources)?;
        let mut files = Vec::new(alloc);
        for source in sources {
            let name = String::from_str(alloc, source.place().name())?;
            if files.push(Named { name, source }).is_err() {
                return Err(LogReadFault::from(ToolFault::OutOfMemory));
            }
        }
        Ok(LogFiles { files, names })
    }

    /// Prints what the segments hold. A fault of the log is printed at the end, and returned.
    fn print_inspected(&mut self, json: bool) -> Result<(), LogReadFault> {
        let LogFiles { files, names } = self.files()?;
        let report = inspect(self.rt.alloc(), files, self.dir.may_compress)?;
        print_report(self.rt, &report, json, &mut self.output)?;
        match report.damage {
            Some(damage) => Err(LogReadFault::of_damage(names, damage)),
            None => Ok(()),
        }
    }

    /// Prints the entries at positions, and returns how many do not exist. A fault of the log is
    /// printed at the end, and returned.
    fn print_found(&mut self, positions: Vec<u64>) -> Result<u64, LogReadFault> {
        let LogFiles { files, names } = self.files()?;
        let found = find_entries(self.rt.alloc(), files, self.dir.may_compress, positions)?;
        print_text(&mut self.output, &found.text)?;
        match found.damage {
            Some(damage) => Err(LogReadFault::of_damage(names, damage)),
            None => Ok(found.missing),
        }
    }

    /// Prints the plan of the segments.
    fn print_plan(
        &mut self,
        settings: Settings,
        labels: ExternalLabels,
    ) -> Result<(), LogReadFault> {
        let LogFiles { files, names } = self.files()?;
        let mut log = Queue::new(files);
        let choice = settings.config.into_fields().into_choice();
        match plan_log(
            self.rt.alloc(),
            &mut log,
            &mut self.output,
            choice,
            labels,
            self.dir.may_compress,
        ) {
            Ok(Some(damage)) => Err(LogReadFault::of_damage(names, damage)),
            Ok(None) => Ok(()),
            Err(fault) => {
                let file = match log.current() {
                    Some(segment) => Some(segment.name.clone()?),
                    None => None,
                };
                Err(LogReadFault::at_file(fault, file))
            }
        }
    }

    /// Reports how the command ended, and returns the exit status.
    fn end(&mut self, outcome: Result<(), LogReadFault>) -> ExitCode {
        match outcome {
            Ok(()) => ExitCode::SUCCESS,
            Err(fault) => report_run_fault(
                self.rt,
                &mut self.output,
                self.dir,
                &fault,
                self.is_explained,
            ),
        }
    }

    /// Prints what the log holds.
    pub fn inspect(&mut self, json: bool) -> ExitCode {
        let outcome = self.print_inspected(json);
        self.end(outcome)
    }

    /// Prints the entries at positions of the log.
    pub fn find(&mut self, positions: Vec<u64>) -> ExitCode {
        match self.print_found(positions) {
            Ok(0) => ExitCode::SUCCESS,
            Ok(count) => report_missing(self.rt, count),
            Err(fault) => self.end(Err(fault)),
        }
    }

    /// Prints the plan of the log.
    pub fn plan(&mut self, settings: Settings, labels: ExternalLabels) -> ExitCode {
        if self.is_explained {
            note_checkpoint(self.rt, self.dir);
        }
        let outcome = self.print_plan(settings, labels);
        self.end(outcome)
    }
}

/// Reads a segment that is not a file. Its records may be Snappy blocks if `may_compress` says so.
pub fn inspect_segment(
    rt: &HostRuntime,
    source: Reader<'_>,
    may_compress: bool,
) -> Result<LogFindings, ToolFault> {
    let name = String::from_str(rt.alloc(), "-")?;
    let mut one = Vec::with_capacity(rt.alloc(), 1)?;
    one.push_reserved(Named { name, source });
    match inspect(rt.alloc(), one, may_compress) {
        Ok(report) => Ok(report),
        Err(unread) => Err(ToolFault::from(unread.error)),
    }
}

/// Prints where the log of a report has a fault, and what to do, if it has one.
pub fn print_damage(rt: &HostRuntime, report: &LogFindings) -> Result<(), AllocError> {
    let Some(damage) = report.damage else {
        return Ok(());
    };
    let Some(place) = damage.place else {
        return Ok(());
    };
    let Some(segment) = report.segments.get(place.segment as usize) else {
        return Ok(());
    };
    let lines = fault_lines(
        rt.alloc(),
        damage.fault,
        report.may_compress,
        segment.name.as_str(),
        segment.bytes,
        place.offset,
    )?;
    print_lines(rt, &lines);
    Ok(())
}

/// Prints what the segment on standard input holds. A fault of it is printed at the end, and
/// returned.
fn print_input(
    rt: &HostRuntime,
    may_compress: bool,
    json: bool,
    output: &mut Output,
) -> Result<(), ToolFault> {
    let report = inspect_segment(rt, Reader::Live(Std::new(rt.stdin())), may_compress)?;
    print_report(rt, &report, json, output)?;
    match report.damage {
        Some(damage) => Err(ToolFault::Log(damage.fault)),
        None => Ok(()),
    }
}

/// Prints what the segment on standard input holds, and reports how that ended.
pub fn inspect_input(rt: &HostRuntime, may_compress: bool, json: bool) -> ExitCode {
    let mut output = open_output(rt);
    match print_input(rt, may_compress, json, &mut output) {
        Ok(()) => ExitCode::SUCCESS,
        Err(_) if has_output_failed(&mut output) => report_output_fault(rt, &mut output, true),
        Err(fault) => report_unread_input(rt, fault),
    }
}
