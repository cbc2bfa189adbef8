//! The commands that read standard input, or a folder, and write what they make of it.

use crate::explanations::InputRun;
use crate::input::{Form, Input};
use crate::inspect_command::LogCommand;
use crate::output::{Output, open_output};
use crate::program_end::{report_settings_fault, report_unread_input};
use crate::settings::{dir_with, external_labels_in, settings_in};
use rw_cli::{LogDir, SettingsFile};
use rw_external_labels::ExternalLabels;
use rw_log_commands::{run_body_with, run_log, run_log_dir, run_plan_with};
use rw_replay::run_replay;
use rw_settings::Settings;
use rw_text::ToolFault;
use rw_types::Bounded;
use std::process::ExitCode;

/// A command over standard input.
#[derive(Drop)]
struct InputCommand<'a> {
    rt: &'a HostRuntime,
    input: Input,
    output: Output,
}

/// Reports how a command ended that wrote to a folder or, without one, to standard output. Returns
/// the exit status.
fn report_end(
    rt: &HostRuntime,
    input: &Input,
    dir: Option<&str>,
    output: &mut Output,
    outcome: Result<(), ToolFault>,
) -> ExitCode {
    InputRun::new(rt, input, dir).report(output, outcome)
}

impl<'a> InputCommand<'a> {
    /// Returns the command over standard input in this form, which is read whole if `is_explained`
    /// says so. If that fails, it reports so, and returns the exit status.
    fn open(
        rt: &'a HostRuntime,
        form: Form,
        is_explained: bool,
    ) -> Result<InputCommand<'a>, ExitCode> {
        match Input::open(rt, form, is_explained) {
            Ok(input) => Ok(InputCommand {
                rt,
                input,
                output: open_output(rt),
            }),
            Err(fault) => Err(report_unread_input(rt, fault)),
        }
    }

    /// Writes the body of a segment.
    fn body(&mut self, hex: bool, may_compress: bool) -> ExitCode {
        let mut reader = self.input.reader(self.rt);
        let outcome = run_body_with(
            self.rt.alloc(),
            &mut reader,
            &mut self.output,
            hex,
            may_compress,
        );
        drop(reader);
        report_end(self.rt, &self.input, None, &mut self.output, outcome)
    }

    /// Writes a segment of log text, or the segments into a folder.
    fn log(&mut self, hex: bool, pages: Bounded<1, 4096>, dir: Option<&str>) -> ExitCode {
        let (rt, alloc) = (self.rt, self.rt.alloc());
        let pages = pages.get() as usize;
        let mut reader = self.input.reader(rt);
        let outcome = match dir {
            Some(dir) => run_log_dir(rt, alloc, &mut reader, dir, pages),
            None => run_log(alloc, &mut reader, &mut self.output, hex, pages),
        };
        drop(reader);
        report_end(rt, &self.input, dir, &mut self.output, outcome)
    }

    /// Prints the plan of a segment.
    fn plan(
        &mut self,
        settings: Settings,
        labels: ExternalLabels,
        hex: bool,
        may_compress: bool,
    ) -> ExitCode {
        let mut reader = self.input.reader(self.rt);
        let outcome = run_plan_with(
            self.rt.alloc(),
            &mut reader,
            &mut self.output,
            settings,
            labels,
            hex,
            may_compress,
        );
        drop(reader);
        report_end(self.rt, &self.input, None, &mut self.output, outcome)
    }

    /// Plays a script and prints the state at its end.
    fn replay(&mut self, settings: Settings) -> ExitCode {
        let mut reader = self.input.reader(self.rt);
        let outcome = run_replay(self.rt.alloc(), &mut reader, &mut self.output, settings);
        drop(reader);
        report_end(self.rt, &self.input, None, &mut self.output, outcome)
    }
}

/// Writes the body of the segment on standard input.
pub fn body(rt: &HostRuntime, hex: bool, may_compress: bool, is_explained: bool) -> ExitCode {
    let form = Form::of_segment(hex, may_compress);
    match InputCommand::open(rt, form, is_explained) {
        Ok(mut command) => command.body(hex, may_compress),
        Err(status) => status,
    }
}

/// Writes the log that standard input describes, maybe with decimals. If `--explain` was given,
/// prints what is wrong with a bad line, or with a folder or an output that cannot be written.
pub fn log(
    rt: &HostRuntime,
    hex: bool,
    pages: Bounded<1, 4096>,
    dir: Option<&str>,
    has_decimals: bool,
    is_explained: bool,
) -> ExitCode {
    match InputCommand::open(rt, Form::LogText { has_decimals }, is_explained) {
        Ok(mut command) => command.log(hex, pages, dir),
        Err(status) => status,
    }
}

/// Prints the plan of the segment on standard input, or of the segments of a folder.
pub fn plan(
    rt: &HostRuntime,
    file: SettingsFile<'_>,
    hex: bool,
    may_compress: bool,
    dir: Option<LogDir<'_>>,
) -> ExitCode {
    let settings = match settings_in(rt, file) {
        Ok(settings) => settings,
        Err(fault) => return report_settings_fault(rt, fault),
    };
    let labels = match external_labels_in(rt, file, settings.config.fields().names) {
        Ok(labels) => labels,
        Err(fault) => return report_settings_fault(rt, fault),
    };
    let Some(dir) = dir else {
        let may_compress = may_compress || settings.may_compress;
        let form = Form::of_segment(hex, may_compress);
        return match InputCommand::open(rt, form, file.is_explained) {
            Ok(mut command) => command.plan(settings, labels, hex, may_compress),
            Err(status) => status,
        };
    };
    let dir = dir_with(dir, &settings);
    LogCommand::new(rt, dir, file.is_explained).plan(settings, labels)
}

/// Plays a script and prints the state at its end.
pub fn replay(rt: &HostRuntime, file: SettingsFile<'_>) -> ExitCode {
    match settings_in(rt, file) {
        Ok(settings) => match InputCommand::open(rt, Form::Script, file.is_explained) {
            Ok(mut command) => command.replay(settings),
            Err(status) => status,
        },
        Err(fault) => report_settings_fault(rt, fault),
    }
}
