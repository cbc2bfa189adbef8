//! What `--explain` prints about an input that has a fault, after the one line.

use crate::input::{Form, Input, Reader};
use crate::inspect_command::{inspect_segment, print_damage};
use crate::output::{Output, print_output_error};
use crate::program_end::{print_device_error, report_result};
use rw_replay::{log_line_note, numbered_line, script_line_note, shown_line};
use rw_text::ToolFault;
use std::alloc::AllocError;
use std::fs;
use std::process::ExitCode;

/// The note on a line that is not made of digits.
const NO_DIGITS: &str = "expected pairs of lower-case hexadecimal digits; white space is ignored";

/// The note on a script that mixes the two ways of letting its log grow.
const MIXED: &str =
    "a script has 'log' lines, or 'feed' and 'segment' lines, but not both; this line is the first of the other kind";

/// A run over an input: what is said of its faults.
#[derive(Clone, Copy)]
pub struct InputRun<'a> {
    rt: &'a HostRuntime,
    input: &'a Input,
    /// The folder that it wrote to, or `None` if it wrote to standard output.
    dir: Option<&'a str>,
}

impl<'a> InputRun<'a> {
    /// Returns the run over an input that wrote to a folder or, without one, to standard output.
    pub fn new(rt: &'a HostRuntime, input: &'a Input, dir: Option<&'a str>) -> InputRun<'a> {
        InputRun { rt, input, dir }
    }

    /// Prints where a segment is damaged.
    fn print_segment_damage(&self, segment: &[u8], may_compress: bool) -> Result<(), ToolFault> {
        let report = inspect_segment(self.rt, Reader::Held(segment), may_compress)?;
        Ok(print_damage(self.rt, &report)?)
    }

    /// Returns what is wrong with a line of the input.
    fn note_of(&self, line: &[u8]) -> Result<&'static str, AllocError> {
        let alloc = self.rt.alloc();
        match self.input.form {
            Form::Segment { .. } | Form::Digits { .. } => Ok(NO_DIGITS),
            Form::LogText { .. } => Ok(log_line_note(alloc, line)?.unwrap_or("")),
            Form::Script => Ok(script_line_note(alloc, line)?.unwrap_or(MIXED)),
        }
    }

    /// Prints a line of the input, and what is wrong with it.
    fn print_line_note(&self, number: u64, line: &[u8]) -> Result<(), AllocError> {
        let rt = self.rt;
        let shown = shown_line(rt.alloc(), line)?;
        let note = self.note_of(line)?;
        let _ = eprintln!(rt; "  line {number}: {shown}");
        let _ = eprintln!(rt; "  {note}");
        Ok(())
    }

    /// Prints where the input, which is this text, has a fault, and what is wrong there.
    fn print_input_fault(&self, text: &[u8], fault: ToolFault) -> Result<(), ToolFault> {
        match fault {
            ToolFault::Log(_) => match self.input.form {
                Form::Digits { may_compress } => {
                    let segment = rw_text::read_hex(self.rt.alloc(), text)?;
                    self.print_segment_damage(&segment, may_compress)
                }
                Form::Segment { may_compress } => self.print_segment_damage(text, may_compress),
                Form::LogText { .. } | Form::Script => Ok(()),
            },
            ToolFault::Line(number) => {
                if let Some(line) = numbered_line(text, number) {
                    self.print_line_note(number, line)?;
                }
                Ok(())
            }
            _ => Ok(()),
        }
    }

    /// Says that the folder, or without one standard output, could not be written.
    fn print_unwritten(&self, output: &mut Output) {
        let rt = self.rt;
        let Some(dir) = self.dir else {
            print_output_error(rt, output);
            return;
        };
        match fs::read_dir(rt, dir) {
            Ok(_) => {
                let _ = eprintln!(rt;
                    "  cannot write a segment into {dir}; next: see whether it may be written, and whether its disk is full"
                );
            }
            Err(error) => print_device_error(rt, "write to", dir, &error),
        }
    }

    /// Says that the records of a log have no room in a segment, and what to do.
    fn print_segment_full(&self) {
        let rt = self.rt;
        let _ = match self.dir {
            None => eprintln!(rt;
                "  the records have no room in one segment; next: give more --pages, or --dir, which begins further segments"
            ),
            Some(_) => eprintln!(rt;
                "  a record has no room in an empty segment; next: give more --pages"
            ),
        };
    }

    /// Ends as `report_result` does. If the input was held, prints what is wrong: then a device
    /// that failed is not the input.
    pub fn report(&self, output: &mut Output, outcome: Result<(), ToolFault>) -> ExitCode {
        let fault = match outcome {
            Ok(()) => return report_result(self.rt, Ok(())),
            Err(fault) => fault,
        };
        let status = report_result(self.rt, Err(fault));
        match (&self.input.text, fault) {
            (Some(_), ToolFault::Device) => self.print_unwritten(output),
            (Some(_), ToolFault::SegmentFull) => self.print_segment_full(),
            (Some(text), _) => {
                let _ = self.print_input_fault(text, fault);
            }
            (None, _) => {}
        }
        status
    }
}
