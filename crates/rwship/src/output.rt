//! Standard output, with the error of a write that failed.

ghost use Rattle.std.specs.Prelude.{◌≡◌};
ghost use Rattle.std.specs.Process as process;

use crate::program_end::report_result;
use rw_text::ToolFault;
use rw_types::{Sink, Std};
use std::io::{self, Error, Write};
use std::mem;
use std::process::ExitCode;
use std::rt::Stdout;

/// Standard output, with the error of the last write that has failed.
#[derive(Drop)]
pub struct NotedStdout {
    stdout: Stdout,
    error: Option<Error>,
}

impl Write for NotedStdout {
    fn write(&mut self, buf: &[u8]) -> io::Result<usize> {
        let written = self.stdout.write(buf);
        if let Err(error) = written {
            self.error = Some(error);
        }
        written
    }

    fn flush(&mut self) -> io::Result<()> {
        Ok(())
    }
}

/// Standard output, as the commands write to it.
pub type Output = Std<NotedStdout>;

/// Returns standard output, to which nothing was written.
pub fn open_output(rt: &HostRuntime) -> Output {
    Std::new(NotedStdout {
        stdout: rt.stdout(),
        error: None,
    })
}

/// Returns whether a standard output that was written to has failed: then a write of no byte fails.
pub fn has_output_failed(output: &mut Output) -> bool {
    output.write(b"").is_err()
}

/// Says that standard output could not be written, why, and what to do.
pub fn print_output_error(rt: &HostRuntime, output: &mut Output) {
    let failed = mem::replace(output, open_output(rt));
    let _ = match failed.into_inner().error {
        Some(error) => eprintln!(rt;
            "  cannot write to standard output: {error}; next: see whether its disk is full, or its reader has ended, and run again"
        ),
        None => eprintln!(rt;
            "  cannot write to standard output; next: see whether its disk is full, or its reader has ended, and run again"
        ),
    };
}

/// Reports that standard output could not be written, with more if that is asked for. Returns the
/// exit status.
pub fn report_output_fault(rt: &HostRuntime, output: &mut Output, is_explained: bool) -> ExitCode
    ensures { process.exit_status result ≡ 4 }
{
    let status = report_result(rt, Err(ToolFault::Device));
    if is_explained {
        print_output_error(rt, output);
    }
    status
}
