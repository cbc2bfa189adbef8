//! Reports the progress of the work.

ghost use Rattle.std.specs.Prelude.{◌≡◌};

use rw_cli::{Reporting, VERSION};
use rw_metrics::{Counters, Screen, show_progress, write_end};
use rw_metrics_server::serve_metrics;
use rw_text::{Address, ToolFault};
use rw_types::{Failed, Sink};
use std::io::{Error, IsTerminal};
use std::net::TcpListener;
use std::thread::{self, Threads};

/// Returns the name of the host to listen on: without one, as in `:9090`, all IPv4 addresses of the
/// machine.
pub fn name_to_listen_on(address: Address<'_>) -> &str {
    let name = address.name();
    if name.is_empty() { "0.0.0.0" } else { name }
}

/// Reports that the program cannot listen at an address, and why.
pub fn print_listen_error(rt: &HostRuntime, listen: Address<'_>, error: &Error) {
    let Address { host, port } = listen;
    let _ = eprintln!(rt; "  cannot listen on {host}:{port}: {error}; choose another --listen");
}

/// Reports that the page of the counters cannot be served at an address, and why.
fn print_metrics_error(rt: &HostRuntime, metrics: Address<'_>, error: &Error) {
    let Address { host, port } = metrics;
    let _ = eprintln!(rt;
        "rwship: cannot listen on {host}:{port} for --metrics: {error}; choose another address"
    );
}

/// Returns what shows the lines of progress.
fn screen_of(rt: &HostRuntime) -> Screen {
    if rt.stderr().is_terminal() {
        Screen::Terminal
    } else {
        Screen::Lines
    }
}

/// Returns whether progress is shown, or standard error is a terminal.
pub fn is_watched(rt: &HostRuntime, reporting: &Reporting<'_>) -> bool {
    reporting.has_progress || rt.stderr().is_terminal()
}

/// Serves the page of the counters at an address, in a thread that is never joined: it ends with
/// the process.
fn serve_at<R: Threads>(
    rt: &HostRuntime,
    threads: &R,
    address: Address<'_>,
    counters: &Counters,
) -> Result<(), ToolFault> {
    match TcpListener::bind(rt, (name_to_listen_on(address), address.port)) {
        Ok(listener) => {
            let (host, theirs) = (*rt, counters.share()?);
            let version = String::from_str(rt.alloc(), VERSION)?;
            let server = thread::spawn(threads, move || {
                serve_metrics(host, host.alloc(), &listener, theirs, version)
            });
            match server {
                Ok(server) => {
                    drop(server);
                    Ok(())
                }
                Err(_) => Err(ToolFault::OutOfMemory),
            }
        }
        Err(error) => {
            print_metrics_error(rt, address, &error);
            Err(ToolFault::Device)
        }
    }
}

/// Serves the metrics and shows progress, as far as asked for.
pub fn begin_reporting<R: Threads>(
    rt: &HostRuntime,
    threads: &R,
    reporting: &Reporting<'_>,
    counters: &Counters,
) -> Result<(), ToolFault> {
    if let Some(address) = &reporting.metrics {
        serve_at(rt, threads, *address, counters)?;
    }
    if reporting.has_progress {
        let theirs = counters.share()?;
        show_progress(threads, *rt, rt.stderr(), screen_of(rt), rt.alloc(), theirs)?;
    }
    Ok(())
}

/// Shows the final values of the counters, if that is asked for.
pub fn end_reporting(rt: &HostRuntime, reporting: &Reporting<'_>, counters: &Counters) {
    if reporting.has_progress {
        write_end(&mut rt.stderr(), screen_of(rt), rt.alloc(), counters);
    }
}

/// An output. Before its first byte the final values of the counters are shown.
#[derive(Drop)]
pub struct OutputAfterReport<'a, W> {
    rt: &'a HostRuntime,
    reporting: &'a Reporting<'a>,
    counters: &'a Counters,
    has_reported: bool,
    output: W,
}

impl<'a, W: Sink> OutputAfterReport<'a, W> {
    /// Returns the output before its first byte.
    pub fn new(
        rt: &'a HostRuntime,
        reporting: &'a Reporting<'a>,
        counters: &'a Counters,
        output: W,
    ) -> OutputAfterReport<'a, W> {
        OutputAfterReport {
            rt,
            reporting,
            counters,
            has_reported: false,
            output,
        }
    }

    /// Returns the output alone.
    pub fn into_output(self) -> W {
        let OutputAfterReport { output, .. } = self;
        output
    }

    /// Shows the final values of the counters, if they were not shown yet.
    pub fn report(&mut self)
        ensures { self.new.output ≡ self.old.output }
    {
        if !self.has_reported {
            end_reporting(self.rt, self.reporting, self.counters);
            self.has_reported = true;
        }
    }
}

impl<W: Sink> Sink for OutputAfterReport<'_, W> {
    ghost contents = { λ o. W.contents o.output };

    ghost has_failed = { λ o. W.has_failed o.output };

    ghost room = { λ o. W.room o.output };

    fn write(&mut self, bytes: &[u8]) -> Result<usize, Failed> {
        self.report();
        self.output.write(bytes)
    }
}
