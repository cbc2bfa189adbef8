//! The command `receive`.

use crate::event_log::EventLog;
use crate::file_limit::note_file_limit;
use crate::kept_receiver::{FolderHead, FolderLog, KeptFolder, RecentFolderHead};
use crate::live_report::{
    OutputAfterReport, begin_reporting, end_reporting, is_watched, name_to_listen_on,
    print_listen_error,
};
use crate::memory_watch::report_old_samples;
use crate::output::{Output, has_output_failed, open_output, report_output_fault};
use crate::program_end::{report_misplaced, report_result, report_settings_fault};
use crate::refusal_lines::report_refusals;
use crate::settings::settings_in;
use crate::stop::{is_misplaced, note_left_file, report_stop, report_write_error, stop_signal};
use rw_cli::{Receiving, SettingsFile, Until};
use rw_decimal::print_decimals;
use rw_follow::StopSignal;
use rw_head::{Capacity, Head, Memory};
use rw_kept_head::{HeadReading, KeepFor, KeptHead, OpenedHead};
use rw_metrics::{Counters, ReceiveCounters};
use rw_receive::{
    BodyBounds, Received, ServeUntil, Service, TakeOptions, now_ms, run_receive, serve_and_print,
    serve_connections,
};
use rw_recv_head::Show;
use rw_settings::Settings;
use rw_text::{Address, ToolFault};
use rw_types::{Bounded, Sink};
use std::alloc::{AllocError, Global};
use std::net::TcpListener;
use std::path::Path;
use std::process::ExitCode;
use std::sync::{Arc, Wait};
use std::thread::Threads;
use std::time::Clock;

/// A receiver: what it runs on, and what it is asked for.
#[derive(Drop)]
struct Receiver<'a, R> {
    rt: &'a HostRuntime,
    /// The same runtime, as one that has threads: a `HostRuntime` has them in `main` alone.
    threads: &'a R,
    settings: &'a Settings,
    receiving: &'a Receiving<'a>,
    is_explained: bool,
    /// Whether the stop file was there when the command began.
    was_stopped: bool,
}

/// Returns how much the head may hold.
fn capacity_of(receiving: &Receiving<'_>) -> Capacity {
    Capacity {
        max_samples: receiving.max_samples.unwrap_or(u64::MAX),
        max_series: receiving.max_series.unwrap_or(u64::MAX),
    }
}

/// Returns counters that have counted nothing.
fn new_counters(
    rt: &HostRuntime,
    receiving: &Receiving<'_>,
) -> Result<Arc<ReceiveCounters, Global>, AllocError> {
    let counters = match (receiving.dir, receiving.memory_ms) {
        (Some(_), Some(_)) => ReceiveCounters::of_recent_log(rt.alloc())?,
        (Some(_), None) => ReceiveCounters::of_kept_log(rt.alloc())?,
        (None, _) => ReceiveCounters::new(rt.alloc())?,
    };
    counters.set_limits(
        receiving.max_samples.unwrap_or(0),
        receiving.max_series.unwrap_or(0),
    );
    Ok(Arc::new(rt.alloc(), counters)?)
}

impl<R: Threads + Wait + Clock + Sync> Receiver<'_, R> {
    /// Returns where what happens is written, if that is asked for.
    fn log(&self) -> EventLog {
        EventLog::new(self.rt, self.receiving.reporting.has_log)
    }

    /// Returns counters that have counted nothing, and reports them from here on, as far as that is
    /// asked for. With `--log` refused requests are in its lines. The second counters are what is
    /// shown.
    fn begin_counting(&self) -> Result<(Arc<ReceiveCounters, Global>, Counters), ToolFault> {
        let counters = new_counters(self.rt, self.receiving)?;
        let shown = Counters::Receive(Arc::try_clone(&counters)?);
        begin_reporting(self.rt, self.threads, &self.receiving.reporting, &shown)?;
        self.log().watch_receiver(self.threads, &counters)?;
        let reporting = &self.receiving.reporting;
        if !reporting.has_log && (self.is_explained || is_watched(self.rt, reporting)) {
            report_refusals(self.rt, self.threads, &counters)?;
        }
        Ok((counters, shown))
    }

    /// Says that a stop was requested while the log in a folder was read, if it was.
    fn note_early_stop(&self, dir: &str) {
        let Until::FileIs(path) = &self.receiving.until else {
            return;
        };
        if !self.was_stopped && Path::new(path).exists(self.rt) {
            let _ = eprintln!(self.rt;
                "rwship: the stop file {path} was made while {dir} was read, so a stop is requested at once"
            );
        }
    }

    /// Says what has stopped the receiver, if standard input ended before a client came.
    fn note_ended_input(&self, counters: &ReceiveCounters) {
        let (Until::InputEnds, Ok(numbers)) = (
            &self.receiving.until,
            counters.numbers(self.rt.alloc()),
        ) else {
            return;
        };
        if numbers.accepted == 0 {
            let _ = eprintln!(self.rt;
                "rwship: standard input has ended before a client came, so the receiver stops; with --stop-file FILE it does not read it"
            );
        }
    }

    /// Returns the stop signal, or `None` if a number of connections ends the receiver. Whether
    /// writing to the log of a folder has failed is reported at once from here on, and sets the
    /// signal too if that is asked for.
    fn stop_signal(
        &self,
        counters: &Arc<ReceiveCounters, Global>,
    ) -> Result<Option<Arc<StopSignal, Global>>, AllocError> {
        let stop_file = match &self.receiving.until {
            Until::Connections(_) => return Ok(None),
            Until::FileIs(path) => Some(*path),
            Until::InputEnds => None,
        };
        let signal = stop_signal(self.rt, self.threads, stop_file, None)?;
        report_stop(self.rt, self.threads, self.log(), None, &signal)?;
        if let Some(dir) = self.receiving.dir {
            self.note_early_stop(dir);
            let ends = self.receiving.ends_on_write_error;
            report_write_error(self.rt, self.threads, dir, counters, &signal, ends)?;
        }
        Ok(Some(signal))
    }

    /// Returns how many connections are served at once.
    fn most_connections(&self) -> Bounded<1, 1_000> {
        match &self.receiving.until {
            Until::Connections(count) => *count,
            _ => Bounded::new(1_000),
        }
    }

    /// Returns the service that is asked for, with the stop signal if there is one.
    fn service<'s>(
        &self,
        signal: &'s Option<Arc<StopSignal, Global>>,
        counters: &'s ReceiveCounters,
    ) -> Service<'s> {
        let most = self.most_connections();
        Service {
            until: match signal {
                Some(signal) => ServeUntil::Stop(signal),
                None => ServeUntil::Connections(most.get()),
            },
            most,
            idle_ms: self.receiving.idle_ms,
            request_ms: self.receiving.request_ms,
            bodies: BodyBounds {
                max_bytes: self.receiving.max_inflight_bytes,
                max_ms: self.receiving.max_request_ms,
            },
            capacity: capacity_of(self.receiving),
            takes: TakeOptions {
                sorts_labels: self.receiving.sorts_labels,
                is_partial: self.receiving.takes_parts,
                explains: self.receiving.explains_replies,
            },
            memory_ms: self.receiving.memory_ms,
            counters,
        }
    }

    /// Serves connections over a head, and prints what it holds with decimals. Returns what has the
    /// head.
    fn serve_with_decimals<H: Show + Drop + Send, W: Sink>(
        &self,
        listener: TcpListener,
        counters: &Arc<ReceiveCounters, Global>,
        holder: H,
        output: &mut W,
    ) -> Result<Received<H>, ToolFault> {
        let signal = self.stop_signal(counters)?;
        let service = self.service(&signal, counters);
        let (alloc, limits) = (self.rt.alloc(), &self.settings.limits);
        let holder = serve_connections(self.threads, alloc, limits, service, listener, holder)?;
        let printed = print_decimals(alloc, holder.head(), output);
        Ok(Received { holder, printed })
    }

    /// Serves connections over a new head, and prints what it holds with decimals.
    fn serve_new_with_decimals(
        &self,
        listener: TcpListener,
        counters: &Arc<ReceiveCounters, Global>,
        output: &mut Output,
    ) -> Result<(), ToolFault> {
        let head = Head::new(self.rt.alloc(), &self.settings.limits);
        let Received { holder, printed } = self.serve_with_decimals(
            listener, counters, head, output,
        )?;
        drop(holder);
        printed
    }

    /// Serves connections over a new head, and prints what it holds.
    fn serve_new(
        &self,
        listener: TcpListener,
        counters: &Arc<ReceiveCounters, Global>,
        output: &mut Output,
    ) -> Result<(), ToolFault> {
        if self.receiving.has_decimals {
            self.serve_new_with_decimals(listener, counters, output)?;
        } else {
            let signal = self.stop_signal(counters)?;
            let service = self.service(&signal, counters);
            let (alloc, settings) = (self.rt.alloc(), self.settings);
            run_receive(self.threads, alloc, settings, service, listener, output)?;
        }
        self.note_ended_input(counters);
        Ok(())
    }

    /// Serves connections over a head whose log is in a folder, and prints what it holds, if that
    /// is wanted.
    fn serve_kept(
        &self,
        listener: TcpListener,
        counters: &Arc<ReceiveCounters, Global>,
        head: FolderHead,
        output: &mut OutputAfterReport<'_, Output>,
    ) -> Result<Received<FolderHead>, ToolFault> {
        if self.receiving.has_decimals && !self.receiving.is_quiet {
            return self.serve_with_decimals(listener, counters, head, output);
        }
        let signal = self.stop_signal(counters)?;
        let service = self.service(&signal, counters);
        let (alloc, limits) = (self.rt.alloc(), &self.settings.limits);
        if self.receiving.is_quiet {
            let holder = serve_connections(self.threads, alloc, limits, service, listener, head)?;
            return Ok(Received {
                holder,
                printed: Ok(()),
            });
        }
        serve_and_print(self.threads, alloc, limits, service, listener, head, output)
    }

    /// Serves connections over a head whose log is in a folder, and that keeps only the latest
    /// samples in memory. Nothing is printed of what it holds.
    fn serve_recent(
        &self,
        listener: TcpListener,
        counters: &Arc<ReceiveCounters, Global>,
        head: RecentFolderHead,
    ) -> Result<Received<RecentFolderHead>, ToolFault> {
        let signal = self.stop_signal(counters)?;
        report_old_samples(self.rt, self.threads, counters)?;
        let service = self.service(&signal, counters);
        let (alloc, limits) = (self.rt.alloc(), &self.settings.limits);
        let holder = serve_connections(self.threads, alloc, limits, service, listener, head)?;
        Ok(Received {
            holder,
            printed: Ok(()),
        })
    }

    /// Serves connections and keeps nothing in a folder, and reports how that goes as far as it is
    /// asked for.
    fn receive_in_memory(
        &self,
        listener: TcpListener,
        output: &mut Output,
    ) -> Result<(), ToolFault> {
        let (counters, shown) = self.begin_counting()?;
        let outcome = self.serve_new(listener, &counters, output);
        end_reporting(self.rt, &self.receiving.reporting, &shown);
        outcome
    }

    /// Reports how a receiver ended that keeps nothing in a folder, and returns the exit status.
    fn report_served(&self, output: &mut Output, outcome: Result<(), ToolFault>) -> ExitCode {
        if !has_output_failed(output) {
            return report_result(self.rt, outcome);
        }
        let status = report_output_fault(self.rt, output, self.is_explained);
        if self.is_explained {
            let _ = eprintln!(self.rt;
                "  what was held is not printed in full, and is lost; with --dir DIR it is kept"
            );
        }
        status
    }

    /// Reports and counts what a head holds that was opened, and returns it.
    fn begin_with<M: Memory>(
        &self,
        folder: &KeptFolder<'_>,
        counters: &ReceiveCounters,
        opened: OpenedHead<FolderLog, M>,
    ) -> KeptHead<FolderLog, M> {
        folder.report_opened(&opened);
        let head = opened.kept;
        let (samples, series) = (head.head().total(), head.head().places());
        counters.begin_with(samples, series);
        self.log_opened(folder.dir(), samples, series);
        head
    }

    /// Opens the log in a folder, and serves connections over it with all samples in memory.
    fn receive_whole(
        &self,
        listener: TcpListener,
        folder: &KeptFolder<'_>,
        counters: &Arc<ReceiveCounters, Global>,
        shown: &Counters,
    ) -> ExitCode {
        let reading = HeadReading::new(self.rt.alloc(), &self.settings.limits);
        match folder.open(reading, counters) {
            Ok(opened) => {
                let head = self.begin_with(folder, counters, opened);
                let output = open_output(self.rt);
                let reporting = &self.receiving.reporting;
                let mut output = OutputAfterReport::new(self.rt, reporting, shown, output);
                let outcome = self.serve_kept(listener, counters, head, &mut output);
                output.report();
                if outcome.is_ok() {
                    self.note_ended_input(counters);
                }
                folder.report_end(outcome, &mut output.into_output())
            }
            Err(error) => folder.report_error(error),
        }
    }

    /// Opens the log in a folder, and serves connections over it with only the samples of the last
    /// `span_ms` milliseconds in memory, also while the log is read.
    fn receive_recent(
        &self,
        listener: TcpListener,
        folder: &KeptFolder<'_>,
        counters: &Arc<ReceiveCounters, Global>,
        shown: &Counters,
        span_ms: u64,
    ) -> ExitCode {
        let keep = KeepFor {
            span_ms,
            now_ms: now_ms(self.rt).unwrap_or(i64::MIN),
        };
        let reading = HeadReading::recent(self.rt.alloc(), &self.settings.limits, keep);
        match folder.open(reading, counters) {
            Ok(opened) => {
                let head = self.begin_with(folder, counters, opened);
                let outcome = self.serve_recent(listener, counters, head);
                end_reporting(self.rt, &self.receiving.reporting, shown);
                if outcome.is_ok() {
                    self.note_ended_input(counters);
                }
                folder.report_end(outcome, &mut open_output(self.rt))
            }
            Err(error) => folder.report_error(error),
        }
    }

    /// Opens the log in a folder that is locked, and serves connections over it. What is asked for
    /// is reported from the beginning, so that one can see how far the log is read.
    fn receive_into(&self, listener: TcpListener, folder: &KeptFolder<'_>) -> ExitCode {
        let (counters, shown) = match self.begin_counting() {
            Ok(begun) => begun,
            Err(fault) => return report_result(self.rt, Err(fault)),
        };
        match self.receiving.memory_ms {
            Some(span_ms) => self.receive_recent(listener, folder, &counters, &shown, span_ms),
            None => self.receive_whole(listener, folder, &counters, &shown),
        }
    }

    /// Serves connections that a listener accepts, and returns the exit status.
    fn receive_from(&self, listener: TcpListener) -> ExitCode {
        let Some(dir) = self.receiving.dir else {
            let mut output = open_output(self.rt);
            let outcome = self.receive_in_memory(listener, &mut output);
            return self.report_served(&mut output, outcome);
        };
        let folder = KeptFolder::new(self.rt, dir, self.receiving, self.is_explained);
        match folder.lock() {
            Ok(lock) => {
                let status = self.receive_into(listener, &folder);
                drop(lock);
                status
            }
            Err(error) => folder.report_error(error),
        }
    }

    /// Has the log say where clients may connect.
    fn log_start(&self) {
        let receiving = self.receiving;
        let Address { host, port } = receiving.listen;
        self.log()
            .info(format!(in self.rt.alloc(); "listens on {host}:{port}"));
    }

    /// Has the log say what a folder holds at the start.
    fn log_opened(&self, dir: &str, samples: u64, series: usize) {
        let alloc = self.rt.alloc();
        self.log().info(format!(in alloc;
            "{dir} was read; it holds samples: {samples}, of series: {series}"
        ));
    }

    /// Listens at the address that is given, serves connections, and returns the exit status.
    fn receive(&self) -> ExitCode {
        let listen = self.receiving.listen;
        match TcpListener::bind(self.rt, (name_to_listen_on(listen), listen.port)) {
            Ok(listener) => {
                self.log_start();
                if self.is_explained || is_watched(self.rt, &self.receiving.reporting) {
                    note_file_limit(self.rt, self.most_connections().get());
                }
                let status = self.receive_from(listener);
                self.log().info(String::from_str(self.rt.alloc(), "ends"));
                status
            }
            Err(error) => {
                let status = report_result(self.rt, Err(ToolFault::Device));
                if self.is_explained {
                    print_listen_error(self.rt, listen, &error);
                }
                status
            }
        }
    }
}

/// Returns the settings with what the options set.
fn with_options(settings: Settings, receiving: &Receiving<'_>) -> Settings {
    let mut settings = settings;
    if receiving.takes_snappy {
        settings.limits.snappy = true;
    }
    settings
}

/// Serves connections by the settings in a file, at an address.
pub fn receive<R: Threads + Wait + Clock + Sync>(
    rt: &HostRuntime,
    threads: &R,
    file: SettingsFile<'_>,
    receiving: &Receiving<'_>,
) -> ExitCode {
    let mut was_stopped = false;
    if let Until::FileIs(path) = receiving.until {
        if is_misplaced(rt, path) {
            return report_misplaced(rt, path);
        }
        was_stopped = note_left_file(rt, path);
    }
    match settings_in(rt, file) {
        Ok(settings) => {
            let settings = with_options(settings, receiving);
            let receiver = Receiver {
                rt,
                threads,
                settings: &settings,
                receiving,
                is_explained: file.is_explained,
                was_stopped,
            };
            receiver.receive()
        }
        Err(fault) => report_settings_fault(rt, fault),
    }
}
