//! The command `send`.

use crate::destination::destination_of;
use crate::drops::{explain_drops, explain_reply, explain_unsure};
use crate::event_log::EventLog;
use crate::live_report::{begin_reporting, end_reporting};
use crate::log_fault::{LogReadFault, log_fault, report_run_fault};
use crate::log_files::{files_of, note_checkpoint, note_empty, note_gaps, passes_checkpoint_over};
use crate::output::{Output, has_output_failed, open_output};
use crate::program_end::{
    empty_status, gap_status, print_device_error, report_dropped, report_misplaced, report_result,
    report_settings_fault, report_skipped,
};
use crate::refusal::{ReceiverStops, report_receiver_stop};
use crate::request_access::{RequestAccess, access_in};
use crate::resume::{ResumePoint, gone_status, print_gone, resume_point, resumed_segments};
use crate::settings::{dir_with, external_labels_in, settings_in};
use crate::shipped_log::{ResumedLog, ShippedLog, ship_log};
use crate::stop::{Awaited, is_misplaced, note_left_file, report_stop, stop_signal};
use crate::waiting::wait_for_start;
use rw_cli::{Following, LogDir, ReadExtent, Sending, SettingsFile};
use rw_follow::{StopSignal, Timed};
use rw_log_folder::{Folder, FolderFault, check_folder, watch_newest_segment};
use rw_metrics::{Counters, SendCounters, show_stalls};
use rw_resume::Keeping;
use rw_send::{
    ExternalLabels, FollowFault, GiveUp, LogOptions, RefusalStop, SendOptions, StopFlag,
    TcpConnect, UntilAborted,
};
use rw_settings::Settings;
use rw_tcp::look_up;
use rw_text::{Address, ToolFault};
use rw_types::write_all;
use std::alloc::{AllocError, Global};
use std::io::{Error, ErrorKind, IsTerminal};
use std::mem::replace;
use std::net::SocketAddr;
use std::process::ExitCode;
use std::sync::{Arc, Wait};
use std::thread::{self, Threads};
use std::time::{Clock, Duration};

/// How many milliseconds pass between two looks at a log that is read to its present end.
const POLL_MS: u64 = 10;

/// The time between two positions within a segment.
const KEEP_MS: u64 = 60_000;

/// The report of a log of which nothing could be read.
const NOTHING_READ: &[u8] = b"filtered 0\nreport abandoned 0\n";

/// All that shipping needs besides settings. It is made before the settings are given away, since
/// each way out of a function that owns settings is expensive to prove.
struct Shipment {
    log: ShippedLog,
    connect: TcpConnect<HostRuntime>,
    stop: StopFlag,
    counters: Arc<SendCounters, Global>,
    /// What ends the run by the answers of its receiver.
    stops: ReceiverStops,
}

/// What is wrong with the segments of a folder before a run.
#[derive(Clone, Copy)]
struct Noted {
    has_nothing: bool,
    has_gap: bool,
    /// Whether segments are gone that were to be shipped next.
    is_gone: bool,
}

/// A sender: what it runs on, what it is asked for, and where it prints its report.
#[derive(Drop)]
struct Sender<'a, R> {
    rt: &'a HostRuntime,
    /// The same runtime, as one that has threads: a `HostRuntime` has them in `main` alone.
    threads: &'a R,
    sending: &'a Sending<'a>,
    /// The folder that is shipped, and how it is read by the options and the settings.
    dir: LogDir<'a>,
    /// Where connections go.
    to: Address<'a>,
    is_explained: bool,
    /// What is added to requests.
    access: Option<RequestAccess>,
    /// The labels that are added to each series, until the work begins.
    labels: ExternalLabels,
    output: Output,
}

/// Returns counters that have counted nothing, and look at requests if they have readers.
fn new_counters(
    rt: &HostRuntime,
    has_readers: bool,
) -> Result<Arc<SendCounters, Global>, AllocError> {
    let counters = if has_readers {
        SendCounters::new(rt.alloc())?
    } else {
        SendCounters::without_readers(rt.alloc())?
    };
    Ok(Arc::new(rt.alloc(), counters)?)
}

impl<R: Threads + Wait + Clock + Copy + Send + 'static> Sender<'_, R> {
    /// Returns where what happens is written, if that is asked for.
    fn log(&self) -> EventLog {
        EventLog::new(self.rt, self.sending.reporting.has_log)
    }

    /// Returns whether somebody may read what is noted about the folder.
    fn wants_notes(&self) -> bool {
        self.is_explained || self.sending.reporting.has_progress
    }

    /// Returns whether somebody reads the counters before the run has ended: by an option, or if it
    /// is said what a stop waits for.
    fn has_readers(&self) -> bool {
        let reporting = &self.sending.reporting;
        let is_followed = matches!(self.sending.reading, ReadExtent::Follow(_));
        reporting.has_progress
            || reporting.has_log
            || reporting.metrics.is_some()
            || self.is_explained && is_followed
    }

    /// Returns the receiver, as it is shown.
    fn receiver(&self) -> Result<String, AllocError> {
        let Address { host, port } = self.to;
        Ok(format!(in self.rt.alloc(); "{host}:{port}")?)
    }

    /// On a terminal, reports from here on when the receiver acknowledges nothing, unless progress
    /// is shown.
    fn report_stalls(&self, counters: &Arc<SendCounters, Global>) -> Result<(), AllocError> {
        if self.sending.reporting.has_progress || !self.rt.stderr().is_terminal() {
            return Ok(());
        }
        let (rt, receiver) = (self.rt, self.receiver()?);
        let theirs = Arc::try_clone(counters)?;
        show_stalls(self.threads, *rt, rt.stderr(), rt.alloc(), receiver, theirs)
    }

    /// Looks for the newest segment of the folder from here on, if somebody may read its number.
    fn watch_folder(&self, counters: &Arc<SendCounters, Global>) -> Result<(), AllocError> {
        let reporting = &self.sending.reporting;
        if !reporting.has_progress && reporting.metrics.is_none() {
            return Ok(());
        }
        let dir = self.dir;
        let path = String::from_str(self.rt.alloc(), dir.path)?;
        let theirs = Arc::try_clone(counters)?;
        let host = *self.rt;
        let watcher = thread::spawn(self.threads, move || {
            watch_newest_segment(&host, &path, &theirs);
        })?;
        drop(watcher);
        Ok(())
    }

    /// Returns counters that have counted nothing, and reports them from here on, as far as that is
    /// asked for.
    fn begin_counting(&self) -> Result<Arc<SendCounters, Global>, ToolFault> {
        let counters = new_counters(self.rt, self.has_readers())?;
        let shown = Counters::Send(Arc::try_clone(&counters)?);
        begin_reporting(self.rt, self.threads, &self.sending.reporting, &shown)?;
        self.report_stalls(&counters)?;
        self.watch_folder(&counters)?;
        self.log().watch_sender(self.threads, &counters)?;
        Ok(counters)
    }

    /// Returns the folder, to be read while it grows.
    fn folder(
        &self,
        counters: &Arc<SendCounters, Global>,
    ) -> Result<Folder<HostRuntime>, AllocError> {
        let dir = self.dir;
        let path = String::from_str(self.rt.alloc(), dir.path)?;
        let counters = Arc::try_clone(counters)?;
        if dir.from_checkpoint {
            return Ok(Folder::from_checkpoint(*self.rt, path, counters));
        }
        Ok(Folder::new(*self.rt, path, counters))
    }

    /// Reports a stop and, if somebody may read that, what it waits for.
    fn report_stop(
        &self,
        counters: &Arc<SendCounters, Global>,
        signal: &Arc<StopSignal, Global>,
    ) -> Result<(), AllocError> {
        let awaited = if self.wants_notes() {
            Some(Awaited {
                receiver: self.receiver()?,
                counters: Arc::try_clone(counters)?,
            })
        } else {
            None
        };
        report_stop(self.rt, self.threads, self.log(), awaited, signal)
    }

    /// Returns a watch that stops a follower, and lets time pass. It is reported when a stop is
    /// requested.
    fn watch(
        &self,
        following: &Following<'_>,
        signal: Arc<StopSignal, Global>,
        counters: &Arc<SendCounters, Global>,
    ) -> Result<Timed<HostRuntime>, AllocError> {
        self.report_stop(counters, &signal)?;
        let poll = Duration::from_millis(following.poll_ms.get());
        let patience = Duration::from_millis(following.flush_ms.get());
        let reshard = Duration::from_millis(following.reshard_ms.get());
        Ok(Timed::new(*self.rt, signal, poll, patience, reshard))
    }

    /// Returns a watch of a log from a position on, which keeps the position: while the log grows,
    /// or to its present end.
    fn keeping(
        &self,
        signal: Arc<StopSignal, Global>,
        counters: &Arc<SendCounters, Global>,
    ) -> Result<Timed<HostRuntime>, AllocError> {
        match &self.sending.reading {
            ReadExtent::Follow(following) => self.watch(following, signal, counters),
            ReadExtent::Whole => {
                signal.finish();
                let pause = Duration::from_millis(POLL_MS);
                Ok(Timed::new(*self.rt, signal, pause, pause, pause))
            }
        }
    }

    /// Returns the log in the folder, to be read from a position on.
    fn resumed(
        &self,
        point: ResumePoint,
        signal: Arc<StopSignal, Global>,
        counters: &Arc<SendCounters, Global>,
    ) -> Result<ResumedLog, FolderFault> {
        let rt = self.rt;
        let watch = self.keeping(signal, counters)?;
        let ResumePoint {
            file,
            log,
            first,
            bytes,
            definitions,
            gone,
            has_nothing,
        } = point;
        let read = resumed_segments(rt, self.dir, first, bytes, definitions, counters)?;
        let every = Duration::from_millis(KEEP_MS);
        Ok(ResumedLog {
            watch: Keeping::new(rt.alloc(), *rt, watch, file, log, read.place, every),
            read,
            has_nothing,
            is_gone: gone.is_some(),
        })
    }

    /// Returns the signal that stops the run, and stops its workers too if that is at once. That of
    /// a log that is there whole is set by nobody outside.
    fn signal(&self, stop: &StopFlag) -> Result<Arc<StopSignal, Global>, AllocError> {
        match &self.sending.reading {
            ReadExtent::Whole => Ok(Arc::new(self.rt.alloc(), StopSignal::new())?),
            ReadExtent::Follow(following) => {
                let workers = stop.share()?;
                stop_signal(self.rt, self.threads, following.stop_file, Some(workers))
            }
        }
    }

    /// Returns the log in the folder, to be read from a position on, as it is or while it grows.
    fn segments(
        &self,
        point: Option<ResumePoint>,
        signal: Arc<StopSignal, Global>,
        counters: &Arc<SendCounters, Global>,
    ) -> Result<ShippedLog, FolderFault> {
        if let Some(point) = point {
            return Ok(ShippedLog::Resumed(self.resumed(point, signal, counters)?));
        }
        match &self.sending.reading {
            ReadExtent::Whole => {
                let files = files_of(self.rt, self.dir, Some(counters))?;
                Ok(ShippedLog::Whole(files, UntilAborted::new(signal)))
            }
            ReadExtent::Follow(following) => {
                let folder = self.folder(counters)?;
                Ok(ShippedLog::Growing(folder, self.watch(following, signal, counters)?))
            }
        }
    }

    /// Fails if a folder that is followed cannot be read.
    fn check_folder(&self) -> Result<(), FolderFault> {
        match &self.sending.reading {
            ReadExtent::Whole => Ok(()),
            ReadExtent::Follow(_) => check_folder(self.rt, self.dir.path),
        }
    }

    /// Returns what a refusal of the first batch does, if it is to stop the run by this signal and
    /// this flag.
    fn refusal(
        &self,
        signal: &Arc<StopSignal, Global>,
        stop: &StopFlag,
    ) -> Result<Option<Arc<RefusalStop, Global>>, AllocError> {
        if !self.sending.stops_on_refusal {
            return Ok(None);
        }
        let stop = RefusalStop::new(Arc::try_clone(signal)?, stop.share()?);
        Ok(Some(Arc::new(self.rt.alloc(), stop)?))
    }

    /// Returns what a failure that is repeated does, if it is to stop the run by this signal and
    /// this flag.
    fn give_up(
        &self,
        signal: &Arc<StopSignal, Global>,
        stop: &StopFlag,
    ) -> Result<Option<Arc<GiveUp, Global>>, AllocError> {
        let Some(most_ms) = self.sending.give_up_ms else {
            return Ok(None);
        };
        let give_up = GiveUp::new(most_ms, Arc::try_clone(signal)?, stop.share()?);
        Ok(Some(Arc::new(self.rt.alloc(), give_up)?))
    }

    /// Returns what ends the run by the answers of its receiver, by this signal and this flag.
    fn stops(
        &self,
        settings: &Settings,
        signal: &Arc<StopSignal, Global>,
        stop: &StopFlag,
    ) -> Result<ReceiverStops, AllocError> {
        let (alloc, Address { host, port }) = (self.rt.alloc(), self.to);
        let path = settings.config.fields().target.path.as_str();
        Ok(ReceiverStops {
            refusal: self.refusal(signal, stop)?,
            give_up: self.give_up(signal, stop)?,
            url: format!(in alloc; "http://{host}:{port}{path}")?,
        })
    }

    /// Returns the source of connections, whose answers may end the run, and whose requests have
    /// the fields that are added.
    fn with_options(
        &self,
        connect: TcpConnect<HostRuntime>,
        stops: &ReceiverStops,
    ) -> Result<TcpConnect<HostRuntime>, AllocError> {
        let mut connect = connect;
        if let Some(stop) = &stops.refusal {
            connect = connect.with_refusal_stop(Arc::try_clone(stop)?);
        }
        if let Some(give_up) = &stops.give_up {
            connect = connect.with_give_up(Arc::try_clone(give_up)?);
        }
        if let Some(added) = &self.access {
            connect = connect.with_fields(added.fields.copy()?, Arc::try_clone(&added.access)?);
        }
        Ok(connect)
    }

    /// Returns a source of connections to these addresses, which send Snappy blocks if the option
    /// or the settings say so.
    fn connect_to(
        &self,
        addresses: Vec<SocketAddr>,
        settings: &Settings,
        counters: Arc<SendCounters, Global>,
    ) -> Result<TcpConnect<HostRuntime>, AllocError> {
        let (rt, fields) = (self.rt, settings.config.fields());
        let connect = TcpConnect::new(rt.alloc(), *rt, addresses, fields.timeout_ms, counters)
            .with_name(self.to.name(), self.to.port)?
            .with_asked_pause(fields.max_backoff_ms.get());
        if self.sending.sends_snappy || fields.snappy {
            connect.with_snappy(&fields.target)
        } else {
            Ok(connect)
        }
    }

    /// Returns what shipping to a receiver at these addresses needs.
    fn shipment(
        &self,
        addresses: Vec<SocketAddr>,
        settings: &Settings,
        point: Option<ResumePoint>,
        counters: &Arc<SendCounters, Global>,
    ) -> Result<Shipment, FolderFault> {
        self.check_folder()?;
        let stop = StopFlag::new(self.rt.alloc())?;
        let signal = self.signal(&stop)?;
        let theirs = Arc::try_clone(counters)?;
        let counters = Arc::try_clone(counters)?;
        let stops = self.stops(settings, &signal, &stop)?;
        let connect = self.connect_to(addresses, settings, theirs)?;
        let connect = self.with_options(connect, &stops)?;
        let log = self.segments(point, signal, &counters)?;
        Ok(Shipment {
            log,
            connect,
            stop,
            counters,
            stops,
        })
    }

    /// Begins to report, and returns what shipping needs. If the files of the log cannot be listed
    /// or opened, it prints the report of a log without entries, unless memory ran out.
    fn prepare(
        &mut self,
        addresses: Vec<SocketAddr>,
        settings: &Settings,
        point: Option<ResumePoint>,
    ) -> Result<Shipment, LogReadFault> {
        let counters = self.begin_counting()?;
        match self.shipment(addresses, settings, point, &counters) {
            Ok(shipment) => Ok(shipment),
            Err(fault) => {
                if !matches!(fault, FolderFault::OutOfMemory) {
                    let _ = write_all(&mut self.output, NOTHING_READ);
                }
                end_reporting(self.rt, &self.sending.reporting, &Counters::Send(counters));
                Err(LogReadFault::from(fault))
            }
        }
    }

    /// Reports that the receiver cannot be looked up and, if that is asked for, why. Returns the
    /// exit status.
    fn report_lookup_error(&self, error: &Error) -> ExitCode {
        if error.kind() == ErrorKind::OutOfMemory {
            return report_result(self.rt, Err(ToolFault::OutOfMemory));
        }
        let status = report_result(self.rt, Err(ToolFault::Device));
        if self.is_explained {
            print_device_error(self.rt, "look up", self.to.name(), error);
        }
        status
    }

    /// Returns the stop file, if it is waited for what shipping needs.
    fn stop_file_to_wait_for(&self) -> Option<&str> {
        match &self.sending.reading {
            ReadExtent::Follow(following) if following.waits => following.stop_file,
            _ => None,
        }
    }

    /// Returns where the sender goes on, if it is to go on where it was, and reports which segments
    /// are gone. If that fails, it reports why, and returns the exit status.
    fn point(&self) -> Result<Option<ResumePoint>, ExitCode> {
        let Some(path) = self.sending.resume else {
            return Ok(None);
        };
        let (rt, dir) = (self.rt, self.dir);
        match resume_point(rt, dir, path, self.is_explained) {
            Ok(point) => {
                if let Some(gone) = point.gone {
                    print_gone(rt, dir, gone);
                }
                Ok(Some(point))
            }
            Err(status) => Err(status),
        }
    }

    /// Looks the receiver up and prepares to ship. If that fails, it reports why, and returns the
    /// exit status.
    fn start(&mut self, settings: &Settings) -> Result<Shipment, ExitCode> {
        let (rt, to, dir) = (self.rt, self.to, self.dir);
        if let Some(stop_file) = self.stop_file_to_wait_for() {
            wait_for_start(rt, dir.path, to, stop_file);
        }
        if self.wants_notes() {
            note_checkpoint(rt, dir);
        }
        let point = self.point()?;
        match look_up(rt, rt.alloc(), to.name(), to.port) {
            Ok(addresses) => match self.prepare(addresses, settings, point) {
                Ok(shipment) => Ok(shipment),
                Err(fault) => Err(log_fault(rt, dir, &fault, self.is_explained)),
            },
            Err(error) => Err(self.report_lookup_error(&error)),
        }
    }

    /// Reports that the folder has no segment, or lacks some between others, if somebody may read
    /// that.
    fn note_segments(&self, log: &ShippedLog) -> Noted {
        let (dir, is_asked_for) = (self.dir, self.wants_notes());
        if let ShippedLog::Resumed(log) = log {
            if log.has_nothing && matches!(self.sending.reading, ReadExtent::Whole) {
                note_empty(self.rt, dir, is_asked_for || self.sending.fails_on_empty);
            }
            return Noted {
                has_nothing: log.has_nothing,
                has_gap: false,
                is_gone: log.is_gone,
            };
        }
        let ShippedLog::Whole(files, _) = log else {
            return Noted {
                has_nothing: false,
                has_gap: false,
                is_gone: false,
            };
        };
        if files.is_empty() {
            note_empty(self.rt, dir, is_asked_for || self.sending.fails_on_empty);
        }
        let tells_gaps = is_asked_for || self.sending.fails_on_gap;
        Noted {
            has_nothing: files.is_empty(),
            has_gap: note_gaps(self.rt, dir, files, tells_gaps),
            is_gone: false,
        }
    }

    /// Explains which samples are missing because they were dropped, or because they are not read.
    fn explain_missing(&self, counters: &SendCounters) {
        let rt = self.rt;
        if let Ok(numbers) = counters.numbers(rt.alloc()) {
            let count = numbers.drops.no_series;
            if count > 0 && passes_checkpoint_over(rt, self.dir) {
                let _ = eprintln!(rt;
                    "  samples without a series: {count}; give --checkpoint to read the series of the newest checkpoint"
                );
            }
            explain_drops(rt, &numbers.drops);
        }
        explain_unsure(rt, counters);
        explain_reply(rt, counters);
        let count = counters.skipped().lost();
        if count > 0 {
            let _ = eprintln!(rt;
                "  records skipped that may hold samples: {count}; --progress and --metrics count them by type"
            );
        }
    }

    /// Reports what the receiver answered, if this is why the run has ended, and returns the exit
    /// status.
    fn report_stopped(
        &mut self,
        stops: &ReceiverStops,
        outcome: &Result<(), LogReadFault>,
    ) -> Option<ExitCode> {
        let is_other = match outcome {
            Ok(()) => false,
            Err(fault) => fault.fault != FollowFault::Stopped,
        };
        if is_other || has_output_failed(&mut self.output) {
            return None;
        }
        report_receiver_stop(self.rt, stops)
    }

    /// Ends the reporting, and reports how shipping ended and, if that is asked for, what is wrong
    /// with the folder. Returns the exit status.
    fn finish(
        &mut self,
        counters: Arc<SendCounters, Global>,
        noted: Noted,
        stops: ReceiverStops,
        outcome: Result<(), LogReadFault>,
    ) -> ExitCode {
        let (rt, dir, sending) = (self.rt, self.dir, self.sending);
        let (dropped, skipped) = (counters.dropped(), counters.skipped().lost());
        if self.wants_notes() {
            self.explain_missing(&counters);
        }
        end_reporting(rt, &sending.reporting, &Counters::Send(counters));
        if let Some(status) = self.report_stopped(&stops, &outcome) {
            return status;
        }
        match outcome {
            Ok(()) if noted.is_gone => gone_status(),
            Ok(()) if noted.has_nothing && sending.fails_on_empty => empty_status(),
            Ok(()) if dropped > 0 && sending.fails_on_drop => report_dropped(rt, dropped),
            Ok(()) if skipped > 0 && sending.fails_on_skip => report_skipped(rt, skipped),
            Ok(()) if noted.has_gap && sending.fails_on_gap => gap_status(),
            Ok(()) => ExitCode::SUCCESS,
            Err(fault) => { report_run_fault(rt, &mut self.output, dir, &fault, self.is_explained) }
        }
    }

    /// Has the log say what is read, and where it is sent to.
    fn log_start(&self) {
        let (alloc, dir) = (self.rt.alloc(), self.dir.path);
        let Address { host, port } = self.to;
        self.log().info(format!(in alloc; "reads {dir}, and sends to {host}:{port}"));
    }

    /// Has the log say what was acknowledged and dropped in the end.
    fn log_end(&self, counters: &SendCounters) {
        let alloc = self.rt.alloc();
        if let Ok(numbers) = counters.numbers(alloc) {
            let (taken, lost) = (numbers.acknowledged, numbers.drops.all);
            self.log().info(format!(in alloc;
                "ends; samples acknowledged: {taken}, dropped: {lost}"
            ));
        }
    }

    /// Ships what was prepared, and reports how that ended. Returns the exit status.
    fn ship(&mut self, settings: Settings, shipment: Shipment) -> ExitCode {
        let Shipment {
            log,
            connect,
            stop,
            counters,
            stops,
        } = shipment;
        let noted = self.note_segments(&log);
        self.log_start();
        let reading = LogOptions {
            may_compress: self.dir.may_compress,
            labels: replace(&mut self.labels, ExternalLabels::none()),
        };
        let options = SendOptions {
            connect,
            counters: &counters,
            max_batch_bytes: self.sending.max_batch_bytes,
            max_skew: self.sending.max_skew_ms,
            reading,
            stop,
        };
        let (rt, threads, resume) = (self.rt, self.threads, self.sending.resume);
        let outcome = ship_log(
            rt,
            threads,
            settings,
            log,
            options,
            resume,
            &mut self.output,
        );
        self.log_end(&counters);
        self.finish(counters, noted, stops, outcome)
    }

    /// Ships the log, and returns the exit status.
    fn send(&mut self, settings: Settings) -> ExitCode {
        match self.start(&settings) {
            Ok(shipment) => self.ship(settings, shipment),
            Err(status) => status,
        }
    }
}

/// Returns how a folder is read: from its newest checkpoint on if the position is kept.
fn resumed_dir<'a>(dir: LogDir<'a>, sending: &Sending<'_>) -> LogDir<'a> {
    let mut dir = dir;
    dir.from_checkpoint = dir.from_checkpoint || sending.resume.is_some();
    dir
}

/// Ships a folder by the settings in a file.
pub fn send<'a, R: Threads + Wait + Clock + Copy + Send + 'static>(
    rt: &'a HostRuntime,
    threads: &'a R,
    file: SettingsFile<'_>,
    sending: &'a Sending<'a>,
) -> ExitCode {
    if let ReadExtent::Follow(following) = &sending.reading {
        if let Some(path) = following.stop_file {
            if is_misplaced(rt, path) {
                return report_misplaced(rt, path);
            }
            note_left_file(rt, path);
        }
    }
    let mut destination = match destination_of(rt, sending.to) {
        Ok(destination) => destination,
        Err(status) => return status,
    };
    match settings_in(rt, file) {
        Ok(settings) => {
            let access = match access_in(rt, file) {
                Ok(access) => access,
                Err(status) => return status,
            };
            let labels = match external_labels_in(rt, file, settings.config.fields().names) {
                Ok(labels) => labels,
                Err(fault) => return report_settings_fault(rt, fault),
            };
            let settings = destination.settings_for(settings);
            let mut sender = Sender {
                rt,
                threads,
                sending,
                dir: resumed_dir(dir_with(sending.dir, &settings), sending),
                to: destination.address(),
                is_explained: file.is_explained,
                access,
                labels,
                output: open_output(rt),
            };
            sender.send(settings)
        }
        Err(fault) => report_settings_fault(rt, fault),
    }
}
