//! The stop signal of the program.

use crate::event_log::EventLog;
use rw_follow::{StopRequest, StopSignal, watch_file, watch_input};
use rw_metrics::{ReceiveCounters, SendCounters};
use rw_send::StopFlag;
use std::alloc::{AllocError, Global};
use std::fs;
use std::io::ErrorKind;
use std::path::Path;
use std::sync::Arc;
use std::thread::{self, Threads};
use std::time::Duration;

/// How many milliseconds pass between two looks at the counters of a log, or at a stop signal.
const LOOK_MS: u64 = 200;

/// After how many milliseconds it is said that a stop still waits.
const WAIT_MS: u64 = 2_000;

/// Sets the flag of the workers if an end at once is requested: they do not see the signal.
fn forward_abort(signal: &StopSignal, workers: &Option<StopFlag>) {
    if let Some(flag) = workers {
        if signal.request() == StopRequest::Abort {
            flag.set();
        }
    }
}

/// Returns whether the folder of a stop file is missing, or may not be entered.
pub fn is_misplaced(rt: &HostRuntime, stop_file: &str) -> bool {
    if let Err(error) = fs::metadata(rt, Path::new(stop_file)) {
        if error.kind() == ErrorKind::PermissionDenied {
            return true;
        }
    }
    let folder = match Path::new(stop_file).parent() {
        Some(folder) if !folder.as_str().is_empty() => folder,
        Some(_) => Path::new("."),
        None => Path::new("/"),
    };
    match fs::metadata(rt, folder) {
        Ok(metadata) => !metadata.is_dir(),
        Err(error) => matches!(error.kind(), ErrorKind::NotFound | ErrorKind::NotADirectory),
    }
}

/// Says that a stop is requested from the start, if the stop file exists already. Returns whether
/// it does.
pub fn note_left_file(rt: &HostRuntime, stop_file: &str) -> bool {
    let is_left = Path::new(stop_file).exists(rt);
    if is_left {
        let _ = eprintln!(rt;
            "rwship: the stop file {stop_file} exists already, so a stop is requested from the start; remove it before each start"
        );
    }
    is_left
}

/// Returns a signal that is set by the file or, if none is given, by standard input. If that asks
/// to end at once, the flag of the workers is set after the signal. The thread that sets it is
/// never joined.
pub fn stop_signal<R: Threads>(
    rt: &HostRuntime,
    threads: &R,
    stop_file: Option<&str>,
    workers: Option<StopFlag>,
) -> Result<Arc<StopSignal, Global>, AllocError> {
    let alloc = rt.alloc();
    let signal = Arc::new(alloc, StopSignal::new())?;
    let theirs = Arc::try_clone(&signal)?;
    let host = *rt;
    let watcher = match stop_file {
        Some(path) => {
            let path = String::from_str(alloc, path)?;
            thread::spawn(threads, move || {
                watch_file(&host, &path, &theirs);
                forward_abort(&theirs, &workers);
            })?
        }
        None => thread::spawn(threads, move || {
            watch_input(host.alloc(), &mut host.reader(), &theirs);
            forward_abort(&theirs, &workers);
        })?,
    };
    drop(watcher);
    Ok(signal)
}

/// Returns whether a write to the log of a folder has failed. The answer is `false` if memory runs
/// out for it.
fn has_failed(alloc: Global, counters: &ReceiveCounters) -> bool {
    match counters.numbers(alloc) {
        Ok(numbers) => match numbers.kept {
            Some(kept) => kept.failed > 0,
            None => false,
        },
        Err(_) => false,
    }
}

/// Says that nothing more is taken after a failed write to the log of a folder.
fn print_write_error(rt: &HostRuntime, dir: &str, ends: bool) {
    let next = if ends {
        "the receiver stops"
    } else {
        "stop the receiver, which then says why, and start it again"
    };
    let _ = eprintln!(rt;
        "rwship: a write or sync of the log in {dir} has failed, and no request is taken any more; {next}"
    );
}

/// Looks five times a second whether a write to the log of a folder has failed, then reports that,
/// and asks to finish if that is wanted.
fn watch_writes(
    rt: &HostRuntime,
    dir: &str,
    counters: &ReceiveCounters,
    signal: &StopSignal,
    ends: bool,
) {
    for _ in 0..u64::MAX {
        if has_failed(rt.alloc(), counters) {
            print_write_error(rt, dir, ends);
            if ends {
                signal.finish();
            }
            return;
        }
        thread::sleep(rt, Duration::from_millis(LOOK_MS));
    }
}

/// Reports once that a write to the log of a folder has failed, as soon as these counters count
/// that, and has the signal ask to finish if that is wanted. The thread that does so is never
/// joined.
pub fn report_write_error<R: Threads>(
    rt: &HostRuntime,
    threads: &R,
    dir: &str,
    counters: &Arc<ReceiveCounters, Global>,
    signal: &Arc<StopSignal, Global>,
    ends: bool,
) -> Result<(), AllocError> {
    let dir = String::from_str(rt.alloc(), dir)?;
    let counters = Arc::try_clone(counters)?;
    let signal = Arc::try_clone(signal)?;
    let host = *rt;
    let watcher = thread::spawn(threads, move || {
        watch_writes(&host, &dir, &counters, &signal, ends);
    })?;
    drop(watcher);
    Ok(())
}

/// What an orderly stop of a sender waits for.
#[derive(Drop)]
pub struct Awaited {
    /// The receiver, as it is shown.
    pub receiver: String,
    pub counters: Arc<SendCounters, Global>,
}

impl Awaited {
    /// Says how many samples have no answer yet, if there are any.
    fn print(&self, rt: &HostRuntime) {
        if let Ok(numbers) = self.counters.numbers(rt.alloc()) {
            let (count, receiver) = (numbers.in_flight, &self.receiver);
            if count > 0 {
                let _ = eprintln!(rt;
                    "rwship: a stop is requested, and {count} samples wait for an answer of {receiver}; the line 'hard', on standard input or in the stop file, ends that at once"
                );
            }
        }
    }
}

/// Waits until a stop is requested, and has the log say so. If the program has not ended two
/// seconds later, says what an orderly stop waits for.
fn watch_stop(rt: &HostRuntime, log: EventLog, awaited: &Option<Awaited>, signal: &StopSignal) {
    for _ in 0..u64::MAX {
        if signal.request() != StopRequest::Continue {
            break;
        }
        thread::sleep(rt, Duration::from_millis(LOOK_MS));
    }
    log.note_stop();
    thread::sleep(rt, Duration::from_millis(WAIT_MS));
    match awaited {
        Some(awaited) if signal.request() == StopRequest::Finish => awaited.print(rt),
        _ => {}
    }
}

/// Has a thread report that a stop is requested, and what it waits for. It is never joined.
pub fn report_stop<R: Threads>(
    rt: &HostRuntime,
    threads: &R,
    log: EventLog,
    awaited: Option<Awaited>,
    signal: &Arc<StopSignal, Global>,
) -> Result<(), AllocError> {
    let signal = Arc::try_clone(signal)?;
    let host = *rt;
    let watcher = thread::spawn(threads, move || {
        watch_stop(&host, log, &awaited, &signal);
    })?;
    drop(watcher);
    Ok(())
}
