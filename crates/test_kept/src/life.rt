//! One run of a receiver over a folder.

use crate::receiver::{Bounds, answers, open_head, says, serve};
use crate::sender::{connect_to, segment, ship};
use rw_follow::StopSignal;
use rw_metrics::ReceiveCounters;
use rw_settings::{Settings, read_settings};
use rw_types::Room;
use std::alloc::{AllocError, Global};
use std::net::TcpListener;
use std::path::{Path, PathBuf};
use std::sync::Wait;
use std::test::Fail;
use std::thread::Threads;
use std::time::Clock;
use std::{env, fs, thread};

/// A run of a receiver, to which a log is shipped from its first entry on.
#[derive(Clone, Copy)]
pub(crate) struct Life<'a> {
    pub(crate) name: &'static str,
    /// What the folder holds when the receiver opens it.
    pub(crate) opened: &'a [u8],
    /// How many samples the receiver may hold.
    pub(crate) max_samples: u64,
    /// A file that somebody makes in the folder once the receiver has opened it.
    pub(crate) made: Option<&'static str>,
    /// The log, as text.
    pub(crate) log: &'a [u8],
    /// What the sender prints.
    pub(crate) printed: &'a [u8],
    /// How many requests are acknowledged.
    pub(crate) acknowledged: u64,
    /// Whether one of them is answered 503 until the sender is ended.
    pub(crate) is_refused: bool,
}

/// Returns a new folder of this name.
pub(crate) fn new_folder(rt: &HostRuntime, name: &str) -> Result<PathBuf, Fail> {
    let temp = env::temp_dir(rt)?;
    let dir = temp.as_path().join(rt.alloc(), name)?;
    let _ = fs::remove_dir_all(rt, dir.as_path());
    fs::create_dir(rt, dir.as_path())?;
    Ok(dir)
}

fn settings_of(alloc: Global) -> Result<Settings, AllocError> {
    match read_settings(alloc, b"") {
        Ok(settings) => Ok(settings),
        Err(_) => Err(AllocError),
    }
}

/// Returns whether a folder that is opened holds this.
pub(crate) fn holds(rt: &HostRuntime, dir: &str, held: &[u8]) -> Result<bool, Fail> {
    let settings = settings_of(rt.alloc())?;
    match open_head(rt, &settings.limits, dir) {
        Some(head) => Ok(says(rt.alloc(), &head, held)),
        None => Ok(false),
    }
}

/// Makes the file of a life, if it has one. Returns whether it is there.
fn make_file(rt: &HostRuntime, dir: &str, life: &Life<'_>) -> bool {
    let Some(name) = life.made else {
        return true;
    };
    match Path::new(dir).join(rt.alloc(), name) {
        Ok(path) => fs::write(rt, path, "").is_ok(),
        Err(_) => false,
    }
}

/// Opens a folder and serves over it until the stop signal. Returns whether its journal has failed,
/// or `None` if the folder does not hold what the life says, or the service fails.
fn receive<R: Threads + Wait + Clock + Sync>(
    rt: &HostRuntime,
    threads: &R,
    dir: &str,
    life: &Life<'_>,
    bounds: Bounds<'_>,
    listener: TcpListener,
) -> Option<bool> {
    let Some(head) = open_head(rt, bounds.limits, dir) else {
        return None;
    };
    if !says(rt.alloc(), &head, life.opened) || !make_file(rt, dir, life) {
        return None;
    }
    match serve(threads, rt.alloc(), bounds, listener, head) {
        Ok(has_failed) => Some(has_failed),
        Err(_) => None,
    }
}

/// Runs a receiver while the log of a life is shipped to it. Returns whether the journal, the
/// answers and what the sender prints are as the life says. If one side ends, so does the other.
fn run_both<R: Threads + Wait + Clock + Copy + Send + Sync + 'static>(
    rt: &HostRuntime,
    threads: &R,
    dir: &str,
    life: &Life<'_>,
    bounds: Bounds<'_>,
) -> Result<bool, Fail> {
    let alloc = rt.alloc();
    let log = segment(alloc, life.log)?;
    let mut printed = Room::new(alloc, 4096)?;
    let listener = TcpListener::bind(rt, "127.0.0.1:0")?;
    let connect = connect_to(*rt, alloc, &listener)?;
    let is_refused = life.is_refused;
    let (has_failed, is_sent) = thread::join(
        threads,
        || {
            let has_failed = receive(rt, threads, dir, life, bounds, listener);
            bounds.signal.finish();
            has_failed
        },
        || ship(
            threads,
            alloc,
            bounds,
            &log,
            is_refused,
            connect,
            &mut printed,
        ),
    );
    let is_kept = has_failed == Some(life.made.is_some());
    Ok(is_kept && is_sent? != is_refused && printed.as_slice() == life.printed)
}

/// Runs a life over a folder. Returns whether all is as the life says.
pub(crate) fn lives<R: Threads + Wait + Clock + Copy + Send + Sync + 'static>(
    rt: &HostRuntime,
    threads: &R,
    dir: &str,
    life: &Life<'_>,
) -> Result<bool, Fail> {
    let alloc = rt.alloc();
    let settings = settings_of(alloc)?;
    let counters = ReceiveCounters::new(alloc)?;
    let signal = StopSignal::new();
    let bounds = Bounds {
        limits: &settings.limits,
        max_samples: life.max_samples,
        counters: &counters,
        signal: &signal,
    };
    let is_so = run_both(rt, threads, dir, life, bounds)?;
    Ok(is_so && answers(alloc, &counters, 204) == life.acknowledged)
}
