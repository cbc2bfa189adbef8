//! A receiver that keeps its log in a folder.

use rw_follow::StopSignal;
use rw_head::{Capacity, Limits};
use rw_kept_folder::{FolderJournal, FolderMonitor, FolderRules, OpenFolder, open_journal};
use rw_kept_head::{HeadReading, KeptHead};
use rw_metrics::ReceiveCounters;
use rw_receive::{BodyBounds, ServeUntil, Service, TakeOptions, serve_connections};
use rw_report_text::push_store;
use rw_text::ToolFault;
use rw_types::Bounded;
use std::alloc::Global;
use std::net::TcpListener;
use std::sync::Wait;
use std::thread::Threads;
use std::time::Clock;

/// A head whose log is in the files of a folder.
pub(crate) type FolderHead = KeptHead<FolderJournal<OpenFolder<HostRuntime>>>;

/// The most pages of a segment.
const PAGES: usize = 1;

/// A receiver without options takes a new folder, or one that it wrote.
const RULES: FolderRules = FolderRules {
    adopts: false,
    allows_missing_start: false,
};

/// Opens the log in a folder, or returns `None` if it is refused.
pub(crate) fn open_head(rt: &HostRuntime, limits: &Limits, dir: &str) -> Option<FolderHead> {
    let Ok(mut reading) = HeadReading::new(rt.alloc(), limits) else {
        return None;
    };
    let monitor = FolderMonitor::none();
    let Ok(journal) = open_journal(rt, dir, RULES, monitor, &mut reading) else {
        return None;
    };
    match KeptHead::open(reading, journal, PAGES) {
        Ok(opened) => Some(opened.kept),
        Err(_) => None,
    }
}

/// Returns whether the text of what a head holds is this.
pub(crate) fn says(alloc: Global, head: &FolderHead, held: &[u8]) -> bool {
    let mut text = Vec::new(alloc);
    push_store(&mut text, head.head()).is_ok() && text.as_slice() == held
}

/// How many samples a receiver takes, what it counts, and what stops it.
#[derive(Clone, Copy)]
pub(crate) struct Bounds<'a> {
    pub(crate) limits: &'a Limits,
    pub(crate) max_samples: u64,
    pub(crate) counters: &'a ReceiveCounters,
    pub(crate) signal: &'a StopSignal,
}

/// Serves connections over a head until the stop signal. Returns whether its journal has failed.
pub(crate) fn serve<R: Threads + Wait + Clock + Sync>(
    rt: &R,
    alloc: Global,
    bounds: Bounds<'_>,
    listener: TcpListener,
    head: FolderHead,
) -> Result<bool, ToolFault> {
    let service = Service {
        until: ServeUntil::Stop(bounds.signal),
        most: Bounded::new(2),
        idle_ms: Bounded::new(60_000),
        request_ms: Bounded::new(60_000),
        bodies: BodyBounds::none(),
        capacity: Capacity {
            max_samples: bounds.max_samples,
            max_series: u64::MAX,
        },
        takes: TakeOptions::whole(),
        memory_ms: None,
        counters: bounds.counters,
    };
    let head = serve_connections(rt, alloc, bounds.limits, service, listener, head)?;
    Ok(head.fault().is_some())
}

/// Returns how often a receiver has answered with a status, or 0 if memory runs out.
pub(crate) fn answers(alloc: Global, counters: &ReceiveCounters, status: u16) -> u64 {
    let Ok(numbers) = counters.numbers(alloc) else {
        return 0;
    };
    for (code, count) in &numbers.statuses {
        if *code == status {
            return *count;
        }
    }
    0
}
