//! Messages of a receiver whose senders ask for samples that are no longer in memory.

use rw_metrics::ReceiveCounters;
use std::alloc::{AllocError, Global};
use std::sync::Arc;
use std::thread::{self, Threads};
use std::time::Duration;

/// How many milliseconds pass between two looks at the counters.
const LOOK_MS: u64 = 1_000;

/// Returns the series of which samples came that may be gone from memory, as the counters have
/// counted them. The answer is 0 if memory runs out for it.
fn count_asked(alloc: Global, counters: &ReceiveCounters) -> u64 {
    match counters.numbers(alloc) {
        Ok(numbers) => match numbers.memory {
            Some(memory) => memory.asked,
            None => 0,
        },
        Err(_) => 0,
    }
}

/// Says that samples came that are older than what is in memory, and what to do.
fn print_asked(rt: &HostRuntime, series: u64) {
    let _ = eprintln!(rt;
        "rwship: samples of {series} series came that may be repeats of samples older than --memory keeps: their requests are answered with 503, and nothing of them is taken"
    );
    let _ = eprintln!(rt;
        "  next: start the receiver again with a longer --memory, so that their senders go on"
    );
}

/// Looks once a second whether samples came that are no longer in memory, and says so.
fn watch_memory(rt: &HostRuntime, counters: &ReceiveCounters) {
    let mut seen = 0;
    for _ in 0..u64::MAX {
        let asked = count_asked(rt.alloc(), counters);
        if asked > seen {
            print_asked(rt, asked - seen);
            seen = asked;
        }
        thread::sleep(rt, Duration::from_millis(LOOK_MS));
    }
}

/// Reports from here on that samples came that are older than what is in memory, as soon as these
/// counters count that: at most once a minute, since the receiver counts them as often. The thread
/// that does so is never joined.
pub fn report_old_samples<R: Threads>(
    rt: &HostRuntime,
    threads: &R,
    counters: &Arc<ReceiveCounters, Global>,
) -> Result<(), AllocError> {
    let counters = Arc::try_clone(counters)?;
    let host = *rt;
    let watcher = thread::spawn(threads, move || watch_memory(&host, &counters))?;
    drop(watcher);
    Ok(())
}
