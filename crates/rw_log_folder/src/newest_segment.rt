//! The newest segment of a folder, looked for while its log is read.

use crate::files::names_in;
use rw_metrics::SendCounters;
use std::rt::Files;
use std::thread;
use std::time::{Clock, Duration};

/// How many seconds pass between two looks.
const PAUSE_SECONDS: u64 = 5;

/// Looks for the newest segment, and passes its number on to the counters.
fn look<R: Files + AllocGlobal + Copy>(rt: &R, dir: &str, counters: &SendCounters) {
    if let Ok(names) = names_in(rt, dir) {
        if let Some(newest) = names.last() {
            counters.set_newest_segment(newest.number);
        }
    }
}

/// Keeps the counters informed of the newest segment in a folder, which it looks for every few
/// seconds. It does not return: call it in a thread that ends with the process.
pub fn watch_newest_segment<R: Files + AllocGlobal + Clock + Copy>(
    rt: &R,
    dir: &str,
    counters: &SendCounters,
) {
    for _ in 0..u64::MAX {
        look(rt, dir, counters);
        thread::sleep(rt, Duration::from_secs(PAUSE_SECONDS));
    }
}
