//! Counters, compared with what is printed.

use rw_metrics::{ReceiveCounters, ReceiveNumbers, SendCounters, SendNumbers};
use std::alloc::Global;

/// Returns how often a word is in a text.
fn times(text: &[u8], word: &[u8]) -> u64 {
    let mut count = 0u64;
    for i in 0..text.len() {
        if text[i..].starts_with(word) {
            count = count.saturating_add(1);
        }
    }
    count
}

/// Returns whether a report has this number of filtered samples, or is empty.
fn says_filtered(alloc: Global, report: &[u8], filtered: u64) -> bool {
    match format!(in alloc; "filtered {filtered}\n") {
        Ok(line) => report.is_empty() || times(report, line.as_bytes()) == 1,
        Err(_) => false,
    }
}

/// Returns whether a report lists as many dropped samples as the counters say, by each reason, and
/// as many that are not resolved.
fn names_as_many(report: &[u8], numbers: &SendNumbers) -> bool {
    let drops = &numbers.drops;
    let waiting = times(report, b"\nabandoned ");
    drops.all == times(report, b"dropped ")
        && drops.no_series == times(report, b" noseries\n")
        && drops.bad_labels == times(report, b" labels ")
        && drops.not_rising == times(report, b" notrising\n")
        && numbers.waiting == waiting
        && numbers.placed == numbers.resolved.saturating_add(waiting)
}

/// Returns whether the counters of a stopped sender agree with its report.
pub(crate) fn tells_as_printed(alloc: Global, counters: &SendCounters, report: &[u8]) -> bool {
    match counters.numbers(alloc) {
        Ok(numbers) => {
            says_filtered(alloc, report, numbers.filtered)
                && names_as_many(report, &numbers)
                && counters.dropped() == numbers.drops.all
        }
        Err(_) => false,
    }
}

/// Returns whether a receiver printed as many samples as it counted, and no connection is open. No
/// label has a space.
fn has_printed(printed: &[u8], numbers: &ReceiveNumbers) -> bool {
    let held = times(printed, b" ").saturating_sub(times(printed, b"\n"));
    numbers.connections == 0 && numbers.samples == held
}

/// Returns whether the counters of a receiver that has ended agree with what it printed, with no
/// open connection.
pub(crate) fn holds_as_printed(alloc: Global, counters: &ReceiveCounters, printed: &[u8]) -> bool {
    match counters.numbers(alloc) {
        Ok(numbers) => has_printed(printed, &numbers),
        Err(_) => false,
    }
}
