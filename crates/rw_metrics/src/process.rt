//! What the kernel says of the process, in the files of `/proc/self`.

use rw_text::read_number;
use std::alloc::{Alloc, AllocGlobal};
use std::fs::{self, Files};

/// How many microseconds a tick of the kernel's clock has: there are 100 ticks in a second.
const TICK_MICROS: u64 = 10_000;

/// How many words of `/proc/self/stat` after the name of the process come before its processor time
/// in user mode, and how many between that in kernel mode and the time at which it was started.
const BEFORE_CPU: usize = 11;

const BEFORE_START: usize = 6;

/// What the kernel says of a process.
#[derive(Clone, Copy, Debug, PartialEq, Eq)]
pub struct ProcessNumbers {
    /// Microseconds of processor time.
    pub cpu_micros: u64,
    /// Bytes of memory.
    pub resident_bytes: u64,
    pub open_descriptors: u64,
    /// Microseconds from 1970 to its start.
    pub start_micros: u64,
}

/// Returns the next number of these words.
fn next_number(word: Option<&str>) -> Option<u64> {
    match word {
        Some(word) => read_number(word.as_bytes()),
        None => None,
    }
}

/// Returns the ticks of processor time, and the ticks from the start of the machine to that of the
/// process, of the text of `/proc/self/stat`.
fn ticks_of(stat: &str) -> Option<(u64, u64)> {
    let Some((_, rest)) = stat.rsplit_once(')') else {
        return None;
    };
    let mut words = rest.split_ascii_whitespace();
    let user = next_number(words.nth(BEFORE_CPU))?;
    let kernel = next_number(words.next())?;
    let start = next_number(words.nth(BEFORE_START))?;
    Some((user.saturating_add(kernel), start))
}

/// Returns the number that follows this word at the start of a line.
fn number_after(text: &str, word: &str) -> Option<u64> {
    for line in text.lines() {
        if let Some(rest) = line.strip_prefix(word) {
            return next_number(rest.split_ascii_whitespace().next());
        }
    }
    None
}

/// Returns what these texts of `/proc/self/stat`, `/proc/self/status` and `/proc/stat` say, but for
/// the descriptors.
pub fn process_of(stat: &str, status: &str, machine: &str) -> Option<ProcessNumbers> {
    let (cpu, start) = ticks_of(stat)?;
    let resident = number_after(status, "VmRSS:")?;
    let booted = number_after(machine, "btime")?;
    Some(ProcessNumbers {
        cpu_micros: cpu.saturating_mul(TICK_MICROS),
        resident_bytes: resident.saturating_mul(1_024),
        open_descriptors: 0,
        start_micros: booted
            .saturating_mul(1_000_000)
            .saturating_add(start.saturating_mul(TICK_MICROS)),
    })
}

/// Returns how many descriptors the process has open.
fn open_descriptors<R: Files + AllocGlobal + Copy>(rt: &R) -> Option<u64> {
    let Ok(entries) = fs::read_dir(rt, "/proc/self/fd") else {
        return None;
    };
    let mut count = 0u64;
    for _ in entries {
        count = count.saturating_add(1);
    }
    Some(count)
}

/// Returns what the kernel says of this process; `None` if it does not say all of it.
pub(crate) fn process<R: Files + AllocGlobal + Copy>(rt: &R) -> Option<ProcessNumbers> {
    let (Ok(stat), Ok(status), Ok(machine)) = (
        fs::read_to_string(rt, "/proc/self/stat"),
        fs::read_to_string(rt, "/proc/self/status"),
        fs::read_to_string(rt, "/proc/stat"),
    ) else {
        return None;
    };
    let mut numbers = process_of(&stat, &status, &machine)?;
    numbers.open_descriptors = open_descriptors(rt)?;
    Some(numbers)
}
