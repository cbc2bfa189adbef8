//! Prints progress once a second.

use crate::counters::Counters;
use std::alloc::{AllocError, Global};
use std::io::Write;
use std::thread;
use std::thread::Threads;
use std::time::{Clock, Duration};

/// How many seconds pass between two lines.
const PAUSE_SECONDS: u64 = 1;

/// What shows the lines of progress.
#[derive(Clone, Copy, Debug, PartialEq, Eq)]
pub enum Screen {
    /// A terminal, on which each line is written over the one before.
    Terminal,
    /// A file or a pipe.
    Lines,
}

/// Returns what follows a line: on a terminal the rest of the line before is cleared, and the next
/// one is written over it, unless it is the last one.
fn line_end(screen: Screen, is_last: bool) -> &'static [u8] {
    match screen {
        Screen::Terminal if is_last => b"\x1b[K\n",
        Screen::Terminal => b"\x1b[K\r",
        Screen::Lines => b"\n",
    }
}

/// Writes a line with one call.
fn write_line<W: Write>(writer: &mut W, line: Vec<u8>, ending: &[u8]) -> Result<(), AllocError> {
    let mut line = line;
    line.extend_from_slice(ending)?;
    let _ = writer.write(line.as_slice());
    Ok(())
}

/// Writes the values of the counters.
fn show<W: Write>(
    writer: &mut W,
    screen: Screen,
    alloc: Global,
    counters: &Counters,
) -> Result<(), AllocError> {
    let line = counters.line(alloc)?;
    write_line(writer, line, line_end(screen, false))
}

/// Writes the values of the counters, once a second.
fn show_on<C: Clock, W: Write>(
    clock: &C,
    writer: &mut W,
    screen: Screen,
    alloc: Global,
    counters: &Counters,
) {
    for _ in 0..u64::MAX {
        thread::sleep(clock, Duration::from_secs(PAUSE_SECONDS));
        let _ = show(writer, screen, alloc, counters);
    }
}

/// Writes a line of progress once a second, in a thread that is never joined: it ends with the
/// process.
pub fn show_progress<
    R: Threads,
    C: Clock + Copy + Send + 'static,
    W: Write + Send + Drop + 'static,
>(
    rt: &R,
    clock: C,
    writer: W,
    screen: Screen,
    alloc: Global,
    counters: Counters,
) -> Result<(), AllocError> {
    let mut writer = writer;
    match thread::spawn(rt, move || {
        show_on(&clock, &mut writer, screen, alloc, &counters)
    }) {
        Ok(shower) => {
            drop(shower);
            Ok(())
        }
        Err(_) => Err(AllocError),
    }
}

/// Writes the last lines.
fn write_last<W: Write>(
    writer: &mut W,
    screen: Screen,
    alloc: Global,
    counters: &Counters,
) -> Result<(), AllocError> {
    let ending = line_end(screen, true);
    write_line(writer, counters.line(alloc)?, ending)?;
    if let Some(line) = counters.drops(alloc)? {
        write_line(writer, line, ending)?;
    }
    if let Some(line) = counters.skips(alloc)? {
        write_line(writer, line, ending)?;
    }
    Ok(())
}

/// Writes what was counted in the end, and of a sender how many samples were dropped, by reason,
/// and which records of the log were skipped, if any: each in a line of its own. If out of memory,
/// what follows is not written.
pub fn write_end<W: Write>(writer: &mut W, screen: Screen, alloc: Global, counters: &Counters) {
    let _ = write_last(writer, screen, alloc, counters);
}
