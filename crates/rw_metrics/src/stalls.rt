//! Messages of a sender whose receiver acknowledges nothing.

ghost use Rattle.std.specs.Prelude.{◌≡◌, IfOk};
ghost use Rattle.rw_metrics.specs.inner.Lines.{stall_line};

use crate::lines::WORDS;
use crate::rows::{Shown, push_row, push_text};
use crate::send_counters::SendCounters;
use crate::send_numbers::Failures;
use rw_text::push_number;
use std::alloc::{AllocError, Global};
use std::io::Write;
use std::sync::Arc;
use std::thread;
use std::thread::Threads;
use std::time::{Clock, Duration};

/// How many seconds without an acknowledgement pass before the first line.
const PATIENCE_SECONDS: u64 = 10;

/// How many seconds pass between two lines.
const PAUSE_SECONDS: u64 = 60;

/// For how long attempts have failed, by a look once a second.
#[derive(Drop)]
struct Stall {
    seconds: u64,
    failed: u64,
}

impl Stall {
    /// Takes how many attempts have failed since one succeeded, and returns whether a line is due.
    /// If they have become fewer, one succeeded since the last look.
    fn look(&mut self, failed: u64) -> bool {
        let goes_on = failed > 0 && failed >= self.failed;
        self.seconds = if goes_on {
            self.seconds.saturating_add(1)
        } else {
            0
        };
        self.failed = failed;
        self.seconds % PAUSE_SECONDS == PATIENCE_SECONDS
    }
}

/// Returns the line for a receiver that has acknowledged nothing for this time.
fn stall_line(
    alloc: Global,
    receiver: &str,
    seconds: u64,
    failures: &Failures,
) -> Result<Vec<u8>, AllocError>
    ensures { IfOk result (λ line. line.items ≡ stall_line receiver.now seconds failures.now) }
{
    let mut out = Vec::new(alloc);
    push_text(&mut out, "rwship: no acknowledgement from ")?;
    push_text(&mut out, receiver)?;
    push_text(&mut out, " for ")?;
    push_number(&mut out, seconds)?;
    push_text(&mut out, " s: attempts failed in a row: ")?;
    push_number(&mut out, failures.in_a_row)?;
    push_row(&mut out, &WORDS, "last", Shown::Last(failures.last))?;
    push_text(&mut out, "; trying again\n")?;
    Ok(out)
}

/// Looks once a second at what the sender has counted, and writes a line when one is due.
fn watch<C: Clock, W: Write>(
    clock: &C,
    writer: &mut W,
    alloc: Global,
    receiver: &str,
    counters: &SendCounters,
) {
    let mut stall = Stall {
        seconds: 0,
        failed: 0,
    };
    for _ in 0..u64::MAX {
        thread::sleep(clock, Duration::from_secs(1));
        if let Ok(numbers) = counters.numbers(alloc) {
            if stall.look(numbers.failures.in_a_row) {
                let _ = write_stall(writer, alloc, receiver, stall.seconds, &numbers.failures);
            }
        }
    }
}

/// Writes the line of a stall with one call.
fn write_stall<W: Write>(
    writer: &mut W,
    alloc: Global,
    receiver: &str,
    seconds: u64,
    failures: &Failures,
) -> Result<(), AllocError> {
    let line = stall_line(alloc, receiver, seconds, failures)?;
    let _ = writer.write(line.as_slice());
    Ok(())
}

/// Writes a line after ten seconds in which attempts failed and none succeeded, and one a minute
/// from then on, in a thread that is never joined: it ends with the process. `receiver` is the
/// HOST:PORT in the lines.
pub fn show_stalls<R: Threads, C: Clock + Copy + Send + 'static, W: Write + Send + Drop + 'static>(
    rt: &R,
    clock: C,
    writer: W,
    alloc: Global,
    receiver: String,
    counters: Arc<SendCounters, Global>,
) -> Result<(), AllocError> {
    let mut writer = writer;
    match thread::spawn(rt, move || {
        watch(&clock, &mut writer, alloc, &receiver, &counters)
    }) {
        Ok(watcher) => {
            drop(watcher);
            Ok(())
        }
        Err(_) => Err(AllocError),
    }
}
