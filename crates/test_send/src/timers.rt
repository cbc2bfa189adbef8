//! Timers over a clock of the test.

use rw_follow::{StopSignal, Timed, Watch};
use std::alloc::{AllocError, Global};
use std::io;
use std::sync::Arc;
use std::sync::atomic::{AtomicU64, Ordering};
use std::test::Fail;
use std::time::{Clock, Duration};

/// A clock on which half a second passes from each reading to the next.
#[derive(Drop)]
struct Ticks {
    milliseconds: AtomicU64,
    /// The seconds of each sleep, which the clock does not show.
    slept: AtomicU64,
}

impl Ticks {
    fn new() -> Ticks {
        Ticks {
            milliseconds: AtomicU64::new(7000),
            slept: AtomicU64::new(0),
        }
    }
}

impl Clock for Ticks {
    fn monotonic(&self) -> io::Result<Duration> {
        let now = self.milliseconds.fetch_add(500, Ordering::Relaxed);
        Ok(Duration::from_millis(now))
    }

    fn since_1970(&self) -> io::Result<Duration> {
        self.monotonic()
    }

    fn sleep(&self, time: Duration) {
        self.slept.fetch_add(time.as_secs(), Ordering::Relaxed);
    }
}

/// Returns a watch with five seconds between two looks, a flush after three, and an adjustment of
/// the number of shards after two. Nobody sets its signal.
fn watch_by(alloc: Global, ticks: &Ticks) -> Result<Timed<&Ticks>, AllocError> {
    let signal = Arc::new(alloc, StopSignal::new())?;
    let poll = Duration::from_secs(5);
    let patience = Duration::from_secs(3);
    let reshard = Duration::from_secs(2);
    Ok(Timed::new(ticks, signal, poll, patience, reshard))
}

/// Whether a flush is due when asked at 0, 1, 2 s and so on, and an adjustment of the shards at
/// 0.5, 1.5, 2.5 s.
static DUE: [(bool, bool); 9] = [
    (false, false),
    (false, false),
    (false, true),
    (true, false),
    (false, false),
    (false, true),
    (false, false),
    (true, false),
    (false, true),
];

/// Returns the first second at which one of the two questions is answered differently.
fn wrong_answer(watch: &mut impl Watch) -> Option<usize> {
    for (i, due) in DUE.iter().enumerate() {
        let answers = (watch.is_flush_due(), watch.is_reshard_due());
        if answers != *due {
            return Some(i);
        }
    }
    None
}

/// A timer starts again once it is due, and each has its own time.
#[test]
fn timers_begin_anew(rt: HostRuntime) -> Result<(), Fail> {
    let ticks = Ticks::new();
    let mut watch = watch_by(rt.alloc(), &ticks)?;
    assert_eq!(rt; wrong_answer(&mut watch), None);
    Ok(())
}

/// A sleep lasts from one look to the next.
#[test]
fn a_sleep_lasts_until_the_next_look(rt: HostRuntime) -> Result<(), Fail> {
    let ticks = Ticks::new();
    watch_by(rt.alloc(), &ticks)?.sleep();
    assert_eq!(rt; ticks.slept.load(Ordering::Relaxed), 5);
    Ok(())
}
