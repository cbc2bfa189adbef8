//! Schedules of requests, each of which is crashed at each byte that it writes.

use crate::life::{Life, Wrong, live};
use crate::plain::Sample;
use crate::plan::Plan;
use crate::segments::{texts_of, torn_at};
use rw_head::Admission;
use rw_kept_log::MemoryJournal;
use std::alloc::{AllocError, Global};
use std::test::Fail;

/// The next of a row of numbers.
fn next(seed: &mut u64) -> u64 {
    *seed = seed
        .wrapping_mul(6_364_136_223_846_793_005)
        .wrapping_add(1_442_695_040_888_963_407);
    *seed >> 33
}

/// The last sample of a series.
fn last_of(all: &[Sample], series: usize) -> Option<Sample> {
    let mut last = None;
    for sample in all {
        if sample.series == series {
            last = Some(*sample);
        }
    }
    last
}

/// What becomes of a sample.
#[derive(Clone, Copy, Debug, PartialEq, Eq)]
enum Kind {
    New,
    Repeat,
    Late,
}

/// A sample for a request: mostly a new one, at times a repeat, rarely one that is out of order.
fn choose(seed: &mut u64, all: &[Sample], clock: &mut i64) -> (Sample, Kind) {
    let series = (next(seed) % 4) as usize;
    let kind = next(seed) % 16;
    let value = next(seed);
    if let Some(last) = last_of(all, series) {
        if kind < 3 {
            return (last, Kind::Repeat);
        }
        if kind == 3 {
            let late = Sample {
                series,
                time: -1,
                value,
            };
            return (late, Kind::Late);
        }
    }
    *clock = clock.wrapping_add(1 + (next(seed) % 50) as i64);
    let sample = Sample {
        series,
        time: *clock,
        value,
    };
    (sample, Kind::New)
}

/// Adds a request of one to three samples after those that are held. One that brings a late sample
/// is refused.
fn push_request(
    alloc: Global,
    plan: &mut Plan,
    seed: &mut u64,
    clock: &mut i64,
) -> Result<(), AllocError> {
    let mut samples = Vec::new(alloc);
    let mut all = plan.all.to_vec(alloc)?;
    let mut is_late = false;
    for _ in 0..1 + next(seed) % 3 {
        let (sample, kind) = choose(seed, &plan.all, clock);
        samples.push(sample)?;
        match kind {
            Kind::New => all.push(sample)?,
            Kind::Repeat => {}
            Kind::Late => is_late = true,
        }
    }
    if is_late {
        return plan.push(alloc, &samples, Admission::Answered(400));
    }
    plan.all = all;
    plan.push(alloc, &samples, Admission::Answered(204))
}

/// Makes a schedule of three requests.
fn schedule(alloc: Global, seed: u64) -> Result<Plan, AllocError> {
    let mut plan = Plan::new(alloc, 4, 1)?;
    let mut seed = seed;
    let mut clock = 1000;
    for _ in 0..3 {
        push_request(alloc, &mut plan, &mut seed, &mut clock)?;
    }
    Ok(plan)
}

static JUNK: [&[u8]; 3] = [&[], &[0, 0, 0], &[1, 0, 1, 9, 9, 9, 9, 9]];

/// Opens a journal as a crash during a request left it, and asks the request again; opens the
/// journal once more if that is wanted.
fn reopen(
    alloc: Global,
    plan: &Plan,
    journal: MemoryJournal,
    life: Life,
    is_opened_twice: bool,
) -> Result<(), Wrong> {
    let (journal, answered) = live(alloc, plan, journal, life);
    answered?;
    if is_opened_twice {
        let (_, answered) = live(alloc, plan, journal, Life::whole(life.end, life.end));
        answered?;
    }
    Ok(())
}

/// Crashes a request at each byte that it wrote to the last segment, and after them; `cut` is after
/// how many.
fn crash_each(
    alloc: Global,
    plan: &Plan,
    texts: &[Vec<u8>],
    number: usize,
    cut: &mut usize,
) -> Result<(), Wrong> {
    let Some(last) = texts.last() else {
        return Err(Wrong::Count);
    };
    let end = number.saturating_add(1);
    for torn in 0..last.len().saturating_add(1) {
        *cut = torn;
        let life = Life {
            least: if torn < last.len() { number } else { end },
            most: end,
            first: number,
            end,
        };
        let journal = torn_at(alloc, texts, torn, JUNK[torn % 3])?;
        reopen(alloc, plan, journal, life, torn % 8 == 0)?;
    }
    Ok(())
}

/// Where a schedule is: the number of the request, and after how many bytes it was crashed.
type Place = (usize, usize);

/// Plays the requests of a schedule, each in a life of its own, and crashes each of them.
fn play(alloc: Global, seed: u64, place: &mut Place) -> Result<(), Wrong> {
    let plan = schedule(alloc, seed)?;
    let mut journal = MemoryJournal::new(alloc);
    for number in 0..plan.requests.len() {
        place.0 = number;
        let life = Life::whole(number, number.saturating_add(1));
        let (left, answered) = live(alloc, &plan, journal, life);
        answered?;
        journal = left;
        let texts = texts_of(alloc, &journal)?;
        crash_each(alloc, &plan, &texts, number, &mut place.1)?;
    }
    Ok(())
}

/// Returns the number of the first schedule that is wrong, where, and why.
fn first_wrong(alloc: Global) -> Option<(u64, Place, Wrong)> {
    let mut place = (0, 0);
    for seed in 0..200 {
        if let Err(wrong) = play(alloc, seed, &mut place) {
            return Some((seed, place, wrong));
        }
    }
    None
}

#[test]
fn each_crash_of_each_schedule_is_opened(rt: HostRuntime) -> Result<(), Fail> {
    let wrong = first_wrong(rt.alloc());
    assert_eq!(rt; wrong, None);
    Ok(())
}
