//! What becomes of a batch after a status, and how long it waits.

use crate::rows::none_is_wrong;
use http::StatusCode;
use rw_retry::{Judgement, delay, judge};

static JUDGEMENTS: [Judged; 3] = [
    ("done", &[200, 204, 299], Judgement::Done),
    ("again", &[429, 500, 503, 599], Judgement::Again),
    (
        "refused",
        &[100, 301, 400, 404, 428, 430, 600, 999],
        Judgement::Refused,
    ),
];

fn is_judged(number: u16, judgement: Judgement) -> bool {
    match StatusCode::from_u16(number) {
        Ok(status) => judge(status) == judgement,
        Err(_) => false,
    }
}

/// Returns whether this becomes of a batch after each of these numbers.
fn are_judged(numbers: &[u16], judgement: Judgement) -> bool {
    for number in numbers {
        if !is_judged(*number, judgement) {
            return false;
        }
    }
    true
}

/// A name, statuses, and what becomes of a batch after one of them.
type Judged = (&'static str, &'static [u16], Judgement);

fn judged() -> &'static [Judged] {
    &JUDGEMENTS
}

fn wrong_judgement(rows: &[Judged]) -> Option<&'static str> {
    for (name, numbers, judgement) in rows {
        if !are_judged(numbers, *judgement) {
            return Some(name);
        }
    }
    None
}

/// The least and the longest wait, the number of the retry, and the wait before it.
static DELAYS: [(&str, (u64, u64), u64, u64); 10] = [
    ("the first retry", (30, 5000), 0, 30),
    ("the second retry", (30, 5000), 1, 60),
    ("the third retry", (30, 5000), 2, 120),
    ("below the most", (30, 5000), 7, 3840),
    ("the most", (30, 5000), 8, 5000),
    ("shifted out", (30, 5000), 64, 5000),
    ("the last retry", (30, 5000), u64::MAX, 5000),
    ("no wait", (0, 0), 9, 0),
    ("2 to the 63rd", (1, u64::MAX), 63, 1 << 63),
    ("2 to the 64th", (2, u64::MAX), 63, u64::MAX),
];

fn wrong_delay() -> Option<&'static str> {
    for (name, (least, most), retry, wait) in &DELAYS {
        if least > most || delay(*least, *most, *retry) != *wait {
            return Some(name);
        }
    }
    None
}

#[test]
fn judgements_and_delays(rt: HostRuntime) {
    none_is_wrong(&rt, wrong_judgement(judged()));
    none_is_wrong(&rt, wrong_delay());
}
