//! Seats of one head, in one thread and in two.

ghost use Rattle.std.specs.Prelude.{◌≡◌, ◌+◌, IfOk, Some};
ghost use Rattle.rw_head.specs.Store.{total};

use crate::bodies::TWO;
use crate::memory::status_at_last;
use crate::messages::{Samples, UP, has_samples, standard};
use crate::store::is_served_by;
use rw_endpoint::{Answer, ServeEnd};
use rw_head::{Capacity, Head};
use rw_recv_head::{Blank, Holding, Seat, SeatAnswer, SharedHead};
use rw_recv_http::Asking;
use rw_test_parts::{UP_MESSAGE as ONE, WORD_OF_ONE};
use std::alloc::{AllocError, Global};
use std::marker::Brand;
use std::sync::Wait;
use std::test::Fail;
use std::thread;
use std::thread::Threads;

/// Returns a blank of `parts` parts, made again if memory ran out.
pub(crate) fn blank(alloc: Global, parts: u64) -> Result<Blank, AllocError>
    ensures { IfOk result (λ b. b.parts ≡ parts) }
{
    match Blank::new(alloc, parts) {
        Ok(blank) => Ok(blank),
        Err(_) => Blank::new(alloc, parts),
    }
}

/// What two seats answered and stored, and the head after them.
#[derive(Drop)]
struct Outcome {
    statuses: (u16, u16),
    stored: (u64, u64),
    head: Head,
}

fn asked<L: Holding<Head>, R: Wait>(
    rt: &R,
    shared: &SharedHead<L>,
    seat: Seat<L>,
    body: &[u8],
) -> (u16, Seat<L>) {
    let mut seat = seat;
    let status = seat.answer(rt, shared, body);
    (status, seat)
}

/// Asks with one body from two seats at once.
fn asked_at_once<L: Holding<Head> + Send + Sync, R: Threads + Wait + Sync>(
    rt: &R,
    alloc: Global,
    blank: Blank,
    head: Head,
    body: &[u8],
) -> Result<Outcome, AllocError>
    requires name { blank.name ≡ L.name }
    requires parts { (blank.parts ≡ 3) × (L.parts ≡ 3) }
    requires table { blank.table ≡ L.table }
    requires opening { head ≡ L.opening }
    requires first { L.first ≡ Some head }
    ensures { IfOk result (λ o. total o.head.store ≡ total head.store + o.stored.0 + o.stored.1) }
{
    let Ok((shared, mut seats)) = SharedHead::<L>::seats(alloc, blank, head, 2) else {
        return Err(AllocError);
    };
    let second = seats.pop().unwrap();
    let first = seats.pop().unwrap();
    let lent = &shared;
    let (first, second) = thread::join(
        rt,
        move || asked(rt, lent, first, body),
        move || asked(rt, lent, second, body),
    );
    let statuses = (first.0, second.0);
    let stored = (first.1.stored(), second.1.stored());
    seats.push_reserved(first.1);
    seats.push_reserved(second.1);
    Ok(Outcome {
        statuses,
        stored,
        head: shared.gather(seats),
    })
}

/// Returns whether both seats answered 204, and one of them stored the sample.
fn is_stored_once(alloc: Global, outcome: &Outcome) -> bool {
    outcome.statuses == (204, 204)
        && matches!(outcome.stored, (1, 0) | (0, 1))
        && outcome.head.total() == 1
        && has_samples(alloc, &outcome.head, UP, &[(1000, WORD_OF_ONE)])
}

#[test]
fn one_body_from_two_seats_is_stored_once(rt: HostRuntime) -> Result<(), Fail> {
    let alloc = rt.alloc();
    let blank = blank(alloc, 3)?;
    let head = standard(alloc)?;
    let outcome = asked_at_once::<Brand, HostRuntime>(&rt, alloc, blank, head, &ONE)?;
    assert!(rt; is_stored_once(alloc, &outcome));
    Ok(())
}

/// What a seat is asked, and the expected answers.
#[derive(Clone, Copy)]
pub(crate) enum Talk<'a> {
    /// Bodies one after the other, each with its status and with what the seat then has stored.
    Bodies(&'a [(&'a [u8], u16, u64)]),
    /// The input of a connection, its replies, and what the seat then has stored. The last reply
    /// closes it.
    Connection(&'a [u8], &'a [u8], u64),
}

/// Returns the status of a body, asked for again if memory ran out and the seat has stored as much
/// as before.
fn answered_at_last<L: Holding<Head>, R: Wait>(
    asking: &mut Asking<'_, R, L>,
    body: &[u8],
    before: u64,
) -> u16 {
    let status = asking.answer(body);
    if status == 503 && asking.seat.stored() == before {
        asking.answer(body)
    } else {
        status
    }
}

/// Returns whether each body has its status, and the seat then has stored this much.
fn answers<L: Holding<Head>, R: Wait>(
    asking: &mut Asking<'_, R, L>,
    bodies: &[(&[u8], u16, u64)],
) -> bool {
    let mut before = 0;
    for (body, status, stored) in bodies {
        let answer = answered_at_last(asking, body, before);
        if answer != *status || asking.seat.stored() != *stored {
            return false;
        }
        before = *stored;
    }
    true
}

/// Returns whether a seat answers as expected.
fn is_answered<L: Holding<Head>, R: Wait>(
    alloc: Global,
    asking: &mut Asking<'_, R, L>,
    talk: Talk<'_>,
) -> bool {
    match talk {
        Talk::Bodies(bodies) => answers(asking, bodies),
        Talk::Connection(input, replies, stored) => {
            let mut reader = input;
            is_served_by(alloc, &mut reader, asking, replies, ServeEnd::Closed)
                && asking.seat.stored() == stored
        }
    }
}

/// Asks from the one seat of a head. Returns whether it answers as expected, and the head. If no
/// seat could be made there is no answer, and the head is as it was.
pub(crate) fn answered<L: Holding<Head>, R: Wait>(
    rt: &R,
    alloc: Global,
    blank: Blank,
    head: Head,
    talk: Talk<'_>,
) -> (Option<bool>, Head)
    requires name { blank.name ≡ L.name }
    requires parts { (blank.parts ≡ 2) × (L.parts ≡ 2) }
    requires table { blank.table ≡ L.table }
    requires opening { head ≡ L.opening }
    requires first { L.first ≡ Some head }
{
    let (shared, mut seats) = match SharedHead::<L>::seats(alloc, blank, head, 1) {
        Ok(shared) => shared,
        Err((head, _)) => return (None, head),
    };
    let mut is_so = None;
    if let Some(seat) = seats.first_mut() {
        let mut asking = Asking {
            rt,
            shared: &shared,
            seat,
        };
        is_so = Some(is_answered(alloc, &mut asking, talk));
    }
    (is_so, shared.gather(seats))
}

/// Returns a head that holds a sample.
fn begun(alloc: Global) -> Result<Head, AllocError> {
    let mut head = match standard(alloc) {
        Ok(head) => head,
        Err(_) => standard(alloc)?,
    };
    match status_at_last(&mut head, &ONE, (0, 0)) {
        204 => Ok(head),
        _ => Err(AllocError),
    }
}

/// Returns whether the head holds these samples, looked for again if memory ran out.
fn has_at_last(alloc: Global, head: &Head, samples: Samples<'_>) -> bool {
    has_samples(alloc, head, UP, samples) || has_samples(alloc, head, UP, samples)
}

/// Returns whether the head holds what it did before the bodies, or after them.
fn holds_what_was_stored(alloc: Global, is_answered: Option<bool>, head: &Head) -> bool {
    let samples = [(1000, WORD_OF_ONE), (2000, WORD_OF_ONE)];
    match is_answered {
        None => head.total() == 1 && has_at_last(alloc, head, &samples[..1]),
        Some(is_so) => is_so && head.total() == 3 && has_at_last(alloc, head, &samples),
    }
}

/// Holds whichever allocation fails; `tools/refuse-each` lets each of them fail in turn.
#[test]
fn a_seat_counts_what_was_stored(rt: HostRuntime) -> Result<(), Fail> {
    let alloc = rt.alloc();
    let blank = blank(alloc, 2)?;
    let head = begun(alloc)?;
    let bodies: [(&[u8], u16, u64); 4] = [
        (&TWO[..65], 400, 0),
        (&TWO, 204, 2),
        (&TWO, 204, 2),
        (&ONE, 204, 2),
    ];
    let talk = Talk::Bodies(&bodies);
    let (is_so, head) = answered::<Brand, HostRuntime>(&rt, alloc, blank, head, talk);
    assert!(rt; holds_what_was_stored(alloc, is_so, &head));
    Ok(())
}

/// Returns a blank of two parts, for a head that may hold `max_samples` samples and any number of
/// series.
fn limited(alloc: Global, max_samples: u64) -> Result<Blank, AllocError>
    ensures { IfOk result (λ b. b.parts ≡ 2) }
{
    let capacity = Capacity {
        max_samples,
        ..Capacity::unlimited()
    };
    Blank::with_capacity(alloc, 2, capacity)
}

/// Returns whether the one seat of a head that holds a sample finds it full for two more, and then
/// has a repeat acknowledged, and the head.
fn finds_full<L: Holding<Head>, R: Wait>(
    rt: &R,
    alloc: Global,
    blank: Blank,
    head: Head,
) -> Result<(bool, Head), AllocError>
    requires name { blank.name ≡ L.name }
    requires parts { (blank.parts ≡ 2) × (L.parts ≡ 2) }
    requires table { blank.table ≡ L.table }
    requires opening { head ≡ L.opening }
    requires first { L.first ≡ Some head }
{
    let Ok((shared, mut seats)) = SharedHead::<L>::seats(alloc, blank, head, 1) else {
        return Err(AllocError);
    };
    let mut is_so = false;
    if let Some(seat) = seats.first_mut() {
        let full = seat.ask(rt, &shared, &TWO);
        let repeat = seat.ask(rt, &shared, &ONE);
        is_so = is_one_held(full, 503, true) && is_one_held(repeat, 204, false);
    }
    Ok((is_so, shared.gather(seats)))
}

/// Whether a request had this status, and the head holds one sample.
fn is_one_held(asked: SeatAnswer, status: u16, is_full: bool) -> bool {
    asked.status == status
        && asked.is_full == is_full
        && asked.label_sets == 1
        && asked.samples == 1
}

/// Returns whether the answers to a seat are right, and the head holds one sample.
fn holds_one(outcome: Result<(bool, Head), AllocError>) -> bool {
    matches!(outcome, Ok((true, head)) if head.total() == 1)
}

#[test]
fn a_seat_finds_its_head_full(rt: HostRuntime) -> Result<(), Fail> {
    let alloc = rt.alloc();
    let blank = limited(alloc, 2)?;
    let head = begun(alloc)?;
    let outcome = finds_full::<Brand, HostRuntime>(&rt, alloc, blank, head);
    assert!(rt; holds_one(outcome));
    Ok(())
}

#[test]
fn a_seat_fills_its_head(rt: HostRuntime) -> Result<(), Fail> {
    let alloc = rt.alloc();
    let blank = limited(alloc, 3)?;
    let head = begun(alloc)?;
    let bodies: [(&[u8], u16, u64); 3] = [(&TWO, 204, 2), (&TWO, 204, 2), (&ONE, 204, 2)];
    let talk = Talk::Bodies(&bodies);
    let (is_so, head) = answered::<Brand, HostRuntime>(&rt, alloc, blank, head, talk);
    assert!(rt; holds_what_was_stored(alloc, is_so, &head));
    Ok(())
}
