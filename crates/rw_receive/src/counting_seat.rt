//! A seat that answers bodies, and counts.

ghost use Rattle.std.specs.Prelude.{◌≡◌};
ghost use Rattle.rw_head.specs.Head.{IsStatus};
ghost use Rattle.rw_receive.specs.Answering.{HasAnswered, HasAnsweredSorted};

use crate::explanation::explanation;
use crate::refusal_reason::reason_of;
use crate::refused_part::refused_part;
use crate::request_trace::RequestTrace;
use crate::server_context::ServerContext;
use crate::take_options::TakeOptions;
use rw_endpoint::Answer;
use rw_metrics::RefusalReason;
use rw_recv_head::{Admit, AskedPartly, Holding, Seat, SeatAnswer, SharedHead};
use rw_sorted_labels::sorted_body;
use std::alloc::Global;
use std::sync::Wait;

/// A seat that answers the bodies of a connection's requests. Each answer may wait for
/// the lock, and is counted.
#[derive(Drop)]
pub(crate) struct CountingSeat<'a, R, L: Holding<H>, H: Admit> {
    pub(crate) rt: &'a R,
    pub(crate) shared: &'a SharedHead<L, H>,
    /// A seat of that shared head.
    pub(crate) seat: Seat<L>,
    pub(crate) context: &'a ServerContext<'a>,
    pub(crate) trace: &'a RequestTrace<'a>,
}

impl<R, L: Holding<H>, H: Admit> CountingSeat<'_, R, L, H> {
    /// Returns the seat.
    pub(crate) fn into_seat(self) -> Seat<L>
        ensures { result ≡ self.entry.seat }
    {
        let CountingSeat {
            rt: _,
            shared: _,
            seat,
            context: _,
            trace: _,
        } = self;
        seat
    }
}

/// Asks a seat for a body, and of one that is refused for what can be taken of it, if that is
/// wanted.
fn ask<R: Wait, L: Holding<H>, H: Admit>(
    rt: &R,
    alloc: Global,
    shared: &SharedHead<L, H>,
    seat: &mut Seat<L>,
    is_partial: bool,
    body: &[u8],
) -> AskedPartly
    ensures asked { HasAnswered is_partial L.opening seat.old body.now
        result.asked.status seat.new }
    ensures statuses { IsStatus result.asked.status }
{
    if is_partial {
        return seat.ask_partly(rt, alloc, shared, body);
    }
    AskedPartly {
        asked: seat.ask(rt, shared, body),
        taken: None,
    }
}

/// How a seat has answered a body.
#[derive(Drop)]
struct Answered {
    /// 204, 400, 429 or 503.
    status: u16,
    /// What the head answered. `None` if it was not asked, since memory ran out.
    asked: Option<AskedPartly>,
    /// The body with sorted labels that the head was asked for in place of the one that came.
    sorted: Option<Vec<u8>>,
}

impl Answered {
    /// Returns how a body was answered for which the head was asked.
    fn of(asked: AskedPartly, sorted: Option<Vec<u8>>) -> Answered
        ensures { result.status ≡ asked.asked.status }
    {
        Answered {
            status: asked.asked.status,
            asked: Some(asked),
            sorted,
        }
    }
}

/// Asks a seat as `ask` does for a body, or for one with sorted labels in its place if that is
/// wanted. If memory runs out for it, the head is not asked, and the status is 503.
fn ask_sorted<R: Wait, L: Holding<H>, H: Admit>(
    rt: &R,
    alloc: Global,
    shared: &SharedHead<L, H>,
    seat: &mut Seat<L>,
    takes: TakeOptions,
    body: &[u8],
) -> Answered
    ensures asked { HasAnsweredSorted takes.sorts_labels takes.is_partial L.opening seat.old
        body.now result.status seat.new }
    ensures statuses { IsStatus result.status }
{
    let is_partial = takes.is_partial;
    if !takes.sorts_labels {
        let asked = ask(rt, alloc, shared, seat, is_partial, body);
        return Answered::of(asked, None);
    }
    match sorted_body(alloc, body) {
        Ok(None) => {
            let asked = ask(rt, alloc, shared, seat, is_partial, body);
            Answered::of(asked, None)
        }
        Ok(Some(text)) => {
            let asked = ask(rt, alloc, shared, seat, is_partial, &text);
            Answered::of(asked, Some(text))
        }
        Err(_) => Answered {
            status: 503,
            asked: None,
            sorted: None,
        },
    }
}

/// Counts what was not taken of a body that the head was asked for and did not acknowledge, and has
/// the reply say why if that is wanted. Returns whether samples of it were taken, as far as that is
/// known.
fn count_refused(
    context: &ServerContext<'_>,
    trace: &RequestTrace<'_>,
    body: &[u8],
    asked: &SeatAnswer,
    taken: &Option<Vec<u8>>,
) -> bool {
    let (alloc, limits) = (context.alloc, context.limits);
    let refusal = match taken {
        Some(text) => trace.note_part(asked.status, refused_part(alloc, limits, body, text)),
        None => {
            let reason = reason_of(alloc, limits, asked, body);
            Some(trace.note_refused(asked.status, reason, body))
        }
    };
    let Some(refusal) = refusal else {
        return false;
    };
    if context.takes.explains && asked.status == 400 {
        trace.explain(explanation(alloc, limits, refusal, body, taken));
    }
    refusal.taken > 0
}

/// Counts how a body was answered, and what was not taken of it.
fn count_answer(
    context: &ServerContext<'_>,
    trace: &RequestTrace<'_>,
    body: &[u8],
    answered: &Answered,
) {
    let Some(AskedPartly { asked, taken }) = &answered.asked else {
        trace.note_refused(answered.status, Some(RefusalReason::Unavailable), body);
        return;
    };
    context.counters.hold_label_sets(asked.label_sets);
    if asked.status == 204 {
        trace.note_acknowledged(body);
        return;
    }
    let is_taken_partly = match &answered.sorted {
        Some(text) => count_refused(context, trace, text, asked, taken),
        None => count_refused(context, trace, body, asked, taken),
    };
    if is_taken_partly {
        // One with sorted labels has only its samples.
        context.counters.skip_parts(body);
    }
}

impl<R: Wait, L: Holding<H>, H: Admit> Answer for CountingSeat<'_, R, L, H> {
    ghost use Rattle.std.specs.Prelude.{◌≡◌};
    ghost use Rattle.rw_receive.specs.Answering.{HasAnsweredSorted};

    ghost answers = { λ old body status new. (new.context ≡ old.context)
        × HasAnsweredSorted old.context.now.takes.sorts_labels old.context.now.takes.is_partial
        L.opening old.seat body status new.seat };

    fn answer(&mut self, body: &[u8]) -> u16 {
        let context = self.context;
        let before = self.seat.stored();
        let answered = ask_sorted(
            self.rt,
            context.alloc,
            self.shared,
            &mut self.seat,
            context.takes,
            body,
        );
        let stored = self.seat.stored().saturating_sub(before);
        context.counters.answer(answered.status, stored);
        count_answer(context, self.trace, body, &answered);
        answered.status
    }
}
