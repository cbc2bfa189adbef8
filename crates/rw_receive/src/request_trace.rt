//! What is known of the request of a connection that is being answered, for the counters. It is
//! best effort: no clause says anything about it.

use crate::explained_reply::{closing_of, explained_reply};
use crate::explanation::{NOT_ASKED, Refusal};
use crate::refused_part::RefusedPart;
use rw_metrics::{ReceiveCounters, RefusalReason, RefusedRequest};
use std::alloc::Global;
use std::cell::Cell;
use std::net::SocketAddr;
use std::str;

/// How many of the first bytes of a request are looked at.
const MOST_BYTES: usize = 256;

/// What is known of the request of a connection that is being answered.
#[derive(Drop)]
pub(crate) struct RequestTrace<'s> {
    alloc: Global,
    counters: &'s ReceiveCounters,
    peer: Option<SocketAddr>,
    /// The method and the target of the request, if they are known.
    asked: Cell<Option<String>>,
    /// Whether the head was asked, and its answer is not written yet.
    is_answered: Cell<bool>,
    /// Whether a 400 has a text.
    explains: bool,
    /// The text of the next one, if it is known.
    text: Cell<Option<String>>,
}

/// Returns the first bytes that are printable.
fn printable(bytes: &[u8]) -> &[u8] {
    let mut len = 0usize;
    for byte in bytes {
        if *byte < 32 || *byte > 126 {
            break;
        }
        len = len.saturating_add(1);
    }
    bytes.get(..len).unwrap_or(bytes)
}

/// Returns the method and the target of a request that begins with these bytes, if they have its
/// first line, and that is printable.
fn target_of(request: &[u8]) -> Option<&str> {
    let first = request.get(..MOST_BYTES).unwrap_or(request);
    let Ok(line) = str::from_utf8(printable(first)) else {
        return None;
    };
    match line.strip_suffix(" HTTP/1.1") {
        Some(target) => Some(target),
        None => line.strip_suffix(" HTTP/1.0"),
    }
}

/// Returns the status of a reply that begins with these bytes, or `None` if no reply begins there.
fn status_of(bytes: &[u8]) -> Option<u16> {
    let Some(rest) = bytes.strip_prefix(b"HTTP/1.1 ") else {
        return None;
    };
    let Some(digits) = rest.get(..3) else {
        return None;
    };
    let mut status = 0u16;
    for digit in digits {
        if *digit < b'0' || *digit > b'9' {
            return None;
        }
        let value = (*digit - b'0') as u16;
        status = status.saturating_mul(10).saturating_add(value);
    }
    Some(status)
}

impl<'s> RequestTrace<'s> {
    /// Returns what is known before the first request.
    pub(crate) fn new(
        alloc: Global,
        counters: &'s ReceiveCounters,
        peer: Option<SocketAddr>,
        explains: bool,
    ) -> RequestTrace<'s> {
        RequestTrace {
            alloc,
            counters,
            peer,
            asked: Cell::new(None),
            is_answered: Cell::new(false),
            explains,
            text: Cell::new(None),
        }
    }

    /// Takes the bytes with which a request begins.
    pub(crate) fn begin(&self, bytes: &[u8]) {
        let asked = match target_of(bytes) {
            Some(target) => String::from_str(self.alloc, target).ok(),
            None => None,
        };
        self.asked.set(asked);
    }

    /// Takes that the head was asked, and has acknowledged this body.
    pub(crate) fn note_acknowledged(&self, body: &[u8]) {
        self.is_answered.set(true);
        self.counters.skip_parts(body);
    }

    /// Takes that the head was asked, and has refused this body. Returns what was refused.
    pub(crate) fn note_refused(
        &self,
        status: u16,
        reason: Option<RefusalReason>,
        body: &[u8],
    ) -> Refusal {
        self.is_answered.set(true);
        let refused = self.counters.refuse_body(reason, body);
        self.give_example(status, reason, refused);
        Refusal {
            reason,
            taken: 0,
            refused,
        }
    }

    /// Takes that the head was asked, and has taken a part of a body. These are the samples of it
    /// that were refused, if memory sufficed to count them. Returns what was refused.
    pub(crate) fn note_part(&self, status: u16, refused: Option<RefusedPart>) -> Option<Refusal> {
        self.is_answered.set(true);
        let Some(refused) = refused else {
            self.give_example(status, None, 0);
            return None;
        };
        let mut most = (RefusalReason::Order, 0u64);
        for (reason, samples) in refused.by_reason() {
            self.counters.refuse_samples(reason, samples);
            if samples > most.1 {
                most = (reason, samples);
            }
        }
        self.give_example(status, Some(most.0), refused.total());
        Some(Refusal {
            reason: Some(most.0),
            taken: refused.taken,
            refused: refused.total(),
        })
    }

    /// Takes the text of the reply to the body that was refused.
    pub(crate) fn explain(&self, text: Option<String>) {
        self.text.set(text);
    }

    /// Returns the reply with a text that is written in place of this one, if it is to have one.
    /// `None` also if memory runs out.
    pub(crate) fn explained(&self, reply: &[u8]) -> Option<Vec<u8>> {
        if !self.explains {
            return None;
        }
        let Some(closes) = closing_of(reply) else {
            return None;
        };
        match self.text.replace(None) {
            Some(text) => explained_reply(self.alloc, closes, text.as_bytes()).ok(),
            None if self.is_answered.get() => None,
            None => explained_reply(self.alloc, closes, NOT_ASKED.as_bytes()).ok(),
        }
    }

    /// Takes bytes that were written. If a reply begins with them that the head was not asked for,
    /// it is counted.
    pub(crate) fn note_written(&self, bytes: &[u8]) {
        let Some(status) = status_of(bytes) else {
            return;
        };
        if !self.is_answered.replace(false) {
            self.counters.answer_unasked(status);
            self.give_example(status, None, 0);
        }
        self.asked.set(None);
    }

    /// Gives the counters the request as an example of a refused one, if they want one.
    fn give_example(&self, status: u16, reason: Option<RefusalReason>, samples: u64) {
        if !self.counters.wants_refusal() {
            return;
        }
        self.counters.set_refusal(RefusedRequest {
            status,
            reason,
            samples,
            asked: self.asked.replace(None),
            from: self.peer,
        });
    }
}
