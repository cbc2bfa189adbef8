//! A transport to a head in memory, over devices of which one call fails.

use rw_endpoint::serve;
use rw_head::{Head, Limits};
use rw_tcp::ask;
use rw_test_parts::{Giving, Taking};
use rw_types::{Room, write_all};
use rw_worker::{Lost, Pause, Reply, Transport};
use std::alloc::Global;
use std::cell::Cell;

/// How many bytes one call gives or takes at most.
const MOST: usize = 40;

/// Carries each request and its reply over new readers and writers.
#[derive(Drop)]
pub(crate) struct Line<'a> {
    alloc: Global,
    limits: Limits,
    pub(crate) head: Head,
    /// How many calls of devices are still to come until one fails.
    calls: &'a Cell<usize>,
    /// The request that was lost, if the last one was.
    lost: Option<Vec<u8>>,
    pub(crate) exchanges: usize,
    /// Whether each request after a lost one had the same bytes.
    pub(crate) is_same: bool,
}

impl<'a> Line<'a> {
    pub(crate) fn new(alloc: Global, limits: Limits, calls: &'a Cell<usize>) -> Line<'a> {
        let head = Head::new(alloc, &limits);
        Line {
            alloc,
            limits,
            head,
            calls,
            lost: None,
            exchanges: 0,
            is_same: true,
        }
    }

    /// Delivers a request to the head, and its reply to the sender, as far as no call fails.
    fn carry(&mut self, request: &[u8]) -> Result<Reply, Lost> {
        let mut out = Taking::new(self.alloc, MOST, self.calls);
        let is_sent = write_all(&mut out, request).is_ok();
        let mut input = Giving::new(&out.taken, MOST, self.calls);
        let mut replies = Taking::new(self.alloc, MOST, self.calls);
        serve(
            self.alloc,
            &mut input,
            &mut replies,
            &mut self.head,
            &self.limits,
        );
        if !is_sent {
            return Err(Lost);
        }
        let Ok(mut sent) = Room::new(self.alloc, request.len()) else {
            return Err(Lost);
        };
        let mut reader = Giving::new(&replies.taken, MOST, self.calls);
        match ask(self.alloc, &mut reader, &mut sent, request) {
            Ok(reply) => Ok(reply),
            Err(_) => Err(Lost),
        }
    }

    /// Compares a request with the one that was lost before it, and keeps it if it is lost itself.
    fn note(&mut self, request: &[u8], is_lost: bool) {
        self.exchanges = self.exchanges.saturating_add(1);
        if let Some(lost) = &self.lost {
            self.is_same &= lost.as_slice() == request;
        }
        self.lost = None;
        if is_lost {
            self.lost = request.to_vec(self.alloc).ok();
        }
    }
}

impl Transport for Line<'_> {
    ghost use Rattle.std.specs.Prelude.{[], ⊤};

    ghost is_for = { λ _ _ _. ⊤ };

    ghost tells = { λ _. ⊥ };

    ghost seen = { λ _. [] };

    fn exchange(&mut self, request: &[u8]) -> Result<Reply, Lost> {
        let answer = self.carry(request);
        self.note(request, answer.is_err());
        answer
    }
}

/// Takes no time.
#[derive(Drop)]
pub(crate) struct Quick;

impl Pause for Quick {
    ghost use Rattle.std.specs.Prelude.{[]};

    ghost tells = { λ _. ⊥ };

    ghost paused = { λ _. [] };

    fn pause(&mut self, _ms: u64) {}
}
