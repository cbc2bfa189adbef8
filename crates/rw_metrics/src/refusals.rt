//! Requests that were refused.

ghost use Rattle.std.specs.Prelude.{◌≡◌};
ghost use Rattle.rw_metrics.specs.ReceiveCounts.{by_refusal};

use crate::atomics::{add, read};
use crate::rows::Shown;
use std::net::SocketAddr;
use std::sync::Mutex;
use std::sync::atomic::AtomicU64;

/// Why the body of a request was refused, in the order of [`REFUSALS`].
#[derive(Clone, Copy, Debug, PartialEq, Eq)]
pub enum RefusalReason {
    /// A sample is neither later than the last one of its series nor a repeat.
    Order,
    /// The labels of a series are not a label set.
    Labels,
    /// A label set has more labels or more bytes than are taken.
    Limits,
    /// The body is not a message.
    Body,
    /// It would take what is held above a limit.
    Full,
    /// Memory ran out, or the folder cannot be written.
    Unavailable,
    /// The receiver is busy.
    Busy,
}

/// The reasons, as the metrics have them.
pub(crate) const REFUSALS: [&str; 7] = [
    "order",
    "labels",
    "limits",
    "body",
    "full",
    "unavailable",
    "busy",
];

/// How many samples the refused requests had, by reason.
#[derive(Clone, Copy, Debug, PartialEq, Eq)]
pub struct RefusedSamples {
    /// See [`RefusalReason::Order`].
    pub order: u64,
    /// See [`RefusalReason::Labels`].
    pub labels: u64,
    /// See [`RefusalReason::Limits`].
    pub limits: u64,
    /// See [`RefusalReason::Body`].
    pub body: u64,
    /// See [`RefusalReason::Full`].
    pub full: u64,
    /// See [`RefusalReason::Unavailable`].
    pub unavailable: u64,
    /// See [`RefusalReason::Busy`].
    pub busy: u64,
}

impl RefusedSamples {
    /// Returns how many there are for each of [`REFUSALS`].
    pub(crate) fn by_reason(&self) -> [Shown; 7]
        ensures { result ≡ by_refusal self.now }
    {
        [
            Shown::Count(self.order),
            Shown::Count(self.labels),
            Shown::Count(self.limits),
            Shown::Count(self.body),
            Shown::Count(self.full),
            Shown::Count(self.unavailable),
            Shown::Count(self.busy),
        ]
    }
}

/// A request that was refused, as an example.
#[derive(Drop)]
pub struct RefusedRequest {
    pub status: u16,
    /// Why its body was refused; `None` if that is not known, or the request was refused without a
    /// look at its message.
    pub reason: Option<RefusalReason>,
    /// How many samples its body had.
    pub samples: u64,
    /// Its method and its target, if they are known.
    pub asked: Option<String>,
    /// The address of the client, if it is known.
    pub from: Option<SocketAddr>,
}

/// Counters of the samples of refused requests, and an example of such a request.
#[derive(Drop)]
pub(crate) struct RefusalCounters {
    order: AtomicU64,
    labels: AtomicU64,
    limits: AtomicU64,
    body: AtomicU64,
    full: AtomicU64,
    unavailable: AtomicU64,
    busy: AtomicU64,
    example: Mutex<Option<RefusedRequest>>,
}

impl RefusalCounters {
    /// Returns counters that are all 0, without an example.
    pub(crate) fn new() -> RefusalCounters {
        RefusalCounters {
            order: AtomicU64::new(0),
            labels: AtomicU64::new(0),
            limits: AtomicU64::new(0),
            body: AtomicU64::new(0),
            full: AtomicU64::new(0),
            unavailable: AtomicU64::new(0),
            busy: AtomicU64::new(0),
            example: Mutex::new(None),
        }
    }

    /// Counts the samples of a request that was refused for this reason.
    pub(crate) fn count(&self, reason: RefusalReason, samples: u64) {
        let counter = match reason {
            RefusalReason::Order => &self.order,
            RefusalReason::Labels => &self.labels,
            RefusalReason::Limits => &self.limits,
            RefusalReason::Body => &self.body,
            RefusalReason::Full => &self.full,
            RefusalReason::Unavailable => &self.unavailable,
            RefusalReason::Busy => &self.busy,
        };
        add(counter, samples);
    }

    /// Returns the values of the counters.
    pub(crate) fn samples(&self) -> RefusedSamples {
        RefusedSamples {
            order: read(&self.order),
            labels: read(&self.labels),
            limits: read(&self.limits),
            body: read(&self.body),
            full: read(&self.full),
            unavailable: read(&self.unavailable),
            busy: read(&self.busy),
        }
    }

    /// Returns whether there is no example. The answer is `false` while another thread looks.
    pub(crate) fn lacks_example(&self) -> bool {
        match self.example.try_lock() {
            Some(example) => example.is_none(),
            None => false,
        }
    }

    /// Sets the example, unless another thread looks at it.
    pub(crate) fn set_example(&self, refusal: RefusedRequest) {
        if let Some(mut example) = self.example.try_lock() {
            *example = Some(refusal);
        }
    }

    /// Returns the example, and has none from then on.
    pub(crate) fn take_example(&self) -> Option<RefusedRequest> {
        match self.example.try_lock() {
            Some(mut example) => example.take(),
            None => None,
        }
    }
}
