//! What shipping is given besides settings and a log.

use rw_metrics::SendCounters;
use rw_sender::LogOptions;
use rw_worker::StopFlag;

/// The connections to a receiver, the counters, the greatest number of bytes in the body of a
/// batch, how far apart in time the samples may be that wait for an answer, how the log is read,
/// and the flag that stops the workers at once. No clause says anything about the counters.
#[derive(Drop)]
pub struct SendOptions<'a, C> {
    pub connect: C,
    pub counters: &'a SendCounters,
    /// `None` for no limit.
    pub max_batch_bytes: Option<u64>,
    /// The greatest number of milliseconds by which the timestamp of a sample in a queue may be
    /// later than that of an earlier sample of the log that may still wait for an answer. `None`
    /// for no bound.
    pub max_skew: Option<u64>,
    /// Whether records of the log may be Snappy blocks, and the labels that are added to each
    /// series.
    pub reading: LogOptions,
    /// If another thread sets it, the workers abandon what is not sent, and nothing waits for them
    /// any more.
    pub stop: StopFlag,
}
