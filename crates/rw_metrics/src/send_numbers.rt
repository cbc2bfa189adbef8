//! Numbers of a sender.

ghost use Rattle.std.specs.Prelude.{◌≡◌};
ghost use Rattle.rw_metrics.specs.SendCounts.{by_cause, by_reason, by_type};

use crate::cause::Cause;
use crate::rows::Shown;

/// Why samples are dropped, but for the statuses.
pub(crate) const REASONS: [&str; 3] = ["noseries", "badlabels", "notrising"];

/// The types of records that are skipped: those first that may hold samples.
pub(crate) const TYPES: [&str; 9] = [
    "histogram_samples",
    "float_histogram_samples",
    "custom_buckets_histogram_samples",
    "custom_buckets_float_histogram_samples",
    "unknown",
    "tombstones",
    "exemplars",
    "mmapmarkers",
    "metadata",
];

/// Why attempts fail, but for the statuses.
pub(crate) const CAUSES: [&str; 6] = [
    "connect",
    "timeout",
    "broken",
    "ended",
    "bad_reply",
    "memory",
];

/// How many samples were dropped, by reason.
#[derive(Drop)]
pub struct Drops {
    pub all: u64,
    /// No series was defined under their reference.
    pub no_series: u64,
    /// The labels of their series are not a label set.
    pub bad_labels: u64,
    /// Their timestamps are not later than the last one of their series.
    pub not_rising: u64,
    /// The receiver has refused their batch: the statuses in ascending order, each with how many
    /// samples.
    pub refused: Vec<(u16, u64)>,
}

impl Drops {
    /// Returns how many there are for each of [`REASONS`].
    pub(crate) fn by_reason(&self) -> [Shown; 3]
        ensures { result ≡ by_reason self.now }
    {
        [
            Shown::Count(self.no_series),
            Shown::Count(self.bad_labels),
            Shown::Count(self.not_rising),
        ]
    }

    /// Returns how many of them were in refused batches.
    pub(crate) fn refused_in_all(&self) -> u64 {
        self.all
            .saturating_sub(self.no_series)
            .saturating_sub(self.bad_labels)
            .saturating_sub(self.not_rising)
    }
}

/// How many attempts failed, by cause.
#[derive(Drop)]
pub struct Failures {
    pub all: u64,
    pub connect: u64,
    pub timeout: u64,
    pub broken: u64,
    pub ended: u64,
    pub bad_reply: u64,
    pub memory: u64,
    /// The statuses in ascending order, each with how often it came.
    pub statuses: Vec<(u16, u64)>,
    /// Failed attempts since the last one that succeeded.
    pub in_a_row: u64,
    /// The cause of the last one.
    pub last: Option<Cause>,
}

impl Failures {
    /// Returns how many there are for each of [`CAUSES`].
    pub(crate) fn by_cause(&self) -> [Shown; 6]
        ensures { result ≡ by_cause self.now }
    {
        [
            Shown::Count(self.connect),
            Shown::Count(self.timeout),
            Shown::Count(self.broken),
            Shown::Count(self.ended),
            Shown::Count(self.bad_reply),
            Shown::Count(self.memory),
        ]
    }
}

/// How many records of the log were skipped, since they hold neither series nor samples that are
/// read, by what they hold.
#[derive(Clone, Copy, Debug, PartialEq, Eq)]
pub struct Skipped {
    /// Ranges of time that were deleted from series.
    pub tombstones: u64,
    pub exemplars: u64,
    /// Markers of chunks that were mapped to memory.
    pub mmap_markers: u64,
    /// The type, unit and help of metrics.
    pub metadata: u64,
    /// Samples of native histograms with integer counts.
    pub histograms: u64,
    /// Samples of native histograms with float counts.
    pub float_histograms: u64,
    /// Samples of native histograms with integer counts and custom buckets.
    pub custom_histograms: u64,
    /// Samples of native histograms with float counts and custom buckets.
    pub custom_float_histograms: u64,
    /// Nothing, or what has no name here.
    pub unknown: u64,
}

impl Skipped {
    /// Returns how many there are of each of [`TYPES`].
    pub(crate) fn by_type(&self) -> [Shown; 9]
        ensures { result ≡ by_type self.now }
    {
        [
            Shown::IfAny(self.histograms),
            Shown::IfAny(self.float_histograms),
            Shown::IfAny(self.custom_histograms),
            Shown::IfAny(self.custom_float_histograms),
            Shown::IfAny(self.unknown),
            Shown::IfAny(self.tombstones),
            Shown::IfAny(self.exemplars),
            Shown::IfAny(self.mmap_markers),
            Shown::IfAny(self.metadata),
        ]
    }

    /// Returns how many records may hold samples, which are lost: those of histograms, and those of
    /// which it is not known what they hold.
    pub fn lost(&self) -> u64 {
        self.histograms
            .saturating_add(self.float_histograms)
            .saturating_add(self.custom_histograms)
            .saturating_add(self.custom_float_histograms)
            .saturating_add(self.unknown)
    }

    /// Returns how many records were skipped.
    pub fn all(&self) -> u64 {
        self.lost()
            .saturating_add(self.tombstones)
            .saturating_add(self.exemplars)
            .saturating_add(self.mmap_markers)
            .saturating_add(self.metadata)
    }
}

/// The values of a sender's counters when they were read, one after the other.
#[derive(Drop)]
pub struct SendNumbers {
    /// Entries of the log that were read.
    pub entries: u64,
    /// Bytes of the log that were read.
    pub bytes: u64,
    /// Bytes of the folder's segments when it was listed; 0 if they are not known.
    pub folder_bytes: u64,
    /// The number of the segment that is read.
    pub segment: u64,
    /// The number of the newest segment in the folder, as it was last looked at; 0 if it was not.
    pub newest_segment: u64,
    /// Bytes that were read of the current segment.
    pub segment_bytes: u64,
    /// Samples that were read: those that are acknowledged, dropped, filtered and in flight.
    pub read: u64,
    /// Samples that were put into a queue.
    pub placed: u64,
    /// Samples that the receiver has acknowledged.
    pub acknowledged: u64,
    /// Samples that were put into a queue and have no answer yet.
    pub in_flight: u64,
    /// Those that the receiver has acknowledged or refused permanently.
    pub resolved: u64,
    /// Samples in flight that do not only wait for a batch to be full.
    pub waiting: u64,
    /// Samples that the rules have filtered.
    pub filtered: u64,
    /// The latest timestamp of the samples that were put into a queue, in seconds since 1970; 0 if
    /// there is none after that.
    pub newest_read: u64,
    /// The latest timestamp of the acknowledged samples, likewise.
    pub newest_acknowledged: u64,
    pub drops: Drops,
    pub skipped: Skipped,
    /// Running shards.
    pub shards: u64,
    /// Attempts to send a batch.
    pub attempts: u64,
    /// Samples of refused batches that the receiver may hold, since an earlier attempt had no
    /// answer.
    pub unsure: u64,
    pub failures: Failures,
}
