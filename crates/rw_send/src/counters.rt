//! Updates the counters as a shipper goes on, and once it has stopped.

ghost use Rattle.std.specs.Prelude.{◌≡◌, None};
ghost use Rattle.rw_sender.specs.Feeders.{log_of};
ghost use Rattle.rw_sender.specs.Shipping.{PlacesAll};

use rw_ledger::Reason;
use rw_metrics::{SendCounters, Skipped};
use rw_sender::{Connect, Report, Shipper};
use rw_wal_tail::SkippedType;
use std::alloc::Global;

/// What a log is fed with, besides its shipper.
#[derive(Clone, Copy)]
pub struct FeedContext<'a> {
    pub alloc: Global,
    pub counters: &'a SendCounters,
    /// By how many milliseconds a sample may be later than one before it in the log that may not be
    /// resolved. `None` for no bound.
    pub max_skew: Option<u64>,
}

/// Returns how many records of the log a shipper has skipped, by type.
fn skipped_by<C: Connect + Drop>(shipper: &Shipper<C>) -> Skipped {
    Skipped {
        tombstones: shipper.skipped_of(SkippedType::Tombstones),
        exemplars: shipper.skipped_of(SkippedType::Exemplars),
        mmap_markers: shipper.skipped_of(SkippedType::MmapMarkers),
        metadata: shipper.skipped_of(SkippedType::Metadata),
        histograms: shipper.skipped_of(SkippedType::Histograms),
        float_histograms: shipper.skipped_of(SkippedType::FloatHistograms),
        custom_histograms: shipper.skipped_of(SkippedType::CustomHistograms),
        custom_float_histograms: shipper.skipped_of(SkippedType::CustomFloatHistograms),
        unknown: shipper.skipped_of(SkippedType::Unknown),
    }
}

/// Counts how far a shipper has come, and what it has dropped and filtered of the log so far. By
/// its contract the shards have what was placed.
pub fn update_counters<C: Connect + Drop>(counters: &SendCounters, shipper: &Shipper<C>)
    ensures placed { PlacesAll shipper.now.log shipper.now.fleet }
    ensures read { shipper.now.fault ≡ None
        → shipper.now.log.placed ≡ log_of shipper.now.log }
{
    let load = shipper.load();
    counters.set_entries(shipper.entries_read());
    counters.set_load(load.placed, load.backlog);
    counters.set_newest(shipper.newest());
    counters.set_skipped(&skipped_by(shipper));
    counters.set_filtered(shipper.filtered());
    counters.drop_unsent(shipper.dropped().iter().as_slice());
}

/// Counts what stopped workers have dropped: the samples of the batches that were refused.
fn count_refused(counters: &SendCounters, names: &[(u64, Reason)]) {
    for name in names {
        if let Reason::Status(_) = name.1 {
            counters.drop_sample(name.1);
        }
    }
}

/// Counts how far a stopped shipper came, and what its workers dropped. What was dropped and
/// filtered of the log was counted before.
pub(crate) fn count_report<T>(counters: &SendCounters, report: &Report<T>) {
    count_refused(counters, report.ended.refused_before());
    for shard in report.ended.kept() {
        count_refused(counters, shard.part.iter().as_slice());
    }
    counters.set_resolved(report.ended.resolved());
}
