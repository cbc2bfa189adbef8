//! The report of a log.

ghost use Rattle.std.specs.Prelude.{◌≡◌, map, Err, IfOk};
ghost use Rattle.rw_types.specs.declared.transfer.ReadFault.TheVariants.{Failed};
ghost use Rattle.rw_follow.specs.Queues.{AreSure};
ghost use Rattle.rw_log_read.specs.Logs.{source_of};
ghost use Rattle.rw_log_read.specs.declared.named.UnreadLog.{UnreadLog};
ghost use Rattle.rw_inspect.specs.Inspecting.{IsReportOfFirst};
ghost use Rattle.rw_inspect.specs.inner.Inspecting.{Reports};

use crate::counter::Counter;
use crate::report::LogFindings;
use rw_log_read::{LogRead, Named, UnreadLog, read_named};
use rw_types::Source;
use std::alloc::{AllocError, Global};

/// Returns the report of what was read and counted.
fn report_of(
    alloc: Global,
    counts: &Counter,
    read: LogRead,
    may_compress: bool,
) -> Result<LogFindings, AllocError>
    ensures { IfOk result (Reports may_compress counts.now read.segments.items read.damage) }
{
    let LogRead {
        segments,
        damage,
        skipped,
    } = read;
    let mut first_not_rising = Vec::new(alloc);
    first_not_rising.extend_from_slice(counts.first_not_rising())?;
    Ok(LogFindings {
        segments,
        counts: counts.counts(),
        first_not_rising,
        damage,
        may_compress,
        skipped,
    })
}

/// Reads the segments of a log in order, to the end of the last one or of the first one with a
/// fault, and reports what is in them. With `may_compress` records may be Snappy blocks. An `Err`
/// has the name of the segment whose device failed, if one did.
pub fn inspect<S: Source + Drop>(
    alloc: Global,
    segments: Vec<Named<S>>,
    may_compress: bool,
) -> Result<LogFindings, UnreadLog>
    ensures ok { IfOk result
        (IsReportOfFirst may_compress (map (source_of S.remaining) segments.items)) }
    ensures sure { AreSure (map (source_of S.is_sure) segments.items)
        → (u : UnreadLog) → result ≡ Err u → u.error ≡ Failed → ⊥ }
{
    let (read, counts) = read_named(alloc, segments, may_compress, Counter::new(alloc))?;
    Ok(report_of(alloc, &counts, read, may_compress)?)
}
