//! Until when samples may be gone from memory.

/// Returns the timestamp before which samples may be gone from memory, in milliseconds since the
/// Unix epoch: `span_ms` before the latest sample, or before the time by the clock if that is
/// earlier. So neither a sample from the future nor a clock that is ahead lets all others go. No
/// clause says which timestamp it is: a head answers rightly for any.
pub fn horizon(latest: i64, now: i64, span_ms: u64) -> i64 {
    let span = match i64::try_from(span_ms) {
        Ok(span) => span,
        Err(_) => i64::MAX,
    };
    latest.min(now).saturating_sub(span)
}
