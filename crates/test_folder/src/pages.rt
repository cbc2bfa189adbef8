//! The pages for people, and what a sender counts of its requests: counters that were given these
//! numbers, and the text of each.

use rw_ledger::Reason;
use rw_metrics::{
    Cause, ReceiveCounters, SendCounters, SendNumbers, Skipped, receive_html, receive_line,
    receive_page, send_html, send_line, send_page, skipped_line,
};
use std::alloc::{AllocError, Global};
use std::test::Fail;

const SENDER: &str = "<!DOCTYPE html>
<html lang=\"en\">
<head>
<meta charset=\"utf-8\">
<meta name=\"viewport\" content=\"width=device-width, initial-scale=1\">
<meta http-equiv=\"refresh\" content=\"5\">
<link rel=\"icon\" href=\"data:,\">
<title>rwship send</title>
<style>
:root { color-scheme: light dark; font: 16px/1.4 system-ui, sans-serif }
body { max-width: 40rem; margin: 0 auto; padding: 1rem }
h1 { font-size: 1.4rem; margin: 0 }
h2 { font-size: 1.1rem; margin: 1.2rem 0 0 }
p { border-left: .3rem solid #2a9d4b; padding: .3rem .7rem }
p.bad { border-color: #d1242f }
table { width: 100%; border-collapse: collapse }
tr { border-bottom: 1px solid #8886 }
th { font-weight: normal; text-align: left; padding: .2rem 1rem .2rem 0 }
td { font-variant-numeric: tabular-nums; text-align: right }
footer { margin-top: 1.2rem; font-size: .9rem }
</style>
</head>
<body>
<h1>rwship send</h1>
<p class=\"bad\">Waiting for the receiver: attempts to send fail.</p>
<h2>Samples</h2>
<table>
<tr><th>Read</th><td>1233</td></tr>
<tr><th>Acknowledged by the receiver</th><td>3</td></tr>
<tr><th>Dropped</th><td>5</td></tr>
<tr><th>Filtered by the rules</th><td>30</td></tr>
<tr><th>In flight</th><td>1195</td></tr>
<tr><th>Seconds from the newest acknowledged to the newest in flight</th><td>58</td></tr>
</table>
<h2>Dropped samples</h2>
<table>
<tr><th>All</th><td>5</td></tr>
<tr><th>No series was logged before them</th><td>1</td></tr>
<tr><th>Labels that may not be sent</th><td>0</td></tr>
<tr><th>Not later than the last one of their series</th><td>2</td></tr>
<tr><th>Batch refused with status 400</th><td>2</td></tr>
</table>
<h2>Attempts to send a batch</h2>
<table>
<tr><th>All</th><td>9</td></tr>
<tr><th>Failed</th><td>8</td></tr>
<tr><th>Failed since one succeeded</th><td>6</td></tr>
<tr><th>The last cause</th><td>status_503</td></tr>
<tr><th>connect: no connection was made</th><td>2</td></tr>
<tr><th>timeout: not done in time</th><td>1</td></tr>
<tr><th>broken: the connection broke</th><td>1</td></tr>
<tr><th>ended: the connection ended before a status</th><td>0</td></tr>
<tr><th>bad_reply: the answer is not HTTP</th><td>1</td></tr>
<tr><th>memory: out of memory</th><td>1</td></tr>
<tr><th>Answered with status 400</th><td>1</td></tr>
<tr><th>Answered with status 503</th><td>1</td></tr>
</table>
<h2>Log</h2>
<table>
<tr><th>Segment that is read</th><td>7</td></tr>
<tr><th>Newest segment</th><td>9</td></tr>
<tr><th>Entries read</th><td>1234</td></tr>
<tr><th>Bytes read</th><td>556</td></tr>
<tr><th>Percent of the folder</th><td>55</td></tr>
<tr><th>Records of histograms, not shipped</th><td>4</td></tr>
<tr><th>Records of an unknown type, not shipped</th><td>1</td></tr>
<tr><th>Running shards</th><td>4</td></tr>
</table>
<footer>The numbers are best effort and are read one after the other. This page is loaded again every \
5 seconds. <a href=\"metrics\">The metrics for Prometheus</a></footer>
</body>
</html>
";

/// What follows the style, which both pages have.
const RECEIVER: &str = "</style>
</head>
<body>
<h1>rwship receive</h1>
<h2>Held</h2>
<table>
<tr><th>Samples</th><td>17</td></tr>
<tr><th>Series</th><td>3</td></tr>
<tr><th>Limit of samples</th><td>1000</td></tr>
</table>
<h2>Connections</h2>
<table>
<tr><th>Served now</th><td>1</td></tr>
<tr><th>Accepted in all</th><td>2</td></tr>
<tr><th>Accepts that failed</th><td>1</td></tr>
</table>
<h2>Requests answered</h2>
<table>
<tr><th>With status 204</th><td>2</td></tr>
<tr><th>With status 404</th><td>1</td></tr>
<tr><th>With status 429</th><td>1</td></tr>
</table>
<h2>Acknowledged, but not held</h2>
<table>
<tr><th>Native histograms</th><td>2</td></tr>
<tr><th>Metadata</th><td>1</td></tr>
</table>
<footer>The numbers are best effort and are read one after the other. This page is loaded again every \
5 seconds. <a href=\"metrics\">The metrics for Prometheus</a></footer>
</body>
</html>
";

/// The end of the page for Prometheus of a receiver that keeps a log.
const LOG_PAGE: &str = "
rwship_receive_max_label_sets 0
# HELP rwship_receive_log_segments_found Segments of the log that were there at the start.
# TYPE rwship_receive_log_segments_found gauge
rwship_receive_log_segments_found 3
# HELP rwship_receive_log_segments_read How many of them were read. Nothing is answered before that is all.
# TYPE rwship_receive_log_segments_read gauge
rwship_receive_log_segments_read 1
# HELP rwship_receive_opening_bytes Bytes of the segments that were read at the start.
# TYPE rwship_receive_opening_bytes gauge
rwship_receive_opening_bytes 4711
# HELP rwship_receive_log_bytes_written_total Bytes that were written to the log.
# TYPE rwship_receive_log_bytes_written_total counter
rwship_receive_log_bytes_written_total 32771
# HELP rwship_receive_log_syncs_total Syncs of the log to the disk.
# TYPE rwship_receive_log_syncs_total counter
rwship_receive_log_syncs_total 2
# HELP rwship_receive_log_sync_seconds_total Seconds that syncs of the log took.
# TYPE rwship_receive_log_sync_seconds_total counter
rwship_receive_log_sync_seconds_total 12.003045
# HELP rwship_receive_log_segments_total Segments of the log that were begun.
# TYPE rwship_receive_log_segments_total counter
rwship_receive_log_segments_total 1
# HELP rwship_receive_log_writes_failed_total Writes, syncs and new segments of the log that failed.
# TYPE rwship_receive_log_writes_failed_total counter
rwship_receive_log_writes_failed_total 1
";

/// The page of a receiver that keeps only the latest samples in memory, up to its log.
const MEMORY_PAGE: &str = "
rwship_receive_max_label_sets 0
# HELP rwship_receive_samples_in_memory Samples that are in memory.
# TYPE rwship_receive_samples_in_memory gauge
rwship_receive_samples_in_memory 400
# HELP rwship_receive_too_old_series_total Series of which a sample came that is too old for memory, at each look.
# TYPE rwship_receive_too_old_series_total counter
rwship_receive_too_old_series_total 3
# HELP rwship_receive_log_segments_found Segments of the log that were there at the start.
";

/// Its table on the page for people, up to the next one.
const MEMORY_TABLE: &str = "
<h2>Memory</h2>
<table>
<tr><th>Samples in memory</th><td>400</td></tr>
<tr><th>Series asked for that are too old</th><td>3</td></tr>
</table>
<h2>Connections</h2>
";

/// Its table on the page for people, and what follows it.
const LOG_TABLE: &str = "
<h2>Log</h2>
<table>
<tr><th>Segments at the start</th><td>3</td></tr>
<tr><th>Segments of these read</th><td>1</td></tr>
<tr><th>Bytes written</th><td>32771</td></tr>
<tr><th>Syncs</th><td>2</td></tr>
<tr><th>Milliseconds in syncs</th><td>12003</td></tr>
<tr><th>Segments begun</th><td>1</td></tr>
<tr><th>Writes and syncs that failed</th><td>1</td></tr>
</table>
<footer>The numbers are best effort and are read one after the other. This page is loaded again every \
5 seconds. <a href=\"metrics\">The metrics for Prometheus</a></footer>
</body>
</html>
";

/// Its progress, in one line.
const LOG_LINE: &str = "connections 0 accepted 0 samples 0 bytes 32771 syncs 2 segments 1 failed 1";

/// What is dropped of a log.
static DROPPED: [(u64, Reason); 3] = [
    (3, Reason::NoSeries),
    (5, Reason::NotRising),
    (6, Reason::NotRising),
];

/// What is skipped of a log.
static SKIPPED: Skipped = Skipped {
    tombstones: 2,
    exemplars: 0,
    mmap_markers: 0,
    metadata: 0,
    histograms: 4,
    float_histograms: 0,
    custom_histograms: 0,
    custom_float_histograms: 0,
    unknown: 1,
};

/// A request with two samples of a series, at 1,600,000,000,000 and 1,600,000,002,000 ms.
const TWO_SAMPLES: &[u8] = b"POST / HTTP/1.1\r\n\r\n\x0a\x2e\x0a\x08\x0a\x01a\x12\x03bcd\
    \x12\x10\x09\0\0\0\0\0\0\xf0\x3f\x10\x80\x80\xba\xbb\xc8\x2e\
    \x12\x10\x09\0\0\0\0\0\0\xf0\x3f\x10\xd0\x8f\xba\xbb\xc8\x2e";

/// A request with one sample, before 1970.
const EARLY_SAMPLE: &[u8] = b"POST / HTTP/1.1\r\n\r\n\x0a\x16\
    \x12\x14\x09\0\0\0\0\0\0\0\0\x10\xff\xff\xff\xff\xff\xff\xff\xff\xff\x01";

/// The progress of the sender, in one line.
const LINE: &str =
    "entries 1234 read 1233 acknowledged 3 dropped 5 filtered 30 in_flight 1195 lag 58 \
    shards 4 attempts 9 failed 8 last status_503 segment 7 bytes 456 newest 9 percent 55";

/// What it has skipped, in one line.
const SKIPPED_LINE: &str = "skipped histogram_samples 4 unknown 1 tombstones 2";

/// Lines of its page for Prometheus.
static LINES: [&str; 9] = [
    "\nrwship_send_newest_segment 9\n",
    "\nrwship_send_highest_timestamp_in_seconds 1600000060\n",
    "\nrwship_send_highest_acknowledged_timestamp_in_seconds 1600000002\n",
    "\nrwship_send_samples_read_total 1233\n",
    "\nrwship_send_samples_acknowledged_total 3\n",
    "\nrwship_send_samples_resolved_total 5\n",
    "\nrwship_send_samples_in_flight 1195\n",
    "\nrwship_send_samples_dropped_total{reason=\"status_400\"} 2\n",
    "\nrwship_send_records_skipped_total{type=\"histogram_samples\"} 4\n",
];

/// How attempts fail after one has succeeded.
static CAUSES: [Cause; 6] = [
    Cause::Connect,
    Cause::Timeout,
    Cause::Broken,
    Cause::BadReply,
    Cause::Memory,
    Cause::Status(503),
];

/// Counts what a sender has done.
fn count_sending(counters: &SendCounters) {
    counters.read_bytes(100);
    counters.begin_segment(7);
    counters.read_bytes(456);
    counters.set_folder_bytes(1000);
    counters.set_entries(1234);
    counters.set_shards(4);
    counters.set_load(1200, 100);
    counters.set_newest(1_600_000_060_000);
    counters.set_newest_segment(9);
    counters.set_skipped(&SKIPPED);
    counters.set_filtered(30);
    counters.drop_unsent(&DROPPED);
    counters.refuse(400, TWO_SAMPLES);
}

/// Counts the attempts: one that fails, two that succeed, and six that fail.
fn count_attempts(counters: &SendCounters) {
    for _ in 0..9 {
        counters.attempt();
    }
    counters.fail(Cause::Connect);
    counters.acknowledge(EARLY_SAMPLE);
    counters.acknowledge(TWO_SAMPLES);
    for cause in &CAUSES {
        counters.fail(*cause);
    }
}

/// What a sender has counted that did all this.
fn counted(alloc: Global) -> Result<SendNumbers, AllocError> {
    let counters = SendCounters::new(alloc)?;
    count_sending(&counters);
    count_attempts(&counters);
    counters.numbers(alloc)
}

/// Whether the page of a sender has this text.
fn is_senders(alloc: Global) -> Result<bool, AllocError> {
    let page = send_html(alloc, &counted(alloc)?)?;
    Ok(page.as_slice() == SENDER.as_bytes())
}

#[test]
fn a_sender_for_people(rt: HostRuntime) -> Result<(), Fail> {
    assert!(rt; is_senders(rt.alloc())?);
    Ok(())
}

/// Whether what was read is acknowledged, dropped, filtered or in flight.
fn adds_up(n: &SendNumbers) -> bool {
    let sent = n.acknowledged.saturating_add(n.in_flight);
    n.read == sent.saturating_add(n.drops.all).saturating_add(n.filtered)
}

/// Whether these are the lines of such a sender, and its numbers add up.
fn has_lines(alloc: Global) -> Result<bool, AllocError> {
    let numbers = counted(alloc)?;
    let line = send_line(alloc, &numbers)?;
    let skipped = skipped_line(alloc, &numbers.skipped)?;
    Ok(
        adds_up(&numbers)
            && line.as_slice() == LINE.as_bytes()
            && skipped.as_slice() == SKIPPED_LINE.as_bytes(),
    )
}

#[test]
fn a_sender_adds_up(rt: HostRuntime) -> Result<(), Fail> {
    assert!(rt; has_lines(rt.alloc())?);
    Ok(())
}

/// Whether a text has a part.
fn has_part(text: &[u8], part: &[u8]) -> bool {
    for i in 0..text.len() {
        if text[i..].starts_with(part) {
            return true;
        }
    }
    false
}

/// Returns the first of the lines that the page of such a sender for Prometheus lacks.
fn lacking(alloc: Global) -> Result<Option<&'static str>, AllocError> {
    let page = send_page(alloc, &counted(alloc)?)?;
    for line in &LINES {
        if !has_part(&page, line.as_bytes()) {
            return Ok(Some(line));
        }
    }
    Ok(None)
}

#[test]
fn a_sender_for_prometheus(rt: HostRuntime) -> Result<(), Fail> {
    let wrong = lacking(rt.alloc())?;
    assert_eq!(rt; wrong, None);
    Ok(())
}

/// Returns whether the counters of a sender still add up if its report counts less than its
/// transports have heard.
fn adds_up_at_the_end(alloc: Global) -> Result<bool, AllocError> {
    let counters = SendCounters::new(alloc)?;
    counters.acknowledge(TWO_SAMPLES);
    counters.refuse(400, TWO_SAMPLES);
    let before = counters.numbers(alloc)?;
    counters.set_load(5, 0);
    counters.drop_sample(Reason::Status(400));
    counters.drop_sample(Reason::Status(400));
    counters.set_resolved(4);
    let after = counters.numbers(alloc)?;
    Ok(
        adds_up(&before)
            && (before.read, before.in_flight) == (4, 0)
            && adds_up(&after)
            && (after.read, after.in_flight) == (5, 1)
            && (after.acknowledged, after.drops.all) == (2, 2)
            && counters.dropped() == 2,
    )
}

#[test]
fn a_refused_sample_is_dropped_once(rt: HostRuntime) -> Result<(), Fail> {
    assert!(rt; adds_up_at_the_end(rt.alloc())?);
    Ok(())
}

/// Whether the page of a receiver ends with this text.
fn is_receivers(alloc: Global) -> Result<bool, AllocError> {
    let counters = ReceiveCounters::new(alloc)?;
    counters.begin_connection();
    counters.begin_connection();
    counters.end_connection();
    counters.refuse_connection();
    counters.answer(204, 10);
    counters.answer(204, 7);
    counters.skip_parts(b"\x0a\x04\x22\0\x22\0\x1a\0");
    counters.answer(429, 0);
    counters.answer_unasked(404);
    counters.hold_label_sets(3);
    counters.set_limits(1_000, 0);
    let page = receive_html(alloc, &counters.numbers(alloc)?)?;
    Ok(page.ends_with(RECEIVER.as_bytes()))
}

#[test]
fn a_receiver_for_people(rt: HostRuntime) -> Result<(), Fail> {
    assert!(rt; is_receivers(rt.alloc())?);
    Ok(())
}

/// Counts what a receiver has written to its log.
fn count_log(counters: &ReceiveCounters) {
    counters.find_log_segments(3);
    counters.read_log_segment(4_711);
    counters.begin_log_segment();
    counters.write_log(32_768);
    counters.sync_log(11_999_000);
    counters.write_log(3);
    counters.sync_log(4_045);
    counters.fail_log();
}

/// Returns whether a receiver that keeps a log shows what it has written to it.
fn shows_its_log(alloc: Global) -> Result<bool, AllocError> {
    let counters = ReceiveCounters::of_kept_log(alloc)?;
    count_log(&counters);
    let numbers = counters.numbers(alloc)?;
    let page = receive_page(alloc, &numbers)?;
    let html = receive_html(alloc, &numbers)?;
    let line = receive_line(alloc, &numbers)?;
    Ok(
        page.ends_with(LOG_PAGE.as_bytes())
            && html.ends_with(LOG_TABLE.as_bytes())
            && line.as_slice() == LOG_LINE.as_bytes(),
    )
}

/// Returns whether a receiver that keeps no log counts nothing of one.
fn counts_no_log(alloc: Global) -> Result<bool, AllocError> {
    let counters = ReceiveCounters::new(alloc)?;
    count_log(&counters);
    Ok(counters.numbers(alloc)?.kept.is_none())
}

#[test]
fn a_receiver_with_a_log(rt: HostRuntime) -> Result<(), Fail> {
    assert!(rt; shows_its_log(rt.alloc())?);
    assert!(rt; counts_no_log(rt.alloc())?);
    Ok(())
}

/// Returns whether a receiver that keeps only the latest samples in memory shows what it has there.
fn shows_its_memory(alloc: Global) -> Result<bool, AllocError> {
    let counters = ReceiveCounters::of_recent_log(alloc)?;
    counters.hold_in_memory(500, 2);
    counters.hold_in_memory(400, 1);
    let numbers = counters.numbers(alloc)?;
    let page = receive_page(alloc, &numbers)?;
    let html = receive_html(alloc, &numbers)?;
    Ok(
        has_part(&page, MEMORY_PAGE.as_bytes())
            && has_part(&html, MEMORY_TABLE.as_bytes())
            && numbers.kept.is_some(),
    )
}

/// Returns whether a receiver with all its samples in memory says nothing of that.
fn says_nothing_of_memory(alloc: Global) -> Result<bool, AllocError> {
    let counters = ReceiveCounters::of_kept_log(alloc)?;
    counters.hold_in_memory(500, 2);
    Ok(counters.numbers(alloc)?.memory.is_none())
}

#[test]
fn a_receiver_that_forgets(rt: HostRuntime) -> Result<(), Fail> {
    assert!(rt; shows_its_memory(rt.alloc())?);
    assert!(rt; says_nothing_of_memory(rt.alloc())?);
    Ok(())
}
