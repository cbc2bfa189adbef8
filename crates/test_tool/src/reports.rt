//! Reports of two segments, and of one that is damaged.

use crate::rows::{holds, none_is_wrong};
use rw_external_labels::ExternalLabels;
use rw_follow::Queue;
use rw_inspect::{LogFindings, find_entries, inspect, json_of, table_of};
use rw_log_commands::plan_log;
use rw_log_read::{Named, UnreadLog};
use rw_relabel::Choice;
use rw_test_parts::raw_labels;
use rw_text::ToolFault;
use rw_types::{Room, Word};
use rw_wal_tail::{Damage, FaultPlace, TailFault};
use rw_wal_write::{SegmentWriter, sample_record, series_record};
use std::alloc::{AllocError, Global};
use std::test::Fail;

/// What is logged: a definition of a reference by its one label, or a sample of it at a time.
#[derive(Clone, Copy)]
enum Logged {
    Def(u64, &'static str, &'static str),
    Sample(u64, i64),
}

fn record_of(alloc: Global, logged: Logged) -> Result<Vec<u8>, AllocError> {
    match logged {
        Logged::Def(reference, name, value) => {
            series_record(alloc, reference, &raw_labels(alloc, &[(name, value)])?)
        }
        Logged::Sample(reference, t) => sample_record(alloc, &[(reference, t, Word(0))]),
    }
}

fn segment_of(alloc: Global, entries: &[Logged]) -> Result<Vec<u8>, AllocError> {
    let mut writer = SegmentWriter::new(Room::new(alloc, 4096)?, 1);
    for logged in entries {
        let rec = record_of(alloc, *logged)?;
        if !rec.is_empty() {
            let _ = writer.log(&rec);
        }
    }
    Ok(writer.into_inner().into_bytes())
}

fn named<'a>(alloc: Global, name: &str, text: &'a [u8]) -> Result<Named<&'a [u8]>, AllocError> {
    Ok(Named {
        name: String::from_str(alloc, name)?,
        source: text,
    })
}

/// Returns the readers of two segments.
fn both<'a>(
    alloc: Global,
    first: &'a [u8],
    second: &'a [u8],
) -> Result<Vec<Named<&'a [u8]>>, AllocError> {
    let mut segments = Vec::with_capacity(alloc, 2)?;
    segments.push_reserved(named(alloc, "0", first)?);
    segments.push_reserved(named(alloc, "\"1", second)?);
    Ok(segments)
}

/// Returns the report of two segments.
fn report_of(alloc: Global, first: &[u8], second: &[u8]) -> Result<LogFindings, UnreadLog> {
    inspect(alloc, both(alloc, first, second)?, false)
}

/// Series 1 and 4 have one label set, 3 has none, and 2 has no definition.
static FIRST: [Logged; 3] = [
    Logged::Def(1, "__name__", "up"),
    Logged::Sample(1, 1000),
    Logged::Sample(1, 1000),
];

static SECOND: [Logged; 6] = [
    Logged::Sample(2, -500),
    Logged::Def(3, "9", "a"),
    Logged::Sample(3, 1),
    Logged::Def(4, "__name__", "up"),
    Logged::Sample(4, 2000),
    Logged::Sample(4, 1500),
];

const TABLE: &str =
    "   segment          bytes   pages     entries      series     samples     skipped       earliest         latest
         0             97       1           3           1           2           0           1000           1000
        \"1            186       1           6           2           4           0           -500           2000
       all            283       2           9           3           6           0           -500           2000
label sets                  1
samples without a series    1
samples with bad labels     1
samples that do not rise    2
their first positions       2 8
";

const JSON: &str = "\
{\"type\":\"segment\",\"file\":\"0\",\"bytes\":97,\"pages\":1,\"passed_over\":0,\"entries\":3,\"series\":1,\"samples\":2,\"earliest\":1000,\"latest\":1000}\n\
{\"type\":\"segment\",\"file\":\"\\\"1\",\"bytes\":186,\"pages\":1,\"passed_over\":0,\"entries\":6,\"series\":2,\"samples\":4,\"earliest\":-500,\"latest\":2000}\n\
{\"type\":\"totals\",\"bytes\":283,\"pages\":2,\"passed_over\":0,\"entries\":9,\"series\":3,\"samples\":6,\"earliest\":-500,\"latest\":2000,\"label_sets\":1,\"without_series\":1,\"bad_labels\":1,\"not_rising\":2,\"first_not_rising\":[2,8]}\n\
";

const DAMAGED: &str = "\
{\"type\":\"segment\",\"file\":\"0\",\"bytes\":97,\"pages\":1,\"passed_over\":0,\"entries\":2,\"series\":1,\"samples\":1,\"earliest\":1000,\"latest\":1000}\n\
{\"type\":\"totals\",\"bytes\":97,\"pages\":1,\"passed_over\":0,\"entries\":2,\"series\":1,\"samples\":1,\"earliest\":1000,\"latest\":1000,\"label_sets\":1,\"without_series\":0,\"bad_labels\":0,\"not_rising\":0,\"first_not_rising\":[]}\n\
{\"type\":\"fault\",\"fault\":\"the checksum of the fragment does not match its data\",\"file\":\"0\",\"offset\":63,\"behind\":34,\"next\":\"copy the segment again and compare; send ships what is before the fault, receive does not start\"}\n\
";

/// Returns the reports of both segments, and of the first with its last byte changed.
fn texts(alloc: Global) -> Result<(Vec<u8>, Vec<u8>, Vec<u8>), UnreadLog> {
    let mut first = segment_of(alloc, &FIRST)?;
    let second = segment_of(alloc, &SECOND)?;
    let report = report_of(alloc, &first, &second)?;
    let table = table_of(alloc, &report)?;
    let json = json_of(alloc, &report)?;
    if let Some(byte) = first.last_mut() {
        *byte = 1;
    }
    let damaged = json_of(alloc, &report_of(alloc, &first, &second)?)?;
    Ok((table, json, damaged))
}

#[test]
fn two_segments(rt: HostRuntime) -> Result<(), Fail> {
    let (table, json, damaged) = texts(rt.alloc())?;
    holds(&rt, table.as_slice() == TABLE.as_bytes());
    holds(&rt, json.as_slice() == JSON.as_bytes());
    holds(&rt, damaged.as_slice() == DAMAGED.as_bytes());
    Ok(())
}

const PLAN: &str = "1 kept 0 {__name__=\"up\"}
3 bad 3
4 kept 0 {__name__=\"up\"}
samples kept 4 filtered 0 bad 1 noseries 1
";

/// The offset of the last record of the second segment: it has 27 bytes after its header of 7.
const LAST_RECORD: u64 = 186 - 34;

/// Returns what is written as the plan of two segments, and how the run ends.
fn plan_of(
    alloc: Global,
    first: &[u8],
    second: &[u8],
) -> Result<(Vec<u8>, Result<Option<Damage>, ToolFault>), AllocError> {
    let mut writer = Room::new(alloc, 4096)?;
    let mut log = Queue::new(both(alloc, first, second)?);
    let outcome = plan_log(
        alloc,
        &mut log,
        &mut writer,
        Choice::legacy(alloc),
        ExternalLabels::none(),
        false,
    );
    Ok((writer.into_bytes(), outcome))
}

/// Returns whether both segments have their plan, and whether nothing is written if the last byte
/// of the second is changed.
fn are_planned(alloc: Global) -> Result<(bool, bool), AllocError> {
    let first = segment_of(alloc, &FIRST)?;
    let mut second = segment_of(alloc, &SECOND)?;
    let (plan, outcome) = plan_of(alloc, &first, &second)?;
    let is_whole = plan.as_slice() == PLAN.as_bytes() && outcome == Ok(None);
    if let Some(byte) = second.last_mut() {
        *byte = 1;
    }
    let (plan, outcome) = plan_of(alloc, &first, &second)?;
    let damage = Damage {
        fault: TailFault::BadCrc,
        place: Some(FaultPlace {
            segment: 1,
            offset: LAST_RECORD,
        }),
    };
    Ok((is_whole, plan.is_empty() && outcome == Ok(Some(damage))))
}

#[test]
fn plan_of_two_segments(rt: HostRuntime) -> Result<(), Fail> {
    let (is_whole, is_refused) = are_planned(rt.alloc())?;
    holds(&rt, is_whole && is_refused);
    Ok(())
}

/// Positions of both segments, and one after their entries.
static ASKED: [u64; 6] = [4, 0, 8, 3, 9, 5];

const FOUND: &str = "4 \"1 series 3 {\"9\"=\"a\"}
0 0 series 1 {__name__=\"up\"}
8 \"1 sample 4 1500 0 {__name__=\"up\"}
3 \"1 sample 2 -500 0 noseries
9 has no entry
5 \"1 sample 3 1 0 {\"9\"=\"a\"}
";

/// Returns what is found at the positions, how many do not exist, and whether the log is damaged.
fn found_in(alloc: Global) -> Result<(Vec<u8>, u64, bool), UnreadLog> {
    let first = segment_of(alloc, &FIRST)?;
    let second = segment_of(alloc, &SECOND)?;
    let segments = both(alloc, &first, &second)?;
    let found = find_entries(alloc, segments, false, ASKED.to_vec(alloc)?)?;
    Ok((found.text, found.missing, found.damage.is_some()))
}

#[test]
fn entries_at_positions(rt: HostRuntime) -> Result<(), Fail> {
    let (text, missing, is_damaged) = found_in(rt.alloc())?;
    holds(&rt, text.as_slice() == FOUND.as_bytes());
    holds(&rt, missing == 1 && !is_damaged);
    Ok(())
}

/// The first bytes of records that hold neither series nor samples (wal.md).
static SKIPPED: [u8; 12] = [3, 4, 5, 6, 7, 8, 9, 10, 11, 7, 255, 3];

/// How many of them are of each type.
static BY_TYPE: [(&str, u64); 9] = [
    ("histogram_samples", 2),
    ("float_histogram_samples", 1),
    ("custom_buckets_histogram_samples", 1),
    ("custom_buckets_float_histogram_samples", 1),
    ("unknown", 2),
    ("tombstones", 2),
    ("exemplars", 1),
    ("mmapmarkers", 1),
    ("metadata", 1),
];

/// Returns a segment of records that are skipped.
fn skipped_segment(alloc: Global) -> Result<Vec<u8>, AllocError> {
    let mut writer = SegmentWriter::new(Room::new(alloc, 4096)?, 1);
    for kind in &SKIPPED {
        let record = [*kind, 0];
        let _ = writer.log(&record);
    }
    Ok(writer.into_inner().into_bytes())
}

/// Returns the readers of one segment.
fn alone(alloc: Global, text: &[u8]) -> Result<Vec<Named<&[u8]>>, AllocError> {
    let mut segments = Vec::with_capacity(alloc, 1)?;
    segments.push_reserved(named(alloc, "0", text)?);
    Ok(segments)
}

/// Returns the report of a segment.
fn report_of_one(alloc: Global, text: &[u8]) -> Result<LogFindings, UnreadLog> {
    inspect(alloc, alone(alloc, text)?, false)
}

/// Returns the first type of `BY_TYPE` whose number is wrong in a report.
fn wrong_type(report: &LogFindings) -> Option<&'static str> {
    for (at, (name, count)) in BY_TYPE.iter().enumerate() {
        match report.skipped.get(at) {
            Some(found) if found.kind.name() == *name && found.count == *count => {}
            _ => return Some(*name),
        }
    }
    if report.skipped.len() == BY_TYPE.len() {
        None
    } else {
        Some("one more")
    }
}

#[test]
fn skipped_records_by_type(rt: HostRuntime) -> Result<(), Fail> {
    let segment = skipped_segment(rt.alloc())?;
    let report = report_of_one(rt.alloc(), &segment)?;
    none_is_wrong(&rt, wrong_type(&report));
    Ok(())
}
