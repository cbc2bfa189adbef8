//! The bytes of a segment that are passed over: at which of them a record ends, and which entries
//! are read after them.

use crate::folder_journals::make_folder;
use rw_follow::Queue;
use rw_log_folder::Folder;
use rw_log_read::read_into;
use rw_metrics::SendCounters;
use rw_resume::{
    After, Definitions, Midway, Numbered, Passed, front_for, pass_over, write_definitions,
};
use rw_test_parts::{UP_SEGMENT, WORD_OF_ONE};
use rw_types::{Entry, RawLabels, ReadFault, Room};
use rw_wal_write::{SegmentWriter, series_record};
use std::alloc::{AllocError, Global};
use std::fs;
use std::sync::Arc;
use std::test::Fail;

/// The record of a sample: the value 1 at 2000 ms of the reference 1.
const LATER_SAMPLE: [u8; 34] = [
    1, 0, 27, 0xa3, 0x19, 0xbe, 0xb0, 2, 0, 0, 0, 0, 0, 0, 0, 1, 0, 0, 0, 0, 0, 0, 0x07, 0xd0, 0,
    0, 0x3f, 0xf0, 0, 0, 0, 0, 0, 0,
];

/// How many bytes the value of the long label has.
const LONG: usize = 40_000;

/// Returns a segment of three records, which end at 29, 63 and 97: the definition of the reference
/// 1, and two samples of it.
fn short_segment(alloc: Global) -> Result<Vec<u8>, AllocError> {
    let mut segment = Vec::from_slice(alloc, &UP_SEGMENT)?;
    segment.extend_from_slice(&LATER_SAMPLE)?;
    Ok(segment)
}

/// Returns a segment of two records: a definition of the reference 1 with a value of 40,000 bytes,
/// and a sample of it. The first record has 1 byte of type, 8 of the reference, 1 of the number of
/// labels, 1 and 8 of the name, 3 and 40,000 of the value: 40,022. Its first fragment has 7 bytes
/// of header and 32,761 of data, up to the end of the page, and its second one 7 and 7,261. So it
/// ends at 40,036, and the second one at 40,070.
fn long_segment(alloc: Global) -> Result<Vec<u8>, AllocError> {
    let value = vec![in alloc; b'a'; LONG]?;
    let mut labels = RawLabels::new(alloc);
    labels.push(b"__name__", &value)?;
    let record = series_record(alloc, 1, &labels)?;
    let mut writer = SegmentWriter::new(Room::new(alloc, 65_536)?, 2);
    if record.is_empty() || writer.log(&record).is_err() {
        return Err(AllocError);
    }
    let mut segment = writer.into_inner().into_bytes();
    segment.extend_from_slice(&LATER_SAMPLE)?;
    Ok(segment)
}

/// Passes bytes of a segment over, and returns what comes after them.
fn pass(
    alloc: Global,
    segment: &[u8],
    count: u64,
    may_compress: bool,
    definitions: &mut Definitions,
) -> Result<Passed, ReadFault> {
    let mut readers = Vec::with_capacity(alloc, 1)?;
    readers.push_reserved(segment);
    let mut log = Queue::new(readers);
    pass_over(alloc, &mut log, count, may_compress, definitions)
}

/// Returns whether labels are a name alone, which has this length and begins with this byte.
fn is_name(labels: &RawLabels, len: usize, byte: u8) -> bool {
    match labels.as_slice().first() {
        Some((name, value)) => {
            labels.len() == 1
                && name.as_slice() == b"__name__".as_slice()
                && value.len() == len
                && value.first() == Some(&byte)
        }
        None => false,
    }
}

/// Returns what comes after these bytes of the short segment.
fn expected_after(count: u64) -> Passed {
    match count {
        0 | 29 | 63 | 97 => Passed::Record,
        98.. => Passed::Short(97),
        _ => Passed::Within,
    }
}

/// Returns whether these are the definition of `up` alone.
fn are_up(definitions: &Definitions) -> bool {
    match definitions.found().first() {
        Some((reference, labels)) => {
            definitions.found().len() == 1 && *reference == 1 && is_name(labels, 2, b'u')
        }
        None => false,
    }
}

/// Returns the first number of bytes of the short segment after which something else comes, or
/// before which other definitions are found.
fn wrong_count(alloc: Global, may_compress: bool) -> Result<Option<u64>, ReadFault> {
    let segment = short_segment(alloc)?;
    for count in 0..100u64 {
        let mut found = Definitions::new(alloc);
        let passed = pass(alloc, &segment, count, may_compress, &mut found)?;
        let has_found = if count < 29 {
            found.found().is_empty()
        } else {
            are_up(&found)
        };
        if passed != expected_after(count) || !has_found {
            return Ok(Some(count));
        }
    }
    Ok(None)
}

#[test]
fn a_record_ends_at_its_last_byte_alone(rt: HostRuntime) -> Result<(), Fail> {
    let alloc = rt.alloc();
    assert_eq!(rt; wrong_count(alloc, false), Ok(None));
    assert_eq!(rt; wrong_count(alloc, true), Ok(None));
    Ok(())
}

/// How many bytes of the long segment are passed over, and what comes after them.
static LONG_COUNTS: [(u64, Passed); 8] = [
    (0, Passed::Record),
    (32_767, Passed::Within),
    (32_768, Passed::Within),
    (40_035, Passed::Within),
    (40_036, Passed::Record),
    (40_037, Passed::Within),
    (40_070, Passed::Record),
    (40_071, Passed::Short(40_070)),
];

/// Returns the first number of bytes of the long segment after which something else comes.
fn wrong_long_count(alloc: Global) -> Result<Option<u64>, ReadFault> {
    let segment = long_segment(alloc)?;
    for row in &LONG_COUNTS {
        let (count, expected) = *row;
        let mut found = Definitions::new(alloc);
        if pass(alloc, &segment, count, false, &mut found)? != expected {
            return Ok(Some(count));
        }
    }
    Ok(None)
}

#[test]
fn a_record_does_not_end_with_a_page_that_it_fills(rt: HostRuntime) -> Result<(), Fail> {
    assert_eq!(rt; wrong_long_count(rt.alloc()), Ok(None));
    Ok(())
}

/// How many bytes of the short segment are passed over if the last byte of its second record, the
/// one at 62, was changed, and what comes after them.
static DAMAGED_COUNTS: [(u64, Passed); 5] = [
    (29, Passed::Record),
    (62, Passed::Within),
    (63, Passed::Within),
    (97, Passed::Within),
    (99, Passed::Within),
];

/// Returns the first number of bytes of the damaged segment after which something else comes.
fn wrong_damaged_count(alloc: Global) -> Result<Option<u64>, ReadFault> {
    let mut segment = short_segment(alloc)?;
    if segment.len() > 62 {
        segment[62] = 1;
    }
    for row in &DAMAGED_COUNTS {
        let (count, expected) = *row;
        let mut found = Definitions::new(alloc);
        if pass(alloc, &segment, count, false, &mut found)? != expected {
            return Ok(Some(count));
        }
    }
    Ok(None)
}

#[test]
fn no_record_ends_after_a_damaged_one(rt: HostRuntime) -> Result<(), Fail> {
    assert_eq!(rt; wrong_damaged_count(rt.alloc()), Ok(None));
    Ok(())
}

/// What is read of a log whose segment 7 is begun in its middle.
#[derive(Drop)]
struct ReadOn {
    /// The number of the current segment, and how many bytes of it come before those that are
    /// read: before the first byte is read, and at the end.
    places: [(Option<u64>, u64); 2],
    entries: Vec<Entry>,
    /// The bytes of each segment, and its records that were skipped.
    segments: [(u64, u64); 2],
}

/// Returns what is read of the log in a folder after these bytes of its segment 7, or nothing if it
/// cannot be read there.
fn read_on(rt: &HostRuntime, dir: &str, count: u64) -> Result<Option<ReadOn>, Fail> {
    let alloc = rt.alloc();
    let counters = Arc::new(alloc, SendCounters::new(alloc)?)?;
    let mut folder = Folder::from_segment(*rt, String::from_str(alloc, dir)?, 7, counters);
    let mut found = Definitions::new(alloc);
    let passed = pass_over(alloc, &mut folder, count, false, &mut found);
    let (Ok(Passed::Record), Some(front)) = (passed, front_for(alloc, count)?) else {
        return Ok(None);
    };
    let Ok(texts) = write_definitions(alloc, found.found()) else {
        return Ok(None);
    };
    let mut log = After::new(texts, Midway::new(front, count, folder));
    let first = (log.number(), log.base());
    let Ok((read, entries)) = read_into(alloc, &mut log, false, false, Vec::new(alloc)) else {
        return Ok(None);
    };
    if read.segments.len() != 2 || read.damage.is_some() {
        return Ok(None);
    }
    let [before, after] = [&read.segments[0], &read.segments[1]];
    Ok(Some(ReadOn {
        places: [first, (log.number(), log.base())],
        entries,
        segments: [(before.bytes, before.passed), (after.bytes, after.passed)],
    }))
}

/// Returns whether entries are a definition of the reference 1 and its sample at 2000 ms alone. The
/// name of its series has this length and begins with this byte.
fn are_read_on(entries: &[Entry], len: usize, byte: u8) -> bool {
    if entries.len() != 2 {
        return false;
    }
    match (&entries[0], &entries[1]) {
        (
            Entry::Def { reference, labels },
            Entry::Sample {
                reference: sampled,
                t,
                word,
            },
        ) => {
            *reference == 1
                && is_name(labels, len, byte)
                && *sampled == 1
                && *t == 2000
                && word.0 == WORD_OF_ONE
        }
        _ => false,
    }
}

/// Returns what is read after these bytes of a segment, in a folder of this name.
fn read_on_in(
    rt: &HostRuntime,
    name: &str,
    segment: &[u8],
    count: u64,
) -> Result<Option<ReadOn>, Fail> {
    let dir = make_folder(rt, name, &[])?;
    fs::write(rt, dir.as_path().join(rt.alloc(), "00000007")?, segment)?;
    let read = read_on(rt, dir.as_path().as_str(), count)?;
    fs::remove_dir_all(rt, dir.as_path())?;
    Ok(read)
}

/// The definition has 29 bytes. The front has 63 bytes, as those that it replaces, and is skipped.
#[test]
fn a_log_is_read_on_after_two_records(rt: HostRuntime) -> Result<(), Fail> {
    let segment = short_segment(rt.alloc())?;
    let read = read_on_in(&rt, "rwship-a-log-that-is-read-on", &segment, 63)?;
    let is_so = match read {
        Some(read) => {
            read.places == [(None, 0), (Some(7), 0)]
                && are_read_on(&read.entries, 2, b'u')
                && read.segments == [(29, 0), (63 + 34, 1)]
        }
        None => false,
    };
    assert!(rt; is_so);
    Ok(())
}

/// The definition has 40,036 bytes. The front has 7,268 bytes, and replaces a page more.
#[test]
fn a_log_is_read_on_after_a_page(rt: HostRuntime) -> Result<(), Fail> {
    let segment = long_segment(rt.alloc())?;
    let read = read_on_in(&rt, "rwship-a-long-log-that-is-read-on", &segment, 40_036)?;
    let is_so = match read {
        Some(read) => {
            read.places == [(None, 0), (Some(7), 32_768)]
                && are_read_on(&read.entries, LONG, b'a')
                && read.segments == [(40_036, 0), (7268 + 34, 1)]
        }
        None => false,
    };
    assert!(rt; is_so);
    Ok(())
}
