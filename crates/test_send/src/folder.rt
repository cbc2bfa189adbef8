//! The segments of a folder.

use crate::growing_folder::Change::{self, Dir, Goes};
use crate::growing_folder::has_changed;
use crate::logs::segment;
use crate::receivers::Receivers;
use crate::rows::none_is_wrong;
use crate::shipped::settings_of;
use http::StatusCode;
use rw_log_folder::{FolderFault, Opened, SegmentFile, segment_files};
use rw_metrics::SendCounters;
use rw_send::{LogOptions, SendOptions, StopFlag, run_send};
use rw_text::ToolFault;
use rw_types::{Room, Source, read_to_end};
use std::alloc::{AllocError, Global};
use std::fs::File;
use std::path::{Path, PathBuf};
use std::rt::Files;
use std::sync::Wait;
use std::test::Fail;
use std::thread::Threads;
use std::time::{Clock, Duration};
use std::{env, fs};

/// Adds what the segments hold, one after the other. The answer is no if one cannot be read.
fn are_read<R: Files<File = File> + Drop>(
    alloc: Global,
    segments: Vec<Opened<SegmentFile<R>>>,
    text: &mut Vec<u8>,
) -> bool {
    for segment in segments {
        let mut segment = segment;
        if read_to_end(alloc, &mut segment, text).is_err() {
            return false;
        }
    }
    true
}

/// Returns the segments of a folder, or none if it cannot be listed.
fn segments_in(rt: &HostRuntime, dir: &str) -> Vec<Opened<SegmentFile<HostRuntime>>> {
    match segment_files(rt, dir, None) {
        Ok(segments) => segments,
        Err(_) => Vec::new(rt.alloc()),
    }
}

/// Returns whether the segments of a folder hold this.
fn holds(rt: &HostRuntime, dir: &str, wanted: &[u8]) -> Result<bool, AllocError> {
    let mut text = Vec::new(rt.alloc());
    let segments = segments_in(rt, dir);
    Ok(are_read(rt.alloc(), segments, &mut text) && text.as_slice() == wanted)
}

/// Returns a new folder of this name.
pub(crate) fn new_folder(rt: &HostRuntime, name: &str) -> Result<PathBuf, Fail> {
    let temp = env::temp_dir(rt)?;
    let dir = temp.as_path().join(rt.alloc(), name)?;
    let _ = fs::remove_dir_all(rt, dir.as_path());
    fs::create_dir(rt, dir.as_path())?;
    Ok(dir)
}

static NAMES: [&str; 10] = [
    "00000010",
    "2",
    "x1",
    "1",
    "00000001",
    "123456789",
    "01",
    "1.tmp",
    "-1",
    "00000000",
];

/// Writes a file that holds its name and a space.
pub(crate) fn write_name(rt: &HostRuntime, dir: &str, name: &str) -> Result<(), Fail> {
    let path = Path::new(dir).join(rt.alloc(), name)?;
    let text = format!(in rt.alloc(); "{name} ")?;
    fs::write(rt, path, text)?;
    Ok(())
}

fn write_names(rt: &HostRuntime, dir: &str) -> Result<(), Fail> {
    for name in &NAMES {
        write_name(rt, dir, name)?;
    }
    Ok(())
}

/// Each file holds its name and a space.
#[test]
fn segments_come_by_number(rt: HostRuntime) -> Result<(), Fail> {
    let dir = new_folder(&rt, "rwship-segments-come-by-number")?;
    write_names(&rt, dir.as_str())?;
    let is_so = holds(&rt, dir.as_str(), b"00000000 1 01 00000001 2 00000010 ")?;
    fs::remove_dir_all(&rt, dir.as_path())?;
    assert!(rt; is_so);
    Ok(())
}

/// Bytes that no single read gives.
fn put_long(text: &mut Vec<u8>) -> Result<(), AllocError> {
    for k in 0..300_000_u32 {
        text.push((k % 251) as u8)?;
    }
    Ok(())
}

/// Returns whether a file of the folder is read as it was written.
fn is_read_back(rt: &HostRuntime, dir: &str, text: &[u8]) -> Result<bool, Fail> {
    fs::write(rt, Path::new(dir).join(rt.alloc(), "00000000")?, text)?;
    Ok(holds(rt, dir, text)?)
}

#[test]
fn a_long_file_is_read_to_its_end(rt: HostRuntime) -> Result<(), Fail> {
    let mut text = Vec::new(rt.alloc());
    put_long(&mut text)?;
    let dir = new_folder(&rt, "rwship-a-long-file-is-read-to-its-end")?;
    let is_so = is_read_back(&rt, dir.as_str(), &text)?;
    fs::remove_dir_all(&rt, dir.as_path())?;
    assert!(rt; is_so);
    Ok(())
}

#[test]
fn a_missing_folder_cannot_be_read(rt: HostRuntime) -> Result<(), Fail> {
    let is_refused = match segment_files(&rt, "/no such folder", None) {
        Err(FolderFault::Unreadable) => true,
        _ => false,
    };
    assert!(rt; is_refused);
    Ok(())
}

/// Returns receivers that take each request at once.
pub(crate) fn ready<R: Copy>(clock: &R) -> Receivers<R> {
    Receivers {
        clock: *clock,
        status: StatusCode::NO_CONTENT,
        takes: Duration::ZERO,
        requests: u64::MAX,
        epochs: 1,
    }
}

/// Writes two segments of one entry each, which is a series.
fn write_two(rt: &HostRuntime, dir: &str) -> Result<(), Fail> {
    let bytes = segment(rt.alloc(), b"series 1 {__name__=\"up\"}\n")?;
    for name in ["00000000", "00000001"] {
        fs::write(rt, Path::new(dir).join(rt.alloc(), name)?, bytes.as_slice())?;
    }
    Ok(())
}

fn have_changed(rt: &HostRuntime, dir: Path<'_>, changes: &[Change]) {
    for change in changes {
        has_changed(rt, dir, *change);
    }
}

/// Lists the segments of a folder, lets this happen to it, and sends what was listed.
fn send_listed<R: Threads + Wait + Clock + Copy + Send + 'static>(
    rt: &HostRuntime,
    threads: &R,
    dir: Path<'_>,
    changes: &[Change],
    printed: &mut Room,
) -> Result<Result<(), ToolFault>, AllocError> {
    let alloc = rt.alloc();
    let counters = SendCounters::new(alloc)?;
    let stop = StopFlag::new(alloc)?;
    let settings = settings_of(alloc, b"")?;
    let segments = segments_in(rt, dir.as_str());
    have_changed(rt, dir, changes);
    let options = SendOptions {
        connect: ready(threads),
        counters: &counters,
        max_batch_bytes: None,
        max_skew: None,
        reading: LogOptions::without_labels(false),
        stop,
    };
    Ok(run_send(threads, alloc, settings, segments, options, printed))
}

/// A name, what happens to a folder of two segments once they are listed, the answer, and what is
/// printed.
type Row<'a> = (&'static str, &'a [Change], Result<(), ToolFault>, &'a [u8]);

fn does<R: Threads + Wait + Clock + Copy + Send + 'static>(
    rt: &HostRuntime,
    threads: &R,
    row: &Row<'_>,
) -> Result<bool, Fail> {
    let dir = new_folder(rt, "rwship-what-is-gone-is-no-end")?;
    write_two(rt, dir.as_str())?;
    let mut printed = Room::new(rt.alloc(), 4096)?;
    let answer = send_listed(rt, threads, dir.as_path(), row.1, &mut printed)?;
    Ok(answer == row.2 && printed.as_slice() == row.3)
}

fn wrong_row<R: Threads + Wait + Clock + Copy + Send + 'static>(
    rt: &HostRuntime,
    threads: &R,
    rows: &[Row<'_>],
) -> Result<Option<&'static str>, Fail> {
    for row in rows {
        if !does(rt, threads, row)? {
            return Ok(Some(row.0));
        }
    }
    Ok(None)
}

static LISTED: [Row<'static>; 3] = [
    ("nothing", &[], Ok(()), b"filtered 0\nreport complete 2\n"),
    (
        "the second segment is gone",
        &[Goes("00000001")],
        Err(ToolFault::Device),
        b"filtered 0\nreport abandoned 1\n",
    ),
    (
        "a folder in its place",
        &[Goes("00000001"), Dir("00000001")],
        Err(ToolFault::Device),
        b"filtered 0\nreport abandoned 1\n",
    ),
];

/// The second segment is gone, or there is a folder in its place.
#[test]
fn what_is_gone_is_no_end(rt: HostRuntime) -> Result<(), Fail> {
    none_is_wrong(&rt, wrong_row(&rt, &rt, &LISTED)?);
    Ok(())
}
