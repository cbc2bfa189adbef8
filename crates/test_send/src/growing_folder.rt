//! A folder that is followed while files come and grow.

use crate::countdown::Countdown;
use crate::folder::{new_folder, ready, write_name};
use crate::kept::{Kept, follow_into};
use crate::shipped::settings_of;
use Change::{Dir, Goes, Grows, Nothing};
use rw_follow::{SegmentError, StopRequest, Watch};
use rw_log_folder::Folder;
use rw_metrics::SendCounters;
use rw_send::{FollowFault, LogOptions, RunFault, SendOptions, StopFlag, run_follow};
use rw_text::ToolFault;
use rw_types::Room;
use std::alloc::{AllocError, Global};
use std::fs;
use std::fs::{File, OpenOptions};
use std::io::Write;
use std::path::{Path, PathBuf};
use std::rt::Files;
use std::sync::{Arc, Wait};
use std::test::Fail;
use std::thread::Threads;
use std::time::Clock;

/// What happens to a folder.
#[derive(Clone, Copy)]
pub(crate) enum Change {
    Nothing,
    /// A file grows by these bytes. It is created if it does not exist.
    Grows(&'static str, &'static [u8]),
    /// A file goes.
    Goes(&'static str),
    /// A folder comes.
    Dir(&'static str),
}

/// Returns the text of a file that is being extended.
fn has_grown<R: Files<File = File>>(rt: &R, path: Path<'_>, bytes: &[u8]) -> bool {
    let mut options = OpenOptions::new();
    options.append(true).create(true);
    match options.open(rt, path) {
        Ok(mut file) => file.write_all(bytes).is_ok(),
        Err(_) => false,
    }
}

pub(crate) fn has_changed<R: Files<File = File> + AllocGlobal>(
    rt: &R,
    dir: Path<'_>,
    change: Change,
) -> bool {
    match change {
        Nothing => true,
        Grows(name, bytes) => match dir.join(rt.alloc(), name) {
            Ok(path) => has_grown(rt, path.as_path(), bytes),
            Err(_) => false,
        },
        Goes(name) => match dir.join(rt.alloc(), name) {
            Ok(path) => fs::remove_file(rt, path.as_path()).is_ok(),
            Err(_) => false,
        },
        Dir(name) => match dir.join(rt.alloc(), name) {
            Ok(path) => fs::create_dir(rt, path.as_path()).is_ok(),
            Err(_) => false,
        },
    }
}

/// Makes a change at each look, and asks to finish after the last one, or to end at once if one
/// cannot be made.
#[derive(Drop)]
struct Writer<R> {
    rt: R,
    dir: PathBuf,
    changes: &'static [Change],
    at: usize,
    said: StopRequest,
}

impl<R: Files<File = File> + AllocGlobal> Writer<R> {
    /// Makes the next change, and returns what is asked for then.
    fn next(&mut self) -> StopRequest {
        if self.at >= self.changes.len() {
            return StopRequest::Finish;
        }
        let change = self.changes[self.at];
        self.at += 1;
        if has_changed(&self.rt, self.dir.as_path(), change) {
            StopRequest::Continue
        } else {
            StopRequest::Abort
        }
    }
}

impl<R: Files<File = File> + AllocGlobal> Watch for Writer<R> {
    ghost use Rattle.std.specs.Prelude.{false};

    ghost said = { λ w. w.said };

    ghost due = { λ _. false };

    ghost is_quiet = { λ _. false };

    ghost counts = { λ _. ⊥ };

    ghost sleeps = { λ _. 0 };

    fn stop_request(&mut self) -> StopRequest {
        self.said = self.next();
        self.said
    }

    fn sleep(&mut self) {}

    fn is_flush_due(&mut self) -> bool {
        false
    }

    fn is_reshard_due(&mut self) -> bool {
        false
    }
}

/// Returns what was read, with a bar after each segment that is over, and at the end the number
/// that is missing or a point.
fn text_of(alloc: Global, kept: &Kept, end: Option<u64>) -> Result<String, AllocError> {
    let mut text = Vec::new(alloc);
    for segment in &kept.whole {
        text.extend_from_slice(segment)?;
        text.push(b'|')?;
    }
    text.extend_from_slice(&kept.begun)?;
    let fed = String::from_utf8_lossy(alloc, &text)?;
    match end {
        Some(number) => format!(in alloc; "{fed} {number}"),
        None => format!(in alloc; "{fed}."),
    }
}

/// Follows a folder in which these changes happen.
fn followed<W: Wait>(
    rt: &HostRuntime,
    waits: &W,
    dir: PathBuf,
    changes: &'static [Change],
) -> Result<String, AllocError> {
    let alloc = rt.alloc();
    let mut buf = [0u8; 3];
    let counters = Arc::new(alloc, SendCounters::new(alloc)?)?;
    let mut folder = Folder::new(*rt, String::from_str(alloc, dir.as_str())?, counters);
    let mut writer = Writer {
        rt: *rt,
        dir,
        changes,
        at: 0,
        said: StopRequest::Continue,
    };
    let mut kept = Kept::new(alloc);
    let end = match follow_into(waits, &mut kept, &mut folder, &mut writer, &mut buf)? {
        Ok(_) => None,
        Err(SegmentError::Missing(number)) => Some(number),
        Err(_) => Some(u64::MAX),
    };
    text_of(alloc, &kept, end)
}

/// Other names are skipped, and what was there before is read first, in order.
static COMES: [Change; 9] = [
    Nothing,
    Grows("checkpoint.00000007", b"x"),
    Grows("00000008", b"ab"),
    Nothing,
    Nothing,
    Grows("00000008", b"cdefg"),
    Nothing,
    Grows("00000009", b"h"),
    Grows("00000010", b""),
];

#[test]
fn files_come_and_grow(rt: HostRuntime) -> Result<(), Fail> {
    let dir = new_folder(&rt, "rwship-files-come-and-grow")?;
    for name in ["00000007", "00000006"] {
        write_name(&rt, dir.as_str(), name)?;
    }
    let text = followed(&rt, &rt, dir, &COMES)?;
    assert_eq!(rt; text.as_str(), "00000006 |00000007 |abcdefg|h|.");
    Ok(())
}

/// A file that is read is removed, and so is the next one before it was seen.
static GOES: [Change; 6] = [
    Grows("00000001", b"a"),
    Nothing,
    Goes("00000001"),
    Grows("00000003", b"c"),
    Nothing,
    Nothing,
];

#[test]
fn a_missing_file_is_told(rt: HostRuntime) -> Result<(), Fail> {
    let dir = new_folder(&rt, "rwship-a-missing-file-is-reported")?;
    let text = followed(&rt, &rt, dir, &GOES)?;
    assert_eq!(rt; text.as_str(), "a 2");
    Ok(())
}

/// Follows a folder by the command `send`, and asks for a stop after some looks.
fn follow_sending<R: Threads + Wait + Clock + Copy + Send + 'static>(
    rt: &HostRuntime,
    threads: &R,
    dir: &str,
    printed: &mut Room,
) -> Result<Result<(), RunFault>, AllocError> {
    let alloc = rt.alloc();
    let counters = SendCounters::new(alloc)?;
    let opened = Arc::new(alloc, SendCounters::new(alloc)?)?;
    let dir = String::from_str(alloc, dir)?;
    let stop = StopFlag::new(alloc)?;
    let settings = settings_of(alloc, b"")?;
    let mut folder = Folder::new(*rt, dir, opened);
    let mut watch = Countdown {
        looks: 5,
        request: StopRequest::Finish,
        flushes: false,
        reshards: false,
        said: StopRequest::Continue,
        sleeps: 0,
    };
    let options = SendOptions {
        connect: ready(threads),
        counters: &counters,
        max_batch_bytes: None,
        max_skew: None,
        reading: LogOptions::without_labels(false),
        stop,
    };
    Ok(run_follow(
        threads,
        alloc,
        settings,
        &mut folder,
        options,
        &mut watch,
        printed,
    ))
}

/// Returns whether following a folder is reported as one that cannot be read.
fn is_unreadable<R: Threads + Wait + Clock + Copy + Send + 'static>(
    rt: &HostRuntime,
    threads: &R,
    dir: &str,
) -> Result<bool, AllocError> {
    let mut printed = Room::new(rt.alloc(), 4096)?;
    let answer = follow_sending(rt, threads, dir, &mut printed)?;
    let is_printed = printed.as_slice() == b"filtered 0\nreport abandoned 0\n".as_slice();
    let fault = FollowFault::Tool(ToolFault::Device);
    Ok(is_printed && answer == Err(RunFault { fault, place: None }))
}

/// A folder can be opened as a file is, but cannot be read so.
#[test]
fn what_cannot_be_read_is_no_quiet_log(rt: HostRuntime) -> Result<(), Fail> {
    let dir = new_folder(&rt, "rwship-what-cannot-be-read-is-no-quiet-log")?;
    let is_made = has_changed(&rt, dir.as_path(), Dir("00000001"));
    assert!(rt;
        is_made && is_unreadable(&rt, &rt, dir.as_str())?,
        "a segment is a folder"
    );
    assert!(rt;
        is_unreadable(&rt, &rt, "/no such folder")?,
        "the folder is not there"
    );
    Ok(())
}
