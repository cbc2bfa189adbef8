//! The position of a sender: its text, what is read in place of the bytes before it, which segments
//! come after it, and in which order its file is replaced.

use crate::failing_files::{Countdown, FailingFiles};
use crate::failing_folders::has_text;
use crate::folder_journals::make_folder;
use rw_resume::{
    Continuation, Position, PositionFault, PositionFile, PositionFiles, find_continuation,
    front_for, read_position, write_position,
};
use std::alloc::{AllocError, Global};
use std::fs;
use std::path::Path;
use std::test::Fail;

/// The text of a position.
const TEXT: &[u8] = b"rwship position 1
log /var/lib/prometheus/wal
segment 17
bytes 4096000
end
";

/// Returns that position.
fn position_of_text(alloc: Global) -> Result<Position, AllocError> {
    Ok(Position {
        log: String::from_str(alloc, "/var/lib/prometheus/wal")?,
        segment: 17,
        bytes: 4_096_000,
    })
}

/// Returns whether a text is that of this position.
fn is_read_as(alloc: Global, text: &[u8], position: &Position) -> Result<bool, AllocError> {
    Ok(match read_position(alloc, text)? {
        Some(read) => {
            read.log.as_str() == position.log.as_str()
                && read.segment == position.segment
                && read.bytes == position.bytes
        }
        None => false,
    })
}

#[test]
fn a_position_is_five_lines(rt: HostRuntime) -> Result<(), Fail> {
    let alloc = rt.alloc();
    let position = position_of_text(alloc)?;
    let text = position.text(alloc)?;
    assert!(rt; text.as_slice() == TEXT);
    assert!(rt; is_read_as(alloc, TEXT, &position)?);
    Ok(())
}

/// Texts that are those of no position.
static NO_POSITIONS: [(&str, &[u8]); 14] = [
    (
        "another version",
        b"rwship position 2\nlog /wal\nsegment 7\nbytes 0\nend\n",
    ),
    (
        "a blank line before the first one",
        b"\nrwship position 1\nlog /wal\nsegment 7\nbytes 0\nend\n",
    ),
    (
        "a digit 0 before the bytes",
        b"rwship position 1\nlog /wal\nsegment 7\nbytes 07\nend\n",
    ),
    (
        "a digit 0 before the segment",
        b"rwship position 1\nlog /wal\nsegment 07\nbytes 0\nend\n",
    ),
    (
        "a sign",
        b"rwship position 1\nlog /wal\nsegment 7\nbytes +7\nend\n",
    ),
    (
        "a number of 65 bits",
        b"rwship position 1\nlog /wal\nsegment 18446744073709551616\nbytes 0\nend\n",
    ),
    (
        "a line after the last one",
        b"rwship position 1\nlog /wal\nsegment 7\nbytes 0\nend\nend\n",
    ),
    (
        "a line in between",
        b"rwship position 1\nlog /wal\nsegment 7\nbytes 0\nbytes 0\nend\n",
    ),
    ("no log", b"rwship position 1\nsegment 7\nbytes 0\nend\n"),
    (
        "another order",
        b"rwship position 1\nlog /wal\nbytes 0\nsegment 7\nend\n",
    ),
    (
        "lines that end in a carriage return",
        b"rwship position 1\r\nlog /wal\r\nsegment 7\r\nbytes 0\r\nend\r\n",
    ),
    (
        "a space at the end of a line",
        b"rwship position 1\nlog /wal\nsegment 7 \nbytes 0\nend\n",
    ),
    (
        "no end of the last line",
        b"rwship position 1\nlog /wal\nsegment 7\nbytes 0\nend",
    ),
    (
        "a byte that is not UTF-8",
        b"rwship position 1\nlog /w\xffl\nsegment 7\nbytes 0\nend\n",
    ),
];

/// Returns the name of the first text that is taken for that of a position.
fn taken_text(alloc: Global) -> Result<Option<&'static str>, AllocError> {
    for row in &NO_POSITIONS {
        let (name, text) = *row;
        if read_position(alloc, text)?.is_some() {
            return Ok(Some(name));
        }
    }
    Ok(None)
}

#[test]
fn a_text_that_was_changed_is_no_position(rt: HostRuntime) -> Result<(), Fail> {
    let taken = taken_text(rt.alloc())?;
    assert_eq!(rt; taken, None);
    Ok(())
}

/// Returns the length of the first proper prefix of the text that is taken for that of a position.
fn taken_prefix(alloc: Global) -> Result<Option<usize>, AllocError> {
    for len in 0..TEXT.len() {
        if read_position(alloc, &TEXT[..len])?.is_some() {
            return Ok(Some(len));
        }
    }
    Ok(None)
}

#[test]
fn a_text_that_was_cut_short_is_no_position(rt: HostRuntime) -> Result<(), Fail> {
    let taken = taken_prefix(rt.alloc())?;
    assert_eq!(rt; taken, None);
    Ok(())
}

/// How many bytes come before a position, and how many are read in place of them, if there is a
/// record so long.
static FRONTS: [(u64, Option<usize>); 15] = [
    (0, Some(0)),
    (1, None),
    (7, None),
    (8, Some(8)),
    (9, Some(9)),
    (100, Some(100)),
    (32_761, Some(32_761)),
    (32_762, None),
    (32_767, None),
    (32_768, Some(0)),
    (32_768 + 3, None),
    (32_768 + 8, Some(8)),
    (32_768 + 100, Some(100)),
    (65_536 - 6, None),
    (134_217_728, Some(0)),
];

/// Returns whether bytes are a fragment of type 1, a whole record, whose type is 3, or nothing.
fn is_record_of_tombstones(front: &[u8]) -> bool {
    if front.is_empty() {
        return true;
    }
    front.len() > 7 && front[0] == 1 && front[7] == 3
}

/// Returns the first number of bytes in whose place something else is read.
fn wrong_front(alloc: Global) -> Result<Option<u64>, AllocError> {
    for row in &FRONTS {
        let (count, len) = *row;
        let is_right = match (front_for(alloc, count)?, len) {
            (Some(front), Some(len)) => front.len() == len && is_record_of_tombstones(&front),
            (None, None) => true,
            _ => false,
        };
        if !is_right {
            return Ok(Some(count));
        }
    }
    Ok(None)
}

#[test]
fn a_front_ends_at_the_same_place_of_a_page(rt: HostRuntime) -> Result<(), Fail> {
    let wrong = wrong_front(rt.alloc())?;
    assert_eq!(rt; wrong, None);
    Ok(())
}

/// A log, the segment that comes next, and what the log has of it.
struct Next {
    name: &'static str,
    segment: u64,
    checkpoint: Option<u64>,
    numbers: &'static [u64],
    expected: Continuation,
}

static NEXTS: [Next; 10] = [
    Next {
        name: "the only segment",
        segment: 7,
        checkpoint: None,
        numbers: &[7],
        expected: Continuation::There,
    },
    Next {
        name: "one between others, in no order",
        segment: 7,
        checkpoint: None,
        numbers: &[8, 6, 7, 5],
        expected: Continuation::There,
    },
    Next {
        name: "the first one after a checkpoint",
        segment: 7,
        checkpoint: Some(6),
        numbers: &[7, 8],
        expected: Continuation::There,
    },
    Next {
        name: "one that is missing between others",
        segment: 7,
        checkpoint: None,
        numbers: &[6, 8],
        expected: Continuation::Gone { first: 7, last: 7 },
    },
    Next {
        name: "three that are missing, in no order",
        segment: 7,
        checkpoint: None,
        numbers: &[12, 10, 11],
        expected: Continuation::Gone { first: 7, last: 9 },
    },
    Next {
        name: "one that a checkpoint has replaced",
        segment: 7,
        checkpoint: Some(7),
        numbers: &[8],
        expected: Continuation::Gone { first: 7, last: 7 },
    },
    Next {
        name: "several that a checkpoint has replaced, which has nothing after it",
        segment: 7,
        checkpoint: Some(9),
        numbers: &[],
        expected: Continuation::Gone { first: 7, last: 9 },
    },
    Next {
        name: "one that is missing after a checkpoint",
        segment: 7,
        checkpoint: Some(6),
        numbers: &[9, 8],
        expected: Continuation::Gone { first: 7, last: 7 },
    },
    Next {
        name: "no segment",
        segment: 0,
        checkpoint: None,
        numbers: &[],
        expected: Continuation::Ended,
    },
    Next {
        name: "only earlier ones",
        segment: 7,
        checkpoint: Some(4),
        numbers: &[5, 6],
        expected: Continuation::Ended,
    },
];

/// Returns the name of the first log of which something else is found.
fn wrong_continuation() -> Option<&'static str> {
    for row in &NEXTS {
        if find_continuation(row.segment, row.checkpoint, row.numbers) != row.expected {
            return Some(row.name);
        }
    }
    None
}

#[test]
fn what_a_log_has_after_a_position(rt: HostRuntime) {
    assert_eq!(rt; wrong_continuation(), None);
}

/// The files of a position, of which one call fails. The calls are recorded in order.
#[derive(Drop)]
struct Recorded<'a> {
    files: PositionFile<FailingFiles<'a, HostRuntime>>,
    countdown: &'a Countdown,
    /// How many calls come before the one that fails.
    left: u64,
    calls: String,
}

impl Recorded<'_> {
    ghost use Rattle.std.specs.Prelude.{◌≡◌};

    /// Records a call, and has the device fail in it if it is the one that fails.
    fn record(&mut self, call: &str)
        ensures { self.new.files ≡ self.old.files }
    {
        if self.left == 0 {
            self.countdown.fail_at(0);
        }
        self.left = self.left.wrapping_sub(1);
        let _ = self.calls.push_str(call);
    }
}

impl PositionFiles for Recorded<'_> {
    ghost state = { λ r. r.files };

    fn write_copy(&mut self, text: &[u8]) -> Result<(), PositionFault> {
        self.record("write ");
        self.files.write_copy(text)
    }

    fn sync_copy(&mut self) -> Result<(), PositionFault> {
        self.record("sync ");
        self.files.sync_copy()
    }

    fn rename_copy(&mut self) -> Result<(), PositionFault> {
        self.record("rename ");
        self.files.rename_copy()
    }

    fn sync_folder(&mut self) -> Result<(), PositionFault> {
        self.record("folder ");
        self.files.sync_folder()
    }
}

/// How the file is replaced if one call fails.
struct Replacement {
    name: &'static str,
    /// How many calls come before the one that fails.
    before: u64,
    calls: &'static str,
    outcome: Result<(), PositionFault>,
    /// How often the copy or the folder is synced.
    syncs: u64,
    /// What the file then has.
    text: &'static str,
}

static REPLACEMENTS: [Replacement; 5] = [
    Replacement {
        name: "the copy cannot be written",
        before: 0,
        calls: "write ",
        outcome: Err(PositionFault::Failed),
        syncs: 0,
        text: "old",
    },
    Replacement {
        name: "the copy cannot be synced",
        before: 1,
        calls: "write sync ",
        outcome: Err(PositionFault::Failed),
        syncs: 0,
        text: "old",
    },
    Replacement {
        name: "the copy cannot be renamed",
        before: 2,
        calls: "write sync rename ",
        outcome: Err(PositionFault::Failed),
        syncs: 1,
        text: "old",
    },
    Replacement {
        name: "the folder cannot be synced",
        before: 3,
        calls: "write sync rename folder ",
        outcome: Err(PositionFault::Failed),
        syncs: 1,
        text: "new",
    },
    Replacement {
        name: "no call fails",
        before: 4,
        calls: "write sync rename folder ",
        outcome: Ok(()),
        syncs: 2,
        text: "new",
    },
];

/// Returns whether the file in a folder is replaced as a row says.
fn is_replaced(rt: &HostRuntime, dir: Path<'_>, row: &Replacement) -> Result<bool, Fail> {
    let alloc = rt.alloc();
    let countdown = Countdown::endless();
    let failing = FailingFiles {
        rt: *rt,
        countdown: &countdown,
    };
    let path = dir.join(alloc, "position")?;
    let mut files = Recorded {
        files: PositionFile::new(failing, path.as_path().as_str())?,
        countdown: &countdown,
        left: row.before,
        calls: String::new(alloc),
    };
    let outcome = write_position(&mut files, b"new");
    Ok(
        outcome == row.outcome
            && files.calls.as_str() == row.calls
            && countdown.syncs() == (0, row.syncs)
            && has_text(rt, dir, "position", Some(row.text)),
    )
}

/// Returns the name of the first row that does not hold.
fn wrong_replacement(rt: &HostRuntime) -> Result<Option<&'static str>, Fail> {
    for row in &REPLACEMENTS {
        let dir = make_folder(rt, "rwship-a-position", &[("position", "old")])?;
        let is_so = is_replaced(rt, dir.as_path(), row)?;
        fs::remove_dir_all(rt, dir.as_path())?;
        if !is_so {
            return Ok(Some(row.name));
        }
    }
    Ok(None)
}

#[test]
fn a_position_is_replaced_in_order(rt: HostRuntime) -> Result<(), Fail> {
    assert_eq!(rt; wrong_replacement(&rt)?, None);
    Ok(())
}

/// Returns whether the file of this name in a folder is read as this text, or as none if there is
/// no such file.
fn is_file_read(
    rt: &HostRuntime,
    dir: Path<'_>,
    name: &str,
    text: Option<&str>,
) -> Result<bool, Fail> {
    let path = dir.join(rt.alloc(), name)?;
    let file = PositionFile::new(*rt, path.as_path().as_str())?;
    Ok(match (file.read()?, text) {
        (Some(read), Some(text)) => read.as_slice() == text.as_bytes(),
        (None, None) => true,
        _ => false,
    })
}

/// A crash has left a copy beside the file.
#[test]
fn a_position_is_read_from_its_file(rt: HostRuntime) -> Result<(), Fail> {
    let files = [("position", "old"), ("position.tmp", "ne")];
    let dir = make_folder(&rt, "rwship-a-kept-position", &files)?;
    let is_so = is_file_read(&rt, dir.as_path(), "position", Some("old"))?;
    let is_none = is_file_read(&rt, dir.as_path(), "another", None)?;
    fs::remove_dir_all(&rt, dir.as_path())?;
    assert!(rt; is_so && is_none);
    Ok(())
}
