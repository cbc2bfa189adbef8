//! Journals in the files of a folder: what they write, cut and sync, and what is there after each
//! call of a device failed in turn.

ghost use Rattle.std.specs.Prelude.{OnOk};
ghost use Rattle.rw_kept_log.specs.Journal.{Only};

use crate::failing_files::{Countdown, FailingFiles};
use crate::folder_journals::{STRICT, make_folder};
use crate::texts::{open_folder, read_folder};
use rw_kept_folder::FolderMonitor;
use rw_kept_log::{Journal, JournalError};
use std::fs;
use std::path::Path;
use std::rt::Files;
use std::test::Fail;
use std::time::Clock;

/// Returns whether a file of a folder has this text; `None` means that it does not exist.
pub(crate) fn has_text(rt: &HostRuntime, dir: Path<'_>, file: &str, text: Option<&str>) -> bool {
    let Ok(path) = dir.join(rt.alloc(), file) else {
        return false;
    };
    match (fs::read(rt, path), text) {
        (Ok(bytes), Some(text)) => bytes.as_slice() == text.as_bytes(),
        (Err(_), None) => true,
        _ => false,
    }
}

/// Writes a segment, and begins the next one.
fn write_segment<J: Journal>(journal: &mut J, text: &str) -> Result<(), JournalError>
    requires { Only (J.seen journal.old) (J.may_leave journal.old) }
    ensures { OnOk result (Only (J.seen journal.new) (J.may_leave journal.new)) }
{
    journal.append(text.as_bytes())?;
    journal.sync()?;
    journal.begin()
}

/// Returns whether these are the texts of two segments, as they were written.
fn are_whole(texts: &[Vec<u8>]) -> bool {
    texts.len() == 2
        && texts[0].as_slice() == b"abc".as_slice()
        && texts[1].as_slice() == b"de".as_slice()
}

/// Cuts the second segment to a byte, and writes a third one.
fn go_on<J: Journal>(journal: &mut J) -> Result<(), JournalError>
    requires { Only (J.seen journal.old) (J.may_leave journal.old) }
{
    journal.cut(1)?;
    journal.sync()?;
    journal.begin()?;
    write_segment(journal, "fgh")
}

/// How it ends to open a folder and to go on.
#[derive(Clone, Copy, Debug, PartialEq, Eq)]
enum End {
    Done,
    /// The device failed, and so does a further call.
    Failed,
    /// Other bytes are read, or what failed is not the device, or a call succeeds after it.
    Wrong,
}

/// Opens the folder and goes on.
fn open_and_go_on<R: Files + Clock + AllocGlobal + Copy>(rt: &R, dir: &str) -> End {
    let Ok((journal, texts)) = read_folder(rt, dir, STRICT, FolderMonitor::none()) else {
        return End::Failed;
    };
    if journal.count() != 2 || !are_whole(&texts) {
        return End::Wrong;
    }
    let mut journal = journal;
    match go_on(&mut journal) {
        Ok(()) => End::Done,
        Err(JournalError::Failed) if journal.sync() == Err(JournalError::Failed) => End::Failed,
        _ => End::Wrong,
    }
}

#[test]
fn a_folder_is_written_cut_and_read_again(rt: HostRuntime) -> Result<(), Fail> {
    let dir = make_folder(
        &rt,
        "rwship-a-journal",
        &[("lock", "x"), ("torn-00000007", "y")],
    )?;
    let mut journal = open_folder(&rt, dir.as_path().as_str(), STRICT, FolderMonitor::none())?;
    assert_eq!(rt; journal.count(), 0);
    journal.begin()?;
    write_segment(&mut journal, "abc")?;
    journal.append(b"de")?;
    assert_eq!(rt; open_and_go_on(&rt, dir.as_path().as_str()), End::Done);
    assert!(rt; has_text(&rt, dir.as_path(), "00000000", Some("abc")));
    assert!(rt; has_text(&rt, dir.as_path(), "00000001", Some("d")));
    assert!(rt; has_text(&rt, dir.as_path(), "torn-00000001", Some("e")));
    assert!(rt; has_text(&rt, dir.as_path(), "00000002", Some("fgh")));
    assert!(rt; has_text(&rt, dir.as_path(), "00000003", Some("")));
    fs::remove_dir_all(&rt, dir.as_path())?;
    Ok(())
}

/// Two segments that a receiver wrote, and its mark.
static RECEIVED: [(&str, &str); 3] = [
    ("00000000", "abc"),
    ("00000001", "de"),
    ("rwship-receive", ""),
];

/// What may be there after a call has failed: the first segment is whole, the second one is cut
/// only if its end was set aside, and the third one is written only after that.
fn is_kept(rt: &HostRuntime, dir: Path<'_>) -> bool {
    let is_cut = has_text(rt, dir, "00000001", Some("d"));
    let is_uncut = has_text(rt, dir, "00000001", Some("de"));
    let is_aside = has_text(rt, dir, "torn-00000001", Some("e"));
    let has_no_third = has_text(rt, dir, "00000002", None);
    has_text(rt, dir, "00000000", Some("abc")) && (is_cut && is_aside || is_uncut && has_no_third)
}

/// Whether a folder can be opened again, has the first two segments as they were or the second one
/// cut, and no copy of a segment.
fn is_opened_again(rt: &HostRuntime, dir: Path<'_>) -> bool {
    let opened = read_folder(rt, dir.as_str(), STRICT, FolderMonitor::none());
    let Ok((journal, texts)) = opened else {
        return false;
    };
    if journal.count() < 2 || texts.len() < 2 {
        return false;
    }
    let second = texts[1].as_slice();
    texts[0].as_slice() == b"abc".as_slice()
        && (second == b"d".as_slice() || second == b"de".as_slice())
        && has_text(rt, dir, "00000001.tmp", None)
}

/// Has each call of the device fail in turn. Returns how many there are, or `None` if one of them
/// is passed over or loses what is kept.
fn fail_each_call(rt: &HostRuntime) -> Result<Option<u64>, Fail> {
    for call in 0..1000u64 {
        let dir = make_folder(rt, "rwship-a-failing-journal", &RECEIVED)?;
        let countdown = Countdown::new(call);
        let failing = FailingFiles {
            rt: *rt,
            countdown: &countdown,
        };
        let end = open_and_go_on(&failing, dir.as_path().as_str());
        let is_kept = is_kept(rt, dir.as_path()) && is_opened_again(rt, dir.as_path());
        fs::remove_dir_all(rt, dir.as_path())?;
        match end {
            End::Failed if is_kept && countdown.has_failed() => {}
            End::Done if is_kept && !countdown.has_failed() => return Ok(Some(call)),
            _ => return Ok(None),
        }
    }
    Ok(None)
}

#[test]
fn a_call_that_fails_loses_nothing(rt: HostRuntime) -> Result<(), Fail> {
    let calls = fail_each_call(&rt)?;
    assert!(rt; calls > Some(30));
    Ok(())
}

/// Both segments are synced as they are read, then the copy of the last one and the folder; the
/// copy of what is cut and the folder, and the cut; the folder after each of two begun segments;
/// and what is appended, a byte at a time.
#[test]
fn what_is_read_and_written_is_synced(rt: HostRuntime) -> Result<(), Fail> {
    let dir = make_folder(&rt, "rwship-a-synced-journal", &RECEIVED)?;
    let countdown = Countdown::endless();
    let counted = FailingFiles {
        rt,
        countdown: &countdown,
    };
    let end = open_and_go_on(&counted, dir.as_path().as_str());
    let is_written = has_text(&rt, dir.as_path(), "00000002", Some("fgh"));
    fs::remove_dir_all(&rt, dir.as_path())?;
    assert_eq!(rt; end, End::Done);
    assert!(rt; is_written);
    assert_eq!(rt; countdown.syncs(), (2 + 1 + 1, 2 + 2 + 2));
    Ok(())
}

/// A sync has failed, so that of `abc` only `a` is on the disk. The bytes are read from memory
/// again, and then lost with it: they are those of the file that was there, which has a second
/// name.
fn lose_memory(rt: &HostRuntime, dir: Path<'_>, aside: Path<'_>) -> Result<(), Fail> {
    let alloc = rt.alloc();
    let file = dir.join(alloc, "00000000")?;
    let other = aside.join(alloc, "00000000")?;
    fs::hard_link(rt, file.as_path(), other.as_path())?;
    let journal = open_folder(rt, dir.as_str(), STRICT, FolderMonitor::none())?;
    fs::write(rt, other.as_path(), "a")?;
    drop(journal);
    Ok(())
}

#[test]
fn what_was_read_is_on_the_disk_once_a_journal_is_opened(rt: HostRuntime) -> Result<(), Fail> {
    let files = [
        ("00000000", "abc"),
        ("00000000.tmp", "an earlier start"),
        ("rwship-receive", ""),
    ];
    let dir = make_folder(&rt, "rwship-a-lost-journal", &files)?;
    let aside = make_folder(&rt, "rwship-a-lost-file", &[])?;
    lose_memory(&rt, dir.as_path(), aside.as_path())?;
    let is_whole = has_text(&rt, dir.as_path(), "00000000", Some("abc"));
    let has_no_copy = has_text(&rt, dir.as_path(), "00000000.tmp", None);
    fs::remove_dir_all(&rt, dir.as_path())?;
    fs::remove_dir_all(&rt, aside.as_path())?;
    assert!(rt; is_whole);
    assert!(rt; has_no_copy);
    Ok(())
}

/// Begins a segment and syncs three bytes, and has each call fail in turn in writing more. Returns
/// what the segment is then, at the first call that is not made.
fn fail_each_write(rt: &HostRuntime) -> Result<bool, Fail> {
    for call in 0..100u64 {
        let dir = make_folder(rt, "rwship-a-cut-journal", &[])?;
        let countdown = Countdown::endless();
        let failing = FailingFiles {
            rt: *rt,
            countdown: &countdown,
        };
        let mut journal = open_folder(
            &failing,
            dir.as_path().as_str(),
            STRICT,
            FolderMonitor::none(),
        )?;
        journal.begin()?;
        journal.append(b"abc")?;
        journal.sync()?;
        countdown.fail_at(call);
        let is_written = journal.append(b"def").is_ok() && journal.sync().is_ok();
        let is_whole = has_text(rt, dir.as_path(), "00000000", Some("abcdef"));
        let is_cut = has_text(rt, dir.as_path(), "00000000", Some("abc"));
        drop(journal);
        fs::remove_dir_all(rt, dir.as_path())?;
        if is_written {
            return Ok(is_whole && !countdown.has_failed());
        }
        if !is_cut {
            return Ok(false);
        }
    }
    Ok(false)
}

#[test]
fn what_a_failed_sync_left_is_cut_off(rt: HostRuntime) -> Result<(), Fail> {
    let are_cut = fail_each_write(&rt)?;
    assert!(rt; are_cut);
    Ok(())
}
