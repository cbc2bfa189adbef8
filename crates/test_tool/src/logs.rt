//! The command `log`. Records are written out in hexadecimal, field by field.

use crate::rows::{holds, no_number_is_wrong, none_is_wrong};
use Row::{Bad, Good, Segment};
use rw_log_commands::{run_log, run_log_dir};
use rw_test_parts::Taking;
use rw_text::ToolFault;
use rw_types::Room;
use std::alloc::{AllocError, Global};
use std::cell::Cell;
use std::path::PathBuf;
use std::test::Fail;
use std::{env, fs, process};

/// The room of what a run writes.
const ROOM: usize = 1 << 17;

/// Returns the fault of a run over log text.
pub(crate) fn fault(
    alloc: Global,
    text: &[u8],
    writer: &mut Room,
    hex: bool,
    pages: usize,
) -> Option<ToolFault> {
    let mut reader = text;
    run_log(alloc, &mut reader, writer, hex, pages.clamp(1, 4096)).err()
}

const FULL: Option<ToolFault> = Some(ToolFault::SegmentFull);

/// What a row says.
enum Row {
    /// A line of log text, and the record that it stands for.
    Good(&'static str, &'static str),
    /// A line that is not log text.
    Bad(&'static str),
    /// A name, the lengths of `raw` lines, what follows them, the pages of a segment, the fault,
    /// and how many bytes are written.
    Segment(&'static str, &'static [usize], &'static str, usize, Option<ToolFault>, usize),
}

static ROWS: [Row; 67] = [
    Good(
        r#"series 1 {__name__="up"}"#,
        "01 0000000000000001 01 08 5f5f6e616d655f5f 02 7570",
    ),
    Good("series 2 {}", "01 0000000000000002 00"),
    Good(
        r#"series 18446744073709551615 {"a-b"="x\\y\"z\n",a:b=""}"#,
        "01 ffffffffffffffff 02 03 612d62 06 785c79227a0a 03 613a62 00",
    ),
    Good(r#"series 4 {""=""}"#, "01 0000000000000004 01 00 00"),
    Good(
        r#"series 5 {b="{ä= ,}",a="1",a="1"}"#,
        "01 0000000000000005 03 01 62 07 7bc3a43d202c7d 01 61 01 31 01 61 01 31",
    ),
    Good(
        r#"series 6 {"9\"\\\n"="1",__name__="http.rate","säge"="2"}"#,
        "01 0000000000000006 03 04 39225c0a 01 31 08 5f5f6e616d655f5f 09 687474702e72617465 05 73c3a46765 01 32",
    ),
    Good(
        "sample 1 1000 1",
        "02 0000000000000001 00000000000003e8 00 00 3ff0000000000000",
    ),
    Good(
        "sample 007 -0 -0",
        "02 0000000000000007 0000000000000000 00 00 0000000000000000",
    ),
    Good(
        "sample 18446744073709551615 -9223372036854775808 9007199254740992",
        "02 ffffffffffffffff 8000000000000000 00 00 4340000000000000",
    ),
    Good(
        "sample 0 9223372036854775807 -09007199254740992",
        "02 0000000000000000 7fffffffffffffff 00 00 c340000000000000",
    ),
    Good(
        "sample 1 -1 0x8000000000000000",
        "02 0000000000000001 ffffffffffffffff 00 00 8000000000000000",
    ),
    Good(
        "sample 1 0 0x00000000000000ff",
        "02 0000000000000001 0000000000000000 00 00 00000000000000ff",
    ),
    Good("raw 03", "03"),
    Good("raw 01000000ff", "01 00 00 00 ff"),
    Bad(" sample 1 1 1"),
    Bad("sample  1 1 1"),
    Bad("sample 1  1 1"),
    Bad("sample 1 1  1"),
    Bad("sample 1 1 1 "),
    Bad("sample 1 1 1\r"),
    Bad("sample\t1 1 1"),
    Bad("sample 1 1"),
    Bad("sample 1 1 1 1"),
    Bad("Sample 1 1 1"),
    Bad("sample +1 1 1"),
    Bad("sample -1 1 1"),
    Bad("sample 18446744073709551616 1 1"),
    Bad("sample 1 +1 1"),
    Bad("sample 1 - 1"),
    Bad("sample 1 9223372036854775808 1"),
    Bad("sample 1 -9223372036854775809 1"),
    Bad("sample 1 1 +1"),
    Bad("sample 1 1 9007199254740993"),
    Bad("sample 1 1 -9007199254740993"),
    Bad("sample 1 1 1.5"),
    Bad("sample 1 1 1e3"),
    Bad("sample 1 1 0x3FF0000000000000"),
    Bad("sample 1 1 0X3ff0000000000000"),
    Bad("sample 1 1 0x3ff000000000000"),
    Bad("sample 1 1 0x3ff00000000000000"),
    Bad("sample 1 1 -0x3ff0000000000000"),
    Bad("raw"),
    Bad("raw "),
    Bad("raw 0"),
    Bad("raw 0A"),
    Bad("raw 0a 0b"),
    Bad("raw 0x0a"),
    Bad("series 1"),
    Bad("series 1 {"),
    Bad("series 1 {}}"),
    Bad("series 1 {a=\"1\""),
    Bad("series 1 {a=\"1\",}"),
    Bad("series 1 {a=\"1\", b=\"2\"}"),
    Bad("series 1 {a=1}"),
    Bad("series 1 {a=\"\\t\"}"),
    Bad("series 1 {a=\"\\\"}"),
    Bad("series 1 {\"a\"=\"1\"}"),
    Bad("series 1 {a-b=\"1\"}"),
    Bad("series 1 {=\"1\"}"),
    Segment("no lines", &[], "", 1, None, 0),
    Segment("empty lines", &[], "\n\n", 1, None, 0),
    Segment("a full page", &[32_761], "", 1, None, 32_768),
    Segment(
        "a fragment without data",
        &[32_754],
        "raw 02",
        2,
        None,
        32_776,
    ),
    Segment("a byte too much", &[32_762], "", 1, FULL, 0),
    Segment(
        "a bad line after it",
        &[32_762],
        "raw 0\n",
        1,
        Some(ToolFault::Line(2)),
        0,
    ),
    Segment("two full pages", &[65_522], "", 2, None, 65_536),
    Segment("a byte more than those", &[65_523], "", 2, FULL, 0),
];

/// Returns whether a text is this one without its blanks.
fn is_without_blanks(text: &[u8], spaced: &[u8]) -> bool {
    let mut rest = text;
    for byte in spaced {
        if *byte == b' ' {
            continue;
        }
        match rest.split_first() {
            Some((first, behind)) if first == byte => rest = behind,
            _ => return false,
        }
    }
    rest.is_empty()
}

/// Returns what is written of one record: the text of a fragment, with its type, length and CRC,
/// and a newline. The CRC is not compared.
fn is_fragment_of(output: &[u8], rec: &str) -> bool {
    output.len() > 15
        && output.starts_with(b"01")
        && output.ends_with(b"\n")
        && is_without_blanks(&output[14..output.len() - 1], rec.as_bytes())
}

/// Returns whether a line stands for this record.
fn stands_for(alloc: Global, line: &str, rec: &str) -> bool {
    let Ok(mut output) = Room::new(alloc, ROOM) else {
        return false;
    };
    fault(alloc, line.as_bytes(), &mut output, true, 1) == None
        && is_fragment_of(output.as_slice(), rec)
}

/// Puts log text whose fourth line is this one.
fn put_line(text: &mut Vec<u8>, line: &[u8]) -> Result<(), AllocError> {
    text.extend_from_slice(b"\n\nraw 03\n")?;
    text.extend_from_slice(line)?;
    text.extend_from_slice(b"\nraw\n")
}

/// Returns whether a run has this fault or none, and writes this many bytes.
fn fills(
    alloc: Global,
    text: &[u8],
    hex: bool,
    pages: usize,
    wanted: Option<ToolFault>,
    len: usize,
) -> bool {
    let Ok(mut output) = Room::new(alloc, ROOM) else {
        return false;
    };
    fault(alloc, text, &mut output, hex, pages) == wanted && output.as_slice().len() == len
}

/// Returns whether a fault is found in the fourth line, which is this one, and nothing is written.
fn is_refused(alloc: Global, line: &[u8]) -> bool {
    let mut text = Vec::new(alloc);
    put_line(&mut text, line).is_ok() && fills(alloc, &text, true, 1, Some(ToolFault::Line(4)), 0)
}

/// Puts a `raw` line of `len` times byte 3, and its LF.
fn push_run(text: &mut Vec<u8>, len: usize) -> Result<(), AllocError> {
    text.extend_from_slice(b"raw ")?;
    for _ in 0..len {
        text.extend_from_slice(b"03")?;
    }
    text.extend_from_slice(b"\n")
}

/// Puts `raw` lines of these lengths, and what follows them.
fn put_runs(text: &mut Vec<u8>, lens: &[usize], last: &str) -> Result<(), AllocError> {
    for len in lens {
        push_run(text, *len)?;
    }
    text.extend_from_slice(last.as_bytes())
}

/// Returns whether a run over `raw` lines of these lengths, and what follows them, has this fault
/// or none, and writes this many bytes.
fn is_segment(
    alloc: Global,
    lens: &[usize],
    last: &str,
    pages: usize,
    wanted: Option<ToolFault>,
    len: usize,
) -> bool {
    let mut text = Vec::new(alloc);
    put_runs(&mut text, lens, last).is_ok() && fills(alloc, &text, false, pages, wanted, len)
}

fn is_so(alloc: Global, row: &Row) -> bool {
    match row {
        Good(line, rec) => stands_for(alloc, line, rec),
        Bad(line) => is_refused(alloc, line.as_bytes()),
        Segment(_, lens, last, pages, wanted, len) => {
            is_segment(alloc, lens, last, *pages, *wanted, *len)
        }
    }
}

fn rows() -> &'static [Row] {
    &ROWS
}

/// Returns the line or the name of the first row that is wrong.
fn wrong_row(alloc: Global, rows: &[Row]) -> Option<&'static str> {
    for row in rows {
        if !is_so(alloc, row) {
            let (Good(name, _) | Bad(name) | Segment(name, ..)) = row;
            return Some(name);
        }
    }
    None
}

#[test]
fn lines_and_segments(rt: HostRuntime) {
    none_is_wrong(&rt, wrong_row(rt.alloc(), rows()));
    holds(&rt, is_refused(rt.alloc(), b"series 1 {a=\"\xff\"}"));
}

/// Returns whether a writer that takes `left` bytes has them, and the run fails if there are more.
fn fails_after(alloc: Global, left: usize) -> bool {
    let whole = b"010001b34623a602010001b34623a602\n";
    let mut reader = b"raw 02\nraw 02".as_slice();
    let writes = Cell::new(left.saturating_add(1));
    let mut writer = Taking::new(alloc, 1, &writes);
    let ended = run_log(alloc, &mut reader, &mut writer, true, 1);
    let outcome = if left < 33 {
        Err(ToolFault::Device)
    } else {
        Ok(())
    };
    ended == outcome
        && writer.taken.len() == left.min(33)
        && whole.as_slice().starts_with(&writer.taken)
}

/// Returns the number of bytes after which a writer behaves differently.
fn wrong_writer(alloc: Global) -> Option<usize> {
    for left in 0..34 {
        if !fails_after(alloc, left) {
            return Some(left);
        }
    }
    None
}

#[test]
fn fails_with_its_writer(rt: HostRuntime) {
    no_number_is_wrong(&rt, wrong_writer(rt.alloc()));
}

/// Returns the length of a file, if there is one.
fn len_of(rt: &HostRuntime, path: &str) -> Option<usize> {
    match fs::read(rt, path) {
        Ok(bytes) => Some(bytes.len()),
        Err(_) => None,
    }
}

/// Returns whether the file of a folder with this number has this length, or does not exist.
fn has_file(rt: &HostRuntime, dir: &str, number: u32, len: Option<usize>) -> bool {
    match format!(in rt.alloc(); "{dir}/{number:08}") {
        Ok(path) => len_of(rt, path.as_str()) == len,
        Err(_) => false,
    }
}

/// Returns whether `raw` lines of these lengths are logged into a folder with this fault, or none.
fn logs_into(
    rt: &HostRuntime,
    dir: &str,
    lens: &[usize],
    pages: usize,
    wanted: Option<ToolFault>,
) -> bool {
    let mut text = Vec::new(rt.alloc());
    let is_put = put_runs(&mut text, lens, "").is_ok();
    let mut reader = text.as_slice();
    let pages = pages.clamp(1, 4096);
    is_put && run_log_dir(rt, rt.alloc(), &mut reader, dir, pages).err() == wanted
}

/// `raw` lines of these lengths, and what they become.
struct Folder {
    name: &'static str,
    lens: &'static [usize],
    /// The pages of a segment.
    pages: usize,
    fault: Option<ToolFault>,
    /// The lengths of the first three files of the folder.
    files: [Option<usize>; 3],
}

static FOLDERS: [Folder; 4] = [
    Folder {
        name: "no lines",
        lens: &[],
        pages: 1,
        fault: None,
        files: [Some(0), None, None],
    },
    Folder {
        name: "three segments",
        lens: &[32_760, 32_754, 1],
        pages: 1,
        fault: None,
        files: [Some(32_768), Some(32_761), Some(8)],
    },
    Folder {
        name: "a record that is too long",
        lens: &[1, 32_762],
        pages: 1,
        fault: FULL,
        files: [Some(32_768), Some(32_761), Some(8)],
    },
    Folder {
        name: "larger segments",
        lens: &[32_760, 32_754, 1],
        pages: 3,
        fault: None,
        files: [Some(65_544), Some(32_761), Some(8)],
    },
];

/// Returns whether the first three files of a folder have these lengths.
fn has_files(rt: &HostRuntime, dir: &str, lens: [Option<usize>; 3]) -> bool {
    has_file(rt, dir, 0, lens[0]) && has_file(rt, dir, 1, lens[1]) && has_file(rt, dir, 2, lens[2])
}

/// Returns the first row after which the folder has other files, or another fault.
fn wrong_folder(rt: &HostRuntime, dir: &str) -> Option<&'static str> {
    for it in &FOLDERS {
        if !logs_into(rt, dir, it.lens, it.pages, it.fault) || !has_files(rt, dir, it.files) {
            return Some(it.name);
        }
    }
    None
}

/// Returns a folder of this test alone, which does not exist yet.
fn new_folder(rt: &HostRuntime) -> Result<PathBuf, Fail> {
    let temp = env::temp_dir(rt)?;
    let name = format!(in rt.alloc(); "rwship-log-test-{}", process::id(rt.process()))?;
    Ok(temp.join(rt.alloc(), name.as_str())?)
}

/// Nothing can be logged into a folder that does not exist. The folder is then made, and removed.
fn wrong_in_new(rt: &HostRuntime, dir: &str) -> Option<&'static str> {
    let is_missing = logs_into(rt, dir, &[1], 1, Some(ToolFault::Device));
    let is_made = fs::create_dir(rt, dir).is_ok();
    let wrong = wrong_folder(rt, dir);
    let is_removed = fs::remove_dir_all(rt, dir).is_ok();
    if is_missing && is_made && is_removed {
        wrong
    } else {
        Some("the folder")
    }
}

#[test]
fn folders(rt: HostRuntime) -> Result<(), Fail> {
    let folder = new_folder(&rt)?;
    none_is_wrong(&rt, wrong_in_new(&rt, folder.as_str()));
    Ok(())
}
