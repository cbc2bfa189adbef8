//! Lines that are not lines of a script.

use crate::played::plays;
use crate::rows::none_is_wrong;
use rw_text::ToolFault;
use std::alloc::{AllocError, Global};

/// Lines that are bad anywhere in a script.
static BAD: [&str; 45] = [
    " place",
    "place ",
    "place 0",
    "Place",
    "places",
    "place\r",
    "# place",
    "segment 1",
    "restart 2",
    "close now",
    "kill 0",
    "settle 0",
    "flush",
    "flush ",
    "flush  0",
    "flush 0 ",
    "flush -1",
    "flush +1",
    "flush x",
    "take 0x1",
    "take 18446744073709551616",
    "freeze 1.0",
    "send one",
    "reply",
    "lost 0 0",
    "reshard",
    "reshard -1",
    "arrive 0",
    "arrive 0 ",
    "arrive plain",
    "arrive 0 later",
    "arrive 0  plain",
    "arrive 0 plain ",
    "arrive plain 0",
    "arrive -1 busy",
    "feed",
    "feed 0",
    "feed 0A",
    "feed 00 00",
    "feed 0x00",
    "log",
    "log ",
    "log raw ",
    "log place",
    "log sample 1 1 9007199254740993",
];

/// Puts a script whose fourth line is this one.
fn put_script(script: &mut Vec<u8>, line: &[u8]) -> Result<(), AllocError> {
    script.extend_from_slice(b"place\n\nclose\n")?;
    script.extend_from_slice(line)?;
    script.extend_from_slice(b"\nplace\nno line\n")
}

fn bad() -> &'static [&'static str] {
    &BAD
}

/// Returns whether the fourth line of a script is found to be bad, which is this one.
fn is_refused(alloc: Global, line: &[u8]) -> bool {
    let mut script = Vec::new(alloc);
    put_script(&mut script, line).is_ok() && plays(alloc, "", &script, Err(ToolFault::Line(4)), b"")
}

fn wrong_line(alloc: Global, lines: &[&'static str]) -> Option<&'static str> {
    for line in lines {
        if !is_refused(alloc, line.as_bytes()) {
            return Some(line);
        }
    }
    None
}

#[test]
fn bad_lines(rt: HostRuntime) {
    none_is_wrong(&rt, wrong_line(rt.alloc(), bad()));
    assert!(rt; is_refused(rt.alloc(), b"log series 1 {a=\"\xff\"}"));
}

/// Scripts in which the log grows in both ways, and the line that makes them so.
static MIXED: [(&str, u64); 6] = [
    ("log raw 03\nfeed 00\n", 2),
    ("feed 00\nlog raw 03\n", 2),
    ("log raw 03\nplace\n\nsegment\n", 4),
    ("segment\n\nlog raw 03", 3),
    ("feed 00\nsegment\nlog raw 03\nno line\n", 3),
    ("log raw 03\nlog raw 03\nno line\nfeed 00\n", 3),
];

fn mixed() -> &'static [(&'static str, u64)] {
    &MIXED
}

fn wrong_mixed(alloc: Global, rows: &[(&'static str, u64)]) -> Option<&'static str> {
    for (script, number) in rows {
        let fault = ToolFault::Line(*number);
        if !plays(alloc, "", script.as_bytes(), Err(fault), b"") {
            return Some(script);
        }
    }
    None
}

#[test]
fn logs_that_grow_in_both_ways(rt: HostRuntime) {
    none_is_wrong(&rt, wrong_mixed(rt.alloc(), mixed()));
}

/// Numbers may have leading zeros, and the last line may lack its LF.
static ODD: [&str; 4] = [
    "take 007\n\n\nsettle",
    "flush 18446744073709551615\nsettle\n",
    "feed \nfeed 00\nsegment\nsettle",
    "reshard 0\nreshard 1001\nrestart\nsettle",
];

/// The state if there is no entry.
const NOTHING: &[u8] = b"filtered 0\nreport complete 0\n";

fn odd() -> &'static [&'static str] {
    &ODD
}

fn wrong_odd(alloc: Global, scripts: &[&'static str]) -> Option<&'static str> {
    for script in scripts {
        if !plays(alloc, "", script.as_bytes(), Ok(()), NOTHING) {
            return Some(script);
        }
    }
    None
}

#[test]
fn odd_lines(rt: HostRuntime) {
    none_is_wrong(&rt, wrong_odd(rt.alloc(), odd()));
}

/// Puts a `log raw` line of `chunks` times 32 KiB of byte 3, and these digits.
fn push_raw(
    script: &mut Vec<u8>,
    digits: &[u8],
    chunks: usize,
    more: &[u8],
) -> Result<(), AllocError> {
    script.extend_from_slice(b"log raw ")?;
    for _ in 0..chunks {
        script.extend_from_slice(digits)?;
    }
    script.extend_from_slice(more)?;
    script.extend_from_slice(b"\n")
}

/// Returns whether a record of 16 MiB is read, and a longer one after it is not.
fn reads_most(alloc: Global, script: &mut Vec<u8>) -> Result<bool, AllocError> {
    let digits: Vec<u8> = vec![in alloc; b'3'; 64 * 1024]?;
    let is_longest = push_raw(script, &digits, 512, b"").is_ok()
        && script.extend_from_slice(b"settle\n").is_ok()
        && plays(alloc, "", script, Ok(()), NOTHING);
    let is_longer = push_raw(script, &digits, 512, b"33").is_ok()
        && plays(alloc, "", script, Err(ToolFault::Line(3)), b"");
    Ok(is_longest && is_longer)
}

/// A record has 16 MiB at most.
#[test]
fn long_records(rt: HostRuntime) {
    assert_eq!(rt; reads_most(rt.alloc(), &mut Vec::new(rt.alloc())), Ok(true));
}
