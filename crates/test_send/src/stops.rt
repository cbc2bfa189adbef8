//! What sets a stop signal.

use crate::rows::none_is_wrong;
use rw_follow::{StopRequest, StopSignal, watch_file, watch_input};
use std::alloc::Global;
use std::fs::Files;
use std::test::Fail;
use std::time::{Clock, Duration};
use std::{fs, io, thread};

/// Returns what is asked for after an input.
fn request_after_input(alloc: Global, text: &[u8]) -> StopRequest {
    let signal = StopSignal::new();
    let mut input = text;
    watch_input(alloc, &mut input, &signal);
    signal.request()
}

/// Returns the name of the first input after which something else is asked for.
fn wrong_input(alloc: Global) -> Option<&'static str> {
    for row in &INPUTS {
        if request_after_input(alloc, row.1) != row.2 {
            return Some(row.0);
        }
    }
    None
}

/// Only a whole line asks to end at once, and its end is a line feed.
static INPUTS: [(&str, &[u8], StopRequest); 7] = [
    ("no input", b"", StopRequest::Finish),
    ("no line feed", b"hard", StopRequest::Finish),
    ("the line 'hard'", b"hard\n", StopRequest::Abort),
    (
        "'hard' among other lines",
        b"soft\nhard\nsoft\n",
        StopRequest::Abort,
    ),
    ("other lines", b"hardly\n hard\nHARD\n", StopRequest::Finish),
    ("a carriage return", b"hard\r\n", StopRequest::Finish),
    (
        "a long line that ends in 'hard'",
        b"0123456789012345678901234567890123456789012345678901234567890123hard\n",
        StopRequest::Finish,
    ),
];

#[test]
fn an_input_sets_a_signal(rt: HostRuntime) -> Result<(), Fail> {
    none_is_wrong(&rt, wrong_input(rt.alloc()));
    Ok(())
}

#[test]
fn nothing_is_asked_for_at_first(rt: HostRuntime) -> Result<(), Fail> {
    let signal = StopSignal::new();
    let first = signal.request();
    signal.abort();
    signal.finish();
    assert!(rt; first == StopRequest::Continue && signal.request() == StopRequest::Abort);
    Ok(())
}

/// Writes this to a file, which a watch looks at, and returns what is asked for a while later.
fn request_after_file<R: Clock + Files>(
    rt: &R,
    path: &str,
    text: &[u8],
    signal: &StopSignal,
) -> Option<StopRequest> {
    fs::write(rt, path, text).ok()?;
    thread::sleep(rt, Duration::from_millis(1_000));
    Some(signal.request())
}

/// Makes a file that a watch looks for, and writes to it. Returns what was asked for after an empty
/// file, after another line, and after the line `hard`; and asks to end at once, so that the watch
/// ends.
fn write_later<R: Clock + Files>(
    rt: &R,
    path: &str,
    signal: &StopSignal,
) -> [Option<StopRequest>; 3] {
    thread::sleep(rt, Duration::from_millis(300));
    let empty = request_after_file(rt, path, b"", signal);
    let other = request_after_file(rt, path, b"hardly\n", signal);
    let hard = request_after_file(rt, path, b"hard\nnow\n", signal);
    signal.abort();
    [empty, other, hard]
}

/// The file comes after the first look, and is looked at again.
#[test]
fn a_file_sets_a_signal(rt: HostRuntime) -> io::Result<()> {
    let signal = StopSignal::new();
    let ((), requests) = thread::join(
        &rt,
        || watch_file(&rt, "stop", &signal),
        || write_later(&rt, "stop", &signal),
    );
    fs::remove_file(&rt, "stop")?;
    assert!(rt;
        requests
            == [
                Some(StopRequest::Finish),
                Some(StopRequest::Finish),
                Some(StopRequest::Abort)
            ]
    );
    Ok(())
}
