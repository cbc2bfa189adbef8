//! What sets a stop signal: an input, or a file.

ghost use Rattle.std.specs.Prelude.{◌≡◌, ◌↔◌, ◌∷◌, [], IsTrue};

use crate::signal::{StopRequest, StopSignal};
use std::alloc::Global;
use std::fs::{self, Files};
use std::io::{BufRead, ErrorKind, Read};
use std::thread;
use std::time::{Clock, Duration};

/// How many bytes of a line are kept. A longer line asks for nothing.
const LONGEST: usize = 64;

/// How many milliseconds pass between two looks.
const LOOK_MS: u64 = 200;

/// Reads `input` to its end and then asks to finish, or up to the first line `hard` and then asks
/// to end at once. An input that cannot be read counts as ended, and so it does if memory runs out
/// for a line. At most 64 bytes of the input are kept.
pub fn watch_input<B: BufRead>(alloc: Global, input: &mut B, signal: &StopSignal) {
    let mut line = Vec::new(alloc);
    if line.reserve(LONGEST).is_err() {
        signal.finish();
        return;
    }
    for _ in 0..u64::MAX {
        let Some(byte) = next_byte(input) else {
            break;
        };
        if byte != b'\n' {
            if line.len() < LONGEST {
                line.push_reserved(byte);
            }
            continue;
        }
        if is_hard(&line) {
            signal.abort();
            return;
        }
        line.clear();
    }
    signal.finish();
}

/// Looks five times a second for the file at `path`. Asks to finish once the file exists, and to
/// end at once when its first line is `hard`. Returns then, or when another caller has asked to end
/// at once.
pub fn watch_file<R: Clock + Files>(rt: &R, path: &str, signal: &StopSignal) {
    for _ in 0..u64::MAX {
        if matches!(fs::exists(rt, path), Ok(true)) {
            signal.finish();
            if begins_hard(rt, path) {
                signal.abort();
            }
        }
        if signal.request() == StopRequest::Abort {
            return;
        }
        thread::sleep(rt, Duration::from_millis(LOOK_MS));
    }
}

/// Returns whether the first line of a file is `hard`. The answer is `false` if the file cannot be
/// read.
fn begins_hard<R: Files>(rt: &R, path: &str) -> bool {
    let Ok(mut file) = fs::open(rt, path) else {
        return false;
    };
    let mut line = [0u8; 5];
    file.read_exact(&mut line).is_ok() && line == *b"hard\n"
}

/// Returns the next byte, or `None` at the end of the input or if it cannot be read.
fn next_byte<B: BufRead>(input: &mut B) -> Option<u8> {
    let mut byte = [0u8; 1];
    for _ in 0..u64::MAX {
        match input.read(&mut byte) {
            Ok(0) => return None,
            Ok(_) => return Some(byte[0]),
            Err(e) => {
                if e.kind() != ErrorKind::Interrupted {
                    return None;
                }
            }
        }
    }
    None
}

/// Returns whether a line asks to end at once.
pub(crate) fn is_hard(line: &[u8]) -> bool
    ensures { IsTrue result ↔ (line.now ≡ 104 ∷ 97 ∷ 114 ∷ 100 ∷ []) }
{
    line == b"hard".as_slice()
}
