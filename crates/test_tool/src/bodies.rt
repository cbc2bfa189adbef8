//! The command `body`. Segments and bodies are written out in hexadecimal; they were made by
//! another program.

use crate::rows::none_is_wrong;
use Row::{Body, Bytes, Fault, Spaced};
use ToolFault::{Line, Log};
use rw_log_commands::run_body;
use rw_text::{ToolFault, read_digits};
use rw_types::Room;
use rw_wal_format::TailFault;
use std::alloc::Global;

/// One series `up` with one sample at 1000 of the value 1.
const UP_SEGMENT: &str =
    "010016391994f301000000000000000101085f5f6e616d655f5f02757001001b2c514c0702000000000000000100000000000003e800003ff0000000000000";

const UP: &str = "0a1e0a0e0a085f5f6e616d655f5f12027570120c09000000000000f03f10e807";

/// The same with another last byte.
const CHANGED_SEGMENT: &str =
    "010016391994f301000000000000000101085f5f6e616d655f5f02757001001b2c514c0702000000000000000100000000000003e800003ff0000000000001";

/// Definitions 1 of `a` and 2 of `b`, and samples of 1, 2 and 1 at 1, 2 and 3, all of the word 0.
const A_AND_B_SEGMENT: &str =
    "01001565cc629301000000000000000101085f5f6e616d655f5f016101001527ead9c801000000000000000201085f5f6e616d655f5f016201002f49f164d60200000000000000010000000000000001000000000000000000000202000000000000000000040000000000000000";

const A_AND_B: &str =
    "0a170a0d0a085f5f6e616d655f5f12016112021001120210030a130a0d0a085f5f6e616d655f5f12016212021002";

/// The same samples: reference 1 is `a`, then `b`, and reference 7 is `a` again.
const REDEFINED_SEGMENT: &str =
    "01001565cc629301000000000000000101085f5f6e616d655f5f016101001b74934011020000000000000001000000000000000100000000000000000000010015769c916701000000000000000101085f5f6e616d655f5f016201001bc8ed2ea3020000000000000001000000000000000200000000000000000000010015c720f3cd01000000000000000701085f5f6e616d655f5f016101001bc733e823020000000000000007000000000000000300000000000000000000";

/// Samples of reference 1 before it is defined, while it has the name `9`, while it is `a`, and
/// while it has the name `9` again.
const LEFT_OUT_SEGMENT: &str =
    "01001b74934011020000000000000001000000000000000100000000000000000000010015be30e08f01000000000000000101085f5f6e616d655f5f013901001bc8ed2ea302000000000000000100000000000000020000000000000000000001001565cc629301000000000000000101085f5f6e616d655f5f016101001b74934011020000000000000001000000000000000100000000000000000000010015be30e08f01000000000000000101085f5f6e616d655f5f013901001b5f9cd962020000000000000001000000000000000300000000000000000000";

const ONE_OF_A: &str = "0a130a0d0a085f5f6e616d655f5f12016112021001";

/// Returns whether a run over an input ends so, and writes this.
fn writes(
    alloc: Global,
    input: &[u8],
    hex: bool,
    outcome: Result<(), ToolFault>,
    output: &[u8],
) -> bool {
    let Ok(mut writer) = Room::new(alloc, 4096) else {
        return false;
    };
    let mut reader = input;
    let ended = run_body(alloc, &mut reader, &mut writer, hex);
    ended == outcome && writer.as_slice() == output
}

/// A name, and what a row says.
enum Row {
    /// A segment, and the body of its samples.
    Body(&'static str, &'static str, &'static str),
    /// A text, and its fault.
    Fault(&'static str, &'static str, ToolFault),
    /// A segment whose bytes have this fault.
    Bytes(&'static str, &'static str, ToolFault),
    /// The text of a segment without samples.
    Spaced(&'static str, &'static str),
}

static ROWS: [Row; 17] = [
    Body("one sample", UP_SEGMENT, UP),
    Body("two series", A_AND_B_SEGMENT, A_AND_B),
    Body("reused references", REDEFINED_SEGMENT, A_AND_B),
    Body("bad labels", LEFT_OUT_SEGMENT, ONE_OF_A),
    Body("another record", "010001b34623a602", ""),
    Body("nothing", "", ""),
    Spaced("spaces", " 01\t0001\r\nb3 4623\n\na602\n"),
    Fault("a changed byte", CHANGED_SEGMENT, Log(TailFault::BadCrc)),
    Fault("a bad type", "ff", Log(TailFault::BadType)),
    Fault("compressed", "08", Log(TailFault::Compressed)),
    Fault("a bad digit", "0g", Line(1)),
    Fault("a capital digit", "0A", Line(1)),
    Fault("a bad digit in line 3", "ff\n\n0 x", Line(3)),
    Fault("half a digit in line 2", "0\r0\n0\n", Line(2)),
    Fault("half a digit in line 1", "0\n\n \n", Line(1)),
    Fault("a comma", "0\n\n,", Line(3)),
    Bytes("changed bytes", CHANGED_SEGMENT, Log(TailFault::BadCrc)),
];

/// Returns whether the text of a segment gives the text of the body, and a newline.
fn writes_text(alloc: Global, segment: &str, body: &str) -> bool {
    match format!(in alloc; "{body}\n") {
        Ok(line) => writes(alloc, segment.as_bytes(), true, Ok(()), line.as_bytes()),
        Err(_) => false,
    }
}

/// Returns whether the bytes of a segment have this outcome, and give the bytes of the body.
fn writes_bytes(alloc: Global, segment: &str, outcome: Result<(), ToolFault>, body: &[u8]) -> bool {
    match read_digits(alloc, segment.as_bytes()) {
        Ok(Some(segment)) => writes(alloc, &segment, false, outcome, body),
        _ => false,
    }
}

/// Returns whether they give the bytes of this text of a body.
fn writes_bytes_of(alloc: Global, segment: &str, body: &str) -> bool {
    match read_digits(alloc, body.as_bytes()) {
        Ok(Some(body)) => writes_bytes(alloc, segment, Ok(()), &body),
        _ => false,
    }
}

fn is_so(alloc: Global, row: &Row) -> bool {
    match row {
        Body(_, segment, body) => {
            writes_text(alloc, segment, body) && writes_bytes_of(alloc, segment, body)
        }
        Fault(_, text, fault) => writes(alloc, text.as_bytes(), true, Err(*fault), b""),
        Bytes(_, segment, fault) => writes_bytes(alloc, segment, Err(*fault), b""),
        Spaced(_, text) => writes(alloc, text.as_bytes(), true, Ok(()), b"\n"),
    }
}

fn rows() -> &'static [Row] {
    &ROWS
}

fn wrong_row(alloc: Global, rows: &[Row]) -> Option<&'static str> {
    for row in rows {
        if !is_so(alloc, row) {
            let (Body(name, ..) | Fault(name, ..) | Bytes(name, ..) | Spaced(name, ..)) = row;
            return Some(name);
        }
    }
    None
}

#[test]
fn bodies_and_faults(rt: HostRuntime) {
    none_is_wrong(&rt, wrong_row(rt.alloc(), rows()));
}
