//! The plans of log segments.

use crate::logs::fault;
use crate::rows::{holds, none_is_wrong};
use rw_log_commands::{run_plan, run_plan_with};
use rw_settings::{read_external_labels, read_settings};
use rw_text::ToolFault;
use rw_types::Room;
use rw_wal_format::TailFault;
use std::alloc::Global;

/// Returns the segment of log text, or nothing if memory runs out or a line is bad.
fn segment_of(alloc: Global, log: &str) -> Vec<u8> {
    let Ok(mut room) = Room::new(alloc, 4096) else {
        return Vec::new(alloc);
    };
    match fault(alloc, log.as_bytes(), &mut room, false, 1) {
        None => room.into_bytes(),
        Some(_) => Vec::new(alloc),
    }
}

/// Returns how a run under these settings ends. If there are no settings, memory ran out; no test
/// expects that.
fn ended(
    alloc: Global,
    settings: &[u8],
    input: &[u8],
    hex: bool,
    writer: &mut Room,
) -> Result<(), ToolFault> {
    let mut reader = input;
    match read_settings(alloc, settings) {
        Ok(settings) => run_plan(alloc, &mut reader, writer, settings, hex),
        Err(_) => Err(ToolFault::OutOfMemory),
    }
}

/// Returns how a run under these settings, with their external labels, ends.
fn ended_with_labels(
    alloc: Global,
    text: &[u8],
    input: &[u8],
    writer: &mut Room,
) -> Result<(), ToolFault> {
    let mut reader = input;
    let Ok(settings) = read_settings(alloc, text) else {
        return Err(ToolFault::OutOfMemory);
    };
    match read_external_labels(alloc, text, settings.config.fields().names) {
        Ok(external) => run_plan_with(alloc, &mut reader, writer, settings, external, false, false),
        Err(_) => Err(ToolFault::OutOfMemory),
    }
}

/// Returns whether the plan of log text under these settings, with their external labels, is this.
fn plans_with_labels(alloc: Global, settings: &[u8], log: &str, plan: &str) -> bool {
    let Ok(mut writer) = Room::new(alloc, 4096) else {
        return false;
    };
    ended_with_labels(alloc, settings, &segment_of(alloc, log), &mut writer) == Ok(())
        && writer.as_slice() == plan.as_bytes()
}

/// Returns whether a run under these settings ends so, and writes this.
fn plans(
    alloc: Global,
    settings: &[u8],
    input: &[u8],
    hex: bool,
    outcome: Result<(), ToolFault>,
    plan: &str,
) -> bool {
    let Ok(mut writer) = Room::new(alloc, 4096) else {
        return false;
    };
    ended(alloc, settings, input, hex, &mut writer) == outcome
        && writer.as_slice() == plan.as_bytes()
}

const RULES: &[u8] = b"[[rule]]\naction = 'keep'\nsource_labels = ['job']\nregex = 'a|ab'\n
[[rule]]\naction = 'drop'\nsource_labels = ['env']\nregex = 'test'\n";

const FIVE: &str = r#"series 1 {env="prod",job="ab"}
series 2 {env="prod",job="abc"}
series 3 {job="a"}
series 4 {env="test",job="a"}
series 5 {__name__="9"}
sample 1 1000 0
sample 2 1000 0
sample 3 1000 0
"#;

const PLAN_OF_FIVE: &str = "1 kept 0 {env=\"prod\",job=\"ab\"}
2 filtered {env=\"prod\",job=\"abc\"}
3 kept 1 {job=\"a\"}
4 filtered {env=\"test\",job=\"a\"}
5 bad 3
samples kept 2 filtered 1 bad 0 noseries 0
";

const REDEFINED: &str = r#"sample 1 1000 0
series 1 {job="a"}
sample 1 1000 0
series 2 {job="b"}
sample 2 1000 0
series 2 {job="a"}
sample 2 1000 0
series 1 {job=""}
sample 1 1000 0
sample 1 1000 0
sample 3 1000 0
series 1 {job="ab"}
sample 1 1000 0
"#;

const PLAN_OF_REDEFINED: &str = "1 kept 0 {job=\"a\"}
2 filtered {job=\"b\"}
2 kept 0 {job=\"a\"}
1 bad 4
1 kept 1 {job=\"ab\"}
samples kept 3 filtered 1 bad 2 noseries 2
";

/// Two series whose names are not legacy names, an empty name, and an empty name of a metric.
const NAMES: &str = r#"series 1 {__name__="http.rate","säge"="1"}
series 2 {"9x"="1"}
series 3 {""="1"}
series 4 {__name__=""}
sample 1 1000 0
sample 2 1000 0
"#;

const LEGACY_PLAN: &str = "1 bad 3
2 bad 3
3 bad 2
4 bad 3
samples kept 0 filtered 0 bad 2 noseries 0
";

const UTF8_PLAN: &str = "1 kept 0 {__name__=\"http.rate\",\"säge\"=\"1\"}
2 kept 1 {\"9x\"=\"1\"}
3 bad 2
4 bad 4
samples kept 2 filtered 0 bad 0 noseries 0
";

/// The input of a run.
enum Input {
    /// The segment of log text.
    Log(&'static str),
    /// The same with another last byte.
    Damaged(&'static str),
    /// Hexadecimal digits.
    Digits(&'static [u8]),
}

use Input::{Damaged, Digits, Log};

/// Settings and an input, how the run over them ends, and what it writes.
struct Row {
    name: &'static str,
    settings: &'static [u8],
    input: Input,
    outcome: Result<(), ToolFault>,
    plan: &'static str,
}

static ROWS: [Row; 9] = [
    Row {
        name: "five series",
        settings: RULES,
        input: Log(FIVE),
        outcome: Ok(()),
        plan: PLAN_OF_FIVE,
    },
    Row {
        name: "a damaged segment",
        settings: RULES,
        input: Damaged(FIVE),
        outcome: Err(ToolFault::Log(TailFault::BadCrc)),
        plan: "",
    },
    Row {
        name: "renamed",
        settings: RULES,
        input: Log(REDEFINED),
        outcome: Ok(()),
        plan: PLAN_OF_REDEFINED,
    },
    Row {
        name: "no settings",
        settings: b"",
        input: Log(NAMES),
        outcome: Ok(()),
        plan: LEGACY_PLAN,
    },
    Row {
        name: "legacy names",
        settings: b"[send]\nnames = 'legacy'",
        input: Log(NAMES),
        outcome: Ok(()),
        plan: LEGACY_PLAN,
    },
    Row {
        name: "names for a receiver",
        settings: b"[receive]\nnames = 'utf8'",
        input: Log(NAMES),
        outcome: Ok(()),
        plan: LEGACY_PLAN,
    },
    Row {
        name: "any names",
        settings: b"[send]\nnames = 'utf8'",
        input: Log(NAMES),
        outcome: Ok(()),
        plan: UTF8_PLAN,
    },
    Row {
        name: "digits",
        settings: b"",
        input: Digits(b"0100 01b3\n4623a6 02\n"),
        outcome: Ok(()),
        plan: "samples kept 0 filtered 0 bad 0 noseries 0\n",
    },
    Row {
        name: "a bad digit",
        settings: b"",
        input: Digits(b"01\n0g"),
        outcome: Err(ToolFault::Line(2)),
        plan: "",
    },
];

/// Returns the segment of log text with another last byte.
fn damaged_segment_of(alloc: Global, log: &str) -> Vec<u8> {
    let mut segment = segment_of(alloc, log);
    if let Some(last) = segment.last_mut() {
        *last = 1;
    }
    segment
}

fn is_so(alloc: Global, row: &Row) -> bool {
    match row.input {
        Log(log) => {
            let segment = segment_of(alloc, log);
            plans(alloc, row.settings, &segment, false, row.outcome, row.plan)
        }
        Damaged(log) => {
            let segment = damaged_segment_of(alloc, log);
            plans(alloc, row.settings, &segment, false, row.outcome, row.plan)
        }
        Digits(digits) => plans(alloc, row.settings, digits, true, row.outcome, row.plan),
    }
}

fn rows() -> &'static [Row] {
    &ROWS
}

fn wrong_row(alloc: Global, rows: &[Row]) -> Option<&'static str> {
    for row in rows {
        if !is_so(alloc, row) {
            return Some(row.name);
        }
    }
    None
}

#[test]
fn segments_and_digits(rt: HostRuntime) {
    none_is_wrong(&rt, wrong_row(rt.alloc(), rows()));
}

/// Rules that see labels which the log has not.
const LABELS: &[u8] = b"[send.labels]\nenv = 'test'\nzone = 'eu'\n
[[rule]]\naction = 'drop'\nsource_labels = ['env']\nregex = 'test'\n
[[rule]]\naction = 'keep'\nsource_labels = ['zone']\nregex = 'eu'\n";

const PLAN_WITH_LABELS: &str = "1 kept 0 {env=\"prod\",job=\"ab\",zone=\"eu\"}
2 kept 1 {env=\"prod\",job=\"abc\",zone=\"eu\"}
3 filtered {env=\"test\",job=\"a\",zone=\"eu\"}
4 filtered {env=\"test\",job=\"a\",zone=\"eu\"}
5 bad 3
samples kept 2 filtered 1 bad 0 noseries 0
";

/// Two series that become one, and one without labels.
const ALIKE: &str = r#"series 1 {job="a",zone="eu"}
series 2 {job="a"}
series 3 {}
sample 1 1000 0
sample 2 1000 0
sample 3 1000 0
"#;

const PLAN_OF_ALIKE: &str = "1 kept 0 {job=\"a\",zone=\"eu\"}
2 kept 0 {job=\"a\",zone=\"eu\"}
3 kept 1 {zone=\"eu\"}
samples kept 3 filtered 0 bad 0 noseries 0
";

#[test]
fn external_labels(rt: HostRuntime) {
    let alloc = rt.alloc();
    holds(
        &rt,
        plans_with_labels(alloc, LABELS, FIVE, PLAN_WITH_LABELS),
    );
    let zone = b"[send.labels]\nzone = 'eu'".as_slice();
    holds(&rt, plans_with_labels(alloc, zone, ALIKE, PLAN_OF_ALIKE));
    holds(&rt, plans_with_labels(alloc, RULES, FIVE, PLAN_OF_FIVE));
}
