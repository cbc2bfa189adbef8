//! A kill after each line of a schedule.

use crate::played::{plays, run};
use crate::rows::{no_number_is_wrong, none_is_wrong};
use std::alloc::{AllocError, Global};

/// Two samples are sent, the reply is lost, and they are sent again.
static LINES: [&str; 15] = [
    r#"log series 1 {__name__="up"}"#,
    "log sample 1 10 1",
    "log sample 1 20 2",
    "place",
    "place",
    "place",
    "take 0",
    "take 0",
    "freeze 0",
    "send 0",
    "arrive 0 plain",
    "lost 0",
    "send 0",
    "arrive 1 plain",
    "reply 1",
];

const FROZEN: &str = "filtered 0\nabandoned 1\nabandoned 2\nreport abandoned 3\n";

const ARRIVED: &str = r#"received {__name__="up"} 10=1 20=2
filtered 0
abandoned 1
abandoned 2
report abandoned 3
"#;

const RESOLVED: &str = r#"received {__name__="up"} 10=1 20=2
filtered 0
report abandoned 3
"#;

fn push_line(script: &mut Vec<u8>, line: &str) -> Result<(), AllocError> {
    script.extend_from_slice(line.as_bytes())?;
    script.extend_from_slice(b"\n")
}

fn lines() -> &'static [&'static str] {
    &LINES
}

/// Puts the lines, with a kill after `count` of them; the later ones follow or do not.
fn put_killed(
    script: &mut Vec<u8>,
    lines: &[&str],
    count: usize,
    goes_on: bool,
) -> Result<(), AllocError> {
    for (i, line) in lines.iter().enumerate() {
        if i == count {
            push_line(script, "kill")?;
        }
        if i < count || goes_on {
            push_line(script, line)?;
        }
    }
    if count >= lines.len() {
        push_line(script, "kill")?;
    }
    Ok(())
}

/// Returns whether what is received before the report is a prefix of the two samples.
fn received_a_beginning(text: &[u8]) -> bool {
    let rest = match text.strip_prefix(br#"received {__name__="up"} 10=1"#.as_slice()) {
        Some(rest) => rest.strip_prefix(b" 20=2".as_slice()).unwrap_or(rest),
        None => return text.starts_with(b"filtered 0\n"),
    };
    rest.starts_with(b"\nfiltered 0\n")
}

/// Returns whether a script ends well, and a prefix is received.
fn is_survived(alloc: Global, script: &[u8]) -> bool {
    let mut input = script;
    match run(alloc, b"", &mut input, 4096) {
        Some((Ok(()), text)) => received_a_beginning(&text),
        _ => false,
    }
}

/// Returns whether a kill after `count` of these lines leads to a prefix.
fn is_count_survived(alloc: Global, lines: &[&str], count: usize, goes_on: bool) -> bool {
    let mut script = Vec::new(alloc);
    put_killed(&mut script, lines, count, goes_on).is_ok() && is_survived(alloc, &script)
}

/// Returns the first number of lines after which a kill leads to something else.
fn wrong_count(alloc: Global, lines: &[&str], goes_on: bool) -> Option<usize> {
    for count in 0..=lines.len() {
        if !is_count_survived(alloc, lines, count, goes_on) {
            return Some(count);
        }
    }
    None
}

#[test]
fn a_kill_anywhere(rt: HostRuntime) {
    no_number_is_wrong(&rt, wrong_count(rt.alloc(), lines(), false));
    no_number_is_wrong(&rt, wrong_count(rt.alloc(), lines(), true));
}

/// A name, how many lines come before the kill, and the state then.
type State = (&'static str, usize, &'static str);

static STATES: [State; 3] = [
    ("a frozen batch", 9, FROZEN),
    ("a stored batch", 11, ARRIVED),
    ("a resolved batch", 15, RESOLVED),
];

fn states() -> &'static [State] {
    &STATES
}

/// Returns whether a kill after `count` of the lines, without the later ones, leads to this state.
fn leads_to(alloc: Global, count: usize, state: &str) -> bool {
    let mut script = Vec::new(alloc);
    put_killed(&mut script, lines(), count, false).is_ok()
        && plays(alloc, "", &script, Ok(()), state.as_bytes())
}

fn wrong_state(alloc: Global, rows: &[State]) -> Option<&'static str> {
    for (name, count, state) in rows {
        if !leads_to(alloc, *count, state) {
            return Some(name);
        }
    }
    None
}

#[test]
fn states_of_killed_schedules(rt: HostRuntime) {
    none_is_wrong(&rt, wrong_state(rt.alloc(), states()));
}
