//! One run of the command.

use rw_replay::run_replay;
use rw_settings::read_settings;
use rw_text::ToolFault;
use rw_types::{Room, Source};
use std::alloc::Global;

/// Returns how a run ends, and what it writes with this much room, or `None` if memory runs out
/// before it begins.
pub(crate) fn run<S: Source>(
    alloc: Global,
    settings: &[u8],
    script: &mut S,
    room: usize,
) -> Option<(Result<(), ToolFault>, Vec<u8>)> {
    let mut output = Room::new(alloc, room).ok()?;
    let settings = read_settings(alloc, settings).ok()?;
    let ended = run_replay(alloc, script, &mut output, settings);
    Some((ended, output.into_bytes()))
}

/// Returns whether a script ends in this way, and this is written.
pub(crate) fn plays(
    alloc: Global,
    settings: &str,
    script: &[u8],
    ended: Result<(), ToolFault>,
    written: &[u8],
) -> bool {
    let mut input = script;
    match run(alloc, settings.as_bytes(), &mut input, 4096) {
        Some((found, text)) => found == ended && text.as_slice() == written,
        None => false,
    }
}

/// What a schedule shows, its settings, its script and the state at its end.
pub(crate) type Schedule<'a> = (&'a str, &'a str, &'a str, &'a str);

/// Returns what the first schedule shows that leads to another state, if there is one.
pub(crate) fn first_wrong(alloc: Global, rows: &[Schedule<'static>]) -> Option<&'static str> {
    for (name, settings, script, state) in rows {
        if !plays(alloc, settings, script.as_bytes(), Ok(()), state.as_bytes()) {
            return Some(name);
        }
    }
    None
}
