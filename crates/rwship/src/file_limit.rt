//! The limit of open files, and what is said at the start of a receiver for which it is low.

use rw_text::read_number;
use std::fs;

/// How many files may be open beside the connections: standard input, output and error, the
/// listener, that of the metrics, a folder, its lock and its segment.
const BESIDE_CONNECTIONS: u64 = 12;

/// Returns how many files a process may have open, by the text of its `/proc/self/limits`; `None`
/// if there is no limit.
fn most_open_files(limits: &str) -> Option<u64> {
    for line in limits.lines() {
        if let Some(rest) = line.strip_prefix("Max open files") {
            return match rest.split_ascii_whitespace().next() {
                Some(soft_limit) => read_number(soft_limit.as_bytes()),
                None => None,
            };
        }
    }
    None
}

/// Says that fewer files may be open than this many connections take, if that is so.
pub fn note_file_limit(rt: &HostRuntime, connections: u64) {
    let Ok(limits) = fs::read_to_string(rt, "/proc/self/limits") else {
        return;
    };
    let Some(most) = most_open_files(&limits) else {
        return;
    };
    if most < connections.saturating_add(BESIDE_CONNECTIONS) {
        let served = most.saturating_sub(BESIDE_CONNECTIONS);
        let _ = eprintln!(rt;
            "rwship: this process may have {most} files open, so some {served} connections are served at once, and further ones wait, where {connections} could be; 'ulimit -n', or LimitNOFILE= of a unit, raises that"
        );
    }
}
