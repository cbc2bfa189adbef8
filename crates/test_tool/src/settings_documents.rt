//! Whole texts: what they set, and what is wrong with them.

use crate::rows::{holds, none_is_wrong};
use crate::rule_making::label_set;
use rw_settings::{Settings, SettingsFault, read_settings};
use rw_types::{LabelSet, Names};
use std::alloc::Global;

/// Returns the number of a text's fault, or 9 if it has none. No row expects out of memory.
pub(crate) fn fault(alloc: Global, text: &[u8]) -> u8 {
    match read_settings(alloc, text) {
        Ok(_) => 9,
        Err(SettingsFault::OutOfMemory) => u8::MAX,
        Err(fault) => fault.number(),
    }
}

/// Texts with no fault or with one, and then with two at once, and the number that is returned, or
/// 9.
static FAULTS: [(&str, u8); 94] = [
    ("", 9),
    ("# nothing\n\n", 9),
    ("rule = []\n[send]\n[receive]\n", 9),
    // labels that are added
    ("[send.labels]", 9),
    ("[send.labels]\ncluster = 'a b'\n_0 = '\u{e9}'", 9),
    ("[send]\nlabels = { __name__ = 'a:b' }", 9),
    ("[send]\nlabels = { __name__ = 'a b' }", 4),
    ("[send.labels]\n0a = '1'", 4),
    ("[send.labels]\n'a.b' = '1'", 4),
    (
        "[send]\nnames = 'utf8'\nlabels = { 'a.b' = '1', __name__ = 'a b' }",
        9,
    ),
    ("[send]\nnames = 'utf8'\nlabels = { '' = '1' }", 4),
    ("[send.labels]\na = ''", 4),
    ("[send.labels]\na = 1", 3),
    ("[send.labels]\na = '1'\nb = ['1']\n0 = ''", 3),
    ("[send]\nlabels = ['a']", 3),
    ("[receive.labels]\na = '1'", 2),
    // not TOML
    ("send", 1),
    ("[send]\nshards = 1\nshards = 1", 1),
    ("[send]\nshards = 9223372036854775808", 1),
    ("[send]\nshards = -9223372036854775809", 1),
    // unknown keys
    ("sned = 1", 2),
    ("[send]\nshard = 1", 2),
    ("[send.receive]\npath = '/'", 2),
    ("[receive]\nshards = 1", 2),
    (
        "[[rule]]\naction = 'keep'\nsource_labels = ['a']\ntarget_label = 'b'",
        2,
    ),
    // values of another type
    ("send = 1", 3),
    ("[[send]]\nshards = 1", 3),
    ("receive = 'a'", 3),
    ("[[receive]]\npath = '/'", 3),
    ("rule = 1", 3),
    ("rule = [1]", 3),
    ("[rule]\naction = 'keep'\nsource_labels = ['a']", 3),
    ("[send]\nhost = 1", 3),
    ("[send.host]\na = 1", 3),
    ("[send]\npath = true", 3),
    ("[send]\nshards = '1'", 3),
    ("[send]\nbatch = 2.0", 3),
    ("[receive]\nbusy_first = false", 3),
    ("[[rule]]\naction = 1\nsource_labels = ['a']", 3),
    ("[[rule]]\naction = 'keep'\nsource_labels = 'a'", 3),
    ("[[rule]]\naction = 'keep'\nsource_labels = ['a', 1]", 3),
    (
        "[[rule]]\naction = 'keep'\nsource_labels = ['a']\nseparator = 1",
        3,
    ),
    (
        "[[rule]]\naction = 'keep'\nsource_labels = ['a']\nregex = ['a']",
        3,
    ),
    // numbers that are not between their bounds, with the defaults filled in
    ("[send]\nmin_shards = 5\nmax_shards = 4", 4),
    ("[send]\nmin_shards = 5", 4),
    ("[send]\nmin_shards = 5\nshards = 5", 9),
    ("[send]\nshards = 51", 4),
    ("[send]\nshards = 51\nmax_shards = 51", 9),
    ("[send]\nmin_backoff_ms = 5001", 4),
    ("[send]\nmin_backoff_ms = 5000", 9),
    ("[send]\nmax_backoff_ms = 29", 4),
    ("[send]\nmax_backoff_ms = 30", 9),
    // rules
    ("[[rule]]\naction = 'keep'\nsource_labels = []", 4),
    ("[[rule]]\nsource_labels = ['a']", 5),
    ("[[rule]]\naction = 'drop'", 5),
    ("[[rule]]\naction = 'replace'\nsource_labels = ['a']", 5),
    ("[[rule]]\naction = 'Keep'\nsource_labels = ['a']", 5),
    (
        "[[rule]]\naction = 'keep'\nsource_labels = ['a']\nregex = 'a)(b'",
        5,
    ),
    (
        "[[rule]]\naction = 'keep'\nsource_labels = ['a']\nregex = 'a{20000000}'",
        5,
    ),
    ("rule = [{ action = 'keep', source_labels = [''] }]", 9),
    // names
    ("[send]\nnames = 'legacy'\n[receive]\nnames = 'utf8'", 9),
    ("[send]\nnames = 'utf8'\n[receive]\nnames = 'legacy'", 9),
    ("[send]\nnames = 'UTF8'", 4),
    ("[receive]\nnames = ''", 4),
    ("[send]\nnames = true", 3),
    ("[receive]\nnames = ['utf8']", 3),
    ("names = 'utf8'", 2),
    // a switch
    ("[receive]\nsnappy = true", 9),
    ("[receive]\nsnappy = false", 9),
    ("[receive]\nsnappy = 1", 3),
    ("[receive]\nsnappy = 'true'", 3),
    ("[send]\nsnappy = true", 9),
    ("[send]\nsnappy = false", 9),
    ("[send]\nsnappy = [true]", 3),
    ("snappy = true", 2),
    ("[log]\ncompression = true", 9),
    ("[log]\ncompression = false", 9),
    ("[log]\ncompression = 'snappy'", 3),
    ("log = true", 3),
    ("[log]\ncompress = true", 2),
    ("compression = true", 2),
    // two at once, in either order
    ("[send]\nshards = 0\n[receive]\nlabels = 1", 2),
    ("[receive]\nlabels = 1\n[send]\nshards = 0", 2),
    ("[send]\nshards = 0\nbatch = 'a'", 3),
    ("[send]\nbatch = 'a'\nshards = 0", 3),
    ("[receive]\nbusy_first = -1\n[send]\nhost = 1", 3),
    ("[[rule]]\n[send]\nbatch = 0", 4),
    (
        "[[rule]]\naction = 'keep'\nsource_labels = ['a']\nregex = '('\n[send]\nbatch = 0",
        4,
    ),
    (
        "[[rule]]\naction = 'keep'\nsource_labels = ['a']\nregex = '('\n[[rule]]\nlabels = 1",
        2,
    ),
    ("[[rule]]\naction = 'no'\nsource_labels = []", 4),
    ("[[rule]]\naction = 'no'\nsource_labels = [1]", 3),
    ("[send]\nmin_shards = 5\nmax_shards = 4\nhost = 1", 3),
    ("[send]\nmin_shards = 5\nmax_shards = 4\n[[rule]]", 4),
    ("sned = 1\n[send", 1),
];

fn faults_of_texts() -> &'static [(&'static str, u8)] {
    &FAULTS
}

/// Returns the first text whose fault is another.
fn wrong_fault(alloc: Global, rows: &[(&'static str, u8)]) -> Option<&'static str> {
    for (text, want) in rows {
        if fault(alloc, text.as_bytes()) != *want {
            return Some(text);
        }
    }
    None
}

#[test]
fn faults(rt: HostRuntime) {
    none_is_wrong(&rt, wrong_fault(rt.alloc(), faults_of_texts()));
    holds(&rt, fault(rt.alloc(), b"# \xff") == 1);
}

fn sending(s: &Settings) -> [u64; 9] {
    let send = s.config.fields();
    [
        send.shards.get(),
        send.min_shards.get(),
        send.max_shards.get(),
        send.capacity.get(),
        send.batch.get(),
        send.min_backoff_ms.get(),
        send.max_backoff_ms.get(),
        send.timeout_ms.get(),
        u64::from(send.snappy),
    ]
}

fn receiving(s: &Settings) -> [u64; 5] {
    [
        s.limits.max_body_bytes.get(),
        s.limits.max_labels.get(),
        s.limits.max_label_bytes.get(),
        s.limits.busy_first.get(),
        u64::from(s.limits.snappy),
    ]
}

/// Returns the host and the path that are sent to, and the path that is received on.
fn texts(s: &Settings) -> [&str; 3] {
    let target = &s.config.fields().target;
    [
        target.host.as_str(),
        target.path.as_str(),
        s.limits.path.as_str(),
    ]
}

/// Returns the names that are sent and received.
fn names(s: &Settings) -> [Names; 2] {
    [s.config.fields().names, s.limits.names]
}

/// What a text sets.
type Read = ([u64; 9], [u64; 5], [&'static str; 3], [Names; 2]);

fn sets(s: &Settings, want: &Read) -> bool {
    sending(s) == want.0 && receiving(s) == want.1 && texts(s) == want.2 && names(s) == want.3
}

const EVERY_KEY: &[u8] =
    b"[send]\nhost = 'a'\npath = '/b'\nshards = 2\nmin_shards = 1\nmax_shards = 3\ncapacity = 4\nbatch = 5\n
          min_backoff_ms = 6\nmax_backoff_ms = 7\ntimeout_ms = 8\nnames = 'utf8'\nsnappy = true\n
          [receive]\npath = '/c'\nmax_body_bytes = 9\nmax_labels = 10\nmax_label_bytes = 11\nbusy_first = 12\nnames = 'utf8'\nsnappy = true";

/// The example of docs/SETTINGS.md.
const EXAMPLE: &[u8] = b"# Ship to the receiver at metrics.example, with up to eight shards.
[send]
host = \"metrics.example:9090\"
path = \"/api/v1/write\"
shards = 2
max_shards = 8
batch = 500            # samples of a request
min_backoff_ms = 100   # the pause before the first retry,
max_backoff_ms = 10000 # and the longest one

# When it receives, take bodies of at most one MiB.
[receive]
max_body_bytes = 1_048_576

# Send the series of two jobs,
[[rule]]
action = \"keep\"
source_labels = [\"job\"]
regex = \"node|api\"

# but none of a test environment in any region.
[[rule]]
action = \"drop\"
source_labels = [\"env\", \"region\"]
separator = \"/\"
regex = \"test/.*\"
";

/// Labels, and whether rules keep them.
type Kept = &'static [(&'static [(&'static str, &'static str)], bool)];

/// Labels, and whether the example's rules keep them.
const KEPT: Kept = &[
    (&[("job", "node")], true),
    (&[("job", "nodes")], false),
    (&[("env", "prod")], false),
    (&[("env", "test"), ("job", "api")], false),
    (
        &[("env", "prod"), ("job", "api"), ("region", "test/")],
        true,
    ),
];

/// A name, a text, what it sets, and which labels its rules keep.
type Reading = (&'static str, &'static [u8], Read, Kept);

static READ: [Reading; 3] = [
    (
        "nothing",
        b"",
        (
            [1, 1, 50, 10_000, 2_000, 30, 5_000, 30_000, 0],
            [16_777_216, 64, 16_384, 0, 0],
            ["localhost:9090", "/api/v1/write", "/api/v1/write"],
            [Names::Legacy, Names::Legacy],
        ),
        &[],
    ),
    (
        "every key",
        EVERY_KEY,
        (
            [2, 1, 3, 4, 5, 6, 7, 8, 1],
            [9, 10, 11, 12, 1],
            ["a", "/b", "/c"],
            [Names::Utf8, Names::Utf8],
        ),
        &[],
    ),
    (
        "the example",
        EXAMPLE,
        (
            [2, 1, 8, 10_000, 500, 100, 10_000, 30_000, 0],
            [1_048_576, 64, 16_384, 0, 0],
            ["metrics.example:9090", "/api/v1/write", "/api/v1/write"],
            [Names::Legacy, Names::Legacy],
        ),
        KEPT,
    ),
];

fn readings() -> &'static [Reading] {
    &READ
}

/// Returns whether rules keep or drop a set, as is said here.
fn keeps(s: &Settings, set: &LabelSet, want: bool) -> bool {
    s.config.fields().rules.keeps(set) == Ok(want)
}

/// Returns the same of labels.
fn is_kept(alloc: Global, s: &Settings, labels: &[(&str, &str)], want: bool) -> bool {
    match label_set(alloc, labels) {
        Ok(set) => keeps(s, &set, want),
        Err(_) => false,
    }
}

/// Returns whether the rules keep or drop these labels, as is said beside them.
fn are_kept(alloc: Global, s: &Settings, kept: Kept) -> bool {
    for (labels, want) in kept {
        if !is_kept(alloc, s, labels, *want) {
            return false;
        }
    }
    true
}

/// Returns whether a text sets this, and its rules keep these labels.
fn reads_as(alloc: Global, text: &[u8], want: &Read, kept: Kept) -> bool {
    match read_settings(alloc, text) {
        Ok(s) => sets(&s, want) && are_kept(alloc, &s, kept),
        Err(_) => false,
    }
}

/// Returns the first text that sets something else, or whose rules keep other labels.
fn wrong_reading(alloc: Global, rows: &[Reading]) -> Option<&'static str> {
    for (name, text, want, kept) in rows {
        if !reads_as(alloc, text, want, *kept) {
            return Some(name);
        }
    }
    None
}

#[test]
fn defaults_every_key_and_example(rt: HostRuntime) {
    none_is_wrong(&rt, wrong_reading(rt.alloc(), readings()));
}
