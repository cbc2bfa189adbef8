//! Settings as text, and the notes on their faults.

use crate::rows::{holds, none_is_wrong};
use Row::{Noted, Pattern, Printed};
use rw_settings::{SettingsNote, explain_settings, print_settings};
use std::alloc::{AllocError, Global};

/// What is printed if nothing is set.
const DEFAULTS: &str = "\
[send]
host = \"localhost:9090\"
path = \"/api/v1/write\"
shards = 1
min_shards = 1
max_shards = 50
capacity = 10000
batch = 2000
min_backoff_ms = 30
max_backoff_ms = 5000
timeout_ms = 30000
names = \"legacy\"

[receive]
path = \"/api/v1/write\"
max_body_bytes = 16777216
max_labels = 64
max_label_bytes = 16384
busy_first = 0
names = \"legacy\"
";

/// Each number at its greatest, and two rules.
const GREATEST: &str = "\
[send]
host = \"metrics.example\"
path = \"/w?a=1\"
shards = 1000
min_shards = 1000
max_shards = 1000
capacity = 1000000
batch = 10000
min_backoff_ms = 3600000
max_backoff_ms = 3600000
timeout_ms = 3600000
names = \"utf8\"

[receive]
path = \"/\"
max_body_bytes = 67108864
max_labels = 64
max_label_bytes = 16384
busy_first = 1000000
names = \"utf8\"

[[rule]]
action = \"keep\"
source_labels = [\"job\"]
separator = \";\"
regex = \"node|api\"

[[rule]]
action = \"drop\"
source_labels = [\"env\", \"region\"]
separator = \"/\"
regex = \"(.*)\"
";

/// Each number at its least.
const LEAST: &str = "\
[send]
host = \"!\"
path = \"/\"
shards = 1
min_shards = 1
max_shards = 1
capacity = 1
batch = 1
min_backoff_ms = 1
max_backoff_ms = 1
timeout_ms = 1
names = \"utf8\"

[receive]
path = \"/api/v1/write\"
max_body_bytes = 1
max_labels = 1
max_label_bytes = 1
busy_first = 0
names = \"legacy\"
";

/// What is printed if blocks of Snappy are received.
const SNAPPY: &str = "\
[send]
host = \"localhost:9090\"
path = \"/api/v1/write\"
shards = 1
min_shards = 1
max_shards = 50
capacity = 10000
batch = 2000
min_backoff_ms = 30
max_backoff_ms = 5000
timeout_ms = 30000
names = \"legacy\"

[receive]
path = \"/api/v1/write\"
max_body_bytes = 16777216
max_labels = 64
max_label_bytes = 16384
busy_first = 0
names = \"legacy\"
snappy = true
";

/// What is printed if blocks of Snappy are sent.
const SENT_IN_BLOCKS: &str = "\
[send]
host = \"localhost:9090\"
path = \"/api/v1/write\"
shards = 1
min_shards = 1
max_shards = 50
capacity = 10000
batch = 2000
min_backoff_ms = 30
max_backoff_ms = 5000
timeout_ms = 30000
names = \"legacy\"
snappy = true

[receive]
path = \"/api/v1/write\"
max_body_bytes = 16777216
max_labels = 64
max_label_bytes = 16384
busy_first = 0
names = \"legacy\"
";

/// What is printed if the log may have blocks of Snappy.
const COMPRESSED: &str = "\
[send]
host = \"localhost:9090\"
path = \"/api/v1/write\"
shards = 1
min_shards = 1
max_shards = 50
capacity = 10000
batch = 2000
min_backoff_ms = 30
max_backoff_ms = 5000
timeout_ms = 30000
names = \"legacy\"

[receive]
path = \"/api/v1/write\"
max_body_bytes = 16777216
max_labels = 64
max_label_bytes = 16384
busy_first = 0
names = \"legacy\"

[log]
compression = true

[[rule]]
action = \"drop\"
source_labels = [\"job\"]
separator = \";\"
regex = \"(.*)\"
";

/// What a row says.
enum Row {
    /// Settings, and how they are printed.
    Printed(&'static str, &'static str),
    /// A pattern as a file may have it, and the last line that is printed.
    Pattern(&'static str, &'static str),
    /// A text, and the notes on it.
    Noted(&'static str, &'static str),
}

static ROWS: [Row; 48] = [
    // settings in another spelling
    Printed("", DEFAULTS),
    Printed(DEFAULTS, DEFAULTS),
    Printed(
        "rule = [{ regex = 'node|api', source_labels = ['job'], action = 'keep' },
                 { action = 'drop', source_labels = ['env', 'region'], separator = '/' }]
         receive.path = '/'
         receive.busy_first = 1_000_000
         receive.names = 'utf8'
         receive.max_body_bytes = 0x4000000
         [send]
         names = '''utf8'''
         timeout_ms = 3_600_000
         max_backoff_ms = 3_600_000
         min_backoff_ms = 3_600_000
         batch = 10_000
         capacity = 1_000_000
         max_shards = 1_000
         min_shards = 1_000
         shards = 1_000
         path = '/w?a=1'
         host = 'metrics.example'",
        GREATEST,
    ),
    Printed(LEAST, LEAST),
    // a switch is printed if it is on
    Printed("[receive]\nsnappy = false", DEFAULTS),
    Printed("receive = { snappy = true }", SNAPPY),
    Printed(SNAPPY, SNAPPY),
    Printed("send.snappy = false", DEFAULTS),
    Printed("send.snappy = true", SENT_IN_BLOCKS),
    Printed(SENT_IN_BLOCKS, SENT_IN_BLOCKS),
    Printed("log = { compression = false }", DEFAULTS),
    Printed(
        "rule = [{ action = 'drop', source_labels = ['job'] }]\nlog.compression = true",
        COMPRESSED,
    ),
    Printed(COMPRESSED, COMPRESSED),
    Pattern("'it is'", "\nregex = \"it is\"\n"),
    Pattern("\"it's\"", "\nregex = \"it's\"\n"),
    Pattern("'a\"b'", "\nregex = 'a\"b'\n"),
    Pattern("\"\\\\d+\"", "\nregex = '\\d+'\n"),
    Pattern("\"\\\\d'\"", "\nregex = '''\\d''''\n"),
    Pattern("\"\\u0001\\t\"", "\nregex = \"\\u0001\\t\"\n"),
    Pattern("\"a\\nb\"", "\nregex = \"\"\"\na\nb\"\"\"\n"),
    Pattern("'\u{e9}\u{1f600}'", "\nregex = \"\u{e9}\u{1f600}\"\n"),
    Noted(
        "[send]\nshard = 1",
        "send.shard: is not a known key; did you mean send.shards?\n",
    ),
    Noted(
        "[send]\nshrads = 1",
        "send.shrads: is not a known key; did you mean send.shards?\n",
    ),
    Noted(
        "[receive]\nshards = 1",
        "receive.shards: is not a known key\n",
    ),
    Noted("sned = 1", "sned: is not a known key; did you mean send?\n"),
    Noted(
        "[send]\nbatch = 0\nshards = '2'\nhost = 'a b'",
        "send.host: \"a b\" is refused; it takes 1 to 255 bytes, each '!' to '~'
send.shards: has type string; it takes a whole number from 1 to 1000
send.batch: 0 is refused; it takes a whole number from 1 to 10000
",
    ),
    Noted(
        "[send]\nnames = 'UTF8'\n[receive]\nnames = 8",
        "send.names: \"UTF8\" is refused; it takes 'legacy' or 'utf8'
receive.names: has type integer; it takes 'legacy' or 'utf8'
",
    ),
    Noted(
        "[receive]\nsnappy = 'yes'\n[send]\nsnappy = 1",
        "send.snappy: has type integer; it takes true or false
receive.snappy: has type string; it takes true or false
",
    ),
    Noted(
        "[log]\ncompression = 'snappy'\ncompress = true",
        "log.compress: is not a known key; did you mean log.compression?
log.compression: has type string; it takes true or false
",
    ),
    Printed("[send.labels]\ncluster = 'eu'", DEFAULTS),
    Noted(
        "[send]\nlabels = 'a'",
        "send.labels: has type string; it takes a table of names and values, each a string that is not empty\n",
    ),
    Noted(
        "[send.labels]\na = '1'\nb = 2",
        "send.labels: has \"b\", whose value is not a string; it takes a table of names and values, each a string that is not empty\n",
    ),
    Noted(
        "[send.labels]\na = '1'\nb = ''",
        "send.labels: has \"b\", whose value is empty; it takes a table of names and values, each a string that is not empty\n",
    ),
    Noted(
        "[send.labels]\n__name__ = '1'",
        "send.labels: has \"__name__\", whose value is not a metric name as 'names' says; it takes a table of names and values, each a string that is not empty\n",
    ),
    Noted(
        "[send]\nshards = 60\n[send.labels]\n'a-b' = '1'",
        "send: shards (60) must be at most max_shards (50, the default)
send.labels: has \"a-b\", which is not a label name as 'names' says; it takes a table of names and values, each a string that is not empty
",
    ),
    Noted(
        "[send]\nshards = 60",
        "send: shards (60) must be at most max_shards (50, the default)\n",
    ),
    Noted(
        "[send]\nmin_shards = 8\nshards = 4",
        "send: min_shards (8) must be at most shards (4)\n",
    ),
    Noted(
        "[send]\nmin_shards = 8\nmin_backoff_ms = 300\nmax_backoff_ms = 299",
        "send: min_shards (8) must be at most shards (1, the default); min_backoff_ms (300) must be at most max_backoff_ms (299)\n",
    ),
    Noted(
        "[send]\ntimeout = 1\n[receive]\nmax_body = 1\nbusy_first_times = 1\nma = 1",
        "send.timeout: is not a known key; did you mean send.timeout_ms?
receive.busy_first_times: is not a known key; did you mean receive.busy_first?
receive.ma: is not a known key
receive.max_body: is not a known key; did you mean receive.max_body_bytes?
",
    ),
    Noted(
        "[send]\nnames = '123456789 123456789 123456789 123456789\u{e9}'",
        "send.names: \"123456789 123456789 123456789 123456789\u{e9}\" is refused; it takes 'legacy' or 'utf8'\n",
    ),
    Noted(
        "[send]\nnames = '123456789 123456789 123456789 123456789\u{e9}0'",
        "send.names: \"123456789 123456789 123456789 123456789\u{e9}\".. is refused; it takes 'legacy' or 'utf8'\n",
    ),
    Noted(
        "[[rule]]\naction = 'keep'\nsource_labels = ['a', 1]\n[[rule]]\naction = 'no'\nsource_labels = []",
        "rule 1, source_labels: entry 2 has type integer; it takes a list of strings, at least one
rule 2, action: \"no\" is refused; it takes 'keep' or 'drop'
rule 2, source_labels: is empty; it takes a list of strings, at least one
",
    ),
    Noted(
        "receive = 2\nrule = 3\n[[send]]",
        "send: has the wrong type; it takes a table, [send]
receive: has the wrong type; it takes a table, [receive]
rule: has the wrong type; it takes a list of tables, each [[rule]]
",
    ),
    Noted(
        "rule = [1, { regex = 1, source_label = [] }]",
        "rule 1: is not a table
rule 2, source_label: is not a known key; did you mean rule 2, source_labels?
rule 2, action: is missing; it takes 'keep' or 'drop'
rule 2, source_labels: is missing; it takes a list of strings, at least one
rule 2, regex: has type integer; it takes a string
",
    ),
    Noted(
        "[[rule]]\naction = 'keep'\nsource_labels = ['a']\n[[rule]]\naction = 'drop'\nsource_labels = ['a']\nregex = 'a)(b'",
        "rule 2, regex: \"a)(b\" is not a valid regular expression: unopened group\n",
    ),
    Noted("[send", "line 1, column 6: unclosed table, expected `]`\n"),
    Noted(
        "# \u{e9}\nsend = \u{e9}",
        "line 2, column 8: invalid value, expected a string, number, boolean, date-time, array or inline table\n",
    ),
    Noted(
        "[send]\nbatch = 99999999999999999999",
        "line 2, column 9: number out of range\n",
    ),
];

/// Returns whether settings are printed in this way.
fn is_printed(alloc: Global, text: &[u8], want: &str) -> bool {
    match print_settings(alloc, text) {
        Ok(printed) => printed.as_str() == want,
        Err(_) => false,
    }
}

/// Returns the settings of one rule with this pattern.
fn with_pattern(alloc: Global, pattern: &str) -> Result<String, AllocError> {
    format!(in alloc; "[[rule]]\naction = 'drop'\nsource_labels = ['a', '\"']\nregex = {pattern}")
}

/// Returns whether settings are printed with this end, and the printed text is printed unchanged.
fn ends_and_stays(alloc: Global, text: &[u8], end: &str) -> bool {
    match print_settings(alloc, text) {
        Ok(once) => {
            once.as_str().ends_with(end) && is_printed(alloc, once.as_bytes(), once.as_str())
        }
        Err(_) => false,
    }
}

/// Returns the same for the settings of one rule with this pattern.
fn is_pattern_printed(alloc: Global, pattern: &str, end: &str) -> bool {
    match with_pattern(alloc, pattern) {
        Ok(text) => ends_and_stays(alloc, text.as_bytes(), end),
        Err(_) => false,
    }
}

/// Adds a note, as a line.
fn put_note(lines: &mut String, note: &SettingsNote) -> Result<(), AllocError> {
    lines.push_str(note.place.as_str())?;
    lines.push_str(": ")?;
    lines.push_str(note.text.as_str())?;
    lines.push_str("\n")
}

fn put_notes(lines: &mut String, notes: &[SettingsNote]) -> Result<(), AllocError> {
    for note in notes {
        put_note(lines, note)?;
    }
    Ok(())
}

/// Returns whether these are the notes on a text.
fn is_noted(alloc: Global, text: &[u8], want: &str) -> bool {
    let mut lines = String::new(alloc);
    match explain_settings(alloc, text) {
        Ok(notes) => put_notes(&mut lines, &notes).is_ok() && lines.as_str() == want,
        Err(_) => false,
    }
}

fn is_so(alloc: Global, row: &Row) -> bool {
    match row {
        Printed(text, want) => is_printed(alloc, text.as_bytes(), want),
        Pattern(pattern, end) => is_pattern_printed(alloc, pattern, end),
        Noted(text, want) => is_noted(alloc, text.as_bytes(), want),
    }
}

fn rows() -> &'static [Row] {
    &ROWS
}

/// Returns the text of the first row that is wrong.
fn wrong_row(alloc: Global, rows: &[Row]) -> Option<&'static str> {
    for row in rows {
        if !is_so(alloc, row) {
            let (Printed(text, _) | Pattern(text, _) | Noted(text, _)) = row;
            return Some(text);
        }
    }
    None
}

#[test]
fn tables_patterns_and_faults(rt: HostRuntime) {
    none_is_wrong(&rt, wrong_row(rt.alloc(), rows()));
    holds(&rt, is_noted(rt.alloc(), DEFAULTS.as_bytes(), ""));
    let not_utf8 = "line 1, column 1: the text is not UTF-8\n";
    holds(&rt, is_noted(rt.alloc(), b"# \xff", not_utf8));
}
