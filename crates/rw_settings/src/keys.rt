//! The table of settings: each key, what it takes and its default. The comments here are the help
//! of docs/SETTINGS.md, whose tables `tools/settings_tables.py` writes.

ghost use Rattle.std.specs.Prelude.{◌≡◌, map};
ghost use Rattle.rw_settings.specs.Keys.{document_keys, send_keys, receive_keys, log_keys, rule_keys};
ghost use Rattle.rw_settings.specs.inner.Keys.{row_of};

/// What a key takes.
#[derive(Clone, Copy)]
pub(crate) enum Kind {
    /// A host name with a port.
    Host,
    /// The path of a request.
    Path,
    /// A whole number from the first to the second one. The third one is the default.
    Number(u64, u64, u64),
    /// Which names of labels are valid.
    Names,
    /// Whether something is done.
    Switch,
    /// The action of a rule.
    Action,
    /// A list of texts that is not empty.
    Labels,
    /// Any text.
    Text,
    /// A table of fields of requests: names and values.
    Fields,
    /// A table, or a list of tables, that has keys of its own and is judged by itself.
    Part,
}

/// A key, and what it takes.
#[derive(Clone, Copy)]
pub(crate) struct Key(pub &'static str, pub Kind);

/// The field `Host` of each request; the address of the connection is `--to`.
pub(crate) const HOST: Key = Key("host", Kind::Host);

/// The path of each request, with its query if it has one.
pub(crate) const SEND_PATH: Key = Key("path", Kind::Path);

/// How many shards there are at the start. Each has a queue, a thread and one request at a time.
pub(crate) const SHARDS: Key = Key("shards", Kind::Number(1, 1_000, 1));

/// The fewest shards that resharding picks.
pub(crate) const MIN_SHARDS: Key = Key("min_shards", Kind::Number(1, 1_000, 1));

/// The most shards that resharding picks.
pub(crate) const MAX_SHARDS: Key = Key("max_shards", Kind::Number(1, 1_000, 50));

/// How many items one shard's queue holds at most, marks included. Reading waits while a queue is
/// full.
pub(crate) const CAPACITY: Key = Key("capacity", Kind::Number(1, 1_000_000, 10_000));

/// The most samples of one request.
/// [`--max-batch-bytes`](OPERATING.md#how-requests-are-sent) limits its bytes.
pub(crate) const BATCH: Key = Key("batch", Kind::Number(1, 10_000, 2_000));

/// The pause before the first retry of a batch, in milliseconds. It doubles with each retry.
pub(crate) const MIN_BACKOFF_MS: Key = Key("min_backoff_ms", Kind::Number(1, 3_600_000, 30));

/// The longest pause before a retry, in milliseconds.
pub(crate) const MAX_BACKOFF_MS: Key = Key("max_backoff_ms", Kind::Number(1, 3_600_000, 5_000));

/// How long an attempt may take, in milliseconds: to connect, to write and to read the reply,
/// together.
pub(crate) const TIMEOUT_MS: Key = Key("timeout_ms", Kind::Number(1, 3_600_000, 30_000));

/// Which [names](#names) of labels are sent.
pub(crate) const SEND_NAMES: Key = Key("names", Kind::Names);

/// Whether bodies are sent as Snappy blocks, with `Content-Encoding: snappy`.
/// [`--snappy`](OPERATING.md#how-requests-are-sent) sets it.
pub(crate) const SEND_SNAPPY: Key = Key("snappy", Kind::Switch);

/// [Fields](OPERATING.md#fields-that-a-receiver-asks-for) that are added to each request, as
/// `X-Scope-OrgID`. Nothing prints them.
pub(crate) const HEADERS: Key = Key("headers", Kind::Fields);

/// A file whose text is sent as `Authorization: Bearer TEXT` (default none).
pub(crate) const BEARER_TOKEN_FILE: Key = Key("bearer_token_file", Kind::Text);

/// [Labels](OPERATING.md#external-labels) that are added to each series that has none of their
/// name, as the `external_labels` of a Prometheus. Their names are such as `names` says.
pub(crate) const LABELS: Key = Key("labels", Kind::Part);

static SEND: [Key; 15] = [
    HOST,
    SEND_PATH,
    SHARDS,
    MIN_SHARDS,
    MAX_SHARDS,
    CAPACITY,
    BATCH,
    MIN_BACKOFF_MS,
    MAX_BACKOFF_MS,
    TIMEOUT_MS,
    SEND_NAMES,
    SEND_SNAPPY,
    HEADERS,
    BEARER_TOKEN_FILE,
    LABELS,
];

/// The path of the endpoint. Another one is answered with 404.
pub(crate) const RECEIVE_PATH: Key = Key("path", Kind::Path);

/// The longest body of a request, in bytes. A longer one is answered with 413.
pub(crate) const MAX_BODY_BYTES: Key = Key(
    "max_body_bytes",
    Kind::Number(1, 67_108_864, 16_777_216),
);

/// The most labels of a series. A request that has more is refused.
pub(crate) const MAX_LABELS: Key = Key("max_labels", Kind::Number(1, 64, 64));

/// The most bytes of a series' names and values together. A request that has more is refused.
pub(crate) const MAX_LABEL_BYTES: Key = Key("max_label_bytes", Kind::Number(1, 16_384, 16_384));

/// The first N requests are answered with 429, to test a sender's retries.
pub(crate) const BUSY_FIRST: Key = Key("busy_first", Kind::Number(0, 1_000_000, 0));

/// Which [names](#names) of labels are taken.
pub(crate) const RECEIVE_NAMES: Key = Key("names", Kind::Names);

/// Whether bodies with `Content-Encoding: snappy` are taken, too, as Prometheus sends them.
/// [`--snappy`](OPERATING.md#running-a-receiver) sets it.
pub(crate) const RECEIVE_SNAPPY: Key = Key("snappy", Kind::Switch);

static RECEIVE: [Key; 7] = [
    RECEIVE_PATH,
    MAX_BODY_BYTES,
    MAX_LABELS,
    MAX_LABEL_BYTES,
    BUSY_FIRST,
    RECEIVE_NAMES,
    RECEIVE_SNAPPY,
];

/// Whether records of the log may be Snappy blocks, as Prometheus writes them by default.
/// [`--wal-compression`](OPERATING.md#the-log-that-send-reads) sets it.
pub(crate) const COMPRESSION: Key = Key("compression", Kind::Switch);

static LOG: [Key; 1] = [COMPRESSION];

/// What the rule does with the series that it matches.
pub(crate) const ACTION: Key = Key("action", Kind::Action);

/// The labels whose values are joined. A label that a series does not have counts as empty.
pub(crate) const SOURCE_LABELS: Key = Key("source_labels", Kind::Labels);

/// What joins the values (default `;`).
pub(crate) const SEPARATOR: Key = Key("separator", Kind::Text);

/// The regular expression that must match the whole joined text. Its `.` matches a newline too
/// (default `(.*)`).
pub(crate) const REGEX: Key = Key("regex", Kind::Text);

static RULE: [Key; 4] = [ACTION, SOURCE_LABELS, SEPARATOR, REGEX];

static DOCUMENT: [Key; 4] = [
    Key("send", Kind::Part),
    Key("receive", Kind::Part),
    Key("log", Kind::Part),
    Key("rule", Kind::Part),
];

/// The keys of the table `send`, in the order in which they are printed.
pub(crate) fn send_keys() -> &'static [Key]
    ensures { map row_of result.now ≡ send_keys }
{
    &SEND
}

/// The keys of the table `receive`, in the order in which they are printed.
pub(crate) fn receive_keys() -> &'static [Key]
    ensures { map row_of result.now ≡ receive_keys }
{
    &RECEIVE
}

/// The keys of the table `log`, in the order in which they are printed.
pub(crate) fn log_keys() -> &'static [Key]
    ensures { map row_of result.now ≡ log_keys }
{
    &LOG
}

/// The keys of a rule, in the order in which they are printed.
pub(crate) fn rule_keys() -> &'static [Key]
    ensures { map row_of result.now ≡ rule_keys }
{
    &RULE
}

/// The keys of the document: its tables.
pub(crate) fn document_keys() -> &'static [Key]
    ensures { map row_of result.now ≡ document_keys }
{
    &DOCUMENT
}
