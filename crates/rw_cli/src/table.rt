//! The commands and their options, as rows.

use crate::help;

/// What an option takes.
#[derive(Clone, Copy)]
pub(crate) enum Takes {
    /// No value.
    Nothing,
    /// Any text, shown by this name.
    Text(&'static str),
    /// A path, which is not empty.
    Path(&'static str),
    /// A path without the name of an option before it.
    Place(&'static str),
    /// A number from the first to the second one.
    Number(i64, i64),
    /// A number from the first to the second one, and the default.
    NumberOr(i64, i64, &'static str),
    /// One number or more, shown by this name.
    Numbers(&'static str),
}

/// How an option depends on others.
#[derive(Clone, Copy)]
pub(crate) enum Bond {
    /// It must be given.
    Required,
    /// It must be given if this one is not.
    RequiredWithout(&'static str),
    /// It is refused if this one is not given.
    Needs(&'static str),
    /// It is refused if this one is given.
    Excludes(&'static str),
}

/// An option.
#[derive(Clone, Copy)]
pub(crate) struct Opt {
    pub name: &'static str,
    pub takes: Takes,
    pub bonds: &'static [Bond],
    pub help: &'static str,
}

/// A command.
#[derive(Clone, Copy)]
pub(crate) struct Words {
    pub name: &'static str,
    pub about: &'static str,
    pub after: &'static str,
    pub options: &'static [Opt],
}

const HEX: Opt = Opt {
    name: "hex",
    takes: Takes::Nothing,
    bonds: &[],
    help: "Read and write lower-case hexadecimal text instead of bytes",
};

const SETTINGS: Opt = Opt {
    name: "settings",
    takes: Takes::Path("FILE"),
    bonds: &[],
    help: "Read the settings from this TOML file",
};

const EXPLAIN: Opt = Opt {
    name: "explain",
    takes: Takes::Nothing,
    bonds: &[],
    help: "Explain faults of the settings and the input, and\nwhich file, host or address failed",
};

const EXPLAIN_INPUT: Opt = Opt {
    name: "explain",
    takes: Takes::Nothing,
    bonds: &[],
    help: "Explain where the input has a fault, and what is wrong there",
};

const SEGMENTS: Opt = Opt {
    name: "dir",
    takes: Takes::Path("DIR"),
    bonds: &[],
    help: "Read the segments of this folder instead of one\nsegment on standard input",
};

const CHECKPOINT: Opt = Opt {
    name: "checkpoint",
    takes: Takes::Nothing,
    bonds: &[Bond::Needs("dir")],
    help: "With --dir: read the newest checkpoint there first,\nand then the segments after it",
};

const WAL_COMPRESSION: Opt = Opt {
    name: "wal-compression",
    takes: Takes::Nothing,
    bonds: &[],
    help: "Read records that are compressed by Snappy, as\nPrometheus writes them by default",
};

const DECIMAL: Opt = Opt {
    name: "decimal",
    takes: Takes::Nothing,
    bonds: &[],
    help: "Read values as decimals, too, as 0.25 or 1.5e-7",
};

const PROGRESS: Opt = Opt {
    name: "progress",
    takes: Takes::Nothing,
    bonds: &[],
    help: "Report progress once a second on standard error",
};

const EVENT_LOG: Opt = Opt {
    name: "log",
    takes: Takes::Nothing,
    bonds: &[],
    help: "Write what happens to standard error, with time and\nlevel",
};

const METRICS: Opt = Opt {
    name: "metrics",
    takes: Takes::Text("HOST:PORT"),
    bonds: &[],
    help: "Serve metrics on this address, at /metrics, in the\ntext format of Prometheus",
};

static BODY: Words = Words {
    name: "body",
    about: "Reads one log segment and writes the remote-write body of its samples",
    after: help::BODY,
    options: &[HEX, WAL_COMPRESSION, EXPLAIN_INPUT],
};

fn body() -> &'static Words {
    &BODY
}

static LOG: Words = Words {
    name: "log",
    about: "Reads log text and writes log segments",
    after: help::LOG,
    options: &[
        HEX,
        Opt {
            name: "pages",
            takes: Takes::NumberOr(1, 4096, "4096"),
            bonds: &[],
            help: "Begin a new segment after N pages, 1 to 4096",
        },
        Opt {
            name: "dir",
            takes: Takes::Path("DIR"),
            bonds: &[],
            help: "Write numbered segment files into this folder",
        },
        DECIMAL,
        EXPLAIN_INPUT,
    ],
};

fn log() -> &'static Words {
    &LOG
}

static PLAN: Words = Words {
    name: "plan",
    about: "Reads a log and prints which of its series the rules keep",
    after: help::PLAN,
    options: &[
        SETTINGS,
        EXPLAIN,
        SEGMENTS,
        CHECKPOINT,
        WAL_COMPRESSION,
        Opt {
            name: "hex",
            takes: Takes::Nothing,
            bonds: &[Bond::Excludes("dir")],
            help: "Read and write lower-case hexadecimal text instead of\nbytes",
        },
    ],
};

fn plan() -> &'static Words {
    &PLAN
}

static INSPECT: Words = Words {
    name: "inspect",
    about: "Reads a log and prints what its segments hold, and where it is damaged",
    after: help::INSPECT,
    options: &[
        SEGMENTS,
        CHECKPOINT,
        WAL_COMPRESSION,
        Opt {
            name: "explain",
            takes: Takes::Nothing,
            bonds: &[Bond::Needs("dir")],
            help: "With --dir: explain what cannot be read",
        },
        Opt {
            name: "json",
            takes: Takes::Nothing,
            bonds: &[],
            help: "Write JSON, one object a line",
        },
        Opt {
            name: "at",
            takes: Takes::Numbers("POS"),
            bonds: &[Bond::Excludes("json"), Bond::Needs("dir")],
            help: "With --dir: print only the entries at these positions, as\n'send' reports them",
        },
    ],
};

fn inspect() -> &'static Words {
    &INSPECT
}

static REPLAY: Words = Words {
    name: "replay",
    about: "Reads an event script and prints the state at its end",
    after: help::REPLAY,
    options: &[SETTINGS, EXPLAIN],
};

fn replay() -> &'static Words {
    &REPLAY
}

static SETTINGS_COMMAND: Words = Words {
    name: "settings",
    about: "Prints all settings with their values",
    after: help::SETTINGS,
    options: &[
        Opt {
            name: "settings",
            takes: Takes::Place("FILE"),
            bonds: &[],
            help: "Print the settings of this TOML file; without it, the\ndefaults",
        },
        EXPLAIN,
    ],
};

fn settings() -> &'static Words {
    &SETTINGS_COMMAND
}

static SEND: Words = Words {
    name: "send",
    about: "Ships the log in a folder, and prints a report",
    after: help::SEND,
    options: &[
        SETTINGS,
        EXPLAIN,
        Opt {
            name: "dir",
            takes: Takes::Path("DIR"),
            bonds: &[Bond::Required],
            help: "Ship the log in this folder",
        },
        CHECKPOINT,
        WAL_COMPRESSION,
        Opt {
            name: "to",
            takes: Takes::Text("HOST:PORT"),
            bonds: &[Bond::Required],
            help: "Send to this receiver: its address, or its URL,\nhttp://HOST:PORT/PATH",
        },
        Opt {
            name: "follow",
            takes: Takes::Nothing,
            bonds: &[],
            help: "Keep reading what the server writes, until standard\ninput ends",
        },
        Opt {
            name: "stop-file",
            takes: Takes::Path("FILE"),
            bonds: &[Bond::Needs("follow")],
            help: "With --follow: stop when this file exists, and do\nnot read standard input",
        },
        Opt {
            name: "wait",
            takes: Takes::Nothing,
            bonds: &[Bond::Needs("stop-file")],
            help: "With --stop-file: if DIR or the receiver's host is not\nthere yet, wait for it, until FILE exists",
        },
        Opt {
            name: "poll-ms",
            takes: Takes::NumberOr(10, 60_000, "200"),
            bonds: &[Bond::Needs("follow")],
            help: "With --follow: look for new records every N\nmilliseconds, 10 to 60000",
        },
        Opt {
            name: "flush-ms",
            takes: Takes::NumberOr(10, 3_600_000, "5000"),
            bonds: &[Bond::Needs("follow")],
            help: "With --follow: send a batch that is not full after\nN milliseconds, 10 to 3600000",
        },
        Opt {
            name: "reshard-ms",
            takes: Takes::NumberOr(10, 3_600_000, "10000"),
            bonds: &[Bond::Needs("follow")],
            help: "With --follow: recompute the number of shards every\nN milliseconds, 10 to 3600000",
        },
        Opt {
            name: "fail-on-drop",
            takes: Takes::Nothing,
            bonds: &[],
            help: "End with status 1 if the report is complete but\nsamples were dropped",
        },
        Opt {
            name: "fail-on-empty",
            takes: Takes::Nothing,
            bonds: &[Bond::Excludes("follow")],
            help: "End with status 1 if DIR has no segment",
        },
        Opt {
            name: "fail-on-gap",
            takes: Takes::Nothing,
            bonds: &[Bond::Excludes("follow")],
            help: "End with status 1 if a number is missing between\ntwo segments",
        },
        Opt {
            name: "fail-on-skip",
            takes: Takes::Nothing,
            bonds: &[],
            help: "End with status 1 if records were skipped that may\nhold samples, such as histograms",
        },
        Opt {
            name: "stop-on-refusal",
            takes: Takes::Nothing,
            bonds: &[],
            help: "Stop with status 4 if the receiver answers 400, 401,\n403, 404, 405 or 415 before it takes a batch",
        },
        Opt {
            name: "resume",
            takes: Takes::Path("FILE"),
            bonds: &[],
            help: "Go on at the position that FILE names, and keep it\nthere; implies --checkpoint",
        },
        Opt {
            name: "give-up",
            takes: Takes::Text("TIME"),
            bonds: &[],
            help: "Stop with status 4 if the receiver answers a batch\nwith the same 5xx and text for TIME, as 10m or 1h",
        },
        Opt {
            name: "max-batch-bytes",
            takes: Takes::Number(1, 1_099_511_627_776),
            bonds: &[],
            help: "Keep request bodies within N bytes, 1 to\n1099511627776; a larger single sample is still sent",
        },
        Opt {
            name: "snappy",
            takes: Takes::Nothing,
            bonds: &[],
            help: "Send bodies with Content-Encoding: snappy, as\nPrometheus does",
        },
        Opt {
            name: "max-skew",
            takes: Takes::Text("TIME"),
            bonds: &[],
            help: "Send no sample that is later by more than TIME than\nan earlier one of the log that waits for its answer,\nas 30s or 10m; 10m with --snappy",
        },
        EVENT_LOG,
        PROGRESS,
        METRICS,
    ],
};

fn send() -> &'static Words {
    &SEND
}

static RECEIVE: Words = Words {
    name: "receive",
    about: "Receives samples, and prints what it holds at its end",
    after: help::RECEIVE,
    options: &[
        SETTINGS,
        EXPLAIN,
        Opt {
            name: "listen",
            takes: Takes::Text("HOST:PORT"),
            bonds: &[Bond::Required],
            help: "Listen on this address; :PORT is that port of all\nIPv4 addresses",
        },
        Opt {
            name: "until-eof",
            takes: Takes::Nothing,
            bonds: &[
                Bond::RequiredWithout("connections"),
                Bond::Excludes("connections"),
            ],
            help: "Serve any number of connections, until standard\ninput ends",
        },
        Opt {
            name: "stop-file",
            takes: Takes::Path("FILE"),
            bonds: &[Bond::Excludes("connections")],
            help: "Stop when this file exists, and do not read\nstandard input",
        },
        Opt {
            name: "connections",
            takes: Takes::Number(1, 1000),
            bonds: &[],
            help: "Serve this many connections, 1 to 1000",
        },
        Opt {
            name: "idle-ms",
            takes: Takes::NumberOr(10, 3_600_000, "60000"),
            bonds: &[],
            help: "Close a connection that sends nothing for N\nmilliseconds, 10 to 3600000",
        },
        Opt {
            name: "request-ms",
            takes: Takes::NumberOr(10, 3_600_000, "60000"),
            bonds: &[],
            help: "Close a connection whose request takes longer than\nN milliseconds plus 1 for each byte, 10 to\n3600000",
        },
        Opt {
            name: "max-request-ms",
            takes: Takes::Number(10, 86_400_000),
            bonds: &[],
            help: "Close it after N milliseconds however many bytes\nhave come, 10 to 86400000; 3600000 with --until-eof",
        },
        Opt {
            name: "max-inflight-bytes",
            takes: Takes::Number(65_536, 1_099_511_627_776),
            bonds: &[],
            help: "Have at most N bytes of unfinished requests in\nmemory: close those that began first, 65536 to\n1099511627776; 268435456 with --until-eof",
        },
        Opt {
            name: "snappy",
            takes: Takes::Nothing,
            bonds: &[],
            help: "Take bodies with Content-Encoding: snappy, too, as\nPrometheus sends them",
        },
        Opt {
            name: "partial",
            takes: Takes::Nothing,
            bonds: &[],
            help: "Of a request with samples that cannot be taken,\ntake the others; it is answered with 400",
        },
        Opt {
            name: "sort-labels",
            takes: Takes::Nothing,
            bonds: &[],
            help: "Sort the labels of each series by name before they\nare judged, as VictoriaMetrics' vmagent needs",
        },
        Opt {
            name: "explain-replies",
            takes: Takes::Nothing,
            bonds: &[],
            help: "Give each reply 400 a text that says why",
        },
        Opt {
            name: "max-samples",
            takes: Takes::Number(1, 1_099_511_627_776),
            bonds: &[],
            help: "Hold at most N samples: answer 503 to a request\nthat adds more, 1 to 1099511627776",
        },
        Opt {
            name: "max-series",
            takes: Takes::Number(1, 1_099_511_627_776),
            bonds: &[],
            help: "Hold samples of at most N series: answer 503 to a\nrequest that adds more, 1 to 1099511627776",
        },
        Opt {
            name: "dir",
            takes: Takes::Path("DIR"),
            bonds: &[],
            help: "Keep what is taken as a log in this folder, and\nbegin with what it holds",
        },
        Opt {
            name: "quiet",
            takes: Takes::Nothing,
            bonds: &[Bond::Needs("dir")],
            help: "With --dir: do not print at the end what is held",
        },
        Opt {
            name: "decimal",
            takes: Takes::Nothing,
            bonds: &[Bond::Excludes("quiet")],
            help: "Print values as decimals, as 0.25 or 1.5e-7",
        },
        Opt {
            name: "memory",
            takes: Takes::Text("TIME"),
            bonds: &[
                Bond::Needs("quiet"),
                Bond::Excludes("connections"),
                Bond::Excludes("max-samples"),
            ],
            help: "With --dir and --quiet: keep only the samples of the\nlast TIME in memory, as 3h or 90m; those in the\nfolder stay there",
        },
        Opt {
            name: "end-on-write-error",
            takes: Takes::Nothing,
            bonds: &[Bond::Needs("dir"), Bond::Excludes("connections")],
            help: "With --dir: stop once a write to DIR has failed,\nand end with status 4",
        },
        Opt {
            name: "adopt",
            takes: Takes::Nothing,
            bonds: &[Bond::Needs("dir")],
            help: "With --dir: go on in DIR though it has segments that\nno receiver wrote, or is in the folder of a server",
        },
        Opt {
            name: "allow-missing-start",
            takes: Takes::Nothing,
            bonds: &[Bond::Needs("dir")],
            help: "With --dir: go on in DIR though its first segments\nare missing",
        },
        Opt {
            name: "cut-at-fault",
            takes: Takes::Nothing,
            bonds: &[Bond::Needs("dir")],
            help: "With --dir: cut the last segment at its fault though\na whole record follows",
        },
        EVENT_LOG,
        PROGRESS,
        METRICS,
    ],
};

fn receive() -> &'static Words {
    &RECEIVE
}

static VERSION: Words = Words {
    name: "version",
    about: "Prints the version of the program",
    after: help::VERSION,
    options: &[],
};

fn version() -> &'static Words {
    &VERSION
}

/// Returns all commands.
pub(crate) fn commands() -> [&'static Words; 9] {
    [
        body(),
        log(),
        plan(),
        inspect(),
        replay(),
        settings(),
        send(),
        receive(),
        version(),
    ]
}
