//! The schedules of docs/REPLAY.md.

use crate::played::{Schedule, first_wrong};
use crate::rows::none_is_wrong;

const LOST_REPLY: Schedule<'_> = (
    "a lost reply",
    "",
    r#"log series 1 {__name__="up"}
log sample 1 1000 1
log sample 1 2000 0
place
place
place
take 0
take 0
freeze 0
send 0
arrive 0 plain
lost 0
send 0
arrive 1 plain
reply 1
settle
"#,
    r#"received {__name__="up"} 1000=1 2000=0
filtered 0
report complete 3
"#,
);

const RESHARD: Schedule<'_> = (
    "a reshard",
    "[send]\nshards = 2\nbatch = 1\n",
    r#"log series 1 {__name__="a"}
log series 2 {__name__="b"}
log sample 2 1000 1
log sample 2 2000 2
place
place
place
take 1
freeze 1
send 1
arrive 0 plain
lost 1
send 1
arrive 1 plain
reply 1
reshard 1
flush 0
flush 1
take 0
take 1
restart
place
take 0
freeze 0
send 0
arrive 2 plain
arrive 0 plain
reply 2
reply 0
settle
"#,
    r#"received {__name__="b"} 1000=1 2000=2
filtered 0
report complete 4
"#,
);

const KILL: Schedule<'_> = (
    "a kill",
    "[send]\nbatch = 1\n",
    r#"log series 1 {__name__="up"}
log sample 1 1000 1
log sample 1 2000 2
log sample 1 3000 3
place
place
place
place
take 0
freeze 0
send 0
arrive 0 plain
reply 0
take 0
freeze 0
send 0
kill
arrive 1 plain
"#,
    r#"received {__name__="up"} 1000=1 2000=2
filtered 0
abandoned 2
abandoned 3
report abandoned 4
"#,
);

static ROWS: [Schedule<'static>; 3] = [LOST_REPLY, RESHARD, KILL];

/// Two series, each with a name that is not a legacy name.
const NAMES: &str = r#"log series 1 {__name__="http.rate","säge"="1"}
log series 2 {"9x"="1"}
log sample 1 10 1
log sample 2 10 2
settle
"#;

const NOT_SENT: &str = "dropped 2 labels 3\ndropped 3 labels 3\nfiltered 0\nreport complete 4\n";

/// Each end takes any name, or legacy ones alone.
static NAMES_ROWS: [Schedule<'static>; 5] = [
    (
        "both take any name",
        "[send]\nnames = 'utf8'\n[receive]\nnames = 'utf8'\n",
        NAMES,
        "received {\"9x\"=\"1\"} 10=2\nreceived {__name__=\"http.rate\",\"säge\"=\"1\"} 10=1\nfiltered 0\nreport complete 4\n",
    ),
    (
        "the sender alone takes any name",
        "[send]\nnames = 'utf8'\n",
        NAMES,
        "dropped 2 status 400\ndropped 3 status 400\nfiltered 0\nreport complete 4\n",
    ),
    ("no names are set", "", NAMES, NOT_SENT),
    (
        "the receiver alone takes any name",
        "[receive]\nnames = 'utf8'\n",
        NAMES,
        NOT_SENT,
    ),
    (
        "both take legacy names",
        "[send]\nnames = 'legacy'\n[receive]\nnames = 'legacy'\n",
        NAMES,
        NOT_SENT,
    ),
];

fn names_rows() -> &'static [Schedule<'static>] {
    &NAMES_ROWS
}

#[test]
fn names_of_any_text(rt: HostRuntime) {
    none_is_wrong(&rt, first_wrong(rt.alloc(), names_rows()));
}

fn rows() -> &'static [Schedule<'static>] {
    &ROWS
}

#[test]
fn states(rt: HostRuntime) {
    none_is_wrong(&rt, first_wrong(rt.alloc(), rows()));
}
