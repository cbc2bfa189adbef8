//! Schedules and the states that they lead to.

use crate::played::{Schedule, first_wrong};
use crate::rows::none_is_wrong;

static ROWS: [Schedule<'static>; 20] = [
    (
        "settle alone",
        "",
        "settle\n",
        "filtered 0\nreport complete 0\n",
    ),
    ("nothing", "", "", "filtered 0\nreport running\n"),
    (
        "a sample without a series",
        "",
        "log sample 7 10 1\nsettle\n",
        "dropped 0 noseries\nfiltered 0\nreport complete 1\n",
    ),
    (
        "a definition that is no label set",
        "",
        r#"log series 1 {__name__="9"}
log sample 1 10 1
settle
"#,
        "dropped 1 labels 3\nfiltered 0\nreport complete 2\n",
    ),
    (
        "a series that the rules drop",
        "[[rule]]\naction = 'drop'\nsource_labels = ['job']\nregex = 'test'\n",
        r#"log series 1 {job="test"}
log sample 1 10 1
log sample 1 20 1
settle
"#,
        "filtered 2\nreport complete 3\n",
    ),
    (
        "two shards and a reshard",
        "[send]\nshards = 2\n",
        r#"log series 1 {__name__="a"}
log series 2 {__name__="b"}
log series 3 {__name__="c"}
log series 4 {__name__="c"}
log sample 3 10 1
log sample 4 20 2
place
place
place
place
place
reshard 3
place
flush 0
flush 1
take 0
take 0
freeze 0
send 0
take 1
restart
arrive 0 plain
reply 0
restart
place
settle
"#,
        r#"received {__name__="c"} 10=1 20=2
filtered 0
report complete 6
"#,
    ),
    (
        "the second of two shards, and one of one",
        "[send]\nshards = 2\n",
        r#"log series 1 {__name__="a"}
log series 2 {__name__="b"}
log sample 2 10 1
log sample 2 20 2
place
place
place
reshard 1
restart
flush 0
flush 1
take 0
take 1
take 1
restart
freeze 1
send 1
arrive 0 plain
reply 0
restart
place
settle
"#,
        r#"received {__name__="b"} 10=1 20=2
filtered 0
report complete 4
"#,
    ),
    (
        "a lost reply",
        "",
        r#"log series 1 {__name__="up"}
log sample 1 10 1
log sample 1 20 2
place
place
place
take 0
take 0
freeze 0
send 0
arrive 0 plain
lost 0
send 0
arrive 1 plain
reply 1
settle
"#,
        r#"received {__name__="up"} 10=1 20=2
filtered 0
report complete 3
"#,
    ),
    (
        "one label at most",
        "[receive]\nmax_labels = 1\n",
        r#"log series 1 {__name__="a"}
log series 2 {__name__="a",job="x"}
log sample 1 10 1
log sample 2 10 1
log sample 1 20 2
log sample 1 30 3
place
place
place
place
place
take 0
take 0
take 0
freeze 0
send 0
arrive 0 plain
reply 0
settle
"#,
        r#"received {__name__="a"} 30=3
dropped 2 status 400
dropped 3 status 400
dropped 4 status 400
filtered 0
report complete 6
"#,
    ),
    (
        "capacity 1 and a kill",
        "[send]\ncapacity = 1\n",
        r#"log series 1 {__name__="up"}
log sample 1 10 1
log sample 1 20 2
place
place
place
take 0
freeze 0
send 0
place
kill
take 0
arrive 0 plain
"#,
        r#"received {__name__="up"} 10=1
filtered 0
abandoned 1
abandoned 2
report abandoned 3
"#,
    ),
    (
        "a busy receiver, one without memory, and a repeat",
        "",
        r#"log series 1 {__name__="up"}
log sample 1 10 1
place
place
take 0
freeze 0
send 0
arrive 0 busy
reply 0
send 0
arrive 1 short
reply 1
send 0
arrive 2 plain
reply 2
arrive 0 plain
close
flush 0
take 0
"#,
        r#"received {__name__="up"} 10=1
filtered 0
report complete 2
"#,
    ),
    (
        "the same without the last line",
        "",
        r#"log series 1 {__name__="up"}
log sample 1 10 1
place
place
take 0
freeze 0
send 0
arrive 0 busy
reply 0
send 0
arrive 1 short
reply 1
send 0
arrive 2 plain
reply 2
arrive 0 plain
close
flush 0
"#,
        r#"received {__name__="up"} 10=1
filtered 0
report running
"#,
    ),
    (
        "a late reply to an earlier batch",
        "",
        r#"log series 1 {__name__="up"}
log sample 1 10 1
log sample 1 20 2
log sample 1 30 3
place
place
place
take 0
take 0
freeze 0
send 0
arrive 0 plain
lost 0
send 0
arrive 1 plain
reply 1
place
take 0
freeze 0
send 0
reply 0
kill
"#,
        r#"received {__name__="up"} 10=1 20=2
filtered 0
abandoned 3
report abandoned 4
"#,
    ),
    (
        "label sets in byte order, and words that are no whole numbers",
        "",
        r#"log series 1 {b="1"}
log series 2 {a="2"}
log series 3 {a="1",b="x\\y\"z\n"}
log series 4 {a="1"}
log sample 1 -5 -2
log sample 2 10 0x8000000000000000
log sample 3 10 9007199254740992
log sample 4 10 0x3fe0000000000000
settle
"#,
        r#"received {a="1"} 10=0x3fe0000000000000
received {a="1",b="x\\y\"z\n"} 10=9007199254740992
received {a="2"} 10=0x8000000000000000
received {b="1"} -5=-2
filtered 0
report complete 8
"#,
    ),
    (
        "pieces of a segment, cut inside its second record, whose CRC is wrong",
        "",
        r#"feed 010016391994f301000000000000000101085f5f6e616d655f5f0275700100
feed 1b2c514c0702000000000000000100000000000003e800003ff0000000000001

feed 
settle
"#,
        "filtered 0\nreport damaged 3\n",
    ),
    (
        "pieces of two segments, the first of which is torn",
        "",
        r#"feed 010016391994f301000000000000000101085f5f6e616d655f5f0275700100
segment
settle
"#,
        "filtered 0\nreport damaged 8\n",
    ),
    (
        "samples of a series that do not rise",
        "",
        r#"log series 1 {__name__="up"}
log sample 1 10 1
log sample 1 10 1
log sample 1 5 2
log sample 1 20 3
settle
"#,
        r#"received {__name__="up"} 10=1 20=3
dropped 2 notrising
dropped 3 notrising
filtered 0
report complete 5
"#,
    ),
    (
        "two references of a series, of which the second is late",
        "",
        r#"log series 1 {__name__="up"}
log series 2 {__name__="up"}
log sample 1 20 1
log sample 2 10 2
settle
"#,
        r#"received {__name__="up"} 20=1
dropped 3 notrising
filtered 0
report complete 4
"#,
    ),
    (
        "what is noted outlives a reshard",
        "",
        r#"log series 1 {__name__="up"}
log sample 1 10 1
place
place
reshard 3
log sample 1 10 2
log sample 1 20 3
settle
"#,
        r#"received {__name__="up"} 10=1 20=3
dropped 2 notrising
filtered 0
report complete 4
"#,
    ),
    (
        "a sample that does not rise needs no room, and one that finds none is not noted",
        "[send]\ncapacity = 1\n",
        r#"log series 1 {__name__="up"}
log sample 1 10 1
log sample 1 10 2
log sample 1 20 3
log sample 1 20 4
place
place
place
place
place
take 0
place
place
"#,
        r#"dropped 2 notrising
dropped 4 notrising
filtered 0
report running
"#,
    ),
];

fn rows() -> &'static [Schedule<'static>] {
    &ROWS
}

#[test]
fn states(rt: HostRuntime) {
    none_is_wrong(&rt, first_wrong(rt.alloc(), rows()));
}
