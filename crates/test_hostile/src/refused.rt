//! The machine's program if memory runs out. A call for which memory runs out is repeated, so the
//! test holds whichever allocation fails; `tools/refuse-each` lets each of them fail in turn.

use rw_head::Limits;
use rw_machine::Event;
use rw_replay::{Command, read_script};
use rw_report_text::{push_received, push_work};
use rw_shard_core::{Config, ConfigFields};
use rw_types::Bounded;
use rw_world::World;
use std::alloc::{AllocError, Global};

/// How many shards there are and how many labels the receiver accepts, a schedule of which the
/// first line is its log, the state after an orderly shutdown, and the bytes of the first requests.
struct Row<'a> {
    name: &'a str,
    shards: u64,
    labels: u64,
    script: &'a str,
    state: &'a str,
    requests: &'a [&'a [u8]],
}

/// The request of a batch: 1 at 10 ms and 2 at 20 ms of the series `up`.
const REQUEST: &[u8] =
    b"POST /api/v1/write HTTP/1.1\r\nHost: localhost:9090\r\nUser-Agent: rwship/1.0\r\nContent-Type: application/x-protobuf\r\nX-Prometheus-Remote-Write-Version: 0.1.0\r\nConnection: close\r\nContent-Length: 44\r\n\r\n\x0a\x2a\x0a\x0e\x0a\x08__name__\x12\x02up\x12\x0b\x09\x00\x00\x00\x00\x00\x00\xf0\x3f\x10\x0a\x12\x0b\x09\x00\x00\x00\x00\x00\x00\x00\x40\x10\x14";

static ROWS: [Row<'static>; 5] = [
    Row {
        name: "a new epoch waits for the old shards, and two of four series are one",
        shards: 2,
        labels: 64,
        script: "feed 01001565cc629301000000000000000101085f5f6e616d655f5f016101001527ead9c801000000000000000201085f5f6e616d655f5f0162010015e55362ae01000000000000000301085f5f6e616d655f5f0163010015776dcb9501000000000000000401085f5f6e616d655f5f016301001b0c84b936020000000000000003000000000000000a00003ff000000000000001001ba46361f4020000000000000004000000000000001400004000000000000000
place
place
place
place
place
reshard 3
place
flush 0
flush 1
take 0
take 0
freeze 0
send 0
take 1
restart
arrive 0 plain
reply 0
restart
place
",
        state: r#"received {__name__="c"} 10=1 20=2
filtered 0
report complete 6
"#,
        requests: &[],
    },
    Row {
        name: "two series, of which the second has samples",
        shards: 2,
        labels: 64,
        script: "feed 01001565cc629301000000000000000101085f5f6e616d655f5f016101001527ead9c801000000000000000201085f5f6e616d655f5f016201001bb5bff5d1020000000000000002000000000000000a00003ff000000000000001001b3ccc50b5020000000000000002000000000000001400004000000000000000
place
place
place
reshard 1
restart
flush 0
flush 1
take 0
take 1
take 1
restart
freeze 1
send 1
arrive 0 plain
reply 0
restart
place
",
        state: r#"received {__name__="b"} 10=1 20=2
filtered 0
report complete 4
"#,
        requests: &[],
    },
    Row {
        name: "a lost reply",
        shards: 1,
        labels: 64,
        script: "feed 010016391994f301000000000000000101085f5f6e616d655f5f02757001001b7b1e5609020000000000000001000000000000000a00003ff000000000000001001bf26df36d020000000000000001000000000000001400004000000000000000
place
place
place
take 0
take 0
freeze 0
send 0
arrive 0 plain
lost 0
send 0
arrive 1 plain
reply 1
",
        state: r#"received {__name__="up"} 10=1 20=2
filtered 0
report complete 3
"#,
        requests: &[],
    },
    Row {
        name: "a batch that is refused for the labels of one of its samples",
        shards: 1,
        labels: 1,
        script: "feed 01001565cc629301000000000000000101085f5f6e616d655f5f016101001beae7f10701000000000000000202085f5f6e616d655f5f0161036a6f62017801001b7b1e5609020000000000000001000000000000000a00003ff000000000000001001bb5bff5d1020000000000000002000000000000000a00003ff000000000000001001bf26df36d02000000000000000100000000000000140000400000000000000001001b3b71f281020000000000000001000000000000001e00004008000000000000
place
place
place
place
place
take 0
take 0
take 0
freeze 0
send 0
arrive 0 plain
reply 0
",
        state: r#"received {__name__="a"} 30=3
dropped 2 status 400
dropped 3 status 400
dropped 4 status 400
filtered 0
report complete 6
"#,
        requests: &[],
    },
    Row {
        name: "everything is left to the shutdown",
        shards: 1,
        labels: 64,
        script: "feed 010016391994f301000000000000000101085f5f6e616d655f5f02757001001b7b1e5609020000000000000001000000000000000a00003ff000000000000001001bf26df36d020000000000000001000000000000001400004000000000000000
",
        state: r#"received {__name__="up"} 10=1 20=2
filtered 0
report complete 3
"#,
        requests: &[],
    },
];

/// A late reply to an earlier batch whose reply was lost and whose request was sent again, and a
/// kill: the shutdown then changes nothing.
static SENT: Row<'static> = Row {
    name: "a late reply and a kill",
    shards: 1,
    labels: 64,
    script: "feed 010016391994f301000000000000000101085f5f6e616d655f5f02757001001b7b1e5609020000000000000001000000000000000a00003ff000000000000001001bf26df36d02000000000000000100000000000000140000400000000000000001001b3b71f281020000000000000001000000000000001e00004008000000000000
place
place
place
place
take 0
take 0
freeze 0
send 0
arrive 0 plain
lost 0
send 0
arrive 1 plain
reply 1
take 0
freeze 0
send 0
reply 0
kill
",
    state: r#"received {__name__="up"} 10=1 20=2
filtered 0
abandoned 3
report abandoned 4
"#,
    requests: &[REQUEST, REQUEST],
};

fn config_of(alloc: Global, shards: u64) -> Option<Config> {
    let shards = Bounded::try_new(shards)?;
    let mut fields = ConfigFields::standard(alloc).ok()?;
    fields.shards = shards;
    Config::new(fields)
}

fn limits_of(alloc: Global, labels: u64) -> Option<Limits> {
    let max_labels = Bounded::try_new(labels)?;
    let mut limits = Limits::standard(alloc).ok()?;
    limits.max_labels = max_labels;
    Some(limits)
}

fn world_of(alloc: Global, row: &Row<'_>) -> Option<World> {
    let limits = limits_of(alloc, row.labels)?;
    let config = config_of(alloc, row.shards)?;
    World::new(alloc, config, limits).ok()
}

fn new_world(alloc: Global, row: &Row<'_>) -> Option<World> {
    match world_of(alloc, row) {
        Some(world) => Some(world),
        None => world_of(alloc, row),
    }
}

/// Puts the events among the lines of a script. Returns whether there was memory for all.
fn put_events(commands: Vec<Command>, events: &mut Vec<Event>) -> bool {
    for command in commands {
        if let Command::Event(event) = command {
            if events.push(event).is_err() {
                return false;
            }
        }
    }
    true
}

fn put_script(alloc: Global, script: &str, events: &mut Vec<Event>) -> bool {
    match read_script(alloc, script.as_bytes()) {
        Ok(commands) => put_events(commands, events),
        Err(_) => false,
    }
}

fn is_read(alloc: Global, script: &str, events: &mut Vec<Event>) -> bool {
    if put_script(alloc, script, events) {
        return true;
    }
    events.clear();
    put_script(alloc, script, events)
}

fn put_received(text: &mut Vec<u8>, world: &World) -> Result<(), AllocError> {
    for labels in world.label_sets() {
        let samples = world.received(labels)?;
        push_received(text, labels, &samples)?;
    }
    Ok(())
}

fn put_work(text: &mut Vec<u8>, world: &World) -> Result<(), AllocError> {
    let outcome = world.report()?;
    push_work(text, world.ledger(), world.filtered(), outcome.as_ref())
}

/// Puts the text of a world's state. Returns whether there was memory for it.
fn put_state(text: &mut Vec<u8>, world: &World) -> bool {
    put_received(text, world).is_ok() && put_work(text, world).is_ok()
}

fn is_put(text: &mut Vec<u8>, world: &World) -> bool {
    if put_state(text, world) {
        return true;
    }
    text.clear();
    put_state(text, world)
}

/// Puts the text of the state to which events lead a new world.
fn put_state_behind(alloc: Global, row: &Row<'_>, events: &[Event], text: &mut Vec<u8>) -> bool {
    match world_of(alloc, row) {
        Some(mut world) => world.run(events).is_ok() && put_state(text, &world),
        None => false,
    }
}

/// Returns whether a world shows what a new one shows after the same events.
fn shows_the_same(alloc: Global, world: &World, row: &Row<'_>, events: &[Event]) -> bool {
    let mut found = Vec::new(alloc);
    let mut wanted = Vec::new(alloc);
    put_state(&mut found, world)
        && put_state_behind(alloc, row, events, &mut wanted)
        && found.as_slice() == wanted.as_slice()
}

/// Returns whether a world is moved by events. If one fails, it has to show what a world shows
/// after the events before it, and to go on.
fn is_moved(alloc: Global, world: &mut World, row: &Row<'_>, events: &[Event]) -> bool {
    let Err(refused) = world.run(events) else {
        return true;
    };
    let (before, rest) = events.split_at(refused.at);
    shows_the_same(alloc, world, row, before) && world.run(rest).is_ok()
}

/// Returns whether the first requests that a world has sent have these bytes.
fn has_sent(world: &World, requests: &[&[u8]]) -> bool {
    for (k, bytes) in requests.iter().enumerate() {
        match world.request(k) {
            Some(request) if request == *bytes => {}
            _ => return false,
        }
    }
    true
}

/// Returns whether a world goes through events and a shutdown to the state of its row.
fn is_settled(alloc: Global, world: &mut World, row: &Row<'_>, events: &[Event]) -> bool {
    let mut text = Vec::new(alloc);
    is_moved(alloc, world, row, events)
        && (world.settle().is_ok() || world.settle().is_ok())
        && is_put(&mut text, world)
        && text.as_slice() == row.state.as_bytes()
        && has_sent(world, row.requests)
}

/// Returns whether events and a shutdown lead a new world to the state of a row.
fn goes(alloc: Global, row: &Row<'_>, events: &[Event]) -> bool {
    match new_world(alloc, row) {
        Some(mut world) => is_settled(alloc, &mut world, row, events),
        None => false,
    }
}

/// Returns whether a schedule leads to its state.
fn is_gone_through(alloc: Global, row: &Row<'_>) -> bool {
    let mut events = Vec::new(alloc);
    is_read(alloc, row.script, &mut events) && goes(alloc, row, &events)
}

fn rows() -> &'static [Row<'static>] {
    &ROWS
}

/// Returns the first schedule that leads to another state.
fn wrong_row(alloc: Global, rows: &[Row<'static>]) -> Option<&'static str> {
    for row in rows {
        if !is_gone_through(alloc, row) {
            return Some(row.name);
        }
    }
    None
}

#[test]
fn worlds_go_on(rt: HostRuntime) {
    assert_eq!(rt; wrong_row(rt.alloc(), rows()), None);
}

fn sent() -> &'static Row<'static> {
    &SENT
}

/// Several events are run by one call, and a request whose reply is lost is sent again with the
/// same bytes.
#[test]
fn events_are_run(rt: HostRuntime) {
    assert!(rt; is_gone_through(rt.alloc(), sent()));
}
