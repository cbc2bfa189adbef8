//! A history has no bytes and may cross threads.

use crate::rows::holds;
use rw_history::History;

fn crosses_threads<T: Send + Sync>(_x: &T) {}

#[test]
fn has_no_bytes(rt: HostRuntime) {
    let mut words = History::new();
    words.push(&String::new(rt.alloc()));
    words.extend(&[]);
    crosses_threads(&words);
    let copy = words.again();
    holds(
        &rt,
        size_of_val(&copy) == 0 && size_of::<History<u64>>() == 0,
    );
    let _ = History::of(b"log");
}
