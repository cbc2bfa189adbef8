//! Receivers over one folder, one after the other.

use crate::life::{Life, holds, lives, new_folder};
use std::fs;
use std::sync::Wait;
use std::test::Fail;
use std::thread::Threads;
use std::time::Clock;

const TWO: &[u8] = b"received {__name__=\"up\"} 1000=1 2000=2\n";

const FOUR: &[u8] =
    b"received {__name__=\"down\"} 4000=4\nreceived {__name__=\"up\"} 1000=1 2000=2 3000=3\n";

const FIVE: &[u8] =
    b"received {__name__=\"down\"} 4000=4 5000=5\nreceived {__name__=\"up\"} 1000=1 2000=2 3000=3\n";

static LIVES: [Life<'static>; 3] = [
    Life {
        name: "an empty folder",
        opened: b"",
        max_samples: u64::MAX,
        made: None,
        log: b"series 1 {__name__=\"up\"}\nsample 1 1000 1\nsample 1 2000 2\n",
        printed: b"filtered 0\nreport complete 3\n",
        acknowledged: 2,
        is_refused: false,
    },
    Life {
        name: "the log again, and the rest of it",
        opened: TWO,
        max_samples: u64::MAX,
        made: None,
        log: b"series 1 {__name__=\"up\"}\nsample 1 1000 1\nsample 1 2000 2\nsample 1 3000 3\nseries 2 {__name__=\"down\"}\nsample 2 4000 4\n",
        printed: b"filtered 0\nreport complete 6\n",
        acknowledged: 4,
        is_refused: false,
    },
    Life {
        name: "a receiver that holds five samples at most",
        opened: FOUR,
        max_samples: 5,
        made: None,
        log: b"series 2 {__name__=\"down\"}\nsample 2 5000 5\nsample 2 6000 6\nsample 2 7000 7\n",
        printed: b"filtered 0\nabandoned 2\nabandoned 3\nreport abandoned 4\n",
        acknowledged: 1,
        is_refused: true,
    },
];

/// Returns the name of the first life that does not go as it says.
fn wrong_life<R: Threads + Wait + Clock + Copy + Send + Sync + 'static>(
    rt: &HostRuntime,
    threads: &R,
    dir: &str,
) -> Result<Option<&'static str>, Fail> {
    for life in &LIVES {
        if !lives(rt, threads, dir, life)? {
            return Ok(Some(life.name));
        }
    }
    Ok(None)
}

/// What was acknowledged is in the folder, and nothing else, also at a limit.
#[test]
fn what_is_acknowledged_is_in_the_folder(rt: HostRuntime) -> Result<(), Fail> {
    let dir = new_folder(&rt, "rwship-what-is-acknowledged")?;
    let wrong = wrong_life(&rt, &rt, dir.as_path().as_str())?;
    let is_held = holds(&rt, dir.as_path().as_str(), FIVE)?;
    fs::remove_dir_all(&rt, dir.as_path())?;
    assert_eq!(rt; wrong, None);
    assert!(rt; is_held);
    Ok(())
}
