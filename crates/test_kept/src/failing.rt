//! A receiver that can no longer write to its folder.

use crate::life::{Life, holds, lives, new_folder};
use std::alloc::{AllocError, Global};
use std::fs;
use std::test::Fail;

/// Returns a text with 12,000 bytes in place of each `*`. A page has 32,768 bytes, so that two such
/// label sets fit into a segment of one page.
fn lengthen(alloc: Global, text: &[u8]) -> Result<Vec<u8>, AllocError> {
    let mut long = Vec::new(alloc);
    for byte in text {
        if *byte == b'*' {
            long.resize(long.len() + 12_000, b'x')?;
        } else {
            long.push(*byte)?;
        }
    }
    Ok(long)
}

/// Its third sample needs a next segment.
const LOG: &[u8] =
    b"series 1 {__name__=\"a*\"}\nseries 2 {__name__=\"b*\"}\nseries 3 {__name__=\"c*\"}\n\
sample 1 1000 1\nsample 2 1000 2\nsample 3 1000 3\nsample 1 2000 4\n";

const HELD: &[u8] = b"received {__name__=\"a*\"} 1000=1\nreceived {__name__=\"b*\"} 1000=2\n";

/// The next segment cannot be created, since a file has its name. What was acknowledged before is
/// in the folder, and nothing is acknowledged from then on: the sender tries its third sample
/// again, and the fourth one waits.
#[test]
fn a_call_that_fails_loses_nothing_acknowledged(rt: HostRuntime) -> Result<(), Fail> {
    let dir = new_folder(&rt, "rwship-a-call-that-fails")?;
    let log = lengthen(rt.alloc(), LOG)?;
    let held = lengthen(rt.alloc(), HELD)?;
    let life = Life {
        name: "",
        opened: b"",
        max_samples: u64::MAX,
        made: Some("00000001"),
        log: &log,
        printed: b"filtered 0\nabandoned 5\nabandoned 6\nreport abandoned 7\n",
        acknowledged: 2,
        is_refused: true,
    };
    let is_so = lives(&rt, &rt, dir.as_path().as_str(), &life)?;
    let is_held = holds(&rt, dir.as_path().as_str(), &held)?;
    fs::remove_dir_all(&rt, dir.as_path())?;
    assert!(rt; is_so);
    assert!(rt; is_held);
    Ok(())
}
