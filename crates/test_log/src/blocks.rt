//! Logs whose records are Snappy blocks: the first records of a segment that Prometheus 2.42 wrote
//! with its default flags, whole, in pieces and changed.

use crate::fragments::put_fragment;
use rw_types::Entry;
use rw_wal_tail::{SkippedType, Tail, TailFault};
use std::alloc::{AllocError, Global};
use std::test::Fail;

/// The definition of `{__name__="one", l="xx.."}`, with forty letters, and the sample 1.
const PROMETHEUS: [u8; 69] = [
    0x09, 0x00, 0x1d, 0xae, 0x82, 0x08, 0xa3, 0x42, 0x04, 0x01, 0x00, 0x09, 0x01, 0x48, 0x01, 0x02,
    0x08, 0x5f, 0x5f, 0x6e, 0x61, 0x6d, 0x65, 0x5f, 0x5f, 0x03, 0x6f, 0x6e, 0x65, 0x01, 0x6c, 0x28,
    0x78, 0x9a, 0x01, 0x00, 0x09, 0x00, 0x1a, 0xfa, 0xf9, 0xb0, 0x32, 0x1b, 0x04, 0x02, 0x00, 0x09,
    0x01, 0x48, 0x01, 0x00, 0x00, 0x01, 0xa2, 0x2c, 0x90, 0x8d, 0xda, 0x00, 0x00, 0x3f, 0xf0, 0x00,
    0x00, 0x00, 0x00, 0x00, 0x00,
];

/// Time and bits of the sample.
const SAMPLE: (i64, u64) = (1_796_044_000_730, 0x3ff0_0000_0000_0000);

/// What a reader has returned: how many definitions of two labels, how many samples such as
/// `SAMPLE`, how many skipped records of tombstones, and the fault.
#[derive(Clone, Copy, PartialEq, Eq)]
struct Seen {
    definitions: u64,
    samples: u64,
    tombstones: u64,
    end: Option<TailFault>,
}

const NOTHING: Seen = Seen {
    definitions: 0,
    samples: 0,
    tombstones: 0,
    end: None,
};

const BOTH: Seen = Seen {
    definitions: 1,
    samples: 1,
    tombstones: 0,
    end: None,
};

impl Seen {
    fn take(&mut self, entry: Entry) {
        match entry {
            Entry::Def { reference, labels } => {
                if reference == 1 && labels.len() == 2 {
                    self.definitions = self.definitions.wrapping_add(1);
                }
            }
            Entry::Sample { reference, t, word } => {
                if reference == 1 && (t, word.0) == SAMPLE {
                    self.samples = self.samples.wrapping_add(1);
                }
            }
        }
    }
}

/// Reads a text in pieces of `size` bytes.
fn read(tail: &mut Tail, text: &[u8], size: usize) -> Seen {
    let mut seen = NOTHING;
    for piece in text.chunks(size.max(1)) {
        if tail.feed(piece).is_err() {
            return NOTHING;
        }
        for _ in 0..100u32 {
            match tail.next_entry() {
                Ok(Some(entry)) => seen.take(entry),
                Ok(None) => break,
                Err(fault) => {
                    seen.end = Some(fault);
                    break;
                }
            }
        }
    }
    seen.tombstones = tail.skipped_of(SkippedType::Tombstones);
    seen
}

/// Reads a text with the option.
fn read_blocks(alloc: Global, text: &[u8], size: usize) -> Result<Seen, AllocError> {
    let mut tail = Tail::for_compressed(alloc)?;
    Ok(read(&mut tail, text, size))
}

/// Returns what is read of fragments with these type bytes, each of a part of the first block.
fn read_parts(alloc: Global, kinds: &[u8]) -> Result<Seen, AllocError> {
    let block = &PROMETHEUS[7..36];
    let mut text = Vec::new(alloc);
    let size = block.len().div_ceil(kinds.len().max(1)).max(1);
    for (kind, part) in kinds.iter().zip(block.chunks(size)) {
        put_fragment(&mut text, *kind, part)?;
    }
    read_blocks(alloc, &text, 1_000)
}

#[test]
fn a_log_of_prometheus_with_default_flags(rt: HostRuntime) -> Result<(), Fail> {
    let alloc = rt.alloc();
    assert!(rt; read_blocks(alloc, &PROMETHEUS, 100)? == BOTH);
    assert!(rt; read_blocks(alloc, &PROMETHEUS, 7)? == BOTH);
    assert!(rt; read_blocks(alloc, &PROMETHEUS, 1)? == BOTH);
    Ok(())
}

#[test]
fn without_the_option_it_is_refused(rt: HostRuntime) {
    let mut tail = Tail::new(rt.alloc());
    let refused = Seen {
        end: Some(TailFault::Compressed),
        ..NOTHING
    };
    assert!(rt; read(&mut tail, &PROMETHEUS, 100) == refused);
}

/// The block of the definition in three fragments, with the flag in each, and not in one of them.
#[test]
fn all_fragments_have_the_flag(rt: HostRuntime) -> Result<(), Fail> {
    let alloc = rt.alloc();
    let definition = Seen { samples: 0, ..BOTH };
    let out_of_sequence = Seen {
        end: Some(TailFault::Sequence),
        ..NOTHING
    };
    assert!(rt; read_parts(alloc, &[10, 11, 12])? == definition);
    assert!(rt; read_parts(alloc, &[10, 3, 12])? == out_of_sequence);
    assert!(rt; read_parts(alloc, &[10, 11, 4])? == out_of_sequence);
    assert!(rt; read_parts(alloc, &[2, 11])? == out_of_sequence);
    Ok(())
}

/// A block that says one byte more than it has, and one that says one byte more than 16 MiB.
#[test]
fn faulty_blocks_are_bad_records(rt: HostRuntime) -> Result<(), Fail> {
    let alloc = rt.alloc();
    let bad = Seen {
        end: Some(TailFault::BadRecord),
        ..NOTHING
    };
    for block in [[2, 0, 3, 0, 0, 0].as_slice(), &[129, 128, 128, 8, 0, 3]] {
        let mut text = Vec::new(alloc);
        put_fragment(&mut text, 9, block)?;
        assert!(rt; read_blocks(alloc, &text, 100)? == bad);
    }
    Ok(())
}

/// A plain record and a block, both of tombstones, and after them the log of Prometheus.
#[test]
fn plain_records_are_read_beside_blocks(rt: HostRuntime) -> Result<(), Fail> {
    let alloc = rt.alloc();
    let mut text = Vec::new(alloc);
    put_fragment(&mut text, 1, &[3])?;
    put_fragment(&mut text, 9, &[1, 0, 3])?;
    text.extend_from_slice(&PROMETHEUS)?;
    let all = Seen {
        tombstones: 2,
        ..BOTH
    };
    assert!(rt; read_blocks(alloc, &text, 5)? == all);
    Ok(())
}
