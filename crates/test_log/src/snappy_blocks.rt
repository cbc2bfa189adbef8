//! Blocks of the Snappy format. Where a comment says so, a block was written by libsnappy 1.1.9, or
//! libsnappy decodes it to the same bytes or refuses it. trials/try-snappy plays random blocks.

use crate::rows::{holds, none_is_wrong};
use rw_snappy::{Encoder, SnappyFault, check, decode};
use std::alloc::{AllocError, Global};

/// A name, a block, and the bytes that it decodes to.
static BLOCKS: [(&str, &[u8], &[u8]); 18] = [
    // Written by libsnappy of these bytes.
    ("nothing", &[0], b""),
    ("a letter", &[1, 0, 97], b"a"),
    (
        "a literal of 60 bytes",
        b"\x3c\xec0123456789abcdefghijABCDEFGHIJklmnopqrstKLMNOPQRST!#$%&()*+,",
        b"0123456789abcdefghijABCDEFGHIJklmnopqrstKLMNOPQRST!#$%&()*+,",
    ),
    (
        "a literal of 61 bytes",
        b"\x3d\xf0\x3c0123456789abcdefghijABCDEFGHIJklmnopqrstKLMNOPQRST!#$%&()*+,-",
        b"0123456789abcdefghijABCDEFGHIJklmnopqrstKLMNOPQRST!#$%&()*+,-",
    ),
    (
        "300 bytes 0",
        &[
            172, 2, 0, 0, 254, 1, 0, 254, 1, 0, 254, 1, 0, 254, 1, 0, 170, 1, 0,
        ],
        &[0; 300],
    ),
    (
        "three bytes seven times",
        &[21, 8, 120, 97, 98, 70, 3, 0],
        b"xabxabxabxabxabxabxab",
    ),
    (
        "three series",
        b"\x7e\xa8http_requests_total{job=\"api\",code=\"200\"} h\x8a\x2a\x00\x08404n\x2a\x00\x40web\",code=\"200\"} ",
        b"http_requests_total{job=\"api\",code=\"200\"} http_requests_total{job=\"api\",code=\"404\"} http_requests_total{job=\"web\",code=\"200\"} ",
    ),
    // Each form of an element. libsnappy decodes these to the same bytes.
    ("a copy with 1 byte", &[7, 8, 120, 97, 98, 1, 2], b"xababab"),
    (
        "a copy with 2 bytes",
        &[7, 8, 120, 97, 98, 14, 2, 0],
        b"xababab",
    ),
    (
        "a copy with 4 bytes",
        &[7, 8, 120, 97, 98, 15, 2, 0, 0, 0],
        b"xababab",
    ),
    ("a copy of 1 byte", &[2, 0, 97, 2, 1, 0], b"aa"),
    ("a length in 1 byte", &[1, 240, 0, 97], b"a"),
    ("a length in 2 bytes", &[1, 244, 0, 0, 97], b"a"),
    ("a length in 3 bytes", &[1, 248, 0, 0, 0, 97], b"a"),
    ("a length in 4 bytes", &[1, 252, 0, 0, 0, 0, 97], b"a"),
    ("a front of 3 bytes", &[129, 128, 0, 0, 97], b"a"),
    ("a front of 5 bytes", &[129, 128, 128, 128, 0, 0, 97], b"a"),
    // libsnappy refuses more than five bytes here. Go's package, which Prometheus uses, takes ten.
    (
        "a front of 10 bytes",
        &[129, 128, 128, 128, 128, 128, 128, 128, 128, 0, 0, 97],
        b"a",
    ),
];

/// A name, a block that libsnappy refuses, and its fault.
static FAULTS: [(&str, &[u8], SnappyFault); 24] = [
    ("no bytes", &[], SnappyFault::BadLength),
    ("a front that is cut", &[128], SnappyFault::BadLength),
    (
        "2^32 bytes",
        &[128, 128, 128, 128, 16],
        SnappyFault::BadLength,
    ),
    (
        "a front of 11 bytes",
        &[128, 128, 128, 128, 128, 128, 128, 128, 128, 128, 1],
        SnappyFault::BadLength,
    ),
    (
        "a literal without its bytes",
        &[1, 0],
        SnappyFault::Truncated,
    ),
    (
        "a literal without its length",
        &[1, 240],
        SnappyFault::Truncated,
    ),
    ("half a length", &[1, 244, 0], SnappyFault::Truncated),
    (
        "a literal of 2^32 bytes",
        &[1, 252, 255, 255, 255, 255, 97],
        SnappyFault::Truncated,
    ),
    (
        "no offset of 1 byte",
        &[5, 0, 97, 1],
        SnappyFault::Truncated,
    ),
    (
        "half an offset of 2 bytes",
        &[2, 0, 97, 2, 1],
        SnappyFault::Truncated,
    ),
    (
        "3 bytes of an offset of 4",
        &[2, 0, 97, 3, 1, 0, 0],
        SnappyFault::Truncated,
    ),
    (
        "offset 0 in 1 byte",
        &[5, 0, 97, 1, 0],
        SnappyFault::BadOffset,
    ),
    (
        "offset 0 in 2 bytes",
        &[5, 0, 97, 14, 0, 0],
        SnappyFault::BadOffset,
    ),
    (
        "offset 0 in 4 bytes",
        &[5, 0, 97, 15, 0, 0, 0, 0],
        SnappyFault::BadOffset,
    ),
    ("a copy at the front", &[4, 1, 1], SnappyFault::BadOffset),
    (
        "an offset of one too many",
        &[5, 0, 97, 1, 2],
        SnappyFault::BadOffset,
    ),
    (
        "high bits of an offset",
        &[5, 0, 97, 33, 1],
        SnappyFault::BadOffset,
    ),
    ("no elements", &[1], SnappyFault::WrongLength),
    ("a byte too few", &[2, 0, 97], SnappyFault::WrongLength),
    ("a byte too many", &[1, 4, 97, 98], SnappyFault::WrongLength),
    (
        "a literal in an empty block",
        &[0, 0, 97],
        SnappyFault::WrongLength,
    ),
    (
        "a copy that is too short",
        &[8, 8, 120, 97, 98, 14, 2, 0],
        SnappyFault::WrongLength,
    ),
    (
        "a copy that is too long",
        &[6, 8, 120, 97, 98, 14, 2, 0],
        SnappyFault::WrongLength,
    ),
    (
        "a byte after the last",
        &[1, 0, 97, 0, 97],
        SnappyFault::WrongLength,
    ),
];

/// Returns whether a block is judged and decoded so, and is too long for a limit of one byte less.
fn is_decoded(block: &[u8], bytes: &[u8], out: &mut Vec<u8>) -> bool {
    let n = bytes.len();
    check(block, n) == Ok(n)
        && decode(block, n, out) == Ok(Ok(()))
        && out.as_slice() == bytes
        && (n == 0
            || check(block, n - 1) == Err(SnappyFault::TooLong)
                && decode(block, n - 1, out) == Ok(Err(SnappyFault::TooLong))
                && out.is_empty())
}

/// More bytes than any test writes.
const MOST: usize = 1 << 30;

/// Writes a block with copies.
fn encode(encoder: &mut Encoder, bytes: &[u8], out: &mut Vec<u8>) -> Result<(), AllocError> {
    if bytes.len() > MOST {
        return Err(AllocError);
    }
    encoder.encode(bytes, out)
}

/// Writes a block of one literal.
fn encode_literal(bytes: &[u8], out: &mut Vec<u8>) -> Result<(), AllocError> {
    if bytes.len() > MOST {
        return Err(AllocError);
    }
    rw_snappy::encode_literal(bytes, out)
}

/// Returns whether bytes are written and decoded again: with copies, and as one literal.
fn is_there_and_back(
    encoder: &mut Encoder,
    bytes: &[u8],
    block: &mut Vec<u8>,
    out: &mut Vec<u8>,
) -> Result<bool, AllocError> {
    encode(encoder, bytes, block)?;
    if !is_decoded(block, bytes, out) {
        return Ok(false);
    }
    encode_literal(bytes, block)?;
    Ok(is_decoded(block, bytes, out))
}

/// Returns the first block that is not decoded to its bytes, or whose bytes are not written so that
/// they are decoded again.
fn wrong_block(alloc: Global) -> Result<Option<&'static str>, AllocError> {
    let mut encoder = Encoder::new(alloc)?;
    let mut again = Vec::new(alloc);
    let mut out = Vec::new(alloc);
    for (name, block, bytes) in &BLOCKS {
        if !is_decoded(block, bytes, &mut out)
            || !is_there_and_back(&mut encoder, bytes, &mut again, &mut out)?
        {
            return Ok(Some(name));
        }
    }
    Ok(None)
}

#[test]
fn blocks_are_decoded_and_written(rt: HostRuntime) {
    let wrong = wrong_block(rt.alloc());
    holds(&rt, wrong.is_ok());
    none_is_wrong(&rt, wrong.unwrap_or(None));
}

/// Returns whether a block has this fault, which leaves no bytes of what was there before.
fn is_refused(block: &[u8], fault: SnappyFault, out: &mut Vec<u8>) -> bool {
    let was_filled = decode(&[1, 0, 97], 9, out) == Ok(Ok(()));
    was_filled
        && check(block, 1_000) == Err(fault)
        && decode(block, 1_000, out) == Ok(Err(fault))
        && out.is_empty()
}

/// Returns the first block that does not have its fault.
fn other_fault(out: &mut Vec<u8>) -> Option<&'static str> {
    for (name, block, fault) in &FAULTS {
        if !is_refused(block, *fault, out) {
            return Some(name);
        }
    }
    None
}

#[test]
fn faults_are_found(rt: HostRuntime) {
    none_is_wrong(&rt, other_fault(&mut Vec::new(rt.alloc())));
}

static TEXTS: [(SnappyFault, &'static str); 5] = [
    (
        SnappyFault::BadLength,
        "the block does not begin with a length below 2^32",
    ),
    (
        SnappyFault::TooLong,
        "the decoded length is above the limit",
    ),
    (SnappyFault::Truncated, "the block ends inside an element"),
    (
        SnappyFault::BadOffset,
        "the offset of a copy is 0 or before the decoded bytes",
    ),
    (
        SnappyFault::WrongLength,
        "the decoded bytes are not as many as the length says",
    ),
];

/// Returns whether a fault prints this text.
fn prints(alloc: Global, fault: SnappyFault, text: &str) -> bool {
    match format!(in alloc; "{fault}") {
        Ok(printed) => printed.as_str() == text,
        Err(_) => false,
    }
}

/// Returns the text of the first fault that does not print it.
fn other_text(alloc: Global) -> Option<&'static str> {
    for row in &TEXTS {
        if !prints(alloc, row.0, row.1) {
            return Some(row.1);
        }
    }
    None
}

#[test]
fn faults_have_texts(rt: HostRuntime) {
    none_is_wrong(&rt, other_text(rt.alloc()));
}

/// Returns whether an encoder writes a text as a new one does, after it has written another text.
fn forgets(alloc: Global, first: &[u8], text: &[u8]) -> Result<bool, AllocError> {
    let mut used = Encoder::new(alloc)?;
    let mut one = Vec::new(alloc);
    encode(&mut used, first, &mut one)?;
    encode(&mut used, text, &mut one)?;
    let mut other = Vec::new(alloc);
    let mut unused = Encoder::new(alloc)?;
    encode(&mut unused, text, &mut other)?;
    Ok(one.as_slice() == other.as_slice())
}

/// A block does not depend on what the encoder wrote before: not on the same text, and not on a
/// long one before a short one or after it.
#[test]
fn an_encoder_forgets(rt: HostRuntime) {
    let (_, _, short) = BLOCKS[6];
    let long = &[7; 5_000];
    holds(&rt, forgets(rt.alloc(), short, short) == Ok(true));
    holds(&rt, forgets(rt.alloc(), long, short) == Ok(true));
    holds(&rt, forgets(rt.alloc(), short, long) == Ok(true));
}

/// Returns whether an encoder is made, at the second call if memory runs out at the first.
fn new_encoder(alloc: Global) -> Result<Encoder, AllocError> {
    match Encoder::new(alloc) {
        Err(_) => Encoder::new(alloc),
        made => made,
    }
}

/// Returns whether a call was answered: at once, or the second time after an answer that memory ran
/// out, which left nothing in `out`.
fn encodes(encoder: &mut Encoder, bytes: &[u8], out: &mut Vec<u8>) -> bool {
    encode(encoder, bytes, out).is_ok() || out.is_empty() && encode(encoder, bytes, out).is_ok()
}

fn encodes_literal(bytes: &[u8], out: &mut Vec<u8>) -> bool {
    encode_literal(bytes, out).is_ok() || out.is_empty() && encode_literal(bytes, out).is_ok()
}

fn decodes(block: &[u8], bytes: &[u8], out: &mut Vec<u8>) -> bool {
    let is_decoded = decode(block, bytes.len(), out) == Ok(Ok(()))
        || out.is_empty() && decode(block, bytes.len(), out) == Ok(Ok(()));
    is_decoded && out.as_slice() == bytes
}

/// Returns whether a text is written and read again although each call may run out of memory once.
fn is_there_and_back_again(alloc: Global, bytes: &[u8]) -> bool {
    let Ok(mut encoder) = new_encoder(alloc) else {
        return false;
    };
    let mut block = Vec::new(alloc);
    let mut literal = Vec::new(alloc);
    let mut out = Vec::new(alloc);
    let mut other = Vec::new(alloc);
    encodes(&mut encoder, bytes, &mut block)
        && encodes_literal(bytes, &mut literal)
        && decodes(&block, bytes, &mut out)
        && decodes(&literal, bytes, &mut other)
}

/// A block with a fault is refused for it whatever allocation fails.
#[test]
fn calls_after_refused_memory_are_right(rt: HostRuntime) {
    let (_, _, text) = BLOCKS[6];
    holds(&rt, is_there_and_back_again(rt.alloc(), text));
    let mut out = Vec::new(rt.alloc());
    holds(
        &rt,
        decode(&[9, 0, 97], 9, &mut out) == Ok(Err(SnappyFault::WrongLength)),
    );
}
