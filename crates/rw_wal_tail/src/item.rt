//! What comes at the front of the bytes of a segment.

ghost use Rattle.std.specs.Prelude.{◌≡◌, ◌≢◌, ◌==◌, Bool, true, None, IfSome, drop};
ghost use Rattle.std.specs.List.{list_all};
ghost use Rattle.rw_wal_format.specs.Segments.{zeros_at, data_at, fragment_at, item_in, flagged};
ghost use Rattle.rw_wal_format.specs.Types.{kind_of};
ghost use Rattle.rw_wal_format.specs.Writing.{type_byte};
ghost use Rattle.rw_wal_tail.specs.inner.Found.{item_of, wrong_type_of, KnownZeros, Fits, FragmentFits, DataFits};

use byteorder::{BigEndian, ByteOrder};
use rw_codes::crc32c;
use rw_wal_format::{FragmentType, HEADER_BYTES, TailFault};

/// What comes at the front. A `Fragment` has its type, whether its record is a Snappy block, and
/// how many bytes of data follow its header.
#[derive(Clone, Copy, Debug, PartialEq, Eq, Drop)]
pub(crate) enum Found {
    Nothing,
    Begun,
    Zeros,
    Fragment(FragmentType, bool, usize),
    Wrong(TailFault),
}

fn are_zero(bytes: &[u8]) -> bool
    ensures { result ≡ list_all (λ b. b == 0) bytes.now }
{
    bytes.iter().all(|b| *b == 0)
}

/// Returns the zeros at the end of a page, of which the first `known` were seen before.
fn zeros(left: usize, known: usize, bytes: &[u8]) -> Found
    requires { KnownZeros left known bytes.now }
    ensures item { zeros_at left bytes.now ≡ item_of (drop 7 bytes.now) result }
    ensures fits { (c : Bool) → Fits c left bytes.now result }
{
    let end = bytes.len().min(left);
    if !are_zero(&bytes[known..end]) {
        Found::Wrong(TailFault::NonzeroPadding)
    } else if bytes.len() < left {
        Found::Nothing
    } else {
        Found::Zeros
    }
}

/// Returns the fault of a type byte that no fragment has.
fn wrong_type(b: u8) -> TailFault
    ensures { result ≡ wrong_type_of b }
{
    if b >= 8 && b < 32 {
        TailFault::Compressed
    } else {
        TailFault::BadType
    }
}

/// Returns what a type byte stands for, if a fragment may have it: its type, and whether its record
/// is a Snappy block.
fn part_of(may_compress: bool, kind: u8) -> Option<(FragmentType, bool)>
    ensures part { IfSome result (λ found.
        (kind ≡ type_byte (flagged found.1 (kind_of found.0)))
        × (found.1 ≡ true → may_compress ≡ true)) }
    ensures none { result ≡ None → ((kind ≢ 1) × (kind ≢ 2) × (kind ≢ 3) × (kind ≢ 4))
        × (may_compress ≡ true → (kind ≢ 9) × (kind ≢ 10) × (kind ≢ 11) × (kind ≢ 12)) }
{
    if let Some(part) = FragmentType::from_byte(kind) {
        return Some((part, false));
    }
    if !may_compress {
        return None;
    }
    match FragmentType::from_snappy_byte(kind) {
        Some(part) => Some((part, true)),
        None => None,
    }
}

/// Returns the fragment after its header, with `len` bytes of data and the CRC-32C `crc`.
fn data(kind: FragmentType, is_block: bool, left: usize, len: u16, crc: u32, rest: &[u8]) -> Found
    ensures item { data_at (flagged is_block (kind_of kind)) left len crc rest.now
        ≡ item_of rest.now result }
    ensures fits { DataFits is_block left rest.now result }
{
    let len = len as usize;
    if left < HEADER_BYTES + len {
        return Found::Wrong(TailFault::BadLength);
    }
    if rest.len() < len {
        return Found::Begun;
    }
    if crc32c(&rest[..len]) != crc {
        return Found::Wrong(TailFault::BadCrc);
    }
    Found::Fragment(kind, is_block, len)
}

/// Returns the fragment after its type byte.
fn fragment(kind: FragmentType, is_block: bool, left: usize, bytes: &[u8]) -> Found
    ensures item { fragment_at (flagged is_block (kind_of kind)) left bytes.now
        ≡ item_of (drop 6 bytes.now) result }
    ensures fits { FragmentFits is_block left bytes.now result }
{
    if bytes.len() < 6 {
        return Found::Begun;
    }
    let len = BigEndian::read_u16(bytes);
    let crc = BigEndian::read_u32(&bytes[2..]);
    data(kind, is_block, left, len, crc, &bytes[6..])
}

/// Returns what comes at the front of the bytes, with `left` bytes left in its page. Of zeros
/// there, the first `known` were seen before.
pub(crate) fn item(may_compress: bool, left: usize, known: usize, bytes: &[u8]) -> Found
    requires { KnownZeros left known bytes.now }
    ensures item { item_in may_compress left bytes.now ≡ item_of (drop 7 bytes.now) result }
    ensures fits { Fits may_compress left bytes.now result }
{
    if bytes.is_empty() {
        return Found::Nothing;
    }
    let kind = bytes[0];
    if left < HEADER_BYTES || kind == 0 {
        return zeros(left, known, bytes);
    }
    let rest = &bytes[1..];
    match part_of(may_compress, kind) {
        Some((part, is_block)) => fragment(part, is_block, left, rest),
        None => Found::Wrong(wrong_type(kind)),
    }
}
