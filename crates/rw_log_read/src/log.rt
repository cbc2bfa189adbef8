//! The segments of a log, read one after the other.

ghost use Rattle.std.specs.Prelude.{◌≡◌, ◌<◌, ◌∷◌, ◌++◌, [], ℕ, List, map, length, Err, None, IfOk, OnOk, vec_len};
ghost use Rattle.rw_types.specs.declared.transfer.ReadFault.TheVariants.{Failed};
ghost use Rattle.rw_types.specs.declared.entry.Entry.{Entry};
ghost use Rattle.rw_follow.specs.Meals.{no_meal};
ghost use Rattle.rw_follow.specs.Queues.{AreSure};
ghost use Rattle.rw_follow.specs.declared.follower.SegmentError.TheVariants.{Unreadable, Missing};
ghost use Rattle.rw_wal_format.specs.Pieces.{begun_log, is_marked};
ghost use Rattle.rw_wal_tail.specs.Taking.{HasTaken, HasTakenAll};
ghost use Rattle.rw_log_read.specs.Logs.{ReadsInto, ReadsNamed, fault_in, source_of};
ghost use Rattle.rw_log_read.specs.inner.Logs.{AreTaken, ReadsLog, ReadsSegment, begun};
ghost use Rattle.rw_log_read.specs.declared.named.UnreadLog.{UnreadLog};

use crate::counting::Counting;
use crate::log_read::{LogRead, Segment};
use crate::named::{Named, UnreadLog, names_of, unread_of};
use crate::segment_text::{TextRead, read_text};
use crate::skipped::skipped_records;
use rw_follow::{Queue, SegmentError, Segments};
use rw_types::Source;
use rw_wal_tail::{Damage, Tail, TailFault, Taker};
use std::alloc::{AllocError, Global};

/// How many bytes one read asks for.
const CHUNK: usize = 64 * 1024;

fn zeros(alloc: Global, len: usize) -> Result<Vec<u8>, AllocError>
    ensures { IfOk result (λ v. vec_len v ≡ len) }
{
    vec![in alloc; 0; len]
}

/// Returns a reader of a log that may have records that are Snappy blocks, or has none.
fn new_tail(alloc: Global, may_compress: bool) -> Result<Tail, AllocError>
    ensures { IfOk result (λ t. t
        ≡ record { pieces = begun_log may_compress; given = 0; skipped = []; fault = None }) }
{
    if may_compress {
        return Tail::for_compressed(alloc);
    }
    Ok(Tail::new(alloc))
}

/// Begins the next segment.
fn begin_segment(is_first: bool, tail: &mut Tail)
    ensures fed { tail.new ≡ record tail.old { pieces = begun is_first tail.old.pieces } }
    ensures taken { (taken : List Entry) → HasTaken tail.old taken → HasTaken tail.new taken }
{
    if !is_first {
        tail.next_segment();
    }
}

/// Adds a row.
fn add_row(rows: &mut Vec<Segment>, row: Segment) -> Result<(), AllocError>
    ensures { OnOk result (rows.new.items ≡ rows.old.items ++ row ∷ []) }
{
    match rows.push(row) {
        Ok(()) => Ok(()),
        Err(_) => Err(AllocError),
    }
}

/// Returns the name at an index, or the empty text if there is none.
fn name_at(alloc: Global, names: &[String], at: usize) -> Result<String, AllocError> {
    match names.get(at) {
        Some(name) => name.clone(),
        None => Ok(String::new(alloc)),
    }
}

/// Reads the current segment, and returns its row and how far it was read.
fn read_segment<L: Segments, T: Taker>(
    name: String,
    log: &mut L,
    past_fault: bool,
    is_first: bool,
    chunk: &mut [u8],
    tail: &mut Tail,
    taker: &mut Counting<T>,
) -> Result<(Segment, TextRead), SegmentError>
    requires room { 0 < length chunk.old }
    requires sound { HasTakenAll tail.old (T.taken taker.old.taker) None }
    ensures ok { IfOk result (ReadsSegment past_fault is_first (L.gave log.old) (L.gave log.new)
        (L.had_all log.new) (L.is_read log.new) (L.is_followed log.new) tail.old tail.new
        (T.taken taker.old.taker) (T.taken taker.new.taker)) }
    ensures fixed { OnOk result (T.fixed taker.new.taker ≡ T.fixed taker.old.taker) }
    ensures missing { (n : ℕ) → result ≡ Err (Missing n) → L.lacks log.new n }
    ensures sound { IfOk result (λ found. found.1.fault ≡ None → L.is_sound log.new) }
    ensures failed { result ≡ Err (Unreadable Failed) → L.has_failed log.new }
    ensures fails { result ≡ Err (Unreadable Failed) → L.may_fail log.old Failed }
    ensures later { OnOk result (L.may_fail log.new Failed → L.may_fail log.old Failed) }
{
    let before = tail.skipped();
    begin_segment(is_first, tail);
    taker.begin();
    let read = read_text(log, past_fault, chunk, tail, taker)?;
    let row = Segment {
        name,
        bytes: read.bytes,
        passed: tail.skipped() - before,
        sums: taker.sums(),
    };
    Ok((row, read))
}

/// Reads the segments of a log to the end of the last one or to the first fault, and returns the
/// fault. Their rows have these names, in order.
fn read_all<L: Segments, T: Taker>(
    alloc: Global,
    log: &mut L,
    past_fault: bool,
    names: &[String],
    tail: &mut Tail,
    taker: &mut Counting<T>,
    rows: &mut Vec<Segment>,
) -> Result<Option<TailFault>, SegmentError>
    requires { AreTaken (is_marked tail.old.pieces) [] tail.old (T.taken taker.old.taker)
        rows.old.items None }
    ensures ok { IfOk result (ReadsLog past_fault (is_marked tail.old.pieces) (L.gave log.old)
        (L.gave log.new) (L.had_all log.new) (L.is_read log.new) tail.new
        (T.taken taker.new.taker) rows.new.items) }
    ensures fixed { OnOk result (T.fixed taker.new.taker ≡ T.fixed taker.old.taker) }
    ensures missing { (n : ℕ) → result ≡ Err (Missing n) → L.lacks log.new n }
    ensures sound { IfOk result (λ fault. fault ≡ None → L.is_sound log.new) }
    ensures failed { result ≡ Err (Unreadable Failed) → L.has_failed log.new }
    ensures fails { result ≡ Err (Unreadable Failed) → L.may_fail log.old Failed }
{
    let mut chunk = zeros(alloc, CHUNK)?;
    for _ in 0..u64::MAX {
        let is_first = rows.is_empty();
        let name = name_at(alloc, names, rows.len())?;
        let (row, read) = read_segment(name, log, past_fault, is_first, &mut chunk, tail, taker)?;
        add_row(rows, row)?;
        if read.fault.is_some() {
            return Ok(read.fault);
        }
        if !read.is_followed {
            return Ok(read.fault);
        }
        log.advance()?;
    }
    Err(SegmentError::from(AllocError))
}

/// Returns the damage of a log with this fault, if it has one.
fn damage_of(tail: &Tail, fault: Option<TailFault>) -> Option<Damage>
    ensures { fault_in result ≡ fault }
{
    match fault {
        Some(fault) => Some(Damage {
            fault,
            place: tail.fault_place(),
        }),
        None => None,
    }
}

/// Reads a log as `read_into` does. Its rows have these names, in order.
fn read_rows<L: Segments, T: Taker + Drop>(
    alloc: Global,
    log: &mut L,
    past_fault: bool,
    may_compress: bool,
    names: &[String],
    taker: T,
) -> Result<(LogRead, T), SegmentError>
    requires { T.taken taker ≡ [] }
    ensures ok { IfOk result (λ read. (start : L.Start) → L.gave log.old start no_meal
        → ReadsInto past_fault may_compress (L.gave log.new start) (L.had_all log.new start)
        (L.is_read log.new) (T.taken read.1) read.0.segments.items (fault_in read.0.damage)) }
    ensures fixed { IfOk result (λ read. T.fixed read.1 ≡ T.fixed taker) }
    ensures missing { (n : ℕ) → result ≡ Err (Missing n) → L.lacks log.new n }
    ensures sound { IfOk result (λ read. fault_in read.0.damage ≡ None → L.is_sound log.new) }
    ensures failed { result ≡ Err (Unreadable Failed) → L.has_failed log.new }
    ensures fails { result ≡ Err (Unreadable Failed) → L.may_fail log.old Failed }
{
    let mut tail = new_tail(alloc, may_compress)?;
    let mut rows = Vec::new(alloc);
    let mut counting = Counting::new(taker);
    let fault = read_all(
        alloc,
        log,
        past_fault,
        names,
        &mut tail,
        &mut counting,
        &mut rows,
    )?;
    let skipped = skipped_records(alloc, &tail)?;
    let read = LogRead {
        segments: rows,
        damage: damage_of(&tail, fault),
        skipped,
    };
    Ok((read, counting.into_taker()))
}

/// Reads the segments of a log in order, to the present end of the last one or to the first fault,
/// and lets a taker take their entries. Returns what was found, and the taker. If `past_fault` is
/// set, a segment with a fault is read to its end, so that its row has the number of all its bytes.
/// If `may_compress` is set, records may be Snappy blocks; memory for one decoded record is taken
/// first. The rows have no names.
pub fn read_into<L: Segments, T: Taker + Drop>(
    alloc: Global,
    log: &mut L,
    past_fault: bool,
    may_compress: bool,
    taker: T,
) -> Result<(LogRead, T), SegmentError>
    requires { T.taken taker ≡ [] }
    ensures ok { IfOk result (λ read. (start : L.Start) → L.gave log.old start no_meal
        → ReadsInto past_fault may_compress (L.gave log.new start) (L.had_all log.new start)
        (L.is_read log.new) (T.taken read.1) read.0.segments.items (fault_in read.0.damage)) }
    ensures fixed { IfOk result (λ read. T.fixed read.1 ≡ T.fixed taker) }
    ensures missing { (n : ℕ) → result ≡ Err (Missing n) → L.lacks log.new n }
    ensures sound { IfOk result (λ read. fault_in read.0.damage ≡ None → L.is_sound log.new) }
    ensures failed { result ≡ Err (Unreadable Failed) → L.has_failed log.new }
    ensures fails { result ≡ Err (Unreadable Failed) → L.may_fail log.old Failed }
{
    read_rows(alloc, log, past_fault, may_compress, &[], taker)
}

/// Returns what is found in a log without a segment.
fn nothing_read(alloc: Global) -> LogRead
    ensures rows { result.segments.items ≡ [] }
    ensures damage { result.damage ≡ None }
{
    LogRead {
        segments: Vec::new(alloc),
        damage: None,
        skipped: Vec::new(alloc),
    }
}

/// Reads named segments in order, to the end of the last one or of the first one with a fault, and
/// lets a taker take their entries. Returns what was found, each row with the name of its segment,
/// and the taker. If `may_compress` is set, records may be Snappy blocks. An `Err` has the name of
/// the segment whose device failed, if one did.
pub fn read_named<S: Source + Drop, T: Taker + Drop>(
    alloc: Global,
    segments: Vec<Named<S>>,
    may_compress: bool,
    taker: T,
) -> Result<(LogRead, T), UnreadLog>
    requires { T.taken taker ≡ [] }
    ensures ok { IfOk result (λ read. ReadsNamed may_compress
        (map (source_of S.remaining) segments.items) (T.taken read.1) read.0.segments.items
        (fault_in read.0.damage)) }
    ensures fixed { IfOk result (λ read. T.fixed read.1 ≡ T.fixed taker) }
    ensures sure { AreSure (map (source_of S.is_sure) segments.items)
        → (u : UnreadLog) → result ≡ Err u → u.error ≡ Failed → ⊥ }
{
    if segments.is_empty() {
        return Ok((nothing_read(alloc), taker));
    }
    let names = names_of(alloc, &segments)?;
    let mut log = Queue::new(segments);
    match read_rows(alloc, &mut log, true, may_compress, &names, taker) {
        Ok(read) => Ok(read),
        Err(SegmentError::Unreadable(error)) => Err(unread_of(&log, error)),
        // Readers lack no segment.
        Err(SegmentError::Missing(_)) => unreachable!(),
    }
}
