//! Batches that are built and frozen. The calls that take memory are made again if they fail, so
//! each test can be run with each allocation failing in turn: the failed call changes nothing.

ghost use Rattle.std.specs.Prelude.{◌<◌, ◌≤◌};

use crate::rows::{holds, none_is_wrong};
use crate::samples::{Row, sample};
use rw_batch::{Batch, BatchId, Builder};
use rw_ledger::Ledger;
use rw_plain_queue::{Item, Kind};
use rw_types::LabelFault;
use std::alloc::{AllocError, Global};

/// Returns the sample numbered `seq`, at the position of that number.
fn item(alloc: Global, seq: u64, row: Row) -> Result<Item, LabelFault> {
    sample(alloc, seq, seq, row)
}

fn builder_of(alloc: Global, batch: usize) -> Result<Builder, AllocError>
    requires some { 0 < batch }
    requires most { batch ≤ 10000 }
{
    match Builder::new(alloc, batch) {
        Ok(builder) => Ok(builder),
        Err(_) => Builder::new(alloc, batch),
    }
}

/// Takes a sample, if there is room and it is the next one.
fn take(builder: &mut Builder, item: Item) -> bool {
    if builder.is_full() || !builder.can_take(&item) {
        return false;
    }
    builder.take(item);
    true
}

/// Takes the sample of this number, if there is one.
fn take_row(alloc: Global, builder: &mut Builder, seq: u64, row: Row) -> bool {
    match item(alloc, seq, row) {
        Ok(item) => take(builder, item),
        Err(_) => false,
    }
}

/// Takes these samples, the first one with the number 7, up to one that it cannot take.
fn take_all(alloc: Global, builder: &mut Builder, rows: &[Row]) {
    let mut seq = 7;
    for row in rows {
        if !take_row(alloc, builder, seq, *row) {
            return;
        }
        seq = seq.saturating_add(1);
    }
}

/// Returns a builder with room for `batch` samples that took these.
fn built(alloc: Global, batch: usize, rows: &[Row]) -> Result<Builder, AllocError>
    requires some { 0 < batch }
    requires most { batch ≤ 10000 }
{
    let mut builder = builder_of(alloc, batch)?;
    take_all(alloc, &mut builder, rows);
    Ok(builder)
}

/// A name, samples, and the body of their batch.
type Body = (&'static str, &'static [Row], &'static [u8]);

static BODIES: [Body; 2] = [
    (
        "two series",
        &[("a", 0, 1), ("b", 0, 2), ("a", 0, 3)],
        b"\x0a\x17\x0a\x0d\x0a\x08__name__\x12\x01a\x12\x02\x10\x01\x12\x02\x10\x03\
          \x0a\x13\x0a\x0d\x0a\x08__name__\x12\x01b\x12\x02\x10\x02",
    ),
    (
        "one series",
        &[("up", 0x3ff0_0000_0000_0000, 1000)],
        b"\x0a\x1e\x0a\x0e\x0a\x08__name__\x12\x02up\x12\x0c\x09\0\0\0\0\0\0\xf0\x3f\x10\xe8\x07",
    ),
];

/// Returns the body of the builder's batch, asked for again if memory ran out.
fn body_of(builder: &Builder) -> Result<Vec<u8>, AllocError> {
    if builder.is_empty() {
        return Err(AllocError);
    }
    match builder.body() {
        Err(_) => builder.body(),
        body => body,
    }
}

/// Returns whether the builder's batch would have this body.
fn has_body(builder: &Builder, body: &[u8]) -> bool {
    match body_of(builder) {
        Ok(found) => found.as_slice() == body,
        Err(_) => false,
    }
}

/// Freezes a builder that has samples.
fn freeze(builder: Builder, ledger: &mut Ledger) -> Result<Batch, (Builder, AllocError)> {
    if builder.is_empty() {
        return Err((builder, AllocError));
    }
    builder.freeze(ledger)
}

fn freeze_again(builder: Builder, ledger: &mut Ledger) -> Result<Batch, AllocError> {
    match freeze(builder, ledger) {
        Ok(batch) => Ok(batch),
        Err((_, refused)) => Err(refused),
    }
}

/// Freezes, and freezes again if memory ran out and nothing was changed.
fn frozen(builder: Builder, ledger: &mut Ledger) -> Result<Batch, AllocError> {
    let (len, left) = (builder.len(), ledger.left());
    match freeze(builder, ledger) {
        Ok(batch) => Ok(batch),
        Err((builder, refused)) => {
            if builder.len() == len && ledger.left() == left {
                freeze_again(builder, ledger)
            } else {
                Err(refused)
            }
        }
    }
}

/// Returns whether a batch has this many samples from the number 7 on, and this body.
fn is_batch(batch: &Batch, samples: usize, body: &[u8]) -> bool {
    let id = BatchId {
        epoch: 3,
        shard: 1,
        seq: 7,
    };
    batch.id() == id && batch.places().len() == samples && batch.body().as_slice() == body
}

/// Returns whether a builder makes a batch of this many samples with this body, and room for them
/// in the ledger.
fn makes_batch(alloc: Global, builder: Builder, samples: usize, body: &[u8]) -> bool {
    let mut ledger = Ledger::new(alloc);
    match frozen(builder, &mut ledger) {
        Ok(batch) => {
            is_batch(&batch, samples, body) && ledger.left() == samples && ledger.total() == 0
        }
        Err(_) => false,
    }
}

/// Returns whether these samples make this body, and a batch with it.
fn make_body(alloc: Global, samples: &[Row], body: &[u8]) -> bool {
    match built(alloc, 3, samples) {
        Ok(builder) => {
            has_body(&builder, body) && makes_batch(alloc, builder, samples.len(), body)
        }
        Err(_) => false,
    }
}

fn bodies() -> &'static [Body] {
    &BODIES
}

fn wrong_body(alloc: Global, rows: &[Body]) -> Option<&'static str> {
    for (name, samples, body) in rows {
        if !make_body(alloc, samples, body) {
            return Some(name);
        }
    }
    None
}

#[test]
fn bodies_group_by_labels(rt: HostRuntime) {
    none_is_wrong(&rt, wrong_body(rt.alloc(), bodies()));
}

const TWO: &[Row] = &[("a", 0, 1), ("b", 0, 2)];

const THREE: &[Row] = &[("a", 0, 1), ("b", 0, 2), ("b", 0, 3)];

/// A name, samples that a builder of three took, a number with its sample, and whether that can be
/// taken next.
type Next = (&'static str, &'static [Row], (u64, Row), bool);

static NEXT: [Next; 4] = [
    ("the last one again", TWO, (8, ("a", 0, 3)), false),
    ("the next one", TWO, (9, ("a", 0, 3)), true),
    ("a later one", TWO, (10, ("a", 0, 3)), false),
    ("one too many", THREE, (10, ("a", 0, 4)), false),
];

/// Returns whether a builder of three has this many samples, is full or not, and takes no mark.
fn has_taken(builder: &Builder, count: usize) -> bool {
    builder.len() == count
        && builder.is_full() == (count == 3)
        && !builder.can_take(&Item::Flush)
        && !builder.can_take(&Item::End(Kind::Orderly))
}

/// Returns whether a builder of three that took these samples can take the next one, or not.
fn takes(alloc: Global, samples: &[Row], next: &Item, can: bool) -> bool {
    match built(alloc, 3, samples) {
        Ok(builder) => has_taken(&builder, samples.len()) && builder.can_take(next) == can,
        Err(_) => false,
    }
}

/// Returns the same for the sample of this number.
fn takes_row(alloc: Global, samples: &[Row], seq: u64, row: Row, can: bool) -> bool {
    match item(alloc, seq, row) {
        Ok(next) => takes(alloc, samples, &next, can),
        Err(_) => false,
    }
}

fn nexts() -> &'static [Next] {
    &NEXT
}

fn wrong_next(alloc: Global, rows: &[Next]) -> Option<&'static str> {
    for (name, samples, (seq, row), can) in rows {
        if !takes_row(alloc, samples, *seq, *row, *can) {
            return Some(name);
        }
    }
    None
}

#[test]
fn only_the_next_sample_is_taken(rt: HostRuntime) {
    none_is_wrong(&rt, wrong_next(rt.alloc(), nexts()));
}

/// Returns whether a builder has ten samples, each with this field.
fn has_fields(builder: &Builder, field: &[u8]) -> bool {
    for k in 0..builder.len() {
        if builder.field(k) != field {
            return false;
        }
    }
    builder.len() == 10
}

/// Returns whether ten samples of the word 3 at -1 ms have this field each.
fn have_field(alloc: Global, field: &[u8]) -> bool {
    match built(alloc, 10, &[("up", 0x4008_0000_0000_0000, -1); 10]) {
        Ok(builder) => has_fields(&builder, field),
        Err(_) => false,
    }
}

#[test]
fn fields_are_lent(rt: HostRuntime) {
    let field = b"\x12\x14\x09\0\0\0\0\0\0\x08\x40\x10\xff\xff\xff\xff\xff\xff\xff\xff\xff\x01";
    holds(&rt, have_field(rt.alloc(), field));
}
