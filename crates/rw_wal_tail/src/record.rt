//! The entries of a record.

ghost use Rattle.std.specs.Prelude.{◌≡◌, ◌≤◌, ◌<◌, [], length, IfOk, OnOk, IfErr, None, Some};
ghost use Rattle.std.specs.Int.{cast_signed, w64};
ghost use Rattle.rw_wal_format.specs.Records.{label_list_at, definition_at, series_entries, samples_at, sample_entries, record_entries};
ghost use Rattle.rw_wal_tail.specs.declared.record.Unread.TheVariants.{OutOfMemory};
ghost use Rattle.rw_wal_tail.specs.inner.Unread.{BadFormOnly};

use crate::read::{eight, label, sample, unsigned};
use rw_types::{Entry, RawLabels};
use rw_wal_format::RecordType;
use std::alloc::{AllocError, AllocFailed, Global};
use std::collections::VecDeque;

/// Why a record was not read.
#[derive(Clone, Copy, Debug, PartialEq, Eq, Drop)]
pub(crate) enum Unread {
    OutOfMemory,
    BadForm,
}

impl From<AllocError> for Unread {
    ghost from_gives = { λ _ e. e ≡ OutOfMemory };

    fn from(_: AllocError) -> Unread {
        Unread::OutOfMemory
    }
}

impl<T: Drop> From<AllocFailed<T>> for Unread {
    ghost from_gives = { λ _ e. e ≡ OutOfMemory };

    fn from(_: AllocFailed<T>) -> Unread {
        Unread::OutOfMemory
    }
}

/// Reads `count` labels.
fn label_list(alloc: Global, count: u64, bytes: &[u8]) -> Result<(RawLabels, &[u8]), Unread>
    ensures ok { IfOk result (λ x. label_list_at count bytes.now ≡ Some (x.0, x.1.now)) }
    ensures shorter { IfOk result (λ x. length x.1.now ≤ length bytes.now) }
    ensures err { IfErr result (λ e. BadFormOnly e (label_list_at count bytes.now ≡ None)) }
{
    let mut labels = RawLabels::new(alloc);
    let mut rest = bytes;
    for _ in 0..count {
        let Some(((name, value), more)) = label(rest) else {
            return Err(Unread::BadForm);
        };
        labels.push(name, value)?;
        rest = more;
    }
    Ok((labels, rest))
}

/// Reads the definition of a series.
fn definition(alloc: Global, bytes: &[u8]) -> Result<(Entry, &[u8]), Unread>
    ensures ok { IfOk result (λ x. definition_at bytes.now ≡ Some (x.0, x.1.now)) }
    ensures shorter { IfOk result (λ x. length x.1.now < length bytes.now) }
    ensures err { IfErr result (λ e. BadFormOnly e (definition_at bytes.now ≡ None)) }
{
    let Some((reference, rest)) = eight(bytes) else {
        return Err(Unread::BadForm);
    };
    let Some((count, rest)) = unsigned(rest) else {
        return Err(Unread::BadForm);
    };
    let (labels, rest) = label_list(alloc, count, rest)?;
    Ok((Entry::Def { reference, labels }, rest))
}

/// Reads the definitions of a series record, after its type byte.
fn series(alloc: Global, bytes: &[u8], out: &mut VecDeque<Entry>) -> Result<(), Unread>
    requires { out.old.items ≡ [] }
    ensures ok { OnOk result (series_entries bytes.now ≡ Some out.new.items) }
    ensures err { IfErr result (λ e. BadFormOnly e (series_entries bytes.now ≡ None)) }
{
    let mut rest = bytes;
    while !rest.is_empty() {
        let (entry, more) = definition(alloc, rest)?;
        out.push_back(entry)?;
        rest = more;
    }
    Ok(())
}

/// Reads samples, as deltas against the reference `base` and the timestamp `start`.
fn samples(base: u64, start: u64, bytes: &[u8], out: &mut VecDeque<Entry>) -> Result<(), Unread>
    requires { out.old.items ≡ [] }
    ensures ok { OnOk result
        (samples_at base (cast_signed w64 start) bytes.now ≡ Some out.new.items) }
    ensures err { IfErr result
        (λ e. BadFormOnly e (samples_at base (cast_signed w64 start) bytes.now ≡ None)) }
{
    if bytes.is_empty() {
        return Err(Unread::BadForm);
    }
    let mut rest = bytes;
    while !rest.is_empty() {
        let Some((entry, more)) = sample(base, start, rest) else {
            return Err(Unread::BadForm);
        };
        out.push_back(entry)?;
        rest = more;
    }
    Ok(())
}

/// Reads the samples of a sample record, after its type byte.
fn based_samples(bytes: &[u8], out: &mut VecDeque<Entry>) -> Result<(), Unread>
    requires { out.old.items ≡ [] }
    ensures ok { OnOk result (sample_entries bytes.now ≡ Some out.new.items) }
    ensures err { IfErr result (λ e. BadFormOnly e (sample_entries bytes.now ≡ None)) }
{
    if bytes.is_empty() {
        return Ok(());
    }
    let Some((base, rest)) = eight(bytes) else {
        return Err(Unread::BadForm);
    };
    let Some((start, rest)) = eight(rest) else {
        return Err(Unread::BadForm);
    };
    samples(base, start, rest, out)
}

/// Reads the entries of a record into a queue.
pub(crate) fn read_record(
    alloc: Global,
    bytes: &[u8],
    out: &mut VecDeque<Entry>,
) -> Result<(), Unread>
    ensures ok { OnOk result (record_entries bytes.now ≡ Some out.new.items) }
    ensures err { IfErr result (λ e. BadFormOnly e (record_entries bytes.now ≡ None)) }
{
    out.clear();
    if bytes.is_empty() {
        return Ok(());
    }
    match RecordType::from_byte(bytes[0]) {
        Some(RecordType::Series) => series(alloc, &bytes[1..], out),
        Some(RecordType::Samples) => based_samples(&bytes[1..], out),
        None => Ok(()),
    }
}
