//! The records of a write-ahead log (wal.md, "Series records" and "Sample records").

ghost use Rattle.std.specs.Prelude.{◌≡◌, ◌<◌, ◌^◌, ◌++◌, [], ◌∷◌, length, IfOk, OnOk, Some, flat_map, map};
ghost use Rattle.byteorder.specs.Endian.{big_bytes};
ghost use Rattle.rw_types.specs.Labels.{bytes_label};
ghost use Rattle.rw_types.specs.declared.entry.Entry.TheVariants.{Def};
ghost use Rattle.rw_wal_format.specs.Laws.{AreTexts, IsSample, AreSamples, sample_entry};
ghost use Rattle.rw_wal_format.specs.Records.{text_bytes, label_bytes, record_entries, sample_bytes, series_record as bytes_of_series, sample_record as bytes_of_samples};

use byteorder::{BigEndian, ByteOrder};
use rw_codes::{put_uvarint, put_varint};
use rw_types::{RawLabels, Word};
use rw_wal_format::RecordType;
use std::alloc::{AllocError, Global};

/// Room for the labels of a usual series; for a longer record the buffer grows.
const SERIES_BYTES: usize = 256;

/// The type, the first reference and the first timestamp.
const BASE_BYTES: usize = 17;

/// The bytes of a sample with two deltas of one byte; for greater ones the buffer grows.
const SAMPLE_BYTES: usize = 10;

/// Appends a number of 64 bits, high byte first.
fn put_u64(out: &mut Vec<u8>, n: u64) -> Result<(), AllocError>
    ensures { OnOk result (out.new.items ≡ out.old.items ++ big_bytes 8 n) }
{
    let mut bytes = [0; 8];
    BigEndian::write_u64(&mut bytes, n);
    out.extend_from_slice(&bytes)
}

/// Appends the length of a text and the text.
fn put_text(out: &mut Vec<u8>, text: &[u8]) -> Result<(), AllocError>
    ensures bytes { OnOk result (out.new.items ≡ out.old.items ++ text_bytes text.now) }
    ensures len { OnOk result (length text.now < 2 ^ 64) }
{
    put_uvarint(out, text.len() as u64)?;
    out.extend_from_slice(text)
}

/// Appends the name and the value of a label.
fn put_label(out: &mut Vec<u8>, label: &(Vec<u8>, Vec<u8>)) -> Result<(), AllocError>
    ensures bytes { OnOk result
        (out.new.items ≡ out.old.items ++ label_bytes (bytes_label label.now)) }
    ensures text { OnOk result (AreTexts (bytes_label label.now ∷ [])) }
{
    put_text(out, label.0.as_slice())?;
    put_text(out, label.1.as_slice())
}

fn put_labels(out: &mut Vec<u8>, labels: &[(Vec<u8>, Vec<u8>)]) -> Result<(), AllocError>
    ensures bytes { OnOk result
        (out.new.items ≡ out.old.items ++ flat_map label_bytes (map bytes_label labels.now)) }
    ensures texts { OnOk result (AreTexts (map bytes_label labels.now)) }
{
    for label in labels {
        put_label(out, label)?;
    }
    Ok(())
}

/// Returns the bytes of a series record with one definition: `reference` stands for `labels`
/// (wal.md, "Series records").
pub fn series_record(
    alloc: Global,
    reference: u64,
    labels: &RawLabels,
) -> Result<Vec<u8>, AllocError>
    ensures bytes { IfOk result
        (λ record_bytes. record_bytes.items ≡ bytes_of_series reference labels.now) }
    ensures read { IfOk result (λ record_bytes. record_entries record_bytes.items
        ≡ Some (Def reference labels.now ∷ [])) }
{
    let mut out = Vec::with_capacity(alloc, SERIES_BYTES)?;
    out.push(RecordType::Series.to_byte())?;
    put_u64(&mut out, reference)?;
    put_uvarint(&mut out, labels.len() as u64)?;
    put_labels(&mut out, labels.as_slice())?;
    Ok(out)
}

/// Appends a sample, as deltas against the reference `base` and the timestamp `start`.
fn put_sample(
    out: &mut Vec<u8>,
    base: u64,
    start: i64,
    sample: &(u64, i64, Word),
) -> Result<(), AllocError>
    ensures bytes { OnOk result
        (out.new.items ≡ out.old.items ++ sample_bytes base start sample.now) }
    ensures fits { OnOk result (IsSample sample.now) }
{
    put_varint(out, sample.0.wrapping_sub(base).cast_signed())?;
    put_varint(out, sample.1.wrapping_sub(start))?;
    put_u64(out, sample.2.0)
}

fn put_samples(
    out: &mut Vec<u8>,
    base: u64,
    start: i64,
    samples: &[(u64, i64, Word)],
) -> Result<(), AllocError>
    ensures bytes { OnOk result
        (out.new.items ≡ out.old.items ++ flat_map (sample_bytes base start) samples.now) }
    ensures fit { OnOk result (AreSamples samples.now) }
{
    for sample in samples {
        put_sample(out, base, start, sample)?;
    }
    Ok(())
}

/// Returns the bytes of a sample record (wal.md, "Sample records") with these samples, each as
/// (reference, timestamp in milliseconds, value). The first one is the base of all deltas.
pub fn sample_record(alloc: Global, samples: &[(u64, i64, Word)]) -> Result<Vec<u8>, AllocError>
    ensures bytes { IfOk result
        (λ record_bytes. record_bytes.items ≡ bytes_of_samples samples.now) }
    ensures read { IfOk result (λ record_bytes. record_entries record_bytes.items
        ≡ Some (map sample_entry samples.now)) }
{
    let mut out = Vec::with_capacity(alloc, BASE_BYTES + SAMPLE_BYTES * samples.len())?;
    out.push(RecordType::Samples.to_byte())?;
    let Some(base) = samples.first() else {
        return Ok(out);
    };
    put_u64(&mut out, base.0)?;
    put_u64(&mut out, base.1.cast_unsigned())?;
    put_samples(&mut out, base.0, base.1, samples)?;
    Ok(out)
}
