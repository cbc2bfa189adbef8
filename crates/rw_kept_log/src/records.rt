//! Records of definitions and samples, written to memory.

ghost use Rattle.std.specs.Prelude.{◌≡◌, ◌<◌, [], ◌∷◌, length, map, OnOk, Some, List};
ghost use Rattle.rw_types.specs.declared.entry.Entry.{Entry};
ghost use Rattle.rw_wal_format.specs.Laws.{sample_entry};
ghost use Rattle.rw_wal_format.specs.Records.{record_entries};
ghost use Rattle.rw_kept_log.specs.Additions.{definition_entry};
ghost use Rattle.rw_kept_log.specs.inner.Writing.{Holds};

use crate::append_error::AppendError;
use crate::buffer::Buffer;
use rw_types::{RawLabels, Word};
use rw_wal_write::{SegmentWriter, sample_record, series_record};
use std::alloc::Global;

/// The most samples of a record, each of at most 28 bytes, so that it has less than 16 MiB.
const MAX_SAMPLES: usize = 500_000;

/// Writes a record.
fn put_record(writer: &mut SegmentWriter<Buffer>, rec: &[u8]) -> Result<(), AppendError>
    requires { 0 < length rec.now }
    ensures { OnOk result ((es : List Entry) → record_entries rec.now ≡ Some es
        → Holds writer.old writer.new es) }
{
    match writer.log(rec) {
        Ok(()) => Ok(()),
        Err(fault) => Err(AppendError::of(fault)),
    }
}

/// Writes a definition.
fn put_definition(
    alloc: Global,
    writer: &mut SegmentWriter<Buffer>,
    definition: &(u64, RawLabels),
) -> Result<(), AppendError>
    ensures { OnOk result (Holds writer.old writer.new (definition_entry definition.now ∷ [])) }
{
    let rec = series_record(alloc, definition.0, &definition.1)?;
    put_record(writer, &rec)?;
    Ok(())
}

/// Writes definitions, each in its own record.
pub(crate) fn put_definitions(
    alloc: Global,
    writer: &mut SegmentWriter<Buffer>,
    definitions: &[(u64, RawLabels)],
) -> Result<(), AppendError>
    ensures { OnOk result
        (Holds writer.old writer.new (map definition_entry definitions.now)) }
{
    for definition in definitions {
        put_definition(alloc, writer, definition)?;
    }
    Ok(())
}

/// Writes samples in one record.
fn put_part(
    alloc: Global,
    writer: &mut SegmentWriter<Buffer>,
    samples: &[(u64, i64, Word)],
) -> Result<(), AppendError>
    ensures { OnOk result (Holds writer.old writer.new (map sample_entry samples.now)) }
{
    let rec = sample_record(alloc, samples)?;
    put_record(writer, &rec)?;
    Ok(())
}

/// Writes the last samples. Without samples no record is written.
fn put_last(
    alloc: Global,
    writer: &mut SegmentWriter<Buffer>,
    samples: &[(u64, i64, Word)],
) -> Result<(), AppendError>
    ensures { OnOk result (Holds writer.old writer.new (map sample_entry samples.now)) }
{
    if samples.is_empty() {
        return Ok(());
    }
    put_part(alloc, writer, samples)?;
    Ok(())
}

/// Writes samples, at most `MAX_SAMPLES` of them in a record.
pub(crate) fn put_samples(
    alloc: Global,
    writer: &mut SegmentWriter<Buffer>,
    samples: &[(u64, i64, Word)],
) -> Result<(), AppendError>
    ensures { OnOk result (Holds writer.old writer.new (map sample_entry samples.now)) }
{
    let mut rest = samples;
    while rest.len() > MAX_SAMPLES {
        let (part, later) = rest.split_at(MAX_SAMPLES);
        put_part(alloc, writer, part)?;
        rest = later;
    }
    put_last(alloc, writer, rest)?;
    Ok(())
}
