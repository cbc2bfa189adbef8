//! What a head holds, printed with decimals.

ghost use Rattle.std.specs.Prelude.{◌≡◌, ◌++◌, ◌⊎◌, ◌≤◌, ℕ, List, length, take, true, false, Err, IfErr, OnOk};
ghost use Rattle.std.specs.Io.KnownBytes.{Appends};
ghost use Rattle.rw_text.specs.declared.tool_fault.ToolFault.TheVariants.{OutOfMemory, Device};
ghost use Rattle.rw_decimal.specs.DecimalStore.{IsPointText, IsReceivedText, IsStoreText};
ghost use Rattle.rw_decimal.specs.Parts.{AreParts};

use crate::values::push_decimal;
use rw_head::Head;
use rw_text::{ToolFault, push_integer, push_labels};
use rw_types::{LabelSet, Sink, Word, write_all};
use std::alloc::{AllocError, Global};

/// Adds ` T=VALUE`.
fn push_point(out: &mut Vec<u8>, point: &(i64, Word)) -> Result<(), AllocError>
    ensures { OnOk result ((text : List ℕ) × (out.new.items ≡ out.old.items ++ text)
        × IsPointText point.now text) }
{
    out.extend_from_slice(b" ")?;
    push_integer(out, point.0)?;
    out.extend_from_slice(b"=")?;
    push_decimal(out, point.1)
}

/// Adds ` T=VALUE` for each sample.
fn push_points(out: &mut Vec<u8>, points: &[(i64, Word)]) -> Result<(), AllocError>
    ensures { OnOk result ((text : List ℕ) × (out.new.items ≡ out.old.items ++ text)
        × AreParts IsPointText points.now text) }
{
    for point in points {
        push_point(out, point)?;
    }
    Ok(())
}

/// Adds the line of a label set with these samples: `received LABELS T=VALUE ..`.
fn push_received(
    out: &mut Vec<u8>,
    labels: &LabelSet,
    samples: &[(i64, Word)],
) -> Result<(), AllocError>
    ensures { OnOk result ((text : List ℕ) × (out.new.items ≡ out.old.items ++ text)
        × IsReceivedText (labels.now, samples.now) text) }
{
    out.extend_from_slice(b"received ")?;
    push_labels(out, labels)?;
    push_points(out, samples)?;
    out.extend_from_slice(b"\n")
}

/// Adds a `received` line for each label set that has samples, by byte order of their lists of
/// (name, value), with decimals.
fn push_store(out: &mut Vec<u8>, head: &Head) -> Result<(), AllocError>
    ensures { OnOk result ((text : List ℕ) × (out.new.items ≡ out.old.items ++ text)
        × IsStoreText head.now.store text) }
{
    let alloc = *out.allocator();
    let mut all = head.series();
    while let Some(series) = all.next() {
        let samples = series.samples(alloc)?;
        push_received(out, series.labels(), &samples)?;
    }
    Ok(())
}

/// Prints what a head holds with decimals: for each label set with samples, by byte order of its
/// list of (name, value), `received LABELS` and for each sample ` T=VALUE`, the line ended by LF.
pub fn print_decimals<W: Sink>(alloc: Global, head: &Head, writer: &mut W) -> Result<(), ToolFault>
    ensures ok { OnOk result ((text : List ℕ) × IsStoreText head.now.store text
        × Appends (W.contents writer.old) (W.contents writer.new) text) }
    ensures sound { OnOk result
        (W.has_failed writer.old ≡ false → W.has_failed writer.new ≡ false) }
    ensures faults { IfErr result (λ e. (e ≡ OutOfMemory) ⊎ (e ≡ Device)) }
    ensures memory { result ≡ Err OutOfMemory → writer.new ≡ writer.old }
    ensures device { result ≡ Err Device → (W.has_failed writer.new ≡ true)
        × ((text : List ℕ) × (n : ℕ) × IsStoreText head.now.store text × (n ≤ length text)
        × Appends (W.contents writer.old) (W.contents writer.new) (take n text)) }
{
    let mut text = Vec::new(alloc);
    push_store(&mut text, head)?;
    write_all(writer, &text)?;
    Ok(())
}
