//! The state of a sender and a receiver, printed.

ghost use Rattle.std.specs.Prelude.{◌≡◌, ◌∷◌, [], ◌++◌, decimal, flat_map, OnOk, OnErr};
ghost use Rattle.std.specs.FinMap.{entries};
ghost use Rattle.std.specs.Option.{option_map};
ghost use Rattle.rw_types.specs.Beginnings.{Begins};
ghost use Rattle.rw_shard_core.specs.Endings.{ending_of};
ghost use Rattle.rw_report_text.specs.StateText.{point_text, received_text, store_text, reason_text, dropped_text, filtered_text, abandoned_text, ending_text, work_text};

use rw_head::Head;
use rw_ledger::{Ledger, Reason};
use rw_shard_core::Outcome;
use rw_text::{push_integer, push_labels, push_number, push_value};
use rw_types::{LabelSet, Word};
use std::alloc::AllocError;

/// Adds ` T=VALUE`.
fn push_point(out: &mut Vec<u8>, point: &(i64, Word)) -> Result<(), AllocError>
    ensures ok { OnOk result (out.new.items ≡ out.old.items ++ point_text point.now) }
    ensures err { OnErr result (Begins out.old.items out.new.items) }
{
    out.extend_from_slice(b" ")?;
    push_integer(out, point.0)?;
    out.extend_from_slice(b"=")?;
    push_value(out, point.1)
}

/// Adds ` T=VALUE` for each sample.
fn push_points(out: &mut Vec<u8>, points: &[(i64, Word)]) -> Result<(), AllocError>
    ensures ok { OnOk result (out.new.items ≡ out.old.items ++ flat_map point_text points.now) }
    ensures err { OnErr result (Begins out.old.items out.new.items) }
{
    for point in points {
        push_point(out, point)?;
    }
    Ok(())
}

/// Appends the line of a label set with these samples: `received LABELS T=VALUE ..`, or no line if
/// there is no sample. After an `Err` a part of it may be in `out`.
pub fn push_received(
    out: &mut Vec<u8>,
    labels: &LabelSet,
    samples: &[(i64, Word)],
) -> Result<(), AllocError>
    ensures ok { OnOk result
        (out.new.items ≡ out.old.items ++ received_text labels.now samples.now) }
    ensures err { OnErr result (Begins out.old.items out.new.items) }
{
    if samples.is_empty() {
        return Ok(());
    }
    out.extend_from_slice(b"received ")?;
    push_labels(out, labels)?;
    push_points(out, samples)?;
    out.extend_from_slice(b"\n")
}

/// Appends a `received` line for each label set that has samples, by byte order of their lists of
/// (name, value). After an `Err` a part of them may be in `out`.
pub fn push_store(out: &mut Vec<u8>, head: &Head) -> Result<(), AllocError>
    ensures ok { OnOk result (out.new.items ≡ out.old.items ++ store_text head.now.store) }
    ensures err { OnErr result (Begins out.old.items out.new.items) }
{
    let alloc = *out.allocator();
    let mut all = head.series();
    while let Some(series) = all.next() {
        let samples = series.samples(alloc)?;
        push_received(out, series.labels(), &samples)?;
    }
    Ok(())
}

/// Adds a reason.
fn push_reason(out: &mut Vec<u8>, reason: Reason) -> Result<(), AllocError>
    ensures ok { OnOk result (out.new.items ≡ out.old.items ++ reason_text reason) }
    ensures err { OnErr result (Begins out.old.items out.new.items) }
{
    match reason {
        Reason::Status(status) => {
            out.extend_from_slice(b"status ")?;
            push_number(out, status as u64)
        }
        Reason::BadLabels(fault) => {
            out.extend_from_slice(b"labels ")?;
            push_number(out, fault as u64)
        }
        Reason::NoSeries => out.extend_from_slice(b"noseries"),
        Reason::NotRising => out.extend_from_slice(b"notrising"),
    }
}

/// Appends the line of a dropped sample: `dropped POS status S`, `dropped POS labels N`, `dropped
/// POS noseries` or `dropped POS notrising`. After an `Err` a part of it may be in `out`.
pub fn push_dropped(out: &mut Vec<u8>, name: &(u64, Reason)) -> Result<(), AllocError>
    ensures ok { OnOk result (out.new.items ≡ out.old.items ++ dropped_text name.now) }
    ensures err { OnErr result (Begins out.old.items out.new.items) }
{
    out.extend_from_slice(b"dropped ")?;
    push_number(out, name.0)?;
    out.extend_from_slice(b" ")?;
    push_reason(out, name.1)?;
    out.extend_from_slice(b"\n")
}

/// Adds the lines of these dropped samples.
fn push_all_dropped(out: &mut Vec<u8>, names: &[(u64, Reason)]) -> Result<(), AllocError>
    ensures ok { OnOk result (out.new.items ≡ out.old.items ++ flat_map dropped_text names.now) }
    ensures err { OnErr result (Begins out.old.items out.new.items) }
{
    for name in names {
        push_dropped(out, name)?;
    }
    Ok(())
}

/// Appends the line with the number of samples that the rules have filtered: `filtered COUNT`.
/// After an `Err` a part of it may be in `out`.
pub fn push_filtered(out: &mut Vec<u8>, count: u64) -> Result<(), AllocError>
    ensures ok { OnOk result (out.new.items ≡ out.old.items ++ filtered_text count) }
    ensures err { OnErr result (Begins out.old.items out.new.items) }
{
    out.extend_from_slice(b"filtered ")?;
    push_number(out, count)?;
    out.extend_from_slice(b"\n")
}

/// Adds the line of a sample that was put and not resolved: `abandoned POS`.
fn push_abandoned(out: &mut Vec<u8>, pos: u64) -> Result<(), AllocError>
    ensures ok { OnOk result (out.new.items ≡ out.old.items ++ abandoned_text pos) }
    ensures err { OnErr result (Begins out.old.items out.new.items) }
{
    out.extend_from_slice(b"abandoned ")?;
    push_number(out, pos)?;
    out.extend_from_slice(b"\n")
}

/// Adds the lines of these samples.
fn push_all_abandoned(out: &mut Vec<u8>, samples: &[u64]) -> Result<(), AllocError>
    ensures ok { OnOk result
        (out.new.items ≡ out.old.items ++ flat_map abandoned_text samples.now) }
    ensures err { OnErr result (Begins out.old.items out.new.items) }
{
    for pos in samples {
        push_abandoned(out, *pos)?;
    }
    Ok(())
}

/// Adds a report with its number.
fn push_report(out: &mut Vec<u8>, report: &[u8], number: u64) -> Result<(), AllocError>
    ensures ok { OnOk result
        (out.new.items ≡ out.old.items ++ report.now ++ decimal number ++ 10 ∷ []) }
    ensures err { OnErr result (Begins out.old.items out.new.items) }
{
    out.extend_from_slice(report)?;
    push_number(out, number)?;
    out.extend_from_slice(b"\n")
}

/// Appends an `abandoned` line for each sample that was put and not resolved, by position, and then
/// the report, which is `report running` if there is no outcome. After an `Err` a part of it may be
/// in `out`.
pub fn push_ending(out: &mut Vec<u8>, outcome: Option<&Outcome>) -> Result<(), AllocError>
    ensures ok { OnOk result (out.new.items
        ≡ out.old.items ++ ending_text (option_map (λ o. ending_of o.now) outcome.entry)) }
    ensures err { OnErr result (Begins out.old.items out.new.items) }
{
    match outcome {
        None => out.extend_from_slice(b"report running\n"),
        Some(Outcome::Complete(end)) => push_report(out, b"report complete ", *end),
        Some(Outcome::Abandoned { placed, samples }) => {
            push_all_abandoned(out, samples)?;
            push_report(out, b"report abandoned ", *placed)
        }
        Some(Outcome::Damaged(fault)) => {
            push_report(out, b"report damaged ", fault.number() as u64)
        }
    }
}

/// Appends what a sender reports of its work: the dropped samples by position, how many the rules
/// have filtered, and its end. After an `Err` a part of it may be in `out`.
pub fn push_work(
    out: &mut Vec<u8>,
    ledger: &Ledger,
    filtered: u64,
    outcome: Option<&Outcome>,
) -> Result<(), AllocError>
    ensures ok { OnOk result (out.new.items
        ≡ out.old.items
        ++ work_text (entries ledger.now.names) filtered
        (option_map (λ o. ending_of o.now) outcome.entry)) }
    ensures err { OnErr result (Begins out.old.items out.new.items) }
{
    push_all_dropped(out, ledger.iter().as_slice())?;
    push_filtered(out, filtered)?;
    push_ending(out, outcome)
}
