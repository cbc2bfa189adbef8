//! Prints a report.

ghost use Rattle.std.specs.Prelude.{◌≡◌, ◌++◌, ◌⊎◌, ℕ, List, flat_map, true, false, Err, IfOk, IfErr, OnOk};
ghost use Rattle.std.specs.Io.KnownBytes.{Appends};
ghost use Rattle.rw_shard_core.specs.Endings.{ending_of};
ghost use Rattle.rw_report_text.specs.StateText.{dropped_text};
ghost use Rattle.rw_fleet.specs.Stopped.{names_in_parts};
ghost use Rattle.rw_sender.specs.Reports.{parts_of};
ghost use Rattle.rw_send.specs.ReportText.{AreByPosition, IsEnding, IsTextOf, WritesReportPart};
ghost use Rattle.rw_text.specs.declared.tool_fault.ToolFault.TheVariants.{OutOfMemory, Device};

use rw_ledger::Reason;
use rw_report_text::{push_dropped, push_ending, push_filtered};
use rw_sender::{Outcome, Report};
use rw_text::ToolFault;
use rw_types::{Sink, write_all};
use std::alloc::{AllocError, Global};

/// Returns the dropped samples of a report, by position.
fn names_by_position<T>(alloc: Global, report: &Report<T>) -> Result<Vec<(u64, Reason)>, AllocError>
    ensures { IfOk result
        (λ names. AreByPosition (names_in_parts (parts_of report.now)) names.items) }
{
    let mut names = report.dropped_samples(alloc)?;
    names.sort_unstable_by_key(|name| name.0);
    Ok(names)
}

/// Returns an outcome with its samples by position.
fn by_position(outcome: Outcome) -> Outcome
    ensures { IsEnding outcome (ending_of result) }
{
    match outcome {
        Outcome::Complete(end) => Outcome::Complete(end),
        Outcome::Abandoned {
            placed,
            mut samples,
        } => {
            samples.sort_unstable();
            Outcome::Abandoned { placed, samples }
        }
        Outcome::Damaged(fault) => Outcome::Damaged(fault),
    }
}

/// Adds the lines of these dropped samples.
fn push_all_dropped(out: &mut Vec<u8>, names: &[(u64, Reason)]) -> Result<(), AllocError>
    ensures { OnOk result (out.new.items ≡ out.old.items ++ flat_map dropped_text names.now) }
{
    for name in names {
        push_dropped(out, name)?;
    }
    Ok(())
}

/// Returns the text of a report.
fn text_of<T: Drop>(alloc: Global, report: Report<T>) -> Result<Vec<u8>, AllocError>
    ensures { IfOk result (λ text. IsTextOf report text.items) }
{
    let names = names_by_position(alloc, &report)?;
    let Report {
        outcome,
        filtered,
        ..
    } = report;
    let outcome = by_position(outcome);
    let mut text = Vec::new(alloc);
    push_all_dropped(&mut text, &names)?;
    push_filtered(&mut text, filtered)?;
    push_ending(&mut text, Some(&outcome))?;
    Ok(text)
}

/// Writes the text of a report.
pub(crate) fn print_report<T: Drop, W: Sink>(
    alloc: Global,
    report: Report<T>,
    writer: &mut W,
) -> Result<(), ToolFault>
    ensures ok { OnOk result ((text : List ℕ) × IsTextOf report text
        × Appends (W.contents writer.old) (W.contents writer.new) text) }
    ensures sound { OnOk result
        (W.has_failed writer.old ≡ false → W.has_failed writer.new ≡ false) }
    ensures faults { IfErr result (λ e. (e ≡ OutOfMemory) ⊎ (e ≡ Device)) }
    ensures memory { result ≡ Err OutOfMemory → writer.new ≡ writer.old }
    ensures device { result ≡ Err Device → (W.has_failed writer.new ≡ true)
        × WritesReportPart report (W.contents writer.old) (W.contents writer.new) }
{
    let text = text_of(alloc, report)?;
    write_all(writer, &text)?;
    Ok(())
}
