//! The lines of definitions.

ghost use Rattle.std.specs.Prelude.{◌≡◌, ◌++◌, OnOk};
ghost use Rattle.rw_log_commands.specs.Plan.{bad_text, filtered_line, kept_text};
ghost use Rattle.rw_log_commands.specs.inner.Planned.{found_text};

use rw_series_cache::Known;
use rw_text::{push_labels, push_number};
use rw_types::{LabelFault, LabelSet};
use std::alloc::AllocError;

/// Adds the line of a definition whose labels have this fault.
pub(crate) fn push_bad(
    out: &mut Vec<u8>,
    reference: u64,
    fault: LabelFault,
) -> Result<(), AllocError>
    ensures { OnOk result (out.new.items ≡ out.old.items ++ bad_text reference fault) }
{
    push_number(out, reference)?;
    out.extend_from_slice(b" bad ")?;
    push_number(out, u64::from(fault.number()))?;
    out.extend_from_slice(b"\n")
}

/// Adds the line of a definition that the rules drop.
fn push_filtered(out: &mut Vec<u8>, reference: u64, labels: &LabelSet) -> Result<(), AllocError>
    ensures { OnOk result (out.new.items ≡ out.old.items ++ filtered_line reference labels.now) }
{
    push_number(out, reference)?;
    out.extend_from_slice(b" filtered ")?;
    push_labels(out, labels)?;
    out.extend_from_slice(b"\n")
}

/// Adds the line of a definition that the rules keep.
fn push_kept(
    out: &mut Vec<u8>,
    reference: u64,
    number: u64,
    labels: &LabelSet,
) -> Result<(), AllocError>
    ensures { OnOk result (out.new.items ≡ out.old.items ++ kept_text reference number labels.now) }
{
    push_number(out, reference)?;
    out.extend_from_slice(b" kept ")?;
    push_number(out, number)?;
    out.extend_from_slice(b" ")?;
    push_labels(out, labels)?;
    out.extend_from_slice(b"\n")
}

/// Adds the line of a label set of which this is known.
pub(crate) fn push_found(
    out: &mut Vec<u8>,
    reference: u64,
    labels: &LabelSet,
    found: &Known<'_>,
) -> Result<(), AllocError>
    ensures { OnOk result
        (out.new.items ≡ out.old.items ++ found_text reference labels.now found.now) }
{
    match found {
        Known::Kept(number, _) => push_kept(out, reference, *number, labels),
        _ => push_filtered(out, reference, labels),
    }
}
