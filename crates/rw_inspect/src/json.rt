//! Prints a report as JSON (RFC 8259), one object a line.

ghost use Rattle.std.specs.Prelude.{◌≡◌, ◌++◌, OnOk, IfOk, flat_map};
ghost use Rattle.rw_inspect.specs.Json.{found_json, line_json, listed, measures_json, report_json, segment_json, totals_json};

use crate::cells::{Cell, found_cells, push_fields, push_numbers, push_text};
use crate::counts::Counts;
use crate::faults::{FaultForm, push_damage};
use crate::json_text::push_quoted;
use crate::report::LogFindings;
use crate::sizes::{Sizes, sizes_in, sizes_of};
use rw_log_read::{Segment, Sums};
use rw_text::push_number;
use std::alloc::{AllocError, Global};

const SEGMENT: &str = "{\"type\":\"segment\",\"file\":";

const TOTALS: &str = "{\"type\":\"totals\"";

/// What is counted of a segment, or of all.
const MEASURES: [&str; 8] = [
    ",\"bytes\":",
    ",\"pages\":",
    ",\"passed_over\":",
    ",\"entries\":",
    ",\"series\":",
    ",\"samples\":",
    ",\"earliest\":",
    ",\"latest\":",
];

/// What was found in the whole log, and the first positions.
const FOUND: [&str; 4] = [
    ",\"label_sets\":",
    ",\"without_series\":",
    ",\"bad_labels\":",
    ",\"not_rising\":",
];

const FIRST: &str = ",\"first_not_rising\":[";

/// A fault.
const FAULT: FaultForm = (
    ("{\"type\":\"fault\",\"fault\":", ""),
    (",\"file\":", ",\"offset\":", ",\"behind\":", ""),
    (",\"next\":", "}\n"),
    true,
);

/// Adds what is counted of a segment, or of all.
fn push_measures(out: &mut Vec<u8>, sizes: &Sizes, sums: &Sums) -> Result<(), AllocError>
    ensures { OnOk result (out.new.items ≡ out.old.items ++ measures_json sizes.now sums.now) }
{
    let cells = [
        Cell::Count(sizes.bytes),
        Cell::Count(sizes.pages),
        Cell::Count(sizes.passed),
        Cell::Count(sums.entries),
        Cell::Count(sums.series),
        Cell::Count(sums.samples),
        Cell::Time(sums.earliest),
        Cell::Time(sums.latest),
    ];
    push_fields(out, &MEASURES, &cells)
}

/// Adds the line of a segment.
#[tactic(auto, unfolding(crate::specs::Json::segment_json))]
fn push_segment(
    out: &mut Vec<u8>,
    name: &[u8],
    sizes: &Sizes,
    sums: &Sums,
) -> Result<(), AllocError>
    ensures { OnOk result
        (out.new.items ≡ out.old.items ++ segment_json name.now sizes.now sums.now) }
{
    push_text(out, SEGMENT)?;
    push_quoted(out, name)?;
    push_measures(out, sizes, sums)?;
    push_text(out, "}\n")
}

/// Adds the lines of all segments.
fn push_segments(out: &mut Vec<u8>, segments: &[Segment]) -> Result<(), AllocError>
    ensures { OnOk result (out.new.items ≡ out.old.items ++ flat_map line_json segments.now) }
{
    for segment in segments {
        push_segment(
            out,
            segment.name.as_bytes(),
            &sizes_of(segment),
            &segment.sums,
        )?;
    }
    Ok(())
}

/// Adds the items of an array of numbers.
fn push_list(out: &mut Vec<u8>, numbers: &[u64]) -> Result<(), AllocError>
    ensures { OnOk result (out.new.items ≡ out.old.items ++ listed numbers.now) }
{
    match numbers.split_first() {
        Some((first, more)) => {
            push_number(out, *first)?;
            push_numbers(out, ",", more)
        }
        None => Ok(()),
    }
}

/// Adds what was found in the whole log, with the first positions of samples that are not later
/// than the last one of their series.
#[tactic(auto, unfolding(crate::specs::Json::found_json))]
fn push_found(out: &mut Vec<u8>, counts: &Counts, first: &[u64]) -> Result<(), AllocError>
    ensures { OnOk result (out.new.items ≡ out.old.items ++ found_json counts.now first.now) }
{
    push_fields(out, &FOUND, &found_cells(counts))?;
    push_text(out, FIRST)?;
    push_list(out, first)?;
    push_text(out, "]}\n")
}

/// Adds the line of all segments.
#[tactic(auto, unfolding(crate::specs::Json::totals_json))]
fn push_totals(
    out: &mut Vec<u8>,
    sizes: &Sizes,
    counts: &Counts,
    first: &[u64],
) -> Result<(), AllocError>
    ensures { OnOk result
        (out.new.items ≡ out.old.items ++ totals_json sizes.now counts.now first.now) }
{
    push_text(out, TOTALS)?;
    push_measures(out, sizes, &counts.sums)?;
    push_found(out, counts, first)
}

/// Returns a report as JSON: a line for each segment, one for all, and one for a fault.
#[tactic(auto, unfolding(crate::specs::Json::report_json))]
pub fn json_of(alloc: Global, report: &LogFindings) -> Result<Vec<u8>, AllocError>
    ensures { IfOk result (λ text. text.items ≡ report_json report.now) }
{
    let mut out = Vec::new(alloc);
    let sizes = sizes_in(&report.segments)?;
    push_segments(&mut out, &report.segments)?;
    push_totals(&mut out, &sizes, &report.counts, &report.first_not_rising)?;
    push_damage(
        &mut out,
        &FAULT,
        report.may_compress,
        &report.segments,
        &report.damage,
    )?;
    Ok(out)
}
