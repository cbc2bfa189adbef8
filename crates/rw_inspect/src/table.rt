//! Prints a report as a table.

ghost use Rattle.std.specs.Prelude.{◌≡◌, ◌++◌, ◌≤◌, OnOk, IfOk, codes, flat_map, map, length};
ghost use Rattle.rw_inspect.specs.Cells.{cell_text};
ghost use Rattle.rw_inspect.specs.Table.{columns_text, found_text, head_text, line_text, name_width, report_text, right_text, row_text, title_text};
ghost use Rattle.rw_inspect.specs.inner.Table.{column_of};

use crate::cells::{Cell, found_cells, push_fields, push_numbers, push_text};
use crate::counts::Counts;
use crate::faults::{LINES, push_damage};
use crate::report::LogFindings;
use crate::sizes::{Sizes, sizes_in, sizes_of};
use itoa::Buffer;
use rw_log_read::{Segment, Sums};
use std::alloc::{AllocError, Global};

/// A column: its title, and its width.
type Column = (&'static str, usize);

const NAME: Column = ("segment", 10);

/// The columns after that of the name.
const COLUMNS: [Column; 8] = [
    ("bytes", 15),
    ("pages", 8),
    ("entries", 12),
    ("series", 12),
    ("samples", 12),
    ("skipped", 12),
    ("earliest", 15),
    ("latest", 15),
];

/// What was found in the whole log, and the first positions.
const FOUND: [&str; 4] = [
    "label sets                  ",
    "\nsamples without a series    ",
    "\nsamples with bad labels     ",
    "\nsamples that do not rise    ",
];

const FIRST: &str = "\ntheir first positions      ";

const SPACES: &str = "                                ";

/// Adds a text at the right end of a column.
#[tactic(auto, unfolding(crate::specs::Table::right_text))]
fn push_right(out: &mut Vec<u8>, width: usize, text: &[u8]) -> Result<(), AllocError>
    ensures { OnOk result (out.new.items ≡ out.old.items ++ right_text width text.now) }
{
    let missing = width.saturating_sub(text.len()).min(SPACES.len());
    out.extend_from_slice(&SPACES.as_bytes()[..missing])?;
    out.extend_from_slice(text)
}

/// Adds the titles of columns.
fn push_titles(out: &mut Vec<u8>, columns: &[Column]) -> Result<(), AllocError>
    ensures { OnOk result (out.new.items
        ≡ out.old.items ++ flat_map title_text (map column_of columns.now)) }
{
    for column in columns {
        push_right(out, column.1, column.0.as_bytes())?;
    }
    Ok(())
}

/// Returns the width of the column of names: that of its title, or of the longest name if it is
/// longer.
fn name_width(segments: &[Segment]) -> usize
    ensures { result ≡ name_width segments.now }
{
    let mut width = NAME.1;
    for segment in segments {
        width = width.max(segment.name.as_bytes().len());
    }
    width
}

/// Adds the titles of all columns, of which that of the names has this width.
#[tactic(auto, unfolding(crate::specs::Table::head_text))]
fn push_head(out: &mut Vec<u8>, width: usize) -> Result<(), AllocError>
    ensures { OnOk result (out.new.items ≡ out.old.items ++ head_text width) }
{
    push_right(out, width, NAME.0.as_bytes())?;
    push_titles(out, &COLUMNS)?;
    push_text(out, "\n")
}

/// Adds a number at the right end of a column; a dash for an absent timestamp.
fn push_right_cell(out: &mut Vec<u8>, width: usize, cell: Cell) -> Result<(), AllocError>
    ensures { OnOk result
        (out.new.items ≡ out.old.items ++ right_text width (cell_text (codes "-") cell)) }
{
    let mut buffer = Buffer::new();
    match cell {
        Cell::Count(n) => push_right(out, width, buffer.format(n).as_bytes()),
        Cell::Time(Some(t)) => push_right(out, width, buffer.format(t).as_bytes()),
        Cell::Time(None) => push_right(out, width, b"-"),
    }
}

/// Adds each number at the right end of its column.
fn push_columns(out: &mut Vec<u8>, columns: &[Column], cells: &[Cell]) -> Result<(), AllocError>
    requires { length columns.now ≤ length cells.now }
    ensures { OnOk result (out.new.items
        ≡ out.old.items ++ columns_text (map column_of columns.now) cells.now) }
{
    for (i, column) in columns.iter().enumerate() {
        push_right_cell(out, column.1, cells[i])?;
    }
    Ok(())
}

/// Adds a row, whose name has this width.
#[tactic(auto, unfolding(crate::specs::Table::row_text))]
fn push_row(
    out: &mut Vec<u8>,
    width: usize,
    name: &[u8],
    sizes: &Sizes,
    sums: &Sums,
) -> Result<(), AllocError>
    ensures { OnOk result
        (out.new.items ≡ out.old.items ++ row_text width name.now sizes.now sums.now) }
{
    let cells = [
        Cell::Count(sizes.bytes),
        Cell::Count(sizes.pages),
        Cell::Count(sums.entries),
        Cell::Count(sums.series),
        Cell::Count(sums.samples),
        Cell::Count(sizes.passed),
        Cell::Time(sums.earliest),
        Cell::Time(sums.latest),
    ];
    push_right(out, width, name)?;
    push_columns(out, &COLUMNS, &cells)?;
    push_text(out, "\n")
}

/// Adds the rows of all segments.
fn push_rows(out: &mut Vec<u8>, width: usize, segments: &[Segment]) -> Result<(), AllocError>
    ensures { OnOk result
        (out.new.items ≡ out.old.items ++ flat_map (line_text width) segments.now) }
{
    for segment in segments {
        push_row(
            out,
            width,
            segment.name.as_bytes(),
            &sizes_of(segment),
            &segment.sums,
        )?;
    }
    Ok(())
}

/// Adds what was found in the whole log, with the first positions of samples that are not later
/// than the last one of their series.
#[tactic(auto, unfolding(crate::specs::Table::found_text))]
fn push_found(out: &mut Vec<u8>, counts: &Counts, first: &[u64]) -> Result<(), AllocError>
    ensures { OnOk result (out.new.items ≡ out.old.items ++ found_text counts.now first.now) }
{
    push_fields(out, &FOUND, &found_cells(counts))?;
    push_text(out, FIRST)?;
    push_numbers(out, " ", first)?;
    push_text(out, "\n")
}

/// Returns a report as a table: a row for each segment, one for all, what was found in the log, and
/// its fault.
#[tactic(auto, unfolding(crate::specs::Table::report_text))]
pub fn table_of(alloc: Global, report: &LogFindings) -> Result<Vec<u8>, AllocError>
    ensures { IfOk result (λ text. text.items ≡ report_text report.now) }
{
    let mut out = Vec::new(alloc);
    let sizes = sizes_in(&report.segments)?;
    let width = name_width(&report.segments);
    push_head(&mut out, width)?;
    push_rows(&mut out, width, &report.segments)?;
    push_row(&mut out, width, b"all", &sizes, &report.counts.sums)?;
    push_found(&mut out, &report.counts, &report.first_not_rising)?;
    push_damage(
        &mut out,
        &LINES,
        report.may_compress,
        &report.segments,
        &report.damage,
    )?;
    Ok(out)
}
