//! The numbers of a report, and fields of them.

ghost use Rattle.std.specs.Prelude.{◌≡◌, ◌++◌, ◌≤◌, OnOk, flat_map, map, length};
ghost use Rattle.rw_inspect.specs.Cells.{cell_text, field_text, fields_text, found_cells, number_text};
ghost use Rattle.rw_inspect.specs.inner.Cells.{text_of};

use crate::counts::Counts;
use rw_text::{push_integer, push_number};
use std::alloc::AllocError;

/// A number of a report.
#[derive(Clone, Copy)]
pub(crate) enum Cell {
    Count(u64),
    /// A timestamp, if there is one.
    Time(Option<i64>),
}

/// Returns what was found in a whole log.
pub(crate) fn found_cells(counts: &Counts) -> [Cell; 4]
    ensures { result ≡ found_cells counts.now }
{
    [
        Cell::Count(counts.label_sets),
        Cell::Count(counts.without_series),
        Cell::Count(counts.bad_labels),
        Cell::Count(counts.not_rising),
    ]
}

/// Adds a text.
pub(crate) fn push_text(out: &mut Vec<u8>, text: &str) -> Result<(), AllocError>
    ensures { OnOk result (out.new.items ≡ out.old.items ++ text.now) }
{
    out.extend_from_slice(text.as_bytes())
}

/// Adds a number, or a text for an absent timestamp.
fn push_cell(out: &mut Vec<u8>, none: &str, cell: Cell) -> Result<(), AllocError>
    ensures { OnOk result (out.new.items ≡ out.old.items ++ cell_text none.now cell) }
{
    match cell {
        Cell::Count(n) => push_number(out, n),
        Cell::Time(Some(t)) => push_integer(out, t),
        Cell::Time(None) => push_text(out, none),
    }
}

/// Adds a number after its name.
#[tactic(auto, unfolding(crate::specs::Cells::field_text))]
fn push_field(out: &mut Vec<u8>, name: &str, cell: Cell) -> Result<(), AllocError>
    ensures { OnOk result (out.new.items ≡ out.old.items ++ field_text name.now cell) }
{
    push_text(out, name)?;
    push_cell(out, "null", cell)
}

/// Adds each number after its name.
pub(crate) fn push_fields(
    out: &mut Vec<u8>,
    names: &[&str],
    cells: &[Cell],
) -> Result<(), AllocError>
    requires { length names.now ≤ length cells.now }
    ensures { OnOk result
        (out.new.items ≡ out.old.items ++ fields_text (map text_of names.now) cells.now) }
{
    for (i, name) in names.iter().enumerate() {
        push_field(out, name, cells[i])?;
    }
    Ok(())
}

/// Adds a number after a text.
#[tactic(auto, unfolding(crate::specs::Cells::number_text))]
fn push_after(out: &mut Vec<u8>, before: &str, n: u64) -> Result<(), AllocError>
    ensures { OnOk result (out.new.items ≡ out.old.items ++ number_text before.now n) }
{
    push_text(out, before)?;
    push_number(out, n)
}

/// Adds numbers, each after a text.
pub(crate) fn push_numbers(
    out: &mut Vec<u8>,
    before: &str,
    numbers: &[u64],
) -> Result<(), AllocError>
    ensures { OnOk result
        (out.new.items ≡ out.old.items ++ flat_map (number_text before.now) numbers.now) }
{
    for n in numbers {
        push_after(out, before, *n)?;
    }
    Ok(())
}
