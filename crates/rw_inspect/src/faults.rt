//! Prints a fault of a log: what is wrong, where, and what to do next.

ghost use Rattle.std.specs.Prelude.{◌≡◌, ◌++◌, OnOk, IfOk};
ghost use Rattle.rw_inspect.specs.Faults.{damage_text, fault_text, placed_text, sentence_text, shape, shown_text, spot_text};
ghost use Rattle.rw_inspect.specs.declared.faults.TheConstants.{LINES};
ghost use Rattle.rw_inspect.specs.inner.Faults.{around_of, shape_of};

use crate::cells::push_text;
use crate::json_text::push_quoted;
use crate::words::{fault_words, next_step};
use rw_log_read::{Damage, Segment};
use rw_text::push_number;
use rw_wal_tail::{FaultPlace, TailFault};
use std::alloc::{AllocError, Global};

/// The texts before and after a sentence.
type Around = (&'static str, &'static str);

/// The texts before the file of a place, before the offset, before how many bytes are from there
/// on, and after that.
type PlaceTexts = (&'static str, &'static str, &'static str, &'static str);

/// The texts around what is wrong, where, and what to do next; and whether sentences and names are
/// JSON strings.
pub(crate) type FaultForm = (Around, PlaceTexts, Around, bool);

/// Lines of text.
pub(crate) const LINES: FaultForm = (
    ("fault: ", "\n"),
    (
        "place: file ",
        ", byte ",
        "; bytes from there to its end: ",
        "\n",
    ),
    ("next: ", "\n"),
    false,
);

/// Adds a sentence or a name.
fn push_shown(out: &mut Vec<u8>, is_json: bool, text: &str) -> Result<(), AllocError>
    ensures { OnOk result (out.new.items ≡ out.old.items ++ shown_text is_json text.now) }
{
    if is_json {
        push_quoted(out, text.as_bytes())
    } else {
        push_text(out, text)
    }
}

/// Adds a sentence with the texts around it.
#[tactic(auto, unfolding(crate::specs::Faults::sentence_text))]
fn push_sentence(
    out: &mut Vec<u8>,
    around: &Around,
    is_json: bool,
    text: &str,
) -> Result<(), AllocError>
    ensures { OnOk result
        (out.new.items ≡ out.old.items ++ sentence_text (around_of around.now) is_json text.now) }
{
    push_text(out, around.0)?;
    push_shown(out, is_json, text)?;
    push_text(out, around.1)
}

/// Adds a place in a file of this name and length.
#[tactic(auto, unfolding(crate::specs::Faults::spot_text))]
fn push_spot(
    out: &mut Vec<u8>,
    form: &FaultForm,
    name: &str,
    bytes: u64,
    offset: u64,
) -> Result<(), AllocError>
    ensures { OnOk result
        (out.new.items ≡ out.old.items ++ spot_text (shape_of form.now) name.now bytes offset) }
{
    let (file, at, rest, end) = form.1;
    push_text(out, file)?;
    push_shown(out, form.3, name)?;
    push_text(out, at)?;
    push_number(out, offset)?;
    push_text(out, rest)?;
    push_number(out, bytes.saturating_sub(offset))?;
    push_text(out, end)
}

/// Adds the place of a fault, if there is one.
fn push_place(
    out: &mut Vec<u8>,
    form: &FaultForm,
    segments: &[Segment],
    place: Option<FaultPlace>,
) -> Result<(), AllocError>
    ensures { OnOk result
        (out.new.items ≡ out.old.items ++ placed_text (shape_of form.now) segments.now place) }
{
    let Some(place) = place else {
        return Ok(());
    };
    match segments.get(place.segment as usize) {
        Some(segment) => push_spot(out, form, &segment.name, segment.bytes, place.offset),
        None => Ok(()),
    }
}

/// Adds a fault of a log, which may have Snappy blocks or has none, if there is one.
#[tactic(auto, unfolding(crate::specs::Faults::fault_text))]
pub(crate) fn push_damage(
    out: &mut Vec<u8>,
    form: &FaultForm,
    may_compress: bool,
    segments: &[Segment],
    damage: &Option<Damage>,
) -> Result<(), AllocError>
    ensures { OnOk result (out.new.items
        ≡ out.old.items ++ damage_text (shape_of form.now) may_compress segments.now damage.now) }
{
    let Some(damage) = damage else {
        return Ok(());
    };
    let (said, _, next, is_json) = form;
    let words = fault_words(damage.fault, may_compress);
    push_sentence(out, said, *is_json, words)?;
    push_place(out, form, segments, damage.place)?;
    push_sentence(out, next, *is_json, next_step(damage.fault, may_compress))
}

/// Returns the lines of the table about a fault of a log, which may have Snappy blocks or has none,
/// at this offset of a file of this name and length: what is wrong, where, and what to do next.
#[tactic(auto, unfolding(crate::specs::Faults::fault_text))]
pub fn fault_lines(
    alloc: Global,
    fault: TailFault,
    may_compress: bool,
    name: &str,
    bytes: u64,
    offset: u64,
) -> Result<Vec<u8>, AllocError>
    ensures { IfOk result (λ text. text.items
        ≡ fault_text (shape LINES) may_compress fault (spot_text (shape LINES) name.now bytes offset)) }
{
    let mut out = Vec::new(alloc);
    push_sentence(&mut out, &LINES.0, false, fault_words(fault, may_compress))?;
    push_spot(&mut out, &LINES, name, bytes, offset)?;
    push_sentence(&mut out, &LINES.2, false, next_step(fault, may_compress))?;
    Ok(out)
}
