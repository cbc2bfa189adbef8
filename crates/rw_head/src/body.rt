//! Bodies of requests, read and judged series by series.

ghost use Rattle.std.specs.Prelude.{◌≡◌, ◌≤◌, length, Ok, OnOk, IfErr};
ghost use Rattle.rw_write_request.specs.Message.{WriteRequest};
ghost use Rattle.rw_write_request.specs.Read.{read, read_series};
ghost use Rattle.rw_head.specs.declared.verdict.Verdict.TheVariants.{NoMemory};
ghost use Rattle.rw_head.specs.inner.Bodies.{SeriesGives, BodyGives, HasFewLabels};
ghost use Rattle.rw_head.specs.inner.Growth.{HoldsNoneRefused};

use crate::label_bounds::{LabelBounds, Texts};
use crate::table::Table;
use crate::verdict::Verdict;
use rw_write_request::{
    Series, check_message, label_count, message_part, next_samples, read_labels, read_series,
    samples_stay, what_is_read_stays,
};

/// The most bytes of a series that is read whole.
const MOST_WHOLE_BYTES: usize = 65_536;

/// Reads a series whole, and stages it.
fn stage_whole(
    table: &mut Table,
    bounds: &LabelBounds,
    bytes: &[u8], // of one series
) -> Result<(), Verdict>
    requires within { HoldsNoneRefused bounds.now table.old.staged }
    requires few { HasFewLabels bounds.now (read_series bytes.now) }
    requires short { length bytes.now ≤ 65536 }
    ensures kept { table.new.kept ≡ table.old.kept }
    ensures forgets { table.new.forgets ≡ table.old.forgets }
    ensures staged { SeriesGives result bounds.now table.old.staged
        (read_series bytes.now) table.new.staged }
{
    let Series { labels, samples } = read_series(table.allocator(), bytes)?;
    table.stage(bounds, Texts::Given(labels), &samples)
}

/// Reads the labels of a series, and then stages its samples, those of 4,096 fields at a time: no
/// more of them are in memory at once outside of the lists.
fn stage_in_parts(
    table: &mut Table,
    bounds: &LabelBounds,
    bytes: &[u8], // of one series
) -> Result<(), Verdict>
    requires within { HoldsNoneRefused bounds.now table.old.staged }
    requires few { HasFewLabels bounds.now (read_series bytes.now) }
    ensures kept { table.new.kept ≡ table.old.kept }
    ensures forgets { table.new.forgets ≡ table.old.forgets }
    ensures staged { SeriesGives result bounds.now table.old.staged
        (read_series bytes.now) table.new.staged }
{
    samples_stay();
    let alloc = table.allocator();
    let labels = read_labels(alloc, bytes)?;
    let mut samples = Vec::new(alloc);
    table.stage(bounds, Texts::Lent(&labels), &samples)?;
    let mut rest = bytes;
    while !rest.is_empty() {
        rest = next_samples(&mut samples, rest)?;
        table.stage(bounds, Texts::Lent(&labels), &samples)?;
    }
    Ok(())
}

/// Stages a series from its bytes: a long one in parts, so that it takes little more room than its
/// samples do once they are held.
fn stage_read(
    table: &mut Table,
    bounds: &LabelBounds,
    bytes: &[u8], // of one series
) -> Result<(), Verdict>
    requires within { HoldsNoneRefused bounds.now table.old.staged }
    requires few { HasFewLabels bounds.now (read_series bytes.now) }
    ensures kept { table.new.kept ≡ table.old.kept }
    ensures forgets { table.new.forgets ≡ table.old.forgets }
    ensures staged { SeriesGives result bounds.now table.old.staged
        (read_series bytes.now) table.new.staged }
{
    if bytes.len() > MOST_WHOLE_BYTES {
        return stage_in_parts(table, bounds, bytes);
    }
    stage_whole(table, bounds, bytes)
}

/// Stages a series. If its labels are known by its first bytes, they are not read again; otherwise
/// it is read first, unless it has more labels than the head takes.
fn stage_series(
    table: &mut Table,
    bounds: &LabelBounds,
    bytes: &[u8], // of one series
) -> Result<(), Verdict>
    requires { HoldsNoneRefused bounds.now table.old.staged }
    ensures kept { table.new.kept ≡ table.old.kept }
    ensures forgets { table.new.forgets ≡ table.old.forgets }
    ensures staged { SeriesGives result bounds.now table.old.staged
        (read_series bytes.now) table.new.staged }
{
    if table.stage_known(bytes)? {
        return Ok(());
    }
    if label_count(bytes) > bounds.max_labels {
        return Err(Verdict::OverLimit);
    }
    stage_read(table, bounds, bytes)?;
    table.learn(bytes);
    Ok(())
}

/// Stages the series of a body, one after the other, up to the first that is refused or is not a
/// valid series.
fn stage_parts(
    table: &mut Table,
    bounds: &LabelBounds,
    body: &[u8], // of a request
) -> Result<(), Verdict>
    requires { HoldsNoneRefused bounds.now table.old.staged }
    ensures kept { table.new.kept ≡ table.old.kept }
    ensures forgets { table.new.forgets ≡ table.old.forgets }
    ensures staged { BodyGives result bounds.now table.old.staged body.now table.new.staged }
    ensures within { OnOk result (HoldsNoneRefused bounds.now table.new.staged) }
{
    what_is_read_stays();
    let mut rest = body;
    while !rest.is_empty() {
        let (series, after) = message_part(rest)?;
        if let Some(bytes) = series {
            stage_series(table, bounds, bytes)?;
        }
        rest = after;
    }
    Ok(())
}

/// Stages the series of a body, as `stage_parts` does. If memory ran out, the body is judged
/// without memory, and bytes that are not a message are bad.
pub(crate) fn stage_body(
    table: &mut Table,
    bounds: &LabelBounds,
    body: &[u8],
) -> Result<(), Verdict>
    requires { HoldsNoneRefused bounds.now table.old.staged }
    ensures kept { table.new.kept ≡ table.old.kept }
    ensures forgets { table.new.forgets ≡ table.old.forgets }
    ensures staged { BodyGives result bounds.now table.old.staged body.now table.new.staged }
    ensures within { OnOk result (HoldsNoneRefused bounds.now table.new.staged) }
    ensures memory { IfErr result
        (λ v. v ≡ NoMemory → (m : WriteRequest) × (read body.now ≡ Ok m)) }
{
    match stage_parts(table, bounds, body) {
        Ok(()) => Ok(()),
        Err(verdict) if verdict == Verdict::NoMemory => match check_message(body) {
            Ok(()) => Err(verdict),
            Err(_) => Err(Verdict::BadBody),
        },
        Err(verdict) => Err(verdict),
    }
}
