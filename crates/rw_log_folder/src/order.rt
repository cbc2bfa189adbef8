//! The order in which the files of a log are read.

ghost use Rattle.std.specs.Prelude.{◌≡◌, ◌↔◌, ◌++◌, ℕ, None, Some, Err, IfOk, OnOk, map};
ghost use Rattle.std.specs.List.{filter};
ghost use Rattle.rw_log_folder.specs.Order.{AreByNumber, IsGap, IsNewest, IsLogOrder, IsMissing, IsReadAfter, IsReadFrom, is_after_checkpoint, place_in};
ghost use Rattle.rw_log_folder.specs.inner.Order.{gap_after};
ghost use Rattle.rw_log_folder.specs.declared.order.OrderFault.TheVariants.{Missing};

use crate::listing::{Checkpoint, Listing, LogFile, NumberedName};
use std::alloc::{AllocError, Global};
use std::error::Error;
use std::fmt;

/// Why a log cannot be read.
#[derive(Clone, Copy, Debug, PartialEq, Eq)]
pub enum OrderFault {
    OutOfMemory,
    /// The segment of this number is missing after the checkpoint.
    Missing(u64),
}

impl fmt::Display for OrderFault {
    fn fmt<W: fmt::Write>(&self, f: &mut fmt::Formatter<W>) -> fmt::Result {
        match *self {
            OrderFault::OutOfMemory => f.write_str("out of memory"),
            OrderFault::Missing(segment) => write!(f, "segment {segment} is missing"),
        }
    }
}

impl Error for OrderFault {}

impl From<AllocError> for OrderFault {
    ghost use Rattle.std.specs.Prelude.{◌≡◌};
    ghost use Rattle.rw_log_folder.specs.declared.order.OrderFault.TheVariants.{OutOfMemory};

    ghost from_gives = { λ _ e. e ≡ OutOfMemory };

    fn from(_e: AllocError) -> OrderFault {
        OrderFault::OutOfMemory
    }
}

fn put_in_order(names: &mut Vec<NumberedName>)
    ensures { AreByNumber names.old.items names.new.items }
{
    names.sort_unstable_by_key(|name| (name.number, name.digits));
}

/// Takes the newest checkpoint.
fn newest(checkpoints: Vec<Checkpoint>) -> Option<Checkpoint>
    ensures { IsNewest checkpoints.items result }
{
    let mut checkpoints = checkpoints;
    checkpoints.sort_unstable_by_key(|checkpoint| checkpoint.name.number);
    checkpoints.pop()
}

/// Returns the first number after `last` that is missing among names in order.
fn gap_after(last: u64, names: &[NumberedName]) -> Option<u64>
    ensures { result ≡ gap_after last names.now }
{
    let mut last = last;
    for name in names {
        if name.number.saturating_sub(last) > 1 {
            return Some(last + 1);
        }
        last = name.number;
    }
    None
}

fn push_places(
    places: &mut Vec<LogFile>,
    checkpoint: Option<NumberedName>,
    names: &[NumberedName],
) -> Result<(), AllocError>
    ensures { OnOk result
        (places.new.items ≡ places.old.items ++ map (place_in checkpoint) names.now) }
{
    for name in names {
        places.push(LogFile {
            checkpoint,
            segment: *name,
        })?;
    }
    Ok(())
}

/// Keeps the segments with greater numbers than this one.
fn keep_above(segments: &mut Vec<NumberedName>, number: u64)
    ensures { segments.new.items ≡ filter (is_after_checkpoint number) segments.old.items }
{
    segments.retain(|segment| number < segment.number);
}

/// Returns the files of a log without a checkpoint.
fn whole_folder(alloc: Global, segments: Vec<NumberedName>) -> Result<Vec<LogFile>, AllocError>
    ensures { IfOk result (λ places. IsReadAfter None segments.items places.items) }
{
    let mut segments = segments;
    put_in_order(&mut segments);
    let mut places = Vec::new(alloc);
    push_places(&mut places, None, &segments)?;
    Ok(places)
}

/// Returns the files of a checkpoint, and those after it.
fn both_places(
    alloc: Global,
    checkpoint: NumberedName,
    first: &[NumberedName],
    later: &[NumberedName],
) -> Result<Vec<LogFile>, AllocError>
    ensures { IfOk result (λ places. places.items
        ≡ map (place_in (Some checkpoint)) first.now ++ map (place_in None) later.now) }
{
    let mut places = Vec::new(alloc);
    push_places(&mut places, Some(checkpoint), first)?;
    push_places(&mut places, None, later)?;
    Ok(places)
}

/// Returns the files of a log from a checkpoint on.
fn log_from(
    alloc: Global,
    checkpoint: Checkpoint,
    segments: Vec<NumberedName>,
) -> Result<Vec<LogFile>, OrderFault>
    ensures order { IfOk result
        (λ places. IsReadFrom checkpoint segments.items places.items) }
    ensures missing { (n : ℕ) → (result ≡ Err (Missing n))
        ↔ IsGap checkpoint.name.number
        (filter (is_after_checkpoint checkpoint.name.number) segments.items) n }
{
    let Checkpoint {
        name,
        segments: mut first,
    } = checkpoint;
    let mut later = segments;
    keep_above(&mut later, name.number);
    put_in_order(&mut later);
    put_in_order(&mut first);
    match gap_after(name.number, &later) {
        Some(number) => Err(OrderFault::Missing(number)),
        None => match both_places(alloc, name, &first, &later) {
            Ok(places) => Ok(places),
            Err(_) => Err(OrderFault::OutOfMemory),
        },
    }
}

/// Returns the files of a log in the order in which they are read: the segments of the newest
/// checkpoint by ascending number, and then the segments of the folder with greater numbers than
/// the checkpoint's, by ascending number. Without a checkpoint these are all segments of the
/// folder. Of two names of one number the shorter comes first.
///
/// If a segment is missing after the checkpoint although a later one exists, the fault is the least
/// number that is missing. No segment after the checkpoint is not a fault: the log ends with the
/// checkpoint. Without a checkpoint nothing is reported as missing. A missing segment is found
/// before memory is taken.
pub fn log_order(alloc: Global, listing: Listing) -> Result<Vec<LogFile>, OrderFault>
    ensures order { IfOk result (λ places. IsLogOrder listing places.items) }
    ensures missing { (n : ℕ) → (result ≡ Err (Missing n)) ↔ IsMissing listing n }
{
    let Listing {
        segments,
        checkpoints,
    } = listing;
    match newest(checkpoints) {
        None => Ok(whole_folder(alloc, segments)?),
        Some(checkpoint) => log_from(alloc, checkpoint, segments),
    }
}
