//! The state of a world printed.

ghost use Rattle.std.specs.Prelude.{◌≡◌, ◌++◌, IfOk, OnOk};
ghost use Rattle.rw_report_text.specs.StateText.{store_text};
ghost use Rattle.rw_replay.specs.WorldText.{state_text};

use rw_report_text::{push_received, push_work};
use rw_world::World;
use std::alloc::{AllocError, Global};

/// Adds a `received` line for each label set of which the receiver holds samples, by byte order of
/// their lists of (name, value).
fn push_all_received(out: &mut Vec<u8>, world: &World) -> Result<(), AllocError>
    ensures { OnOk result (out.new.items ≡ out.old.items ++ store_text world.now.world.head.store) }
{
    let mut label_sets = world.label_sets();
    while let Some(labels) = label_sets.next() {
        let samples = world.received(labels)?;
        push_received(out, labels, &samples)?;
    }
    Ok(())
}

/// Returns the state of a world as text, one fact a line.
pub(crate) fn text_of(alloc: Global, world: &World) -> Result<Vec<u8>, AllocError>
    ensures { IfOk result (λ text. text.items ≡ state_text world.now.world) }
{
    let report = world.report()?;
    let mut out = Vec::new(alloc);
    push_all_received(&mut out, world)?;
    push_work(&mut out, world.ledger(), world.filtered(), report.as_ref())?;
    Ok(out)
}
