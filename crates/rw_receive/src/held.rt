//! The text of what a head holds.

ghost use Rattle.std.specs.Prelude.{◌≡◌, ◌⊎◌, false, true, Err, IfErr, OnOk};
ghost use Rattle.std.specs.Io.KnownBytes.{Appends};
ghost use Rattle.rw_text.specs.declared.tool_fault.ToolFault.TheVariants.{OutOfMemory, Device};
ghost use Rattle.rw_receive.specs.Receiving.{AppendsPart};
ghost use Rattle.rw_report_text.specs.StateText.{store_text};

use rw_head::Head;
use rw_report_text::push_store;
use rw_text::ToolFault;
use rw_types::{Sink, write_all};
use std::alloc::Global;

/// Prints what a head holds.
pub(crate) fn print_held<W: Sink>(
    alloc: Global,
    head: &Head,
    writer: &mut W,
) -> Result<(), ToolFault>
    ensures ok { OnOk result
        (Appends (W.contents writer.old) (W.contents writer.new) (store_text head.now.store)) }
    ensures sound { OnOk result
        (W.has_failed writer.old ≡ false → W.has_failed writer.new ≡ false) }
    ensures faults { IfErr result (λ e. (e ≡ OutOfMemory) ⊎ (e ≡ Device)) }
    ensures memory { result ≡ Err OutOfMemory → writer.new ≡ writer.old }
    ensures device { result ≡ Err Device → (W.has_failed writer.new ≡ true)
        × AppendsPart (W.contents writer.old) (W.contents writer.new)
        (store_text head.now.store) }
{
    let mut text = Vec::new(alloc);
    push_store(&mut text, head)?;
    write_all(writer, &text)?;
    Ok(())
}
