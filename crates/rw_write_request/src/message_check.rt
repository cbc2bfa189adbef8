//! Judges whether bytes are a message, and takes no memory.

ghost use Rattle.std.specs.Prelude.{◌≡◌, ◌≢◌, Ok, Err, OnOk, IfErr};
ghost use Rattle.rw_write_request.specs.Message.{TimeSeries, WriteRequest};
ghost use Rattle.rw_write_request.specs.Read.{nested, read_label, read_series, series_step, read};
ghost use Rattle.rw_write_request.specs.inner.Read.{Judges};
ghost use Rattle.rw_write_request.specs.inner.View.{content_view, field_view};
ghost use Rattle.rw_write_request.specs.declared.fault.WireFault.TheVariants.{OutOfMemory};

use crate::fault::WireFault;
use crate::kind::Kind;
use crate::parts::message_part;
use crate::reader::{Part, WireValue, field_at, label_texts, nested_sample};

#[tactic(auto, unfolding(crate::specs::Read::nested))]
fn check_label(held: WireValue<'_>) -> Result<(), WireFault>
    ensures { Judges result (nested read_label (content_view held.entry)) }
{
    match held {
        WireValue::Bytes(bytes) => {
            label_texts(bytes)?;
            Ok(())
        }
        _ => Err(WireFault::WrongWire),
    }
}

/// Judges a field of a series, whatever comes before it.
#[tactic(auto, unfolding(crate::specs::Read::series_step))]
fn check_series_part(part: Part<'_>) -> Result<(), WireFault>
    ensures { (series : TimeSeries) → Judges result (series_step series (field_view part.entry)) }
{
    match part.number {
        1 => check_label(part.held),
        2 => {
            nested_sample(part.held)?;
            Ok(())
        }
        _ => Ok(()),
    }
}

fn check_series(bytes: &[u8]) -> Result<(), WireFault>
    ensures { Judges result (read_series bytes.now) }
{
    let mut rest = bytes;
    while !rest.is_empty() {
        let (part, after) = field_at(Kind::TimeSeries, rest)?;
        check_series_part(part)?;
        rest = after;
    }
    Ok(())
}

/// Judges bytes as `decode` does, without making the message. This takes no memory.
pub fn check_message(bytes: &[u8]) -> Result<(), WireFault>
    // The bytes spell a message.
    ensures found { OnOk result ((m : WriteRequest) × (read bytes.now ≡ Ok m)) }
    // The fault is the first one in reading order.
    ensures fault { IfErr result (λ e. read bytes.now ≡ Err e) }
    // The fault is never out of memory.
    ensures certain { IfErr result (λ e. e ≢ OutOfMemory) }
{
    let mut rest = bytes;
    while !rest.is_empty() {
        let (series, after) = message_part(rest)?;
        if let Some(series) = series {
            check_series(series)?;
        }
        rest = after;
    }
    Ok(())
}
