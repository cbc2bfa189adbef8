//! Why a body was refused.

ghost use Rattle.std.specs.Prelude.{◌≡◌, Some, Err, IfOk, IfErr, map};
ghost use Rattle.rw_metrics.specs.declared.refusals.RefusalReason.TheVariants.{Body};
ghost use Rattle.rw_receive.specs.Refusing.{label_reason};
ghost use Rattle.rw_types.specs.Labels.{text_label};
ghost use Rattle.rw_write_request.specs.Read.{read};
ghost use Rattle.rw_write_request.specs.declared.fault.WireFault.{WireFault};
ghost use Rattle.rw_write_request.specs.declared.fault.WireFault.TheVariants.{OutOfMemory};

use rw_head::Limits;
use rw_metrics::RefusalReason;
use rw_recv_head::SeatAnswer;
use rw_types::{LabelFault, LabelSet};
use rw_write_request::{WireFault, check_message, label_count, message_part, read_labels};
use std::alloc::Global;

/// Returns why a head with these limits refuses these labels: `Ok(None)` if it does not. Valid
/// labels that are too many or too long for any label set are over the limits of every head. An
/// error means that memory ran out.
pub(crate) fn fault_of_texts(
    limits: &Limits,
    labels: Vec<(String, String)>,
) -> Result<Option<RefusalReason>, WireFault>
    ensures reason { IfOk result (λ reason. reason
        ≡ label_reason limits.now (map text_label labels.items)) }
    ensures memory { IfErr result (λ f. f ≡ OutOfMemory) }
{
    Ok(match LabelSet::of_texts(limits.names, labels) {
        Ok(labels) => {
            let max_labels = limits.max_labels.get() as usize;
            if labels.is_over(max_labels, limits.max_label_bytes.get() as usize) {
                Some(RefusalReason::Limits)
            } else {
                None
            }
        }
        Err(LabelFault::OutOfMemory) => return Err(WireFault::OutOfMemory),
        Err(LabelFault::TooMany | LabelFault::TooLong) => Some(RefusalReason::Limits),
        Err(_) => Some(RefusalReason::Labels),
    })
}

/// Returns why a head with these limits refuses a series whatever it holds: `Ok(None)` if it does
/// not.
fn fault_of_labels(
    alloc: Global,
    limits: &Limits,
    series: &[u8],
) -> Result<Option<RefusalReason>, WireFault> {
    let max_labels = limits.max_labels.get() as usize;
    if label_count(series) > max_labels {
        return Ok(Some(RefusalReason::Limits));
    }
    fault_of_texts(limits, read_labels(alloc, series)?)
}

/// Returns why a head with these limits refuses a message whatever it holds, and the order of
/// samples if it does not.
fn fault_of_series(
    alloc: Global,
    limits: &Limits,
    message: &[u8],
) -> Result<RefusalReason, WireFault> {
    let mut rest = message;
    for _ in 0..message.len() {
        if rest.is_empty() {
            break;
        }
        let (series, after) = message_part(rest)?;
        if let Some(series) = series {
            if let Some(reason) = fault_of_labels(alloc, limits, series)? {
                return Ok(reason);
            }
        }
        rest = after;
    }
    Ok(RefusalReason::Order)
}

/// Returns why a head with these limits has answered a body with 400: if there is more than one
/// reason, the one that does not depend on what the head holds. `None` if memory runs out.
fn fault_of(alloc: Global, limits: &Limits, body: &[u8]) -> Option<RefusalReason>
    ensures body { (e : WireFault) → read body.now ≡ Err e → result ≡ Some Body }
{
    if check_message(body).is_err() {
        return Some(RefusalReason::Body);
    }
    fault_of_series(alloc, limits, body).ok()
}

/// Returns why a head with these limits has refused a body with this answer. `None` if memory runs
/// out.
pub(crate) fn reason_of(
    alloc: Global,
    limits: &Limits,
    asked: &SeatAnswer,
    body: &[u8],
) -> Option<RefusalReason> {
    match asked.status {
        429 => Some(RefusalReason::Busy),
        503 if asked.is_full => Some(RefusalReason::Full),
        503 => Some(RefusalReason::Unavailable),
        _ => fault_of(alloc, limits, body),
    }
}
