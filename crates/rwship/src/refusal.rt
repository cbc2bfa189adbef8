//! The end of a run whose receiver refuses whatever it is sent, or answers the same failure for too
//! long.

use crate::drops::advice;
use crate::program_end::cut_off_status;
use rw_send::{GiveUp, RefusalStop};
use std::alloc::Global;
use std::process::ExitCode;
use std::sync::Arc;

/// What ends a run by the answers of its receiver, and where requests went.
#[derive(Drop)]
pub struct ReceiverStops {
    /// What a refusal of the first batch does, if it is to stop the run.
    pub refusal: Option<Arc<RefusalStop, Global>>,
    /// What the same failure does, if it is to stop the run.
    pub give_up: Option<Arc<GiveUp, Global>>,
    pub url: String,
}

/// Reports with which status the receiver refused the first batch, and what to do, if that has
/// stopped the run. Returns the exit status.
fn report_refusal(rt: &HostRuntime, stop: &RefusalStop, url: &str) -> Option<ExitCode> {
    let status = stop.refusal()?;
    let next = advice(status);
    let _ = eprintln!(rt;
        "rwship: stopped, since {url} answered {status} before it acknowledged any batch; next: {next}"
    );
    Some(cut_off_status())
}

/// Reports which failure the receiver has repeated, and what to do, if that has stopped the run.
/// Returns the exit status.
fn report_given_up(rt: &HostRuntime, give_up: &GiveUp, url: &str) -> Option<ExitCode> {
    let Ok(Some((status, text))) = give_up.failure(rt.alloc()) else {
        return None;
    };
    let _ = eprintln!(rt;
        "rwship: gave up, since {url} answered a batch with {status} for the time of --give-up: {text}"
    );
    let _ = eprintln!(rt;
        "  next: see what the receiver, or a proxy before it, says of this; without --give-up the batch is sent until it is taken"
    );
    Some(cut_off_status())
}

/// Reports why the answers of the receiver have stopped the run, if they have. Returns the exit
/// status.
pub fn report_receiver_stop(rt: &HostRuntime, stops: &ReceiverStops) -> Option<ExitCode> {
    let url = stops.url.as_str();
    if let Some(stop) = &stops.refusal {
        if let Some(status) = report_refusal(rt, stop, url) {
            return Some(status);
        }
    }
    match &stops.give_up {
        Some(give_up) => report_given_up(rt, give_up, url),
        None => None,
    }
}
