//! Lines on requests that a receiver has refused.

use crate::event_log::LastLine;
use rw_metrics::{ReceiveCounters, ReceiveNumbers, RefusedRequest};
use rw_receive::refusal_words;
use std::alloc::{AllocError, Global};
use std::sync::Arc;
use std::thread::{self, Threads};
use std::time::Duration;

/// How many milliseconds pass between two looks at the counters.
const LOOK_MS: u64 = 1_000;

/// What was written about refused requests.
#[derive(Clone, Copy)]
pub struct RefusalsSeen {
    requests: LastLine,
    samples_over_limit: LastLine,
}

/// Returns how many requests were refused.
fn refused_in(numbers: &ReceiveNumbers) -> u64 {
    let mut sum = 0_u64;
    for (status, count) in &numbers.statuses {
        if *status >= 400 {
            sum = sum.saturating_add(*count);
        }
    }
    sum
}

/// Returns why a request was refused without a look at its message, in words.
fn words_of_status(status: u16) -> &'static str {
    match status {
        400 => "it is not valid HTTP/1.1, or its Snappy block is not valid",
        404 => "its path is not receive.path",
        405 => "its method is not POST",
        411 => "it has no Content-Length",
        413 => "it is over receive.max_body_bytes",
        415 => "its Content-Type or Content-Encoding is not taken; Snappy needs --snappy",
        _ => "for a reason that is not known",
    }
}

/// Returns why a request was refused, in words.
fn why(refusal: &RefusedRequest) -> &'static str {
    match refusal.reason {
        Some(reason) => refusal_words(reason),
        None if refusal.samples > 0 => "for a reason that is not known",
        None => words_of_status(refusal.status),
    }
}

/// Adds an example of a refused request.
fn push_example(
    alloc: Global,
    text: &mut String,
    refusal: &RefusedRequest,
) -> Result<(), AllocError> {
    let (status, why) = (refusal.status, why(refusal));
    text.push_str(format!(in alloc; "; one of them with {status}: {why}")?.as_str())?;
    if let Some(asked) = &refusal.asked {
        text.push_str(format!(in alloc; "; asked for {asked}")?.as_str())?;
    }
    if refusal.samples > 0 {
        let samples = refusal.samples;
        text.push_str(format!(in alloc; "; samples {samples}")?.as_str())?;
    }
    if let Some(from) = &refusal.from {
        text.push_str(format!(in alloc; "; from {from}")?.as_str())?;
    }
    Ok(())
}

/// Returns the line on requests that were refused: `more` of them since the last such line.
fn refusals_text(
    alloc: Global,
    more: u64,
    numbers: &ReceiveNumbers,
    example: &Option<RefusedRequest>,
) -> Result<String, AllocError> {
    let mut text = format!(in alloc; "requests were refused: {more}; since the start")?;
    for (status, count) in &numbers.statuses {
        if *status >= 400 {
            let part = format!(in alloc; " {count} with status {status}")?;
            text.push_str(part.as_str())?;
        }
    }
    if let Some(refusal) = example {
        push_example(alloc, &mut text, refusal)?;
    }
    Ok(text)
}

/// Returns the line on a limit that is reached.
fn limit_text(alloc: Global, numbers: &ReceiveNumbers) -> Result<String, AllocError> {
    let mut text = String::from_str(
        alloc,
        "a limit is reached, and what goes beyond it is answered with 503, so its senders wait",
    )?;
    if numbers.max_samples > 0 {
        let (held, most) = (numbers.samples, numbers.max_samples);
        text.push_str(format!(in alloc; "; samples {held}, --max-samples {most}")?.as_str())?;
    }
    if numbers.max_label_sets > 0 {
        let (held, most) = (numbers.label_sets, numbers.max_label_sets);
        text.push_str(format!(in alloc; "; series {held}, --max-series {most}")?.as_str())?;
    }
    text.push_str("; next: stop the receiver, and start it with a larger limit")?;
    Ok(text)
}

impl RefusalsSeen {
    /// Returns what it is before the first line.
    pub fn new() -> RefusalsSeen {
        RefusalsSeen {
            requests: LastLine::new(),
            samples_over_limit: LastLine::new(),
        }
    }

    /// Returns the line on requests that were refused since the last one, if there are any, and
    /// that line is a minute ago.
    pub fn refusals(
        &mut self,
        alloc: Global,
        counters: &ReceiveCounters,
        numbers: &ReceiveNumbers,
    ) -> Option<Result<String, AllocError>> {
        let Some(more) = self.requests.news(refused_in(numbers)) else {
            return None;
        };
        Some(refusals_text(alloc, more, numbers, &counters.take_refusal()))
    }

    /// Returns the line on a limit that is reached, if requests were refused for it since the last
    /// one, and that line is a minute ago.
    pub fn limit(
        &mut self,
        alloc: Global,
        numbers: &ReceiveNumbers,
    ) -> Option<Result<String, AllocError>> {
        let Some(_) = self.samples_over_limit.news(numbers.refused_samples.full) else {
            return None;
        };
        Some(limit_text(alloc, numbers))
    }

    /// Writes the lines that are due to standard error.
    fn print(&mut self, rt: &HostRuntime, counters: &ReceiveCounters) {
        let Ok(numbers) = counters.numbers(rt.alloc()) else {
            return;
        };
        if let Some(Ok(text)) = self.refusals(rt.alloc(), counters, &numbers) {
            let _ = eprintln!(rt; "rwship: {text}");
        }
        if let Some(Ok(text)) = self.limit(rt.alloc(), &numbers) {
            let _ = eprintln!(rt; "rwship: {text}");
        }
    }
}

/// Has a thread write to standard error, once a minute at most, which requests were refused, and
/// that a limit is reached. It is never joined.
pub fn report_refusals<R: Threads>(
    rt: &HostRuntime,
    threads: &R,
    counters: &Arc<ReceiveCounters, Global>,
) -> Result<(), AllocError> {
    let counters = Arc::try_clone(counters)?;
    let host = *rt;
    let watcher = thread::spawn(threads, move || {
        let mut seen = RefusalsSeen::new();
        for _ in 0..u64::MAX {
            thread::sleep(&host, Duration::from_millis(LOOK_MS));
            seen.print(&host, &counters);
        }
    })?;
    drop(watcher);
    Ok(())
}
