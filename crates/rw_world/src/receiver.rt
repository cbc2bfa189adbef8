//! The receiver's answers to requests.

ghost use Rattle.std.specs.Prelude.{◌≡◌, IfOk, OnOk, OnErr};
ghost use Rattle.rw_world.specs.Answering.{IsSentTo, answer_to_batch};
ghost use Rattle.rw_world.specs.inner.Answering.{IsReplied};

use crate::sent::SentBatch;
use http::StatusCode;
use rw_head::{Head, Limits};
use rw_roundtrip::{exchange, requests_are_read};
use rw_types::{HostName, RequestPath};
use std::alloc::{AllocError, Global};

/// No request is longer. If one would be, the call reports that memory ran out.
const MOST_BYTES: usize = 1 << 62;

/// Returns these limits with another path.
pub fn limits_at(alloc: Global, limits: Limits, path: &RequestPath) -> Result<Limits, AllocError>
    ensures { IfOk result (λ l. l ≡ record limits { path = path.now }) }
{
    match RequestPath::check(String::from_str(alloc, path.as_str())?) {
        Some(path) => Ok(Limits {
            path,
            max_body_bytes: limits.max_body_bytes,
            max_labels: limits.max_labels,
            max_label_bytes: limits.max_label_bytes,
            busy_first: limits.busy_first,
            snappy: limits.snappy,
            names: limits.names,
        }),
        None => unreachable!(),
    }
}

/// Returns a copy of a host.
pub fn copy_of(alloc: Global, host: &HostName) -> Result<HostName, AllocError>
    ensures { IfOk result (λ h. h ≡ host.now) }
{
    match HostName::check(String::from_str(alloc, host.as_str())?) {
        Some(host) => Ok(host),
        None => unreachable!(),
    }
}

/// Returns what the receiver replies to a request.
fn ask(
    alloc: Global,
    sent: &SentBatch,
    host: &HostName,
    head: &mut Head,
    limits: &Limits,
) -> Result<u16, AllocError>
    requires { IsSentTo host.now limits.now.path sent.now }
    ensures { IsReplied
        (answer_to_batch limits.now.max_body_bytes head.old sent.now.batch) head.old result head.new }
{
    host.conforms();
    limits.path.conforms();
    requests_are_read();
    let request = sent.request();
    if request.len() > MOST_BYTES {
        return Err(AllocError);
    }
    exchange(alloc, request, head, limits)
}

/// Returns the receiver's answer to a request, or an error if memory runs out.
pub fn answer_to(
    alloc: Global,
    sent: &SentBatch,
    host: &HostName,
    head: &mut Head,
    limits: &Limits,
) -> Result<StatusCode, AllocError>
    requires { IsSentTo host.now limits.now.path sent.now }
    ensures status { IfOk result
        (λ s. s ≡ (answer_to_batch limits.now.max_body_bytes head.old sent.now.batch).status) }
    ensures head { OnOk result
        (head.new ≡ (answer_to_batch limits.now.max_body_bytes head.old sent.now.batch).head) }
    ensures err { OnErr result (head.new ≡ head.old) }
{
    let status = ask(alloc, sent, host, head, limits)?;
    if status == 503 {
        return Err(AllocError);
    }
    match StatusCode::from_u16(status) {
        Ok(code) => Ok(code),
        Err(_) => unreachable!(),
    }
}
