//! The bytes of the request that carries a message.

ghost use Rattle.std.specs.Prelude.{◌≡◌, ◌≢◌, ℕ, List, ◌+◌, ◌≤◌, ◌++◌, decimal, IfOk, OnOk};
ghost use Rattle.std.specs.Option.{MatchOption};
ghost use Rattle.std.specs.Vec.{vec_len, vec_capacity};
ghost use Rattle.rw_write_request.specs.Spells.{Spells};
ghost use Rattle.rw_batch.specs.Batches.{batch_of};
ghost use Rattle.rw_batch.specs.Grouping.{message};
ghost use Rattle.rw_shard_core.specs.SentRequest.{request_of, request_head, snappy_request_of};
ghost use Rattle.rw_shard_core.specs.inner.Requests.{head_in, fields_in};

use crate::blank_line::after_blank_line;
use crate::config::Target;
use bytes::Bytes;
use itoa::Buffer;
use rw_batch::Builder;
use std::alloc::{AllocError, Global};

const METHOD: &[u8] = b"POST ";

const VERSION_AND_HOST: &[u8] = b" HTTP/1.1\r\nHost: ";

const FIELDS: &[u8] =
    b"\r\nUser-Agent: rwship/1.0\r\nContent-Type: application/x-protobuf\r\nX-Prometheus-Remote-Write-Version: 0.1.0\r\nConnection: close\r\nContent-Length: ";

const SNAPPY_FIELDS: &[u8] =
    b"\r\nUser-Agent: rwship/1.0\r\nContent-Type: application/x-protobuf\r\nContent-Encoding: snappy\r\nX-Prometheus-Remote-Write-Version: 0.1.0\r\nConnection: close\r\nContent-Length: ";

const END_OF_HEAD: &[u8] = b"\r\n\r\n";

/// Appends a part of a request.
fn append(bytes: &mut Vec<u8>, part: &[u8]) -> Result<(), AllocError>
    ensures { OnOk result (bytes.new.items ≡ bytes.old.items ++ part.now) }
{
    bytes.extend_from_slice(part)
}

/// Returns what is between the host and the length in a head, for a body that is a Snappy block or
/// one that is not.
fn fields_in(snappy: bool) -> &'static [u8]
    ensures { result.now ≡ fields_in snappy }
{
    if snappy { SNAPPY_FIELDS } else { FIELDS }
}

/// Appends the head of a request. `digits` is the length of its body in decimal, and `snappy` says
/// whether that is a Snappy block.
fn put_head(
    bytes: &mut Vec<u8>,
    host: &[u8],
    path: &[u8],
    digits: &[u8],
    snappy: bool,
) -> Result<(), AllocError>
    ensures { OnOk result
        (bytes.new.items ≡ bytes.old.items ++ head_in snappy host.now path.now digits.now) }
{
    append(bytes, METHOD)?;
    append(bytes, path)?;
    append(bytes, VERSION_AND_HOST)?;
    append(bytes, host)?;
    append(bytes, fields_in(snappy))?;
    append(bytes, digits)?;
    append(bytes, END_OF_HEAD)?;
    Ok(())
}

/// Returns the head of a request to the target whose body has `len` bytes, and room for that body
/// after it. `snappy` says whether it is a Snappy block.
fn head_for(alloc: Global, target: &Target, len: usize, snappy: bool) -> Result<Vec<u8>, AllocError>
    ensures head { IfOk result
        (λ v. v.items ≡ head_in snappy target.now.host target.now.path (decimal len)) }
    ensures room { IfOk result (λ v. vec_len v + len ≤ vec_capacity v) }
{
    let mut buffer = Buffer::new();
    let digits = buffer.format(len).as_bytes();
    let host = target.host.as_str().as_bytes();
    let path = target.path.as_str().as_bytes();
    // (the fields are these at most)
    let fixed = METHOD.len() + VERSION_AND_HOST.len() + SNAPPY_FIELDS.len() + END_OF_HEAD.len();
    let head = fixed + path.len() + host.len() + digits.len();
    let Some(whole) = head.checked_add(len) else {
        return Err(AllocError);
    };
    let mut bytes = Vec::with_capacity(alloc, whole)?;
    put_head(&mut bytes, host, path, digits, snappy)?;
    bytes.reserve(len)?;
    Ok(bytes)
}

/// Returns the HTTP/1.1 request that carries `body` to the target (Remote-Write 1.0, "Protocol"),
/// in one buffer that is reserved once.
pub fn request_bytes(alloc: Global, target: &Target, body: &[u8]) -> Result<Vec<u8>, AllocError>
    ensures { IfOk result (λ v. v.items ≡ request_of target.now.host target.now.path body.now) }
{
    let mut bytes = head_for(alloc, target, body.len(), false)?;
    bytes.extend_from_slice(body)?;
    Ok(bytes)
}

/// Returns the HTTP/1.1 request that carries a Snappy block to the target (Remote-Write 1.0,
/// "Protocol"), in one buffer that is reserved once. Its head is that of `request_bytes` with one
/// line more, `Content-Encoding: snappy`.
pub fn snappy_request_bytes(
    alloc: Global,
    target: &Target,
    block: &[u8],
) -> Result<Vec<u8>, AllocError>
    ensures { IfOk result
        (λ v. v.items ≡ snappy_request_of target.now.host target.now.path block.now) }
{
    let mut bytes = head_for(alloc, target, block.len(), true)?;
    bytes.extend_from_slice(block)?;
    Ok(bytes)
}

/// Returns the head of a request to the target whose body has `len` bytes.
fn plain_head(alloc: Global, target: &Target, len: usize) -> Result<Vec<u8>, AllocError>
    ensures { IfOk result
        (λ v. v.items ≡ request_head target.now.host target.now.path (decimal len)) }
{
    let mut buffer = Buffer::new();
    let digits = buffer.format(len).as_bytes();
    let host = target.host.as_str().as_bytes();
    let path = target.path.as_str().as_bytes();
    let mut head = Vec::new(alloc);
    put_head(&mut head, host, path, digits, false)?;
    Ok(head)
}

/// Returns what comes after this head, or `None` if the request does not begin with it.
fn after_head<'a>(request: &'a [u8], head: &[u8]) -> Option<&'a [u8]>
    ensures { MatchOption result
        ((rest : List ℕ) → request.now ≢ head.now ++ rest)
        (λ rest. request.now ≡ head.now ++ rest.now) }
{
    request.strip_prefix(head)
}

/// Returns the body of a request that is one of `request_bytes` to this target, or `None` if it is
/// not.
pub fn body_in_request<'a>(
    alloc: Global,
    target: &Target,
    request: &'a [u8],
) -> Result<Option<&'a [u8]>, AllocError>
    ensures { IfOk result (λ found. MatchOption found
        ((body : List ℕ) → request.now ≢ request_of target.now.host target.now.path body)
        (λ body. request.now ≡ request_of target.now.host target.now.path body.now)) }
{
    target.host.conforms();
    target.path.conforms();
    let len = after_blank_line(request).len();
    let head = plain_head(alloc, target, len)?;
    match after_head(request, head.as_slice()) {
        None => Ok(None),
        Some(body) if body.len() == len => Ok(Some(body)),
        Some(_) => Ok(None),
    }
}

/// A request and its body, which is a part of its bytes.
#[derive(Drop)]
pub(crate) struct Carrying {
    pub(crate) request: Bytes,
    pub(crate) body: Bytes,
}

/// Returns the whole request that carries the samples of a builder, in one buffer that is written
/// once.
pub(crate) fn request_with(
    alloc: Global,
    target: &Target,
    builder: &Builder,
) -> Result<Carrying, AllocError>
    ensures request { IfOk result (λ c. c.request
        ≡ request_of target.now.host target.now.path (batch_of builder.now).body) }
    ensures body { IfOk result (λ c. c.body ≡ (batch_of builder.now).body) }
    // A reader of the body finds the message of the samples.
    ensures spells { IfOk result (λ c. Spells c.body (message builder.now.samples)) }
{
    let Some(len) = builder.body_len() else {
        return Err(AllocError);
    };
    let mut bytes = head_for(alloc, target, len, false)?;
    let head = bytes.len();
    builder.put_body(&mut bytes)?;
    let request = Bytes::from_vec(bytes)?;
    let body = request.slice(head..)?;
    Ok(Carrying { request, body })
}
