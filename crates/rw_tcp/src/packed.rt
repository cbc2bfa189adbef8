//! Requests whose bodies are sent as Snappy blocks.

ghost use Rattle.std.specs.Prelude.{◌≡◌, ◌<◌, ◌^◌, IfOk, OnOk, OnErr, IsOk};
ghost use Rattle.rw_shard_core.specs.SentRequest.{request_of, CarriesInBlock, Carries};
ghost use Rattle.rw_tcp.specs.Packing.{IsPacked};

use rw_shard_core::{Target, body_in_request, snappy_request_bytes};
use rw_snappy::Encoder;
use rw_types::{HostName, RequestPath};
use std::alloc::{AllocError, Global};
use std::marker::Model;

/// The most bytes of a body that is packed.
const MOST: usize = 4_294_967_295;

/// Returns a copy of a target.
pub fn copy_target(alloc: Global, target: &Target) -> Result<Target, AllocError>
    ensures { IfOk result (λ t. t ≡ target.now) }
{
    let host = String::from_str(alloc, target.host.as_str())?;
    let path = String::from_str(alloc, target.path.as_str())?;
    match (HostName::check(host), RequestPath::check(path)) {
        (Some(host), Some(path)) => Ok(Target { host, path }),
        _ => unreachable!(),
    }
}

/// Returns the bytes of a request that carries this body to the target in a block. A body of 2^32
/// bytes or more, which no block holds, counts as out of memory.
fn in_block(
    alloc: Global,
    target: &Target,
    encoder: &mut Encoder,
    block: &mut Vec<u8>,
    body: &[u8],
) -> Result<Vec<u8>, AllocError>
    ensures { IfOk result (λ v. CarriesInBlock target.now.host target.now.path
        (request_of target.now.host target.now.path body.now) v.items) }
{
    if body.len() > MOST {
        return Err(AllocError);
    }
    encoder.encode(body, block)?;
    snappy_request_bytes(alloc, target, block.as_slice())
}

/// Returns the bytes that are written for a request.
fn packed(
    alloc: Global,
    target: &Target,
    encoder: &mut Encoder,
    block: &mut Vec<u8>,
    request: &[u8],
) -> Result<Vec<u8>, AllocError>
    ensures { IfOk result (λ v. IsPacked target.now request.now v.items) }
{
    match body_in_request(alloc, target, request)? {
        Some(body) => in_block(alloc, target, encoder, block, body),
        None => Vec::from_slice(alloc, request),
    }
}

/// Packs the bodies of requests to one target into Snappy blocks, each request once: as long as the
/// same request comes, the bytes are the same. Contracts see the target, the last request and the
/// bytes that carry it.
#[derive(Drop)]
pub(crate) struct Packer {
    alloc: Global,
    target: Target,
    encoder: Encoder,
    block: Vec<u8>,
    request: Vec<u8>,
    bytes: Vec<u8>,
}

impl Model for Packer {
    ghost use Rattle.rw_tcp.specs.Packing.{Packer, IsPacked};

    ghost Value = { Packer };

    ghost view = { λ p. record {
      target = p.target;
      request = p.request.items;
      bytes = p.bytes.items;
    } };

    ghost invariant = { λ p. IsPacked p.target p.request.items p.bytes.items };
}

impl Packer {
    /// Returns a packer of requests to this target. An `Err` means that memory ran out.
    pub(crate) fn new(alloc: Global, target: Target) -> Result<Packer, AllocError>
        ensures { IfOk result (λ p. p.target ≡ target) }
    {
        Ok(Packer {
            alloc,
            target,
            encoder: Encoder::new(alloc)?,
            block: Vec::new(alloc),
            request: Vec::new(alloc),
            bytes: Vec::new(alloc),
        })
    }

    /// Packs a request, unless it is the last one. An `Err` means that memory ran out; then nothing
    /// has changed.
    pub(crate) fn pack(&mut self, request: &[u8]) -> Result<(), AllocError>
        ensures target { self.new.target ≡ self.old.target }
        ensures request { OnOk result (self.new.request ≡ request.now) }
        ensures packed { OnOk result (IsPacked self.old.target request.now self.new.bytes) }
        ensures again { request.now ≡ self.old.request → self.new.bytes ≡ self.old.bytes }
        ensures certain { request.now ≡ self.old.request → IsOk result }
        ensures unchanged { OnErr result (self.new ≡ self.old) }
    {
        if self.request.as_slice() == request {
            return Ok(());
        }
        let bytes = packed(
            self.alloc,
            &self.target,
            &mut self.encoder,
            &mut self.block,
            request,
        )?;
        let copy = Vec::from_slice(self.alloc, request)?;
        self.request = copy;
        self.bytes = bytes;
        Ok(())
    }

    /// Returns the bytes that carry the last request.
    pub(crate) fn bytes(&self) -> &[u8]
        ensures bytes { result.now ≡ self.now.bytes }
        ensures packed { IsPacked self.now.target self.now.request result.now }
        ensures carries { Carries self.now.target.host self.now.target.path self.now.request
            result.now }
    {
        self.bytes.as_slice()
    }
}
