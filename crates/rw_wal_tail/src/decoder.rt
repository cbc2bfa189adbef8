//! Decodes records that are Snappy blocks.

ghost use Rattle.std.specs.Prelude.{◌≡◌, true, false, Some, None, IfOk, if◌then◌else◌};
ghost use Rattle.rw_wal_format.specs.Segments.{text_of};

use rw_snappy::decode;
use rw_snappy::laws::limit_only_refuses;
use rw_wal_format::MOST_DECODED;
use std::alloc::{AllocError, Global};
use std::marker::Model;

/// Decodes Snappy blocks, and holds what it has decoded last. Contracts see whether it is ready to,
/// and the bytes.
#[derive(Drop)]
pub(crate) struct Decoder {
    ready: bool,
    /// If it is ready, there is room for what any block decodes to.
    text: Vec<u8>,
}

impl Model for Decoder {
    ghost use Rattle.std.specs.Prelude.{◌≡◌, ◌≤◌, true, vec_capacity};
    ghost use Rattle.rw_wal_format.specs.Segments.{most_decoded};
    ghost use Rattle.rw_wal_tail.specs.inner.Decoding.{Decoding};

    ghost Value = { Decoding };

    ghost view = { λ d. record { ready = d.ready; text = d.text.items } };

    ghost invariant = { λ d. d.ready ≡ true → most_decoded ≤ vec_capacity d.text };
}

impl Decoder {
    /// Returns one that decodes nothing. It takes no memory.
    pub(crate) fn none(alloc: Global) -> Decoder
        ensures { result.ready ≡ false }
    {
        Decoder {
            ready: false,
            text: Vec::new(alloc),
        }
    }

    /// Returns one that decodes blocks, and takes the memory for it: `MOST_DECODED` bytes, of which
    /// only those that are written cost more than addresses.
    pub(crate) fn for_blocks(alloc: Global) -> Result<Decoder, AllocError>
        ensures { IfOk result (λ d. d.ready ≡ true) }
    {
        let mut text = Vec::new(alloc);
        text.reserve_exact(MOST_DECODED)?;
        Ok(Decoder { ready: true, text })
    }

    /// Returns whether it is ready to decode blocks.
    pub(crate) fn is_ready(&self) -> bool
        ensures { result ≡ self.now.ready }
    {
        self.ready
    }

    /// Decodes a block. Returns `false` if it has a fault or more than `MOST_DECODED` decoded
    /// bytes. It takes no memory.
    pub(crate) fn decode(&mut self, block: &[u8]) -> bool
        requires { self.old.ready ≡ true }
        ensures ready { self.new.ready ≡ true }
        ensures text { text_of (true, block.now)
            ≡ (if result then Some self.new.text else None) }
    {
        limit_only_refuses();
        match decode(block, MOST_DECODED, &mut self.text) {
            Ok(Ok(())) => true,
            Ok(Err(_)) => false,
            Err(AllocError) => false,
        }
    }

    /// Returns the bytes that were decoded last.
    pub(crate) fn text(&self) -> &[u8]
        ensures { result.now ≡ self.now.text }
    {
        self.text.as_slice()
    }

    /// Returns a second one that is ready if this one is.
    pub(crate) fn copy(&self, alloc: Global) -> Result<Decoder, AllocError>
        ensures { IfOk result (λ d. d.ready ≡ self.now.ready) }
    {
        if self.ready {
            Decoder::for_blocks(alloc)
        } else {
            Ok(Decoder::none(alloc))
        }
    }
}
