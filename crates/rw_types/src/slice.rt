//! A slice of bytes as a reader.

use crate::device::{Failed, Source};

/// A slice as a reader of its bytes, which never fails. Each read moves its front past the bytes
/// that were read.
impl Source for &[u8] {
    ghost use Rattle.std.specs.Prelude.{Some, true, false};

    ghost remaining = { λ s. Some s.now };

    ghost has_failed = { λ _. false };

    ghost is_sure = { λ _. true };

    fn read(&mut self, buf: &mut [u8]) -> Result<usize, Failed> {
        let n = buf.len().min(self.len());
        let (front, rest) = self.split_at(n);
        buf[..n].copy_from_slice(front);
        *self = rest;
        Ok(n)
    }
}
