//! A full block of the samples of a series.

ghost use Rattle.std.specs.Prelude.{◌≡◌, Some, IfOk, length};
ghost use Rattle.rw_head.specs.Forgetting.{last_time};
ghost use Rattle.rw_head.specs.inner.Blocks.{first_time};

use rw_types::Word;
use std::alloc::{AllocError, Global};
use std::marker::Model;

/// A full block: 120 samples of one series, one after the other, which never change. Contracts see
/// their list.
#[derive(Debug, Drop)]
pub struct Block {
    samples: [(i64, Word); 120],
}

impl Model for Block {
    ghost use Rattle.std.specs.Prelude.{◌≡◌, List, length};
    ghost use Rattle.rw_head.specs.Order.{Point};

    ghost Value = { List Point };

    ghost view = { λ b. b.samples };

    ghost invariant = { λ b. length b.samples ≡ 120 };
}

impl Block {
    /// Returns a block of these samples, in a box.
    pub(crate) fn boxed(alloc: Global, samples: &[(i64, Word)]) -> Result<Box<Block>, AllocError>
        requires { length samples.now ≡ 120 }
        ensures { IfOk result (λ b. b.value ≡ samples.now) }
    {
        match <[(i64, Word); 120]>::try_from(samples) {
            Ok(samples) => Ok(Box::new(alloc, Block { samples })?),
            Err(_) => unreachable!(),
        }
    }

    /// Returns the samples in order, as (timestamp in milliseconds since the Unix epoch, value).
    /// This takes no memory.
    pub fn samples(&self) -> &[(i64, Word); 120]
        ensures samples { result.now ≡ self.now }
        ensures full { length self.now ≡ 120 }
    {
        &self.samples
    }

    /// Returns the timestamp of the first sample.
    pub(crate) fn first(&self) -> i64
        ensures { result ≡ first_time self.now }
    {
        self.samples[0].0
    }

    /// Returns the timestamp of the last sample.
    pub(crate) fn last(&self) -> i64
        ensures { last_time self.now ≡ Some result }
    {
        self.samples[119].0
    }
}
