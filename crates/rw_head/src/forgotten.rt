//! The samples of a series that are gone from memory.

ghost use Rattle.std.specs.Prelude.{◌≡◌, ◌++◌, []};
ghost use Rattle.rw_head.specs.Order.{is_later};

use crate::block::Block;
use rw_history::History;
use rw_types::Word;
use std::fmt::{self, Debug, Formatter};
use std::marker::Model;

/// The samples of a series that are gone from memory, all but the timestamp of the last one.
/// Contracts see their list.
#[derive(Drop)]
pub(crate) struct Forgotten {
    samples: History<(i64, Word)>,
    last: Option<i64>,
}

impl Model for Forgotten {
    ghost use Rattle.std.specs.Prelude.{◌≡◌, List};
    ghost use Rattle.rw_head.specs.Forgetting.{last_time};
    ghost use Rattle.rw_head.specs.Order.{Point};

    ghost Value = { List Point };

    ghost view = { λ g. g.samples };

    ghost invariant = { λ g. g.last ≡ last_time g.samples };
}

impl Debug for Forgotten {
    fn fmt<W: fmt::Write>(&self, f: &mut Formatter<W>) -> fmt::Result {
        f.debug_struct("Forgotten")
            .field("last", &self.last)
            .finish_non_exhaustive()
    }
}

impl Forgotten {
    /// Returns an empty list. This takes no memory.
    pub(crate) fn none() -> Forgotten
        ensures { result ≡ [] }
    {
        Forgotten {
            samples: History::new(),
            last: None,
        }
    }

    /// Returns whether a timestamp is later than the last of the samples, or there is none.
    pub(crate) fn is_later(&self, t: i64) -> bool
        ensures { result ≡ is_later t self.now }
    {
        match self.last {
            Some(last) => last < t,
            None => true,
        }
    }

    /// Appends the samples of a block. This takes no memory.
    pub(crate) fn push(&mut self, block: &Block)
        ensures { self.new ≡ self.old ++ block.now }
    {
        self.samples.extend(block.samples());
        self.last = Some(block.last());
    }
}
