//! Segments with names, and why one of them was not read.

ghost use Rattle.std.specs.Prelude.{◌≡◌};

use rw_follow::Queue;
use rw_types::{Failed, ReadFault, Source};
use std::alloc::{AllocError, Global};
use std::error::Error;
use std::fmt;

/// A segment that is to be read, with the name that it is reported by.
#[derive(Drop)]
pub struct Named<S> {
    pub name: String,
    pub source: S,
}

impl<S: Source> Source for Named<S> {
    ghost remaining = { λ n. S.remaining n.source };

    ghost has_failed = { λ n. S.has_failed n.source };

    ghost is_sure = { λ n. S.is_sure n.source };

    fn read(&mut self, buf: &mut [u8]) -> Result<usize, Failed> {
        self.source.read(buf)
    }
}

/// Why named segments were not read to their end.
#[derive(Debug, Drop)]
pub struct UnreadLog {
    pub error: ReadFault,
    /// The name of the segment whose device failed.
    pub file: Option<String>,
}

impl fmt::Display for UnreadLog {
    fn fmt<W: fmt::Write>(&self, f: &mut fmt::Formatter<W>) -> fmt::Result {
        let error = self.error;
        match &self.file {
            Some(file) => write!(f, "{file}: {error}"),
            None => error.fmt(f),
        }
    }
}

impl Error for UnreadLog {}

impl From<AllocError> for UnreadLog {
    ghost use Rattle.std.specs.Prelude.{◌≡◌, None};
    ghost use Rattle.rw_types.specs.declared.transfer.ReadFault.TheVariants.{OutOfMemory};

    ghost from_gives = { λ _ u. u ≡ record { error = OutOfMemory; file = None } };

    fn from(_e: AllocError) -> UnreadLog {
        UnreadLog {
            error: ReadFault::OutOfMemory,
            file: None,
        }
    }
}

/// Returns the names of segments, in their order.
pub(crate) fn names_of<S>(alloc: Global, segments: &[Named<S>]) -> Result<Vec<String>, AllocError> {
    let mut names = Vec::new(alloc);
    for segment in segments {
        names.push(segment.name.clone()?)?;
    }
    Ok(names)
}

/// Returns why these segments cannot be read further, with the name of the current one if its
/// device has failed. If there is no memory for the name, it is left out.
pub(crate) fn unread_of<S: Source + Drop>(log: &Queue<Named<S>>, error: ReadFault) -> UnreadLog
    ensures { result.error ≡ error }
{
    let file = match (log.current(), error) {
        (Some(segment), ReadFault::Failed) => segment.name.clone().ok(),
        _ => None,
    };
    UnreadLog { error, file }
}
