//! Why the reading of a log ends early.

use rw_follow::SegmentError;
use rw_sender::FeedFault;
use rw_types::ReadFault;
use rw_wal_tail::TailFault;
use std::alloc::AllocError;

/// Why the reading of a log ends before the end of its last segment.
#[derive(Clone, Copy, Debug, PartialEq, Eq)]
pub enum FeedError {
    /// The log has this fault.
    Damaged(TailFault),
    /// Memory ran out, or a worker has gone.
    Failed,
    /// A segment cannot be read.
    Unreadable,
    /// The segment of this number is missing.
    Missing(u64),
    /// It was asked to end at once.
    Aborted,
}

impl From<FeedFault> for FeedError {
    ghost use Rattle.std.specs.Prelude.{◌≡◌};
    ghost use Rattle.rw_send.specs.FeedErrors.{feed_error_of};

    ghost from_gives = { λ f h. h ≡ feed_error_of f };

    fn from(fault: FeedFault) -> FeedError {
        match fault {
            FeedFault::Damaged(fault) => FeedError::Damaged(fault),
            FeedFault::OutOfMemory | FeedFault::Gone => FeedError::Failed,
        }
    }
}

impl From<SegmentError> for FeedError {
    ghost use Rattle.std.specs.Prelude.{◌≡◌};
    ghost use Rattle.rw_send.specs.FeedErrors.{segment_error_of};

    ghost from_gives = { λ e h. h ≡ segment_error_of e };

    fn from(error: SegmentError) -> FeedError {
        match error {
            SegmentError::Unreadable(ReadFault::OutOfMemory) => FeedError::Failed,
            SegmentError::Unreadable(ReadFault::Failed) => FeedError::Unreadable,
            SegmentError::Missing(number) => FeedError::Missing(number),
        }
    }
}

impl From<AllocError> for FeedError {
    ghost use Rattle.std.specs.Prelude.{◌≡◌};
    ghost use Rattle.rw_send.specs.declared.feed_error.FeedError.TheVariants.{Failed};

    ghost from_gives = { λ _ h. h ≡ Failed };

    fn from(_e: AllocError) -> FeedError {
        FeedError::Failed
    }
}
