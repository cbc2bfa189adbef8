//! A watch that also keeps the position of a sender.

ghost use Rattle.std.specs.Prelude.{◌≡◌, ◌⊎◌, Some, List, ℕ, Option, IfOk, string_bytes};
ghost use Rattle.rw_resume.specs.Files.{MayLeave, MightHaveLeft};
ghost use Rattle.rw_resume.specs.Positions.{text_at};

use crate::position::Position;
use crate::position_files::{PositionFault, PositionFiles, write_position};
use rw_follow::{StopRequest, Watch};
use std::alloc::{AllocError, Global};
use std::time::{Clock, Duration, Instant};

/// A watch, and the file in which the position is kept.
#[derive(Drop)]
pub struct Keeping<K, W, F> {
    alloc: Global,
    clock: K,
    watch: W,
    files: F,
    /// The path of the folder with the log.
    log: String,
    /// The time between two positions within a segment.
    every: Duration,
    /// When the position was last tried to keep.
    tried_at: Option<Instant>,
    /// The segment that the file names, and how many bytes of it, if they are known.
    kept: Option<(u64, u64)>,
    /// Why the position was last not kept, if it was not.
    fault: Option<PositionFault>,
}

/// Returns the text of the position after this many bytes of a segment.
fn text_at(alloc: Global, log: &str, segment: u64, bytes: u64) -> Result<Vec<u8>, AllocError>
    ensures { IfOk result (λ text. text.items ≡ text_at log.now segment bytes) }
{
    let position = Position {
        log: String::from_str(alloc, log)?,
        segment,
        bytes,
    };
    position.text(alloc)
}

impl<K: Clock, W: Watch, F: PositionFiles> Keeping<K, W, F> {
    ghost use Rattle.std.specs.Prelude.{◌≡◌};

    /// Returns a watch that keeps the position of this log in these files, which name `kept`, if
    /// that is known: a segment, and how many bytes of it. Within a segment it keeps one `every`
    /// so often.
    pub fn new(
        alloc: Global,
        clock: K,
        watch: W,
        files: F,
        log: String,
        kept: Option<(u64, u64)>,
        every: Duration,
    ) -> Keeping<K, W, F> {
        Keeping {
            alloc,
            clock,
            watch,
            files,
            log,
            every,
            tried_at: None,
            kept,
            fault: None,
        }
    }

    /// Returns why the position was last not kept, if it was not.
    pub fn fault(&self) -> Option<PositionFault> {
        self.fault
    }

    /// Returns whether the position after this many bytes of a segment is another one than the file
    /// names.
    pub fn is_new(&self, segment: u64, bytes: u64) -> bool {
        self.kept != Some((segment, bytes))
    }

    /// Returns whether it is time for another position within a segment. If the clock cannot be
    /// read, it is not.
    pub fn is_time(&self) -> bool {
        match self.tried_at {
            Some(moment) => match Instant::now(&self.clock) {
                Ok(now) => now.saturating_duration_since(moment) >= self.every,
                Err(_) => false,
            },
            None => true,
        }
    }

    fn write(&mut self, segment: u64, bytes: u64) -> Result<(), PositionFault>
        ensures either { (c : Option (List ℕ)) → MayLeave (F.state self.new.files) c
            → MayLeave (F.state self.old.files) c
            ⊎ (c ≡ Some (text_at (string_bytes self.old.log) segment bytes)) }
        ensures any_moment { (c : Option (List ℕ)) → MightHaveLeft (F.state self.new.files) c
            → MightHaveLeft (F.state self.old.files) c
            ⊎ (c ≡ Some (text_at (string_bytes self.old.log) segment bytes)) }
        ensures watch { self.new.watch ≡ self.old.watch }
    {
        let Ok(text) = text_at(self.alloc, self.log.as_str(), segment, bytes) else {
            return Err(PositionFault::OutOfMemory);
        };
        write_position(&mut self.files, &text)
    }

    /// Keeps the position after this many bytes of a segment. If that fails, the file is as it was,
    /// or names this position.
    pub fn keep(&mut self, segment: u64, bytes: u64)
        ensures either { (c : Option (List ℕ)) → MayLeave (F.state self.new.files) c
            → MayLeave (F.state self.old.files) c
            ⊎ (c ≡ Some (text_at (string_bytes self.old.log) segment bytes)) }
        ensures any_moment { (c : Option (List ℕ)) → MightHaveLeft (F.state self.new.files) c
            → MightHaveLeft (F.state self.old.files) c
            ⊎ (c ≡ Some (text_at (string_bytes self.old.log) segment bytes)) }
        ensures watch { self.new.watch ≡ self.old.watch }
    {
        self.tried_at = Instant::now(&self.clock).ok();
        match self.write(segment, bytes) {
            Ok(()) => {
                self.kept = Some((segment, bytes));
                self.fault = None;
            }
            Err(fault) => self.fault = Some(fault),
        }
    }
}

impl<K: Clock, W: Watch, F: PositionFiles> Watch for Keeping<K, W, F> {
    ghost use Rattle.std.specs.Prelude.{false};

    ghost said = { λ k. W.said k.watch };

    ghost due = { λ k. W.due k.watch };

    ghost is_quiet = { λ _. false };

    ghost counts = { λ _. ⊥ };

    ghost sleeps = { λ _. 0 };

    fn stop_request(&mut self) -> StopRequest {
        self.watch.stop_request()
    }

    fn sleep(&mut self) {
        self.watch.sleep();
    }

    fn is_flush_due(&mut self) -> bool {
        self.watch.is_flush_due()
    }

    fn is_reshard_due(&mut self) -> bool {
        self.watch.is_reshard_due()
    }
}
