//! How the file with a position is replaced, so that a crash leaves the older or the newer one.

ghost use Rattle.std.specs.Prelude.{◌≡◌, ◌⊎◌, Some, List, ℕ, Option, OnOk, OnErr};
ghost use Rattle.rw_resume.specs.Files.{FileState, MayLeave, MightHaveLeft, written, spoiled, synced, renamed, folder_synced};

use std::error::Error;
use std::fmt;

/// Why the file with a position was not replaced.
#[derive(Clone, Copy, Debug, PartialEq, Eq)]
pub enum PositionFault {
    OutOfMemory,
    /// A call of the operating system has failed.
    Failed,
}

impl fmt::Display for PositionFault {
    fn fmt<W: fmt::Write>(&self, f: &mut fmt::Formatter<W>) -> fmt::Result {
        f.write_str(match self {
            PositionFault::OutOfMemory => "out of memory",
            PositionFault::Failed => "a call of the operating system has failed",
        })
    }
}

impl Error for PositionFault {}

/// The file with a position, and a copy beside it that is to replace it. Each call is a step whose
/// order matters for what a crash leaves.
pub trait PositionFiles {
    /// What a crash may leave, by what was asked so far.
    ghost state: { Self → FileState };

    /// Writes the copy anew with these bytes.
    fn write_copy(&mut self, text: &[u8]) -> Result<(), PositionFault>
        ensures ok { OnOk result (state self.new ≡ written text.now (state self.old)) }
        ensures err { OnErr result (state self.new ≡ spoiled (state self.old)) };

    /// Syncs the bytes of the copy.
    fn sync_copy(&mut self) -> Result<(), PositionFault>
        ensures ok { OnOk result (state self.new ≡ synced (state self.old)) }
        ensures err { OnErr result (state self.new ≡ state self.old) };

    /// Renames the copy over the file. If it fails, it may have been renamed.
    fn rename_copy(&mut self) -> Result<(), PositionFault>
        ensures { state self.new ≡ renamed (state self.old) };

    /// Syncs the folder: from then on it has the copy in place of the file.
    fn sync_folder(&mut self) -> Result<(), PositionFault>
        ensures ok { OnOk result (state self.new ≡ folder_synced (state self.old)) }
        ensures err { OnErr result (state self.new ≡ state self.old) };
}

/// Replaces the file by one with this text. A crash at any moment leaves what one before might have
/// left, or the new text; once it has succeeded, the new text alone.
pub fn write_position<F: PositionFiles>(files: &mut F, text: &[u8]) -> Result<(), PositionFault>
    ensures durable { OnOk result
        ((c : Option (List ℕ)) → MayLeave (F.state files.new) c → c ≡ Some text.now) }
    ensures either { (c : Option (List ℕ)) → MayLeave (F.state files.new) c
        → MayLeave (F.state files.old) c ⊎ (c ≡ Some text.now) }
    ensures any_moment { (c : Option (List ℕ)) → MightHaveLeft (F.state files.new) c
        → MightHaveLeft (F.state files.old) c ⊎ (c ≡ Some text.now) }
{
    files.write_copy(text)?;
    files.sync_copy()?;
    files.rename_copy()?;
    files.sync_folder()
}
