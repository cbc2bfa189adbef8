//! Files of which one call fails, which count how often they are synced.

use std::alloc::{Allocator, Global};
use std::cell::Cell;
use std::fs::{Metadata, OpenFile, OpenOptions};
use std::io;
use std::io::{ErrorKind, Read, Seek, SeekFrom, Write};
use std::rt::Files;
use std::time::{Clock, Duration};

/// Counts calls down, and has the one at zero fail. Counts the syncs that were made.
#[derive(Drop)]
pub(crate) struct Countdown {
    left: Cell<u64>,
    data_syncs: Cell<u64>,
    whole_syncs: Cell<u64>,
}

impl Countdown {
    /// Returns a countdown after which the call of this number fails, from 0 on.
    pub(crate) fn new(call: u64) -> Countdown {
        Countdown {
            left: Cell::new(call),
            data_syncs: Cell::new(0),
            whole_syncs: Cell::new(0),
        }
    }

    /// Returns a countdown after which no call fails.
    pub(crate) fn endless() -> Countdown {
        Countdown::new(u64::MAX)
    }

    /// Has the call of this number fail, from now on.
    pub(crate) fn fail_at(&self, call: u64) {
        self.left.set(call);
    }

    /// Returns how often the bytes of a file were synced, and how often a file or a folder whole.
    pub(crate) fn syncs(&self) -> (u64, u64) {
        (self.data_syncs.get(), self.whole_syncs.get())
    }

    /// Returns whether the call has come.
    pub(crate) fn has_failed(&self) -> bool {
        self.left.get() == u64::MAX
    }

    fn call(&self) -> io::Result<()> {
        let left = self.left.get();
        if left == u64::MAX {
            return Ok(());
        }
        self.left.set(left.wrapping_sub(1));
        if left == 0 {
            return Err(io::Error::from(ErrorKind::StorageFull));
        }
        Ok(())
    }
}

/// The files of a runtime, of which one call fails. Each call on a file counts, and so does each
/// look at a path and each new name.
#[derive(Clone, Copy)]
pub(crate) struct FailingFiles<'a, R> {
    pub(crate) rt: R,
    pub(crate) countdown: &'a Countdown,
}

/// An open file, of which one call fails.
#[derive(Drop)]
pub(crate) struct FailingFile<'a, F> {
    file: F,
    countdown: &'a Countdown,
}

impl<'a, F: Read> Read for FailingFile<'a, F> {
    fn read(&mut self, buf: &mut [u8]) -> io::Result<usize> {
        self.countdown.call()?;
        self.file.read(buf)
    }
}

impl<'a, F: Write> Write for FailingFile<'a, F> {
    // It takes one byte at a time.
    fn write(&mut self, buf: &[u8]) -> io::Result<usize> {
        self.countdown.call()?;
        self.file.write(&buf[..buf.len().min(1)])
    }

    fn flush(&mut self) -> io::Result<()> {
        self.file.flush()
    }
}

impl<'a, F: Seek> Seek for FailingFile<'a, F> {
    fn seek(&mut self, to: SeekFrom) -> io::Result<u64> {
        self.countdown.call()?;
        self.file.seek(to)
    }
}

impl<'a, F: OpenFile> OpenFile for FailingFile<'a, F> {
    fn metadata(&self) -> io::Result<Metadata> {
        self.countdown.call()?;
        self.file.metadata()
    }

    fn set_len(&self, size: u64) -> io::Result<()> {
        self.countdown.call()?;
        self.file.set_len(size)
    }

    fn sync_all(&self) -> io::Result<()> {
        self.countdown.call()?;
        let count = &self.countdown.whole_syncs;
        count.set(count.get().wrapping_add(1));
        self.file.sync_all()
    }

    fn sync_data(&self) -> io::Result<()> {
        self.countdown.call()?;
        let count = &self.countdown.data_syncs;
        count.set(count.get().wrapping_add(1));
        self.file.sync_data()
    }
}

impl<'a, R: Alloc<A = Global>> Alloc for FailingFiles<'a, R> {
    type A = Global;

    fn alloc(&self) -> Global {
        self.rt.alloc()
    }
}

impl<'a, R: Clock> Clock for FailingFiles<'a, R> {
    fn monotonic(&self) -> io::Result<Duration> {
        self.rt.monotonic()
    }

    fn since_1970(&self) -> io::Result<Duration> {
        self.rt.since_1970()
    }
}

impl<'a, R: Files> Files for FailingFiles<'a, R> {
    type File = FailingFile<'a, R::File>;

    type Dir = R::Dir;

    fn open_file(&self, how: &OpenOptions, path: &str) -> io::Result<FailingFile<'a, R::File>> {
        self.countdown.call()?;
        let file = self.rt.open_file(how, path)?;
        Ok(FailingFile {
            file,
            countdown: self.countdown,
        })
    }

    fn open_dir(&self, path: &str) -> io::Result<R::Dir> {
        self.countdown.call()?;
        self.rt.open_dir(path)
    }

    fn metadata(&self, path: &str) -> io::Result<Metadata> {
        self.countdown.call()?;
        self.rt.metadata(path)
    }

    fn symlink_metadata(&self, path: &str) -> io::Result<Metadata> {
        self.rt.symlink_metadata(path)
    }

    fn copy(&self, from: &str, to: &str) -> io::Result<u64> {
        self.rt.copy(from, to)
    }

    fn rename(&self, from: &str, to: &str) -> io::Result<()> {
        self.countdown.call()?;
        self.rt.rename(from, to)
    }

    fn remove_file(&self, path: &str) -> io::Result<()> {
        self.rt.remove_file(path)
    }

    fn create_dir(&self, path: &str) -> io::Result<()> {
        self.rt.create_dir(path)
    }

    fn remove_dir(&self, path: &str) -> io::Result<()> {
        self.rt.remove_dir(path)
    }

    fn remove_dir_all<B: Allocator>(&self, alloc: B, path: &str) -> io::Result<()> {
        self.rt.remove_dir_all(alloc, path)
    }
}
