//! A journal of which one call fails.

ghost use Rattle.std.specs.Prelude.{◌≡◌, ◌+◌, length};
ghost use Rattle.rw_kept_log.specs.Journal.{HasCause};

use rw_history::History;
use rw_kept_log::{Journal, JournalError};

/// A journal of which one call fails: the one of this number, counted from 1. A failing call has
/// appended or cut nevertheless; whether it has synced or begun a segment is chosen.
#[derive(Drop)]
pub(crate) struct FailingJournal<J: Journal> {
    inner: J,
    calls: u64,
    failing: u64,
    is_made: bool,
    failures: History<()>,
}

impl<J: Journal> FailingJournal<J> {
    /// Returns a journal of which the call of this number fails.
    pub(crate) fn new(inner: J, failing: u64, is_made: bool) -> FailingJournal<J>
        ensures { result.inner ≡ inner }
    {
        FailingJournal {
            inner,
            calls: 0,
            failing,
            is_made,
            failures: History::new(),
        }
    }

    /// Returns whether that call has come.
    pub(crate) fn has_failed(&self) -> bool {
        self.failing <= self.calls
    }

    /// Returns the journal that was called.
    pub(crate) fn into_inner(self) -> J {
        let FailingJournal {
            inner,
            calls: _,
            failing: _,
            is_made: _,
            failures: _,
        } = self;
        inner
    }

    /// Counts a call, and returns an error if it is the one that fails.
    fn count_call(&mut self) -> Result<(), JournalError>
        ensures inner { self.new.inner ≡ self.old.inner }
        ensures cause { HasCause (length self.old.failures) (length self.new.failures) result }
    {
        self.calls = self.calls.saturating_add(1);
        if self.calls == self.failing {
            self.failures.push(&());
            return Err(JournalError::Failed);
        }
        Ok(())
    }
}

impl<J: Journal> Journal for FailingJournal<J> {
    ghost seen = { λ f. J.seen f.inner };

    ghost may_leave = { λ f. J.may_leave f.inner };

    ghost moment = { λ f. J.moment f.inner };

    ghost left_since = { λ f. J.left_since f.inner };

    ghost tears = { J.tears };

    ghost faults = { λ f. J.faults f.inner + length f.failures };

    ghost counts_now = { λ f t c le now. J.counts_now f.inner t c le now };

    ghost only_now = { λ f c left. J.only_now f.inner c left };

    ghost leaves_seen = { λ f. J.leaves_seen f.inner };

    fn count(&self) -> usize {
        self.inner.count()
    }

    fn append(&mut self, bytes: &[u8]) -> Result<(), JournalError> {
        self.inner.append(bytes)?;
        self.count_call()
    }

    fn cut(&mut self, len: usize) -> Result<(), JournalError> {
        self.inner.cut(len)?;
        self.count_call()
    }

    fn sync(&mut self) -> Result<(), JournalError> {
        if self.is_made {
            self.inner.sync()?;
            return self.count_call();
        }
        self.count_call()?;
        self.inner.sync()
    }

    fn begin(&mut self) -> Result<(), JournalError> {
        if self.is_made {
            self.inner.begin()?;
            return self.count_call();
        }
        self.count_call()?;
        self.inner.begin()
    }
}
