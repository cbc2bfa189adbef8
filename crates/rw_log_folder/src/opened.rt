//! A source that is opened when it is first read.

ghost use Rattle.std.specs.Prelude.{◌≡◌, ℕ, List, Option, None, is_some, not, true, IfOk};
ghost use Rattle.rw_log_folder.specs.Opening.{left_of};

use rw_types::{Failed, Source};

/// What can be opened to be read.
pub trait OpenSource {
    type S: Source + Drop;

    /// The bytes that a source that it opens has left, if they are known.
    ghost text: { Self → Option (List ℕ) };

    /// Opens it at its first byte.
    fn open(&self) -> Result<Self::S, Failed>
        ensures { IfOk result (λ s. Self.S.remaining s ≡ text self.now) };
}

/// Opens a source when it is first read, and reads it. Contracts see the bytes that are left of
/// what was opened, and before that those that it will open.
#[derive(Drop)]
pub struct Opened<O: OpenSource> {
    place: O,
    source: Option<O::S>,
    failed: bool,
}

impl<O: OpenSource> Opened<O> {
    /// Returns a source that is not yet opened.
    pub(crate) fn new(place: O) -> Opened<O> {
        Opened {
            place,
            source: None,
            failed: false,
        }
    }

    /// Opens it, and returns whether it could be opened. If not, each read fails.
    pub(crate) fn open_now(&mut self) -> bool
        ensures left { self.old.source ≡ None
            → left_of (O.text self.new.place) O.S.remaining self.new.source
            ≡ O.text self.old.place }
        ensures some { result ≡ true → is_some self.new.source ≡ true }
        ensures failed { result ≡ not self.new.failed }
    {
        match self.place.open() {
            Ok(source) => self.source = Some(source),
            Err(_) => self.failed = true,
        }
        !self.failed
    }

    /// Returns the place that it opens.
    pub fn place(&self) -> &O
        ensures { result.now ≡ self.now.place }
    {
        &self.place
    }
}

impl<O: OpenSource> Source for Opened<O> {
    ghost use Rattle.std.specs.Prelude.{false};
    ghost use Rattle.rw_log_folder.specs.Opening.{left_of};

    ghost remaining = { λ o. left_of (O.text o.place) O.S.remaining o.source };

    ghost has_failed = { λ o. o.failed };

    ghost is_sure = { λ _. false };

    fn read(&mut self, buf: &mut [u8]) -> Result<usize, Failed> {
        if self.failed {
            return Err(Failed);
        }
        if self.source.is_none() && !self.open_now() {
            return Err(Failed);
        }
        let outcome = match &mut self.source {
            Some(source) => source.read(buf),
            None => unreachable!(),
        };
        self.failed = outcome.is_err();
        outcome
    }
}
