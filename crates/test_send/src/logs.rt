//! Segments of a log.

use rw_log_commands::run_log;
use rw_types::{Failed, Room, Source};
use std::alloc::{AllocError, Global};

/// One sample, the value 1 at 1000 of `{__name__="up"}`.
pub(crate) const UP: &[u8] = b"series 1 {__name__=\"up\"}\nsample 1 1000 1\n";

/// Of the samples of one series the second and the third are not later than the first.
pub(crate) const FALLS: &[u8] =
    b"series 1 {__name__=\"up\"}\nsample 1 10 1\nsample 1 10 1\nsample 1 5 2\nsample 1 20 3\n";

/// Two references stand for one series, and the second is late.
pub(crate) const BEHIND: &[u8] =
    b"series 1 {__name__=\"up\"}\nseries 2 {__name__=\"up\"}\nsample 1 20 1\nsample 2 10 2\n";

/// Two series with names that are not legacy names.
pub(crate) const NAMES: &[u8] =
    b"series 1 {__name__=\"http.rate\",\"s\xc3\xa4ge\"=\"1\"}\nseries 2 {\"9x\"=\"1\"}\nsample 1 10 1\nsample 2 10 2\n";

/// Returns `count` samples of one series, from 0 ms on.
pub(crate) fn samples(alloc: Global, count: u32) -> Result<Vec<u8>, AllocError> {
    let mut text = Vec::from_slice(alloc, b"series 1 {__name__=\"up\",job=\"api\"}\n")?;
    for t in 0..count {
        let line = format!(in alloc; "sample 1 {t} 1\n")?;
        text.extend_from_slice(line.as_bytes())?;
    }
    Ok(text)
}

/// Returns the segment of log text, of at most 4 pages.
pub(crate) fn segment(alloc: Global, text: &[u8]) -> Result<Vec<u8>, AllocError> {
    let mut reader = text;
    let mut writer = Room::new(alloc, 131_072)?;
    match run_log(alloc, &mut reader, &mut writer, false, 4) {
        Ok(()) => Ok(writer.into_bytes()),
        Err(_) => Err(AllocError),
    }
}

/// A reader that gives a text, and then fails if it is to fail.
#[derive(Drop)]
pub(crate) struct Torn {
    pub(crate) text: Vec<u8>,
    /// How much was given.
    pub(crate) at: usize,
    pub(crate) fails: bool,
    pub(crate) failed: bool,
}

impl Source for Torn {
    ghost use Rattle.std.specs.Prelude.{None, false};

    ghost remaining = { λ _. None };

    ghost has_failed = { λ t. t.failed };

    ghost is_sure = { λ _. false };

    fn read(&mut self, buf: &mut [u8]) -> Result<usize, Failed> {
        let at = self.at.min(self.text.len());
        if self.failed || (self.fails && at == self.text.len()) {
            self.failed = true;
            return Err(Failed);
        }
        let count = (self.text.len() - at).min(buf.len());
        buf[..count].copy_from_slice(&self.text[at..at + count]);
        self.at = at + count;
        Ok(count)
    }
}
