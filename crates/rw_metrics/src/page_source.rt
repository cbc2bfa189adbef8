//! What pages are made of.

use crate::counters::Counters;
use crate::process::process;
use crate::process_page::{push_build, push_process};
use std::alloc::{AllocError, AllocGlobal, Global};
use std::fs::Files;

/// What pages are made of: the counters, the version of the program, and the runtime by which the
/// kernel is asked.
#[derive(Drop)]
pub struct PageSource<R> {
    rt: R,
    counters: Counters,
    version: String,
}

impl<R: Files + AllocGlobal + Copy> PageSource<R> {
    /// Returns what the pages of these counters are made of.
    pub fn new(rt: R, counters: Counters, version: String) -> PageSource<R> {
        PageSource {
            rt,
            counters,
            version,
        }
    }

    /// Returns the page for Prometheus.
    pub fn page(&self, alloc: Global) -> Result<Vec<u8>, AllocError> {
        let mut page = self.counters.page(alloc)?;
        push_build(&mut page, &self.version)?;
        push_process(&mut page, &process(&self.rt))?;
        Ok(page)
    }

    /// Returns the page for people.
    pub fn html(&self, alloc: Global) -> Result<Vec<u8>, AllocError> {
        self.counters.html(alloc)
    }

    /// Returns whether the program does what it is for.
    pub fn is_ready(&self) -> bool {
        self.counters.is_ready()
    }
}
