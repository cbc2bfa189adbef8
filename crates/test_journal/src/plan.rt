//! Requests to a head, what becomes of them, and what is held after each of them.

use crate::plain::{Sample, body_of, holds_part, names_of};
use rw_head::{Admission, Capacity, Head, Limits};
use std::alloc::{AllocError, Global};

/// A request, what a head makes of it, and how many samples of the plan's list are held after it.
#[derive(Drop)]
pub(crate) struct Request {
    pub(crate) body: Vec<u8>,
    pub(crate) admission: Admission,
    pub(crate) after: usize,
}

/// How many samples a request brings that are new, and what a head makes of it.
pub(crate) type Row = (usize, Admission);

/// Requests to heads with these limits, and the samples that are held after all of them.
#[derive(Drop)]
pub(crate) struct Plan {
    pub(crate) limits: Limits,
    /// How many pages a segment has at most.
    pub(crate) pages: usize,
    pub(crate) capacity: Capacity,
    /// Whether a request is asked once more if memory may have run out.
    pub(crate) asks_again: bool,
    /// The names of the series.
    names: Vec<String>,
    pub(crate) all: Vec<Sample>,
    pub(crate) requests: Vec<Request>,
}

/// The sample at a place in the list of a plan that is made of rows for this many series.
fn sample_at(place: usize, series: usize) -> Sample {
    Sample {
        series: place % series.max(1),
        time: i64::try_from(place).unwrap_or(i64::MAX),
        value: place as u64,
    }
}

impl Plan {
    /// Returns a plan without requests, and without limits on the size of a head, for this many
    /// series, whose names have about `width` bytes.
    pub(crate) fn new(alloc: Global, series: usize, width: usize) -> Result<Plan, AllocError> {
        Ok(Plan {
            limits: Limits::standard(alloc)?,
            pages: 4096,
            capacity: Capacity::unlimited(),
            asks_again: false,
            names: names_of(alloc, series, width)?,
            all: Vec::new(alloc),
            requests: Vec::new(alloc),
        })
    }

    /// Adds a request with these samples, of which those that are new are in the list already.
    pub(crate) fn push(
        &mut self,
        alloc: Global,
        samples: &[Sample],
        admission: Admission,
    ) -> Result<(), AllocError> {
        let body = body_of(alloc, &self.names, samples)?;
        self.requests.push(Request {
            body,
            admission,
            after: self.all.len(),
        })?;
        Ok(())
    }

    /// Adds a request for each row, which repeats the last sample and brings new ones, of the
    /// series in turn and a millisecond apart.
    pub(crate) fn push_rows(&mut self, alloc: Global, rows: &[Row]) -> Result<(), AllocError> {
        for (count, admission) in rows {
            let before = self.all.len();
            let mut samples = Vec::new(alloc);
            if let Some(last) = self.all.last() {
                samples.push(*last)?;
            }
            for _ in 0..*count {
                let sample = sample_at(self.all.len(), self.names.len());
                samples.push(sample)?;
                self.all.push(sample)?;
            }
            if *admission != Admission::Answered(204) {
                self.all.truncate(before);
            }
            self.push(alloc, &samples, *admission)?;
        }
        Ok(())
    }

    /// Returns how many samples are held after this many requests.
    fn held_after(&self, count: usize) -> usize {
        match self.requests.get(count.wrapping_sub(1)) {
            Some(last) => last.after,
            None if count == 0 => 0,
            None => self.all.len(),
        }
    }

    /// Whether a head holds what is held after `least` requests, and of those up to `most` a part.
    /// Looks once more if it does not, since looking takes memory.
    pub(crate) fn is_held(&self, alloc: Global, head: &Head, least: usize, most: usize) -> bool {
        let (least, most) = (self.held_after(least), self.held_after(most));
        holds_part(alloc, head, &self.names, &self.all, least, most)
            || holds_part(alloc, head, &self.names, &self.all, least, most)
    }
}
