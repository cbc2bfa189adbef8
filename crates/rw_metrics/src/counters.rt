//! The counters of either side.

use crate::lines::{drops_line, receive_line, send_line, skipped_line};
use crate::receive_counters::ReceiveCounters;
use crate::receiver_html::receive_html;
use crate::receiver_page::receive_page;
use crate::send_counters::SendCounters;
use crate::sender_html::send_html;
use crate::sender_page::send_page;
use std::alloc::{AllocError, Global};
use std::sync::Arc;

/// The counters of a sender or of a receiver.
#[derive(Drop)]
pub enum Counters {
    Send(Arc<SendCounters, Global>),
    Receive(Arc<ReceiveCounters, Global>),
}

impl Counters {
    /// Returns another share of these counters.
    pub fn share(&self) -> Result<Counters, AllocError> {
        Ok(match self {
            Counters::Send(counters) => Counters::Send(Arc::try_clone(counters)?),
            Counters::Receive(counters) => Counters::Receive(Arc::try_clone(counters)?),
        })
    }

    /// Returns whether a receiver takes requests, or would: it does not while the log of its folder
    /// is read.
    pub(crate) fn is_ready(&self) -> bool {
        match self {
            Counters::Send(_) => true,
            Counters::Receive(counters) => counters.is_ready(),
        }
    }

    /// Returns their page.
    pub(crate) fn page(&self, alloc: Global) -> Result<Vec<u8>, AllocError> {
        match self {
            Counters::Send(counters) => send_page(alloc, &counters.numbers(alloc)?),
            Counters::Receive(counters) => receive_page(alloc, &counters.numbers(alloc)?),
        }
    }

    /// Returns their page for people.
    pub(crate) fn html(&self, alloc: Global) -> Result<Vec<u8>, AllocError> {
        match self {
            Counters::Send(counters) => send_html(alloc, &counters.numbers(alloc)?),
            Counters::Receive(counters) => receive_html(alloc, &counters.numbers(alloc)?),
        }
    }

    /// Returns their line of progress.
    pub(crate) fn line(&self, alloc: Global) -> Result<Vec<u8>, AllocError> {
        match self {
            Counters::Send(counters) => send_line(alloc, &counters.numbers(alloc)?),
            Counters::Receive(counters) => receive_line(alloc, &counters.numbers(alloc)?),
        }
    }

    /// Returns the line of a sender's dropped samples.
    pub(crate) fn drops(&self, alloc: Global) -> Result<Option<Vec<u8>>, AllocError> {
        match self {
            Counters::Send(counters) => {
                let numbers = counters.numbers(alloc)?;
                Ok(Some(drops_line(alloc, &numbers.drops)?))
            }
            Counters::Receive(_) => Ok(None),
        }
    }

    /// Returns the line of the records that a sender has skipped, if there are any.
    pub(crate) fn skips(&self, alloc: Global) -> Result<Option<Vec<u8>>, AllocError> {
        match self {
            Counters::Send(counters) => {
                let skipped = counters.skipped();
                if skipped.all() == 0 {
                    return Ok(None);
                }
                Ok(Some(skipped_line(alloc, &skipped)?))
            }
            Counters::Receive(_) => Ok(None),
        }
    }
}
