//! Tests of a receiver that keeps its log in a folder, as `receive --dir` puts it together: a
//! service over TCP, its lock, the kept head, the journal and the files. A sender ships a log to it
//! over the loopback interface; it ends, and the folder is opened again.
//!
//! A seat of the service that answers 204 by itself, from its second request on, is refused here:
//! the folder then lacks samples that were acknowledged. No clause says that a connection asks its
//! seat.
#![tactic(auto)]

#[cfg(test)]
mod failing;
#[cfg(test)]
mod life;
#[cfg(test)]
mod lives;
#[cfg(test)]
mod receiver;
#[cfg(test)]
mod sender;
