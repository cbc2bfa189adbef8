//! Tests of the sender's parts: batches and their messages, shards, replies, retries and sets of
//! shards, queues between threads, and a worker over them.
#![tactic(auto)]

#[cfg(test)]
mod batches;
#[cfg(test)]
mod channels;
#[cfg(test)]
mod feeding;
#[cfg(test)]
mod grouping;
#[cfg(test)]
mod ledgers;
mod memory;
#[cfg(test)]
mod queues;
#[cfg(test)]
mod replies;
#[cfg(test)]
mod reshards;
#[cfg(test)]
mod retries;
#[cfg(test)]
mod rows;
#[cfg(test)]
mod samples;
#[cfg(test)]
mod shards;
#[cfg(test)]
mod workers;

pub use memory::{Note, Script, Times};
