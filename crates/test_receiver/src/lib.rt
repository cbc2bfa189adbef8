//! Tests of the receiver: its head, the head that threads ask, and the endpoint, byte for byte and
//! with connections that break.
#![tactic(auto)]

#[cfg(test)]
mod blocks;
#[cfg(test)]
mod bodies;
#[cfg(test)]
mod broken;
#[cfg(test)]
mod callers;
#[cfg(test)]
mod capacity;
#[cfg(test)]
mod connections;
#[cfg(test)]
mod forgetting;
#[cfg(test)]
mod head_replies;
#[cfg(test)]
mod limits;
#[cfg(test)]
mod memory;
#[cfg(test)]
mod messages;
#[cfg(test)]
mod names;
#[cfg(test)]
mod order;
#[cfg(test)]
mod partial;
#[cfg(test)]
mod places;
#[cfg(test)]
mod replies;
#[cfg(test)]
mod rows;
#[cfg(test)]
mod seats;
#[cfg(test)]
mod snappy;
#[cfg(test)]
mod sorted;
#[cfg(test)]
mod staged;
#[cfg(test)]
mod store;
#[cfg(test)]
mod waiting;
