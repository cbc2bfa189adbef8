//! Tests of hostile input: bytes that are changed and cut, compared with plain readings of the
//! formats, devices of which one call fails, and failing allocations.
#![tactic(auto)]

#[cfg(test)]
mod bodies;
#[cfg(test)]
mod broken;
#[cfg(test)]
mod changed;
#[cfg(test)]
mod line;
#[cfg(test)]
mod plain_body;
#[cfg(test)]
mod plain_reply;
#[cfg(test)]
mod plain_segment;
#[cfg(test)]
mod refused;
#[cfg(test)]
mod replies;
#[cfg(test)]
mod requests;
#[cfg(test)]
mod rows;
#[cfg(test)]
mod segments;
