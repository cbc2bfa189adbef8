//! Tests of the lowest layer: histories, words, labels, devices, the codes of a log, its reader and
//! its writer, messages, and blocks of Snappy.
#![tactic(auto)]

#[cfg(test)]
mod blocks;
#[cfg(test)]
mod callers;
#[cfg(test)]
mod codes;
#[cfg(test)]
mod devices;
#[cfg(test)]
mod fragments;
#[cfg(test)]
mod histories;
#[cfg(test)]
mod labels;
#[cfg(test)]
mod message_decoding;
#[cfg(test)]
mod message_encoding;
#[cfg(test)]
mod message_memory;
#[cfg(test)]
mod message_rows;
#[cfg(test)]
mod rows;
#[cfg(test)]
mod snappy_blocks;
#[cfg(test)]
mod tail;
#[cfg(test)]
mod words;
#[cfg(test)]
mod writer;
