//! Tests of the commands `send` and `receive` and of the parts below them: requests over TCP, a log
//! that is followed while it grows, the receiver as a service, its stop signal and its counters; in
//! memory, over a folder and over the loopback interface.
#![tactic(auto)]

#[cfg(test)]
mod asks;
#[cfg(test)]
mod blocks;
#[cfg(test)]
mod clients;
#[cfg(test)]
mod connections;
#[cfg(test)]
mod countdown;
#[cfg(test)]
mod counted;
#[cfg(test)]
mod folder;
#[cfg(test)]
mod growing;
#[cfg(test)]
mod growing_folder;
#[cfg(test)]
mod kept;
#[cfg(test)]
mod logs;
#[cfg(test)]
mod loopback;
#[cfg(test)]
mod memory;
#[cfg(test)]
mod metrics;
#[cfg(test)]
mod receivers;
#[cfg(test)]
mod rows;
#[cfg(test)]
mod service;
#[cfg(test)]
mod shipped;
#[cfg(test)]
mod stops;
#[cfg(test)]
mod timers;
