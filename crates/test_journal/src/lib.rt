//! Tests of the log in a journal: what is appended to it, how it is opened after a crash, and a
//! head that is kept in it.
#![tactic(auto)]

#[cfg(test)]
mod appends;
#[cfg(test)]
mod entry_counter;
#[cfg(test)]
mod failed_calls;
#[cfg(test)]
mod failing_journal;
#[cfg(test)]
mod foreign_logs;
#[cfg(test)]
mod forgetting;
#[cfg(test)]
mod life;
#[cfg(test)]
mod long_messages;
#[cfg(test)]
mod memory;
#[cfg(test)]
mod messages;
#[cfg(test)]
mod openings;
#[cfg(test)]
mod plain;
#[cfg(test)]
mod plan;
#[cfg(test)]
mod references;
#[cfg(test)]
mod retiring;
#[cfg(test)]
mod schedules;
#[cfg(test)]
mod segments;
#[cfg(test)]
mod torn_segments;
