//! Tests of event scripts played. `test_hostile` moves the machine's program by several events in
//! one call.
#![tactic(auto)]

#[cfg(test)]
mod devices;
#[cfg(test)]
mod documented;
#[cfg(test)]
mod kills;
#[cfg(test)]
mod lines;
#[cfg(test)]
mod played;
#[cfg(test)]
mod rows;
#[cfg(test)]
mod schedules;
