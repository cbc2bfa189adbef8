//! Tests of a shipper whose workers send over memory.
#![tactic(auto)]

#[cfg(test)]
mod heads;
#[cfg(test)]
mod logs;
#[cfg(test)]
mod peers;
#[cfg(test)]
#[cfg(test)]
mod shippers;
#[cfg(test)]
mod work;
