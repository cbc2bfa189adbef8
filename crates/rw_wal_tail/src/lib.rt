//! Reads a Prometheus write-ahead log (wal.md) while it grows: bytes go in, in any pieces, and
//! entries come out. A fault is reported at the place where the format has it.
//!
//! No contract says how much memory a reader holds. By its code it does not keep the entries that
//! it returned. Between calls it holds what it was fed and has not read yet, in one buffer for each
//! segment, and the record that came last, as bytes or as entries. The part of a buffer that was
//! read is freed when more of that segment comes, once it is no smaller than the rest. It has room
//! for as many bytes again as are not read yet, for the data of a record in fragments.
#![tactic(auto)]

mod decoder;
mod form;
mod input;
mod item;
pub mod layout_laws;
mod piece;
mod place;
mod read;
mod reader;
mod record;
mod skips;
mod tail;
mod taker;

pub use piece::Piece;
pub use place::{Damage, FaultPlace};
pub use rw_wal_format::{SkippedType, TailFault};
pub use tail::{Tail, is_out_of_memory};
pub use taker::{Taker, take_all};
