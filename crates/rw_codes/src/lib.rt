//! Varints, ZigZag numbers and CRC-32C.
#![tactic(auto)]

mod code_fault;
mod crc;
mod crc_tables;
pub mod laws;
mod varint;

pub use code_fault::CodeFault;
pub use crc::crc32c;
pub use varint::{get_uvarint, get_varint, push_uvarint, put_uvarint, put_varint, uvarint_len};
