//! Why a varint was not read.

use std::error::Error;
use std::fmt;

/// Why a varint was not read.
#[derive(Clone, Copy, Debug, PartialEq, Eq)]
pub enum CodeFault {
    /// The bytes end before the last byte of the varint, and before a tenth.
    Short = 1,
    /// The tenth byte is above 1: the number has more than 64 bits, or the varint more than ten
    /// bytes.
    TooBig = 2,
}

impl fmt::Display for CodeFault {
    fn fmt<W: fmt::Write>(&self, f: &mut fmt::Formatter<W>) -> fmt::Result {
        f.write_str(match self {
            CodeFault::Short => "the bytes end inside a varint",
            CodeFault::TooBig => "a varint has more than 64 bits",
        })
    }
}

impl Error for CodeFault {}
