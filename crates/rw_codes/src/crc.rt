//! CRC-32C (RFC 3720, appendix B.4) by tables, eight bytes at a time (slicing-by-8).

ghost use Rattle.std.specs.Prelude.{◌≡◌, ◌+◌, ◌*◌, ◌<◌, fold};
ghost use Rattle.rw_codes.specs.Crc.{crc_bits, crc_byte, crc32c_of};

use crate::crc_tables::TABLES;

/// Returns the code of a byte and the zero bytes after it, from a code of 0.
#[inline]
fn code_before_zeros(byte: u8, zeros: usize) -> u32
    requires { zeros < 8 }
    ensures { result ≡ crc_bits (8 * (zeros + 1)) byte }
{
    TABLES[zeros][byte as usize]
}

/// Returns the code after one more byte.
#[inline]
fn after_byte(code: u32, byte: u8) -> u32
    ensures { result ≡ crc_byte code byte }
{
    let [low, ..] = code.to_le_bytes();
    code_before_zeros(low ^ byte, 0) ^ (code >> 8)
}

/// Returns the code after eight more bytes. The division is linear over `^`, so it is the sum of
/// what each byte would give with zero bytes after it, where the code is added to the first four.
#[inline]
fn after_eight(code: u32, bytes: &[u8; 8]) -> u32
    ensures { result ≡ fold crc_byte code bytes.now }
{
    let [b0, b1, b2, b3, b4, b5, b6, b7] = *bytes;
    let sum = code ^ u32::from_le_bytes([b0, b1, b2, b3]);
    let [s0, s1, s2, s3] = sum.to_le_bytes();
    code_before_zeros(s0, 7)
        ^ code_before_zeros(s1, 6)
        ^ code_before_zeros(s2, 5)
        ^ code_before_zeros(s3, 4)
        ^ code_before_zeros(b4, 3)
        ^ code_before_zeros(b5, 2)
        ^ code_before_zeros(b6, 1)
        ^ code_before_zeros(b7, 0)
}

/// Returns the CRC-32C of `bytes` (RFC 3720, appendix B.4). This takes no memory.
pub fn crc32c(bytes: &[u8]) -> u32
    ensures { result ≡ crc32c_of bytes.now }
{
    let mut code = 0xFFFF_FFFF;
    let mut rest = bytes;
    while let Some((eight, after)) = rest.split_first_chunk::<8>() {
        code = after_eight(code, eight);
        rest = after;
    }
    for byte in rest {
        code = after_byte(code, *byte);
    }
    0xFFFF_FFFF ^ code
}
