//! Base-128 varints and the ZigZag map (Protocol Buffers encoding).

ghost use Rattle.std.specs.Prelude.{◌≡◌, ◌<◌, ◌≤◌, ◌+◌, ◌++◌, length, drop, IfOk, IfErr, OnOk, OnErr, Ok, Err};
ghost use Rattle.std.specs.Vec.{vec_len, vec_capacity};
ghost use Rattle.rw_codes.specs.Varint.{uvarint, read_uvarint, varint, read_varint, zig_zag, un_zig_zag};

use crate::code_fault::CodeFault;
use std::alloc::AllocError;

/// Returns the ZigZag number of a signed number.
#[inline]
fn zig_zag_number(z: i64) -> u64
    ensures { result ≡ zig_zag z }
{
    let magnitude = z.unsigned_abs();
    if z < 0 {
        2 * (magnitude - 1) + 1
    } else {
        2 * magnitude
    }
}

/// Returns the signed number that has this ZigZag number.
#[inline]
fn signed_number(n: u64) -> i64
    ensures { result ≡ un_zig_zag n }
{
    let half = (n / 2) as i64;
    if n % 2 == 0 { half } else { -1 - half }
}

/// Returns how many bytes the varint of `n` takes in its shortest form: one to ten.
#[inline]
pub fn uvarint_len(n: u64) -> usize
    ensures exact { result ≡ length (uvarint n) }
    ensures bound { result ≤ 10 }
{
    if n < 128 {
        return 1;
    }
    1 + ((63 - n.leading_zeros()) / 7) as usize
}

/// Appends the varint of `n`, in its shortest form, to a vector that has room for it ("Base 128
/// Varints"). This takes no memory.
pub fn push_uvarint(out: &mut Vec<u8>, n: u64)
    requires room { vec_len out.old + length (uvarint n) ≤ vec_capacity out.old }
    ensures items { out.new.items ≡ out.old.items ++ uvarint n }
    ensures capacity { vec_capacity out.new ≡ vec_capacity out.old }
{
    let mut rest = n;
    while rest >= 128 {
        out.push_reserved(128 + (rest % 128) as u8);
        rest /= 128;
    }
    out.push_reserved(rest as u8);
}

/// Makes room for the varint of `n` in its shortest form.
fn reserve_for(out: &mut Vec<u8>, n: u64) -> Result<(), AllocError>
    ensures items { out.new.items ≡ out.old.items }
    ensures ok { OnOk result (vec_len out.new + length (uvarint n) ≤ vec_capacity out.new) }
    ensures full { OnErr result (vec_capacity out.old < vec_len out.old + length (uvarint n)) }
{
    // Ten bytes are enough for any number.
    if out.capacity() - out.len() >= 10 {
        return Ok(());
    }
    out.reserve(uvarint_len(n))
}

/// Appends a varint of any length, as `put_uvarint` does.
#[inline(never)]
fn put_groups(out: &mut Vec<u8>, n: u64) -> Result<(), AllocError>
    ensures ok { OnOk result (out.new.items ≡ out.old.items ++ uvarint n) }
    ensures err { OnErr result (out.new.items ≡ out.old.items) }
    ensures full { OnErr result (vec_capacity out.old < vec_len out.old + length (uvarint n)) }
{
    reserve_for(out, n)?;
    push_uvarint(out, n);
    Ok(())
}

/// Appends the varint of `n`, in its shortest form ("Base 128 Varints"). Memory can run out only if
/// the vector has no room for it. An `Err` leaves its bytes as they were.
#[inline]
pub fn put_uvarint(out: &mut Vec<u8>, n: u64) -> Result<(), AllocError>
    ensures ok { OnOk result (out.new.items ≡ out.old.items ++ uvarint n) }
    ensures err { OnErr result (out.new.items ≡ out.old.items) }
    ensures full { OnErr result (vec_capacity out.old < vec_len out.old + length (uvarint n)) }
{
    if n < 128 {
        out.push(n as u8)?;
        return Ok(());
    }
    put_groups(out, n)
}

/// Reads a varint of any length, as `get_uvarint` does.
#[inline(never)]
fn get_groups(bytes: &[u8]) -> Result<(u64, usize), CodeFault>
    ensures ok { IfOk result (λ x. read_uvarint bytes.now ≡ Ok (x.0, drop x.1 bytes.now)) }
    ensures some { IfOk result (λ x. 1 ≤ x.1) }
    ensures within { IfOk result (λ x. x.1 ≤ length bytes.now) }
    ensures err { IfErr result (λ e. read_uvarint bytes.now ≡ Err e) }
{
    let mut value: u64 = 0;
    let mut weight: u64 = 1;
    for (i, b) in bytes.iter().enumerate() {
        if i == 9 {
            if *b > 1 {
                return Err(CodeFault::TooBig);
            }
            return Ok((value + weight * *b as u64, 10));
        }
        if *b < 128 {
            return Ok((value + weight * *b as u64, i + 1));
        }
        value += weight * (*b - 128) as u64;
        weight *= 128;
    }
    Err(CodeFault::Short)
}

/// Reads the varint at the front of `bytes` ("Base 128 Varints"): its number, and how many bytes it
/// takes. These are one to ten, even if fewer would do.
// Most numbers of a log take one byte or two, so these are read inline.
#[inline]
pub fn get_uvarint(bytes: &[u8]) -> Result<(u64, usize), CodeFault>
    ensures ok { IfOk result (λ x. read_uvarint bytes.now ≡ Ok (x.0, drop x.1 bytes.now)) }
    ensures some { IfOk result (λ x. 1 ≤ x.1) }
    ensures within { IfOk result (λ x. x.1 ≤ length bytes.now) }
    ensures err { IfErr result (λ e. read_uvarint bytes.now ≡ Err e) }
{
    if bytes.len() > 0 && bytes[0] < 128 {
        return Ok((bytes[0] as u64, 1));
    }
    if bytes.len() > 1 && bytes[1] < 128 {
        return Ok(((bytes[0] - 128) as u64 + 128 * bytes[1] as u64, 2));
    }
    get_groups(bytes)
}

/// Appends the ZigZag varint of `z`, in its shortest form ("Signed Integers"). Memory can run out
/// only if the vector has no room for it. An `Err` leaves its bytes as they were.
#[inline]
pub fn put_varint(out: &mut Vec<u8>, z: i64) -> Result<(), AllocError>
    ensures ok { OnOk result (out.new.items ≡ out.old.items ++ varint z) }
    ensures err { OnErr result (out.new.items ≡ out.old.items) }
    ensures full { OnErr result (vec_capacity out.old < vec_len out.old + length (varint z)) }
{
    put_uvarint(out, zig_zag_number(z))
}

/// Reads the ZigZag varint at the front of `bytes` ("Signed Integers"): its signed number, and how
/// many bytes it takes. The errors are those of `get_uvarint`.
#[inline]
pub fn get_varint(bytes: &[u8]) -> Result<(i64, usize), CodeFault>
    ensures ok { IfOk result (λ x. read_varint bytes.now ≡ Ok (x.0, drop x.1 bytes.now)) }
    ensures some { IfOk result (λ x. 1 ≤ x.1) }
    ensures within { IfOk result (λ x. x.1 ≤ length bytes.now) }
    ensures err { IfErr result (λ e. read_varint bytes.now ≡ Err e) }
{
    let (n, len) = get_uvarint(bytes)?;
    Ok((signed_number(n), len))
}
