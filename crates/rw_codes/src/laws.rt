//! Laws of the codes, for the crates that read and write them. Each function has an empty body: its
//! contract is the law.

ghost use Rattle.std.specs.Prelude.{◌≡◌, ◌+◌, ◌^◌, ◌<◌, ◌≤◌, ◌++◌, ℕ, ℤ, List, length, Ok, FitsSigned};
ghost use Rattle.std.proofs.Common.{w64};
ghost use Rattle.rw_codes.specs.Varint.{AreBytes, uvarint, read_uvarint, varint, read_varint, zig_zag, un_zig_zag};

/// Law: a number below 2^64 is read back from its varint, whatever bytes follow.
pub fn uvarint_is_read()
    ensures { (n : ℕ) (rest : List ℕ) → n < 2 ^ 64
        → read_uvarint (uvarint n ++ rest) ≡ Ok (n, rest) }
{}

/// Law: the varint of a number is its shortest form. No bytes that are read as that number are
/// fewer.
pub fn uvarint_is_shortest()
    ensures { (text rest : List ℕ) (n : ℕ) → AreBytes text → read_uvarint text ≡ Ok (n, rest)
        → length (uvarint n) + length rest ≤ length text }
{}

/// Law: a signed number of 64 bits is read back from its ZigZag varint, whatever bytes follow.
pub fn varint_is_read()
    ensures { (z : ℤ) (rest : List ℕ) → FitsSigned w64 z
        → read_varint (varint z ++ rest) ≡ Ok (z, rest) }
{}

/// Law: the ZigZag map is one to one, between all signed numbers and all natural ones.
pub fn zig_zag_is_inverted()
    ensures signed { (z : ℤ) → un_zig_zag (zig_zag z) ≡ z }
    ensures unsigned { (n : ℕ) → zig_zag (un_zig_zag n) ≡ n }
{}
