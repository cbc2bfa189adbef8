//! The pages and fragments of a segment (wal.md, "Segment encoding").

ghost use Rattle.std.specs.Prelude.{◌≡◌, ◌≢◌, None, IfSome, if◌then◌else◌};
ghost use Rattle.rw_wal_format.specs.Segments.{full, first, middle, last, snappy};
ghost use Rattle.rw_wal_format.specs.Types.{kind_of};
ghost use Rattle.rw_wal_format.specs.Writing.{type_byte};

/// The bytes of a page: 32 KiB. No fragment crosses the end of a page.
pub const PAGE_BYTES: usize = 32 * 1024;

/// The bytes of a fragment before its data: type, length, CRC.
pub const HEADER_BYTES: usize = 7;

/// The most bytes that a record which is a Snappy block decodes to: 16 MiB.
pub const MOST_DECODED: usize = 16 * 1024 * 1024;

/// Which part of a record a fragment is. Cast to a number, it is the type byte.
#[derive(Clone, Copy, Debug, PartialEq, Eq, Drop)]
pub enum FragmentType {
    /// A whole record.
    Full = 1,
    /// The first part of a record.
    First = 2,
    /// A part of a record that is neither its first nor its last.
    Middle = 3,
    /// The last part of a record.
    Last = 4,
}

impl FragmentType {
    /// Returns the type of a fragment, by whether it goes on with a record and whether it ends one.
    pub fn of(goes_on: bool, ends: bool) -> FragmentType
        ensures { kind_of result ≡ (if goes_on then (if ends then last else middle)
            else (if ends then full else first)) }
    {
        match (goes_on, ends) {
            (false, true) => FragmentType::Full,
            (false, false) => FragmentType::First,
            (true, false) => FragmentType::Middle,
            (true, true) => FragmentType::Last,
        }
    }

    /// Returns the type that a byte stands for, without the flags of compressed data, or `None` if
    /// there is none.
    pub fn from_byte(byte: u8) -> Option<FragmentType>
        ensures byte { IfSome result (λ part. byte ≡ type_byte (kind_of part)) }
        ensures none { result ≡ None → (byte ≢ 1) × (byte ≢ 2) × (byte ≢ 3) × (byte ≢ 4) }
    {
        match byte {
            1 => Some(FragmentType::Full),
            2 => Some(FragmentType::First),
            3 => Some(FragmentType::Middle),
            4 => Some(FragmentType::Last),
            _ => None,
        }
    }

    /// Returns the type that a byte with the flag of Snappy stands for, or `None` if there is none.
    pub fn from_snappy_byte(byte: u8) -> Option<FragmentType>
        ensures byte { IfSome result (λ part. byte ≡ type_byte (snappy (kind_of part))) }
        ensures none { result ≡ None → (byte ≢ 9) × (byte ≢ 10) × (byte ≢ 11) × (byte ≢ 12) }
    {
        match byte {
            9 => Some(FragmentType::Full),
            10 => Some(FragmentType::First),
            11 => Some(FragmentType::Middle),
            12 => Some(FragmentType::Last),
            _ => None,
        }
    }

    /// Returns the byte that stands for it.
    pub fn to_byte(self) -> u8
        ensures { result ≡ type_byte (kind_of self) }
    {
        self as u8
    }
}
