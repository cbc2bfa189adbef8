//! What records hold (wal.md, "Series records" and "Sample records").

ghost use Rattle.std.specs.Prelude.{◌≡◌, ◌≢◌, None, IfSome};
ghost use Rattle.rw_wal_format.specs.Types.{record_byte};

/// What a record holds. Cast to a number, it is its first byte. Records of other types are skipped.
#[derive(Clone, Copy, Debug, PartialEq, Eq, Drop)]
pub enum RecordType {
    /// Definitions of series.
    Series = 1,
    /// Samples.
    Samples = 2,
}

impl RecordType {
    /// Returns the type that a byte stands for, or `None` if the record is to be skipped.
    pub fn from_byte(byte: u8) -> Option<RecordType>
        ensures byte { IfSome result (λ holds. byte ≡ record_byte holds) }
        ensures none { result ≡ None → (byte ≢ 1) × (byte ≢ 2) }
    {
        match byte {
            1 => Some(RecordType::Series),
            2 => Some(RecordType::Samples),
            _ => None,
        }
    }

    /// Returns the byte that stands for it.
    pub fn to_byte(self) -> u8
        ensures { result ≡ record_byte self }
    {
        self as u8
    }
}
