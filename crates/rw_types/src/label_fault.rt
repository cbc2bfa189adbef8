//! Why labels are not a label set.

ghost use Rattle.std.specs.Prelude.{◌≡◌, ◌<◌, not};
ghost use Rattle.rw_types.specs.Labels.{label_fault_number};

use std::alloc::AllocError;
use std::error::Error;
use std::fmt;

/// The most labels that a label set may have.
pub const MAX_LABELS: usize = 64;

/// The most bytes that the names and values of a label set may have together.
pub const MAX_LABEL_BYTES: usize = 16_384;

/// Why labels are not a label set: the first of these faults that holds. Cast to a number,
/// `OutOfMemory` is 0 and the faults of the labels are 1 to 7.
#[derive(Clone, Copy, Debug, PartialEq, Eq)]
pub enum LabelFault {
    /// Memory ran out. The labels have no fault.
    OutOfMemory,
    /// A name or a value is not UTF-8.
    NotUtf8,
    /// A name is empty.
    EmptyName,
    /// A name does not match `[a-zA-Z_][a-zA-Z0-9_]*`, or the value of `__name__` does not match
    /// `[a-zA-Z_:][a-zA-Z0-9_:]*`. This is a fault only with `Names::Legacy`.
    BadName,
    /// A value is empty.
    EmptyValue,
    /// The labels are not sorted by name in byte order, or a name is repeated.
    NotSorted,
    /// There are more than `MAX_LABELS` labels.
    TooMany,
    /// Names and values have more than `MAX_LABEL_BYTES` bytes together.
    TooLong,
}

impl fmt::Display for LabelFault {
    fn fmt<W: fmt::Write>(&self, f: &mut fmt::Formatter<W>) -> fmt::Result {
        f.write_str(match self {
            LabelFault::OutOfMemory => "out of memory",
            LabelFault::NotUtf8 => "label fault 1: a name or a value is not UTF-8",
            LabelFault::EmptyName => "label fault 2: a name is empty",
            LabelFault::BadName => "label fault 3: a name is not allowed",
            LabelFault::EmptyValue => "label fault 4: a value is empty",
            LabelFault::NotSorted => "label fault 5: the names are not sorted, or one is repeated",
            LabelFault::TooMany => "label fault 6: more than 64 labels",
            LabelFault::TooLong =>
                "label fault 7: names and values together have more than 16384 bytes",
        })
    }
}

impl Error for LabelFault {}

impl From<AllocError> for LabelFault {
    ghost use Rattle.std.specs.Prelude.{◌≡◌};
    ghost use Rattle.rw_types.specs.declared.label_fault.LabelFault.TheVariants.{OutOfMemory};

    ghost from_gives = { λ _ e. e ≡ OutOfMemory };

    fn from(_e: AllocError) -> LabelFault {
        LabelFault::OutOfMemory
    }
}

impl LabelFault {
    /// Returns the number that stands for the fault in plans and reports: 1 to 7, or 0 for
    /// `OutOfMemory`, which is not a fault of the labels.
    pub fn number(self) -> u8
        ensures { result ≡ label_fault_number self }
    {
        match self {
            LabelFault::OutOfMemory => 0,
            LabelFault::NotUtf8 => 1,
            LabelFault::EmptyName => 2,
            LabelFault::BadName => 3,
            LabelFault::EmptyValue => 4,
            LabelFault::NotSorted => 5,
            LabelFault::TooMany => 6,
            LabelFault::TooLong => 7,
        }
    }
}
