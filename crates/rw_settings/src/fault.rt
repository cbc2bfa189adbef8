//! What is wrong with settings.

ghost use Rattle.std.specs.Prelude.{◌≡◌};
ghost use Rattle.rw_settings.specs.Faults.{fault_number, lesser, least};

use std::alloc::AllocError;
use std::error::Error;
use std::fmt;

/// Why settings are refused: the least of these that holds anywhere in the text. Cast to a number,
/// `OutOfMemory` is 0 and the faults of the text are 1 to 5.
#[derive(Clone, Copy, Debug, PartialEq, Eq)]
pub enum SettingsFault {
    /// Memory ran out, which is not a fault of the text.
    OutOfMemory,
    /// The text is not TOML: it is not UTF-8, or a whole number does not fit 64 signed bits, or the
    /// like.
    NotToml,
    /// A table has an unknown key.
    UnknownKey,
    /// A value has another type than its key takes.
    WrongType,
    /// A value is not in the range of its key, a number is not between its bounds, or a rule has an
    /// empty list of source labels.
    OutOfRange,
    /// A rule has no action, an unknown one or no source labels, or its regular expression is
    /// refused.
    BadRule,
}

impl fmt::Display for SettingsFault {
    fn fmt<W: fmt::Write>(&self, f: &mut fmt::Formatter<W>) -> fmt::Result {
        f.write_str(match self {
            SettingsFault::OutOfMemory => "out of memory",
            SettingsFault::NotToml => "settings fault 1: not TOML",
            SettingsFault::UnknownKey => "settings fault 2: an unknown key",
            SettingsFault::WrongType => "settings fault 3: a value of the wrong type",
            SettingsFault::OutOfRange => "settings fault 4: a value out of range",
            SettingsFault::BadRule => "settings fault 5: a bad rule",
        })
    }
}

impl Error for SettingsFault {}

impl From<AllocError> for SettingsFault {
    ghost use Rattle.std.specs.Prelude.{◌≡◌};
    ghost use Rattle.rw_settings.specs.declared.fault.SettingsFault.TheVariants.{OutOfMemory};

    ghost from_gives = { λ _ e. e ≡ OutOfMemory };

    fn from(_e: AllocError) -> SettingsFault {
        SettingsFault::OutOfMemory
    }
}

impl SettingsFault {
    /// Returns the number that stands for the fault: 0 for `OutOfMemory`, and 1 to 5 for the faults
    /// of the text.
    pub fn number(self) -> u8
        ensures { result ≡ fault_number self }
    {
        match self {
            SettingsFault::OutOfMemory => 0,
            SettingsFault::NotToml => 1,
            SettingsFault::UnknownKey => 2,
            SettingsFault::WrongType => 3,
            SettingsFault::OutOfRange => 4,
            SettingsFault::BadRule => 5,
        }
    }
}

/// Returns the lesser of two faults, if there is any.
pub(crate) fn lesser(
    fault: Option<SettingsFault>,
    other: Option<SettingsFault>,
) -> Option<SettingsFault>
    ensures { result ≡ lesser fault other }
{
    match (fault, other) {
        (None, other) => other,
        (Some(fault), None) => Some(fault),
        (Some(fault), Some(other)) => {
            if other.number() < fault.number() {
                Some(other)
            } else {
                Some(fault)
            }
        }
    }
}

/// Returns the least fault, if there is any.
#[tactic(auto, unfolding(crate::specs::Faults::least))]
pub(crate) fn least(faults: &[Option<SettingsFault>]) -> Option<SettingsFault>
    ensures { result ≡ least faults.now }
{
    let mut worst = None;
    for fault in faults {
        worst = lesser(worst, *fault);
    }
    worst
}
