//! Whole numbers in a range that their type names.

ghost use Rattle.std.specs.Prelude.{◌≡◌, ◌≤◌, ◌&&◌, nat_le, Some, None, if◌then◌else◌};

use std::marker::Model;

/// A whole number from `LOW` to `HIGH`, both included. Contracts see the number.
#[derive(Clone, Copy, Debug, PartialEq, Eq)]
pub struct Bounded<const LOW: u64, const HIGH: u64> {
    number: u64,
}

impl<const LOW: u64, const HIGH: u64> Model for Bounded<LOW, HIGH> {
    ghost use Rattle.std.specs.Prelude.{ℕ, ◌≤◌};

    ghost Value = { ℕ };

    ghost view = { λ b. b.number };

    ghost invariant = { λ b. (LOW ≤ b.number) × (b.number ≤ HIGH) };

    ghost inverse = { λ n. record { number = n } };
}

impl<const LOW: u64, const HIGH: u64> Bounded<LOW, HIGH> {
    /// Returns the number as a `Bounded`, or `None` if it is outside the range.
    pub fn try_new(number: u64) -> Option<Self>
        ensures { result ≡ (if nat_le LOW number && nat_le number HIGH then Some number else None) }
    {
        if LOW <= number && number <= HIGH {
            Some(Bounded { number })
        } else {
            None
        }
    }

    /// Returns the number as a `Bounded`. The caller knows that it is in the range.
    pub fn new(number: u64) -> Self
        requires low { LOW ≤ number }
        requires high { number ≤ HIGH }
        ensures { result ≡ number }
    {
        Bounded { number }
    }

    /// Returns the number, which is from `LOW` to `HIGH`.
    pub fn get(self) -> u64
        ensures number { result ≡ self.entry }
        ensures low { LOW ≤ result }
        ensures high { result ≤ HIGH }
    {
        self.number
    }
}
