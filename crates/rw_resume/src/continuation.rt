//! Where a log is read from, if a sender goes on.

ghost use Rattle.std.specs.Prelude.{◌++◌, ◌∷◌, [], List, ℕ, None};
ghost use Rattle.rw_resume.specs.Continuations.{IsContinuation, IsLeastFrom};

/// What a log has after a position.
#[derive(Clone, Copy, Debug, PartialEq, Eq)]
pub enum Continuation {
    /// The segment that comes next.
    There,
    /// Not the segments from `first` to `last`, of which the first comes next, although it has
    /// later ones or a checkpoint in place of them.
    Gone { first: u64, last: u64 },
    /// Nothing: it ends before the position.
    Ended,
}

/// Returns the least of the numbers that are not below this one, if `least` is that of those before
/// `number`.
fn least_with(segment: u64, least: Option<u64>, number: u64) -> Option<u64>
    ensures { (seen : List ℕ) → IsLeastFrom segment seen least
        → IsLeastFrom segment (seen ++ number ∷ []) result }
{
    if number < segment {
        return least;
    }
    match least {
        None => Some(number),
        Some(other) => {
            if other <= number {
                return least;
            }
            Some(number)
        }
    }
}

/// Returns the least of the numbers that are not below this one.
fn least_from(segment: u64, numbers: &[u64]) -> Option<u64>
    ensures { IsLeastFrom segment numbers.now result }
{
    let mut least = None;
    for number in numbers {
        least = least_with(segment, least, *number);
    }
    least
}

/// Returns the same of a log without a checkpoint.
fn find_without_checkpoint(segment: u64, numbers: &[u64]) -> Continuation
    ensures { IsContinuation segment None numbers.now result }
{
    match least_from(segment, numbers) {
        None => Continuation::Ended,
        Some(least) => {
            if segment == least {
                return Continuation::There;
            }
            Continuation::Gone {
                first: segment,
                last: least - 1,
            }
        }
    }
}

/// Returns what a log has of the segment that comes next and those after it: these are the numbers
/// of its segments, in any order, without those that its newest checkpoint replaces.
pub fn find_continuation(segment: u64, checkpoint: Option<u64>, numbers: &[u64]) -> Continuation
    ensures { IsContinuation segment checkpoint numbers.now result }
{
    match checkpoint {
        None => find_without_checkpoint(segment, numbers),
        Some(last) => {
            if segment <= last {
                return Continuation::Gone {
                    first: segment,
                    last,
                };
            }
            find_without_checkpoint(segment, numbers)
        }
    }
}
