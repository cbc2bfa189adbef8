//! How long to wait before a batch is sent again.

ghost use Rattle.std.specs.Prelude.{◌≡◌, ◌≤◌, ◌<◌, ◌^◌};
ghost use Rattle.rw_retry.specs.Backoff.{delay_of};

fn power_of_two(exponent: u64) -> u64
    requires { exponent < 64 }
    ensures { result ≡ 2 ^ exponent }
{
    1 << exponent
}

/// Returns how many milliseconds to wait before retry number `retry` of a batch, counted from 0:
/// `min_backoff` at first, twice as long each time, and at most `max_backoff`. This takes no
/// memory.
pub fn delay(min_backoff: u64, max_backoff: u64, retry: u64) -> u64
    requires { min_backoff ≤ max_backoff }
    ensures { result ≡ delay_of min_backoff max_backoff retry }
{
    if min_backoff == 0 {
        return 0;
    }
    if retry >= 64 {
        return max_backoff;
    }
    match min_backoff.checked_mul(power_of_two(retry)) {
        Some(delay) => delay.min(max_backoff),
        None => max_backoff,
    }
}
