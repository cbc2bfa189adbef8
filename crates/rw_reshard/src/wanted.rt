//! How many shards to run.

ghost use Rattle.std.specs.Prelude.{◌≡◌, ◌≤◌};
ghost use Rattle.rw_reshard.specs.Wanted.{within, desired, wanted};

/// Returns a number, limited to a range.
fn bring_within(n: u128, min: u32, max: u32) -> u32
    requires { min ≤ max }
    ensures { result ≡ within min max n }
{
    n.max(min as u128).min(max as u128) as u32
}

/// Returns how many shards would have resolved what was placed and the backlog.
fn desire(now: u32, placed: u64, resolved: u64, backlog: u64, min: u32, max: u32) -> u32
    requires range { min ≤ max }
    requires some { 1 ≤ resolved }
    ensures { result ≡ desired now placed resolved backlog min max }
{
    let work = now as u128 * (placed as u128 + backlog as u128);
    bring_within(work.div_ceil(resolved as u128), min, max)
}

/// Returns how many shards are wanted, from `min` to `max`, if there are `n`. First `n` is limited
/// to the range. The answer is then the number of shards that would have resolved the `placed`
/// samples and the `backlog` in the time in which that many resolved `resolved` samples. If this
/// differs from `n` by three tenths or less, or nothing is resolved yet, the answer is `n` itself.
/// This takes no memory.
pub fn want(n: u32, placed: u64, resolved: u64, backlog: u64, min: u32, max: u32) -> u32
    requires some { 1 ≤ n }
    requires least { 1 ≤ min }
    requires range { min ≤ max }
    requires most { max ≤ 1000 }
    ensures { result ≡ wanted n placed resolved backlog min max }
{
    let now = bring_within(n as u128, min, max);
    if resolved == 0 {
        return now;
    }
    let desired = desire(now, placed, resolved, backlog, min, max);
    if 10 * desired.abs_diff(now) > 3 * now {
        desired
    } else {
        now
    }
}
