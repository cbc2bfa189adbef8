//! The pause that a receiver asks for.

ghost use Rattle.std.specs.Prelude.{◌≡◌, max, min};

use std::sync::atomic::{AtomicU64, Ordering};

/// For how long the last answer of a receiver asked to wait, by its field `Retry-After`. A
/// transport and the pause of its worker share it.
#[derive(Drop)]
pub struct AskedPause {
    ms: AtomicU64,
    /// The longest pause that a receiver is granted.
    most_ms: u64,
}

/// Returns the bytes of a message before its first empty line.
fn head_of(message: &[u8]) -> &[u8] {
    for at in 0..message.len() {
        if message[at..].starts_with(b"\r\n\r\n") {
            return &message[..at];
        }
    }
    message
}

/// Returns how many seconds the field `Retry-After` of a reply asks for; `None` if it has none with
/// a number.
fn retry_after(reply: &[u8]) -> Option<u64> {
    let head = str::from_utf8(head_of(reply)).ok()?;
    for line in head.lines() {
        if let Some((name, value)) = line.split_once(':') {
            if name.eq_ignore_ascii_case("retry-after") {
                return value.trim().parse::<u64>().ok();
            }
        }
    }
    None
}

/// Returns how long a pause of `ms` milliseconds is if a receiver asks for `asked`: longer, but not
/// for longer than `most`.
fn lengthened(ms: u64, asked: u64, most: u64) -> u64
    ensures { result ≡ max ms (min asked most) }
{
    ms.max(asked.min(most))
}

impl AskedPause {
    /// Returns what it is before the first answer, with the longest pause that a receiver is
    /// granted, in milliseconds.
    pub fn new(most_ms: u64) -> AskedPause {
        AskedPause {
            ms: AtomicU64::new(0),
            most_ms,
        }
    }

    /// Forgets what was asked for.
    pub(crate) fn clear(&self) {
        self.ms.store(0, Ordering::Relaxed);
    }

    /// Takes a reply that does not take its batch now.
    pub(crate) fn hear(&self, reply: &[u8]) {
        let ms = retry_after(reply).unwrap_or(0).saturating_mul(1_000);
        self.ms.store(ms, Ordering::Relaxed);
    }

    /// Returns how long a pause of `ms` milliseconds is now.
    pub(crate) fn lengthen(&self, ms: u64) -> u64 {
        lengthened(ms, self.ms.load(Ordering::Relaxed), self.most_ms)
    }
}
