//! The end of the head of a request.

ghost use Rattle.std.specs.Prelude.{◌≡◌};
ghost use Rattle.rw_shard_core.specs.inner.Requests.{after_blank_line};

/// Returns what comes after the first empty line of a text, that is after its first CR LF CR LF, or
/// nothing if it has none.
#[tactic(auto, unfolding(crate::specs::inner::Requests::after_blank_line))]
pub(crate) fn after_blank_line(text: &[u8]) -> &[u8]
    ensures { result.now ≡ after_blank_line text.now }
{
    let mut rest = text;
    while let Some((_, after)) = rest.split_first() {
        if rest.starts_with(b"\r\n\r\n") {
            return &rest[4..];
        }
        rest = after;
    }
    rest
}
