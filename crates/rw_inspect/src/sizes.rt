//! How large segments are.

ghost use Rattle.std.specs.Prelude.{◌≡◌, ◌+◌, IfOk};
ghost use Rattle.rw_inspect.specs.Sizes.{pages_of, sizes_in, sizes_of, with_segment};

use rw_log_read::Segment;
use std::alloc::AllocError;

const PAGE: u64 = 32 * 1024;

/// How large a segment is, or all segments are.
#[derive(Clone, Copy, Debug)]
pub(crate) struct Sizes {
    pub(crate) bytes: u64,
    pub(crate) pages: u64,
    pub(crate) passed: u64,
}

/// Returns how many pages this many bytes take.
fn pages_of(bytes: u64) -> u64
    ensures { result ≡ pages_of bytes }
{
    if bytes % PAGE == 0 {
        bytes / PAGE
    } else {
        bytes / PAGE + 1
    }
}

/// Returns a sum. A sum that does not fit counts as out of memory.
fn sum(a: u64, b: u64) -> Result<u64, AllocError>
    ensures { IfOk result (λ n. n ≡ a + b) }
{
    a.checked_add(b).ok_or(AllocError)
}

/// Returns the sizes of a segment.
pub(crate) fn sizes_of(segment: &Segment) -> Sizes
    ensures { result ≡ sizes_of segment.now }
{
    Sizes {
        bytes: segment.bytes,
        pages: pages_of(segment.bytes),
        passed: segment.passed,
    }
}

/// Returns the sizes with one more segment.
fn with_segment(sizes: &Sizes, segment: &Segment) -> Result<Sizes, AllocError>
    ensures { IfOk result (λ s. s ≡ with_segment sizes.now segment.now) }
{
    let more = sizes_of(segment);
    Ok(Sizes {
        bytes: sum(sizes.bytes, more.bytes)?,
        pages: sum(sizes.pages, more.pages)?,
        passed: sum(sizes.passed, more.passed)?,
    })
}

/// Returns the sizes of all segments.
pub(crate) fn sizes_in(segments: &[Segment]) -> Result<Sizes, AllocError>
    ensures { IfOk result (λ s. s ≡ sizes_in segments.now) }
{
    let mut sizes = Sizes {
        bytes: 0,
        pages: 0,
        passed: 0,
    };
    for segment in segments {
        sizes = with_segment(&sizes, segment)?;
    }
    Ok(sizes)
}
