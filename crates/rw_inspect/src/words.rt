//! The texts about a fault.

ghost use Rattle.std.specs.Prelude.{◌≡◌, ◌<◌};
ghost use Rattle.rw_inspect.specs.Faults.{fault_words, next_step, row_number};

use rw_wal_tail::TailFault;

const COPY_AGAIN: &str =
    "copy the segment again and compare; send ships what is before the fault, receive does not start";

/// What is wrong, and what to do next, by the number of the fault; and then of those faults that
/// mean something else in a log that may have Snappy blocks.
const FAULTS: [(&str, &str); 11] = [
    (
        "out of memory",
        "free some memory and run the command again",
    ),
    ("no fragment has this type byte", COPY_AGAIN),
    ("the fragment extends past the end of its page", COPY_AGAIN),
    (
        "the checksum of the fragment does not match its data",
        COPY_AGAIN,
    ),
    (
        "the fragment is compressed",
        "give --wal-compression, which reads Snappy blocks, or start Prometheus with --no-storage.tsdb.wal-compression; send ships what comes before the fault",
    ),
    (
        "a byte of the padding at the end of the page is not zero",
        COPY_AGAIN,
    ),
    (
        "the fragment begins a record inside another record, or continues no record",
        COPY_AGAIN,
    ),
    ("the record does not have the form of its type", COPY_AGAIN),
    (
        "the segment ends inside a record, but another segment follows",
        "copy the segment again, or let Prometheus repair the log as it starts; send ships what comes before the fault",
    ),
    (
        "the fragment is compressed by Zstandard, or its type byte is damaged",
        "start Prometheus without --storage.tsdb.wal-compression-type=zstd if it has that, or else copy the segment again; send ships what comes before the fault",
    ),
    (
        "the record is a Snappy block that does not decode to at most 16 MiB, or does not have the form of its type",
        COPY_AGAIN,
    ),
];

/// Returns the row of a fault of a log, which may have Snappy blocks or has none.
fn row_of(fault: TailFault, may_compress: bool) -> usize
    ensures row { result ≡ row_number may_compress fault }
    ensures within { result < 11 }
{
    if !may_compress {
        return usize::from(fault.number());
    }
    match fault {
        TailFault::Compressed => 9,
        TailFault::BadRecord => 10,
        _ => usize::from(fault.number()),
    }
}

/// Returns what is wrong.
pub(crate) fn fault_words(fault: TailFault, may_compress: bool) -> &'static str
    ensures { result.now ≡ fault_words may_compress fault }
{
    FAULTS[row_of(fault, may_compress)].0
}

/// Returns what to do next.
pub(crate) fn next_step(fault: TailFault, may_compress: bool) -> &'static str
    ensures { result.now ≡ next_step may_compress fault }
{
    FAULTS[row_of(fault, may_compress)].1
}
