//! Types, codes, the log, rules, series, messages.

use rw_codes::{
    CodeFault, crc32c, get_uvarint, get_varint, push_uvarint, put_uvarint, put_varint, uvarint_len,
};
use rw_relabel::{Action, Choice, Rule, RuleFault, Rules};
use rw_series_cache::{Cache, Known, Router};
use rw_types::{Entry, LabelFault, LabelSet, Names, Place, RawLabels, Sink, Source, Word};
use rw_wal_tail::{Piece, SkippedType, Tail, TailFault, Taker, is_out_of_memory, take_all};
use rw_wal_write::{LogFault, SegmentWriter, sample_record, series_record};
use rw_write_request::{Message, Series, WireFault, decode, encode};

/// The types of these crates.
pub type Types<'a> = (
    (Word, RawLabels, LabelSet, LabelFault, Entry, Place, Names),
    (CodeFault, LogFault, Piece, Tail, TailFault),
    SkippedType,
    (Action, Rule, RuleFault, Rules, Cache, Known<'a>),
    (Message, Series, WireFault),
);

/// The calls of rw_types, rw_codes, rw_wal_write and rw_wal_tail.
pub fn of_the_log<R: Source, W: Sink>() {
    let _ = (Word::of_int, Word::as_int, RawLabels::new, LabelSet::check);
    let _ = (put_uvarint, get_uvarint, put_varint, get_varint, crc32c);
    let _ = (R::read, W::write, series_record, sample_record);
    let _ = (SegmentWriter::<W>::new, SegmentWriter::<W>::log);
    let _ = (Tail::new, Tail::feed, Tail::next_segment, Tail::next_entry);
    let _ = (Tail::entries_read, Tail::skipped);
}

/// The calls of codes and logs that the crates above need.
pub fn of_parts<W: Sink, T: Taker>() {
    let _ = (push_uvarint, uvarint_len);
    let _ = (
        SegmentWriter::<W>::resume,
        SegmentWriter::<W>::offset,
        SegmentWriter::<W>::into_inner,
    );
    let _ = (Tail::feed_piece, Tail::fault_place, Tail::copy);
    let _ = Tail::for_compressed;
    let _ = (TailFault::number, is_out_of_memory, Tail::skipped_of);
    let _ = (T::take, take_all::<T>);
    let _ = (SkippedType::from_byte, SkippedType::of, SkippedType::number);
    let _ = (SkippedType::loses_samples, SkippedType::name);
}

/// The calls of rw_relabel, rw_series_cache and rw_write_request.
pub fn of_series() {
    let _ = (Rule::build, Rules::new, Rules::keeps, Choice::legacy);
    let _ = (Cache::new, Cache::define, Cache::look, Cache::rises);
    let _ = (Cache::note, Cache::names, Cache::series_count);
    let _ = (Router::new, Router::place, Router::sent);
    let _ = (Router::would_send, Router::filtered);
    let _ = (encode, decode);
}
