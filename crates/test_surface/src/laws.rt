//! The laws of the libraries: calls whose contract is the statement.

use rw_batch::{message_grows, message_keeps_all, numbers_stand_for_labels};
use rw_recv_head::{
    stores_are_lists, stores_hold_no_empty_list, what_is_answered_204_is_held, what_is_stored_stays,
};
use rw_recv_http::{Answer, replies_are_determined, replies_are_short};
use rw_sender::{
    batches_are_short, body_within_its_count, cuts_keep_within, marks_keep_within,
    queues_stay_within, samples_are_spread,
};
use rw_series_cache::{
    known_at_a_position, notes_entry_by_entry, numbers_stay, points_below_a_position,
    points_entry_by_entry, samples_define_nothing,
};
use rw_shard_queue::histories_go_on;
use rw_types::{Sink, equal_where_same, utf8_takes_any_name};
use rw_wal_write::entries_are_read;
use rw_world::requests_are_answered_as_bytes;
use rw_write_request::{
    canonical_is_a_spelling, canonical_is_read, faults_are_first, one_message, reads_spellings,
    sample_field_is_short, samples_stay, series_in_parts, what_is_read_stays,
};

/// The laws of rw_types, rw_wal_write and rw_series_cache.
pub fn of_logs<W: Sink>() {
    let _ = (equal_where_same, utf8_takes_any_name, entries_are_read::<W>);
    let _ = (known_at_a_position, notes_entry_by_entry, numbers_stay);
    let _ = (points_below_a_position, points_entry_by_entry);
    let _ = samples_define_nothing;
}

/// The laws of rw_write_request.
pub fn of_messages() {
    let _ = (canonical_is_a_spelling, canonical_is_read, one_message);
    let _ = (faults_are_first, reads_spellings, what_is_read_stays);
    let _ = (sample_field_is_short, samples_stay, series_in_parts);
}

/// The laws of rw_batch, rw_shard_queue, rw_sender and rw_world.
pub fn of_senders() {
    let _ = (message_grows, message_keeps_all, numbers_stand_for_labels);
    let _ = (histories_go_on, batches_are_short, queues_stay_within);
    let _ = (samples_are_spread, requests_are_answered_as_bytes);
    let _ = (body_within_its_count, cuts_keep_within, marks_keep_within);
}

/// The laws of rw_recv_head and rw_recv_http.
pub fn of_receivers<A: Answer>() {
    let _ = (stores_are_lists, stores_hold_no_empty_list);
    let _ = (what_is_answered_204_is_held, what_is_stored_stays);
    let _ = (replies_are_determined::<A>, replies_are_short);
}
