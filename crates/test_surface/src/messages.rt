//! Messages part by part, and batches while they are made.

use rw_batch::{Builder, Grouping};
use rw_write_request::{
    check_message, encoded_len, head_of, label_count, message_part, next_samples, put_sample_field,
    put_series, put_series_front, put_series_head, read_labels, read_samples, read_series,
    series_field_len, series_head_len,
};

/// The calls that read a message part by part.
pub fn of_parts() {
    let _ = (check_message, head_of, label_count, message_part);
    let _ = (next_samples, read_labels, read_samples, read_series);
}

/// The calls that write one part by part.
pub fn of_written_parts() {
    let _ = (encoded_len, series_field_len, series_head_len);
    let _ = (put_sample_field, put_series);
    let _ = (put_series_front, put_series_head);
}

/// The calls of a builder.
pub fn of_builders() {
    let _ = (Builder::len, Builder::is_empty, Builder::places);
    let _ = (Builder::can_take, Builder::field, Builder::body_len);
    let _ = (Builder::put_body, Builder::body, Builder::freeze_with);
}

/// The calls that group samples into a message.
pub fn of_groups() {
    let _ = (Grouping::new, Grouping::len, Grouping::is_empty);
    let _ = (Grouping::add, Grouping::into_message);
}
