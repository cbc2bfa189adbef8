//! The types of values, labels, texts, readers and writers.

use rw_types::{
    Bounded, Entry, HostName, LabelFault, LabelSet, RawLabels, RequestPath, Room, Sink, Source,
    Std, bytes_field_len, is_metric_name, label_field_len, label_fields_len, put_bytes,
    put_field_front, put_label_field, put_label_fields, read_to_end, write_all,
};

/// The calls of label sets, sound or not yet judged.
pub fn of_labels() {
    let _ = (LabelSet::empty, LabelSet::assign, LabelSet::is_over);
    let _ = (LabelSet::check_as, LabelSet::of_texts);
    let _ = (LabelSet::as_slice, LabelSet::fields, LabelSet::conforms);
    let _ = (RawLabels::push, RawLabels::copy, RawLabels::len);
    let _ = (RawLabels::is_empty, RawLabels::as_slice);
    let _ = (LabelFault::number, is_metric_name, Entry::copy);
}

/// The calls of label fields.
pub fn of_label_fields() {
    let _ = (bytes_field_len, label_field_len, label_fields_len);
    let _ = (put_bytes, put_field_front);
    let _ = (put_label_field, put_label_fields);
}

/// The calls of numbers in a range, of hosts and of paths.
pub fn of_settings() {
    let _ = (Bounded::<1, 9>::try_new, Bounded::<1, 9>::new);
    let _ = Bounded::<1, 9>::get;
    let _ = (HostName::is_host, HostName::check, HostName::as_str);
    let _ = (HostName::local_prometheus, RequestPath::is_path);
    let _ = (RequestPath::check, RequestPath::as_str);
    let _ = (HostName::conforms, RequestPath::conforms);
    let _ = RequestPath::api_v1_write;
}

/// The calls of readers, writers and room for bytes.
pub fn of_transfers<S: Source, W: Sink>() {
    let _ = (Std::<S>::new, Std::<S>::into_inner);
    let _ = (read_to_end::<S>, write_all::<W>);
    let _ = (Room::new, Room::as_slice, Room::into_bytes);
}
