//! Types that the sender and the receiver share: values, labels and label sets, log entries, places
//! of samples, readers and writers.
#![tactic(auto)]

mod bounded;
mod device;
mod entry;
mod judge;
mod label_bytes;
mod label_fault;
mod label_fields;
mod label_set;
mod names;
mod place;
mod raw_labels;
mod request_text;
mod room;
mod slice;
mod standard;
mod transfer;
mod word;

pub use bounded::Bounded;
pub use device::{Failed, Sink, Source};
pub use entry::Entry;
pub use judge::is_metric_name;
pub use label_fault::{LabelFault, MAX_LABEL_BYTES, MAX_LABELS};
pub use label_fields::{
    bytes_field_len, label_field_len, label_fields_len, put_bytes, put_field_front,
    put_label_field, put_label_fields,
};
pub use label_set::{LabelSet, equal_where_same, utf8_takes_any_name};
pub use names::Names;
pub use place::Place;
pub use raw_labels::RawLabels;
pub use request_text::{HostName, RequestPath};
pub use room::Room;
pub use standard::Std;
pub use transfer::{ReadFault, read_to_end, write_all};
pub use word::Word;
