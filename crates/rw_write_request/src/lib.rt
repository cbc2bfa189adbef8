//! Messages of Remote-Write 1.0 in the wire format of Protocol Buffers ("Encoding"). Timestamps are
//! milliseconds since the Unix epoch, and values are the 64 bits of doubles, which are not
//! interpreted.
#![tactic(auto)]

mod fault;
mod kind;
mod laws;
mod lengths;
mod message;
mod message_check;
mod parts;
mod reader;
mod writer;

pub use fault::WireFault;
pub use laws::{
    canonical_is_a_spelling, canonical_is_read, faults_are_first, one_message, reads_spellings,
    sample_field_is_short, samples_stay, series_in_parts, what_is_read_stays,
};
pub use lengths::{encoded_len, series_field_len, series_head_len};
pub use message::{Message, Series};
pub use message_check::check_message;
pub use parts::{head_of, label_count, message_part, next_samples, read_labels, read_samples};
pub use reader::{decode, read_series};
pub use writer::{encode, put_sample_field, put_series, put_series_front, put_series_head};
