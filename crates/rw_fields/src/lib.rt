//! The fields that an operator adds to the requests of a sender.
#![tactic(auto)]

mod extra_fields;
mod grammar;

pub use extra_fields::{ExtraFields, is_extra};
pub use grammar::{is_field_name, is_framing, is_in_request};
