//! Label sets sorted by name, for a receiver whose senders do not sort them.
#![tactic(auto)]

mod body;
mod labels;
mod laws;
mod message;

pub use body::sorted_body;
pub use laws::label_set_is_found;
