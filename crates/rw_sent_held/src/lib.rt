//! What one receiver holds of a log that `send` has shipped. This crate has only laws: nothing here
//! runs.
#![tactic(auto)]

mod laws;

pub use laws::{
    a_send_adds_its_samples, a_send_has_such_a_life, a_send_is_such_a_sender,
    one_receiver_holds_what_was_sent,
};
