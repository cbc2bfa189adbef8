//! What one receiver holds of a log whose sender and receiver are started again any number of
//! times. This crate has only laws: nothing here runs.
#![tactic(auto)]

mod checkpoints;
mod examples;
mod lives;
mod logs;
mod receivers;
mod relay;
mod resumed;
mod runs;
mod senders;
mod several_senders;
mod stopped;
mod wire;
mod workers;

pub use checkpoints::{
    a_checkpoint_keeps_the_series, samples_from_a_time_on_rise_alike, what_is_owed_rises,
};
pub use examples::{
    a_small_history_is_allowed, a_small_history_of_lives_is_allowed,
    a_small_history_over_a_folder_is_allowed, a_small_history_over_the_wire_is_allowed,
    a_small_history_with_a_refusal_is_allowed, a_small_open_receiver_is_allowed,
};
pub use lives::{
    a_kept_receiver_has_such_lives, a_killed_sender_has_such_a_life, runs_are_such_lives,
    what_is_held_after_all_lives,
};
pub use logs::{
    a_run_from_a_checkpoint_is_a_run_over_the_log, a_run_over_a_part_is_a_run_over_the_log,
    many_runs_hold_one_log, what_is_held_of_a_label_set,
};
pub use receivers::{a_kept_head_is_such_a_receiver, an_endpoint_is_such_a_receiver};
pub use relay::{
    a_relay_holds_what_the_first_receiver_holds, a_report_names_what_a_relay_lacks,
    what_was_read_stays_in_the_log,
};
pub use resumed::{a_resumed_run_is_a_run_over_the_log, definitions_are_a_checkpoint};
pub use runs::{
    a_head_answers_so, acknowledged_samples_stay, many_runs_fill_one_head,
    what_comes_next_is_accepted,
};
pub use senders::{a_sender_is_a_run, what_is_put_is_what_is_owed};
pub use several_senders::several_senders_share_a_receiver;
pub use stopped::{a_stopped_shipper_adds_its_samples, a_stopped_shipper_is_such_a_sender};
pub use wire::{
    a_kept_receiver_is_such_a_receiver, a_served_receiver_is_asked_in_order,
    a_stopped_shipper_is_a_run_of_workers, what_comes_over_the_wire_is_such_a_receiver,
};
pub use workers::{a_batch_has_its_samples, a_worker_sends_in_order, a_worker_sends_its_samples};
