//! External labels: labels that are added to each series when it is sent, as `external_labels` of a
//! Prometheus are.
#![tactic(auto)]

mod external;
mod laws;

pub use external::ExternalLabels;
pub use laws::{labels_stay_sorted, own_values_stay, rows_are_labelled};
