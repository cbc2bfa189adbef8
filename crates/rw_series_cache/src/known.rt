//! What is known of a reference.

use rw_types::{LabelFault, LabelSet};
use std::sync::Arc;

/// What a cache knows of a reference, by its last definition.
#[derive(Debug, Drop)]
pub enum Known<'a> {
    /// It has no definition.
    Unknown,
    /// Its labels are not a label set: this is their first fault.
    Bad(LabelFault),
    /// The rules drop its label set.
    Filtered,
    /// The rules keep its label set: the number of the series, counted from 0 in the order in which
    /// label sets were first kept, and the label set.
    Kept(u64, &'a Arc<LabelSet>),
}
