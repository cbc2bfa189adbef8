//! What becomes of the labels of a definition.

use rw_types::LabelFault;

/// What was found of labels.
#[derive(Clone, Copy, Debug)]
pub(crate) enum Verdict {
    /// They are not a label set.
    Bad(LabelFault),
    /// They are a label set that the rules drop.
    Filtered,
    /// They are the series of this number.
    Kept(usize),
}
