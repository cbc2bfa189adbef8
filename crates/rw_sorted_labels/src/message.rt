//! Messages whose series have sorted labels.

ghost use Rattle.std.specs.Prelude.{◌≡◌, true};
ghost use Rattle.rw_sorted_labels.specs.Sorting.{SortsSeries, SortsMessage};

use crate::labels;
use rw_write_request::Series;

/// Sorts the labels of a series.
fn sort_one(series: &mut Series)
    ensures { SortsSeries series.old series.new }
{
    labels::sort(&mut series.labels);
}

/// Sorts the labels of each series of a message. This takes no memory.
pub(crate) fn sort_each(message: &mut [Series])
    ensures { SortsMessage message.old message.new }
{
    for series in message.iter_mut() {
        sort_one(series);
    }
}

/// Returns whether the labels of each series of a message are sorted.
pub(crate) fn are_sorted(message: &[Series]) -> bool
    ensures { result ≡ true → SortsMessage message.now message.now }
{
    for series in message {
        if !labels::are_sorted(&series.labels) {
            return false;
        }
    }
    true
}
