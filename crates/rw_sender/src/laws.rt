//! Laws of how samples are placed, and of how queues are cut.

ghost use Rattle.std.specs.Prelude.{◌≡◌, ℕ, List, Some, map};
ghost use Rattle.rw_plain_queue.specs.declared.item.Item.{Item};
ghost use Rattle.rw_worker.specs.Cut.{cut};
ghost use Rattle.rw_sender.specs.Marking.{StaysWithinLimit};
ghost use Rattle.rw_types.specs.declared.entry.Entry.{Entry};
ghost use Rattle.rw_relabel.specs.declared.choice.Choice.{Choice};
ghost use Rattle.rw_fleet.specs.ShardHistories.{ShardHistory, AreFresh, marked};
ghost use Rattle.rw_sender.specs.Logs.{sent};
ghost use Rattle.rw_sender.specs.Cutting.{AreCutBy, AreWithin, IsCutShort};
ghost use Rattle.rw_sender.specs.Placement.{ArePlaced, joined_epochs};
ghost use Rattle.rw_sender.specs.Spread.{IsSpread};

/// Law: each sample of a log that is to be sent went to one shard, that of its series in its epoch,
/// by rising position, and later epochs have later samples.
pub fn samples_are_spread()
    ensures { (lanes : List ShardHistory) (choice : Choice) (entries : List Entry)
        → ArePlaced lanes (sent choice entries)
        → (epochs : List (List ShardHistory)) × (lanes ≡ joined_epochs epochs)
        × IsSpread epochs (sent choice entries) }
{}

/// Law: in these queues the samples between two marks stay within a limit, or are a single one. A
/// fresh queue is such, and stays so with what is put under that limit, and with a mark.
pub fn queues_stay_within()
    ensures fresh { (limit epoch : ℕ) (lanes : List ShardHistory)
        → AreFresh epoch lanes → AreWithin limit lanes }
    ensures cut { (limit : ℕ) (old new : List ShardHistory)
        → AreWithin limit old → AreCutBy (Some limit) old new → AreWithin limit new }
    ensures marked { (limit : ℕ) (lanes : List ShardHistory)
        → AreWithin limit lanes → AreWithin limit (map marked lanes) }
{
    crate::cuts_keep_within();
    crate::marks_keep_within();
}

/// Law: each batch that a worker cuts out of such a queue, by number of samples and at marks, has a
/// body within the limit, or one sample.
pub fn batches_are_short()
    ensures { (limit batch : ℕ) (items : List Item) → StaysWithinLimit limit items
        → IsCutShort limit (cut batch items) }
{
    crate::body_within_its_count();
}
