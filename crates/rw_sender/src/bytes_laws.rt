//! Laws of what samples count, and of marks. Each function has an empty body: its contract is the
//! law.

ghost use Rattle.std.specs.Prelude.{ℕ, ◌≤◌, List, [], ◌∷◌, ◌++◌, length, sum_by, Some};
ghost use Rattle.rw_plain_queue.specs.declared.item.Item.{Item};
ghost use Rattle.rw_plain_queue.specs.declared.item.Item.TheVariants.{Flush};
ghost use Rattle.rw_batch.specs.Grouping.{LabelledSample, message};
ghost use Rattle.rw_write_request.specs.Canon.{canon};
ghost use Rattle.rw_sender.specs.Sizes.{bytes_alone};
ghost use Rattle.rw_sender.specs.Marking.{AreOnlySamples, StaysWithinLimit, open_bytes, with_cuts};

/// Law: the body of some samples is no longer than they count together.
pub fn body_within_its_count()
    ensures { (xs : List LabelledSample) → length (canon (message xs)) ≤ sum_by bytes_alone xs }
{
    rw_batch::message_grows();
    rw_write_request::sample_field_is_short();
}

/// Law: a queue whose stretches between marks are within a limit stays so with more samples that
/// are cut by it.
pub fn cuts_keep_within()
    ensures { (limit : ℕ) (items more : List Item) → StaysWithinLimit limit items
        → AreOnlySamples more
        → StaysWithinLimit limit (items ++ with_cuts (Some limit) (open_bytes items) more) }
{}

/// Law: the same with one mark more.
pub fn marks_keep_within()
    ensures { (limit : ℕ) (items : List Item) → StaysWithinLimit limit items
        → StaysWithinLimit limit (items ++ Flush ∷ []) }
{}
