//! Laws of the message of samples. Each function has an empty body: its contract is the law.

ghost use Rattle.std.specs.Prelude.{◌≡◌, ℕ, List, [], ◌∷◌, ◌++◌, length, map};
ghost use Rattle.std.specs.List.{IsDistinct};
ghost use Rattle.rw_types.specs.Labels.{Labels};
ghost use Rattle.rw_types.specs.LabelOrder.{labels_eq};
ghost use Rattle.rw_write_request.specs.Message.{Sample, WriteRequest};
ghost use Rattle.rw_batch.specs.Grouping.{LabelledSample, message, with_sample, labels_of_series, with_labels, sample_count};
ghost use Rattle.rw_batch.specs.Groups.{Groups, StandsFor, IsAlone, with_number};

/// Law: one more sample goes to the end of the series with its labels, or into a new series after
/// the others.
pub fn message_grows()
    ensures message { (xs : List LabelledSample) (x : LabelledSample)
        → message (xs ++ x ∷ []) ≡ with_sample x.labels x.sample (message xs) }
    ensures labels { (l : Labels) (s : Sample) (gs : WriteRequest)
        → labels_of_series (with_sample l s gs) ≡ with_labels l (labels_of_series gs) }
{}

/// Law: no two series of a message have the same labels, and no sample is lost.
pub fn message_keeps_all()
    ensures distinct { (xs : List LabelledSample)
        → IsDistinct labels_eq (labels_of_series (message xs)) }
    ensures samples { (xs : List LabelledSample) → sample_count (message xs) ≡ length xs }
{}

/// Law: if each number has its own labels, series can be found by number, also after one more
/// sample.
pub fn numbers_stand_for_labels()
    ensures stands { (f : ℕ → Labels) (n : ℕ) (g : Groups)
        → labels_of_series g.series ≡ map f g.numbers
        → IsAlone f n g.numbers → StandsFor n (f n) g }
    ensures stays { (f : ℕ → Labels) (n : ℕ) (s : Sample) (g : Groups)
        → labels_of_series g.series ≡ map f g.numbers
        → IsAlone f n g.numbers
        → labels_of_series (with_sample (f n) s g.series) ≡ map f (with_number n g.numbers) }
{}
