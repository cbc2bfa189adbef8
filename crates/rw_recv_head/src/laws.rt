//! Laws of what a shared head has taken. Each function has an empty body: its contract is the law.

ghost use Rattle.std.specs.Prelude.{◌≡◌, ℕ, List, [], ◌∷◌, ◌++◌, Some, Ok, true, slice_get};
ghost use Rattle.rw_types.specs.Beginnings.{Begins};
ghost use Rattle.rw_types.specs.Labels.{Labels};
ghost use Rattle.rw_write_request.specs.Message.{Sample, TimeSeries, WriteRequest};
ghost use Rattle.rw_write_request.specs.Read.{read};
ghost use Rattle.rw_head.specs.Head.{State, answer};
ghost use Rattle.rw_head.specs.Order.{point_of, holds};
ghost use Rattle.rw_head.specs.Store.{list_of, HasNoEmptyList};
ghost use Rattle.rw_head.specs.Growth.{EachRises};
ghost use Rattle.rw_recv_head.specs.Seats.{store_after, head_after};

/// Law: a head keeps what it has taken. The samples that it holds of a label set after some bodies
/// are a prefix of those that it holds after these and more.
pub fn what_is_stored_stays()
    ensures { (head : State) (seen bodies : List (List ℕ)) (l : Labels) → EachRises head.store
        → HasNoEmptyList head.store → Begins seen bodies
        → Begins (list_of (store_after head seen) l) (list_of (store_after head bodies) l) }
{}

/// Law: 204 means that the samples are held. Each sample of a message that a head answers so is in
/// the list of its label set, also after more bodies. So what is reported to a seat as stored is in
/// the head that is gathered.
pub fn what_is_answered_204_is_held()
    ensures { (head : State) (before bodies : List (List ℕ)) (busy : ℕ) (body : List ℕ)
        (m : WriteRequest) (i j : ℕ) (s : TimeSeries) (x : Sample) → EachRises head.store
        → HasNoEmptyList head.store
        → (answer (head_after head before busy) body).status ≡ 204 → read body ≡ Ok m
        → slice_get m i ≡ Some s → slice_get s.samples j ≡ Some x
        → Begins (before ++ body ∷ []) bodies
        → holds (point_of x) (list_of (store_after head bodies) s.labels) ≡ true }
{}
