//! Laws of the store of a head. Each function has an empty body: its contract is the law.

ghost use Rattle.std.specs.Prelude.{◌≡◌, pos, List, [], ◌++◌, true, None, Some, Ok, if◌then◌else◌};
ghost use Rattle.std.specs.FinMap.{empty};
ghost use Rattle.rw_types.specs.Labels.{Labels};
ghost use Rattle.rw_types.specs.LabelOrder.{labels_eq};
ghost use Rattle.rw_head.specs.Forgetting.{example_gone, example_left, with_gone};
ghost use Rattle.rw_head.specs.Lists.{IsEarlier};
ghost use Rattle.rw_head.specs.Order.{Point, is_later, accept_one};
ghost use Rattle.rw_head.specs.Partial.{takeable, store_by_samples};
ghost use Rattle.rw_head.specs.Verdicts.{LabelLimits, taken_all};
ghost use Rattle.rw_types.specs.Rising.{Rises};
ghost use Rattle.rw_write_request.specs.Message.{WriteRequest};
ghost use Rattle.rw_head.specs.Store.{Store, list_of, with_list, HasNoEmptyList};

/// Law: a store is a list of samples for each label set. A change concerns one label set alone, and
/// two stores with the same lists are the same.
pub fn stores_are_lists()
    ensures none { (l : Labels) → list_of empty l ≡ [] }
    ensures one { (l : Labels) (xs : List Point) (s : Store) (q : Labels)
        → list_of (with_list l xs s) q ≡ (if labels_eq q l then xs else list_of s q) }
    ensures same { (s t : Store) → HasNoEmptyList s → HasNoEmptyList t
        → ((l : Labels) → list_of s l ≡ list_of t l) → s ≡ t }
{}

/// Law: no store that is made from the empty one, list by list, holds an empty list.
pub fn stores_hold_no_empty_list()
    ensures none { HasNoEmptyList empty }
    ensures one { (l : Labels) (xs : List Point) (s : Store) → HasNoEmptyList s
        → HasNoEmptyList (with_list l xs s) }
{}

/// Law: the samples at the front of a list do not matter to one that is later than all of them. The
/// order rule appends it, finds it or refuses it without these just as with the whole list.
pub fn what_can_be_judged()
    ensures { (gone held : List Point) (s : Point) → Rises IsEarlier (gone ++ held)
        → is_later s.0 gone ≡ true
        → accept_one (gone ++ held) s ≡ with_gone gone (accept_one held s) }
{}

/// Law: what a head can take of a message it takes whole, and then it holds what a head holds that
/// was asked for the samples one by one. It is the message itself exactly if the head takes that
/// whole.
pub fn what_can_be_taken_is_taken()
    ensures taken { (limits : LabelLimits) (store : Store) (m : WriteRequest)
        → HasNoEmptyList store → taken_all limits (Ok store) (takeable limits store m)
        ≡ Ok (store_by_samples limits store m) }
    ensures whole { (limits : LabelLimits) (store next : Store) (m : WriteRequest)
        → HasNoEmptyList store → taken_all limits (Ok store) m ≡ Ok next
        → takeable limits store m ≡ m }
    ensures only { (limits : LabelLimits) (store : Store) (m : WriteRequest)
        → HasNoEmptyList store → takeable limits store m ≡ m
        → taken_all limits (Ok store) m ≡ Ok (store_by_samples limits store m) }
{}

/// Law: of three samples at 10, 20 and 30 the first two are gone. One at 40 is appended, that at 30
/// is a repeat, and one at 25 is neither, for the whole list and for what is left of it. That at 20
/// is a repeat, which cannot be seen from what is left.
pub fn three_samples_of_which_two_are_gone()
    ensures later { accept_one (example_gone ++ example_left) (pos 40, 4)
        ≡ with_gone example_gone (accept_one example_left (pos 40, 4)) }
    ensures repeat { accept_one (example_gone ++ example_left) (pos 30, 3)
        ≡ with_gone example_gone (Some example_left) }
    ensures neither { accept_one (example_gone ++ example_left) (pos 25, 9) ≡ None }
    ensures gone { accept_one (example_gone ++ example_left) (pos 20, 2)
        ≡ Some (example_gone ++ example_left) }
    ensures unknown { accept_one example_left (pos 20, 2) ≡ None }
{}
