//! What every schedule keeps: any list of events, and with it any loss, repeat, delay or disorder
//! of requests and replies.

ghost use Rattle.std.specs.Prelude.{◌≡◌, ℕ, List};
ghost use Rattle.rw_types.specs.Beginnings.{Begins};
ghost use Rattle.rw_head.specs.Growth.{EachRises};
ghost use Rattle.rw_machine.specs.Worlds.{Setup, World, start};
ghost use Rattle.rw_machine.specs.Steps.{run};
ghost use Rattle.rw_machine.specs.Settling.{settle_world, settle_events};
ghost use Rattle.rw_machine.specs.Promises.{CanWork, IsInOrder, IsOfPlaced, OwedRises, IsWhole, IsWholeBeforeDamage, HoldsNothingElse, IsClosedForGood, HasOneClassEach, CountsFiltered, NamesRefusals, HasOneBatchEachId, CarriesEachBatch, SendsSameBytes, NeverTakesAndRefuses, StoresResolved, HasShardLists, SettleEnds};
ghost use Rattle.rw_machine.specs.declared.event.Event.{Event};

/// Law: for each label set the receiving head holds a prefix of its logged samples in log order,
/// each once, less exactly those that are named as dropped, whatever their timestamps. It holds
/// none that was not placed (`of_placed`). What is owed of the placed ones rises strictly in time
/// (`owed_rises`), and so does what it holds (`rises`). Once an orderly shutdown is complete it
/// holds all of them up to the position asked for, and if the log is damaged all before the damage.
/// Of other label sets it holds nothing.
pub fn logged_samples_arrive_in_order()
    ensures in_order { (c : Setup) (events : List Event) → IsInOrder c (run c events (start c)) }
    ensures of_placed { (c : Setup) (events : List Event) → IsOfPlaced c (run c events (start c)) }
    ensures owed_rises { (c : Setup) (events : List Event) → OwedRises c (run c events (start c)) }
    ensures rises { (c : Setup) (events : List Event)
        → EachRises (run c events (start c)).head.store }
    ensures whole { (c : Setup) (events : List Event) → IsWhole c (run c events (start c)) }
    ensures damaged { (c : Setup) (events : List Event)
        → IsWholeBeforeDamage c (run c events (start c)) }
    ensures nothing_else { (c : Setup) (events : List Event)
        → HoldsNothingElse c (run c events (start c)) }
{}

/// Law: a queue whose End was taken returns nothing more, and after a kill no queue does.
pub fn closed_queues_hand_out_nothing()
    ensures { (c : Setup) (events : List Event) → IsClosedForGood c (run c events (start c)) }
{}

/// Law: each placed sample is in exactly one class: filtered, named with its reason, or owed to the
/// receiver. A sample of a kept series is named as not rising exactly if it does not rise.
pub fn each_sample_has_one_class()
    ensures classes { (c : Setup) (events : List Event)
        → HasOneClassEach c (run c events (start c)) }
    ensures filtered { (c : Setup) (events : List Event)
        → CountsFiltered c (run c events (start c)) }
    ensures refusals { (c : Setup) (events : List Event) → NamesRefusals c events }
{}

/// Law: what was sent under one id is one batch, whose fate does not change: a batch that the head
/// has taken is never refused later, and one that was refused permanently is never taken later. A
/// resolved sample that is not named is in the store.
pub fn each_batch_has_one_fate()
    ensures one_batch { (c : Setup) (events : List Event)
        → HasOneBatchEachId (run c events (start c)) }
    ensures one_fate { (c : Setup) (events : List Event)
        → NeverTakesAndRefuses c (run c events (start c)) }
    ensures resolved { (c : Setup) (events : List Event)
        → StoresResolved c (run c events (start c)) }
{}

/// Law: what is sent is the request that carries a batch to the target, as bytes: the same bytes
/// each time.
pub fn requests_carry_their_batches()
    ensures bytes { (c : Setup) (events : List Event)
        → CarriesEachBatch c (run c events (start c)) }
    ensures again { (c : Setup) (events : List Event) → SendsSameBytes (run c events (start c)) }
{}

/// Law: nothing that was sent or answered is removed; later events add requests and replies after
/// those that there are.
pub fn requests_and_replies_stay()
    ensures requests { (c : Setup) (events : List Event) (w : World)
        → Begins w.requests (run c events w).requests }
    ensures replies { (c : Setup) (events : List Event) (w : World)
        → Begins w.replies (run c events w).replies }
{}

/// Law: what a shard was put is what it has taken and what its queue holds, and what it has taken
/// is what is resolved, its open batch and its builder.
pub fn shards_keep_their_lists()
    ensures { (c : Setup) (events : List Event) → HasShardLists c (run c events (start c)) }
{}

/// Law: an orderly shutdown is a schedule that comes to its report after enough rounds, from
/// wherever it begins.
pub fn shutdown_comes_to_its_report()
    ensures runs { (c : Setup) (n : ℕ) (w : World)
        → settle_world c n w ≡ run c (settle_events c n w) w }
    ensures ends { (c : Setup) (events : List Event) → CanWork c
        → SettleEnds c (run c events (start c)) }
{}
