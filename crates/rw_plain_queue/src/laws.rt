//! Laws of what may go through the queue of a shard. Each function has an empty body: its contract
//! is the law.

ghost use Rattle.std.specs.Prelude.{◌≡◌, ℕ, List, [], ◌∷◌, ◌++◌};
ghost use Rattle.rw_plain_queue.specs.declared.item.Item.{Item};
ghost use Rattle.rw_plain_queue.specs.declared.item.Kind.{Kind};
ghost use Rattle.rw_plain_queue.specs.History.{IsHistory, IsOpen, IsEnded, MayFollow, EndIsLast};

/// Law: the history of a queue begins empty, and continues with an item that may follow or with an
/// End. Each prefix of a history is a history, and if its End was taken, all of it was.
pub fn histories_go_on()
    ensures empty { (epoch shard : ℕ) → IsHistory epoch shard [] × IsOpen [] }
    ensures put { (epoch shard : ℕ) (put : List Item) (x : Item) → IsHistory epoch shard put
        → IsOpen put
        → MayFollow epoch shard put x
        → IsHistory epoch shard (put ++ x ∷ []) × IsOpen (put ++ x ∷ []) }
    ensures end { (epoch shard : ℕ) (put : List Item) (kind : Kind) → IsHistory epoch shard put
        → IsOpen put
        → IsHistory epoch shard (put ++ Item.End kind ∷ []) }
    ensures front { (epoch shard : ℕ) (taken rest : List Item)
        → IsHistory epoch shard (taken ++ rest)
        → IsHistory epoch shard taken }
    ensures whole { (put taken items : List Item) → put ≡ taken ++ items → EndIsLast put
        → IsEnded taken → put ≡ taken }
{}
