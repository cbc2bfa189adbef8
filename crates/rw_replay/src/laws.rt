//! A law of script lines. The function has an empty body: its contract is the law.

ghost use Rattle.std.specs.Prelude.{◌≡◌, ℕ, List};
ghost use Rattle.rw_replay.specs.ScriptText.{Order, IsOrder};

/// Law: a script line stands for at most one command.
pub fn order_is_one()
    ensures { (text : List ℕ) (o p : Order) → IsOrder text o → IsOrder text p → o ≡ p }
{}
