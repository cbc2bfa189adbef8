//! How far an end of a queue has come, as a type.

/// How far an end of a queue has come: `Open`, `Deserted`, `Ended` or `Killed`.
pub trait Stage {
    ghost use Rattle.std.specs.Prelude.{List};
    ghost use Rattle.rw_plain_queue.specs.declared.item.Item.{Item};

    /// What is known of the items that went through the end.
    ghost stands: { List Item → Type 0 };

    /// What is known of the items that an end holds back.
    ghost held: { List Item → Type 0 };

    /// What is known of an end that let go of the channel, so that the other end is Gone.
    ghost let_go: { Type 0 };
}

/// No End has gone through the end of the queue.
pub struct Open;

/// A take found nobody at the end that puts: nothing more comes, and no End has come.
pub struct Deserted;

/// An End has gone through, as the last item.
pub struct Ended;

/// The end was given up by `Drain::kill`.
pub struct Killed;

impl Stage for Open {
    ghost use Rattle.rw_plain_queue.specs.History.{IsOpen};
    ghost use Rattle.std.specs.Prelude.{⊤};

    ghost stands = { IsOpen };

    ghost held = { λ items. ⊤ };

    ghost let_go = { ⊥ };
}

impl Stage for Deserted {
    ghost use Rattle.std.specs.Prelude.{⊤};
    ghost use Rattle.rw_plain_queue.specs.History.{IsOpen};

    ghost stands = { IsOpen };

    ghost held = { λ items. ⊤ };

    ghost let_go = { ⊥ };
}

impl Stage for Ended {
    ghost use Rattle.rw_plain_queue.specs.History.{IsEnded};
    ghost use Rattle.std.specs.Prelude.{◌≡◌, []};

    ghost stands = { IsEnded };

    ghost held = { λ items. items ≡ [] };

    ghost let_go = { ⊥ };
}

impl Stage for Killed {
    ghost use Rattle.std.specs.Prelude.{⊤};

    ghost stands = { λ items. ⊤ };

    ghost held = { λ items. ⊤ };

    ghost let_go = { ⊤ };
}
