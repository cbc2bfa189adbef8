//! The law of a head in the same process.

ghost use Rattle.std.specs.Prelude.{ℕ, List};
ghost use Rattle.rw_head.specs.Head.{State};
ghost use Rattle.rw_head.specs.Store.{Store};
ghost use Rattle.rw_sender.specs.Shipping.{Shipping};
ghost use Rattle.rw_sender.specs.declared.report.Report.{Report};
ghost use Rattle.rw_in_memory.specs.Lines.{SeatLine};
ghost use Rattle.rw_in_memory.specs.Held.{HoldsInMemory};

/// Law: what a head in this process holds of the samples of a shipper that was stopped in its first
/// epoch, however often memory ran out, and whatever the head answered. Its workers asked the head,
/// each from its own seat, and all seats were returned. No premise on a network is left.
pub fn a_head_in_memory_holds_the_samples()
    ensures { (opening : State) (path : List ℕ) (limit : ℕ) (s : Shipping SeatLine) (r : Report SeatLine)
        (store : Store) → HoldsInMemory opening path limit s r store }
{}
