//! Which shared head it is.

use std::marker::Brand;
use std::sync::ledger::Ledger;

/// Which shared head it is: its ledger, the head that it began as, and the table by which its seats
/// know what it was asked, with its capacity. Each call of a program picks it.
pub trait HeadNaming: Ledger {
    ghost use Rattle.rw_head.specs.Head.{State};
    ghost use Rattle.rw_recv_head.specs.Seats.{HeadTable};

    ghost opening: { State };

    ghost table: { HeadTable };
}

/// What had the head when it was shared: a head, or something that has one. `None` if no call picks
/// it.
pub trait Holding<H>: HeadNaming {
    ghost use Rattle.std.specs.Prelude.{Option};

    ghost first: { Option H };
}

impl HeadNaming for Brand {
    ghost use Rattle.rw_recv_head.specs.Questions.{no_head, no_table};

    ghost opening = { no_head };

    ghost table = { no_table };
}

impl<H> Holding<H> for Brand {
    ghost use Rattle.std.specs.Prelude.{None};

    ghost first = { None };
}
