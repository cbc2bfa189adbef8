//! What a head was asked, as its lock and each seat know it. All of it is for contracts: no
//! question is kept.

ghost use Rattle.std.specs.Prelude.{◌≡◌, ◌+◌, ◌++◌, [], ◌∷◌};
ghost use Rattle.rw_recv_head.specs.inner.Questions.{nothing_known, IsSeat};

use crate::naming::HeadNaming;
use crate::question::Question;
use atomic_table::{Join, Play, Seat as Pass, Split, Table, TableRule};
use rw_history::History;
use std::alloc::{AllocError, Global};
use std::collections::LinkedList;
use std::marker::{Model, PhantomData};
use std::mem;

/// What the pass under the lock knows. No value of it is made.
pub struct PassState {
    /// All questions, in the order in which they were answered.
    pub asked: LinkedList<Question>,
    /// How many seats there are; their numbers count from 0.
    pub given: u64,
    /// The numbers of those that were returned.
    pub back: LinkedList<u64>,
}

/// What a pass knows: the pass under the lock knows all questions, that of a seat knows its number
/// and the first questions. No value of it is made.
pub struct View {
    pub knows: bool,
    pub known: PassState,
    pub sits: bool,
    pub number: u64,
    pub seen: LinkedList<Question>,
}

/// One pass keeps all questions. Each seat has its own number, and the questions that it has seen
/// are a prefix of all, with all of its own.
pub struct Law;

impl TableRule<Question, View, ()> for Law {
    ghost use Rattle.rw_recv_head.specs.inner.Questions.{AreKept, keeper, nothing_known};

    ghost holds = { λ key s. AreKept s };

    ghost first = { λ key. keeper nothing_known };
}

/// A step that adds a question of the seat that the pass speaks for.
struct Adds;

impl Play<Question, View> for Adds {
    ghost use Rattle.rw_recv_head.specs.inner.Questions.{Added};

    ghost then = { Added };
}

/// A step that notes that this seat was returned.
struct Returns;

impl Play<Question, View> for Returns {
    ghost use Rattle.rw_recv_head.specs.inner.Questions.{Returned};

    ghost then = { Returned };
}

/// The step that makes a new seat.
struct Gives;

impl Split<View> for Gives {
    ghost use Rattle.std.specs.Prelude.{◌+◌};
    ghost use Rattle.rw_recv_head.specs.inner.Questions.{keeper, sitter};

    ghost left = { λ v. keeper (record v.known { given = v.known.given + 1 }) };

    ghost right = { λ v. sitter v.known.given v.known.asked };
}

/// The step that makes a pass that belongs to no seat.
struct Stands;

impl Split<View> for Stands {
    ghost use Rattle.rw_recv_head.specs.inner.Questions.{guest};

    ghost left = { λ v. v };

    ghost right = { λ v. guest };
}

/// The step by which the pass under the lock comes to speak for a seat.
struct Takes;

impl Join<View> for Takes {
    ghost use Rattle.rw_recv_head.specs.inner.Questions.{with_seat, guest};

    ghost both = { with_seat };

    ghost spent = { guest };
}

/// The step by which the seat has its own pass again.
struct Leaves;

impl Split<View> for Leaves {
    ghost use Rattle.rw_recv_head.specs.inner.Questions.{keeper, sitter};

    ghost left = { λ v. keeper v.known };

    ghost right = { λ v. sitter v.number v.seen };
}

/// An empty list of questions, in a table that has no name yet. Contracts see the table.
#[derive(Drop)]
pub(crate) struct Unnamed {
    table: Table<Question, View, (), Law, Global>,
    pass: Pass<Question, View>,
}

impl Model for Unnamed {
    ghost use Rattle.std.specs.Prelude.{◌≡◌, ◌<◌, []};
    ghost use Rattle.atomic_table.specs.Seated.{TableId, table_id_coded};
    ghost use Rattle.rw_recv_head.specs.inner.Questions.{keeper, nothing_known};

    ghost Value = { TableId };

    ghost coded = { table_id_coded };

    ghost view = { λ u. u.table.shared.table_id };

    ghost invariant = { λ u. (u.pass.table_id ≡ u.table.shared.table_id)
        × (0 < u.table.shared.table_id.words)
        × (u.pass.me ≡ (keeper nothing_known, [])) };
}

impl Unnamed {
    /// Returns a new table, of one word.
    pub(crate) fn new(alloc: Global) -> Result<Unnamed, AllocError> {
        let (table, pass) = Table::of_words(alloc, &[0], &())?;
        Ok(Unnamed { table, pass })
    }

    /// Returns an empty list of questions under a name.
    pub(crate) fn named<L: HeadNaming>(self) -> Questions<L>
        requires { self ≡ L.table.id }
        ensures { result ≡ nothing_known }
    {
        let Unnamed { table, pass } = self;
        Questions {
            table,
            pass,
            name: PhantomData,
        }
    }
}

/// What a head was asked so far, how many seats it has, and which of them were returned. Contracts
/// see these.
#[derive(Drop)]
pub(crate) struct Questions<L: HeadNaming> {
    table: Table<Question, View, (), Law, Global>,
    pass: Pass<Question, View>,
    name: PhantomData<L>,
}

impl<L: HeadNaming> Model for Questions<L> {
    ghost use Rattle.std.specs.Prelude.{◌≡◌, ◌<◌, []};
    ghost use Rattle.rw_recv_head.specs.declared.questions.PassState.{PassState};
    ghost use Rattle.rw_recv_head.specs.inner.Questions.{keeper};

    ghost Value = { PassState };

    ghost view = { λ q. q.pass.me.0.known };

    ghost invariant = { λ q. (q.table.shared.table_id ≡ L.table.id)
        × (q.pass.table_id ≡ L.table.id)
        × (0 < L.table.id.words)
        × (q.pass.me ≡ (keeper q.pass.me.0.known, [])) };
}

/// The number of a seat, and the questions that it has seen: a prefix of all, with all of its own.
/// Contracts see both.
#[derive(Drop)]
pub(crate) struct Seen<L: HeadNaming> {
    number: u64,
    pass: Pass<Question, View>,
    name: PhantomData<L>,
}

impl<L: HeadNaming> Model for Seen<L> {
    ghost use Rattle.std.specs.Prelude.{◌≡◌, []};
    ghost use Rattle.rw_recv_head.specs.inner.Questions.{Sight, sitter};

    ghost Value = { Sight };

    ghost view = { λ s. record { number = s.number; asked = s.pass.me.0.seen } };

    ghost invariant = { λ s. (s.pass.table_id ≡ L.table.id)
        × (s.pass.me ≡ (sitter s.number s.pass.me.0.seen, [])) };
}

impl<L: HeadNaming> Questions<L> {
    /// Returns a new seat, with the next number.
    pub(crate) fn give(&mut self, number: u64) -> Seen<L>
        requires next { number ≡ self.old.given }
        requires none_back { self.old.back ≡ [] }
        ensures seen { result ≡ record { number = number; asked = self.old.asked } }
        ensures questions { self.new ≡ record self.old { given = self.old.given + 1 } }
    {
        let Questions { table, pass, .. } = self;
        let table = &table.shared;
        Seen {
            number,
            pass: table.split_seat::<Gives>(pass),
            name: PhantomData,
        }
    }

    /// Adds what a seat was asked, and shows it all questions. The body is borrowed and not kept.
    pub(crate) fn push(&mut self, seen: &mut Seen<L>, status: u16, body: &[u8])
        ensures questions { self.new ≡ record self.old {
          asked = self.old.asked
              ++ record { seat = seen.old.number; body = body.now; status = status } ∷ [];
        } }
        ensures seen { seen.new ≡ record seen.old { asked = self.new.asked } }
        ensures is_seat { IsSeat self.old seen.old.number seen.old.asked }
    {
        let said = Question {
            seat: seen.number,
            body: History::of(body),
            status,
        };
        let Questions { table, pass, .. } = self;
        let table = &table.shared;
        let before = mem::replace(&mut seen.pass, table.split_seat::<Stands>(pass));
        table.join_seat::<Takes>(pass, before);
        table.compare_exchange_with::<Adds>(pass, 0, 0, 0, &said);
        seen.pass = table.split_seat::<Leaves>(pass);
    }

    /// Takes a returned seat.
    pub(crate) fn take_back(&mut self, seen: Seen<L>)
        ensures questions { self.new
            ≡ record self.old { back = seen.number ∷ self.old.back } }
        ensures is_seat { IsSeat self.old seen.number seen.asked }
    {
        let Seen { pass: before, .. } = seen;
        let Questions { table, pass, .. } = self;
        let table = &table.shared;
        table.join_seat::<Takes>(pass, before);
        table.load::<Returns>(pass, 0);
    }
}
