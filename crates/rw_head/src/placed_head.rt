//! A head whose label sets are seen at their places.

ghost use Rattle.std.specs.Prelude.{◌≡◌, ◌≢◌, ◌∷◌, [], ◌<◌, length, map, slice_index_or, IfSome};
ghost use Rattle.std.specs.FinMap.{empty};
ghost use Rattle.rw_types.specs.Beginnings.{Begins};
ghost use Rattle.rw_types.specs.Labels.{text_label};
ghost use Rattle.rw_head.specs.declared.verdict.Verdict.TheVariants.{NoMemory};
ghost use Rattle.rw_head.specs.Placed.{IsPlaced, one_sample};
ghost use Rattle.rw_head.specs.Verdicts.{apply};
ghost use Rattle.rw_head.specs.inner.Placed.{SettlesTo};

use crate::head::Head;
use crate::in_memory::InMemory;
use crate::label_bounds::LabelBounds;
use crate::limits::Limits;
use crate::memory::{AllSamples, Memory};
use crate::table::Table;
use crate::verdict::Verdict;
use rw_types::Word;
use rw_write_request::Series;
use std::alloc::Global;
use std::marker::{Model, PhantomData};

/// Keeps what was staged, or forgets it if it was refused, and returns the verdict.
fn settle(table: &mut Table, staged: Result<(), Verdict>) -> Verdict
    ensures settled { SettlesTo staged table.old result table.new }
    ensures staged { table.new.staged ≡ table.new.kept }
    ensures noted { table.new.noted ≡ 0 }
    ensures placed { Begins table.old.placed table.new.placed }
    ensures forgets { table.new.forgets ≡ table.old.forgets }
{
    match staged {
        Ok(()) => Verdict::Stored(table.commit()),
        Err(verdict) => {
            table.abort();
            verdict
        }
    }
}

/// A head to which samples are given one by one, as when it is made from a log. A label set is
/// named by its place, so its labels need not be compared for each sample. Contracts see the head,
/// and the label sets by place.
#[derive(Debug, Drop)]
pub struct PlacedHead<M: Memory = AllSamples> {
    alloc: Global,
    table: Table,
    bounds: LabelBounds,
    busy: u64,
    memory: PhantomData<M>,
}

impl<M: Memory> Model for PlacedHead<M> {
    ghost use Rattle.std.specs.Prelude.{◌≡◌};
    ghost use Rattle.std.specs.Coded.{codes};
    ghost use Rattle.std.specs.FinMap as map;
    ghost use Rattle.rw_head.specs.Placed.{Placing};

    ghost Value = { Placing };

    ghost coded = { Prim.hlevel (codes, map.code) };

    ghost view = { λ h. record {
      head = record { store = h.table.kept; limits = h.bounds; busy = h.busy };
      places = h.table.placed;
    } };

    ghost use Rattle.rw_head.specs.inner.Growth.{IsReady, HoldsNoneRefused};

    ghost invariant = { λ h. IsReady h.table × HoldsNoneRefused h.bounds h.table.kept
        × (h.table.forgets ≡ M.forgets) };
}

impl<M: Memory> PlacedHead<M> {
    /// Returns this head without samples.
    pub fn new(alloc: Global, limits: &Limits) -> PlacedHead<M>
        ensures store { result.head.store ≡ empty }
        ensures names { result.head.limits.names ≡ limits.now.names }
        ensures max_labels { result.head.limits.max_labels ≡ limits.now.max_labels }
        ensures max_label_bytes { result.head.limits.max_label_bytes ≡ limits.now.max_label_bytes }
        ensures busy { result.head.busy ≡ limits.now.busy_first }
    {
        let Head {
            alloc,
            table,
            bounds,
            busy,
            memory,
        } = Head::<M>::with_memory(alloc, limits);
        PlacedHead {
            alloc,
            table,
            bounds,
            busy,
            memory,
        }
    }

    /// Takes a message of this one series, as `Head::apply` does. Label sets keep their places, and
    /// one that is new has the next one.
    pub fn apply(&mut self, series: &Series) -> Verdict
        ensures verdict { result ≢ NoMemory → result
            ≡ (apply self.old.head.limits self.old.head.store (series.now ∷ [])).verdict }
        ensures store { result ≢ NoMemory → self.new.head.store
            ≡ (apply self.old.head.limits self.old.head.store (series.now ∷ [])).store }
        ensures no_memory { result ≡ NoMemory → self.new.head.store ≡ self.old.head.store }
        ensures limits { self.new.head.limits ≡ self.old.head.limits }
        ensures busy { self.new.head.busy ≡ self.old.head.busy }
        ensures places { Begins self.old.places self.new.places }
    {
        let staged = self.table.stage_lent(&self.bounds, series);
        settle(&mut self.table, staged)
    }

    /// Takes one sample of the label set at this place, as `apply` does. Its labels are neither
    /// judged nor compared, and no memory is taken unless its list grows.
    pub fn apply_at(&mut self, place: usize, t: i64, word: Word) -> Verdict
        requires { place < length self.old.places }
        ensures verdict { result ≢ NoMemory → result
            ≡ (apply self.old.head.limits self.old.head.store
            (one_sample (slice_index_or self.old.places place []) t word)).verdict }
        ensures store { result ≢ NoMemory → self.new.head.store
            ≡ (apply self.old.head.limits self.old.head.store
            (one_sample (slice_index_or self.old.places place []) t word)).store }
        ensures no_memory { result ≡ NoMemory → self.new.head.store ≡ self.old.head.store }
        ensures limits { self.new.head.limits ≡ self.old.head.limits }
        ensures busy { self.new.head.busy ≡ self.old.head.busy }
        ensures places { Begins self.old.places self.new.places }
    {
        let staged = self.table.stage_placed(place, &[(word, t)]);
        settle(&mut self.table, staged)
    }

    /// Returns the place of the label set with these labels, if samples of it were taken last by
    /// `apply`. This takes no memory.
    pub fn place_of(&self, labels: &[(String, String)]) -> Option<usize>
        ensures { IfSome result (λ n. IsPlaced n (map text_label labels.now) self.now.places) }
    {
        self.table.last_place(labels)
    }

    /// Lets samples go from memory that are earlier than `before`, in milliseconds since the Unix
    /// epoch, as `Head::forget` does, if the head may forget. Returns what is left in memory.
    pub fn forget(&mut self, before: i64) -> InMemory
        ensures { self.new ≡ self.old }
    {
        if !self.table.forgets() {
            return InMemory::none();
        }
        self.table.forget(before)
    }

    /// Returns the head.
    pub fn into_head(self) -> Head<M>
        ensures { result ≡ self.head }
    {
        let PlacedHead {
            alloc,
            table,
            bounds,
            busy,
            memory,
        } = self;
        Head {
            alloc,
            table,
            bounds,
            busy,
            memory,
        }
    }
}
