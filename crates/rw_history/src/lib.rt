//! A list of what has happened, for contracts alone: it takes no bytes, and its methods do nothing
//! when the program runs.
#![tactic(auto)]

ghost use Rattle.std.specs.Prelude.{◌≡◌, List, [], ◌∷◌, ◌++◌};

mod record;

use crate::record::{Record, record_of};
use logbook::Opening;
use std::marker::Model;

/// The items so far, as a list that only contracts see. The items themselves are not kept, and may
/// be dropped or changed.
///
/// A history of what was written, sent or fed is as good as the clauses of its owner's methods:
/// each method that adds an item, or leaves the history alone, has to ensure so.
pub struct History<T> {
    items: Record<T>,
}

impl<T> Model for History<T> {
    ghost Value = { List T };

    ghost view = { λ h. h.items.log };
}

impl<T> History<T> {
    /// Returns an empty history.
    pub fn new() -> History<T>
        ensures { result ≡ [] }
    {
        History::of(&[])
    }

    /// Returns a history of the items of a slice, in order. A `History<u8>` so made stands for the
    /// bytes in an item of another history.
    pub fn of(items: &[T]) -> History<T>
        ensures { result ≡ items.now }
    {
        History {
            items: record_of::<&[T], T, Given>(&items),
        }
    }

    /// Appends `item`, which is borrowed and not kept.
    pub fn push(&mut self, item: &T)
        ensures { self.new ≡ self.old ++ item.now ∷ [] }
    {
        self.items = record_of::<(&Record<T>, &T), T, Pushed>(&(&self.items, item));
    }

    /// Appends the items of a slice, in order.
    pub fn extend(&mut self, items: &[T])
        ensures { self.new ≡ self.old ++ items.now }
    {
        self.items = record_of::<(&Record<T>, &[T]), T, Extended>(&(&self.items, items));
    }

    /// Returns a second history with the items of this one.
    pub fn again(&self) -> History<T>
        ensures { result ≡ self.now }
    {
        History {
            items: record_of::<Record<T>, T, Same>(&self.items),
        }
    }
}

impl<T> Drop for History<T> {
    fn drop(self) {
        let History { items: _ } = self;
    }
}

struct Given;

impl<'a, T> Opening<&'a [T], T> for Given {
    ghost log = { λ _ items. items.now };
}

struct Pushed;

impl<'a, T> Opening<(&'a Record<T>, &'a T), T> for Pushed {
    ghost log = { λ _ both. both.0.now.log ++ both.1.now ∷ [] };
}

struct Extended;

impl<'a, T> Opening<(&'a Record<T>, &'a [T]), T> for Extended {
    ghost log = { λ _ both. both.0.now.log ++ both.1.now };
}

struct Same;

impl<T> Opening<Record<T>, T> for Same {
    ghost log = { λ _ r. r.log };
}
