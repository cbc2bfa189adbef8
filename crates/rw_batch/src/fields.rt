//! The fields of samples in the canonical spelling of their message.

ghost use Rattle.std.specs.Prelude.{◌≡◌, ◌<◌, ◌≤◌, [], ◌∷◌, ◌++◌, length, Some, slice_get, slice_range, IfOk};
ghost use Rattle.std.specs.List.{AllByRecursion};
ghost use Rattle.rw_write_request.specs.Canon.{sample_field, sample_fields};
ghost use Rattle.rw_write_request.specs.Message.{Sample};
ghost use Rattle.rw_write_request.specs.Valid.{IsValidSample};
ghost use Rattle.rw_batch.specs.inner.Kept.{field_at};

use rw_history::History;
use rw_types::Word;
use rw_write_request::put_sample_field;
use std::alloc::{AllocError, Global};
use std::marker::Model;

/// The most bytes of a sample's field.
const MOST_BYTES: usize = 22;

/// The fields of samples, one after the other, in room that was made before.
#[derive(Drop)]
pub(crate) struct Fields {
    room: usize,
    bytes: Vec<u8>,
    /// Where each field begins, and where the last one ends.
    marks: Vec<usize>,
    samples: History<(Word, i64)>,
}

impl Model for Fields {
    ghost use Rattle.rw_batch.specs.inner.Kept.{Fielded, AreFields};

    ghost Value = { Fielded };

    ghost view = { λ f. record { room = f.room; samples = f.samples } };

    ghost invariant = { λ f. AreFields f.room f.bytes f.marks f.samples };
}

/// Returns a part of the bytes.
fn part(bytes: &[u8], start: usize, end: usize) -> &[u8]
    requires start { start ≤ end }
    requires end { end ≤ length bytes.now }
    ensures { result.now ≡ slice_range bytes.now start end }
{
    &bytes[start..end]
}

impl Fields {
    /// Returns an empty list of fields, with room for those of `room` samples.
    pub(crate) fn new(alloc: Global, room: usize) -> Result<Fields, AllocError>
        requires { room ≤ 10000 }
        ensures { IfOk result (λ f. f ≡ record { room = room; samples = [] }) }
    {
        let mut marks = Vec::with_capacity(alloc, room + 1)?;
        marks.push_reserved(0usize);
        Ok(Fields {
            room,
            bytes: Vec::with_capacity(alloc, MOST_BYTES * room)?,
            marks,
            samples: History::new(),
        })
    }

    /// Writes the field of one more sample, and returns how many bytes it takes.
    pub(crate) fn push(&mut self, word: Word, t: i64) -> usize
        requires { length self.old.samples < self.old.room }
        ensures fields { self.new
            ≡ record self.old { samples = self.old.samples ++ (word, t) ∷ [] } }
        ensures bytes { result ≡ length (sample_fields ((word, t) ∷ [])) }
    {
        let start = self.bytes.len();
        put_sample_field(&mut self.bytes, word, t);
        self.marks.push_reserved(self.bytes.len());
        self.samples.push(&(word, t));
        self.bytes.len() - start
    }

    /// Returns how many fields there are.
    pub(crate) fn len(&self) -> usize
        ensures len { result ≡ length self.now.samples }
        ensures valid { AllByRecursion IsValidSample self.now.samples }
    {
        self.marks.len() - 1
    }

    /// Returns the field of sample number `k`.
    pub(crate) fn get(&self, k: usize) -> &[u8]
        requires { k < length self.now.samples }
        ensures field { result.now ≡ field_at self.now.samples k }
        ensures sample { (s : Sample) → slice_get self.now.samples k ≡ Some s
            → result.now ≡ sample_field s }
    {
        part(&self.bytes, self.marks[k], self.marks[k + 1])
    }
}
