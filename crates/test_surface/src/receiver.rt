//! The receiver: its head, alone and under a lock, and its endpoint.

use rw_recv_head::{
    AddedSeries, Admission, Admit, AllAdded, Blank, Block, Capacity, Head, HeldSeries, Holding,
    InMemory, LabelSets, Limits, Memory, Seat, SharedHead, Show, StagedHead, Verdict,
};
use rw_recv_http::{Answer, Asking, ServeEnd, serve};
use rw_types::{Sink, Source};
use std::sync::Wait;

/// The types of rw_recv_head and rw_recv_http.
pub type Types<'a, R, L> = (
    (Head, Limits, Verdict, LabelSets<'a>),
    (Capacity, Admission, StagedHead, AllAdded<'a>),
    (SharedHead<L>, Seat<L>, Asking<'a, R, L>, ServeEnd),
);

/// The calls of rw_recv_head.
pub fn of_heads<M: Memory>() {
    let _ = (Head::new, Head::samples, Head::label_sets, Head::series);
    let _ = (Head::sealed, Head::open);
    let _ = (Head::<M>::apply, Head::<M>::answer, Head::<M>::total);
    let _ = (Head::<M>::places, Head::<M>::stage, Head::<M>::admit);
    let _ = (Head::<M>::with_memory, Head::<M>::forget);
    let _ = Head::<M>::takeable;
    let _ = (M::forgets, InMemory::none);
    let _ = Head::<M>::conforms;
    let _ = (Block::samples, Capacity::unlimited);
    let _ = (HeldSeries::labels, HeldSeries::samples, Limits::standard);
}

/// The calls of a message that a head has staged, and of a head with a capacity.
pub fn of_staged_messages<M: Memory>() {
    let _ = (StagedHead::<M>::added, StagedHead::<M>::exceeds);
    let _ = (StagedHead::<M>::commit, StagedHead::<M>::abort);
    let _ = (AddedSeries::place, AddedSeries::labels);
    let _ = AddedSeries::copy_samples;
    let _ = (Admission::status, Admission::is_full);
}

/// The calls of a head under a lock.
pub fn of_shared_heads<R: Wait, L: Holding<H>, H: Admit>() {
    let _ = (Blank::new, Blank::with_capacity);
    let _ = (SharedHead::<L, H>::seats, SharedHead::<L, H>::gather);
    let _ = SharedHead::<L, H>::forget::<R>;
    let _ = (Seat::<L>::answer::<R, H>, Seat::<L>::ask::<R, H>);
    let _ = Seat::<L>::ask_partly::<R, H>;
    let _ = (H::admit, H::takeable, H::forget, H::total, H::places);
    let _ = Seat::<L>::stored;
}

/// The call of a head that shows what it holds.
pub fn of_shown_heads<H: Show>() {
    let _ = H::head;
}

/// The calls of rw_recv_http.
pub fn of_endpoints<R: Source, W: Sink, A: Answer>() {
    let _ = (A::answer, serve::<R, W, A>);
}
