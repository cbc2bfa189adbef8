//! The machine of events, and the engines of the program.

use rw_sender::Connect;
use rw_tool::{
    Segments, ServeUntil, Service, ToolFault, Watch, run_body, run_follow, run_log, run_plan,
    run_receive, run_replay, run_send,
};
use rw_types::{Sink, Source};
use rw_world::{Event, How, Outcome, Piece, Refused, World};
use std::sync::Wait;
use std::thread::Threads;
use std::time::Clock;

/// The types of rw_world and rw_tool.
pub type Types<'a> = (
    (Event, How, Piece, World, Refused, Outcome),
    (ToolFault, Service<'a>, ServeUntil<'a>),
);

/// The steps of a world.
pub fn of_worlds() {
    let _ = World::new;
    let _ = World::step;
    let _ = World::run;
    let _ = World::settle;
    let _ = (World::promises, World::request);
}

/// What a world returns.
pub fn of_told_worlds() {
    let _ = (World::received, World::label_sets, World::filtered);
    let _ = (World::ledger, World::report);
}

/// The engines that read and write.
pub fn of_engines<R: Source, W: Sink>() {
    let _ = run_body::<R, W>;
    let _ = run_log::<R, W>;
    let _ = run_plan::<R, W>;
}

/// The engine that plays events.
pub fn of_replays<R: Source, W: Sink>() {
    let _ = run_replay::<R, W>;
}

/// The engine of a sender.
pub fn of_senders<
    R: Threads + Wait + Clock + Copy + Send + 'static,
    S: Source + Drop,
    C: Connect + Drop,
    W: Sink,
>() {
    let _ = run_send::<R, S, C, W>;
}

/// The engine of a receiver.
pub fn of_receivers<R: Threads + Wait + Clock + Sync, W: Sink>() {
    let _ = run_receive::<R, W>;
}

/// The engine that follows a log.
pub fn of_followed_logs<
    R: Threads + Wait + Clock + Copy + Send + 'static,
    S: Segments,
    C: Connect + Drop,
    W: Watch,
    K: Sink,
>() {
    let _ = run_follow::<R, S, C, W, K>;
}
