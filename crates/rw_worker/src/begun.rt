//! Workers in threads of their own.

ghost use Rattle.std.specs.Prelude.{◌≡◌, IfOk, IfSome};
ghost use Rattle.rw_worker.specs.Report.{IsReport};

use crate::report::WorkerReport;
use crate::stop::StopFlag;
use crate::transport::{Pause, Transport};
use crate::worker::Worker;
use std::alloc::AllocError;
use std::snapshot::Snapshot;
use std::sync::Wait;
use std::thread;
use std::thread::{Promise, PromisedHandle, Threads};

/// What a worker began with, which its report refers to. It takes no bytes.
#[derive(Drop)]
pub struct Begun<T> {
    pub worker: Snapshot<Worker>,
    pub transport: Snapshot<T>,
    pub stop: Snapshot<StopFlag>,
}

impl<T: Transport> Promise<WorkerReport<T>> for Begun<T> {
    ghost use Rattle.std.specs.Prelude.{◌≡◌, IfSome};
    ghost use Rattle.rw_worker.specs.Report.{IsReport};

    ghost kept_by = { λ b r. IsReport T.tells T.seen b.worker.value b.transport.value r × IfSome r.stopped (λ stopped. stopped.flag ≡ b.stop.value) };
}

/// Runs a worker in its own thread. Its report comes when the thread is joined.
///
/// If memory runs out or no thread can be made, the worker and its end of the queue are dropped.
pub fn spawn<
    T: Transport + Send + Drop + 'static,
    P: Pause + Send + Drop + 'static,
    R: Threads + Wait + Copy + Send + 'static,
>(
    rt: &R,
    worker: Worker,
    transport: T,
    mut pause: P,
    stop: StopFlag,
) -> Result<PromisedHandle<WorkerReport<T>, Begun<T>>, AllocError>
    ensures worker { IfOk result (λ h. h.promise.worker.value ≡ worker) }
    ensures transport { IfOk result (λ h. h.promise.transport.value ≡ transport) }
    ensures stop { IfOk result (λ h. h.promise.stop.value ≡ stop) }
{
    let begun = Begun {
        worker: Snapshot::of(&worker),
        transport: Snapshot::of(&transport),
        stop: Snapshot::of(&stop),
    };
    let own = *rt;
    let handle = thread::spawn_with(
        rt,
        begun,
        move || -> WorkerReport<T>
            ensures report { IsReport T.tells T.seen worker transport result }
            ensures flag { IfSome result.stopped (λ stopped. stopped.flag ≡ stop) }
        { worker.run(&own, transport, &mut pause, &stop) },
    )?;
    Ok(handle)
}
