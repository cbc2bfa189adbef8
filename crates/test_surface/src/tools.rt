//! What the engines of the program take: folders, connections, counters, settings, stop signals.

use rw_tool::{
    Folder, OpenSource, Opened, ReceiveCounters, RefusalStop, SegmentFile, Segments, SendCounters,
    SettingsFault, StopSignal, TcpConnect, ToolFault, UntilAborted, Watch, read_settings,
    run_log_dir, segment_files,
};
use rw_types::Source;
use std::alloc::{AllocGlobal, Global};
use std::fs::File;
use std::net::{Net, TcpStream};
use std::rt::Files;
use std::time::Clock;

/// The calls of settings, faults and stop signals.
pub fn of_settings() {
    let _ = (read_settings, SettingsFault::number);
    let _ = ToolFault::exit_status;
    let _ = (
        StopSignal::new,
        StopSignal::request,
        StopSignal::finish,
        StopSignal::abort,
    );
}

/// The engine that writes a folder.
pub fn of_written_folders<F: Files, R: Source>(
    rt: &F,
    alloc: Global,
    reader: &mut R,
    dir: &str,
) -> Result<(), ToolFault> {
    run_log_dir(rt, alloc, reader, dir, 4_096)
}

/// The calls of folders of segments.
pub fn of_folders<R: Files<File = File> + AllocGlobal + Copy>() {
    let _ = (
        Folder::<R>::new,
        Folder::<R>::name_of,
        Folder::<R>::into_unread,
        Folder::<R>::from_checkpoint,
        Folder::<R>::from_segment,
        Folder::<R>::number,
        segment_files::<R>,
    );
    let _ = (SegmentFile::<R>::name, SegmentFile::<R>::gap_before);
    let _ = (SegmentFile::<R>::number, SegmentFile::<R>::is_of_checkpoint);
}

/// The calls of what the engines are given.
pub fn of_given<
    O: OpenSource,
    S: Segments,
    W: Watch,
    N: Net<Stream = TcpStream> + Clock + Files + AllocGlobal + Copy,
>() {
    let _ = (O::open, Opened::<O>::place, S::advance);
    let _ = (
        W::stop_request,
        W::sleep,
        W::is_flush_due,
        W::is_reshard_due,
    );
    let _ = TcpConnect::<N>::new;
    let _ = TcpConnect::<N>::with_snappy;
    let _ = TcpConnect::<N>::with_name;
    let _ = TcpConnect::<N>::with_refusal_stop;
    let _ = TcpConnect::<N>::with_asked_pause;
    let _ = (TcpConnect::<N>::with_give_up, TcpConnect::<N>::with_fields);
    let _ = (RefusalStop::new, RefusalStop::refusal);
    let _ = UntilAborted::new;
}

/// The counters of a receiver.
pub fn of_receive_counters() {
    let _ = (ReceiveCounters::new, ReceiveCounters::numbers);
    let _ = ReceiveCounters::begin_connection;
    let _ = ReceiveCounters::end_connection;
    let _ = ReceiveCounters::refuse_connection;
    let _ = (ReceiveCounters::answer, ReceiveCounters::hold_label_sets);
    let _ = ReceiveCounters::begin_with;
    let _ = (ReceiveCounters::set_limits, ReceiveCounters::of_kept_log);
    let _ = (
        ReceiveCounters::of_recent_log,
        ReceiveCounters::hold_in_memory,
    );
    let _ = (ReceiveCounters::write_log, ReceiveCounters::sync_log);
    let _ = (
        ReceiveCounters::begin_log_segment,
        ReceiveCounters::fail_log,
        ReceiveCounters::find_log_segments,
        ReceiveCounters::read_log_segment,
    );
    let _ = (ReceiveCounters::skip_parts, ReceiveCounters::refuse_body);
    let _ = ReceiveCounters::refuse_samples;
    let _ = ReceiveCounters::answer_unasked;
    let _ = (
        ReceiveCounters::wants_refusal,
        ReceiveCounters::set_refusal,
        ReceiveCounters::take_refusal,
    );
}

/// The counters of a sender: what was read and placed.
pub fn of_send_counters() {
    let _ = (SendCounters::new, SendCounters::numbers);
    let _ = SendCounters::without_readers;
    let _ = (SendCounters::keep_reply, SendCounters::last_reply);
    let _ = (SendCounters::doubt, SendCounters::unsure);
    let _ = (SendCounters::begin_segment, SendCounters::read_bytes);
    let _ = (SendCounters::set_folder_bytes, SendCounters::set_entries);
    let _ = (SendCounters::set_shards, SendCounters::set_load);
    let _ = (SendCounters::set_filtered, SendCounters::set_newest);
    let _ = (SendCounters::set_newest_segment, SendCounters::set_skipped);
    let _ = SendCounters::skipped;
}

/// The counters of a sender: what became of the samples.
pub fn of_resolved_counters() {
    let _ = (SendCounters::set_resolved, SendCounters::attempt);
    let _ = (SendCounters::drop_sample, SendCounters::drop_unsent);
    let _ = (SendCounters::dropped, SendCounters::fail);
    let _ = (SendCounters::acknowledge, SendCounters::refuse);
    let _ = SendCounters::succeed;
}
