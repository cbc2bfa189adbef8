//! The engines of the commands `body`, `log`, `plan`, `replay`, `send` and `receive`. This crate
//! re-exports what the crates of the engines have.
#![tactic(auto)]

pub use rw_follow::{Segments, StopRequest, StopSignal, Watch};
pub use rw_log_commands::{run_body, run_log, run_log_dir, run_plan};
pub use rw_log_folder::{Folder, FolderFault, Gap, OpenSource, Opened, SegmentFile, segment_files};
pub use rw_metrics::{ReceiveCounters, SendCounters};
pub use rw_receive::{ServeUntil, Service, run_receive};
pub use rw_replay::run_replay;
pub use rw_send::{
    FollowFault, RefusalStop, RunFault, SendOptions, StopFlag, TcpConnect, UntilAborted,
    run_follow, run_send,
};
pub use rw_settings::{Settings, SettingsFault, read_settings};
pub use rw_text::ToolFault;
