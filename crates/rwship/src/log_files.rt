//! The files of the log in a folder, and what is noted about them before they are read.

use rw_cli::LogDir;
use rw_log_folder::{
    FolderFault, Gap, Opened, SegmentFile, has_checkpoint, log_files, segment_files,
};
use rw_metrics::SendCounters;
use std::alloc::{AllocError, Global};
use std::io::IsTerminal;
use std::sync::Arc;

/// Returns the files of the log in a folder, which the counters count.
pub fn files_of(
    rt: &HostRuntime,
    dir: LogDir<'_>,
    counters: Option<&Arc<SendCounters, Global>>,
) -> Result<Vec<Opened<SegmentFile<HostRuntime>>>, FolderFault> {
    if dir.from_checkpoint {
        log_files(rt, dir.path, counters)
    } else {
        segment_files(rt, dir.path, counters)
    }
}

/// Returns whether a folder has a checkpoint that is skipped.
pub fn passes_checkpoint_over(rt: &HostRuntime, dir: LogDir<'_>) -> bool {
    !dir.from_checkpoint && has_checkpoint(rt, dir.path)
}

/// Reports that a checkpoint is skipped, if one is.
pub fn note_checkpoint(rt: &HostRuntime, dir: LogDir<'_>) {
    if passes_checkpoint_over(rt, dir) {
        let _ = eprintln!(rt;
            "rwship: the newest checkpoint is not read; give --checkpoint to read it"
        );
    }
}

/// Reports that a folder has no segment, if that is asked for, or on a terminal.
pub fn note_empty(rt: &HostRuntime, dir: LogDir<'_>, is_asked_for: bool) {
    if is_asked_for || rt.stderr().is_terminal() {
        let path = dir.path;
        let _ = eprintln!(rt;
            "rwship: no segment in {path} (names of one to eight digits); is it the folder 'wal' of Prometheus?"
        );
    }
}

/// Says which segments of a folder are missing.
fn print_missing(rt: &HostRuntime, dir: LogDir<'_>, gap: Gap) {
    let path = dir.path;
    let Gap { first, last } = gap;
    let _ = if first < last {
        eprintln!(rt; "rwship: segments {first} to {last} are missing in {path}")
    } else {
        eprintln!(rt; "rwship: segment {first} is missing in {path}")
    };
}

/// Reports which segments are missing between two that are read, if that is asked for. Returns
/// whether some are.
pub fn note_gaps(
    rt: &HostRuntime,
    dir: LogDir<'_>,
    files: &[Opened<SegmentFile<HostRuntime>>],
    is_asked_for: bool,
) -> bool {
    let mut has_gap = false;
    for at in 1..files.len() {
        if let Some(gap) = files[at - 1].place().gap_before(files[at].place()) {
            has_gap = true;
            if is_asked_for {
                print_missing(rt, dir, gap);
            }
        }
    }
    has_gap
}

/// Returns the names of files of a log, in their order.
pub fn names_of(
    alloc: Global,
    files: &[Opened<SegmentFile<HostRuntime>>],
) -> Result<Vec<String>, AllocError> {
    let mut names = Vec::new(alloc);
    for file in files {
        names.push(String::from_str(alloc, file.place().name())?)?;
    }
    Ok(names)
}
