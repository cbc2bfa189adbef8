//! Why the log in a folder could not be read to its end, and what is printed about that.

use crate::output::{Output, has_output_failed, report_output_fault};
use crate::program_end::{print_device_error, report_follow_fault};
use rw_cli::LogDir;
use rw_inspect::fault_lines;
use rw_log_folder::FolderFault;
use rw_log_read::UnreadLog;
use rw_send::FollowFault;
use rw_text::ToolFault;
use rw_wal_tail::{Damage, FaultPlace, TailFault};
use std::alloc::AllocError;
use std::fs;
use std::io::{Error, Read};
use std::path::Path;
use std::process::ExitCode;

/// Why the log in a folder was not read to its end.
#[derive(Debug, Drop)]
pub struct LogReadFault {
    pub fault: FollowFault,
    /// The file that has a fault of the log, or that could not be read, by its path in the folder.
    pub file: Option<String>,
    /// The offset of a fault of the log in its file, in bytes.
    pub offset: u64,
}

impl From<FollowFault> for LogReadFault {
    fn from(fault: FollowFault) -> LogReadFault {
        LogReadFault {
            fault,
            file: None,
            offset: 0,
        }
    }
}

impl From<ToolFault> for LogReadFault {
    fn from(fault: ToolFault) -> LogReadFault {
        LogReadFault::from(FollowFault::Tool(fault))
    }
}

impl From<AllocError> for LogReadFault {
    fn from(_e: AllocError) -> LogReadFault {
        LogReadFault::from(ToolFault::OutOfMemory)
    }
}

impl From<UnreadLog> for LogReadFault {
    fn from(unread: UnreadLog) -> LogReadFault {
        LogReadFault::at_file(ToolFault::from(unread.error), unread.file)
    }
}

impl From<FolderFault> for LogReadFault {
    fn from(fault: FolderFault) -> LogReadFault {
        match fault {
            FolderFault::OutOfMemory => LogReadFault::from(ToolFault::OutOfMemory),
            FolderFault::Missing(number) => LogReadFault::from(FollowFault::Missing(number)),
            FolderFault::Unreadable => LogReadFault::from(ToolFault::Device),
            FolderFault::Closed(name) => LogReadFault::at_file(ToolFault::Device, Some(name)),
        }
    }
}

/// Returns the name at an index.
fn name_at(names: Vec<String>, at: u64) -> Option<String> {
    let mut names = names;
    if at >= names.len() as u64 {
        return None;
    }
    Some(names.swap_remove(at as usize))
}

impl LogReadFault {
    /// Returns a fault of a file.
    pub fn at_file(fault: ToolFault, file: Option<String>) -> LogReadFault {
        LogReadFault {
            fault: FollowFault::Tool(fault),
            file,
            offset: 0,
        }
    }

    /// Returns a fault at a place of a log whose segments have these names.
    pub fn at_place(names: Vec<String>, fault: FollowFault, place: FaultPlace) -> LogReadFault {
        LogReadFault {
            fault,
            file: name_at(names, place.segment),
            offset: place.offset,
        }
    }

    /// Returns the fault of a log with this damage, whose segments have these names.
    pub fn of_damage(names: Vec<String>, damage: Damage) -> LogReadFault {
        let fault = FollowFault::Tool(ToolFault::Log(damage.fault));
        match damage.place {
            Some(place) => LogReadFault::at_place(names, fault, place),
            None => LogReadFault::from(fault),
        }
    }
}

/// Prints lines, each after two spaces.
pub fn print_lines(rt: &HostRuntime, text: &[u8]) {
    if let Ok(text) = str::from_utf8(text) {
        for line in text.lines() {
            let _ = eprintln!(rt; "  {line}");
        }
    }
}

/// Returns the lines about a fault of the log in a folder, which is in this file at this offset.
fn spot_lines(
    rt: &HostRuntime,
    dir: LogDir<'_>,
    fault: TailFault,
    file: &str,
    offset: u64,
) -> Result<Vec<u8>, AllocError> {
    let path = Path::new(dir.path).join(rt.alloc(), file)?;
    let bytes = match fs::metadata(rt, path.as_path()) {
        Ok(metadata) => metadata.len(),
        Err(_) => offset,
    };
    fault_lines(rt.alloc(), fault, dir.may_compress, file, bytes, offset)
}

/// Returns what the system says of a file that could not be read.
fn read_error(rt: &HostRuntime, path: &str) -> Option<Error> {
    match fs::open(rt, path) {
        Ok(file) => {
            let mut file = file;
            file.read(&mut [0; 1]).err()
        }
        Err(error) => Some(error),
    }
}

/// Prints which file of a folder could not be read and, if it says so now, what the system says.
fn print_unread(rt: &HostRuntime, dir: LogDir<'_>, name: &str) -> Result<(), AllocError> {
    let path = Path::new(dir.path).join(rt.alloc(), name)?;
    let path = path.as_path().as_str();
    match read_error(rt, path) {
        Some(error) => print_device_error(rt, "read", path, &error),
        None => {
            let _ = eprintln!(rt; "  cannot read {path}");
        }
    }
    Ok(())
}

/// Prints what is wrong with the log in a folder that could not be read because of this fault. A
/// device that failed at no file is the folder.
fn explain(rt: &HostRuntime, dir: LogDir<'_>, fault: &LogReadFault) {
    match (fault.fault, &fault.file) {
        (FollowFault::Tool(ToolFault::Log(found)), Some(file)) => {
            if let Ok(lines) = spot_lines(rt, dir, found, file.as_str(), fault.offset) {
                print_lines(rt, &lines);
            }
        }
        (FollowFault::Tool(ToolFault::Device), Some(file)) => {
            let _ = print_unread(rt, dir, file.as_str());
        }
        (FollowFault::Tool(ToolFault::Device), None) => {
            if let Err(error) = fs::read_dir(rt, dir.path) {
                print_device_error(rt, "read", dir.path, &error);
            }
        }
        _ => {}
    }
}

/// Says in which folder a segment is missing, and what to do.
fn print_gap(rt: &HostRuntime, dir: LogDir<'_>) {
    let path = dir.path;
    let _ = eprintln!(rt;
        "  {path} has later segments; next: copy the missing one there, or start again if the server has removed it meanwhile"
    );
}

/// Prints the fault of the log in a folder and, if that is asked for, where it is or what is wrong
/// with the folder. Returns the exit status.
pub fn log_fault(
    rt: &HostRuntime,
    dir: LogDir<'_>,
    fault: &LogReadFault,
    is_explained: bool,
) -> ExitCode {
    let status = report_follow_fault(rt, fault.fault);
    match fault.fault {
        FollowFault::Tool(_) if is_explained => explain(rt, dir, fault),
        FollowFault::Missing(_) => print_gap(rt, dir),
        _ => {}
    }
    status
}

/// Reports as `log_fault` does why a run over the log in a folder has failed or, if that is why,
/// that standard output could not be written. Returns the exit status.
pub fn report_run_fault(
    rt: &HostRuntime,
    output: &mut Output,
    dir: LogDir<'_>,
    fault: &LogReadFault,
    is_explained: bool,
) -> ExitCode {
    if has_output_failed(output) {
        report_output_fault(rt, output, is_explained)
    } else {
        log_fault(rt, dir, fault, is_explained)
    }
}
