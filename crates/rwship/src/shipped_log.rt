//! The log that `send` ships: its files, a folder that grows, or what comes after a position.

use crate::log_fault::LogReadFault;
use crate::log_files::names_of;
use crate::output::Output;
use crate::resume::ResumedSegments;
use rw_follow::{Queue, Timed};
use rw_log_folder::{Folder, Opened, SegmentFile};
use rw_resume::{Keeping, PositionFault, PositionFile};
use rw_send::{
    FollowFault, KeepsPlaces, RunFault, SendOptions, TcpConnect, UntilAborted, run_follow, run_kept,
};
use rw_settings::Settings;
use rw_text::ToolFault;
use rw_wal_tail::FaultPlace;
use std::alloc::{AllocError, Global};
use std::sync::Wait;
use std::thread::Threads;
use std::time::Clock;

/// The log that is shipped.
pub enum ShippedLog {
    /// The files of the folder, and the watch that may end it early.
    Whole(Vec<Opened<SegmentFile<HostRuntime>>>, UntilAborted),
    /// The folder while it grows, and the watch that ends it.
    Growing(Folder<HostRuntime>, Timed<HostRuntime>),
    /// The folder from a position on, and the watch that ends it and keeps the position.
    Resumed(ResumedLog),
}

/// A log from a position on.
#[derive(Drop)]
pub struct ResumedLog {
    pub read: ResumedSegments,
    pub watch: Keeping<HostRuntime, Timed<HostRuntime>, PositionFile<HostRuntime>>,
    /// Whether the folder has no segment.
    pub has_nothing: bool,
    /// Whether segments are gone that were to be shipped next.
    pub is_gone: bool,
}

/// Returns why a run over the files of a folder, which have these names, ended, with the file of a
/// fault.
fn fault_of(
    alloc: Global,
    files: &Queue<Opened<SegmentFile<HostRuntime>>>,
    names: Vec<String>,
    ended: RunFault,
) -> Result<LogReadFault, AllocError> {
    let mut fault = match ended.place {
        Some(place) => return Ok(LogReadFault::at_place(names, ended.fault, place)),
        None => LogReadFault::from(ended.fault),
    };
    if let Some(file) = files.current() {
        fault.file = Some(String::from_str(alloc, file.place().name())?);
    }
    Ok(fault)
}

/// Returns the place in a folder of which the first segment comes after `before` others, and has
/// `base` bytes before those that are read of it.
fn place_in_folder(place: FaultPlace, before: u64, base: u64) -> FaultPlace {
    FaultPlace {
        segment: place.segment.saturating_sub(before),
        offset: if place.segment == before {
            place.offset.saturating_add(base)
        } else {
            place.offset
        },
    }
}

/// Returns why a run over a growing folder ended, with the file of a fault.
fn fault_in(
    alloc: Global,
    folder: Folder<HostRuntime>,
    fault: FollowFault,
    place: Option<FaultPlace>,
) -> Result<LogReadFault, AllocError> {
    let mut fault = LogReadFault::from(fault);
    let Some(place) = place else {
        fault.file = folder.into_unread();
        return Ok(fault);
    };
    if let Some(name) = folder.name_of(place.segment) {
        fault.file = Some(String::from_str(alloc, name)?);
        fault.offset = place.offset;
    }
    Ok(fault)
}

/// Reports that the position could not be kept in the file that `--resume` names, and returns that
/// fault.
fn report_unkept(rt: &HostRuntime, resume: Option<&str>, fault: PositionFault) -> LogReadFault {
    let path = resume.unwrap_or("FILE");
    let _ = eprintln!(rt;
        "rwship: the position was not kept in {path}: {fault}; next: see that its folder can be written"
    );
    match fault {
        PositionFault::OutOfMemory => LogReadFault::from(ToolFault::OutOfMemory),
        PositionFault::Failed => LogReadFault::from(ToolFault::Device),
    }
}

/// Ships a log from a position on, keeps the position in the file that `--resume` names, and prints
/// the report.
fn ship_resumed<R: Threads + Wait + Clock + Copy + Send + 'static>(
    rt: &HostRuntime,
    threads: &R,
    settings: Settings,
    log: ResumedLog,
    options: SendOptions<'_, TcpConnect<HostRuntime>>,
    resume: Option<&str>,
    output: &mut Output,
) -> Result<(), LogReadFault> {
    let alloc = rt.alloc();
    let ResumedLog {
        read,
        mut watch,
        ..
    } = log;
    let ResumedSegments {
        mut segments,
        before,
        base,
        ..
    } = read;
    let outcome = run_kept::<R, _, _, _, KeepsPlaces, _>(
        threads,
        alloc,
        settings,
        &mut segments,
        options,
        &mut watch,
        output,
    );
    match outcome {
        Ok(()) => match watch.fault() {
            Some(fault) => Err(report_unkept(rt, resume, fault)),
            None => Ok(()),
        },
        Err(ended) => {
            let folder = segments.into_then().into_then();
            let place = match ended.place {
                Some(place) => Some(place_in_folder(place, before, base)),
                None => None,
            };
            Err(fault_in(alloc, folder, ended.fault, place)?)
        }
    }
}

/// Ships a log, until its end or until a stop, and prints the report. `resume` is the file that
/// `--resume` names.
pub fn ship_log<R: Threads + Wait + Clock + Copy + Send + 'static>(
    rt: &HostRuntime,
    threads: &R,
    settings: Settings,
    log: ShippedLog,
    options: SendOptions<'_, TcpConnect<HostRuntime>>,
    resume: Option<&str>,
    output: &mut Output,
) -> Result<(), LogReadFault> {
    let alloc = rt.alloc();
    match log {
        ShippedLog::Whole(files, mut watch) => {
            let names = names_of(alloc, &files)?;
            let mut files = Queue::new(files);
            match run_follow(
                threads, alloc, settings, &mut files, options, &mut watch, output,
            ) {
                Ok(()) => Ok(()),
                Err(ended) => Err(fault_of(alloc, &files, names, ended)?),
            }
        }
        ShippedLog::Resumed(log) => {
            ship_resumed(rt, threads, settings, log, options, resume, output)
        }
        ShippedLog::Growing(mut folder, mut watch) => {
            match run_follow(
                threads,
                alloc,
                settings,
                &mut folder,
                options,
                &mut watch,
                output,
            ) {
                Ok(()) => Ok(()),
                Err(ended) => Err(fault_in(alloc, folder, ended.fault, ended.place)?),
            }
        }
    }
}
