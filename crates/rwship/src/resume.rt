//! The position at which `send --resume` goes on.

ghost use Rattle.std.specs.Prelude.{◌≡◌};
ghost use Rattle.std.specs.Process as process;

use crate::log_fault::{LogReadFault, log_fault};
use crate::program_end::{cut_off_status, print_device_error, report_result};
use rw_cli::LogDir;
use rw_kept_log::AppendError;
use rw_log_folder::{Folder, FolderFault, Gap, Opened, SegmentFile, log_files};
use rw_log_read::{Named, read_named};
use rw_metrics::SendCounters;
use rw_resume::{
    After, Continuation, Definitions, Midway, Passed, Position, PositionFile, find_continuation,
    front_for, pass_over, read_position, write_definitions,
};
use rw_text::ToolFault;
use rw_types::ReadFault;
use std::alloc::{AllocError, Global};
use std::fs;
use std::path::Path;
use std::process::ExitCode;
use std::sync::Arc;

/// The exit status for a file that names no position of the log.
const NOT_OF_LOG: u8 = 1;

/// Segments that are gone, and how many bytes of the first one were shipped.
#[derive(Clone, Copy)]
pub struct Gone {
    segments: Gap,
    bytes: u64,
}

/// Where a sender goes on.
#[derive(Drop)]
pub struct ResumePoint {
    /// The file in which the position is kept.
    pub file: PositionFile<HostRuntime>,
    /// The path of the folder with the log, as the file names it.
    pub log: String,
    /// The segment that is read first, or `None` to read from the newest checkpoint on.
    pub first: Option<u64>,
    /// How many bytes of that segment come before the position.
    pub bytes: u64,
    /// The definitions before that segment, as segments.
    pub definitions: Vec<Vec<u8>>,
    /// The segments that are gone before it.
    pub gone: Option<Gone>,
    /// Whether the folder has no segment.
    pub has_nothing: bool,
}

/// Why there is none.
#[derive(Drop)]
enum NoPoint {
    /// The log cannot be read.
    Log(LogReadFault),
    /// What is wrong was reported, and this is the exit status.
    Reported(ExitCode),
}

impl From<AllocError> for NoPoint {
    fn from(_e: AllocError) -> NoPoint {
        NoPoint::Log(LogReadFault::from(ToolFault::OutOfMemory))
    }
}

impl From<LogReadFault> for NoPoint {
    fn from(fault: LogReadFault) -> NoPoint {
        NoPoint::Log(fault)
    }
}

type Files = Vec<Opened<SegmentFile<HostRuntime>>>;

/// The numbers of the files of a log.
#[derive(Drop)]
struct Numbers {
    checkpoint: Option<u64>,
    segments: Vec<u64>,
}

/// Returns the numbers of the files of a log.
fn numbers_of(alloc: Global, files: &Files) -> Result<Numbers, AllocError> {
    let mut numbers = Numbers {
        checkpoint: None,
        segments: Vec::new(alloc),
    };
    for file in files {
        let file = file.place();
        if file.is_of_checkpoint() {
            numbers.checkpoint = Some(file.number());
        } else {
            numbers.segments.push(file.number())?;
        }
    }
    Ok(numbers)
}

/// Returns the last number of a log, if it has one.
fn last_of(numbers: &Numbers) -> Option<u64> {
    match numbers.segments.last() {
        Some(number) => Some(*number),
        None => numbers.checkpoint,
    }
}

/// A command `send` that goes on where it was.
#[derive(Clone, Copy)]
struct Resuming<'a> {
    rt: &'a HostRuntime,
    dir: LogDir<'a>,
    /// The path of the file with the position.
    path: &'a str,
}

impl Resuming<'_> {
    /// Reports that the file does not fit the log, and what to do.
    fn refuse(&self, what: &str) -> NoPoint {
        let path = self.path;
        let _ = eprintln!(self.rt;
            "rwship: {path} {what}; next: give the right FILE, or remove it to ship the whole log again"
        );
        NoPoint::Reported(ExitCode::from(NOT_OF_LOG))
    }

    /// Returns the path of the folder with the log.
    fn log(&self) -> Result<String, NoPoint> {
        match fs::canonicalize(self.rt, self.dir.path) {
            Ok(path) => Ok(String::from_str(self.rt.alloc(), path.as_path().as_str())?),
            Err(error) => {
                let status = report_result(self.rt, Err(ToolFault::Device));
                print_device_error(self.rt, "read", self.dir.path, &error);
                Err(NoPoint::Reported(status))
            }
        }
    }

    /// Returns the text in the file, if the file exists.
    fn text(&self, file: &PositionFile<HostRuntime>) -> Result<Option<Vec<u8>>, NoPoint> {
        match file.read() {
            Ok(text) => Ok(text),
            Err(error) => {
                let status = report_result(self.rt, Err(ToolFault::Device));
                print_device_error(self.rt, "read", self.path, &error);
                Err(NoPoint::Reported(status))
            }
        }
    }

    /// Returns the position that the file names, if the file exists.
    fn position(
        &self,
        file: &PositionFile<HostRuntime>,
        log: &str,
    ) -> Result<Option<Position>, NoPoint> {
        let Some(text) = self.text(file)? else {
            return Ok(None);
        };
        let Some(position) = read_position(self.rt.alloc(), &text)? else {
            return Err(self.refuse("is damaged, or no file of 'send --resume'"));
        };
        if position.log.as_str() != log {
            let other = position.log.as_str();
            let what = format!(in self.rt.alloc(); "is of the log in {other}, not in {log}")?;
            return Err(self.refuse(&what));
        }
        Ok(Some(position))
    }

    /// Returns the files of the log, from its newest checkpoint on.
    fn files(&self) -> Result<Files, NoPoint> {
        match log_files(self.rt, self.dir.path, None) {
            Ok(files) => Ok(files),
            Err(fault) => Err(NoPoint::Log(LogReadFault::from(fault))),
        }
    }

    /// Reports that the log ends before the position.
    fn ended(&self, numbers: &Numbers, segment: u64) -> Result<NoPoint, AllocError> {
        let alloc = self.rt.alloc();
        let what = match last_of(numbers) {
            Some(last) => {
                format!(in alloc; "names segment {segment}, but the log ends with segment {last}")?
            }
            None => format!(in alloc; "names segment {segment}, but the log has no segment")?,
        };
        Ok(self.refuse(&what))
    }

    /// Returns the definitions in the files before a segment, as segments.
    fn definitions(&self, files: Files, segment: u64) -> Result<Vec<Vec<u8>>, LogReadFault> {
        let alloc = self.rt.alloc();
        let mut before = Vec::new(alloc);
        let mut names = Vec::new(alloc);
        for source in files {
            if source.place().number() < segment {
                let name = String::from_str(alloc, source.place().name())?;
                names.reserve(1)?;
                names.push_reserved(name.clone()?);
                before.reserve(1)?;
                before.push_reserved(Named { name, source });
            }
        }
        let (read, found) = read_named(
            alloc,
            before,
            self.dir.may_compress,
            Definitions::new(alloc),
        )?;
        if let Some(damage) = read.damage {
            return Err(LogReadFault::of_damage(names, damage));
        }
        Ok(texts_of(alloc, &found)?)
    }
}

/// Returns definitions as segments.
fn texts_of(alloc: Global, found: &Definitions) -> Result<Vec<Vec<u8>>, AllocError> {
    match write_definitions(alloc, found.found()) {
        Ok(segments) => Ok(segments),
        Err(AppendError::OutOfMemory | AppendError::SegmentFull | AppendError::RecordTooLong) => {
            Err(AllocError)
        }
    }
}

/// A log from a position on.
#[derive(Drop)]
pub struct ResumedSegments {
    /// The definitions before it, and then the segments of the folder.
    pub segments: After<Midway<Folder<HostRuntime>>>,
    /// How many segments there are with definitions.
    pub before: u64,
    /// How many bytes of the first segment of the folder come before those that are read of it.
    pub base: u64,
    /// The position, if the folder is read from a segment on: its number, and how many bytes of it
    /// come before.
    pub place: Option<(u64, u64)>,
}

/// Where a log is read from, once the bytes before a position were passed over.
#[derive(Drop)]
struct Begun {
    folder: Midway<Folder<HostRuntime>>,
    definitions: Vec<Vec<u8>>,
    bytes: u64,
    base: u64,
}

/// Opens the folder with a log, from its newest checkpoint on or from a segment on.
#[derive(Clone, Copy)]
struct Opening<'a> {
    rt: &'a HostRuntime,
    dir: LogDir<'a>,
    counters: &'a Arc<SendCounters, Global>,
}

impl Opening<'_> {
    /// Returns the folder from this segment on, or from its newest checkpoint on.
    fn folder(&self, first: Option<u64>) -> Result<Folder<HostRuntime>, AllocError> {
        let path = String::from_str(self.rt.alloc(), self.dir.path)?;
        let counters = Arc::try_clone(self.counters)?;
        Ok(match first {
            Some(first) => Folder::from_segment(*self.rt, path, first, counters),
            None => Folder::from_checkpoint(*self.rt, path, counters),
        })
    }

    /// Passes this many bytes of a segment over, if what comes after them can be read.
    fn begin_within(&self, first: Option<u64>, bytes: u64) -> Result<Option<Begun>, FolderFault> {
        let alloc = self.rt.alloc();
        let Some(front) = front_for(alloc, bytes)? else {
            return Ok(None);
        };
        let mut folder = self.folder(first)?;
        let mut found = Definitions::new(alloc);
        match pass_over(alloc, &mut folder, bytes, self.dir.may_compress, &mut found) {
            Ok(Passed::Record) => {
                let base = bytes.saturating_sub(front.len() as u64);
                Ok(Some(Begun {
                    folder: Midway::new(front, bytes, folder),
                    definitions: texts_of(alloc, &found)?,
                    bytes,
                    base,
                }))
            }
            Ok(Passed::Within | Passed::Short(_)) => Ok(None),
            Err(ReadFault::OutOfMemory) => Err(FolderFault::OutOfMemory),
            Err(ReadFault::Failed) => match folder.into_unread() {
                Some(name) => Err(FolderFault::Closed(name)),
                None => Err(FolderFault::Unreadable),
            },
        }
    }

    /// Returns the folder from a position on. If nothing can be read from there on, it is read from
    /// the beginning of the segment.
    fn begin(&self, first: Option<u64>, bytes: u64) -> Result<Begun, FolderFault> {
        if bytes > 0 {
            if let Some(begun) = self.begin_within(first, bytes)? {
                return Ok(begun);
            }
        }
        let alloc = self.rt.alloc();
        Ok(Begun {
            folder: Midway::new(Vec::new(alloc), 0, self.folder(first)?),
            definitions: Vec::new(alloc),
            bytes: 0,
            base: 0,
        })
    }
}

/// Returns the log in a folder from a position on: after this many bytes of the segment of this
/// number, or from the newest checkpoint on. These are the definitions before that segment.
pub fn resumed_segments(
    rt: &HostRuntime,
    dir: LogDir<'_>,
    first: Option<u64>,
    bytes: u64,
    definitions: Vec<Vec<u8>>,
    counters: &Arc<SendCounters, Global>,
) -> Result<ResumedSegments, FolderFault> {
    let Begun {
        folder,
        definitions: within,
        bytes,
        base,
    } = (Opening { rt, dir, counters }).begin(first, bytes)?;
    let mut texts = definitions;
    for text in within {
        texts.reserve(1)?;
        texts.push_reserved(text);
    }
    let before = texts.len() as u64;
    let place = match first {
        Some(first) => Some((first, bytes)),
        None => None,
    };
    Ok(ResumedSegments {
        segments: After::new(texts, folder),
        before,
        base,
        place,
    })
}

/// Reports which segments are gone.
pub fn print_gone(rt: &HostRuntime, dir: LogDir<'_>, gone: Gone) {
    let path = dir.path;
    let Gone {
        segments: Gap { first, last },
        bytes,
    } = gone;
    let _ = match (first < last, bytes > 0) {
        (true, false) => eprintln!(rt;
            "rwship: segments {first} to {last} are gone from {path}, and were not shipped"
        ),
        (false, false) => {
            eprintln!(rt; "rwship: segment {first} is gone from {path}, and was not shipped")
        }
        (true, true) => eprintln!(rt;
            "rwship: segments {first} to {last} are gone from {path}; of the first, {bytes} bytes were shipped"
        ),
        (false, true) => eprintln!(rt;
            "rwship: segment {first} is gone from {path}; {bytes} bytes of it were shipped"
        ),
    };
}

impl Resuming<'_> {
    /// Fails if a segment has fewer bytes than come before the position.
    fn check_len(&self, files: &Files, segment: u64, bytes: u64) -> Result<(), NoPoint> {
        for file in files {
            let file = file.place();
            if file.number() == segment && !file.is_of_checkpoint() {
                let path = Path::new(self.dir.path).join(self.rt.alloc(), file.name())?;
                if let Ok(metadata) = fs::metadata(self.rt, path.as_path()) {
                    let len = metadata.len();
                    if len < bytes {
                        let what = format!(in self.rt.alloc();
                            "names byte {bytes} of segment {segment}, which has {len} bytes"
                        )?;
                        return Err(self.refuse(&what));
                    }
                }
            }
        }
        Ok(())
    }

    /// Returns where the sender goes on if the file names this position.
    fn point_at(
        &self,
        file: PositionFile<HostRuntime>,
        position: Position,
    ) -> Result<ResumePoint, NoPoint> {
        let Position {
            log,
            segment,
            bytes,
        } = position;
        let files = self.files()?;
        let numbers = numbers_of(self.rt.alloc(), &files)?;
        let (gone, first) = match find_continuation(
            segment,
            numbers.checkpoint,
            &numbers.segments,
        ) {
            Continuation::Ended => return Err(self.ended(&numbers, segment)?),
            Continuation::There => (None, Some(segment)),
            Continuation::Gone { first, last } if numbers.checkpoint == Some(last) => {
                (Some(Gap { first, last }), None)
            }
            Continuation::Gone { first, last } => (
                Some(Gap { first, last }),
                Some(last.saturating_add(1)),
            ),
        };
        if gone.is_none() {
            self.check_len(&files, segment, bytes)?;
        }
        let definitions = match first {
            Some(first) => self.definitions(files, first)?,
            None => Vec::new(self.rt.alloc()),
        };
        let (bytes, gone) = match gone {
            Some(segments) => (0, Some(Gone { segments, bytes })),
            None => (bytes, None),
        };
        Ok(ResumePoint {
            file,
            log,
            first,
            bytes,
            definitions,
            gone,
            has_nothing: false,
        })
    }

    /// Returns where the sender goes on.
    fn point(&self) -> Result<ResumePoint, NoPoint> {
        let log = self.log()?;
        let file = PositionFile::new(*self.rt, self.path)?;
        match self.position(&file, &log)? {
            Some(position) => self.point_at(file, position),
            None => Ok(ResumePoint {
                file,
                log,
                first: None,
                bytes: 0,
                definitions: Vec::new(self.rt.alloc()),
                gone: None,
                has_nothing: self.files()?.is_empty(),
            }),
        }
    }
}

/// Returns where a sender of the log in a folder goes on by the file at a path. If the file does
/// not fit the log, or the log before the position cannot be read, it reports why, and returns the
/// exit status.
pub fn resume_point(
    rt: &HostRuntime,
    dir: LogDir<'_>,
    path: &str,
    is_explained: bool,
) -> Result<ResumePoint, ExitCode> {
    match (Resuming { rt, dir, path }).point() {
        Ok(point) => Ok(point),
        Err(NoPoint::Reported(status)) => Err(status),
        Err(NoPoint::Log(fault)) => Err(log_fault(rt, dir, &fault, is_explained)),
    }
}

/// Returns the exit status of a run that could not ship segments since they are gone.
pub fn gone_status() -> ExitCode
    ensures { process.exit_status result ≡ 4 }
{
    cut_off_status()
}
