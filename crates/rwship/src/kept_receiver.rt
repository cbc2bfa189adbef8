//! The command `receive` with a folder in which it keeps what it takes.

ghost use Rattle.std.specs.Prelude.{◌≡◌, [], IfOk};

use crate::live_report::is_watched;
use crate::output::{Output, report_output_fault};
use crate::program_end::report_result;
use rw_cli::Receiving;
use rw_head::{Memory, RecentSamples};
use rw_kept_folder::{
    FailedCall, FaultCause, FolderError, FolderJournal, FolderMonitor, FolderRules, OpenFolder,
    open_journal, refuse_running_server,
};
use rw_kept_head::{HeadReading, KeptHead, Oddities, OpenError, OpenedHead};
use rw_kept_log::{KeptLogDamage, ReopenError, whole_len};
use rw_metrics::ReceiveCounters;
use rw_receive::Received;
use rw_text::ToolFault;
use std::alloc::{AllocError, Global};
use std::fs::{File, TryLockError};
use std::io::{Error, Read};
use std::process::ExitCode;
use std::sync::Arc;
use std::{fs, io};

/// A log in the files of a folder.
pub type FolderLog = FolderJournal<OpenFolder<HostRuntime>>;

/// A head whose log is in the files of a folder.
pub type FolderHead = KeptHead<FolderLog>;

/// A head whose log is in the files of a folder, and that keeps only the latest samples in memory.
pub type RecentFolderHead = KeptHead<FolderLog, RecentSamples>;

/// The most pages of a segment: 128 MiB, as a segment of Prometheus has.
const PAGES: usize = 4096;

/// Why the log in a folder cannot be opened.
pub enum KeptLogError {
    /// Another receiver keeps samples there.
    InUse,
    /// The folder cannot be locked.
    Unlocked(Error),
    Folder(FolderError),
    /// The log is damaged, in the segment of this number.
    Damaged(KeptLogDamage, u64),
    /// The last segment, of this number, has a fault, and a whole record after it begins at this
    /// byte.
    RecordFollows(KeptLogDamage, u64, usize),
    Log(OpenError, Option<FailedCall>),
}

/// Returns why the last segment is not cut at its fault, if a whole record follows that.
fn doubt_of<M: Memory>(reading: &HeadReading<M>, journal: &FolderLog) -> Option<KeptLogError> {
    let (damage, at) = reading.record_after_fault()?;
    let number = journal.files().number_of(damage.place.segment);
    Some(KeptLogError::RecordFollows(damage, number, at))
}

/// Returns why the log in these files cannot be opened.
fn open_error(error: OpenError, files: &OpenFolder<HostRuntime>) -> KeptLogError {
    match error {
        OpenError::Log(ReopenError::Damaged(damage)) => {
            KeptLogError::Damaged(damage, files.number_of(damage.place.segment))
        }
        _ => KeptLogError::Log(error, files.fault()),
    }
}

/// Returns which folders the arguments let a receiver go on in.
fn rules_of(receiving: &Receiving<'_>) -> FolderRules {
    FolderRules {
        adopts: receiving.adopts,
        allows_missing_start: receiving.allows_missing_start,
    }
}

/// Returns the fault that stands for an error in the exit status.
fn fault_of(error: &KeptLogError) -> ToolFault {
    match error {
        KeptLogError::Folder(FolderError::OutOfMemory)
        | KeptLogError::Log(OpenError::Log(ReopenError::OutOfMemory), _) => ToolFault::OutOfMemory,
        KeptLogError::Damaged(damage, _) | KeptLogError::RecordFollows(damage, ..) => {
            ToolFault::from(damage.fault)
        }
        _ => ToolFault::Device,
    }
}

/// What to do if the reason of a failed call does not say it.
const MAKE_READABLE: &str =
    "make the folder and its files readable and writable, or choose another one";

/// What to do if no file can be opened.
const MORE_FILES: &str =
    "raise the limit of open files ('ulimit -n'), and start the receiver again";

const SEE_THE_DISK: &str = "see whether the disk is full or fails, and start the receiver again";

/// Returns what to do about a call on the files of a folder that failed for this reason.
fn step_after_cause(cause: FaultCause, otherwise: &'static str) -> &'static str {
    match cause {
        FaultCause::DiskFull => "make room on its disk, and start the receiver again",
        FaultCause::ReadOnly => "mount its file system for writing, and start the receiver again",
        FaultCause::NoPermission =>
            "let the user of the receiver read and write the folder and its files",
        FaultCause::TooManyFiles => MORE_FILES,
        _ => otherwise,
    }
}

/// Returns what to do if a folder cannot be used because of this error, or `None` if the text of
/// the error says so.
fn step_after_folder(error: &FolderError) -> Option<&'static str> {
    match error {
        FolderError::OutOfMemory
        | FolderError::ServerRuns
        | FolderError::LockUnreadable(_)
        | FolderError::NotReceived
        | FolderError::BesideServer
        | FolderError::OwnerUnknown(_)
        | FolderError::StartMissing(_) => None,
        FolderError::Missing(_) => {
            Some("copy the missing segment there, or move all after it out of the folder")
        }
        FolderError::Twice(_) => Some("move one of the two out of the folder"),
        FolderError::Checkpoint => {
            Some("choose a folder that no Prometheus has written to; an empty one will do")
        }
        FolderError::Unmarked(_) => {
            Some("make the folder writable, and room on its disk, or choose another one")
        }
        FolderError::Unreadable(cause) => Some(step_after_cause(*cause, MAKE_READABLE)),
        FolderError::Fault(fault) => Some(step_after_cause(fault.cause, MAKE_READABLE)),
    }
}

/// Returns what to do if a folder cannot be locked because of this error.
fn step_after_lock(error: &Error) -> &'static str {
    match error.raw_os_error() {
        Some(23 | 24) => MORE_FILES,
        _ => "see whether the folder exists and may be read; 'mkdir -p' makes one",
    }
}

/// Returns what to do if the log in a folder cannot be opened because of this error, or `None` if
/// the text of the error says so.
fn next_step(error: &KeptLogError) -> Option<&'static str> {
    match error {
        KeptLogError::InUse => Some("stop that one, or choose another folder"),
        KeptLogError::Unlocked(error) => Some(step_after_lock(error)),
        KeptLogError::Folder(error) => step_after_folder(error),
        KeptLogError::Log(OpenError::Foreign(_), None) => {
            Some("give the settings with which the folder was written, or another folder")
        }
        KeptLogError::Log(OpenError::NoReferenceLeft, None) => Some("choose another folder"),
        KeptLogError::Log(_, Some(fault)) => Some(step_after_cause(fault.cause, SEE_THE_DISK)),
        KeptLogError::RecordFollows(..) => Some(
            "after a power failure this may be the end of a write, and otherwise it is damage, which acknowledged samples follow: copy that segment, then give --cut-at-fault to cut it there, and start the sender again at once, without its FILE of --resume, so that it ships once more what its log still has",
        ),
        KeptLogError::Damaged(..) | KeptLogError::Log(..) => None,
    }
}

/// A folder in which a receiver keeps what it takes: what it opens there, and what it says of it.
#[derive(Clone, Copy)]
pub struct KeptFolder<'a> {
    rt: &'a HostRuntime,
    dir: &'a str,
    receiving: &'a Receiving<'a>,
    is_explained: bool,
}

impl<'a> KeptFolder<'a> {
    /// Returns the folder at a path. If `is_explained` says so, an output that fails is explained.
    pub fn new(
        rt: &'a HostRuntime,
        dir: &'a str,
        receiving: &'a Receiving<'a>,
        is_explained: bool,
    ) -> KeptFolder<'a> {
        KeptFolder {
            rt,
            dir,
            receiving,
            is_explained,
        }
    }

    /// Returns its path.
    pub fn dir(&self) -> &str {
        self.dir
    }

    /// Locks the folder until the file is dropped, so that no second receiver writes there.
    pub fn lock(&self) -> Result<File, KeptLogError> {
        let folder = match fs::open(self.rt, self.dir) {
            Ok(folder) => folder,
            Err(error) => return Err(KeptLogError::Unlocked(error)),
        };
        match folder.try_lock() {
            Ok(()) => Ok(folder),
            Err(TryLockError::WouldBlock) => Err(KeptLogError::InUse),
            Err(TryLockError::Error(error)) => Err(KeptLogError::Unlocked(error)),
        }
    }

    /// Opens the log in the folder, which is read into the head of `reading`. The counters count
    /// what is written to it.
    pub fn open<M: Memory>(
        &self,
        reading: Result<HeadReading<M>, AllocError>,
        counters: &Arc<ReceiveCounters, Global>,
    ) -> Result<OpenedHead<FolderLog, M>, KeptLogError>
        requires { IfOk reading (λ r. r.segments ≡ []) }
    {
        let (rt, dir, receiving) = (self.rt, self.dir, self.receiving);
        let Ok(counters) = Arc::try_clone(counters) else {
            return Err(KeptLogError::Folder(FolderError::OutOfMemory));
        };
        if let Err(error) = refuse_running_server(rt, dir) {
            return Err(KeptLogError::Folder(error));
        }
        let Ok(mut reading) = reading else {
            return Err(KeptLogError::Folder(FolderError::OutOfMemory));
        };
        let monitor = FolderMonitor::new(counters);
        let journal = match open_journal(rt, dir, rules_of(receiving), monitor, &mut reading) {
            Ok(journal) => journal,
            Err(error) => return Err(KeptLogError::Folder(error)),
        };
        if !receiving.cuts_at_fault {
            if let Some(error) = doubt_of(&reading, &journal) {
                return Err(error);
            }
        }
        match KeptHead::open(reading, journal, PAGES) {
            Ok(opened) => Ok(opened),
            Err((error, journal)) => Err(open_error(error, journal.files())),
        }
    }

    /// Returns the bytes of a segment.
    fn read_segment(&self, number: u64) -> io::Result<Vec<u8>> {
        let (alloc, dir) = (self.rt.alloc(), self.dir);
        let path = format!(in alloc; "{dir}/{number:08}")?;
        let mut file = fs::open(self.rt, path.as_str())?;
        let mut bytes = Vec::new(alloc);
        file.read_to_end(&mut bytes)?;
        Ok(bytes)
    }

    /// Says where the log is damaged, and where to cut it, if that segment can be read.
    fn print_damage(&self, damage: &KeptLogDamage, number: u64) {
        let (rt, dir) = (self.rt, self.dir);
        let (fault, at) = (damage.fault, damage.place.offset);
        let _ = eprintln!(rt;
            "  cannot keep samples in {dir}: {fault} in segment {number} at byte {at}"
        );
        let Ok(text) = self.read_segment(number) else {
            return;
        };
        let whole = whole_len(&text, at as usize);
        let _ = eprintln!(rt;
            "  next: copy {dir}/{number:08}, then cut it after its last whole record, 'truncate -s {whole} {dir}/{number:08}', and start the receiver and its sender again, the sender without its FILE of --resume; of that segment, what came after the cut is lost unless the sender's log still has it"
        );
    }

    /// Reports why the log in the folder cannot be opened, and what to do. Returns the exit status.
    pub fn report_error(&self, error: KeptLogError) -> ExitCode {
        let (rt, dir) = (self.rt, self.dir);
        let status = report_result(rt, Err(fault_of(&error)));
        let next = next_step(&error);
        let _ = match error {
            KeptLogError::InUse => eprintln!(rt; "  another receiver keeps samples in {dir}"),
            KeptLogError::Unlocked(error) => eprintln!(rt;
                "  cannot lock the folder {dir}: {error}"
            ),
            KeptLogError::Folder(error) => eprintln!(rt; "  cannot keep samples in {dir}: {error}"),
            KeptLogError::Log(OpenError::Foreign(at), None) => eprintln!(rt;
                "  cannot keep samples in {dir}: entry {at} of the log there is refused; rwship inspect --dir {dir} --at {at} prints it"
            ),
            KeptLogError::Log(_, Some(fault)) => {
                eprintln!(rt; "  cannot keep samples in {dir}: {fault}")
            }
            KeptLogError::Damaged(damage, number) => {
                self.print_damage(&damage, number);
                Ok(())
            }
            KeptLogError::RecordFollows(damage, number, at) => eprintln!(rt;
                "  cannot keep samples in {dir}: {} in segment {number} at byte {}, and a whole record follows at byte {at}",
                damage.fault, damage.place.offset
            ),
            KeptLogError::Log(error, None) => {
                eprintln!(rt; "  cannot keep samples in {dir}: {error}")
            }
        };
        if let Some(next) = next {
            let _ = eprintln!(rt; "  next: {next}");
        }
        status
    }

    /// Reports that the first segments are missing, if they are.
    fn report_missing_start<M: Memory>(&self, opened: &OpenedHead<FolderLog, M>) {
        let (rt, dir) = (self.rt, self.dir);
        let first = opened.kept.journal().files().number_of(0);
        if first > 0 && opened.segments > 0 {
            let _ = eprintln!(rt; "rwship: {dir} has no segment before segment {first}");
        }
    }

    /// Reports what was cut off the end of the log, and what to do.
    fn report_cut<M: Memory>(&self, opened: &OpenedHead<FolderLog, M>) {
        let (rt, dir) = (self.rt, self.dir);
        let torn = opened.end.torn.len();
        if torn == 0 {
            return;
        }
        let last = opened.segments.saturating_sub(1) as u64;
        let number = opened.kept.journal().files().number_of(last);
        let _ = eprintln!(rt;
            "rwship: the end of {dir} is not whole: {torn} bytes are cut off, and copied to {dir}/torn-{number:08}"
        );
        if let Some(at) = opened.end.follows {
            let _ = eprintln!(rt;
                "  a whole record follows the fault, at byte {at} of segment {number}"
            );
        }
        let _ = eprintln!(rt;
            "  next: if no crash and no failed write left them, they may hold acknowledged samples: start the sender again now, without its FILE of --resume, so that it ships them once more"
        );
    }

    /// Reports what the log has that one which this version began never has.
    fn report_oddities(&self, oddities: &Oddities) {
        let (rt, dir) = (self.rt, self.dir);
        let (repeated, passed) = (
            oddities.repeated_definitions,
            oddities.samples_without_series,
        );
        if repeated > 0 {
            let _ = eprintln!(rt;
                "rwship: the log in {dir} defines label sets again, {repeated} times, as an earlier version did at each start: a Prometheus over it answers only what follows the last definition"
            );
            let _ = eprintln!(rt;
                "  next: for a folder that a Prometheus can read, ship it to a receiver with a new one: rwship send --dir {dir}"
            );
        }
        if passed > 0 {
            let _ = eprintln!(rt;
                "rwship: {passed} samples in {dir} have no label set, and are not held"
            );
        }
    }

    /// Reports what the folder holds, if somebody may read that, and in any case what was cut off,
    /// and what is odd of its log.
    pub fn report_opened<M: Memory>(&self, opened: &OpenedHead<FolderLog, M>) {
        let (rt, dir, receiving) = (self.rt, self.dir, self.receiving);
        self.report_cut(opened);
        self.report_missing_start(opened);
        self.report_oddities(&opened.oddities);
        if is_watched(rt, &receiving.reporting) {
            let (head, segments) = (opened.kept.head(), opened.segments);
            let (samples, series) = (head.total(), head.places());
            let _ = eprintln!(rt;
                "rwship: {dir} holds {samples} samples of {series} series in {segments} segments"
            );
        }
    }

    /// Says why nothing more could be kept, and what to do.
    fn print_write_fault(&self, fault: FailedCall) {
        let (rt, dir) = (self.rt, self.dir);
        let _ = eprintln!(rt; "  cannot keep samples in {dir}: {fault}");
        let _ = eprintln!(rt;
            "  next: make room on its disk, or mend it, and start the receiver again; nothing acknowledged is lost"
        );
    }

    /// Reports how serving, printing what is held, and keeping ended. Returns the exit status.
    pub fn report_end<M: Memory>(
        &self,
        outcome: Result<Received<KeptHead<FolderLog, M>>, ToolFault>,
        output: &mut Output,
    ) -> ExitCode {
        let rt = self.rt;
        let Received { holder, printed } = match outcome {
            Ok(received) => received,
            Err(fault) => return report_result(rt, Err(fault)),
        };
        let status = match printed {
            Err(ToolFault::Device) => report_output_fault(rt, output, self.is_explained),
            Err(fault) => report_result(rt, Err(fault)),
            Ok(()) if holder.fault().is_none() => ExitCode::SUCCESS,
            Ok(()) => report_result(rt, Err(ToolFault::Device)),
        };
        if let Some(fault) = holder.journal().files().fault() {
            self.print_write_fault(fault);
        }
        status
    }
}
