// Which file or folder caused the fault `File`. The checks see the files as they are after the
// command has failed, so the answer is only advice, and a check that itself fails gives no cause.

use crate::paths::are_one_file;
use cli::{
    Command, DiskArgs, DrawArgs, MigrateArgs, ModelFile, NewArgs, RecoverArgs, RunArgs, SourceArgs,
    most_sectors,
};
use disk::{MOST_SECTORS, MOST_SECTORS_OF_LARGE, SystemError};
use std::fmt;
use std::fs::{self, File, Metadata, OpenOptions, TryLockError};
use std::io::{Error as IoError, ErrorKind};
use std::os::unix::fs::FileTypeExt;
use std::path::Path;
use std::rt::Files;
use texts::{LONGEST_MODEL_FILE, Printable};
use thiserror::Error;

/// A file or a folder of a command, and what is wrong with it. Its text cannot control a terminal.
#[derive(Clone, Copy, Debug, PartialEq, Eq)]
pub struct Cause<'a> {
    path: &'a str,
    /// What the name of the file has after that path.
    behind: &'static str,
    reason: Reason,
}

impl fmt::Display for Cause<'_> {
    fn fmt<W: fmt::Write>(&self, f: &mut fmt::Formatter<W>) -> fmt::Result {
        let (path, behind, reason) = (Printable(self.path), self.behind, self.reason);
        write!(f, "{path}{behind}: {reason}")
    }
}

/// What is wrong with a file or a folder.
#[derive(Clone, Copy, Debug, PartialEq, Eq, Error)]
enum Reason {
    #[error("there is no such file")]
    NoFile,
    #[error("this is a folder")]
    IsFolder,
    #[error("a disk is a plain file, and this is none")]
    NotPlain,
    #[error("it may not be read")]
    NotRead,
    #[error("it may not be written")]
    NotWritten,
    #[error("another run has it")]
    Taken,
    #[error("the system refuses the lock that keeps other runs out")]
    NotLocked,
    #[error("a disk has 8 to {most} sectors of 512 bytes, and this has {bytes} bytes")]
    NoDisk { bytes: u64, most: u32 },
    #[error("a disk of more than 131072 sectors is taken with --large alone")]
    Large,
    #[error("{sectors} sectors of 512 bytes are asked for, and this has {bytes} bytes")]
    OtherSize { bytes: u64, sectors: u32 },
    #[error("two paths of the command lead to this file")]
    OneFile,
    #[error("a model file has at most 16777216 bytes, and this has {0}")]
    LongModel(u64),
    #[error("its name with .unfinished-disk behind it, under which a disk is made, is too long")]
    LongName,
    #[error("{0}")]
    System(SystemError),
    #[error("not all of it may have been written: see that there is room")]
    NotWhole,
    #[error("there is no such folder")]
    NoFolder,
    #[error("this is no folder")]
    NotFolder,
    #[error("no file is made in this folder: it may not be written, or there is no room")]
    NotMade,
    #[error("a socket's path has at most 107 bytes, and here it has more")]
    LongPath,
    #[error("node{node} is there already: remove it, if no other run has it")]
    OldSocket { node: u32 },
    #[error(".timewarp-model, where the run puts the model for its node programs, is no plain file: \
             remove it")]
    NotText,
    #[error("no node program starts: {0}")]
    NotStarted(SystemError),
    #[error("no socket is made in this folder, or no node program starts or connects")]
    NotMet,
    #[error("no socket is made in this folder, or no node program starts or connects: with --bind each \
         is started by taskset, of util-linux")]
    NotBound,
    #[error("there is no such socket")]
    NoSocket,
    #[error("no run waits behind this socket")]
    NotHeard,
    #[error("a model file is a plain file or a pipe, and this is neither")]
    NotModel,
    #[error("a model file is read from this pipe, and it gives no bytes")]
    NoBytes,
    #[error("the file of this name with .unfinished-disk behind it is there, and it is none that a \
             killed command left, or another command has it: remove it if it is not yours")]
    OldUnfinished,
    #[error("this is no trace of a run, and nothing is written over it")]
    NotTrace,
    #[error("the file of this name with .unfinished-trace behind it is no trace of a run, and \
             nothing is written over it")]
    NotUnfinishedTrace,
    #[error("this file is there already, and the run would end at its first commit: remove it")]
    StopThere,
    #[error("this holds the header of a disk of format {format}, of {lps} processes with the end \
             {end}, and more behind it, and nothing is written over it: `reopen` opens a disk \
             whose gate is closed, and `new --over` makes an empty one of it")]
    HoldsHeader { format: u32, lps: u32, end: u64 },
    #[error("this holds records of a disk whose header is lost, and nothing is written over them: \
             `recover` copies what is good to another disk, and `new --over` makes an empty one \
             of it")]
    HoldsRecords,
    #[error("this holds other bytes than a disk without records, and nothing is written over them: \
             `new --over` makes an empty disk of it")]
    HoldsBytes,
    #[error("there is no such file: the disk keeps no model, as one does that `new --keep-model` or \
             `run --create --keep-model` makes; give the path of its model file")]
    KeepsNoModel,
    #[error("this holds something else than the model that the new disk would keep, and nothing is \
             written over it: remove it if no disk needs it")]
    KeepsOther,
    #[error("this is no beginning of the model that the new disk would keep, as a killed command leaves \
             it, and nothing is written over it: remove it if it is not yours")]
    KeepsOtherUnfinished,
    #[error("this name does not lead to the file of the run any more, which has all events before \
             {time} ticks")]
    Renamed { time: u64 },
}

/// Why a command refused a file by what it found there, or a run lost its disk. The files may not
/// show it after the command.
#[derive(Clone, Copy, Debug, PartialEq, Eq)]
pub enum FileRefusal {
    /// The file of a trace is no trace.
    Trace,
    /// The file under whose name a trace is made anew is no trace.
    UnfinishedTrace,
    /// A part of a trace was not written.
    CutTrace,
    /// The file that ends a run is there before the run.
    Stop,
    /// The file of a new disk is not empty.
    Holds(Held),
    /// The file of the model that a new disk would keep holds something else.
    KeptOther,
    /// The file under whose name that one is written holds something else.
    KeptUnfinished,
    /// The model that a new disk would keep is not written, by what the system says.
    NotKept(SystemError),
    /// The name of the disk of a run leads to another file by now, or to none. The file of the run
    /// has all events before this virtual time, in ticks.
    Renamed {
        /// The virtual time.
        time: u64,
    },
}

/// What a file holds that is not made a disk.
#[derive(Clone, Copy, Debug, PartialEq, Eq)]
pub enum Held {
    /// The header of a disk, whose gate is closed, and other bytes than zeros after it.
    Header {
        /// The format.
        format: u32,
        /// The number of processes.
        lps: u32,
        /// The end in the header, in ticks.
        end: u64,
    },
    /// No header, and a record after an open gate.
    Records,
    /// Other bytes.
    Bytes,
}

/// Why a run did not meet its node programs, or a node its run, by what the system says.
#[derive(Clone, Copy, Debug, PartialEq, Eq)]
pub enum Unmet {
    /// A call on a socket failed.
    Socket(SystemError),
    /// A node program does not start.
    Program(SystemError),
}

/// What a command does with a path.
#[derive(Clone, Copy)]
enum Step<'a> {
    /// Reads the file.
    Reads(&'a str),
    /// Reads a model file, unless its disk keeps the model.
    ReadsModel(ModelFile<'a>),
    /// Requires the first path to lead to another file than the second.
    AreTwoFiles(&'a str, &'a str),
    /// Reads a disk of at most this many sectors.
    LooksAt(&'a str, u32),
    /// Opens a disk of at most this many sectors for writing.
    Writes(&'a str, u32),
    /// Makes a disk of this many sectors, or takes an existing one.
    Makes(&'a str, u32),
    /// Makes the file of a trace, or empties an existing one.
    Traces(&'a str),
    /// Connects to the socket.
    Connects(&'a str),
}

/// The cause of the fault `File` with which this command ended, if one is found: the first in the
/// order in which the command takes its paths.
///
/// `noted` is the system's error at the opening of the disk that the command writes. It is the cause
/// if no other one is found, or if the disk could not be made for lack of room; what a run does
/// after its disk is open is then no cause. `unmet` is the system's error of the call that failed as
/// node programs or a run were met. It is the cause if the files say no more than that they were not
/// met.
pub fn cause_of<'a, R>(
    rt: &R,
    command: Command<'a>,
    noted: Option<SystemError>,
    unmet: Option<Unmet>,
) -> Option<Cause<'a>>
where
    R: Files<File = File> + AllocGlobal,
{
    let seen = seen_cause(rt, command, noted.is_some());
    if let Some(unmet) = unmet {
        return cause_of_unmet(command, seen, unmet);
    }
    match (seen, noted) {
        (None, Some(error)) => cause_of_device(command, error),
        (None, None) => cause_of_pipe(rt, command),
        (Some(cause), Some(error)) if cause.reason == Reason::NotMade && is_of_room(error) => {
            cause_of_device(command, error)
        }
        (Some(cause), _) if cause.reason == Reason::NotMade => {
            let unfinished = cause_of_unfinished(rt, command);
            if unfinished.is_some() {
                unfinished
            } else {
                seen
            }
        }
        _ => seen,
    }
}

/// The cause of the fault `File` with which a command refused a file, or lost its disk.
pub fn cause_of_refusal<'a>(command: Command<'a>, refusal: FileRefusal) -> Option<Cause<'a>> {
    let disk = written_disk(command);
    let (path, behind, reason) = match refusal {
        FileRefusal::Trace => (trace_of(command), "", Reason::NotTrace),
        FileRefusal::UnfinishedTrace => (trace_of(command), "", Reason::NotUnfinishedTrace),
        FileRefusal::CutTrace => (trace_of(command), "", Reason::NotWhole),
        FileRefusal::Stop => (stop_file_of(command), "", Reason::StopThere),
        FileRefusal::Holds(held) => (disk, "", reason_of_held(held)),
        FileRefusal::KeptOther => (disk, KEPT, Reason::KeepsOther),
        FileRefusal::KeptUnfinished => (disk, UNFINISHED, Reason::KeepsOtherUnfinished),
        FileRefusal::NotKept(error) => (disk, KEPT, Reason::System(error)),
        FileRefusal::Renamed { time } => (disk, "", Reason::Renamed { time }),
    };
    Some(Cause {
        path: path?,
        behind,
        reason,
    })
}

/// What the name of the model that a disk keeps has after that of the disk.
const KEPT: &str = ".model";

/// What the name has under which it is written.
const UNFINISHED: &str = ".unfinished-model";

/// The cause of the fault `File` of a command that reads the model that this disk keeps, if it lies
/// there.
pub fn cause_of_kept<'a, R>(rt: &R, disk: &'a str) -> Option<Cause<'a>>
where
    R: Files<File = File> + AllocGlobal,
{
    let path = format!(in rt.alloc(); "{disk}{KEPT}").ok()?;
    let reason = match reason_of_model(rt, path.as_str())? {
        Reason::NoFile => Reason::KeepsNoModel,
        reason => reason,
    };
    Some(Cause {
        path: disk,
        behind: KEPT,
        reason,
    })
}

/// Why a file is not made a disk.
fn reason_of_held(held: Held) -> Reason {
    match held {
        Held::Header { format, lps, end } => Reason::HoldsHeader { format, lps, end },
        Held::Records => Reason::HoldsRecords,
        Held::Bytes => Reason::HoldsBytes,
    }
}

/// The path of the trace that a run makes.
fn trace_of<'a>(command: Command<'a>) -> Option<&'a str> {
    match command {
        Command::Run(args) => args.trace,
        _ => None,
    }
}

/// The path of the file that ends a run.
fn stop_file_of<'a>(command: Command<'a>) -> Option<&'a str> {
    match command {
        Command::Run(args) => args.stop_file,
        _ => None,
    }
}

/// The cause where the model file is a pipe, and nothing else is found: it gave no bytes.
fn cause_of_pipe<'a, R>(rt: &R, command: Command<'a>) -> Option<Cause<'a>>
where
    R: Files<File = File>,
{
    let model = read_of(command)?;
    match fs::metadata(rt, model) {
        Ok(found) if found.file_type().is_fifo() => caused(model, Some(Reason::NoBytes)),
        _ => None,
    }
}

/// The cause where a disk is not made because of the file under whose name it would be made.
fn cause_of_unfinished<'a, R>(rt: &R, command: Command<'a>) -> Option<Cause<'a>>
where
    R: Files<File = File> + AllocGlobal,
{
    let disk = written_disk(command)?;
    let unfinished = format!(in rt.alloc(); "{disk}.unfinished-disk").ok()?;
    match fs::symlink_metadata(rt, unfinished.as_str()) {
        Ok(_) => caused(disk, Some(Reason::OldUnfinished)),
        Err(_) => None,
    }
}

/// The disk that a command writes, with what the system says of it. Returns none for a command that
/// writes no disk.
pub fn cause_of_device<'a>(command: Command<'a>, error: SystemError) -> Option<Cause<'a>> {
    caused(written_disk(command)?, Some(Reason::System(error)))
}

/// The cause where node programs or a run were not met, by what the files show and what the system
/// says.
fn cause_of_unmet<'a>(
    command: Command<'a>,
    seen: Option<Cause<'a>>,
    unmet: Unmet,
) -> Option<Cause<'a>> {
    match seen {
        Some(cause) if !says_less(cause.reason, unmet) => seen,
        _ => caused(path_of_sockets(command)?, Some(reason_of_unmet(unmet))),
    }
}

/// Whether this reason says less than the system does.
fn says_less(reason: Reason, unmet: Unmet) -> bool {
    match (reason, unmet) {
        (Reason::NotMet, _) => true,
        // it names the program that is missing
        (Reason::NotBound, Unmet::Program(error)) => error.kind() != ErrorKind::NotFound,
        (Reason::NotBound, Unmet::Socket(_)) => true,
        (Reason::NotHeard, Unmet::Socket(error)) => error.kind() != ErrorKind::ConnectionRefused,
        _ => false,
    }
}

/// What is wrong with the path of sockets, by what the system says.
fn reason_of_unmet(unmet: Unmet) -> Reason {
    match unmet {
        Unmet::Socket(error) => Reason::System(error),
        Unmet::Program(error) => Reason::NotStarted(error),
    }
}

/// The folder of the sockets of a run, or the socket of a node.
fn path_of_sockets<'a>(command: Command<'a>) -> Option<&'a str> {
    match command {
        Command::Run(args) => args.sockets,
        Command::Node(args) => Some(args.socket),
        _ => None,
    }
}

/// The path of the disk that a command writes.
fn written_disk<'a>(command: Command<'a>) -> Option<&'a str> {
    match command {
        Command::New(args) => Some(args.on.disk),
        Command::Run(args) => Some(args.on.disk),
        Command::Extend(args) | Command::Reopen(args) | Command::Cut(args) => Some(args.disk),
        Command::Grow(args) => Some(args.on.disk),
        Command::Migrate(args) => Some(args.new),
        Command::Recover(args) => Some(args.new),
        _ => None,
    }
}

/// The path of the model file that a command reads; none if it reads none.
fn read_of<'a>(command: Command<'a>) -> Option<&'a str> {
    let file = command.model()?;
    match file.kept_by {
        None => Some(file.path),
        Some(_) => None,
    }
}

/// Whether the system says that a file has no room, or may not have its size.
fn is_of_room(error: SystemError) -> bool {
    matches!(
        error.kind(),
        ErrorKind::StorageFull | ErrorKind::QuotaExceeded | ErrorKind::FileTooLarge
    )
}

/// The first cause that the paths of a command show. `has_failed_at_disk` says whether the system
/// refused a call on the disk.
fn seen_cause<'a, R>(rt: &R, command: Command<'a>, has_failed_at_disk: bool) -> Option<Cause<'a>>
where
    R: Files<File = File> + AllocGlobal,
{
    match command {
        Command::New(args) => first_of_new(rt, args),
        Command::Run(args) => first_of_run(rt, args, has_failed_at_disk),
        Command::Extend(args) => first_of_writer(rt, args),
        Command::Grow(args) => first_of_writer(rt, args.on),
        Command::Migrate(args) => first_of_migration(rt, args),
        Command::Reopen(args) => first_of_writer(rt, args),
        Command::Cut(args) => first_of_writer(rt, args),
        Command::Recover(args) => first_of_recovery(rt, args),
        Command::Status(args) => first_of_reader(rt, args.on),
        Command::Info(args) => first(rt, &[Step::LooksAt(args.disk, most_sectors(args.large))]),
        Command::Verify(args) => first_of_reader(rt, args.on),
        Command::Log(args) => first_of_reader(rt, args.on),
        Command::Show(args) => first_of_reader(rt, args.on),
        Command::Stats(args) => first_of_source(rt, args.of),
        Command::Draw(args) => first_of_drawing(rt, args),
        Command::Seq(args) => first(rt, &[Step::ReadsModel(args.model)]),
        Command::Check(args) => first(rt, &[Step::ReadsModel(args.model)]),
        Command::Node(args) => first(
            rt,
            &[Step::ReadsModel(args.model), Step::Connects(args.socket)],
        ),
    }
}

/// The first cause among these steps.
fn first<'a, R: Files<File = File>>(rt: &R, steps: &[Step<'a>]) -> Option<Cause<'a>> {
    for step in steps {
        let cause = cause_at(rt, *step);
        if cause.is_some() {
            return cause;
        }
    }
    None
}

/// The first cause of `new`.
fn first_of_new<'a, R: Files<File = File>>(rt: &R, args: NewArgs<'a>) -> Option<Cause<'a>> {
    let DiskArgs { model, disk, .. } = args.on;
    first(
        rt,
        &[
            Step::ReadsModel(model),
            Step::AreTwoFiles(disk, model.path),
            Step::Makes(disk, args.sectors),
        ],
    )
}

/// The first cause of `migrate`.
fn first_of_migration<'a, R>(rt: &R, args: MigrateArgs<'a>) -> Option<Cause<'a>>
where
    R: Files<File = File>,
{
    first(
        rt,
        &[
            Step::ReadsModel(args.model),
            Step::LooksAt(args.old, most_sectors(args.large)),
            Step::AreTwoFiles(args.new, args.model.path),
            Step::AreTwoFiles(args.new, args.old),
            Step::Makes(args.new, args.sectors),
        ],
    )
}

/// The first cause of `recover`, which takes the lock of the damaged disk.
fn first_of_recovery<'a, R>(rt: &R, args: RecoverArgs<'a>) -> Option<Cause<'a>>
where
    R: Files<File = File>,
{
    first(
        rt,
        &[
            Step::ReadsModel(args.model),
            Step::Writes(args.old, most_sectors(args.large)),
            Step::AreTwoFiles(args.new, args.model.path),
            Step::AreTwoFiles(args.new, args.old),
            Step::Makes(args.new, args.sectors),
        ],
    )
}

/// The first cause of a command that writes to a disk.
fn first_of_writer<'a, R: Files<File = File>>(rt: &R, args: DiskArgs<'a>) -> Option<Cause<'a>> {
    let most = most_sectors(args.large);
    first(
        rt,
        &[Step::ReadsModel(args.model), Step::Writes(args.disk, most)],
    )
}

/// The first cause of a command that reads a disk.
fn first_of_reader<'a, R: Files<File = File>>(rt: &R, args: DiskArgs<'a>) -> Option<Cause<'a>> {
    let most = most_sectors(args.large);
    first(
        rt,
        &[Step::ReadsModel(args.model), Step::LooksAt(args.disk, most)],
    )
}

/// The first cause of a command that reads a disk, if it takes one.
fn first_of_source<'a, R: Files<File = File>>(rt: &R, args: SourceArgs<'a>) -> Option<Cause<'a>> {
    let SourceArgs { model, disk, large } = args;
    match disk {
        None => first(rt, &[Step::ReadsModel(model)]),
        Some(disk) => first_of_reader(rt, DiskArgs { model, disk, large }),
    }
}

/// The first cause of `draw`. With a trace it reads no other file.
fn first_of_drawing<'a, R: Files<File = File>>(rt: &R, args: DrawArgs<'a>) -> Option<Cause<'a>> {
    match args.trace {
        None => first_of_source(rt, args.of),
        Some(trace) => first(rt, &[Step::Reads(trace)]),
    }
}

/// The first cause of `run`. A run that has failed at its disk has not failed to meet node programs.
/// The files of its trace are open as they were for the run, so that a limit of open files shows at
/// the file that met it.
fn first_of_run<'a, R>(rt: &R, args: RunArgs<'a>, has_failed_at_disk: bool) -> Option<Cause<'a>>
where
    R: Files<File = File> + AllocGlobal,
{
    let early = first_of_trace(rt, args);
    if early.is_some() {
        return early;
    }
    let _held = match held_of_trace(rt, args.trace) {
        Ok(held) => held,
        Err(error) => return caused(args.trace?, reason_of_refusal(error)),
    };
    let cause = first_of_begun(rt, args);
    if cause.is_some() || has_failed_at_disk {
        return cause;
    }
    last_of_run(rt, args)
}

/// Opens the file of a trace, if it is a plain one, as often as a run has files open for it: a trace
/// that is there already is made anew in a file beside it.
fn held_of_trace<R>(rt: &R, trace: Option<&str>) -> Result<(Option<File>, Option<File>), IoError>
where
    R: Files<File = File>,
{
    let Some(path) = trace else {
        return Ok((None, None));
    };
    let Ok(found) = fs::metadata(rt, path) else {
        return Ok((None, None));
    };
    if !found.is_file() {
        return Ok((None, None));
    }
    let file = OpenOptions::new().write(true).open(rt, path)?;
    let beside = if found.len() > 0 {
        Some(OpenOptions::new().write(true).open(rt, path)?)
    } else {
        None
    };
    Ok((Some(file), beside))
}

/// The first cause among the files with which a run begins. It makes its disk if that is asked for
/// and the disk's file is not there.
fn first_of_begun<'a, R: Files<File = File>>(rt: &R, args: RunArgs<'a>) -> Option<Cause<'a>> {
    let DiskArgs { model, disk, .. } = args.on;
    if args.create && !fs::exists(rt, disk).unwrap_or(true) {
        first(
            rt,
            &[Step::ReadsModel(model), Step::Makes(disk, args.sectors)],
        )
    } else {
        first_of_writer(rt, args.on)
    }
}

/// The first cause among a run's steps for its trace, which come before all others.
fn first_of_trace<'a, R: Files<File = File>>(rt: &R, args: RunArgs<'a>) -> Option<Cause<'a>> {
    let trace = args.trace?;
    first(
        rt,
        &[
            Step::AreTwoFiles(trace, args.on.model.path),
            Step::AreTwoFiles(trace, args.on.disk),
            Step::Traces(trace),
        ],
    )
}

/// The cause in what a run does after its disk is open: it connects to its nodes.
fn last_of_run<'a, R>(rt: &R, args: RunArgs<'a>) -> Option<Cause<'a>>
where
    R: Files<File = File> + AllocGlobal,
{
    let folder = args.sockets?;
    let seen = reason_of_sockets(rt, folder, args.nodes);
    if seen.is_some() {
        return caused(folder, seen);
    }
    if !args.attach && is_taken(rt, folder) {
        return caused(folder, Some(Reason::NotText));
    }
    if args.attach {
        return None;
    }
    caused(folder, Some(reason_of_start(args.bind)))
}

/// Why node programs were not met, if nothing is wrong with the folder of their sockets.
fn reason_of_start(is_bound: bool) -> Reason {
    if is_bound {
        Reason::NotBound
    } else {
        Reason::NotMet
    }
}

/// The cause, if something is wrong with this path.
fn caused<'a>(path: &'a str, reason: Option<Reason>) -> Option<Cause<'a>> {
    Some(Cause {
        path,
        behind: "",
        reason: reason?,
    })
}

/// The cause for which a step fails, if one is found.
fn cause_at<'a, R: Files<File = File>>(rt: &R, step: Step<'a>) -> Option<Cause<'a>> {
    match step {
        Step::Reads(path) => caused(path, reason_of_file(rt, path)),
        Step::ReadsModel(file) if file.kept_by.is_some() => None,
        Step::ReadsModel(file) => caused(file.path, reason_of_model(rt, file.path)),
        Step::AreTwoFiles(path, other) => caused(path, reason_of_two(rt, path, other)),
        Step::LooksAt(path, most) => caused(path, reason_of_disk(rt, path, most)),
        Step::Writes(path, most) => caused(path, reason_of_writer(rt, path, most)),
        Step::Makes(path, sectors) => cause_of_new(rt, path, sectors),
        Step::Traces(path) => cause_of_trace(rt, path),
        Step::Connects(path) => caused(path, reason_of_socket(rt, path)),
    }
}

/// What is wrong with a path for which the system returns this error: nothing is there, it may not
/// be read, or what the system says.
fn reason_of_error(error: IoError, missing: Reason) -> Option<Reason> {
    match error.kind() {
        ErrorKind::NotFound | ErrorKind::NotADirectory => Some(missing),
        ErrorKind::PermissionDenied => Some(Reason::NotRead),
        _ => reason_of_system(error),
    }
}

/// What the system says of an error, if it is one of the system.
fn reason_of_system(error: IoError) -> Option<Reason> {
    Some(Reason::System(SystemError::of(&error)?))
}

/// What is wrong with a model file.
fn reason_of_model<R: Files<File = File>>(rt: &R, path: &str) -> Option<Reason> {
    let reason = reason_of_file(rt, path);
    if reason.is_some() {
        return reason;
    }
    let found = fs::metadata(rt, path).ok()?;
    let bytes = found.len();
    if bytes > LONGEST_MODEL_FILE {
        return Some(Reason::LongModel(bytes));
    }
    // a pipe may have given its bytes
    if !found.is_file() && !found.file_type().is_fifo() {
        return Some(Reason::NotModel);
    }
    None
}

/// What is wrong with a file that a command reads. Only plain files are opened again.
fn reason_of_file<R: Files<File = File>>(rt: &R, path: &str) -> Option<Reason> {
    match fs::metadata(rt, path) {
        Err(error) => reason_of_error(error, Reason::NoFile),
        Ok(metadata) if metadata.is_dir() => Some(Reason::IsFolder),
        Ok(metadata) if metadata.is_file() => reason_of_reader(rt, path),
        Ok(_) => None,
    }
}

/// Whether another program has the lock of a file.
pub fn is_locked<R: Files<File = File>>(rt: &R, path: &str) -> bool {
    reason_of_lock(rt, path) == Some(Reason::Taken)
}

/// What is wrong with a plain file that is opened for reading.
fn reason_of_reader<R: Files<File = File>>(rt: &R, path: &str) -> Option<Reason> {
    match File::open(rt, path) {
        Ok(_) => None,
        Err(error) => reason_of_error(error, Reason::NoFile),
    }
}

/// What is wrong with two paths that must lead to two files.
fn reason_of_two<R: Files<File = File>>(rt: &R, path: &str, other: &str) -> Option<Reason> {
    if are_one_file(rt, path, other) {
        Some(Reason::OneFile)
    } else {
        None
    }
}

/// What is wrong with the file of a disk that is only read.
fn reason_of_disk<R: Files<File = File>>(rt: &R, path: &str, most: u32) -> Option<Reason> {
    let reason = reason_of_file(rt, path);
    if reason.is_some() {
        return reason;
    }
    reason_of_size(&fs::metadata(rt, path).ok()?, most)
}

/// What is wrong with the file of a disk that is written.
fn reason_of_writer<R: Files<File = File>>(rt: &R, path: &str, most: u32) -> Option<Reason> {
    let reason = reason_of_lock(rt, path);
    if reason.is_some() {
        return reason;
    }
    reason_of_size(&fs::metadata(rt, path).ok()?, most)
}

/// What is wrong with the size of a disk that has at most `most` sectors.
fn reason_of_size(metadata: &Metadata, most: u32) -> Option<Reason> {
    let bytes = metadata.len();
    let sectors = bytes / 512;
    if !metadata.is_file() {
        return Some(Reason::NotPlain);
    }
    if bytes % 512 == 0 && (8..=u64::from(most)).contains(&sectors) {
        return None;
    }
    if bytes % 512 == 0 && is_large(sectors) && most == MOST_SECTORS {
        return Some(Reason::Large);
    }
    Some(Reason::NoDisk { bytes, most })
}

/// Whether a disk of this many sectors is a large one.
fn is_large(sectors: u64) -> bool {
    u64::from(MOST_SECTORS) < sectors && sectors <= u64::from(MOST_SECTORS_OF_LARGE)
}

/// What is wrong with a disk's file, apart from its size, if it is opened for writing.
fn reason_of_lock<R: Files<File = File>>(rt: &R, path: &str) -> Option<Reason> {
    let reason = reason_of_file(rt, path);
    if reason.is_some() {
        return reason;
    }
    let metadata = fs::metadata(rt, path).ok()?;
    if !metadata.is_file() {
        return Some(Reason::NotPlain);
    }
    let reason = reason_of_open(OpenOptions::new().read(true).write(true).open(rt, path));
    if reason.is_some() {
        return reason;
    }
    if metadata.permissions().readonly() {
        return Some(Reason::NotWritten);
    }
    None
}

/// What is wrong with a disk's file, by the result of opening it for writing. Its lock is released.
fn reason_of_open(opened: Result<File, IoError>) -> Option<Reason> {
    match opened {
        Err(error) => reason_of_refusal(error),
        Ok(file) => match file.try_lock() {
            Ok(()) => None,
            Err(TryLockError::WouldBlock) => Some(Reason::Taken),
            Err(TryLockError::Error(_)) => Some(Reason::NotLocked),
        },
    }
}

/// What is wrong with an existing file that cannot be opened for writing.
fn reason_of_refusal(error: IoError) -> Option<Reason> {
    match error.kind() {
        ErrorKind::PermissionDenied | ErrorKind::ReadOnlyFilesystem => Some(Reason::NotWritten),
        _ => reason_of_system(error),
    }
}

/// The cause for which a disk of `sectors` sectors cannot be made, or an existing one taken.
fn cause_of_new<'a, R: Files<File = File>>(
    rt: &R,
    path: &'a str,
    sectors: u32,
) -> Option<Cause<'a>> {
    match fs::metadata(rt, path) {
        Err(_) if is_long(rt, path) => caused(path, Some(Reason::LongName)),
        Err(error) => cause_of_folder(rt, path, error),
        Ok(metadata) => {
            let reason = reason_of_lock(rt, path);
            if reason.is_some() {
                return caused(path, reason);
            }
            let bytes = metadata.len();
            if bytes == u64::from(sectors) * 512 {
                return None;
            }
            caused(path, Some(Reason::OtherSize { bytes, sectors }))
        }
    }
}

/// Whether the name of a disk in an existing folder is a name, but too long for the file under which
/// the disk is made.
fn is_long<R: Files<File = File>>(rt: &R, path: &str) -> bool {
    let name = match path.rsplit_once('/') {
        Some((_, name)) => name,
        None => path,
    };
    (240..=LONGEST_NAME).contains(&name.len()) && reason_of_folder(rt, folder_of(path)).is_none()
}

/// The maximum length of a file's name in bytes, set by the system.
const LONGEST_NAME: usize = 255;

/// The cause for which the file of a trace cannot be made or emptied.
fn cause_of_trace<'a, R: Files<File = File>>(rt: &R, path: &'a str) -> Option<Cause<'a>> {
    match fs::metadata(rt, path) {
        Err(error) => cause_of_folder(rt, path, error),
        Ok(metadata) if metadata.is_dir() => caused(path, Some(Reason::IsFolder)),
        Ok(metadata) if metadata.is_file() => {
            match OpenOptions::new().write(true).open(rt, path) {
                Ok(_) => None,
                Err(error) => caused(path, reason_of_refusal(error)),
            }
        }
        Ok(_) => None,
    }
}

/// The cause for which a file cannot be made whose metadata call returned this error. It lies with
/// the file's folder.
fn cause_of_folder<'a, R: Files<File = File>>(
    rt: &R,
    path: &'a str,
    error: IoError,
) -> Option<Cause<'a>> {
    let reason = reason_of_error(error, Reason::NotMade)?;
    if matches!(reason, Reason::System(_)) {
        return caused(path, Some(reason));
    }
    let folder = folder_of(path);
    match reason_of_folder(rt, folder) {
        None => caused(folder, Some(reason)),
        worse => caused(folder, worse),
    }
}

/// The folder of a path.
fn folder_of<'a>(path: &'a str) -> &'a str {
    match Path::new(path).parent() {
        Some(folder) if !folder.as_str().is_empty() => folder.as_str(),
        _ => ".",
    }
}

/// What is wrong with a path that must be a folder.
fn reason_of_folder<R: Files<File = File>>(rt: &R, folder: &str) -> Option<Reason> {
    match fs::metadata(rt, folder) {
        Err(error) => reason_of_error(error, Reason::NoFolder),
        Ok(metadata) if metadata.is_dir() => None,
        Ok(_) => Some(Reason::NotFolder),
    }
}

/// What is wrong with the folder of the sockets of `nodes` nodes, as the run left it.
fn reason_of_sockets<R>(rt: &R, folder: &str, nodes: u32) -> Option<Reason>
where
    R: Files<File = File> + AllocGlobal,
{
    let reason = reason_of_folder(rt, folder);
    if reason.is_some() {
        return reason;
    }
    for node in 0..nodes {
        let path = format!(in rt.alloc(); "{folder}/node{node}").ok()?;
        if path.as_str().len() > LONGEST {
            return Some(Reason::LongPath);
        }
        if fs::symlink_metadata(rt, path.as_str()).is_ok() {
            return Some(Reason::OldSocket { node });
        }
    }
    None
}

/// Whether something that is no plain file has the name, in the folder of the sockets, of the model
/// that a run writes there.
fn is_taken<R>(rt: &R, folder: &str) -> bool
where
    R: Files<File = File> + AllocGlobal,
{
    let Ok(path) = format!(in rt.alloc(); "{folder}/.timewarp-model") else {
        return false;
    };
    match fs::symlink_metadata(rt, path.as_str()) {
        Ok(metadata) => !metadata.is_file(),
        Err(_) => false,
    }
}

/// The maximum length of a socket's path in bytes, set by the system.
const LONGEST: usize = 107;

/// What is wrong with a socket to which no connection was made.
fn reason_of_socket<R: Files<File = File>>(rt: &R, path: &str) -> Option<Reason> {
    match fs::metadata(rt, path) {
        Err(error) => reason_of_error(error, Reason::NoSocket),
        Ok(_) => Some(Reason::NotHeard),
    }
}
