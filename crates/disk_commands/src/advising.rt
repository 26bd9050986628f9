// What a user reads below a fault: what to do about it, and what the files of the command say.

use crate::fault::Fault;
use cli::{Command, ModelFile, RunArgs, most_sectors};
use commitlog::LogFault;
use coordinator::SessionFault;
use disk::{GrowthFault, SECTOR_BYTES, SystemError};
use frames::judging::ReportDifference;
use node_programs::{Apart, Call, CallEnd};
use recovery::RecoveryFault;
use std::fs;
use std::fs::File;
use std::io::Write;
use std::rt::Files;
use terminal::{
    Cause, FileRefusal, Progress, Unmet, cause_of, cause_of_device, cause_of_kept, cause_of_refusal,
};
use texts::{Described, MistakeReport, Printable, SettingFault};
use upkeep::migration::MigrateFault;
use views::{apart_of, committed_on, difference_of, keeper_of, mistakes_of, model_path};
use wire::{PortFault, WireFault};

/// What was noted of node programs and of the disk before a fault.
#[derive(Clone, Copy)]
pub struct Noted {
    /// The last call on the connection of one.
    pub last: Option<Call>,
    /// The event of the first report that is not what the model does.
    pub refused: Option<ReportDifference>,
    /// The system's error of the last failed call on the disk.
    pub system: Option<SystemError>,
    /// The system's error of the call that failed as node programs or a run were met.
    pub unmet: Option<Unmet>,
    /// In which simulations a node program and a run take part, if these differ.
    pub apart: Option<Apart>,
    /// Why the command refused a file, or lost its disk.
    pub refusal: Option<FileRefusal>,
}

/// What the words of a command ask to follow its fault.
#[derive(Clone, Copy)]
pub struct Asked {
    /// What to do about it.
    pub advice: bool,
    /// Nothing.
    pub quiet: bool,
}

/// What follows a fault.
#[derive(Clone, Copy)]
enum Below {
    /// Nothing.
    Nothing,
    /// Which file or node it is about, and what the system says.
    Cause,
    /// That, and what to do.
    Advice,
}

/// What follows a fault that a user sees or not, where nothing follows it otherwise if it is bare.
fn told_below(asked: Asked, is_seen: bool, is_bare: bool) -> Below {
    if asked.quiet {
        Below::Nothing
    } else if is_seen || asked.advice {
        Below::Advice
    } else if is_bare {
        Below::Nothing
    } else {
        Below::Cause
    }
}

/// Prints what follows the fault of a command: nothing, its cause, or advice.
pub fn advise<M, R, P, E>(
    rt: &R,
    command: Command<'_>,
    fault: Fault,
    noted: Noted,
    asked: Asked,
    progress: &mut P,
    err: &mut E,
)
where
    M: Described,
    R: Files<File = File> + AllocGlobal,
    P: Progress,
    E: Write,
{
    match told_below(asked, progress.is_seen(), progress.is_bare()) {
        Below::Nothing => progress.failed(None, None),
        Below::Cause => {
            print_noted(command, fault, noted, err);
            print_advice(None, cause_below(rt, command, fault, noted), err);
            progress.failed(None, None);
        }
        Below::Advice => {
            advise_all::<M, R, P, E>(rt, command, fault, noted, asked.advice, progress, err);
        }
    }
}

/// The cause of a `File`, by what was noted or by the files of the command.
fn cause_below<'a, R>(rt: &R, command: Command<'a>, fault: Fault, noted: Noted) -> Option<Cause<'a>>
where
    R: Files<File = File> + AllocGlobal,
{
    match (fault, noted.refusal) {
        (Fault::File, Some(refusal)) => cause_of_refusal(command, refusal),
        (Fault::File, None) => {
            let kept = cause_in_kept(rt, command);
            if kept.is_some() {
                return kept;
            }
            cause_of(rt, command, noted.system, noted.unmet)
        }
        _ => None,
    }
}

/// The cause in the model that the disk of a command keeps, if that is read and the disk is there.
fn cause_in_kept<'a, R>(rt: &R, command: Command<'a>) -> Option<Cause<'a>>
where
    R: Files<File = File> + AllocGlobal,
{
    let disk = match command {
        Command::Info(args) if args.model => args.disk,
        _ => command.model()?.kept_by?,
    };
    if !fs::exists(rt, disk).unwrap_or(true) {
        return None;
    }
    cause_of_kept(rt, keeper_of(rt, disk).ok()?)
}

/// Passes the advice for the fault of a command to `progress`, and the cause of a `File` if
/// `progress` is seen. If `progress` is not seen but advice is asked for, both are printed on `err`.
///
/// In both cases `err` gets what the files of the command say about the fault, if they say
/// something, in place of the advice; which node failed in a run over node programs, and how, by
/// what was noted of them; how the simulations of a run and a node differ; and what the system says
/// of a disk that could not be written.
fn advise_all<M, R, P, E>(
    rt: &R,
    command: Command<'_>,
    fault: Fault,
    noted: Noted,
    is_asked: bool,
    progress: &mut P,
    err: &mut E,
)
where
    M: Described,
    R: Files<File = File> + AllocGlobal,
    P: Progress,
    E: Write,
{
    let is_seen = progress.is_seen();
    let is_explained = explain::<M, R, E>(rt, command, fault, err);
    print_noted(command, fault, noted, err);
    if let (true, Some(paths)) = (stops_a_run(command, fault), paths_of(command)) {
        print_committed::<M, R, E>(rt, paths, err);
    }
    let cause = cause_below(rt, command, fault, noted);
    let advice = if is_explained {
        None
    } else {
        advice_of(command, fault)
    };
    progress.failed(advice, cause);
    if is_asked && !is_seen {
        print_advice(advice, cause, err);
    }
}

/// Prints what is known of a fault beyond its name: of a node program, of the simulations of a run and
/// a node, of the disk that could not be written, and of the setting that is refused.
fn print_noted<E: Write>(command: Command<'_>, fault: Fault, noted: Noted, err: &mut E) {
    print_node(command, fault, noted, err);
    print_apart(command, fault, noted, err);
    print_system(command, fault, noted, err);
    print_setting(command, fault, err);
}

/// Whether a run that had begun stopped with this fault.
fn stops_a_run(command: Command<'_>, fault: Fault) -> bool {
    match (command, fault) {
        (Command::Run(_), Fault::Session(SessionFault::Recovery(_))) => false,
        (Command::Run(_), Fault::Session(_) | Fault::Rounds) => true,
        _ => false,
    }
}

/// Prints which node program failed, where its socket was, and how.
fn print_node<E: Write>(command: Command<'_>, fault: Fault, noted: Noted, err: &mut E) {
    let (Command::Run(args), Fault::Session(SessionFault::Port(fault)), Some(call)) = (
        command, fault, noted.last,
    ) else {
        return;
    };
    let Some(folder) = args.sockets else {
        return;
    };
    let (node, folder) = (call.node, Printable(folder));
    let how = how_it_failed(fault, call.end);
    let _ = match (args.silence, call.end, noted.refused) {
        (_, _, Some(ReportDifference { process, time })) => writeln!(
            err,
            "node {node} ({folder}/node{node}) reports what the model does not do: \
             process {process} at {time} ticks"
        ),
        (Some(seconds), CallEnd::Silent, _) => writeln!(
            err,
            "node {node} ({folder}/node{node}) was silent for {seconds} s"
        ),
        _ => writeln!(err, "node {node} ({folder}/node{node}) {how}"),
    };
}

/// Prints in which simulations a node program and its run take part, if these differ.
fn print_apart<E: Write>(command: Command<'_>, fault: Fault, noted: Noted, err: &mut E) {
    let Some(Apart { run, node }) = noted.apart else {
        return;
    };
    let _ = match (command, fault) {
        (Command::Run(args), Fault::OtherNode { node: number }) => {
            let folder = Printable(args.sockets.unwrap_or("."));
            writeln!(
                err,
                "node {number} ({folder}/node{number}) is {node}; the run is {run}"
            )
        }
        (Command::Node(_), Fault::OtherModel) => {
            writeln!(err, "this node is {node}; the run is {run}")
        }
        _ => Ok(()),
    };
}

/// Prints what the system says of the disk that could not be written.
fn print_system<E: Write>(command: Command<'_>, fault: Fault, noted: Noted, err: &mut E) {
    if let (true, Some(error)) = (is_of_device(fault), noted.system) {
        if let Some(cause) = cause_of_device(command, error) {
            let _ = writeln!(err, "{cause}");
        }
    }
}

/// Prints which setting is refused, and why.
fn print_setting<E: Write>(command: Command<'_>, fault: Fault, err: &mut E) {
    let Fault::Setting(fault) = fault else {
        return;
    };
    let (number, why) = match fault {
        SettingFault::NoSuchKey(number) => (
            number,
            "the model file has no key, no number and no KIND.count of this name",
        ),
        SettingFault::OtherKind(number) => (
            number,
            "the model file has another kind of value there",
        ),
    };
    let Some(file) = command.model() else {
        return;
    };
    if let Some((name, value)) = file.settings.get(number.saturating_sub(1)) {
        let _ = writeln!(err, "{}={}: {why}", Printable(name), Printable(value));
    }
}

/// Whether the disk of a command could not be written.
fn is_of_device(fault: Fault) -> bool {
    matches!(
        fault,
        Fault::Log(LogFault::Disk(_))
            | Fault::Recovery(RecoveryFault::Log(LogFault::Disk(_)))
            | Fault::Session(SessionFault::Disk)
            | Fault::Session(SessionFault::Recovery(RecoveryFault::Log(LogFault::Disk(_))))
            | Fault::Migrate(MigrateFault::New(LogFault::Disk(_)))
            | Fault::Grow(GrowthFault::Device)
            | Fault::Recover(LogFault::Disk(_))
    )
}

/// How a node program failed, by the fault of its port and the last call on its connection.
fn how_it_failed(fault: PortFault, end: CallEnd) -> &'static str {
    match fault {
        PortFault::Peer(_) => "refused its work",
        PortFault::Closed | PortFault::Wire(WireFault::Truncated) => "closed its connection",
        PortFault::Wire(WireFault::Io) => match end {
            CallEnd::Silent => "was silent",
            CallEnd::Closed => "closed its connection",
            _ => "has a connection that failed",
        },
        PortFault::Wire(WireFault::NoMemory | WireFault::TooLong) => "was at work",
        _ => "answered what is no reply",
    }
}

/// Prints up to which time everything is committed on the disk of a command.
fn print_committed<M, R, E>(rt: &R, paths: Paths<'_>, err: &mut E)
where
    M: Described,
    R: Files<File = File> + AllocGlobal,
    E: Write,
{
    let Some(disk) = paths.disk else {
        return;
    };
    let most = most_sectors(paths.large);
    if let Some(time) = committed_on::<M, R>(rt, paths.model, disk, most) {
        let disk = Printable(disk);
        let _ = writeln!(err, "{disk} has all events before {time} ticks");
    }
}

/// Prints the cause of a `File`, or else the advice, if there is one.
fn print_advice<E: Write>(advice: Option<&'static str>, cause: Option<Cause<'_>>, err: &mut E) {
    if let Some(cause) = cause {
        let _ = writeln!(err, "{cause}");
    } else if let Some(advice) = advice {
        let _ = writeln!(err, "{advice}");
    }
}

/// The advice for a fault of a command. A command that writes to a disk prints its report once all
/// is done, so if only the report is refused, the advice says so.
fn advice_of(command: Command<'_>, fault: Fault) -> Option<&'static str> {
    match (fault, command) {
        (Fault::Output, Command::Run(_)) => Some(
            "the run is at its end, and everything is committed: only its report was not printed",
        ),
        (
            Fault::Output,
            Command::New(_)
            | Command::Extend(_)
            | Command::Grow(_)
            | Command::Migrate(_)
            | Command::Recover(_)
            | Command::Reopen(_),
        ) => Some("the command is done: only its report was not printed"),
        (Fault::Rounds, Command::Run(args)) if has_few_rounds(&args) => Some(
            "the run has made 1000000 rounds, as many as it makes if no number is given: what is \
             committed stays; run it again with --rounds unlimited",
        ),
        (Fault::Log(LogFault::NotBlank), Command::Migrate(_)) => Some(
            "the disk NEW has a log already: if an earlier `migrate` to it was stopped, it is \
             partial: remove its file, and call `migrate` again",
        ),
        _ => fault.advice(),
    }
}

/// The number of rounds of a run for which none is given.
const DEFAULT_ROUNDS: u32 = 1_000_000;

/// Whether a run may go on for days, by its options, but ends after the rounds that it has if no number
/// is given.
pub fn has_few_rounds(args: &RunArgs<'_>) -> bool {
    let may_be_long = args.create
        || args.progress.is_some()
        || args.grow_when_full
        || args.archive_when_full;
    may_be_long && args.rounds == DEFAULT_ROUNDS
}

/// The files that a command reads.
#[derive(Clone, Copy)]
struct Paths<'a> {
    /// The model file.
    model: ModelFile<'a>,
    /// The disk, if there is one.
    disk: Option<&'a str>,
    /// Whether the disk may be a large one.
    large: bool,
    /// The format of the disks that the command reads.
    format: u32,
}

/// Prints what the files of a command say about its fault. Returns whether they say something.
fn explain<M, R, E>(rt: &R, command: Command<'_>, fault: Fault, err: &mut E) -> bool
where
    M: Described,
    R: Files<File = File> + AllocGlobal,
    E: Write,
{
    let Some(paths) = paths_of(command) else {
        return false;
    };
    match fault {
        Fault::BadModel => explain_model::<M, R, E>(rt, paths.model, err),
        Fault::Recovery(RecoveryFault::OtherModel)
        | Fault::Session(SessionFault::Recovery(RecoveryFault::OtherModel))
        | Fault::Migrate(MigrateFault::Old(RecoveryFault::OtherModel)) => {
            explain_disk::<M, R, E>(rt, paths, err)
        }
        Fault::NoSuchProcess { processes } => {
            let last = processes.saturating_sub(1);
            let _ = writeln!(err, "the model has the processes 0 to {last}");
            true
        }
        Fault::Session(SessionFault::Full) => explain_full(rt, paths, err),
        _ => false,
    }
}

/// Prints all mistakes of a file that is not a model file.
fn explain_model<M, R, E>(rt: &R, model: ModelFile<'_>, err: &mut E) -> bool
where
    M: Described,
    R: Files<File = File> + AllocGlobal,
    E: Write,
{
    let Some(wrong) = mistakes_of::<M, R>(rt, model) else {
        return false;
    };
    let Ok(path) = model_path(rt, model) else {
        return false;
    };
    let report = MistakeReport {
        path: path.as_str(),
        text: wrong.text.as_slice(),
        mistakes: &wrong.mistakes,
    };
    let _ = write!(err, "{report}");
    true
}

/// Prints what to do if a full disk has the most sectors already.
fn explain_full<R, E>(rt: &R, paths: Paths<'_>, err: &mut E) -> bool
where
    R: Files<File = File>,
    E: Write,
{
    let Some(disk) = paths.disk else {
        return false;
    };
    let sectors = match fs::metadata(rt, disk) {
        Ok(found) => found.len() / SECTOR_BYTES as u64,
        Err(_) => 0,
    };
    if sectors < u64::from(most_sectors(paths.large)) {
        return false;
    }
    let text = if paths.large {
        "the disk is full and has the most sectors that a disk may have: what is committed stays; \
         with --archive-when-full a run goes on, and puts disks that are full aside"
    } else {
        "the disk is full and has the most sectors that a disk has without --large: what is \
         committed stays; `grow --large` makes it longer, of up to 16777216 sectors, and then \
         `run --large` goes on; with --archive-when-full a run goes on, and puts disks that are \
         full aside"
    };
    let _ = writeln!(err, "{text}");
    true
}

/// Prints how a disk and a model file differ.
fn explain_disk<M, R, E>(rt: &R, paths: Paths<'_>, err: &mut E) -> bool
where
    M: Described,
    R: Files<File = File> + AllocGlobal,
    E: Write,
{
    let Some(disk) = paths.disk else {
        return false;
    };
    let most = most_sectors(paths.large);
    let format = paths.format;
    let Some(difference) = difference_of::<M, R>(rt, paths.model, disk, most, format) else {
        return false;
    };
    let Ok(model) = model_path(rt, paths.model) else {
        return false;
    };
    let (shown, model) = (Printable(disk), Printable(model.as_str()));
    let _ = writeln!(
        err,
        "{shown} is {}; {model} is {}",
        difference.disk, difference.file
    );
    if let Some(line) = apart_of(rt, paths.model, disk) {
        let _ = writeln!(err, "{}", line.as_str());
    }
    if let Some(advice) = difference.advice() {
        let _ = writeln!(err, "{advice}");
    }
    true
}

/// The files that a command reads; none if it takes no model file.
fn paths_of<'a>(command: Command<'a>) -> Option<Paths<'a>> {
    let model = command.model()?;
    let (disk, large) = match command {
        Command::New(_) => (None, false),
        Command::Run(args) => (Some(args.on.disk), args.on.large),
        Command::Extend(args) | Command::Reopen(args) | Command::Cut(args) => {
            (Some(args.disk), args.large)
        }
        Command::Status(args) => (Some(args.on.disk), args.on.large),
        Command::Verify(args) => (Some(args.on.disk), args.on.large),
        Command::Show(args) => (Some(args.on.disk), args.on.large),
        Command::Grow(args) => (Some(args.on.disk), args.on.large),
        Command::Migrate(args) => (Some(args.old), args.large),
        Command::Recover(args) => (Some(args.old), args.large),
        Command::Log(args) => (Some(args.on.disk), args.on.large),
        Command::Stats(args) => (args.of.disk, args.of.large),
        Command::Draw(args) => (args.of.disk, args.of.large),
        Command::Info(_) | Command::Seq(_) | Command::Check(_) | Command::Node(_) => (None, false),
    };
    let format = if matches!(command, Command::Migrate(_)) {
        1
    } else {
        2
    };
    Some(Paths {
        model,
        disk,
        large,
        format,
    })
}
