// Runs without nodes, over nodes in this program or behind sockets, with or without a trace; and a
// node.

ghost use Rattle.std.specs.Prelude.{◌≡◌, ◌≤◌, ◌⊎◌, ◌&&◌, OnErr, OnOk};
ghost use Rattle.program.specs.Attempts.{judges_all};
ghost use Rattle.program.specs.Command.{are_rounds_cheap, most_of, plan_of, schedule_of};
ghost use Rattle.program.specs.Command.{IsRunOutput};
ghost use Rattle.views.specs.Views.{Begins, Prints};
ghost use Rattle.node.specs.Node.{most_nodes};

use crate::attempts::{NodePrograms, archive_of, run_attempts};
use crate::described::{WithText, simulated, simulated_with_text};
use crate::ending::end_run;
use crate::making::disk_of;
use crate::outcomes::of_command;
use crate::parts::remove_surplus;
use crate::watching::Watching;
use cli::{BatchOption, NodeArgs, RunArgs};
use disk_commands::{Fault, NewFile, SystemErrors, has_few_rounds, text_to_keep};
use node_programs::{Calls, count_processors, is_open_to_all};
use runs::commands::{CommandFault, Simulated};
use runs::{Batch as DriverBatch, Plan, Schedule};
use std::fs::{self, File};
use std::io::Write;
use std::net::Net;
use std::process::Processes;
use std::rt::Files;
use std::time::Clock;
use terminal::{FileRefusal, NoTrace, Progress, TraceFile, Traced, Way, are_one_file};
use texts::Described;
use views::{BegunDisk, unreadable};

/// Whether a round costs little: the nodes are in this process, and at 128 messages each they
/// report no more in a round than a commit waits for. Rounds of more messages would save no sync
/// there, and roll back more; between programs they save round trips.
fn are_rounds_cheap(nodes: u32, commit_every: Option<u32>, apart: bool) -> bool
    ensures { result ≡ are_rounds_cheap nodes commit_every apart }
{
    let in_a_round = u64::from(nodes) * 128;
    !apart && in_a_round <= u64::from(commit_every.unwrap_or(0))
}

/// Returns the most messages that a node with an adjusting budget may handle at a turn: 128 if
/// rounds are cheap, otherwise 65,536.
fn most_of(rounds_are_cheap: bool) -> u32
    ensures { result ≡ most_of rounds_are_cheap }
{
    if rounds_are_cheap { 128 } else { 65_536 }
}

/// Returns the order of posts and takes, for nodes that work together or overlap.
fn schedule_of(together: bool, overlap: bool) -> Schedule
    ensures { result ≡ schedule_of together overlap }
{
    if together {
        Schedule::Together
    } else if overlap {
        Schedule::Overlapped
    } else {
        Schedule::InTurn
    }
}

/// Whether each event that node programs report is judged: one in one.
pub(crate) fn judges_all(judge: Option<u32>) -> bool
    ensures { result ≡ judges_all judge }
{
    judge.unwrap_or(0) == 1
}

/// Whether the commits of a run are judged: its nodes are programs of their own, and each event that
/// they report is judged.
fn is_judged(apart: bool, judge: Option<u32>) -> bool
    ensures { result ≡ (apart && judges_all judge) }
{
    let all = judges_all(judge);
    apart && all
}

/// Returns the plan of a run by the options of its command. A commit has room for 299,592 events,
/// and takes all those of a round at once, so one is due at 250,000 at the latest. Commits are
/// judged if all reported events of node programs are.
pub(crate) fn plan_of(args: &RunArgs<'_>) -> Plan
    ensures is { result ≡ plan_of args.now }
    ensures nodes { result.nodes ≡ args.now.nodes }
{
    let rounds_are_cheap = are_rounds_cheap(args.nodes, args.commit_every, args.sockets.is_some());
    Plan {
        nodes: args.nodes,
        batch: match args.batch {
            BatchOption::Fixed(messages) => DriverBatch::Fixed(messages),
            BatchOption::Auto => DriverBatch::Adjusting {
                most: most_of(rounds_are_cheap),
                rounds_are_cheap,
            },
        },
        rounds: args.rounds,
        schedule: schedule_of(args.together, args.overlap),
        checkpoint_every: args.checkpoint.unwrap_or(0),
        seals: args.seal,
        commit_every: args.commit_every.unwrap_or(0).min(250_000),
        judged: is_judged(args.sockets.is_some(), args.judge),
    }
}

/// Says at the beginning of a run that may go on for days when it ends, if somebody reads what it prints.
fn warn_of_rounds<P: Progress>(args: &RunArgs<'_>, progress: &mut P) {
    if has_few_rounds(args) && (args.progress.is_some() || progress.is_seen()) {
        progress.goes_on("ends after 1000000 rounds: with --rounds unlimited it does not");
    }
}

/// Returns the fault if the file that ends a run is there before it.
fn refuse_stop_file<R: Files>(
    rt: &R,
    stop: Option<&str>,
    said: &SystemErrors,
) -> Result<(), Fault> {
    match stop {
        Some(path) if fs::exists(rt, path).unwrap_or(false) => Err(said.refuse(FileRefusal::Stop)),
        _ => Ok(()),
    }
}

/// Runs a model on its disk, with a trace if one is asked for. Refuses, before anything else, a stop
/// file that is there already.
pub(crate) fn run_as<M, R, P, O>(
    rt: &R,
    nodes: NodePrograms<'_>,
    args: RunArgs<'_>,
    said: &SystemErrors,
    progress: &mut P,
    out: &mut O,
) -> Result<(), Fault>
where
    M: Described,
    R: Files<File = File> + Net + Processes + Clock + AllocGlobal,
    P: Progress,
    O: Write,
    requires some { 1 ≤ args.nodes }
    requires few { args.nodes ≤ most_nodes }
    ensures ok { OnOk result (Prints (IsRunOutput M.meaning M.says args.entry)
        (O.contents out.old) (O.contents out.new)) }
    ensures err { OnErr result ((out.new ≡ out.old)
        ⊎ Begins (IsRunOutput M.meaning M.says args.entry)
        (O.contents out.old) (O.contents out.new)) }
{
    refuse_stop_file(rt, args.stop_file, said)?;
    if let Some(seconds) = args.progress {
        progress.every(seconds);
    }
    match args.trace {
        None => run_with::<M, R, P, O>(rt, nodes, args, said, progress, out),
        Some(trace) => run_traced::<M, R, P, O>(rt, nodes, args, trace, said, progress, out),
    }
}

/// Returns the file of the disk that a run makes if there is none.
fn create_of(args: &RunArgs<'_>) -> Option<NewFile> {
    if args.create {
        Some(NewFile::of(args.sectors, args.reserve))
    } else {
        None
    }
}

/// Returns how the options of a run say that it is made. Node programs could use as many processors
/// as this program may, and at most one for each process of the model.
fn way_of<R>(rt: &R, args: &RunArgs<'_>, processes: u32) -> Way
where
    R: Files<File = File> + AllocGlobal,
{
    if args.sockets.is_some() || (args.plain && args.checkpoint.is_some()) {
        Way::Other
    } else if args.plain {
        Way::Plain {
            processors: count_processors(rt).min(processes),
        }
    } else {
        Way::OneProcess
    }
}

/// Warns of a folder of sockets in which every user may write. The run goes on: only its user knows
/// whom the machine lets in.
fn warn_of_folder<R, P>(rt: &R, sockets: Option<&str>, progress: &mut P)
where
    R: Files<File = File>,
    P: Progress,
{
    if let Some(folder) = sockets {
        if is_open_to_all(rt, folder) {
            progress.found_open(folder);
        }
    }
}

/// Runs the model of a file on its disk, which is made first if that is asked for and it is not
/// there. The file is read once: node programs that the run starts, also after a fault, get the text
/// that was read. Parts of the disk beyond those that are kept are removed first, under its lock.
///
/// Returns, in this order, the faults of the model file, of the disk's file, of the node programs,
/// and of the run, or of its archive if its disk was full.
fn run_with<M, R, P, O>(
    rt: &R,
    nodes: NodePrograms<'_>,
    args: RunArgs<'_>,
    said: &SystemErrors,
    progress: &mut P,
    out: &mut O,
) -> Result<(), Fault>
where
    M: Described,
    R: Files<File = File> + Net + Processes + Clock + AllocGlobal,
    P: Progress,
    O: Write,
    requires some { 1 ≤ args.nodes }
    requires few { args.nodes ≤ most_nodes }
    ensures ok { OnOk result (Prints (IsRunOutput M.meaning M.says args.entry)
        (O.contents out.old) (O.contents out.new)) }
    ensures err { OnErr result ((out.new ≡ out.old)
        ⊎ Begins (IsRunOutput M.meaning M.says args.entry)
        (O.contents out.old) (O.contents out.new)) }
{
    let read: WithText<M> = simulated_with_text(rt, args.on.model)?;
    let of = &read.of;
    let nodes = NodePrograms {
        program: nodes.program,
        text: read.text.as_slice(),
        calls: nodes.calls,
        differences: nodes.differences,
    };
    let text = text_to_keep(args.keep_model, read.text.as_slice());
    let disk = disk_of(rt, of, args.on, create_of(&args), text, said)?;
    let begun = BegunDisk::of(rt.alloc(), &of.model, disk);
    progress.begin(of.end);
    progress.takes(way_of(rt, &args, of.model.lps()));
    warn_of_folder(rt, args.sockets, progress);
    warn_of_rounds(&args, progress);
    remove_surplus(rt, &of.model, &begun, archive_of(&args), progress);
    let mut watch = Watching::new(rt, progress, &args);
    watch.before = begun.events_before();
    let ended = run_attempts::<M, R, P, O>(rt, nodes, of, begun, args, &mut watch, out)?;
    said.note(ended.disk.last_error());
    if watch.is_renamed() {
        return Err(renamed(ended.outcome, watch.time, said));
    }
    if let Some((fault, system)) = watch.not_archived {
        said.note(system);
        return Err(Fault::from(fault));
    }
    end_run(ended.outcome, args.stop_file, watch.progress, out)
}

/// Returns the fault of a run whose disk has lost its name, with the time up to which everything is
/// committed: `File`, if the run did not fail for another reason.
fn renamed(outcome: Result<(), CommandFault>, time: u64, said: &SystemErrors) -> Fault {
    match outcome {
        Ok(()) | Err(CommandFault::Stopped { .. }) => said.refuse(FileRefusal::Renamed { time }),
        Err(fault) => of_command(fault),
    }
}

/// Makes a run, and writes its trace to a file, which is created if it is not there. A trace of
/// earlier runs of this disk is continued. One of other runs is replaced at the end, whatever the
/// outcome, by the whole trace of this run.
///
/// Returns `File` if the trace file is the file of the model or of the disk, if it holds anything but
/// a trace, if it cannot be made, or, after a run that reached its end, if a part of the trace was not
/// written.
fn run_traced<M, R, P, O>(
    rt: &R,
    nodes: NodePrograms<'_>,
    args: RunArgs<'_>,
    trace: &str,
    said: &SystemErrors,
    progress: &mut P,
    out: &mut O,
) -> Result<(), Fault>
where
    M: Described,
    R: Files<File = File> + Net + Processes + Clock + AllocGlobal,
    P: Progress,
    O: Write,
    requires some { 1 ≤ args.nodes }
    requires few { args.nodes ≤ most_nodes }
    ensures ok { OnOk result (Prints (IsRunOutput M.meaning M.says args.entry)
        (O.contents out.old) (O.contents out.new)) }
    ensures err { OnErr result ((out.new ≡ out.old)
        ⊎ Begins (IsRunOutput M.meaning M.says args.entry)
        (O.contents out.old) (O.contents out.new)) }
{
    if are_one_file(rt, args.on.model.path, trace) || are_one_file(rt, args.on.disk, trace) {
        return Err(Fault::File);
    }
    let file = match TraceFile::open(rt, trace) {
        Ok(file) => file,
        Err(refused) => return Err(untraced(refused, said)),
    };
    let mut traced = Traced::to(progress, file);
    let outcome = run_with::<M, R, _, O>(rt, nodes, args, said, &mut traced, out);
    let is_whole = traced.is_whole(rt);
    outcome?;
    if is_whole {
        Ok(())
    } else {
        Err(said.refuse(FileRefusal::CutTrace))
    }
}

/// Serves as a node that runs the model of a file, behind a socket.
///
/// Returns, in this order, the faults of the model file; `File` if no connection is made; and
/// `Wire`, or `OtherModel` if the run takes part in another simulation. A refusal by the node itself
/// is reported at the other end, and is not a fault here. `calls` keeps what the system says if no
/// connection is made, and how the simulations differ.
pub(crate) fn serve_on<M, R>(rt: &R, calls: &Calls, args: NodeArgs<'_>) -> Result<(), Fault>
where
    M: Described,
    R: Files<File = File> + Net + AllocGlobal,
{
    let of: Simulated<M> = simulated(rt, args.model)?;
    Ok(node_programs::serve_on(rt, &of.model, of.end, args.socket, args.parcels, calls)?)
}

/// Returns why a trace is not made: `NoMemory` if an allocation failed, otherwise `File`.
fn untraced(refused: NoTrace, said: &SystemErrors) -> Fault {
    match refused {
        NoTrace::Other => said.refuse(FileRefusal::Trace),
        NoTrace::OtherUnfinished => said.refuse(FileRefusal::UnfinishedTrace),
        NoTrace::System(error) => Fault::from(unreadable(error)),
    }
}
