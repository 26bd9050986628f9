// The attempts of a run: each begins at the last commit on the disk. Another one follows if a node
// program was lost, or the disk was full and is longer now, or archived.

ghost use Rattle.std.specs.Prelude.{◌≡◌, ◌≤◌, ◌^◌, ℕ, IfErr, IfOk, OnErr, OnOk, map, replicate};
ghost use Rattle.std.specs.Prelude.{not};
ghost use Rattle.std.specs.Option.{option_map};
ghost use Rattle.disk.specs.FileDisks.{disk_of_file};
ghost use Rattle.disk.specs.Growth.{grown_to};
ghost use Rattle.model.specs.Meaning.{CanBegin};
ghost use Rattle.model.specs.Origins.{continued};
ghost use Rattle.program.specs.Attempts.{GoesOnWith, IsAttempt, IsAttemptBy};
ghost use Rattle.program.specs.Attempts.{IsFollowed, IsGoneOn, IsLastAttempt, IsWholeRun, KeepsAll};
ghost use Rattle.program.specs.Attempts.{nodes_of, trusts_nodes};
ghost use Rattle.program.specs.Command.{IsWithoutOutput};
ghost use Rattle.frames.specs.Socket.{state_of};
ghost use Rattle.frames.specs.declared.port.Held.TheVariants.{Fresh};
ghost use Rattle.views.specs.Reading.{BeginsWith};
ghost use Rattle.coordinator.specs.Opening.{MayRun};

use crate::parts::{Archive, Tried, archived};
use crate::plainly::attempt_plainly;
use crate::running::{judges_all, plan_of};
use crate::watching::Watching;
use cli::{RunArgs, most_sectors};
use coordinator::SessionFault;
use disk::{FileDisk, Returned, Room, SectorDisk};
use disk_commands::Fault;
use frames::judging::{Differences, judged_ports};
use frames::{Hello, SocketPort};
use model::{Continued, Model as Modelled, Origin};
use node_programs::{Behind, Calls, NodeStream, NodesFault, clear, meet};
use runs::Plan;
use runs::commands::{CommandFault, Simulated};
use segments::archiving::ArchivePlace;
use std::alloc::Global;
use std::fs::File;
use std::io::Write;
use std::net::Net;
use std::process::Processes;
use std::rt::Files;
use std::time::Clock;
use terminal::Progress;
use upkeep::growing::grow;
use views::BegunDisk;
use wire::{PortFault, WireFault};

/// The program that a run starts for each node, the text of the run's model file once it is read,
/// the calls on the connections to them, and what they reported that the model does not do.
#[derive(Clone, Copy)]
pub(crate) struct NodePrograms<'a> {
    pub program: &'a str,
    pub text: &'a [u8],
    pub calls: &'a Calls,
    pub differences: &'a Differences,
}

/// After which faults a run goes on.
#[derive(Clone, Copy)]
struct GoingOn<'a> {
    /// How often after a node program was lost, and how often it has.
    retries: u32,
    retried: u32,
    /// Up to how many sectors a full disk is made longer; none if it is not.
    most: Option<u32>,
    /// Whether the run goes on after all rounds of an attempt.
    is_unlimited: bool,
    /// How a full disk is archived; none if it is not.
    archive: Option<Archive<'a>>,
}

impl<'a> GoingOn<'a> {
    /// As the options of a run say.
    fn of(args: &RunArgs<'a>) -> GoingOn<'a> {
        GoingOn {
            retries: args.retries.unwrap_or(0),
            retried: 0,
            most: if args.grow_when_full {
                Some(most_sectors(args.on.large))
            } else {
                None
            },
            is_unlimited: args.rounds == UNLIMITED,
            archive: archive_of(args),
        }
    }
}

/// How the options of a run say that a full disk is archived.
pub(crate) fn archive_of<'a>(args: &RunArgs<'a>) -> Option<Archive<'a>> {
    if !args.archive_when_full {
        return None;
    }
    Some(Archive {
        place: ArchivePlace {
            path: args.on.disk,
            room: if args.reserve {
                Room::Reserved
            } else {
                Room::Sparse
            },
            most: most_sectors(args.on.large),
        },
        keep: args.keep,
    })
}

/// The number of rounds of a run without a limit.
const UNLIMITED: u32 = u32::MAX;

/// More attempts than a run makes: at most 1,000,000 after a lost node program, fewer than 32 on a
/// disk that is twice as long as before, one after each 2^32 - 1 rounds without a limit, which take
/// hours, and one for each archived disk, which has at least an event and takes some syncs.
const MOST_ATTEMPTS: u32 = u32::MAX;

/// The disk from which a run goes on after an attempt.
enum Next {
    /// The disk of the attempt, which may be longer now.
    Same(FileDisk),
    /// The next disk, after that of the attempt is archived.
    Other(FileDisk),
}

/// Makes attempts of a run until one ends after which the run does not go on. Returns that one, or
/// why the node programs of an attempt were not met.
///
/// Each attempt simulates the model as the simulation on its disk begins. The origin of a disk is
/// read once, when the run comes to it; only the disk of a segment is opened once more for that.
pub(crate) fn run_attempts<M, R, P, O>(
    rt: &R,
    nodes: NodePrograms<'_>,
    of: &Simulated<M>,
    begun: BegunDisk<FileDisk>,
    args: RunArgs<'_>,
    watch: &mut Watching<'_, R, P>,
    out: &mut O,
) -> Result<Tried, Fault>
where
    M: Modelled,
    R: Files<File = File> + Net + Processes + Clock + AllocGlobal,
    P: Progress,
    O: Write,
    requires possible { MayRun args.nodes of.now.end }
    requires sound { CanBegin (M.meaning of.now.model).lps begun.origin }
    requires begins { BeginsWith (M.meaning of.now.model).lps begun.disk.reads begun.origin }
    // Unless node programs are trusted, the run is a list of calls of a history on its disk, and on
    // each next one if it is archived; the last of them has printed the numbers that it acknowledges.
    // If they are trusted, the records that each of these disks had at first stay on it.
    ensures run { IfOk result (λ ended. IsWholeRun (trusts_nodes args.entry)
        (M.meaning of.now.model) of.now.end (nodes_of args.entry) (disk_of_file begun.disk)
        (disk_of_file ended.disk) ended.outcome (out.new ≡ out.old) (O.contents out.old)
        (O.contents out.new)) }
    ensures unmet { OnErr result (out.new ≡ out.old) }
{
    let mut going = GoingOn::of(&args);
    let BegunDisk {
        disk,
        origin,
        time: _,
    } = begun;
    let mut disk = disk;
    let mut origin = origin;
    'attempts: for _ in 0..MOST_ATTEMPTS {
        let next = match attempt_and_go_on::<M, R, P, O>(
            rt,
            nodes,
            of,
            origin.as_ref(),
            disk,
            args,
            &mut going,
            watch,
            out,
        )? {
            Ok(next) => next,
            Err(last) => return Ok(last),
        };
        let (following, first) = gone_on(rt.alloc(), &of.model, origin, next);
        disk = following;
        origin = first;
    }
    attempt_last::<M, R, P, O>(rt, nodes, of, origin.as_ref(), disk, args, watch, out)
}

/// Returns the disk from which a run goes on, and the origin with which the simulation on it begins:
/// that of the disk before, if it is the same one.
fn gone_on<M: Modelled>(
    alloc: Global,
    model: &M,
    origin: Option<Origin>,
    next: Next,
) -> (FileDisk, Option<Origin>)
    requires sound { CanBegin (M.meaning model.now).lps origin }
    ensures sound { CanBegin (M.meaning model.now).lps result.1 }
    ensures is { IsGoneOn (M.meaning model.now).lps origin next result.0 result.1 }
{
    match next {
        Next::Same(disk) => (disk, origin),
        Next::Other(disk) => {
            let BegunDisk {
                disk,
                origin,
                time: _,
            } = BegunDisk::of(alloc, model, disk);
            (disk, origin)
        }
    }
}

/// Makes one attempt of a run on a disk whose simulation begins with this origin, and what follows
/// it. Returns the disk from which the run goes on, or the attempt if it does not.
fn attempt_and_go_on<M, R, P, O>(
    rt: &R,
    nodes: NodePrograms<'_>,
    of: &Simulated<M>,
    origin: Option<&Origin>,
    disk: FileDisk,
    args: RunArgs<'_>,
    going: &mut GoingOn<'_>,
    watch: &mut Watching<'_, R, P>,
    out: &mut O,
) -> Result<Result<Next, Tried>, Fault>
where
    M: Modelled,
    R: Files<File = File> + Net + Processes + Clock + AllocGlobal,
    P: Progress,
    O: Write,
    requires possible { MayRun args.nodes of.now.end }
    requires sound { CanBegin (M.meaning of.now.model).lps (option_map (λ o. o.now) origin) }
    ensures next { IfOk result (λ ended. IfOk ended (λ next. (out.new ≡ out.old)
        × IsFollowed (trusts_nodes args.entry)
        (continued (M.meaning of.now.model) (option_map (λ o. o.now) origin.entry)) of.now.end
        (disk_of_file disk) next)) }
    ensures last { IfOk result (λ ended. IfErr ended (λ last. IsLastAttempt (trusts_nodes args.entry)
        (continued (M.meaning of.now.model) (option_map (λ o. o.now) origin.entry)) of.now.end
        (nodes_of args.entry) (disk_of_file disk) (disk_of_file last.disk) last.outcome
        (out.new ≡ out.old) (O.contents out.old) (O.contents out.new))) }
    ensures unmet { OnErr result (out.new ≡ out.old) }
{
    let on = Simulated {
        model: Continued::new(&of.model, origin),
        end: of.end,
    };
    let ended = attempt::<Continued<'_, M>, R, P, O>(rt, nodes, &on, disk, args, watch, out)?;
    Ok(next_disk(rt, &on, ended, going, nodes.calls, watch))
}

/// Makes an attempt of a run on a disk whose simulation begins with this origin.
fn attempt_last<M, R, P, O>(
    rt: &R,
    nodes: NodePrograms<'_>,
    of: &Simulated<M>,
    origin: Option<&Origin>,
    disk: FileDisk,
    args: RunArgs<'_>,
    watch: &mut Watching<'_, R, P>,
    out: &mut O,
) -> Result<Tried, Fault>
where
    M: Modelled,
    R: Files<File = File> + Net + Processes + Clock + AllocGlobal,
    P: Progress,
    O: Write,
    requires possible { MayRun args.nodes of.now.end }
    requires sound { CanBegin (M.meaning of.now.model).lps (option_map (λ o. o.now) origin) }
    ensures last { IfOk result (λ last. IsLastAttempt (trusts_nodes args.entry)
        (continued (M.meaning of.now.model) (option_map (λ o. o.now) origin.entry)) of.now.end
        (nodes_of args.entry) (disk_of_file disk) (disk_of_file last.disk) last.outcome
        (out.new ≡ out.old) (O.contents out.old) (O.contents out.new)) }
    ensures unmet { OnErr result (out.new ≡ out.old) }
{
    let on = Simulated {
        model: Continued::new(&of.model, origin),
        end: of.end,
    };
    attempt::<Continued<'_, M>, R, P, O>(rt, nodes, &on, disk, args, watch, out)
}

/// Makes one attempt of a run: without nodes, over nodes in this program, or over node programs if
/// a folder of sockets is given.
fn attempt<M, R, P, O>(
    rt: &R,
    nodes: NodePrograms<'_>,
    of: &Simulated<M>,
    disk: FileDisk,
    args: RunArgs<'_>,
    watch: &mut Watching<'_, R, P>,
    out: &mut O,
) -> Result<Tried, Fault>
where
    M: Modelled,
    R: Files<File = File> + Net + Processes + Clock + AllocGlobal,
    P: Progress,
    O: Write,
    requires possible { MayRun args.nodes of.now.end }
    ensures tried { IfOk result (λ ended. IsAttemptBy (trusts_nodes args.entry)
        (M.meaning of.now.model) of.now.end (nodes_of args.entry) (disk_of_file disk)
        (disk_of_file ended.disk) ended.outcome (out.new ≡ out.old) (O.contents out.old)
        (O.contents out.new)) }
    ensures unmet { OnErr result (out.new ≡ out.old) }
{
    if args.plain {
        return Ok(attempt_plainly::<M, R, P, O>(rt.alloc(), of, disk, &args, watch, out));
    }
    let plan = plan_of(&args);
    match args.sockets {
        None => Ok(attempt_here::<M, R, P, O>(rt.alloc(), of, disk, plan, watch, out)),
        Some(folder) => {
            let behind = Behind {
                program: nodes.program,
                text: nodes.text,
                folder,
                cut: args.cut,
                attach: args.attach,
                bind: args.bind,
                silence: args.silence,
                calls: nodes.calls,
            };
            let judge = Judge {
                every: judged_one_in(args.judge),
                differences: nodes.differences,
            };
            attempt_behind::<M, R, P, O>(rt, behind, of, disk, plan, judge, watch, out)
        }
    }
}

/// Makes an attempt over nodes in this program.
fn attempt_here<M, R, P, O>(
    alloc: Global,
    of: &Simulated<M>,
    disk: FileDisk,
    plan: Plan,
    watch: &mut Watching<'_, R, P>,
    out: &mut O,
) -> Tried
where
    M: Modelled,
    R: Files<File = File> + Clock,
    P: Progress,
    O: Write,
    requires possible { MayRun plan.nodes of.now.end }
    ensures { IsAttempt (M.meaning of.now.model) of.now.end plan.nodes (disk_of_file disk)
        (disk_of_file result.disk) result.outcome (out.new ≡ out.old) (O.contents out.old)
        (O.contents out.new) }
{
    runs::commands::run(alloc, of, disk, plan, watch, out)
}

/// One in this many reports of each process of a node program is judged, unless an option says
/// otherwise.
const JUDGED: u32 = 64;

/// Returns in how many reports of each process one is judged as it arrives, or 0 if none is. Where
/// commits judge all of them, this only finds some wrong reports earlier, and which event they are
/// of.
fn judged_one_in(judge: Option<u32>) -> u32 {
    if judges_all(judge) {
        JUDGED
    } else {
        judge.unwrap_or(JUDGED)
    }
}

/// How reports of node programs are judged as they arrive.
#[derive(Clone, Copy)]
struct Judge<'a> {
    /// One in this many reports of each process is judged, or none for 0.
    every: u32,
    /// Of which event the first report is that is refused.
    differences: &'a Differences,
}

/// Makes an attempt over node programs of the same simulation, and judges their reports.
///
/// Returns `File` if a socket is not made, a program does not start, or one ends before it connects,
/// `OtherNode` if one takes part in another simulation, or `NoMemory`. If one is lost before it has
/// answered the run's hello, the outcome is that of a node which is lost later. At every exit it then
/// closes the connections, waits for each program that it started, and removes each socket and file
/// that it made. Failures of this cleanup are not reported.
///
/// If no program is to be started, the attempt waits without limit until each node has connected, in
/// any order, and reports which ones it waits for.
fn attempt_behind<M, R, P, O>(
    rt: &R,
    behind: Behind<'_>,
    of: &Simulated<M>,
    disk: FileDisk,
    plan: Plan,
    judge: Judge<'_>,
    watch: &mut Watching<'_, R, P>,
    out: &mut O,
) -> Result<Tried, Fault>
where
    M: Modelled,
    R: Files<File = File> + Net + Processes + Clock + AllocGlobal,
    P: Progress,
    O: Write,
    requires possible { MayRun plan.nodes of.now.end }
    ensures tried { IfOk result (λ ended. IsAttemptBy (not plan.judged) (M.meaning of.now.model)
        of.now.end plan.nodes (disk_of_file disk) (disk_of_file ended.disk) ended.outcome
        (out.new ≡ out.old) (O.contents out.old) (O.contents out.new)) }
    ensures unmet { OnErr result (out.new ≡ out.old) }
{
    let own = Hello::of(rt.alloc(), &of.model, of.end)?;
    let mut met = Vec::with_capacity(rt.alloc(), plan.nodes as usize)?;
    // every exit from here on passes the cleanup
    let tried = match meet(rt, behind, &own, plan.nodes, &mut met, watch.progress) {
        Ok(ports) => attempt_over::<M, R, P, O>(
            rt.alloc(),
            of,
            ports,
            disk,
            plan,
            judge,
            watch,
            out,
        ),
        Err(NodesFault::Lost(fault)) => Ok(Returned {
            disk,
            outcome: Err(CommandFault::Session(SessionFault::Port(fault))),
        }),
        Err(fault) => Err(Fault::from(fault)),
    };
    clear(rt, behind.silence, met);
    tried
}

/// Makes an attempt over connected node programs, and judges their reports. All connections are
/// closed when it returns.
fn attempt_over<M, R, P, O>(
    alloc: Global,
    of: &Simulated<M>,
    ports: Vec<SocketPort<NodeStream<'_>>>,
    disk: FileDisk,
    plan: Plan,
    judge: Judge<'_>,
    watch: &mut Watching<'_, R, P>,
    out: &mut O,
) -> Result<Tried, Fault>
where
    M: Modelled,
    R: Files<File = File> + Clock,
    P: Progress,
    O: Write,
    requires possible { MayRun plan.nodes of.now.end }
    requires ports { map (λ p. state_of p.held) ports.items ≡ replicate plan.nodes
        (state_of Fresh) }
    ensures tried { IfOk result (λ ended. IsAttemptBy (not plan.judged) (M.meaning of.now.model)
        of.now.end plan.nodes (disk_of_file disk) (disk_of_file ended.disk) ended.outcome
        (out.new ≡ out.old) (O.contents out.old) (O.contents out.new)) }
    ensures unmet { OnErr result (out.new ≡ out.old) }
{
    let Judge { every, differences } = judge;
    let judged = judged_ports(alloc, &of.model, every, Some(differences), ports)?;
    Ok(runs::commands::run_over(alloc, of, judged, disk, plan, watch, out))
}

/// Returns the disk from which the run goes on after this attempt, or the attempt if it does not.
fn next_disk<M, R, P>(
    rt: &R,
    of: &Simulated<M>,
    ended: Tried,
    going: &mut GoingOn<'_>,
    calls: &Calls,
    watch: &mut Watching<'_, R, P>,
) -> Result<Next, Tried>
where
    M: Modelled,
    R: Files<File = File> + Clock + AllocGlobal,
    P: Progress,
    requires some { 1 ≤ of.now.end }
    requires short { of.now.end ≤ 2 ^ 40 }
    ensures next { OnOk result (IsWithoutOutput ended.outcome) }
    ensures last { IfErr result (λ last. last.outcome ≡ ended.outcome) }
    ensures goes_on { IfOk result (GoesOnWith (M.meaning of.now.model) of.now.end
        (disk_of_file ended.disk)) }
    ensures rest { IfErr result (λ last. KeepsAll (M.meaning of.now.model)
        (disk_of_file ended.disk) (disk_of_file last.disk)) }
{
    match ended.outcome {
        Err(CommandFault::Session(SessionFault::Full)) => full(rt, of, ended, *going, watch),
        Err(CommandFault::Session(SessionFault::Port(fault))) => {
            match retried(rt.alloc(), fault, ended, going, calls, watch) {
                Ok(disk) => Ok(Next::Same(disk)),
                Err(last) => Err(last),
            }
        }
        Err(CommandFault::Rounds) if going.is_unlimited => Ok(Next::Same(ended.disk)),
        _ => Err(ended),
    }
}

/// Returns the disk from which the run goes on after an attempt that found its disk full: the next one
/// after that is archived, or the same one after it is made longer. Returns the attempt if neither is
/// asked for, or is done.
fn full<M, R, P>(
    rt: &R,
    of: &Simulated<M>,
    ended: Tried,
    going: GoingOn<'_>,
    watch: &mut Watching<'_, R, P>,
) -> Result<Next, Tried>
where
    M: Modelled,
    R: Files<File = File> + Clock + AllocGlobal,
    P: Progress,
    requires some { 1 ≤ of.now.end }
    requires short { of.now.end ≤ 2 ^ 40 }
    ensures last { IfErr result (λ last. last.outcome ≡ ended.outcome) }
    ensures goes_on { IfOk result (GoesOnWith (M.meaning of.now.model) of.now.end
        (disk_of_file ended.disk)) }
    ensures rest { IfErr result (λ last. KeepsAll (M.meaning of.now.model)
        (disk_of_file ended.disk) (disk_of_file last.disk)) }
{
    match going.archive {
        Some(into) => match archived(rt, of, ended, into, watch) {
            Ok(disk) => Ok(Next::Other(disk)),
            Err(last) => Err(last),
        },
        None => match lengthened(rt.alloc(), of, ended, going.most, watch.progress) {
            Ok(disk) => Ok(Next::Same(disk)),
            Err(last) => Err(last),
        },
    }
}

/// Returns the disk of an attempt that found it full, after it is made longer: twice as many
/// sectors, at most `most`. Returns the attempt if the disk is not made longer.
fn lengthened<M, P>(
    alloc: Global,
    of: &Simulated<M>,
    ended: Tried,
    most: Option<u32>,
    progress: &mut P,
) -> Result<FileDisk, Tried>
where
    M: Modelled,
    P: Progress,
    ensures last { IfErr result (λ last. last.outcome ≡ ended.outcome) }
    // The same disk, with zeros after it; and a call of a history, at every exit.
    ensures longer { IfOk result (λ disk. (sectors : ℕ)
        × (disk.reads ≡ grown_to sectors ended.disk.reads)) }
    ensures kept { IfOk result (λ disk. KeepsAll (M.meaning of.now.model)
        (disk_of_file ended.disk) (disk_of_file disk)) }
    ensures kept_err { IfErr result (λ last. KeepsAll (M.meaning of.now.model)
        (disk_of_file ended.disk) (disk_of_file last.disk)) }
{
    let Returned { disk, outcome } = ended;
    let before = disk.sectors();
    let sectors = match most {
        Some(most) => before.saturating_mul(2).min(most),
        None => before,
    };
    if sectors <= before {
        return Err(Returned { disk, outcome });
    }
    let Returned {
        disk,
        outcome: grown,
    } = grow(alloc, &of.model, disk, sectors, sectors);
    match grown {
        Ok(_grown) => {
            if let Ok(line) = format!(in alloc; "grown {before} to {sectors} sectors") {
                progress.goes_on(line.as_str());
            }
            Ok(disk)
        }
        Err(fault) => {
            if let Ok(line) = format!(in alloc; "not grown to {sectors} sectors ({fault})") {
                progress.goes_on(line.as_str());
            }
            Err(Returned { disk, outcome })
        }
    }
}

/// Returns the disk of an attempt that a lost node program ended, if retries are left, and otherwise
/// the attempt.
fn retried<R, P>(
    alloc: Global,
    fault: PortFault,
    ended: Tried,
    going: &mut GoingOn<'_>,
    calls: &Calls,
    watch: &mut Watching<'_, R, P>,
) -> Result<FileDisk, Tried>
where
    R: Files<File = File> + Clock,
    P: Progress,
    ensures same { IfOk result (λ disk. disk ≡ ended.disk) }
    ensures last { IfErr result (λ last. last ≡ ended) }
{
    if !is_lost(fault) || going.retried >= going.retries {
        return Err(ended);
    }
    going.retried = going.retried.saturating_add(1);
    say_retry(alloc, fault, *going, calls, watch);
    Ok(ended.disk)
}

/// Whether a node program was lost with this fault: it ended, or its connection failed or was silent
/// for too long. A node that refuses its work, or answers what is no reply, would do so again.
pub(crate) fn is_lost(fault: PortFault) -> bool {
    matches!(
        fault,
        PortFault::Closed | PortFault::Wire(WireFault::Io) | PortFault::Wire(WireFault::Truncated)
    )
}

/// Says which node is lost, when, and how the run goes on.
fn say_retry<R, P>(
    alloc: Global,
    fault: PortFault,
    going: GoingOn<'_>,
    calls: &Calls,
    watch: &mut Watching<'_, R, P>,
)
where
    R: Files<File = File> + Clock,
    P: Progress,
{
    let GoingOn {
        retries,
        retried,
        ..
    } = going;
    let node = match calls.last() {
        Some(call) => call.node,
        None => 0,
    };
    let time = watch.time;
    let line = format!(in alloc;
        "node {node} is lost (Session Port {fault}) at {time} ticks: goes on from the last commit, \
         retry {retried} of {retries}"
    );
    if let Ok(line) = line {
        watch.progress.goes_on(line.as_str());
    }
}
