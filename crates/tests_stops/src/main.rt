//! Runs a model on a disk in memory that stops at each of its writes in turn, or fails at each
//! operation. Crashes the disk, opens it over another number of nodes and goes on to the end. There
//! the world must be that of the plain runner, and so must what `log` and `show` print of the disk.
//! The disk is made for that end, or for an earlier one to which it runs first.
#![tactic(auto)]

ghost use Rattle.std.specs.Prelude.{◌≡◌, ◌≤◌, ◌<◌, ◌^◌, IfOk};

mod world;

use commitlog::{LogFault, format};
use coordinator::{Extended, FrontView, Session, SessionFault, Step, extend};
use disk::{DiskPlan, MemDisk, NotOpened, Returned, Torn};
use model::{Words, World, WorldFault, WorldParts};
use models::AnyModel;
use recovery::{RecoveryFault, header};
use runs::commands::{CommandFault, Simulated, committed};
use runs::{Batch, Plan, RunFault, Schedule, Watch, local_ports, run_session};
use std::alloc::{AllocError, AllocFailed, Global};
use std::{env, fs, io};
use texts::{ModelFault, read_model, write_log, write_world};
use thiserror::Error;
use wire::LocalPort;
use world::is_front;

/// A session whose nodes are in this program, on a disk in memory.
type Running<'m> = Session<'m, AnyModel, LocalPort<'m, AnyModel>, MemDisk>;

/// A violation of the headline.
#[derive(Clone, Copy, Debug, PartialEq, Eq, Error)]
enum Loss {
    #[error("the front is not what was printed")]
    Front,
    #[error("a session goes on whose disk failed")]
    GoesOn,
    #[error("an opening is refused whose disk did not fail")]
    Opening,
    #[error("what a crash left is refused")]
    Disk,
    #[error("what a crash left is opened under both ends, or under none")]
    Ends,
    #[error("a later end that was acknowledged is not in force")]
    End,
    #[error("a later end is not put in force, or not behind the one before")]
    Extending,
    #[error("what was acknowledged is lost")]
    Acknowledged,
    #[error("what an opening finds is not the world of the plain run up to its time")]
    Opened,
    #[error("the world at the end is not that of the plain run")]
    World,
    #[error("what is printed of the disk at the end is not what the plain run prints")]
    Text,
}

/// Why the program stopped: a violation, or a failure of its own.
#[derive(Debug, Drop, Error)]
enum Failure {
    #[error("usage: tests_stops [--all] [--writes] MODEL SECTORS .., paths of model files and sizes of their disks")]
    Usage,
    #[error("{0}")]
    Model(ModelFault),
    #[error("World {0}")]
    World(WorldFault),
    #[error("Log {0}")]
    Log(LogFault),
    #[error("{0}")]
    Run(RunFault),
    #[error("{0}")]
    Printed(CommandFault),
    #[error("NoMemory")]
    NoMemory,
    /// A disk or a session contradicts the headline.
    #[error("{0}")]
    Lost(Loss),
    #[error("{0}")]
    Output(io::Error),
}

impl From<AllocError> for Failure {
    fn from(_refused: AllocError) -> Failure {
        Failure::NoMemory
    }
}

impl<T: Drop> From<AllocFailed<T>> for Failure {
    fn from(_refused: AllocFailed<T>) -> Failure {
        Failure::NoMemory
    }
}

impl From<WorldFault> for Failure {
    fn from(fault: WorldFault) -> Failure {
        Failure::World(fault)
    }
}

impl From<LogFault> for Failure {
    fn from(fault: LogFault) -> Failure {
        Failure::Log(fault)
    }
}

impl From<CommandFault> for Failure {
    fn from(fault: CommandFault) -> Failure {
        Failure::Printed(fault)
    }
}

impl From<RunFault> for Failure {
    fn from(fault: RunFault) -> Failure {
        Failure::Run(fault)
    }
}

/// A model with its ends, and the result of the plain runner.
#[derive(Drop)]
struct ModelWithPlainRun {
    model: AnyModel,
    /// The end for which the disk is made, in ticks; the first run goes to it.
    first: u64,
    /// The last end, in ticks: the first one, or a later one.
    end: u64,
    plain: WorldParts,
    /// The log and the world of the plain run as `seq` prints them.
    text: Vec<u8>,
    formatted: Vec<u8>,
}

/// How a run is made and resumed.
#[derive(Clone, Copy)]
struct Way {
    nodes: u32,
    resumed: u32,
    batch: u32,
    /// The number of rounds between checkpoints; 0 for no checkpoints.
    checkpoint_every: u32,
}

/// The time up to which a run acknowledged its commits, in ticks.
#[derive(Drop)]
struct Acknowledged {
    time: u64,
}

impl Watch for Acknowledged {
    fn committed(&mut self, time: u64, _events: usize) {
        self.time = time;
    }
}

/// More rounds than a run that makes progress needs.
const ROUNDS: u32 = 1 << 20;

/// The largest disk, in bytes.
const MOST: usize = 1 << 28;

/// The world of the plain run of a model with this end, up to time `g`.
fn plain_world(alloc: Global, model: &AnyModel, end: u64, g: u64) -> Result<World, Failure>
    requires some { 1 ≤ end }
    requires short { end ≤ 2 ^ 40 }
{
    let mut world = World::open(alloc, model, end)?;
    world.run_to(model, g)?;
    Ok(world)
}

/// What `seq` prints of the plain run.
fn text_of(alloc: Global, plain: &WorldParts) -> Result<Vec<u8>, Failure> {
    let (states, numbers) = (plain.states.as_slice(), plain.numbers.as_slice());
    if states.len() != numbers.len() {
        return Err(Failure::Lost(Loss::World));
    }
    let mut text = Vec::new(alloc);
    write_log(plain.log.as_slice(), &mut text).map_err(Failure::Output)?;
    write_world(
        plain.time,
        states,
        numbers,
        plain.pending.as_slice(),
        &mut text,
    )
    .map_err(Failure::Output)?;
    Ok(text)
}

/// The image of a disk of this size, formatted for a model and an end.
fn formatted(alloc: Global, model: &AnyModel, end: u64, sectors: u32) -> Result<Vec<u8>, Failure>
    requires some { 1 ≤ end }
    requires short { end ≤ 2 ^ 40 }
{
    let mut disk = MemDisk::blank(alloc, sectors)?;
    format(&mut disk, &header(alloc, model, end))?;
    Ok(disk.crash(alloc, Torn::Old)?)
}

/// What a run leaves after a failure of its disk.
#[derive(Drop)]
struct Left {
    /// The time up to which it acknowledged its commits, in ticks.
    acknowledged: u64,
    /// Whether it acknowledged the later end.
    extended: bool,
    disk: MemDisk,
    /// Whether it reached its end before anything failed.
    ended: bool,
}

/// Runs on a disk that fails by this plan: to the first end, and then to the later one.
fn left_by(alloc: Global, of: &ModelWithPlainRun, way: Way, plan: DiskPlan) -> Result<Left, Failure>
    requires some { 0 < way.nodes }
    requires few { way.nodes ≤ 64 }
    requires begun { 1 ≤ of.now.first }
    requires order { of.now.first ≤ of.now.end }
    requires short { of.now.end ≤ 2 ^ 40 }
{
    let disk = disk_of(alloc, of.formatted.clone()?, plan)?;
    let mut acknowledged = Acknowledged { time: 0 };
    let (ended, disk) = run_to(alloc, of, of.first, way, disk, &mut acknowledged)?;
    if !ended || of.first == of.end {
        return Ok(Left {
            acknowledged: acknowledged.time,
            extended: false,
            disk,
            ended,
        });
    }
    let (extended, disk) = carried_on(alloc, of, acknowledged.time, disk)?;
    let (ended, disk) = if extended {
        run_to(alloc, of, of.end, way, disk, &mut acknowledged)?
    } else {
        (false, disk)
    };
    Ok(Left {
        acknowledged: acknowledged.time,
        extended,
        disk,
        ended,
    })
}

/// Runs to an end. Returns whether it got there before the disk failed.
fn run_to(
    alloc: Global,
    of: &ModelWithPlainRun,
    end: u64,
    way: Way,
    disk: MemDisk,
    acknowledged: &mut Acknowledged,
) -> Result<(bool, MemDisk), Failure>
    requires some { 0 < way.nodes }
    requires few { way.nodes ≤ 64 }
    requires begun { 1 ≤ end }
    requires short { end ≤ 2 ^ 40 }
{
    let ports = local_ports(alloc, &of.model, way.nodes)?;
    match Session::open(alloc, &of.model, ports, disk, end) {
        Ok(mut session) => {
            let ended = is_run(alloc, &mut session, end, way, acknowledged)?;
            Ok((ended, session.into_disk()))
        }
        Err(NotOpened { fault, disk }) if is_of_disk(fault) => Ok((false, disk)),
        Err(_refused) => Err(Failure::Lost(Loss::Opening)),
    }
}

/// Whether this fault comes from the disk.
fn is_of_disk(fault: SessionFault) -> bool {
    matches!(
        fault,
        SessionFault::Disk | SessionFault::Recovery(RecoveryFault::Log(LogFault::Disk(_)))
    )
}

/// Puts the later end in force after the first one. Returns whether that was acknowledged before
/// the disk failed.
fn carried_on(
    alloc: Global,
    of: &ModelWithPlainRun,
    acknowledged: u64,
    disk: MemDisk,
) -> Result<(bool, MemDisk), Failure> {
    let Returned { disk, outcome } = extend(alloc, &of.model, disk, of.end);
    match outcome {
        Ok(Extended { front, before }) if before == of.first && front.g >= acknowledged => Ok((
            true, disk,
        )),
        Err(fault) if is_of_disk(fault) => Ok((false, disk)),
        _ => Err(Failure::Lost(Loss::Extending)),
    }
}

/// Whether a session runs to its end. A session whose disk fails must be spent.
fn is_run(
    alloc: Global,
    session: &mut Running<'_>,
    end: u64,
    way: Way,
    acknowledged: &mut Acknowledged,
) -> Result<bool, Failure>
    requires { 0 < way.nodes }
{
    match run_session(alloc, session, end, plan_of(way.nodes, way), acknowledged) {
        Ok(_ran) => Ok(true),
        Err(RunFault::Session(SessionFault::Disk)) => {
            if session.front().time != acknowledged.time {
                return Err(Failure::Lost(Loss::Front));
            }
            match session.step(&Step::Commit) {
                Err(SessionFault::Spent) => Ok(false),
                _ => Err(Failure::Lost(Loss::GoesOn)),
            }
        }
        Err(fault) => Err(Failure::Run(fault)),
    }
}

/// Opens the image that a crash left over another number of nodes, runs to the end, and checks the
/// result.
fn resumed(
    alloc: Global,
    of: &ModelWithPlainRun,
    way: Way,
    left: &Left,
    image: Vec<u8>,
) -> Result<(), Failure>
    requires some { 0 < way.resumed }
    requires few { way.resumed ≤ 64 }
    requires begun { 1 ≤ of.now.first }
    requires order { of.now.first ≤ of.now.end }
    requires short { of.now.end ≤ 2 ^ 40 }
{
    let disk = under_the_end(alloc, of, way.resumed, left, image)?;
    let ports = local_ports(alloc, &of.model, way.resumed)?;
    let mut session = match Session::open(alloc, &of.model, ports, disk, of.end) {
        Ok(session) => session,
        Err(_refused) => return Err(Failure::Lost(Loss::Disk)),
    };
    look_at_front(alloc, of, left, session.front())?;
    let mut last = Acknowledged { time: 0 };
    run_session(
        alloc,
        &mut session,
        of.end,
        plan_of(way.resumed, way),
        &mut last,
    )?;
    if !is_front(&of.plain, session.front()) {
        return Err(Failure::Lost(Loss::World));
    }
    look_at_texts(alloc, of, &session.into_disk())
}

/// Checks that an opening finds at least what was acknowledged, and the whole world of the plain run
/// up to its time.
fn look_at_front(
    alloc: Global,
    of: &ModelWithPlainRun,
    left: &Left,
    front: FrontView<'_>,
) -> Result<(), Failure>
    requires begun { 1 ≤ of.now.end }
    requires short { of.now.end ≤ 2 ^ 40 }
{
    if front.time < left.acknowledged {
        return Err(Failure::Lost(Loss::Acknowledged));
    }
    let plain = plain_world(alloc, &of.model, of.end, front.time)?.into_parts();
    if !is_front(&plain, front) {
        return Err(Failure::Lost(Loss::Opened));
    }
    Ok(())
}

/// A disk with this image, with the later end put in force if the first one still is. The image
/// must open under exactly one of them.
fn under_the_end(
    alloc: Global,
    of: &ModelWithPlainRun,
    nodes: u32,
    left: &Left,
    image: Vec<u8>,
) -> Result<MemDisk, Failure>
    requires some { 0 < nodes }
    requires few { nodes ≤ 64 }
    requires begun { 1 ≤ of.now.first }
    requires order { of.now.first ≤ of.now.end }
    requires short { of.now.end ≤ 2 ^ 40 }
{
    if of.first == of.end {
        return disk_of(alloc, image, DiskPlan::default());
    }
    let is_later = is_opened(alloc, of, of.end, nodes, &image)?;
    if is_later == is_opened(alloc, of, of.first, nodes, &image)? {
        return Err(Failure::Lost(Loss::Ends));
    }
    if left.extended && !is_later {
        return Err(Failure::Lost(Loss::End));
    }
    let disk = disk_of(alloc, image, DiskPlan::default())?;
    if is_later {
        return Ok(disk);
    }
    match carried_on(alloc, of, left.acknowledged, disk)? {
        (true, disk) => Ok(disk),
        _ => Err(Failure::Lost(Loss::Extending)),
    }
}

/// Whether a disk with this image opens under an end. A refusal must be because another end is in
/// force.
fn is_opened(
    alloc: Global,
    of: &ModelWithPlainRun,
    end: u64,
    nodes: u32,
    image: &Vec<u8>,
) -> Result<bool, Failure>
    requires some { 0 < nodes }
    requires few { nodes ≤ 64 }
    requires begun { 1 ≤ end }
    requires short { end ≤ 2 ^ 40 }
{
    let disk = disk_of(alloc, image.clone()?, DiskPlan::default())?;
    let ports = local_ports(alloc, &of.model, nodes)?;
    match Session::open(alloc, &of.model, ports, disk, end) {
        Ok(_session) => Ok(true),
        Err(
            NotOpened {
                fault: SessionFault::Recovery(RecoveryFault::OtherModel),
                ..
            },
        ) => Ok(false),
        Err(_refused) => Err(Failure::Lost(Loss::Disk)),
    }
}

/// Checks that the log and the world on a disk, opened again, are in text what `seq` prints.
fn look_at_texts(alloc: Global, of: &ModelWithPlainRun, disk: &MemDisk) -> Result<(), Failure>
    requires begun { 1 ≤ of.now.end }
    requires short { of.now.end ≤ 2 ^ 40 }
{
    let what = Simulated {
        model: of.model,
        end: of.end,
    };
    let mut text = Vec::new(alloc);
    let front = committed(alloc, &what, reopened(alloc, disk)?)?;
    let mut states = Vec::with_capacity(alloc, front.states.as_slice().len())?;
    'states: for state in front.states.as_slice() {
        states.push(Words::from_slice(alloc, state.as_slice())?)?;
    }
    let (numbers, pending) = (front.numbers.as_slice(), front.pending.as_slice());
    if states.len() != numbers.len() {
        return Err(Failure::Lost(Loss::World));
    }
    write_log(front.log.as_slice(), &mut text).map_err(Failure::Output)?;
    write_world(front.g, states.as_slice(), numbers, pending, &mut text).map_err(Failure::Output)?;
    if text.as_slice() != of.text.as_slice() {
        return Err(Failure::Lost(Loss::Text));
    }
    Ok(())
}

/// A disk with the synced content of this one.
fn reopened(alloc: Global, disk: &MemDisk) -> Result<MemDisk, Failure> {
    disk_of(alloc, disk.crash(alloc, Torn::Old)?, DiskPlan::default())
}

/// A disk in memory with this image, which must not be too large.
fn disk_of(alloc: Global, image: Vec<u8>, plan: DiskPlan) -> Result<MemDisk, Failure> {
    if image.len() > MOST {
        return Err(Failure::Usage);
    }
    Ok(MemDisk::of(alloc, image, plan)?)
}

/// The plan of a run.
fn plan_of(nodes: u32, way: Way) -> Plan
    ensures { result.nodes ≡ nodes }
{
    Plan {
        nodes,
        batch: Batch::Fixed(way.batch),
        rounds: ROUNDS,
        schedule: Schedule::InTurn,
        checkpoint_every: way.checkpoint_every,
        seals: false,
        commit_every: 0,
        judged: false,
    }
}

/// Where a disk fails.
#[derive(Clone, Copy)]
enum At {
    /// At a write and everything after it.
    Write,
    /// At one operation: a read, a write or a sync.
    Operation,
}

impl At {
    /// The plan of a disk that fails at the write or operation of this number.
    fn plan(self, number: u64) -> DiskPlan {
        match self {
            At::Write => DiskPlan {
                fail: None,
                stop: Some(number),
            },
            At::Operation => DiskPlan {
                fail: Some(number),
                stop: None,
            },
        }
    }
}

/// What a crash leaves in each dirty sector: the synced content, the last written one, a fill, or
/// the first bytes of what was written.
const TEARINGS: &[Torn] = &[
    Torn::Old,
    Torn::New,
    Torn::Fill(0),
    Torn::Fill(1),
    Torn::Cut(1),
    Torn::Cut(100),
];

/// Those of long runs.
const SOME_TEARINGS: &[Torn] = &[Torn::Old, Torn::New, Torn::Fill(1)];

/// How often disks failed, and from how many different images runs were resumed.
#[derive(Clone, Copy, Default)]
struct Counts {
    stops: u64,
    images: u64,
}

impl Counts {
    fn and(self, other: Counts) -> Counts {
        Counts {
            stops: self.stops.saturating_add(other.stops),
            images: self.images.saturating_add(other.images),
        }
    }
}

/// Lets a disk fail at each of its writes or operations in turn, and crashes it in these ways.
fn stops(
    alloc: Global,
    of: &ModelWithPlainRun,
    way: Way,
    at: At,
    tearings: &[Torn],
) -> Result<Counts, Failure>
    requires some { 0 < way.nodes }
    requires few { way.nodes ≤ 64 }
    requires next { 0 < way.resumed }
    requires next_few { way.resumed ≤ 64 }
    requires begun { 1 ≤ of.now.first }
    requires order { of.now.first ≤ of.now.end }
    requires short { of.now.end ≤ 2 ^ 40 }
{
    let mut counts = Counts::default();
    for number in 0..u64::MAX {
        let left = left_by(alloc, of, way, at.plan(number))?;
        let images = crashes(alloc, of, way, &left, tearings)?;
        counts = counts.and(Counts { stops: 0, images });
        if left.ended {
            return Ok(counts);
        }
        counts = counts.and(Counts {
            stops: 1,
            images: 0,
        });
    }
    Ok(counts)
}

/// Crashes what a run left in each way, and resumes the run on each different image. Returns their
/// number.
fn crashes(
    alloc: Global,
    of: &ModelWithPlainRun,
    way: Way,
    left: &Left,
    tearings: &[Torn],
) -> Result<u64, Failure>
    requires next { 0 < way.resumed }
    requires next_few { way.resumed ≤ 64 }
    requires begun { 1 ≤ of.now.first }
    requires order { of.now.first ≤ of.now.end }
    requires short { of.now.end ≤ 2 ^ 40 }
{
    let images = images_of(alloc, &left.disk, tearings)?;
    let number = images.len() as u64;
    for image in images {
        resumed(alloc, of, way, left, image)?;
    }
    Ok(number)
}

/// The different images that these crashes of a disk leave.
fn images_of(alloc: Global, disk: &MemDisk, tearings: &[Torn]) -> Result<Vec<Vec<u8>>, Failure> {
    let mut images = Vec::new(alloc);
    for torn in tearings {
        let image = disk.crash(alloc, *torn)?;
        if !images.contains(&image) {
            images.push(image)?;
        }
    }
    Ok(images)
}

/// Ways of runs: the batch, and the rounds between checkpoints.
type Ways<'a> = &'a [(u32, u32)];

/// Short and longer turns, without and with checkpoints.
const WAYS: Ways<'static> = &[(1, 0), (7, 0), (1, 3), (7, 1)];

/// Turns of the default batch.
const USUAL_WAYS: Ways<'static> = &[(16, 0), (16, 2)];

/// Some of both for disks that get a later end, whose runs are longer.
const SOME_WAYS: Ways<'static> = &[(7, 1)];

const SOME_USUAL_WAYS: Ways<'static> = &[(16, 0)];

/// Lets disks of runs over this number of nodes fail, resumes the runs over the other number, in
/// each of these ways, and prints the counts.
fn all_ways(
    rt: &HostRuntime,
    alloc: Global,
    of: &ModelWithPlainRun,
    nodes: u32,
    resumed: u32,
    ways: Ways<'_>,
) -> Result<Counts, Failure>
    requires some { 0 < nodes }
    requires few { nodes ≤ 64 }
    requires next { 0 < resumed }
    requires next_few { resumed ≤ 64 }
    requires begun { 1 ≤ of.now.first }
    requires order { of.now.first ≤ of.now.end }
    requires short { of.now.end ≤ 2 ^ 40 }
{
    let mut total = Counts::default();
    for (batch, checkpoint_every) in ways {
        let way = Way {
            nodes,
            resumed,
            batch: *batch,
            checkpoint_every: *checkpoint_every,
        };
        let writes = stops(alloc, of, way, At::Write, TEARINGS)?;
        let operations = stops(alloc, of, way, At::Operation, TEARINGS)?;
        print_counts(rt, of, way, writes, operations)?;
        total = total.and(writes).and(operations);
    }
    Ok(total)
}

/// Prints the counts of one way.
fn print_counts(
    rt: &HostRuntime,
    of: &ModelWithPlainRun,
    way: Way,
    writes: Counts,
    operations: Counts,
) -> Result<(), Failure> {
    let Way {
        nodes,
        resumed,
        batch,
        checkpoint_every,
    } = way;
    let (first, end) = (of.first, of.end);
    let images = writes.images.saturating_add(operations.images);
    let (writes, operations) = (writes.stops, operations.stops);
    println!(rt;
        "ends {first} and {end}, nodes {nodes} then {resumed}, batch {batch}, \
         checkpoints {checkpoint_every}: {writes} writes, {operations} operations, {images} images"
    )
    .map_err(Failure::Output)
}

/// Reads a model file, and makes a disk of this size for its end or for half of it.
fn read_simulation(
    rt: &HostRuntime,
    alloc: Global,
    path: &str,
    sectors: u32,
    is_extended: bool,
) -> Result<ModelWithPlainRun, Failure>
    ensures begun { IfOk result (λ of. 1 ≤ of.first) }
    ensures order { IfOk result (λ of. of.first ≤ of.end) }
    ensures short { IfOk result (λ of. of.end ≤ 2 ^ 40) }
{
    let bytes = fs::read(rt, path).map_err(|_| Failure::Usage)?;
    let text = str::from_utf8(bytes.as_slice()).map_err(|_| Failure::Usage)?;
    let (model, end) = match read_model::<AnyModel>(alloc, text) {
        Ok(file) => file,
        Err(fault) => return Err(Failure::Model(fault)),
    };
    let first = if is_extended { (end / 2).max(1) } else { end };
    let plain = plain_world(alloc, &model, end, end)?.into_parts();
    let text = text_of(alloc, &plain)?;
    let formatted = formatted(alloc, &model, first, sectors)?;
    Ok(ModelWithPlainRun {
        model,
        first,
        end,
        plain,
        text,
        formatted,
    })
}

/// Tries the runs of a model in these ways.
fn try_model(
    rt: &HostRuntime,
    alloc: Global,
    of: &ModelWithPlainRun,
    ways: Ways<'_>,
    usual_ways: Ways<'_>,
) -> Result<Counts, Failure>
    requires begun { 1 ≤ of.now.first }
    requires order { of.now.first ≤ of.now.end }
    requires short { of.now.end ≤ 2 ^ 40 }
{
    let mut total = Counts::default();
    for (nodes, resumed) in [(1, 2), (2, 5), (5, 1)] {
        total = total.and(all_ways(rt, alloc, of, nodes, resumed, ways)?);
    }
    for resumed in [1, 2] {
        total = total.and(all_ways(rt, alloc, of, 3, resumed, usual_ways)?);
    }
    Ok(total)
}

/// Tries long runs of a model: stops them at each write only, without checkpoints.
fn try_writes(rt: &HostRuntime, alloc: Global, of: &ModelWithPlainRun) -> Result<Counts, Failure>
    requires begun { 1 ≤ of.now.first }
    requires order { of.now.first ≤ of.now.end }
    requires short { of.now.end ≤ 2 ^ 40 }
{
    let mut total = Counts::default();
    for (nodes, resumed, batch) in [
        (1, 2, 1),
        (1, 5, 7),
        (2, 5, 1),
        (2, 1, 7),
        (5, 1, 1),
        (5, 2, 7),
    ] {
        let way = Way {
            nodes,
            resumed,
            batch,
            checkpoint_every: 0,
        };
        let writes = stops(alloc, of, way, At::Write, SOME_TEARINGS)?;
        print_counts(rt, of, way, writes, Counts::default())?;
        total = total.and(writes);
    }
    Ok(total)
}

/// How much is tried of a model file.
#[derive(Clone, Copy, PartialEq, Eq)]
enum Extent {
    /// Disks made for its end in all ways, and disks that get a later end in some.
    Some,
    /// Both in all ways.
    All,
    /// Disks made for its end, stopped at each write without checkpoints.
    Writes,
}

/// Tries the runs of a model file.
fn try_file(
    rt: &HostRuntime,
    alloc: Global,
    path: &str,
    sectors: u32,
    extent: Extent,
) -> Result<Counts, Failure> {
    let of = read_simulation(rt, alloc, path, sectors, false)?;
    if extent == Extent::Writes {
        return try_writes(rt, alloc, &of);
    }
    let total = try_model(rt, alloc, &of, WAYS, USUAL_WAYS)?;
    let of = read_simulation(rt, alloc, path, sectors, true)?;
    let (ways, usual_ways) = if extent == Extent::All {
        (WAYS, USUAL_WAYS)
    } else {
        (SOME_WAYS, SOME_USUAL_WAYS)
    };
    Ok(total.and(try_model(rt, alloc, &of, ways, usual_ways)?))
}

fn main(rt: HostRuntime) -> Result<(), Failure> {
    let alloc = rt.alloc();
    let mut words = env::args(&rt).map_err(|_| Failure::Usage)?;
    let _program = words.next();
    let mut extent = Extent::Some;
    let mut total = Counts::default();
    for _ in 0..u64::MAX {
        let Some(path) = words.next() else {
            break;
        };
        if path.as_str() == "--all" {
            extent = Extent::All;
            continue;
        }
        if path.as_str() == "--writes" {
            extent = Extent::Writes;
            continue;
        }
        let Some(sectors) = words.next() else {
            return Err(Failure::Usage);
        };
        let Ok(sectors) = sectors.as_str().parse::<u32>() else {
            return Err(Failure::Usage);
        };
        total = total.and(try_file(&rt, alloc, path.as_str(), sectors, extent)?);
    }
    let Counts { stops, images } = total;
    if stops == 0 {
        return Err(Failure::Usage);
    }
    println!(rt;
        "{stops} stops, {images} images: nothing acknowledged was lost, and each run ended as the plain one"
    ).map_err(Failure::Output)?;
    Ok(())
}
