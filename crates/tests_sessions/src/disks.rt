// Models, plans, disks in memory, and what is on them.

ghost use Rattle.std.specs.Prelude.{◌≡◌, ◌<◌, ◌≤◌};
ghost use Rattle.node.specs.Node.{most_nodes};

use commitlog::{Log, LogFault, format};
use coordinator::{Session, SessionFault};
use disk::{DiskPlan, MemDisk, NotOpened, Torn};
use model::Model as Simulated;
use models::{Phold, TokenRing};
use recovery::{Front, header, recover};
use runs::{Batch, Plan, RunFault, Schedule, Watch, local_ports, run_local};
use std::alloc::{AllocError, Global};
use std::test::Fail;
use wire::LocalPort;

/// The end of the rings, in ticks.
pub(crate) const END: u64 = 10;

/// What a crash leaves in the dirty sectors of a disk.
pub(crate) const TEARINGS: [Torn; 3] = [Torn::Old, Torn::New, Torn::Fill(1)];

/// One token that goes round three processes, two ticks at each.
pub(crate) fn ring() -> TokenRing {
    TokenRing::new(3, 2, 1)
}

/// A ring of two tokens.
pub(crate) fn two_tokens() -> TokenRing {
    TokenRing::new(3, 2, 2)
}

pub(crate) fn phold() -> Phold {
    Phold::new(16, 2, 20, 7)
}

/// A watcher that ignores commits.
#[derive(Clone, Copy)]
pub(crate) struct Nobody;

impl Watch for Nobody {
    fn committed(&mut self, _time: u64, _events: usize) {}
}

/// A plan with this number of nodes, 1 to 64, this batch, and a checkpoint after each `every`
/// rounds.
pub(crate) fn plan(nodes: u32, batch: u32, every: u32) -> Plan
    ensures some { 0 < result.nodes }
    ensures few { result.nodes ≤ most_nodes }
{
    Plan {
        nodes: nodes.clamp(1, 64),
        batch: Batch::Fixed(batch),
        rounds: 1_000_000,
        schedule: Schedule::InTurn,
        checkpoint_every: every,
        seals: false,
        commit_every: 0,
        judged: false,
    }
}

fn made<M: Simulated>(
    alloc: Global,
    model: &M,
    sectors: u32,
    end: u64,
) -> Result<MemDisk, LogFault> {
    let mut disk = MemDisk::blank(alloc, sectors)?;
    format(&mut disk, &header(alloc, model, end))?;
    Ok(disk)
}

/// A disk of this size with an empty log of a model; made again after an allocation failure.
pub(crate) fn formatted<M: Simulated>(
    alloc: Global,
    model: &M,
    sectors: u32,
    end: u64,
) -> Result<MemDisk, LogFault> {
    match made(alloc, model, sectors, end) {
        Err(LogFault::NoMemory) => made(alloc, model, sectors, end),
        disk => disk,
    }
}

/// A disk with this image, whose operations fail by this plan; an empty one if the image has more
/// than 16 MiB.
pub(crate) fn disk_of(
    alloc: Global,
    image: Vec<u8>,
    plan: DiskPlan,
) -> Result<MemDisk, AllocError> {
    if image.len() > 1 << 24 {
        return MemDisk::blank(alloc, 0);
    }
    MemDisk::of(alloc, image, plan)
}

/// The disk that a run to this end leaves, at most 1,000 ticks, and the fault that stopped it, if
/// any.
pub(crate) fn left_by<M: Simulated>(
    alloc: Global,
    model: &M,
    sectors: u32,
    end: u64,
    plan: Plan,
) -> Result<(MemDisk, Option<RunFault>), LogFault>
    requires some { 0 < plan.nodes }
    requires few { plan.nodes ≤ most_nodes }
{
    let disk = formatted(alloc, model, sectors, end)?;
    let ran = run_local(alloc, model, disk, end.clamp(1, 1000), plan, &mut Nobody);
    Ok((ran.disk, ran.outcome.err()))
}

/// The front that an image represents, for this end.
pub(crate) fn front_of<M: Simulated>(
    alloc: Global,
    model: &M,
    image: Vec<u8>,
    end: u64,
) -> Result<Front, Fail> {
    let disk = disk_of(alloc, image, DiskPlan::default())?;
    let mut log = match Log::open(alloc, disk) {
        Ok(log) => log,
        Err(NotOpened { fault, disk: _ }) => return Err(Fail::from(fault)),
    };
    Ok(recover(alloc, model, &mut log, end)?)
}

/// The front that the synced sectors of a disk represent, for this end.
pub(crate) fn front_on<M: Simulated>(
    alloc: Global,
    model: &M,
    disk: &MemDisk,
    end: u64,
) -> Result<Front, Fail> {
    front_of(alloc, model, disk.crash(alloc, Torn::Old)?, end)
}

/// The front that a whole run to this end leaves on a disk.
pub(crate) fn reached<M: Simulated>(
    alloc: Global,
    model: &M,
    sectors: u32,
    end: u64,
    plan: Plan,
) -> Result<Front, Fail>
    requires some { 0 < plan.nodes }
    requires few { plan.nodes ≤ most_nodes }
{
    let (disk, fault) = left_by(alloc, model, sectors, end, plan)?;
    match fault {
        None => front_on(alloc, model, &disk, end),
        Some(fault) => Err(Fail::from(fault)),
    }
}

/// A session over local nodes.
pub(crate) type Near<'m, M> = Session<'m, M, LocalPort<'m, M>, MemDisk>;

/// Opens a disk over three local nodes.
pub(crate) fn near<M: Simulated>(
    alloc: Global,
    model: &M,
    disk: MemDisk,
) -> Result<Near<'_, M>, NotOpened<MemDisk, SessionFault>> {
    match local_ports(alloc, model, 3) {
        Ok(ports) => Session::open(alloc, model, ports, disk, END),
        Err(_refused) => Err(NotOpened {
            fault: SessionFault::NoMemory,
            disk,
        }),
    }
}

/// The same; the fault alone if the opening is refused.
pub(crate) fn opened<M: Simulated>(
    alloc: Global,
    model: &M,
    disk: MemDisk,
) -> Result<Near<'_, M>, SessionFault> {
    match near(alloc, model, disk) {
        Ok(session) => Ok(session),
        Err(NotOpened { fault, disk: _ }) => Err(fault),
    }
}
