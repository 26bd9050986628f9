// Simulations over one segment after another: a token ring that changes its disk.

ghost use Rattle.std.specs.Prelude.{◌≡◌, false, IfOk};

use commitlog::{Log, LogFault, format};
use disk::{DiskPlan, MemDisk, NotOpened, Torn};
use eventkey::Message;
use model::Continued;
use models::TokenRing;
use plain::{PlainPlan, PlainWatch, run_plain};
use recovery::{Front, RecoveryFault, header, recover};
use segments::{begin, goes_on, origin_of};
use std::alloc::Global;
use std::test::Fail;

mod repairs;

pub(crate) const END: u64 = 40;

const SECTORS: u32 = 256;

/// What a crash leaves in the dirty sectors of a disk.
pub(crate) const TEARINGS: [Torn; 4] = [Torn::Old, Torn::New, Torn::Fill(1), Torn::Cut(7)];

pub(crate) fn ring() -> TokenRing {
    TokenRing::new(3, 2, 2)
}

#[derive(Clone, Copy)]
pub(crate) struct Nobody;

impl PlainWatch for Nobody {
    fn committed(&mut self, _time: u64, _events: usize) {}
}

/// A disk of this image that fails by this plan.
pub(crate) fn disk_of(alloc: Global, image: Vec<u8>, plan: DiskPlan) -> Result<MemDisk, Fail> {
    if image.len() > 1 << 24 {
        return Err(Fail::from("the image is too long"));
    }
    Ok(MemDisk::of(alloc, image, plan)?)
}

/// The log of a disk.
fn open(alloc: Global, disk: MemDisk) -> Result<Log<MemDisk>, LogFault>
    ensures { IfOk result (λ log. log.spent ≡ false) }
{
    match Log::open(alloc, disk) {
        Ok(log) => Ok(log),
        Err(NotOpened { fault, disk: _ }) => Err(fault),
    }
}

/// An image with an empty log of the ring.
pub(crate) fn blank(alloc: Global) -> Result<Vec<u8>, Fail> {
    let mut disk = MemDisk::blank(alloc, SECTORS)?;
    format(&mut disk, &header(alloc, &ring(), END))?;
    Ok(disk.crash(alloc, Torn::New)?)
}

/// The disk of a segment that goes on from this front, on one that fails by this plan, and whether
/// it was made.
fn segment(alloc: Global, front: &Front, failures: DiskPlan) -> Result<(MemDisk, bool), Fail> {
    let disk = disk_of(alloc, blank(alloc)?, failures)?;
    let mut log = match Log::open(alloc, disk) {
        Ok(log) => log,
        Err(NotOpened { fault: _, disk }) => return Ok((disk, false)),
    };
    if log.len() > 0 || front.numbers.as_slice().len() != front.states.as_slice().len() {
        return Err(Fail::from("the log is not empty"));
    }
    let is_made = begin(alloc, &mut log, front).is_ok();
    Ok((log.into_disk(), is_made))
}

/// The front of a disk.
fn front_on(
    alloc: Global,
    model: &Continued<'_, TokenRing>,
    disk: MemDisk,
) -> Result<Front, RecoveryFault> {
    let mut log = open(alloc, disk)?;
    recover(alloc, model, &mut log, END)
}

/// Goes on from the front of an image with this number of commits, each of one event at least, and appends
/// its events to `joined`. Returns the new front.
pub(crate) fn part(
    alloc: Global,
    image: Vec<u8>,
    commits: u32,
    joined: &mut Vec<Message>,
) -> Result<Front, Fail> {
    let ring = ring();
    let mut log = open(alloc, disk_of(alloc, image, DiskPlan::default())?)?;
    let origin = origin_of(alloc, &ring, &mut log)?;
    let model = Continued::new(&ring, origin.as_ref());
    let plan = PlainPlan {
        commit_every: 1,
        checkpoint_every: 2,
        seals: true,
        commits,
    };
    let ran = run_plain(alloc, &model, log.into_disk(), END, plan, &mut Nobody);
    let found = front_on(alloc, &model, ran.disk);
    let front = found?;
    joined.extend_from_slice(front.log.as_slice())?;
    Ok(front)
}

/// Whether a new segment goes on from this front, and its image.
fn next(alloc: Global, front: &Front) -> Result<(bool, Vec<u8>), Fail> {
    let (disk, is_made) = segment(alloc, front, DiskPlan::default())?;
    let image = disk.crash(alloc, Torn::Old)?;
    let mut log = open(alloc, disk)?;
    match origin_of(alloc, &ring(), &mut log)? {
        Some(origin) => Ok((is_made && goes_on(front, &origin), image)),
        None => Ok((false, image)),
    }
}

/// Whether parts of this number of commits, one after another, are the simulation on one disk.
fn is_one_simulation(alloc: Global, commits: u32) -> Result<bool, Fail> {
    let mut events = Vec::new(alloc);
    let whole = part(alloc, blank(alloc)?, u32::MAX, &mut events)?;
    let mut joined = Vec::new(alloc);
    let mut last = part(alloc, blank(alloc)?, commits, &mut joined)?;
    for _ in 0..100 {
        if last.g == END {
            break;
        }
        let (goes_on, image) = next(alloc, &last)?;
        if !goes_on {
            return Ok(false);
        }
        last = part(alloc, image, commits, &mut joined)?;
    }
    Ok(
        whole.g == END
            && last.g == END
            && joined.as_slice() == events.as_slice()
            && last.states == whole.states
            && last.numbers == whole.numbers
            && last.pending == whole.pending,
    )
}

#[test]
fn a_chain_of_segments_is_one_simulation(rt: HostRuntime) -> Result<(), Fail> {
    for commits in 1..9 {
        assert!(rt; is_one_simulation(rt.alloc(), commits)?, "{commits}");
    }
    Ok(())
}

/// Whether an image that a crash left while a segment was made is the front's world: with the origin
/// of the segment, at time 0 or at the front's.
fn is_of_front(alloc: Global, left: Vec<u8>, made: Vec<u8>, front: &Front) -> Result<bool, Fail> {
    let ring = ring();
    let disk = disk_of(alloc, left, DiskPlan::default())?;
    let mut log = open(alloc, disk_of(alloc, made, DiskPlan::default())?)?;
    let origin = origin_of(alloc, &ring, &mut log)?;
    let model = Continued::new(&ring, origin.as_ref());
    let found = front_on(alloc, &model, disk);
    let found = found?;
    Ok(
        (found.g == 0 || found.g == front.g)
            && found.states == front.states
            && found.numbers == front.numbers
            && found.pending == front.pending,
    )
}

/// Makes a segment on a disk that fails by this plan, and crashes it in each way. Returns whether it
/// was made.
fn survives(alloc: Global, front: &Front, failures: DiskPlan) -> Result<bool, Fail> {
    let (_goes_on, made) = next(alloc, front)?;
    let (disk, is_made) = segment(alloc, front, failures)?;
    for torn in TEARINGS {
        if !is_of_front(alloc, disk.crash(alloc, torn)?, made.clone()?, front)? {
            return Err(Fail::from("the world is lost"));
        }
    }
    Ok(is_made)
}

#[test]
fn a_stop_or_a_failure_while_a_segment_is_made_keeps_its_world(
    rt: HostRuntime,
) -> Result<(), Fail> {
    let front = part(rt.alloc(), blank(rt.alloc())?, 3, &mut Vec::new(rt.alloc()))?;
    let mut stops: u32 = 0;
    for number in 0..30 {
        let stop = DiskPlan {
            fail: None,
            stop: Some(number),
        };
        let fail = DiskPlan {
            fail: Some(number),
            stop: None,
        };
        survives(rt.alloc(), &front, fail)?;
        if !survives(rt.alloc(), &front, stop)? {
            stops = stops.saturating_add(1);
        }
    }
    // two records of three writes each: their sectors, the next gate, their own gate
    assert!(rt; 4 < stops && stops < 12, "{stops} stops");
    Ok(())
}
