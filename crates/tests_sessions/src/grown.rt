// Full disks that grow.

use crate::disks::{END, Nobody, disk_of, front_of, front_on, left_by, plan, reached, ring};
use commitlog::LogFault;
use coordinator::SessionFault;
use disk::{DiskFault, DiskPlan, GrowthFault, MOST_SECTORS, MemDisk, Returned, SectorDisk, Torn};
use models::TokenRing;
use recovery::{Front, RecoveryFault};
use runs::{RunFault, run_local};
use std::alloc::Global;
use std::test::Fail;
use upkeep::growing::{GrowingFault, Grown, grow};

/// What a crash may leave in the sectors that were written since the last sync.
const TORN: [Torn; 4] = [Torn::Old, Torn::New, Torn::Fill(1), Torn::Cut(7)];

/// A disk with this image, whose operation number `fail` fails, counted from 0.
fn planned(alloc: Global, image: &[u8], fail: Option<u64>) -> Result<MemDisk, Fail> {
    Ok(disk_of(alloc, image.to_vec(alloc)?, DiskPlan { fail, stop: None })?)
}

/// Grows a disk of this ring; a second call after an allocation failure.
fn grown(
    alloc: Global,
    ring: &TokenRing,
    disk: MemDisk,
    sectors: u32,
) -> Returned<MemDisk, Grown, GrowingFault> {
    let Returned { disk, outcome } = grow(alloc, ring, disk, sectors, MOST_SECTORS);
    match outcome {
        // once more after an allocation failure
        Err(
            GrowingFault::Growth(GrowthFault::NoMemory)
            | GrowingFault::Recovery(RecoveryFault::NoMemory)
            | GrowingFault::Recovery(RecoveryFault::Log(LogFault::NoMemory)),
        ) => grow(alloc, ring, disk, sectors, MOST_SECTORS),
        outcome => Returned { disk, outcome },
    }
}

/// The image that a run to time 10 leaves on a disk of this size, and the fault that stopped it.
fn image_of(alloc: Global, sectors: u32) -> Result<(Vec<u8>, Option<RunFault>), Fail> {
    let (disk, fault) = left_by(alloc, &ring(), sectors, END, plan(3, 16, 0))?;
    Ok((disk.crash(alloc, Torn::Old)?, fault))
}

/// That of a disk of eight sectors, which is full at time 7.
fn full(alloc: Global) -> Result<Vec<u8>, Fail> {
    let (image, fault) = image_of(alloc, 8)?;
    if fault == Some(RunFault::Session(SessionFault::Full)) {
        Ok(image)
    } else {
        Err(Fail::from("the disk is not full"))
    }
}

/// Whether an image followed by no, one or two sectors of zeros represents this front.
fn represents(alloc: Global, image: Vec<u8>, front: &Front) -> Result<bool, Fail> {
    let mut image = image;
    for _ in 0..3 {
        if !front_of(alloc, &ring(), image.to_vec(alloc)?, END)?.is_same(front) {
            return Ok(false);
        }
        image.extend_from_slice(&[0; 512])?;
    }
    Ok(true)
}

/// Whether each crash of a disk leaves this front.
fn leaves(alloc: Global, disk: &MemDisk, front: &Front) -> Result<bool, Fail> {
    for torn in TORN {
        if !represents(alloc, disk.crash(alloc, torn)?, front)? {
            return Ok(false);
        }
    }
    Ok(true)
}

/// Whether a full disk that grows to this size represents the front before, and a run on it the
/// whole one, for which eight sectors are too few.
fn goes_on(
    alloc: Global,
    image: &[u8],
    sectors: u32,
    before: &Front,
    whole: &Front,
) -> Result<bool, Fail> {
    let Returned { disk, outcome } = grown(alloc, &ring(), planned(alloc, image, None)?, sectors);
    let Ok(done) = outcome else {
        return Err(Fail::from("the disk has not grown"));
    };
    let is_grown = (done.before, done.sectors, disk.sectors()) == (8, sectors, sectors)
        && leaves(alloc, &disk, before)?;
    let ran = run_local(alloc, &ring(), disk, END, plan(2, 16, 0), &mut Nobody);
    // the next record and its gate take the last two of nine sectors
    if sectors == 8 {
        return Ok(is_grown && ran.outcome.err() == Some(RunFault::Session(SessionFault::Full)));
    }
    let is_run = ran.outcome.is_ok();
    Ok(is_grown && is_run && front_on(alloc, &ring(), &ran.disk, END)?.is_same(whole))
}

#[test]
fn a_run_goes_on_after_a_full_disk_grows(rt: HostRuntime) -> Result<(), Fail> {
    let image = full(rt.alloc())?;
    let before = front_of(rt.alloc(), &ring(), image.to_vec(rt.alloc())?, END)?;
    assert!(rt; before.g == 7 && before.log.as_slice().len() == 3);
    let whole = reached(rt.alloc(), &ring(), 64, END, plan(3, 16, 0))?;
    for sectors in [8, 9, 64] {
        assert!(rt;
            goes_on(rt.alloc(), &image, sectors, &before, &whole)?,
            "{sectors}"
        );
    }
    Ok(())
}

/// Whether a growth fails that meets this failing operation; then the fault must be of the device.
/// The world must be kept.
fn fails(alloc: Global, image: &[u8], number: u64, front: &Front) -> Result<bool, Fail> {
    let Returned { disk, outcome } = grown(
        alloc,
        &ring(),
        planned(alloc, image, Some(number))?,
        64,
    );
    let is_failed = match outcome {
        Ok(_grown) => false,
        Err(
            GrowingFault::Growth(GrowthFault::Device)
            | GrowingFault::Recovery(RecoveryFault::Log(LogFault::Disk(DiskFault::Device))),
        ) => true,
        Err(fault) => return Err(Fail::from(fault)),
    };
    if !leaves(alloc, &disk, front)? || is_failed && disk.sectors() != 8 {
        return Err(Fail::from("the world is not kept"));
    }
    Ok(is_failed)
}

#[test]
fn each_failed_growth_keeps_the_world(rt: HostRuntime) -> Result<(), Fail> {
    let image = full(rt.alloc())?;
    let front = front_of(rt.alloc(), &ring(), image.to_vec(rt.alloc())?, END)?;
    let mut failures: u32 = 0;
    for number in 0..30 {
        if fails(rt.alloc(), &image, number, &front)? {
            failures = failures.saturating_add(1);
        }
    }
    // one failure for the sync and for each read of the opening, and one for the growth
    assert!(rt; 5 < failures && failures < 20, "{failures} failures");
    Ok(())
}

/// Whether a disk, on which a run whose operation of this number fails may have left dirty sectors,
/// grows again, keeps what was committed, and the run then ends. True where the first growth fails.
fn keeps_what_is_committed(alloc: Global, image: &[u8], number: u64) -> Result<bool, Fail> {
    let done = grown(alloc, &ring(), planned(alloc, image, Some(number))?, 16);
    if done.outcome.is_err() {
        return Ok(true);
    }
    let ran = run_local(alloc, &ring(), done.disk, END, plan(3, 16, 0), &mut Nobody);
    let outcome = front_on(alloc, &ring(), &ran.disk, END)?;
    let again = grown(alloc, &ring(), ran.disk, 32);
    if again.outcome.is_err() {
        return Err(Fail::from("the disk has not grown again"));
    }
    let kept = front_of(alloc, &ring(), again.disk.crash(alloc, Torn::Fill(1))?, END)?;
    let is_kept = outcome.g <= kept.g && again.disk.sectors() == 32;
    let ran = run_local(alloc, &ring(), again.disk, END, plan(3, 16, 0), &mut Nobody);
    Ok(is_kept && ran.outcome.is_ok())
}

#[test]
fn a_growth_with_dirty_sectors_keeps_what_was_committed(rt: HostRuntime) -> Result<(), Fail> {
    let (image, _full) = image_of(rt.alloc(), 6)?;
    for number in 0..24 {
        assert!(rt;
            keeps_what_is_committed(rt.alloc(), &image, number)?,
            "failure {number}"
        );
    }
    Ok(())
}

/// Why a disk of this image does not grow to this size. Fails if the disk changes.
fn refusal(
    alloc: Global,
    ring: &TokenRing,
    image: &[u8],
    sectors: u32,
) -> Result<Option<GrowingFault>, Fail> {
    let Returned { disk, outcome } = grown(alloc, ring, planned(alloc, image, None)?, sectors);
    match outcome {
        Ok(_grown) => Ok(None),
        Err(fault) => {
            if disk.crash(alloc, Torn::New)?.as_slice() != image {
                return Err(Fail::from("the disk is changed"));
            }
            Ok(Some(fault))
        }
    }
}

#[test]
fn only_a_disk_of_the_model_grows(rt: HostRuntime) -> Result<(), Fail> {
    let alloc = rt.alloc();
    let image = full(alloc)?;
    let other = TokenRing::new(3, 3, 1);
    let of_log = |fault| Some(GrowingFault::Recovery(RecoveryFault::Log(fault)));
    assert!(rt;
        refusal(alloc, &other, &image, 64)?
            == Some(GrowingFault::Recovery(RecoveryFault::OtherModel))
    );
    assert!(rt; refusal(alloc, &ring(), &[0; 8 * 512], 64)? == of_log(LogFault::NotFormatted));
    assert!(rt; refusal(alloc, &ring(), &[1; 8 * 512], 64)? == of_log(LogFault::Corrupt));
    for (sectors, fault) in [
        (7, GrowthFault::Fewer),
        (0, GrowthFault::Fewer),
        (131_073, GrowthFault::TooMany),
        (u32::MAX, GrowthFault::TooMany),
    ] {
        assert!(rt; refusal(alloc, &ring(), &image, sectors)? == Some(GrowingFault::Growth(fault)));
    }
    assert!(rt; refusal(alloc, &ring(), &image, 8)?.is_none());
    Ok(())
}
