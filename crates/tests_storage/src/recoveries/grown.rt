// Disks that grow: the disk comes back at every outcome.
use super::*;
use disk::{GrowthFault, MOST_SECTORS, Returned};
use upkeep::growing::{GrowingFault, Grown, grow};

/// Numbers of sectors that a disk of 64 is asked to have, and what a growth to each of them prints.
const GROWTHS: &str = "\
63 | Fewer
64 | grown 64 to 64
65 | grown 64 to 65
131073 | TooMany";

/// What a growth prints. An allocation failure ends the test.
fn growth_text(alloc: Global, outcome: Result<Grown, GrowingFault>) -> Result<String, Fail> {
    match outcome {
        Ok(Grown { before, sectors }) => Ok(format!(in alloc; "grown {before} to {sectors}")?),
        Err(GrowingFault::Growth(GrowthFault::NoMemory)) => Err(Fail::new("no memory")),
        Err(GrowingFault::Recovery(fault)) if is_of_memory(&fault) => Err(Fail::from(fault)),
        Err(fault) => Ok(format!(in alloc; "{fault}")?),
    }
}

/// Whether a growth prints what stands in the row, and returns the disk: with sectors of zeros after
/// the old ones, or as it was if the growth is refused.
fn is_grown_so(alloc: Global, row: &str) -> Result<bool, Fail> {
    let Some((sectors, text)) = row.split_once(" | ") else {
        return Ok(false);
    };
    let disk = log_of(alloc, &ALL)?.into_disk();
    let mut image = disk.crash(alloc, Torn::New)?;
    let sectors = sectors.parse::<u32>()?;
    let Returned { disk, outcome } = grow(alloc, &ring(), disk, sectors, MOST_SECTORS);
    if let Ok(done) = outcome {
        for _ in done.before..done.sectors {
            image.extend_from_slice(&[0; 512])?;
        }
    }
    let is_returned = disk.crash(alloc, Torn::New)?.as_slice() == image.as_slice();
    Ok(is_returned && growth_text(alloc, outcome)?.as_str() == text)
}

fn are_grown_so(alloc: Global) -> Result<bool, Fail> {
    for row in GROWTHS.lines() {
        if !is_grown_so(alloc, row)? {
            return Ok(false);
        }
    }
    Ok(true)
}

#[test]
fn a_growth_returns_the_disk_at_every_outcome(rt: HostRuntime) -> Result<(), Fail> {
    assert!(rt; are_grown_so(rt.alloc())?);
    Ok(())
}
