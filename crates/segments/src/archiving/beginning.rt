// The making of a segment on a disk without a log.

ghost use Rattle.std.specs.Prelude.{◌≡◌, OnOk, length};
ghost use Rattle.segments.specs.Archiving.{IsMade};
ghost use Rattle.recovery.specs.Front.{world_of};

use crate::begin;
use commitlog::{Log, LogFault, format};
use disk::{Returned, SectorDisk};
use model::Model as Simulated;
use recovery::{Front, header};
use std::alloc::Global;

/// Makes the segment that goes on from a front, on a disk without a log, for a simulation up to the
/// end `end`, in ticks. It gives the disk back.
///
/// The outcome is `NotBlank` if the disk has a log, `Full` if it has no room for the first two records,
/// `TooLong` if the first would have more than 2^24 bytes, `NoMemory` or `Disk(Device)`. Costs one
/// pass over all states and pending messages.
pub fn begin_on<M: Simulated, D: SectorDisk>(
    alloc: Global,
    model: &M,
    end: u64,
    front: &Front,
    disk: D,
) -> Returned<D, (), LogFault>
    requires numbers { length front.now.numbers ≡ length front.now.states }
    ensures made { OnOk result.outcome
        (IsMade (M.meaning model.now) end (world_of front.now) (D.state result.disk)) }
{
    let mut disk = disk;
    let sector = header(alloc, model, end);
    if let Err(fault) = format(&mut disk, &sector) {
        return Returned {
            disk,
            outcome: Err(fault),
        };
    }
    let mut log = match Log::open(alloc, disk) {
        Ok(log) => log,
        Err(refused) => {
            return Returned {
                disk: refused.disk,
                outcome: Err(refused.fault),
            };
        }
    };
    let outcome = begin(alloc, &mut log, front);
    Returned {
        disk: log.into_disk(),
        outcome,
    }
}
