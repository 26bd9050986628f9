// Where the simulation on a disk begins: as its model does, or with the origin of a segment.

ghost use Rattle.std.specs.Prelude.{◌≡◌, length, slice_set, IfOk, IfSome, None, Some};
ghost use Rattle.segments.specs.Archiving.{events_before, IsBegunAt, IsTimeIn};
ghost use Rattle.commitlog.specs.Records.{open_bytes};
ghost use Rattle.disk.specs.Disk.{OnlyLooks};
ghost use Rattle.eventkey.specs.Writing.{Writes};
ghost use Rattle.model.specs.Meaning.{CanBegin};
ghost use Rattle.recovery.specs.Front.{world_of};
ghost use Rattle.segments.specs.Segments.{origin_in};
ghost use Rattle.upkeep.specs.Rows.{row_of};
ghost use Rattle.views.specs.Reading.{believed_line, believed_text, BeginsInRow, BeginsWith};
ghost use Rattle.views.specs.Reading.{since_origin, IsFrontOn};

use crate::fault::ViewFault;
use crate::files::open_disk;
use commitlog::Entry;
use disk::{Returned, SectorDisk};
use model::{Continued, Model as Modelled, Origin};
use recovery::{Front, RecoveryFault};
use segments::archiving::{
    beginning_in, events_before, front_on, may_have_origin, may_have_origin_in_row, origin_on,
};
use std::alloc::Global;
use std::fs::File;
use std::io::{Result as IoResult, Write};
use std::rt::Files;
use texts::{write_number, write_text};
use upkeep::inspection::{Inspection, Pace};
use upkeep::{copy_opened, first_in_row};

/// A disk, and where its simulation begins.
#[derive(Drop)]
pub struct BegunDisk<D> {
    /// The disk.
    pub disk: D,
    /// The origin; none if the simulation begins as its model does.
    pub origin: Option<Origin>,
    /// The virtual time from which the simulation goes on, in ticks; 0 without an origin.
    pub time: u64,
}

impl<D: SectorDisk> BegunDisk<D> {
    /// Reads the origin of a disk. If it cannot be read, the command on the disk finds out why.
    pub fn of<M: Modelled>(alloc: Global, model: &M, disk: D) -> BegunDisk<D>
        ensures sound { CanBegin (M.meaning model.now).lps result.origin }
        ensures begins { BeginsWith (M.meaning model.now).lps (D.state result.disk).reads
            result.origin }
        ensures at { IfSome result.origin
            (λ o. IsBegunAt (D.state result.disk).reads result.time) }
        ensures looks { OnlyLooks (D.state disk) (D.state result.disk) }
    {
        let mut disk = disk;
        if !may_have_origin(&mut disk) {
            return BegunDisk {
                disk,
                origin: None,
                time: 0,
            };
        }
        let Returned { disk, outcome } = origin_on(alloc, model, disk);
        match outcome {
            Ok((origin, time)) => BegunDisk { disk, origin, time },
            Err(_) => BegunDisk {
                disk,
                origin: None,
                time: 0,
            },
        }
    }

    /// Returns the time from which a segment goes on whose origin is believed.
    pub fn believed(&self) -> Option<u64>
        ensures none { self.now.origin ≡ None → result ≡ None }
        ensures some { IfSome self.now.origin (λ o. result ≡ Some self.now.time) }
    {
        believed_at(&self.origin, self.time)
    }

    /// Returns the number of events before the disk.
    pub fn events_before(&self) -> u64
        ensures none { self.now.origin ≡ None → result ≡ 0 }
        ensures some { IfSome self.now.origin
            (λ o. result ≡ events_before o.numbers (length o.pending)) }
    {
        match &self.origin {
            Some(origin) => events_before_origin(origin),
            None => 0,
        }
    }
}

/// Where the simulation on a damaged disk begins.
#[derive(Drop)]
pub struct Beginning {
    /// The origin; none if the simulation begins as its model does.
    pub origin: Option<Origin>,
    /// The virtual time from which the simulation goes on, in ticks; 0 without an origin.
    pub time: u64,
}

impl Beginning {
    /// Returns the time from which a segment goes on whose origin is believed.
    pub fn believed(&self) -> Option<u64>
        ensures none { self.now.origin ≡ None → result ≡ None }
        ensures some { IfSome self.now.origin (λ o. result ≡ Some self.now.time) }
    {
        believed_at(&self.origin, self.time)
    }

    /// Reads the origin of a disk whose gate is closed, as if it were open. If it cannot be read, the
    /// command on the disk finds out why. Copies a segment into memory.
    pub fn behind_gate<M: Modelled, D: SectorDisk>(
        alloc: Global,
        model: &M,
        disk: &mut D,
    ) -> Beginning
        ensures sound { CanBegin (M.meaning model.now).lps result.origin }
        ensures begins { BeginsWith (M.meaning model.now).lps
            (slice_set (D.state disk.old).reads 0 open_bytes) result.origin }
        ensures at { IfSome result.origin (λ o.
            IsBegunAt (slice_set (D.state disk.old).reads 0 open_bytes) result.time) }
        ensures looks { OnlyLooks (D.state disk.old) (D.state disk.new) }
    {
        if !may_have_origin(disk) {
            return Beginning {
                origin: None,
                time: 0,
            };
        }
        let Ok(copy) = copy_opened(alloc, disk) else {
            return Beginning {
                origin: None,
                time: 0,
            };
        };
        beginning_on(alloc, model, copy)
    }

    /// Reads the origin of a disk whose header or gates may be lost: that of the records in a row on
    /// it. If it cannot be read, the command on the disk finds out why. Copies a segment into memory.
    pub fn in_row<M: Modelled, D: SectorDisk>(alloc: Global, model: &M, disk: &mut D) -> Beginning
        ensures sound { CanBegin (M.meaning model.now).lps result.origin }
        ensures begins { BeginsInRow (M.meaning model.now).lps (D.state disk.old).reads
            result.origin }
        ensures at { IfSome result.origin
            (λ o. IsTimeIn (row_of (D.state disk.old).reads) result.time) }
        ensures looks { OnlyLooks (D.state disk.old) (D.state disk.new) }
    {
        if !may_have_origin_in_row(disk) {
            return Beginning {
                origin: None,
                time: 0,
            };
        }
        let Ok(first) = first_in_row(alloc, disk) else {
            return Beginning {
                origin: None,
                time: 0,
            };
        };
        beginning_of(alloc, model, first.as_slice())
    }
}

/// Reads where the simulation on a disk begins.
fn beginning_on<M: Modelled, D: SectorDisk + Drop>(alloc: Global, model: &M, disk: D) -> Beginning
    ensures sound { CanBegin (M.meaning model.now).lps result.origin }
    ensures begins { BeginsWith (M.meaning model.now).lps (D.state disk).reads result.origin }
    ensures at { IfSome result.origin (λ o. IsBegunAt (D.state disk).reads result.time) }
{
    let Returned {
        disk: _disk,
        outcome,
    } = origin_on(alloc, model, disk);
    match outcome {
        Ok((origin, time)) => Beginning { origin, time },
        Err(_) => Beginning {
            origin: None,
            time: 0,
        },
    }
}

/// Reads where the simulation begins whose first records are these.
fn beginning_of<M: Modelled>(alloc: Global, model: &M, first: &[Entry]) -> Beginning
    ensures sound { CanBegin (M.meaning model.now).lps result.origin }
    ensures begins { IfSome result.origin
        (λ o. origin_in (M.meaning model.now).lps first.now ≡ Some o) }
    ensures at { IfSome result.origin (λ o. IsTimeIn first.now result.time) }
{
    match beginning_in(alloc, model, first) {
        Ok((origin, time)) => Beginning { origin, time },
        Err(_) => Beginning {
            origin: None,
            time: 0,
        },
    }
}

/// Returns this time if there is an origin.
fn believed_at(origin: &Option<Origin>, time: u64) -> Option<u64>
    ensures none { origin.now ≡ None → result ≡ None }
    ensures some { IfSome origin.now (λ o. result ≡ Some time) }
{
    match origin {
        Some(_) => Some(time),
        None => None,
    }
}

/// Writes the line of a segment whose origin is believed, with the time from which it goes on, and
/// nothing without one.
pub fn write_believed_line<O: Write>(time: Option<u64>, out: &mut O) -> IoResult<()>
    ensures { Writes (O.contents out.old) (O.contents out.new) result (believed_line time) }
{
    match time {
        Some(time) => write_believed(time, out),
        None => Ok(()),
    }
}

/// Writes the time of an origin that is believed.
pub(crate) fn write_believed<O: Write>(time: u64, out: &mut O) -> IoResult<()>
    ensures { Writes (O.contents out.old) (O.contents out.new) result (believed_text time) }
{
    write_number("from the origin at ", time, out)?;
    write_text("\n", out)
}

/// Returns the number of events before an origin.
pub fn events_before_origin(origin: &Origin) -> u64
    ensures { result ≡ events_before origin.now.numbers (length origin.now.pending) }
{
    events_before(origin.numbers.as_slice(), origin.pending.as_slice().len())
}

/// Returns the front that a disk of this model and end represents, of at most `most` sectors, which
/// may be a segment.
///
/// Returns, in this order, `File` if it cannot be read, `Log` if the log is not opened, and
/// `Recovery` if no world is recovered.
pub fn front_of<M, R>(
    rt: &R,
    model: &M,
    end: u64,
    path: &str,
    most: u32,
) -> Result<Front, ViewFault>
where
    M: Modelled,
    R: Files<File = File> + AllocGlobal,
    ensures front { IfOk result (λ front.
        IsFrontOn (M.meaning model.now) end (world_of front)) }
    ensures each { IfOk result (λ front. length front.numbers ≡ length front.states) }
{
    let disk = open_disk(rt, path, most)?;
    let BegunDisk { disk, origin, .. } = BegunDisk::of(rt.alloc(), model, disk);
    let on = Continued::new(model, origin.as_ref());
    let Returned {
        disk: _disk,
        outcome,
    } = front_on(rt.alloc(), &on, end, disk);
    match outcome {
        Ok(front) => Ok(front),
        Err(RecoveryFault::Log(fault)) => Err(ViewFault::Log(fault)),
        Err(fault) => Err(ViewFault::Recovery(fault)),
    }
}

/// Returns an inspection of a segment, from whose origin these lines are, with no time before the
/// origin: it is the first record, a checkpoint at time 0.
pub(crate) fn since_origin(shown: Inspection, lines: Option<(u64, u64)>) -> Inspection
    ensures { result ≡ since_origin lines shown }
{
    let Some((time, _)) = lines else {
        return shown;
    };
    let last_checkpoint = match shown.last_checkpoint {
        Some(last) => Some(last.max(time)),
        None => None,
    };
    Inspection {
        last_checkpoint,
        pace: Pace {
            from: shown.pace.from.max(time),
            ..shown.pace
        },
        ..shown
    }
}
