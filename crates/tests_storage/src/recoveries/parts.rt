// Disks of which a part is read: an inspection over it shows what one over the whole disk shows.
use super::*;
use disk::SectorDisk;
use recovery::{CHECKPOINT, END as END_KIND, EVENTS as EVENTS_KIND, encode_end, encode_parts};
use upkeep::inspection::{Inspection, PartDisk, SectorSource, inspect};

const LATER: u64 = 20;

/// The image of a disk, whose sectors are read from it.
#[derive(Drop)]
struct Image {
    bytes: Vec<u8>,
    /// How many sectors were read.
    read: usize,
}

impl SectorSource for Image {
    fn read_at(&mut self, first: u32, bytes: &mut [u8]) -> Result<(), DiskFault> {
        let from = first as usize * 512;
        let Some(rest) = self.bytes.get(from..) else {
            return Err(DiskFault::Device);
        };
        let Some(there) = rest.get(..bytes.len()) else {
            return Err(DiskFault::Device);
        };
        bytes.copy_from_slice(there);
        self.read = self.read.saturating_add(bytes.len() / 512);
        Ok(())
    }
}

/// Appends a checkpoint of the world after all events before the end.
fn keep(alloc: Global, log: &mut Log<MemDisk>) -> Result<(), Fail> {
    let front = front_at_the_end(alloc)?;
    let (numbers, states) = (front.numbers.as_slice(), front.states.as_slice());
    let pending = front.pending.as_slice();
    if numbers.len() != states.len() || pending.len() > 100 {
        return Err(Fail::new("no such front"));
    }
    let body = encode_parts(alloc, front.g, numbers, states, pending)?;
    Ok(log.append(CHECKPOINT, body.as_slice())?)
}

/// Appends records of what this word names.
fn add_named(alloc: Global, log: &mut Log<MemDisk>, word: &str) -> Result<(), Fail> {
    match word {
        "checkpoint" => keep(alloc, log)?,
        "seal" => log.seal()?,
        "end" => {
            let body = encode_end(alloc, LATER)?;
            log.append(END_KIND, body.as_slice())?;
        }
        "late" => commit(alloc, log, 12, &EVENTS[5..])?,
        // 100 events, which are not replayed if a checkpoint follows
        "long" => {
            let body = vec![in alloc; 0; 12 + 100 * 56]?;
            log.append(EVENTS_KIND, body.as_slice())?;
        }
        "short" => {
            for _ in 0..70 {
                log.append(EVENTS_KIND, &[0; 12])?;
            }
        }
        _ => return Err(Fail::new("no such record")),
    }
    Ok(())
}

/// The image of a disk with all events before the end, and these records.
fn image_of(alloc: Global, words: &str) -> Result<Vec<u8>, Fail> {
    let mut disk = MemDisk::blank(alloc, 256)?;
    format(&mut disk, &header(alloc, &ring(), END))?;
    let mut log = open(alloc, disk)?;
    for (g, first, end) in ALL {
        if let Some(numbers) = EVENTS.get(first..end) {
            commit(alloc, &mut log, g, numbers)?;
        }
    }
    for word in words.split_whitespace() {
        add_named(alloc, &mut log, word)?;
    }
    Ok(log.into_disk().crash(alloc, Torn::New)?)
}

/// The part of a disk with this image that is read, and how many sectors were read.
fn part_of(alloc: Global, image: &[u8]) -> Result<(Option<PartDisk>, usize), Fail> {
    let mut source = Image {
        bytes: image.to_vec(alloc)?,
        read: 0,
    };
    let sectors = u32::try_from(image.len() / 512)?;
    let part = PartDisk::of(alloc, &mut source, sectors);
    Ok((part, source.read))
}

/// What an inspection over the part shows, if it is not refused.
fn shown_by_part(alloc: Global, image: &[u8], end: u64) -> Result<Option<Inspection>, Fail> {
    match part_of(alloc, image)? {
        (Some(part), _) => Ok(inspect(alloc, &ring(), part, end).ok()),
        (None, _) => Ok(None),
    }
}

/// What an inspection over the whole disk shows, if it is not refused.
fn shown_by_whole(alloc: Global, image: &[u8], end: u64) -> Result<Option<Inspection>, Fail> {
    if image.len() > 1 << 24 {
        return Err(Fail::new("the image is too long"));
    }
    let disk = MemDisk::of(alloc, image.to_vec(alloc)?, DiskPlan::default())?;
    Ok(inspect(alloc, &ring(), disk, end).ok())
}

/// Records after the first commits, the end in force then, and whether a part of the disk serves.
const DISKS: &str = "\
checkpoint | 10 | part
long checkpoint | 10 | part
long checkpoint end late | 20 | part
end long checkpoint late | 20 | part
checkpoint long checkpoint end | 20 | part
short checkpoint | 10 | part
seal checkpoint | 10 | whole
checkpoint seal | 10 | whole
end late | 20 | whole";

/// Whether an inspection of the disk in this row shows the same over its part, or needs the whole.
fn is_shown_so(alloc: Global, row: &str) -> Result<bool, Fail> {
    let mut cells = row.split(" | ");
    let (Some(words), Some(end), Some(kind)) = (cells.next(), cells.next(), cells.next()) else {
        return Ok(false);
    };
    let image = image_of(alloc, words)?;
    let end = end.parse::<u64>()?;
    let whole = shown_by_whole(alloc, image.as_slice(), end)?;
    let part = shown_by_part(alloc, image.as_slice(), end)?;
    Ok(
        whole.is_some()
            && (if kind == "part" {
                part == whole
            } else {
                part.is_none()
            }),
    )
}

fn are_shown_so(alloc: Global) -> Result<bool, Fail> {
    for row in DISKS.lines() {
        if !is_shown_so(alloc, row)? {
            return Ok(false);
        }
    }
    Ok(true)
}

#[test]
fn a_part_shows_what_the_whole_disk_shows(rt: HostRuntime) -> Result<(), Fail> {
    assert!(rt; are_shown_so(rt.alloc())?);
    Ok(())
}

/// Whether, with the byte at a place changed, a part shows what the whole disk shows, or refuses.
fn agrees_at(alloc: Global, image: &[u8], place: usize) -> Result<bool, Fail> {
    let mut damaged = image.to_vec(alloc)?;
    let Some(byte) = damaged.get_mut(place) else {
        return Ok(false);
    };
    *byte ^= 1;
    let part = shown_by_part(alloc, damaged.as_slice(), LATER)?;
    Ok(part.is_none() || part == shown_by_whole(alloc, damaged.as_slice(), LATER)?)
}

/// Sectors of the log that have something, and a few after them.
const WRITTEN: usize = 32;

/// Whether it does with any of some bytes of each written sector changed.
fn agree_everywhere(alloc: Global) -> Result<bool, Fail> {
    let image = image_of(alloc, "long checkpoint end late")?;
    for sector in 0..WRITTEN {
        for byte in [0, 20, 511] {
            if !agrees_at(alloc, image.as_slice(), (512 * sector).saturating_add(byte))? {
                return Ok(false);
            }
        }
    }
    Ok(true)
}

#[test]
fn a_part_of_a_damaged_disk_shows_nothing_else(rt: HostRuntime) -> Result<(), Fail> {
    assert!(rt; agree_everywhere(rt.alloc())?);
    Ok(())
}

/// A sector of the long record, whose data lie in sectors 9 to 19 after its gate.
const WITHIN_THE_LONG: u32 = 17;

/// Whether a sector that was not read is refused, and no other.
fn is_refused(alloc: Global) -> Result<bool, Fail> {
    let image = image_of(alloc, "long checkpoint")?;
    let (part, read) = part_of(alloc, image.as_slice())?;
    let Some(mut part) = part else {
        return Ok(false);
    };
    let mut sector = [0; 512];
    Ok(
        part.sectors() == 256
            && read < 40
            && part.read(1, &mut sector).is_ok()
            && image.get(512..1024) == Some(sector.as_slice())
            && part.read(WITHIN_THE_LONG, &mut sector) == Err(DiskFault::Device)
            && part.read(200, &mut sector) == Err(DiskFault::Device)
            && part.read(256, &mut sector) == Err(DiskFault::NoSuchSector)
            && part.sync().is_ok(),
    )
}

#[test]
fn a_sector_that_was_not_read_is_refused(rt: HostRuntime) -> Result<(), Fail> {
    assert!(rt; is_refused(rt.alloc())?);
    Ok(())
}

/// Whether a part is not written.
fn is_not_written(alloc: Global) -> Result<bool, Fail> {
    let image = image_of(alloc, "checkpoint")?;
    let (Some(mut part), _) = part_of(alloc, image.as_slice())? else {
        return Ok(false);
    };
    let mut sector = [0; 512];
    Ok(
        part.write(256, &sector) == Err(DiskFault::NoSuchSector)
            && part.sync().is_ok()
            && part.write(1, &sector) == Err(DiskFault::Device)
            && part.sync() == Err(DiskFault::Device)
            && part.read(1, &mut sector).is_ok()
            && image.get(512..1024) == Some(sector.as_slice()),
    )
}

#[test]
fn a_part_is_not_written(rt: HostRuntime) -> Result<(), Fail> {
    assert!(rt; is_not_written(rt.alloc())?);
    Ok(())
}
